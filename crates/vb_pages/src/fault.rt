//! Why a call on pages is refused.

use thiserror::Error;

/// Why a call on pages is refused.
#[derive(Clone, Copy, Debug, PartialEq, Eq, Error)]
pub enum PageFault {
    /// An order over 9.
    #[error("no block has this order")]
    BadOrder = 1,
    /// No such processor.
    #[error("no such processor")]
    BadCpu = 2,
    /// No aligned block of the order is wholly free.
    #[error("no block of this order is free")]
    NoPages = 3,
    /// No allocation of just that block.
    #[error("no allocation has just this block")]
    NotHeld = 4,
}

//! Why a call on guest memory is refused.

ghost use Rattle.std.specs.Prelude.{◌≡◌};

use std::alloc::AllocError;
use thiserror::Error;

/// Why a call on guest memory is refused.
#[derive(Clone, Copy, Debug, PartialEq, Eq, Error)]
pub enum RamFault {
    /// The page is past the end of memory, or the bytes go over the end of the page.
    #[error("out of guest memory")]
    OutOfRam = 1,
    /// The page has no frame, and a byte was to be written.
    #[error("the page has no frame")]
    NeedsFrame = 2,
    /// The page has a frame already.
    #[error("the page has a frame already")]
    AlreadyBacked = 3,
    /// There is no memory for the pages' table or for a frame's bytes.
    #[error("out of memory")]
    Memory = 4,
}

impl From<AllocError> for RamFault {
    ghost use Rattle.vb_ram.specs.declared.fault.RamFault.{RamFault};

    ghost from_gives = { λ _ fault. fault ≡ RamFault.Memory };

    fn from(_: AllocError) -> Self {
        RamFault::Memory
    }
}

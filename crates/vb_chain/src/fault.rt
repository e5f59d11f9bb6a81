//! Why a chain is refused.

use thiserror::Error;

/// Why a chain is refused: the first rule that is broken on the way from its head.
#[derive(Clone, Copy, Debug, PartialEq, Eq, Error)]
pub enum ChainFault {
    /// The head is no number of a descriptor.
    #[error("the head is no descriptor of the queue")]
    BadHead = 1,
    /// NEXT is set, and `next` is no number of a descriptor.
    #[error("a next field names no descriptor of the queue")]
    BadNext = 2,
    /// NEXT is set after as many descriptors as the queue has.
    #[error("the chain is longer than the queue")]
    TooLong = 3,
    /// INDIRECT is set.
    #[error("an indirect descriptor")]
    Indirect = 4,
    /// A piece to be read comes after one to be written, or a piece has the wrong direction for
    /// its queue.
    #[error("a piece has the wrong direction")]
    WrongDirection = 5,
    /// The buffer goes over the end of guest memory.
    #[error("a buffer is out of guest memory")]
    OutOfRam = 6,
    /// The available index is further ahead than the queue has descriptors.
    #[error("the available index has jumped")]
    IndexJump = 7,
    /// The pieces' lengths are none that the queue takes.
    #[error("a length that the queue doesn't take")]
    BadLength = 8,
    /// A page number or address names no page of guest memory.
    #[error("no such page")]
    BadPage = 9,
    /// A reserved page is named.
    #[error("a reserved page")]
    ReservedPage = 10,
}

//! The number of what is to be done next.

/// What is to be done next: nothing, since the notice has ended.
pub const ENDED: u8 = 0;

/// The available index is read.
pub(crate) const INDEX: u8 = 1;

/// The entry that is next is.
pub(crate) const ENTRY: u8 = 2;

/// A row of descriptors is copied.
pub(crate) const DESCRIPTOR: u8 = 3;

/// A part of a piece is.
pub(crate) const PART: u8 = 4;

/// The driver's flags are read.
pub(crate) const FLAGS: u8 = 5;

/// A part is discarded.
pub(crate) const CUT: u8 = 6;

/// Pages are told.
pub(crate) const PAGES: u8 = 7;

/// Figures are.
pub(crate) const FIGURES: u8 = 8;

/// A chain is given back.
pub(crate) const USED: u8 = 9;

/// An id of hints is told.
pub(crate) const ID: u8 = 10;

/// The notice pauses.
pub(crate) const PAUSE: u8 = 11;

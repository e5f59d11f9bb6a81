//! What a notice may serve, and what it comes to.

use vb_core::Denial;

/// How much a notice may serve at most.
#[repr(C)]
#[derive(Clone, Copy, Debug)]
pub struct Budget {
    /// The most chains of a notice.
    pub chains: u32,
    /// No further chain begins once this many pages were named, and a notice pauses between two
    /// portions of one; a number that is skipped counts like a page.
    pub pages: u32,
    /// No page is discarded: what is named is told, and stays.
    pub keeps: bool,
    /// The most page numbers of an inflate or a deflate: a chain that has more breaks the rule of
    /// lengths (`ChainFault::BadLength`).
    pub longest: u32,
}

/// A chain that was taken, and isn't given back until it is asked for.
#[derive(Clone, Copy, Debug)]
pub struct HeldChain {
    /// The number of its first descriptor.
    pub head: u16,
    /// How many pages it names; none of statistics.
    pub pages: u32,
}

/// What a notice may serve yet, and what it did.
#[derive(Clone, Copy, Debug)]
pub struct Tally {
    /// How many chains may be served yet.
    pub chains: u32,
    /// How many pages may be named before another chain is served, or the notice pauses.
    pub pages: u32,
    /// How many these are at first, and after a pause.
    pub most_pages: u32,
    /// No page is discarded.
    pub keeps: bool,
    /// A chain was given back.
    pub given: bool,
    /// The chain that was taken and is held; or the one that was held, and is asked for.
    pub held: Option<HeldChain>,
    /// The available index, once it was read: the chains before it may be taken. 0 until then.
    pub published: u16,
    /// The most page numbers of a request.
    pub longest: u32,
    /// How many pages were told of the chain that is being served, as far as 32 bits count them.
    pub told: u32,
}

/// What a notice came to.
#[derive(Clone, Copy, Debug)]
pub struct Outcome {
    pub tally: Tally,
    /// Why the last chain wasn't served, where one wasn't. After `Broken` the driver is to be told
    /// of a change of configuration.
    pub why: Option<Denial>,
    /// The driver wants an interrupt for its used buffers.
    pub interrupt: bool,
    /// Another chain is available, for which the budget had no room.
    pub more: bool,
}

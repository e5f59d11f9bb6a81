//! What the driver's calls answer.

/// A request that was posted.
#[derive(Clone, Copy, Debug, PartialEq, Eq)]
pub struct Posted {
    /// The head of its chain.
    pub head: u16,
    /// How many pages it names: 1 to 256, or of a report 16 to 8,192.
    pub pages: u32,
}

/// A used request that was taken back.
#[derive(Clone, Copy, Debug, PartialEq, Eq)]
pub struct Reaped {
    /// The head of its chain.
    pub head: u16,
    /// How many pages it named.
    pub pages: u32,
}

//! What a device that serves a queue came to.

/// How far a queue was served.
#[derive(Clone, Copy, Debug, PartialEq, Eq)]
pub struct Served {
    /// How many chains were served.
    pub chains: u32,
    /// The rule, from 1 to 10, that the next chain breaks, if it breaks one.
    pub broken: Option<u32>,
}

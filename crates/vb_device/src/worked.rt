//! What a step of a device's own work did.

/// A page that a paced device visited.
#[derive(Clone, Copy, Debug, PartialEq, Eq)]
pub struct Worked {
    /// The page's number.
    pub page: u32,
    /// Whether the page had a frame, which is loose now.
    pub freed: bool,
}

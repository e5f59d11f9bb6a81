//! What a claim of a frame answers.

use vb_ram::Frame;

/// What a device answers to the claim of a frame for its guest.
#[derive(Drop)]
pub enum Claimed {
    /// A frame of zeros, of the device's own.
    Gave(Frame),
    /// The device has no frames of its own: the host's are asked.
    AskHost,
    /// No frame of the device's own is free.
    NoFrame,
    /// There was no memory for the frame's bytes.
    NoMemory,
}

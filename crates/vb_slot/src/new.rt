//! Why a guest isn't there.

use vb_device::Device;

/// Why no slot was made: there was no memory. The device comes back as it was.
#[derive(Drop)]
pub struct NoSlot {
    /// The device, which no guest has yet.
    pub device: Box<dyn Device + Send>,
}

//! Descriptors and their flags (VIRTIO 1.1, 2.6.5).

ghost use Rattle.std.specs.Prelude.{◌≡◌};
ghost use Rattle.vb_chain.specs.Rules.{has_next, is_writable, is_indirect};

/// The flag of a descriptor that goes on to another (VIRTIO 1.1, 2.6.5).
pub const VIRTQ_DESC_F_NEXT: u16 = 1;

/// The flag of a descriptor whose buffer the device writes and doesn't read.
pub const VIRTQ_DESC_F_WRITE: u16 = 2;

/// The flag of a descriptor whose buffer is a table of descriptors; not offered here (profile).
pub const VIRTQ_DESC_F_INDIRECT: u16 = 4;

/// Bytes of a descriptor.
pub const DESCRIPTOR_SIZE: usize = 16;

/// The descriptors that a page has room for.
pub const DESCRIPTORS_IN_A_PAGE: u16 = 256;

/// A descriptor as it is in its table: 16 bytes, each field's lowest byte first (VIRTIO 1.1,
/// 2.6.5).
#[derive(Clone, Copy, Debug, PartialEq, Eq)]
pub struct Descriptor {
    /// Where the buffer begins in guest memory, in bytes.
    pub addr: u64,
    /// The buffer's length in bytes; 0 is accepted.
    pub len: u32,
    /// NEXT, WRITE and INDIRECT; other bits are ignored.
    pub flags: u16,
    /// The number of the next descriptor, where NEXT is set.
    pub next: u16,
}

impl Descriptor {
    /// Whether the chain goes on after this descriptor.
    pub fn has_next(&self) -> bool
        ensures { result ≡ has_next self.now }
    {
        self.flags & VIRTQ_DESC_F_NEXT != 0
    }

    /// Whether the buffer is the device's to write; else it is the device's to read.
    pub fn is_writable(&self) -> bool
        ensures { result ≡ is_writable self.now }
    {
        self.flags & VIRTQ_DESC_F_WRITE != 0
    }

    /// Whether the buffer is a table of descriptors.
    pub fn is_indirect(&self) -> bool
        ensures { result ≡ is_indirect self.now }
    {
        self.flags & VIRTQ_DESC_F_INDIRECT != 0
    }
}

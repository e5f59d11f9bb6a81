//! How long the parts of a split virtqueue's rings are, in bytes, and where they are in a ring
//! (VIRTIO 1.1, 2.6). `DESCRIPTOR_SIZE` of `vb_chain` is that of the table.

/// The flags of a ring, and then its index (VIRTIO 1.1, 2.6.6 and 2.6.8): each of the two.
pub const RING_WORD_SIZE: u64 = 2;

/// Where the index of a ring is.
pub const RING_INDEX_AT: u64 = 2;

/// The flags and the index, after which the first entry is.
pub const RING_HEADER_SIZE: u64 = 4;

/// A ring without its entries: its header, and the number after the last entry.
pub const RING_META_SIZE: u64 = 6;

/// An entry of the available ring: the number of a head (VIRTIO 1.1, 2.6.6).
pub const AVAIL_ENTRY_SIZE: u64 = 2;

/// An element of the used ring: an id, and then a length (VIRTIO 1.1, 2.6.8).
pub const USED_ELEMENT_SIZE: u64 = 8;

/// The id or the length of such an element.
pub const USED_FIELD_SIZE: u64 = 4;

/// Where the length of such an element is.
pub const USED_LENGTH_AT: u64 = 4;

/// What the address of a table is a multiple of (VIRTIO 1.1, 2.6).
pub const TABLE_ALIGNMENT: u64 = 16;

/// What the address of an available ring is a multiple of.
pub const AVAIL_ALIGNMENT: u64 = 2;

/// What the address of a used ring is a multiple of.
pub const USED_ALIGNMENT: u64 = 4;

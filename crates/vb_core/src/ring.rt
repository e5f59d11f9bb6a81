//! Where a queue's ring lies in guest memory, and how far the device is in it.

ghost use Rattle.std.specs.Prelude.{◌≡◌, ◌+◌, ◌*◌, ◌%◌, ◌<◌, ◌≤◌, true};
ghost use Rattle.vb_core.specs.Rings.{no_ring, is_size, is_part, has_place, used_entry};
ghost use Rattle.vb_core.specs.Rings.{with_taken, with_used};

use vb_chain::DESCRIPTOR_SIZE;
use vb_ring::{
    AVAIL_ALIGNMENT, AVAIL_ENTRY_SIZE, RING_HEADER_SIZE, RING_INDEX_AT, RING_META_SIZE,
    TABLE_ALIGNMENT, USED_ALIGNMENT, USED_ELEMENT_SIZE,
};

/// Descriptors of a ring, at the most: a power of two from 1 on (VIRTIO 1.1, 2.6).
pub const MAX_RING_SIZE: u16 = 1024;

/// A queue's ring as the device has it: where its parts lie, by addresses of guest memory, and how
/// far the device is (VIRTIO 1.1, 2.6).
#[repr(C)]
#[derive(Clone, Copy, Debug)]
pub struct Virtqueue {
    /// Where the descriptor table begins.
    pub table: u64,
    /// Where the available ring begins.
    pub avail: u64,
    /// Where the used ring begins.
    pub used: u64,
    /// How many descriptors there are; 0 where the queue has no place.
    pub size: u16,
    /// How many available entries were taken, modulo 65,536.
    pub next_avail: u16,
    /// How many used elements were told, modulo 65,536.
    pub next_used: u16,
}

/// What is to be written for a chain that is used (VIRTIO 1.1, 2.6.8): the id and the length, as
/// little-endian numbers of 32 bits, at one address, and then the index, of 16 bits, at the other.
#[repr(C)]
#[derive(Clone, Copy, Debug)]
pub struct UsedEntry {
    /// Where the element goes.
    pub element_at: u64,
    /// Where the index goes.
    pub index_at: u64,
    /// The head of the chain.
    pub id: u32,
    /// How many bytes the device wrote into its pieces: none.
    pub length: u32,
    /// The index.
    pub index: u16,
}

/// Whether a queue may have `size` descriptors: a power of two from 1 to 1,024.
fn is_size(size: u16) -> bool
    ensures { result ≡ is_size size }
{
    size.is_power_of_two() && size <= MAX_RING_SIZE
}

/// Whether `len` bytes from an address on are aligned so, and lie in memory that ends there.
fn is_part(end: u64, at: u64, align: u64, len: u64) -> bool
    requires { 0 < align }
    ensures { result ≡ is_part end at align len }
{
    at % align == 0 && at <= end && len <= end - at
}

/// The index in a ring of `size` entries of the entry that comes after `count` others. For the
/// sizes that monitors offer nothing is divided.
#[inline(always)]
pub fn place_in_ring(count: u16, size: u16) -> u16
    requires { 0 < size }
    ensures { result ≡ count % size }
{
    match size {
        MAX_RING_SIZE => count % MAX_RING_SIZE,
        256 => count % 256,
        128 => count % 128,
        _ => count % size,
    }
}

impl Virtqueue {
    /// The ring of a queue that has no place.
    pub const NONE: Virtqueue = Virtqueue {
        table: 0,
        avail: 0,
        used: 0,
        size: 0,
        next_avail: 0,
        next_used: 0,
    };

    /// Whether its parts have a place in memory that ends at this address: a power of two of
    /// descriptors from 1 to 1,024; the table aligned to 16 bytes, the available ring to 2 and the
    /// used ring to 4 (VIRTIO 1.1, 2.6); and each part within memory.
    #[inline(always)]
    pub fn has_place(&self, end: u64) -> bool
        ensures { result ≡ has_place end self.now }
    {
        let size = u64::from(self.size);
        is_size(self.size)
            && is_part(
                end,
                self.table,
                TABLE_ALIGNMENT,
                DESCRIPTOR_SIZE as u64 * size,
            )
            && is_part(
                end,
                self.avail,
                AVAIL_ALIGNMENT,
                RING_META_SIZE + AVAIL_ENTRY_SIZE * size,
            )
            && is_part(
                end,
                self.used,
                USED_ALIGNMENT,
                RING_META_SIZE + USED_ELEMENT_SIZE * size,
            )
    }

    /// Counts the next chain as taken.
    #[inline(always)]
    pub(crate) fn count_taken(&mut self)
        ensures { self.new ≡ with_taken self.old }
    {
        self.next_avail = self.next_avail.wrapping_add(1);
    }

    /// Counts one more used element.
    #[inline(always)]
    pub(crate) fn count_used(&mut self)
        ensures { self.new ≡ with_used self.old }
    {
        self.next_used = self.next_used.wrapping_add(1);
    }

    /// What is to be written for a chain of this head that is used next, with length 0, in a ring
    /// that has its place.
    pub(crate) fn used_entry(&self, end: u64, head: u32) -> UsedEntry
        requires { has_place end self.now ≡ true }
        ensures { result ≡ used_entry self.now head }
    {
        let place = place_in_ring(self.next_used, self.size);
        UsedEntry {
            element_at: self.used + RING_HEADER_SIZE + USED_ELEMENT_SIZE * u64::from(place),
            index_at: self.used + RING_INDEX_AT,
            id: head,
            length: 0,
            index: self.next_used.wrapping_add(1),
        }
    }
}

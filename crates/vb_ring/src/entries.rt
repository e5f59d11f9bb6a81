//! The words of the two rings (VIRTIO 1.1, 2.6.6 and 2.6.8).

ghost use Rattle.std.specs.Prelude.{◌≡◌, ◌+◌, ◌*◌, ◌%◌, ◌<◌};
ghost use Rattle.vb_ring.specs.Layout.{Fits, IsInside, IsBacked};
ghost use Rattle.vb_ring.specs.Entries.{next_entry, next_id};
ghost use Rattle.vb_ring.specs.Calls.{PutsAvail, PutsUsed};

use crate::format::{
    AVAIL_ENTRY_SIZE, RING_HEADER_SIZE, RING_INDEX_AT, USED_ELEMENT_SIZE, USED_LENGTH_AT,
};
use crate::{Layout, RingBroken};
use vb_chain::ChainFault;
use vb_ram::{GuestBytes, read_u16, read_u32, write_u16, write_u32};

/// The format's numbers as lengths of memory: where the index and the first entry of a ring are,
/// how long an entry of each ring is, and where the length of a used one is.
const INDEX_AT: usize = RING_INDEX_AT as usize;

const ENTRIES_AT: usize = RING_HEADER_SIZE as usize;

const AVAIL_ENTRY: usize = AVAIL_ENTRY_SIZE as usize;

const USED_ELEMENT: usize = USED_ELEMENT_SIZE as usize;

const LENGTH_AT: usize = USED_LENGTH_AT as usize;

/// Puts a head into the available ring, after `next` others.
pub fn put_avail<G: GuestBytes>(ram: &mut G, layout: Layout, size: u16, next: u16, head: u16)
    requires fits { Fits layout size }
    requires backed { IsBacked (G.mem ram.old) layout }
    ensures puts { PutsAvail (G.mem ram.old) (G.mem ram.new) layout size next head }
    ensures part { G.part ram.new ≡ G.part ram.old }
{
    let ring = layout.avail;
    let start = usize::from(ring.offset);
    write_u16(
        ram,
        ring.page,
        start + ENTRIES_AT + AVAIL_ENTRY * usize::from(next % size),
        head,
    );
    write_u16(ram, ring.page, start + INDEX_AT, next.wrapping_add(1));
}

/// The head that comes after the `taken` ones, if there is one.
pub fn next_avail<G: GuestBytes>(
    ram: &G,
    layout: Layout,
    size: u16,
    taken: u16,
) -> Result<Option<u16>, ChainFault>
    requires fits { Fits layout size }
    requires inside { IsInside (G.mem ram.now) layout }
    ensures { result ≡ next_entry (G.mem ram.now) layout size taken }
{
    let ring = layout.avail;
    let start = usize::from(ring.offset);
    let ahead = read_u16(ram, ring.page, start + INDEX_AT).wrapping_sub(taken);
    if ahead == 0 {
        Ok(None)
    } else if ahead <= size {
        Ok(Some(read_u16(
            ram,
            ring.page,
            start + ENTRIES_AT + AVAIL_ENTRY * usize::from(taken % size),
        )))
    } else {
        Err(ChainFault::IndexJump)
    }
}

/// Puts an element into the used ring, after `next` others.
pub fn put_used<G: GuestBytes>(
    ram: &mut G,
    layout: Layout,
    size: u16,
    next: u16,
    head: u16,
    len: u32,
)
    requires fits { Fits layout size }
    requires backed { IsBacked (G.mem ram.old) layout }
    ensures puts { PutsUsed (G.mem ram.old) (G.mem ram.new) layout size next head len }
    ensures part { G.part ram.new ≡ G.part ram.old }
{
    let ring = layout.used;
    let start = usize::from(ring.offset);
    let place = start + ENTRIES_AT + USED_ELEMENT * usize::from(next % size);
    write_u32(ram, ring.page, place, u32::from(head));
    write_u32(ram, ring.page, place + LENGTH_AT, len);
    write_u16(ram, ring.page, start + INDEX_AT, next.wrapping_add(1));
}

/// The id that comes after the `seen` ones, if there is one; at most `most` may be there.
pub fn next_used<G: GuestBytes>(
    ram: &G,
    layout: Layout,
    size: u16,
    seen: u16,
    most: u16,
) -> Result<Option<u32>, RingBroken>
    requires fits { Fits layout size }
    requires inside { IsInside (G.mem ram.now) layout }
    ensures { result ≡ next_id (G.mem ram.now) layout size seen most }
{
    let ring = layout.used;
    let start = usize::from(ring.offset);
    let ahead = read_u16(ram, ring.page, start + INDEX_AT).wrapping_sub(seen);
    if ahead == 0 {
        Ok(None)
    } else if ahead <= most {
        Ok(Some(read_u32(
            ram,
            ring.page,
            start + ENTRIES_AT + USED_ELEMENT * usize::from(seen % size),
        )))
    } else {
        Err(RingBroken::IndexAhead)
    }
}

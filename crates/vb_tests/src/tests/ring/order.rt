//! In which order the words of a ring are written: what an index counts comes before the index does
//! (VIRTIO 1.1, 2.6.8 and 2.6.13).

use super::{FIRST_BLOCK, SECOND_BLOCK, memory, ready_queue};
use arrayvec::ArrayVec;
use std::test::Fail;
use vb_ram::{GuestBytes, Ram, RamFault};
use vb_ring::{DriverRing, Queue};

/// Memory that keeps at which offsets it was written, in order.
#[derive(Drop)]
struct Recorded {
    ram: Ram,
    offsets: ArrayVec<usize, 8>,
}

impl GuestBytes for Recorded {
    ghost use Rattle.vb_ram.specs.Part.{no_part};

    ghost mem = { λ r. ⟦<Ram as GuestBytes>⟧.mem r.ram };

    ghost part = { λ _. no_part };

    fn pages(&self) -> u32 {
        self.ram.pages()
    }

    fn has_frame(&self, page: u32) -> bool {
        self.ram.has_frame(page)
    }

    fn read(&self, page: u32, offset: usize, out: &mut [u8]) -> Result<(), RamFault> {
        self.ram.read(page, offset, out)
    }

    fn write(&mut self, page: u32, offset: usize, bytes: &[u8]) -> Result<(), RamFault> {
        if !self.offsets.is_full() {
            self.offsets.push(offset);
        }
        self.ram.write(page, offset, bytes)
    }
}

/// Adds a chain of two pieces, where the ring's pages have frames.
fn add(ring: &mut DriverRing, memory: &mut Recorded) {
    let layout = ring.layout();
    if memory.ram.backing(layout.table).is_some()
        && memory.ram.backing(layout.avail.page).is_some()
        && memory.ram.backing(layout.used.page).is_some()
    {
        let _ = ring.add(memory, &[FIRST_BLOCK, SECOND_BLOCK]);
    }
}

/// Adds head 0 to the used ring, where the ring's pages have frames.
fn add_used(queue: &mut Queue, memory: &mut Recorded) {
    let layout = queue.layout();
    if memory.ram.backing(layout.table).is_some()
        && memory.ram.backing(layout.avail.page).is_some()
        && memory.ram.backing(layout.used.page).is_some()
        && queue.is_ready()
        && 0 < queue.size()
    {
        queue.add_used(memory, 0, 0);
    }
}

/// In a ring of 8 in page 0: two descriptors, the head in the available ring, and its index; the
/// used element's id and length, and its index.
static OFFSETS: [usize; 7] = [0, 16, 132, 130, 156, 160, 154];

#[test]
fn an_index_is_written_last(rt: HostRuntime) -> Result<(), Fail> {
    let mut memory = Recorded {
        ram: memory(rt.alloc())?,
        offsets: ArrayVec::new(),
    };
    add(&mut DriverRing::new(0, 8), &mut memory);
    add_used(&mut ready_queue(0, 8), &mut memory);
    assert!(rt; memory.offsets.as_slice() == OFFSETS.as_slice());
    Ok(())
}

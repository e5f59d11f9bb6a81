//! Who serves the chains of a device's queue over its guest's memory, in place of the device's own
//! calls.

ghost use Rattle.std.specs.Prelude.{◌≡◌, ◌<◌, ◌≤◌, [], true, length, vec_capacity, IfSome, None};
ghost use Rattle.vb_virtio.specs.Layout.{ring_page};
ghost use Rattle.vb_virtio.specs.Queues.{has_chains};
ghost use Rattle.vb_status.specs.Bits.{status_bits, feature_bits};
ghost use Rattle.vb_ring.specs.Layout.{IsBacked, IsSize, layout_of};
ghost use Rattle.vb_request.specs.Refusals.{take_refusal_by};
ghost use Rattle.vb_device.specs.Base.{numbers_of_frames};
ghost use Rattle.vb_device.specs.ServedChains.{ServesChainBy};

use crate::Statistics;
use vb_bits::BitSet;
use vb_ram::{Frame, Ram};
use vb_status::{Features, Status};
use vb_virtio::Refusal;

/// How far a device is in a queue, and what it knows of its driver.
#[derive(Clone, Copy, Debug)]
pub struct QueueRegisters {
    /// The status that the driver sees.
    pub status: Status,
    /// The features that the driver negotiated.
    pub features: Features,
    /// How many descriptors the queue has.
    pub queue_size: u16,
    /// How many available entries were taken, modulo 65,536.
    pub next_avail: u16,
    /// How many used elements were added, modulo 65,536.
    pub next_used: u16,
}

/// A queue of which a chain is served.
#[derive(Clone, Copy, Debug)]
pub struct OpenQueue {
    /// Its number.
    pub number: u32,
    /// How far its device is in it.
    pub registers: QueueRegisters,
}

/// What was done of a chain.
#[derive(Clone, Copy, Debug)]
pub struct ServedChain {
    /// How many available entries are taken now, modulo 65,536.
    pub next_avail: u16,
    /// How many used elements are added now, modulo 65,536.
    pub next_used: u16,
    /// The head of a buffer of statistics that was taken, and is held.
    pub held: Option<u16>,
    /// What the device answers.
    pub answer: Result<Option<u16>, Refusal>,
}

/// Who serves chains over the memory that a device owns.
pub trait ServesChains {
    /// Serves the next chain of a queue of which none is taken, and that isn't refused: with what
    /// becomes of memory, of its loose frames, for which there is room, of the ballooned pages and
    /// of the last statistics.
    fn serve_chain(
        &mut self,
        ram: &mut Ram,
        loose: &mut Vec<Frame>,
        ballooned: &mut BitSet,
        last: &mut Statistics,
        queue: OpenQueue,
    ) -> ServedChain
        requires known { has_chains queue.number ≡ true }
        requires size { IsSize queue.registers.queue_size }
        requires open_so { take_refusal_by queue.number (status_bits queue.registers.status)
            (feature_bits queue.registers.features) ≡ None }
        requires backed { IsBacked ram.old (layout_of
            (ring_page queue.registers.queue_size queue.number) queue.registers.queue_size) }
        requires none { loose.old.items ≡ [] }
        requires room { length ram.old ≤ vec_capacity loose.old }
        requires marks { length ballooned.old ≡ length ram.old }
        ensures pages { length ram.new ≡ length ram.old }
        ensures room { length ram.new ≤ vec_capacity loose.new }
        ensures marks { length ballooned.new ≡ length ram.new }
        ensures held { IfSome result.held (λ head. head < queue.registers.queue_size) }
        ensures serves { ServesChainBy queue.registers queue.number ram.old ram.new
            (record {
              loose = numbers_of_frames loose.old.items;
              ballooned = ballooned.old;
              last = record { free = last.old.free; total = last.old.total };
            })
            (record {
              loose = numbers_of_frames loose.new.items;
              ballooned = ballooned.new;
              last = record { free = last.new.free; total = last.new.total };
            })
            result };
}

//! A queue that starts at an index, and one that stops, whenever its driver may have queues.

ghost use Rattle.std.specs.Prelude.{◌≡◌, Some, None, Ok, Err};
ghost use Rattle.vb_status.specs.Bits.{status_bits};
ghost use Rattle.vb_core.specs.declared.device.Denial.{Denial};
ghost use Rattle.vb_core.specs.Rings.{no_ring};
ghost use Rattle.vb_core.specs.Devices.{ring_of, with_ring};
ghost use Rattle.vb_core.specs.Starting.{started, may_have_queues, start_denial, stop_denial};

use crate::{Denial, Device, Kind, Virtqueue};
use bitflags::Flags;
use vb_request::has_fault;
use vb_status::Status;

/// Where a queue starts: where its parts lie, by addresses of guest memory, how many descriptors it
/// has, and at which index.
#[repr(C)]
#[derive(Clone, Copy, Debug)]
pub struct QueueStart {
    /// Where the descriptor table begins.
    pub table: u64,
    /// Where the available ring begins.
    pub avail: u64,
    /// Where the used ring begins.
    pub used: u64,
    /// How many descriptors there are.
    pub size: u16,
    /// How many chains were taken and given back until now, modulo 65,536.
    pub next: u16,
}

impl QueueStart {
    /// The ring of a queue that has just started: each chain that was taken was given back.
    pub fn ring(&self) -> Virtqueue
        ensures { result ≡ started self.now }
    {
        Virtqueue {
            table: self.table,
            avail: self.avail,
            used: self.used,
            size: self.size,
            next_avail: self.next,
            next_used: self.next,
        }
    }
}

/// Whether queues may be set up: the driver and the device agree on features, and the driver hasn't
/// given up (VIRTIO 1.1, 3.1.1 and 2.1).
fn may_have_queues(status: Status) -> bool
    ensures { result ≡ may_have_queues (status_bits status) }
{
    status.contains(Status::FEATURES_OK) && !status.contains(Status::FAILED)
}

impl Device {
    /// What the start of a kind's queue is refused for.
    fn start_denial(&self, kind: Kind, ring: &Virtqueue) -> Option<Denial>
        ensures { result ≡ start_denial kind ring.now self.now }
    {
        let status = Status::from_bits_retain(self.status);
        if !self.settings.are_possible() {
            return Some(Denial::BadArgument);
        }
        if !may_have_queues(status) {
            return Some(Denial::NotReady);
        }
        if has_fault(status) {
            return Some(Denial::NeedsReset);
        }
        if self.lacks(kind) {
            return Some(Denial::NoQueue);
        }
        if !ring.has_place(self.settings.memory_end) {
            return Some(Denial::Misplaced);
        }
        None
    }

    /// Starts a kind's queue at an index, in place of what it was before: the chains before the
    /// index were given back, and none is taken. It may be started from FEATURES_OK on, since that
    /// is when a driver sets its queues up (VIRTIO 1.1, 3.1.1), and beside queues that run already.
    ///
    /// Refused, tested in this order, and then nothing is changed: `BadArgument` where the settings
    /// are none that a device may have; `NotReady` unless FEATURES_OK is set, and where FAILED is;
    /// `NeedsReset`; `NoQueue` where the negotiated features leave the queue out; `Misplaced` as
    /// `Virtqueue::has_place` says.
    pub fn start(&mut self, kind: Kind, at: &QueueStart) -> Result<(), Denial>
        ensures denied { (why : Denial) → start_denial kind (started at.now) self.old ≡ Some why →
            (result ≡ Err why) × (self.new ≡ self.old) }
        ensures started { start_denial kind (started at.now) self.old ≡ None →
            (result ≡ Ok tt) × (self.new ≡ with_ring kind (started at.now) self.old) }
    {
        let ring = at.ring();
        match self.start_denial(kind, &ring) {
            Some(why) => Err(why),
            None => {
                self.set_ring(kind, ring);
                Ok(())
            }
        }
    }

    /// What the stop of a kind's queue is refused for.
    fn stop_denial(&self, kind: Kind) -> Option<Denial>
        ensures { result ≡ stop_denial kind self.now }
    {
        if self.ring(kind).size == 0 {
            Some(Denial::Misplaced)
        } else {
            None
        }
    }

    /// Stops a kind's queue, which has no place any longer, whatever the status is. Answers the
    /// index at which it was, by what was given back: where it starts there again, a chain that was
    /// taken and not given back is available once more.
    ///
    /// Refused with `Misplaced` where the queue has no place; then nothing is changed.
    pub fn stop(&mut self, kind: Kind) -> Result<u16, Denial>
        ensures denied { (why : Denial) → stop_denial kind self.old ≡ Some why →
            (result ≡ Err why) × (self.new ≡ self.old) }
        ensures stopped { stop_denial kind self.old ≡ None →
            (result ≡ Ok (ring_of kind self.old).next_used) ×
            (self.new ≡ with_ring kind no_ring self.old) }
    {
        match self.stop_denial(kind) {
            Some(why) => Err(why),
            None => {
                let next = self.ring(kind).next_used;
                self.set_ring(kind, Virtqueue::NONE);
                Ok(next)
            }
        }
    }
}

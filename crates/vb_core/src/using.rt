//! Chains that are used.

ghost use Rattle.std.specs.Prelude.{◌≡◌, true, Some, None, Ok, Err};
ghost use Rattle.vb_core.specs.declared.device.Denial.{Denial};
ghost use Rattle.vb_core.specs.Rings.{has_place, with_used, used_entry};
ghost use Rattle.vb_core.specs.Devices.{ring_of, with_ring, with_one_taken};
ghost use Rattle.vb_core.specs.Using.{use_denial};

use crate::{Denial, Device, Kind, UsedEntry};

impl Device {
    /// Counts the next chain of a kind's queue as taken.
    #[inline(always)]
    pub(crate) fn count_taken(&mut self, kind: Kind)
        ensures { self.new ≡ with_one_taken kind self.old }
    {
        match kind {
            Kind::Inflate => self.inflate.count_taken(),
            Kind::Deflate => self.deflate.count_taken(),
            Kind::Statistics => self.statistics.count_taken(),
            Kind::Hint => self.hint.count_taken(),
            Kind::Report => self.report.count_taken(),
        }
    }

    /// What is to be written for a chain of this head that is used next, of a queue that has its
    /// place.
    pub fn used_entry(&self, kind: Kind, head: u32) -> UsedEntry
        requires { has_place self.now.settings.memory_end (ring_of kind self.now) ≡ true }
        ensures { result ≡ used_entry (ring_of kind self.now) head }
    {
        self.ring(kind).used_entry(self.settings.memory_end, head)
    }

    /// Counts one more used element of a kind's queue.
    #[inline(always)]
    pub fn count_used(&mut self, kind: Kind)
        ensures { self.new ≡ with_ring kind (with_used (ring_of kind self.old)) self.old }
    {
        match kind {
            Kind::Inflate => self.inflate.count_used(),
            Kind::Deflate => self.deflate.count_used(),
            Kind::Statistics => self.statistics.count_used(),
            Kind::Hint => self.hint.count_used(),
            Kind::Report => self.report.count_used(),
        }
    }

    /// Gives a taken chain back (VIRTIO 1.1, 2.6.8): what is to be written where, the element
    /// first, then, after a release fence, the index. The length is 0, since the device writes
    /// into no chain.
    ///
    /// Refused, tested in this order: `BadArgument` where the head is no descriptor of the queue;
    /// `NotReady`; `NeedsReset`; `NoQueue` for a feature; `Misplaced`. Then nothing moves.
    pub fn use_chain(&mut self, kind: Kind, head: u32) -> Result<UsedEntry, Denial>
        ensures denied { (why : Denial) → use_denial kind head self.old ≡ Some why →
            (result ≡ Err why) × (self.new ≡ self.old) }
        ensures used { use_denial kind head self.old ≡ None →
            (result ≡ Ok (used_entry (ring_of kind self.old) head)) ×
            (self.new ≡ with_ring kind (with_used (ring_of kind self.old)) self.old) }
    {
        let fits = head < u32::from(self.ring(kind).size);
        if let Some(why) = self.call_denial(kind, true, fits) {
            return Err(why);
        }
        let entry = self.used_entry(kind, head);
        self.count_used(kind);
        Ok(entry)
    }
}

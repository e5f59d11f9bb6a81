//! A device's state, and what its calls are refused for.

ghost use Rattle.std.specs.Prelude.{◌≡◌, Some, None, Ok, Err};
ghost use Rattle.vb_core.specs.declared.device.Denial.{Denial};
ghost use Rattle.vb_core.specs.Kinds.{lacks};
ghost use Rattle.vb_core.specs.Devices.{new_device, ring_of, with_ring, needing_reset};
ghost use Rattle.vb_core.specs.Devices.{call_denial, queue_denial, place_denial, placed};

use crate::{Kind, Round, Settings, Virtqueue};
use bitflags::Flags;
use vb_chain::ChainFault;
use vb_request::{has_fault, is_not_ready};
use vb_status::Status;

/// The bit of the status that tells of a broken rule.
const NEEDS_RESET: u8 = 64;

/// Why a call of a device is refused.
#[derive(Clone, Copy, Debug, PartialEq, Eq)]
pub enum Denial {
    /// There is no queue of that kind for the call, or not with the negotiated features.
    NoQueue,
    /// An argument doesn't fit, or the settings are none that a device may have.
    BadArgument,
    /// DRIVER_OK isn't set, or FAILED is.
    NotReady,
    /// A rule was broken before.
    NeedsReset,
    /// The queue has no place, or copies don't have its size.
    Misplaced,
    /// The guest's bytes break a rule; DEVICE_NEEDS_RESET is set now.
    Broken(ChainFault),
}

/// A balloon device (VIRTIO 1.1, 5.5) for a guest whose memory is elsewhere: plain data, which may
/// be copied; `Saved` makes bytes of it that last. It knows nothing of the ballooned pages.
#[repr(C)]
#[derive(Clone, Copy, Debug)]
pub struct Device {
    /// What the monitor settled.
    pub settings: Settings,
    /// What the driver negotiated.
    pub features: u64,
    /// How many pages the host wants in the balloon (`num_pages`).
    pub target: u32,
    /// How many the driver says are there (`actual`).
    pub actual: u32,
    /// The ring of each queue.
    pub inflate: Virtqueue,
    pub deflate: Virtqueue,
    pub statistics: Virtqueue,
    pub hint: Virtqueue,
    pub report: Virtqueue,
    /// What the driver says that its free pages hold, in 4 bytes (`poison_val`).
    pub poison: u32,
    /// The round of hints.
    pub round: Round,
    /// The status register (VIRTIO 1.1, 2.1).
    pub status: u8,
}

impl Device {
    /// A device that waits for its driver, with target 0.
    pub fn new(settings: Settings) -> Device
        ensures { result ≡ new_device settings }
    {
        Device {
            settings,
            features: 0,
            target: 0,
            actual: 0,
            inflate: Virtqueue::NONE,
            deflate: Virtqueue::NONE,
            statistics: Virtqueue::NONE,
            hint: Virtqueue::NONE,
            report: Virtqueue::NONE,
            poison: 0,
            round: Round::NONE,
            status: 0,
        }
    }

    /// Where the ring of a kind's queue is.
    #[inline(always)]
    fn ring_at(&self, kind: Kind) -> &Virtqueue
        ensures { result.now ≡ ring_of kind self.now }
    {
        match kind {
            Kind::Inflate => &self.inflate,
            Kind::Deflate => &self.deflate,
            Kind::Statistics => &self.statistics,
            Kind::Hint => &self.hint,
            Kind::Report => &self.report,
        }
    }

    /// The ring of a kind's queue.
    #[inline(always)]
    pub fn ring(&self, kind: Kind) -> Virtqueue
        ensures { result ≡ ring_of kind self.now }
    {
        *self.ring_at(kind)
    }

    /// Puts a ring in the place of that of a kind's queue.
    pub(crate) fn set_ring(&mut self, kind: Kind, ring: Virtqueue)
        ensures { self.new ≡ with_ring kind ring self.old }
    {
        match kind {
            Kind::Inflate => self.inflate = ring,
            Kind::Deflate => self.deflate = ring,
            Kind::Statistics => self.statistics = ring,
            Kind::Hint => self.hint = ring,
            Kind::Report => self.report = ring,
        }
    }

    /// Sets DEVICE_NEEDS_RESET (VIRTIO 1.1, 2.1.2), as where bytes that should be guest memory
    /// aren't.
    pub fn note_fault(&mut self)
        ensures { self.new ≡ needing_reset self.old }
    {
        self.status |= NEEDS_RESET;
    }

    /// Whether the features that were negotiated leave a kind's queue out.
    pub(crate) fn lacks(&self, kind: Kind) -> bool
        ensures { result ≡ lacks self.now.features kind }
    {
        kind.is_lacked(self.features)
    }

    /// What a call on a kind's queue is refused for, where the call is for that kind, and its
    /// arguments fit, or not.
    #[inline(always)]
    pub(crate) fn call_denial(&self, kind: Kind, known: bool, fits: bool) -> Option<Denial>
        ensures { result ≡ call_denial kind known fits self.now }
    {
        if !known {
            return Some(Denial::NoQueue);
        }
        if !fits || !self.settings.are_possible() {
            return Some(Denial::BadArgument);
        }
        let status = Status::from_bits_retain(self.status);
        if is_not_ready(status) {
            return Some(Denial::NotReady);
        }
        if has_fault(status) {
            return Some(Denial::NeedsReset);
        }
        if self.lacks(kind) {
            return Some(Denial::NoQueue);
        }
        if !self.ring_at(kind).has_place(self.settings.memory_end) {
            return Some(Denial::Misplaced);
        }
        None
    }

    /// What the use of a kind's queue is refused for, before anything of it is read: tested in this
    /// order, `BadArgument` where the settings are none that a device may have, `NotReady`,
    /// `NeedsReset`, `NoQueue` for a feature, `Misplaced`.
    pub fn queue_denial(&self, kind: Kind) -> Option<Denial>
        ensures { result ≡ queue_denial kind self.now }
    {
        self.call_denial(kind, true, true)
    }

    /// What a place of this kind's queue is refused for.
    fn place_denial(&self, kind: Kind, ring: &Virtqueue) -> Option<Denial>
        ensures { result ≡ place_denial kind ring.now self.now }
    {
        let status = Status::from_bits_retain(self.status);
        if status.contains(Status::DRIVER_OK) || !self.settings.are_possible() {
            return Some(Denial::BadArgument);
        }
        if self.lacks(kind) {
            return Some(Denial::NoQueue);
        }
        if !ring.has_place(self.settings.memory_end) {
            return Some(Denial::Misplaced);
        }
        None
    }

    /// Gives a kind's queue its place: the addresses of its parts, and how many descriptors it has.
    /// Nothing was taken from it then.
    ///
    /// Refused, tested in this order: `BadArgument` once DRIVER_OK is set; `NoQueue` where the
    /// negotiated features leave the queue out; `Misplaced` as `Virtqueue::has_place` says. Then
    /// nothing is changed.
    pub fn place(
        &mut self,
        kind: Kind,
        table: u64,
        avail: u64,
        used: u64,
        size: u16,
    ) -> Result<(), Denial>
        ensures denied { (why : Denial) →
            place_denial kind (placed table avail used size) self.old ≡ Some why →
            (result ≡ Err why) × (self.new ≡ self.old) }
        ensures placed { place_denial kind (placed table avail used size) self.old ≡ None →
            (result ≡ Ok tt) × (self.new ≡
            with_ring kind (placed table avail used size) self.old) }
    {
        let ring = Virtqueue {
            table,
            avail,
            used,
            size,
            next_avail: 0,
            next_used: 0,
        };
        match self.place_denial(kind, &ring) {
            Some(why) => Err(why),
            None => {
                self.set_ring(kind, ring);
                Ok(())
            }
        }
    }

    /// Sets the balloon's target to `pages` pages.
    pub fn set_target(&mut self, pages: u32)
        ensures { self.new ≡ record self.old { target = pages } }
    {
        self.target = pages;
    }
}

//! The states that a device can have: those to which its calls lead.

ghost use Rattle.std.specs.Prelude.{◌≡◌};
ghost use Rattle.vb_virtio.specs.Status.{contains};
ghost use Rattle.vb_status.specs.Bits.{status_bits};
ghost use Rattle.vb_core.specs.Saved.{comes_after, is_status, are_agreed, offered_so_far, is_blank};
ghost use Rattle.vb_core.specs.Saved.{has_moved, is_ring, is_held, is_poison, is_round, can_be};

use crate::hints::is_id;
use crate::saved::Saved;
use crate::settings::{has_free_page_hint, has_page_poison};
use crate::{Device, Kind, Virtqueue};
use bitflags::Flags;
use vb_status::{Features, Status};

/// Whether a bit of the status is only with the one that comes before it.
fn comes_after(status: Status, bit: Status, before: Status) -> bool
    ensures { result ≡ comes_after (status_bits status) (status_bits bit) (status_bits before) }
{
    !status.contains(bit) || status.contains(before)
}

/// Whether a device can have this status: the steps are done in their order, and a rule is broken
/// only once DRIVER_OK is set (VIRTIO 1.1, 3.1.1 and 2.1.2).
fn is_status(status: Status) -> bool
    ensures { result ≡ is_status (status_bits status) }
{
    let steps = comes_after(status, Status::DRIVER, Status::ACKNOWLEDGE)
        && comes_after(status, Status::FEATURES_OK, Status::DRIVER)
        && comes_after(status, Status::DRIVER_OK, Status::FEATURES_OK);
    let broken = comes_after(status, Status::DEVICE_NEEDS_RESET, Status::DRIVER_OK);
    let unused = status.contains(Status::from_bits_retain(16))
        || status.contains(Status::from_bits_retain(32));
    steps && broken && !unused
}

impl Virtqueue {
    /// Whether it is the ring of a queue that has no place.
    fn is_blank(&self) -> bool
        ensures { result ≡ is_blank self.now }
    {
        self.table == 0
            && self.avail == 0
            && self.used == 0
            && self.size == 0
            && self.next_avail == 0
            && self.next_used == 0
    }

    /// Whether a chain was taken, or given back, or the queue started at another index than 0.
    fn has_moved(&self) -> bool
        ensures { result ≡ has_moved self.now }
    {
        self.next_avail != 0 || self.next_used != 0
    }
}

impl Device {
    /// Whether this bit of the status is set.
    fn has(&self, bit: Status) -> bool
        ensures { result ≡ contains self.now.status (status_bits bit) }
    {
        Status::from_bits_retain(self.status).contains(bit)
    }

    /// Whether the driver agreed to features that it may have.
    fn are_agreed(&self) -> bool
        ensures { result ≡ are_agreed self.now }
    {
        let features = Features::from_bits_retain(self.features);
        let offered = Features::from_bits_retain(self.settings.offered).contains(features);
        let early = !self.has(Status::DRIVER) && self.features != 0;
        let enough = features.version_1()
            && (!self.settings.needs_must_tell() || features.must_tell_host());
        offered && !early && (!self.has(Status::FEATURES_OK) || enough)
    }

    /// The features that a driver may have had until now.
    fn offered_so_far(&self) -> u64
        ensures { result ≡ offered_so_far self.now }
    {
        if self.has(Status::DRIVER) {
            self.settings.offered
        } else {
            0
        }
    }

    /// Whether calls may have led to the ring of a kind's queue.
    fn is_ring(&self, kind: Kind) -> bool
        ensures { result ≡ is_ring kind self.now }
    {
        let ring = self.ring(kind);
        let lacked = kind.is_lacked(self.offered_so_far());
        let may_move = self.has(Status::FEATURES_OK) && !self.lacks(kind);
        let placed = ring.has_place(self.settings.memory_end) && !lacked;
        ring.is_blank() || placed && (!ring.has_moved() || may_move)
    }

    /// Whether the driver could write what is in `poison_val`.
    fn is_poison(&self) -> bool
        ensures { result ≡ is_poison self.now }
    {
        self.poison == 0 || has_page_poison(self.settings.offered)
    }

    /// Whether calls may have led to its round of hints.
    fn is_round(&self) -> bool
        ensures { result ≡ is_round self.now }
    {
        let round = &self.round;
        let offered = has_free_page_hint(self.settings.offered);
        let given = round.last == 0 || is_id(round.last) && offered;
        let begun = round.shown == round.last
            && self.has(Status::DRIVER_OK)
            && !self.lacks(Kind::Hint);
        let shown = !is_id(round.shown) || begun;
        given && shown && (round.opened == 0 || round.opened == 1 && is_id(round.shown))
    }
}

impl Saved {
    /// Whether what is held of a kind's queue is nothing, or one of its chains, which the device
    /// holds, and which names no more pages than a request has numbers.
    fn is_held(&self, kind: Kind) -> bool
        ensures { result ≡ is_held kind self.now }
    {
        let device = &self.device;
        let held = self.held.of(kind);
        let pages = self.held.pages_of(kind);
        if held == 0 {
            return pages == 0;
        }
        let may_take = device.has(Status::DRIVER_OK)
            && !device.lacks(kind)
            && device.settings.holds_chains(kind);
        let some = held <= u32::from(device.ring(kind).size);
        may_take && some && pages <= device.settings.longest_request()
    }

    /// Whether calls of a device lead to this state.
    pub fn is_possible(&self) -> bool
        ensures { result ≡ can_be self.now }
    {
        let device = &self.device;
        device.settings.are_possible()
            && is_status(Status::from_bits_retain(device.status))
            && device.are_agreed()
            && device.is_ring(Kind::Inflate)
            && device.is_ring(Kind::Deflate)
            && device.is_ring(Kind::Statistics)
            && device.is_ring(Kind::Hint)
            && device.is_ring(Kind::Report)
            && self.is_held(Kind::Statistics)
            && self.is_held(Kind::Deflate)
            && device.is_poison()
            && device.is_round()
    }
}

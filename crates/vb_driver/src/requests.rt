//! Pages are offered to the host, and requested back (VIRTIO 1.1, 5.5.6).

ghost use Rattle.std.specs.Prelude.{◌≡◌, ◌<◌, ◌≤◌, ◌+◌, ◌==◌, ◌&&◌, ◌∷◌, [], nat_le, nat_lt};
ghost use Rattle.std.specs.Prelude.{not, true, false, Ok};
ghost use Rattle.std.specs.Prelude.{Err, OnOk};
ghost use Rattle.std.specs.Prelude.{min};
ghost use Rattle.vb_virtio.specs.Limits.{max_request_pages};
ghost use Rattle.vb_ring.specs.Ends.{outstanding};
ghost use Rattle.vb_driver.specs.State.{room, stranded_count, free_count, lent_count, tells_host};
ghost use Rattle.vb_virtio.specs.FirstRefusal.{◌⇒◌, first_refusal};
ghost use Rattle.vb_virtio.specs.declared.refusals.Refusal.TheVariants.{NotReady, NoFeature};
ghost use Rattle.vb_virtio.specs.declared.refusals.Refusal.TheVariants.{QueueFull, DeflatePending};
ghost use Rattle.vb_virtio.specs.declared.refusals.Refusal.TheVariants.{Nothing};
ghost use Rattle.vb_driver.specs.Answers.{HaveRingFrames, IsLargeEnough, is_up, inflate_count};
ghost use Rattle.vb_driver.specs.Answers.{deflate_count, oom_count, refusal_in};
ghost use Rattle.vb_driver.specs.Calls.{Offers, AsksBack, InflatesBy, DeflatesBy, DeflatesOnOomBy};

use crate::queue::{RequestQueue, append};
use crate::{Driver, Posted};
use bitflags::Flags;
use vb_model::Place;
use vb_status::{Port, Status};
use vb_virtio::Refusal;
use vb_virtio::limits::{MAX_OUTSTANDING, MAX_REQUEST_PAGES};

/// Whether the device is initialised, and neither it nor its driver has failed.
pub(crate) fn is_up<P: Port>(port: &P) -> bool
    ensures { result ≡ is_up (P.part port.now).status }
{
    let status = port.status();
    status.contains(Status::DRIVER_OK)
        && !(status.contains(Status::DEVICE_NEEDS_RESET) || status.contains(Status::FAILED))
}

/// What a request needs beside a device that is up, room in its queue and a page to name.
#[derive(Clone, Copy)]
struct Needs {
    /// What the request depends on was accepted.
    accepted: bool,
    /// A request is out that this one must not overtake.
    pending: bool,
}

impl Needs {
    /// No feature, and nothing prevents it.
    const NOTHING: Needs = Needs {
        accepted: true,
        pending: false,
    };
}

impl Driver {
    /// How many pages an inflate request offers, where `n` are wanted.
    fn inflate_count(&self, target: u32, n: u32) -> u32
        ensures { result ≡ inflate_count self.now target n }
    {
        let stranded = self.places.count(Place::Stranded);
        let given = self.places.count(Place::Lent) + self.places.count(Place::Giving);
        let there = stranded + self.places.count(Place::Free);
        n.min(MAX_REQUEST_PAGES)
            .min(stranded.max(target.saturating_sub(given)).min(there))
    }

    /// How many pages a deflate request names, where `n` are wanted.
    fn deflate_count(&self, target: u32, n: u32) -> u32
        ensures { result ≡ deflate_count self.now target n }
    {
        let lent = self.places.count(Place::Lent);
        let given = lent + self.places.count(Place::Giving);
        n.min(MAX_REQUEST_PAGES)
            .min(lent.min(given.saturating_sub(target)))
    }

    /// How many pages are requested back where the guest is out of memory, where `n` are wanted.
    fn oom_count(&self, n: u32) -> u32
        ensures { result ≡ oom_count self.now n }
    {
        n.min(MAX_REQUEST_PAGES).min(self.places.count(Place::Lent))
    }

    /// Whether a queue has as many requests as there may be.
    fn is_full(&self, queue: &RequestQueue) -> bool
        ensures { result ≡ nat_le (room self.now) (outstanding queue.now.ring) }
    {
        queue.outstanding() >= self.config.queue_size.min(MAX_OUTSTANDING as u16)
    }

    /// Offers `count` pages: stranded ones first, lowest first, then free ones.
    fn offer<P: Port>(&mut self, port: &mut P, count: u32) -> Posted
        requires room { outstanding self.old.inflate.ring < room self.old }
        requires few { count ≤ max_request_pages }
        requires there { count ≤ stranded_count self.old + free_count self.old }
        requires memory { IsLargeEnough (P.mem port.old) }
        requires backed { HaveRingFrames self.old.queue_size (P.mem port.old) }
        ensures { Offers (P.mem port.old) (P.mem port.new) (P.part port.old) (P.part port.new)
            self.old self.new count result }
    {
        self.places.lowest_stranded(count, &mut self.named);
        let missing = count - self.named.len() as u32;
        self.areas.take_free(missing, &mut self.others);
        append(&mut self.named, &self.others);
        self.places.set_all(&self.named, Place::Giving);
        let head = self.inflate.post(port, &self.named);
        Posted { head, pages: count }
    }

    /// Asks for `count` of the lowest lent pages back; they are free once the request comes back.
    fn ask_and_wait<P: Port>(&mut self, port: &mut P, count: u32) -> Posted
        requires told { tells_host self.old ≡ true }
        requires room { outstanding self.old.deflate.ring < room self.old }
        requires few { count ≤ max_request_pages }
        requires there { count ≤ lent_count self.old }
        requires memory { IsLargeEnough (P.mem port.old) }
        requires backed { HaveRingFrames self.old.queue_size (P.mem port.old) }
        ensures { AsksBack (P.mem port.old) (P.mem port.new) (P.part port.old) (P.part port.new)
            self.old self.new count result }
    {
        self.places.take_lowest_lent(count, &mut self.named);
        let head = self.deflate.post(port, &self.named);
        Posted { head, pages: count }
    }

    /// Asks for `count` of the lowest lent pages back; they are free at once.
    fn ask_and_free<P: Port>(&mut self, port: &mut P, count: u32) -> Posted
        requires untold { tells_host self.old ≡ false }
        requires room { outstanding self.old.deflate.ring < room self.old }
        requires few { count ≤ max_request_pages }
        requires there { count ≤ lent_count self.old }
        requires memory { IsLargeEnough (P.mem port.old) }
        requires backed { HaveRingFrames self.old.queue_size (P.mem port.old) }
        ensures { AsksBack (P.mem port.old) (P.mem port.new) (P.part port.old) (P.part port.new)
            self.old self.new count result }
    {
        self.places.lowest_lent(count, &mut self.named);
        self.areas.give_all(&self.named);
        self.places.set_all(&self.named, Place::Free);
        let head = self.deflate.post(port, &self.named);
        Posted { head, pages: count }
    }

    /// Asks for `count` of the lowest lent pages back. They can be used once the host was told,
    /// where that was agreed on.
    fn ask_back<P: Port>(&mut self, port: &mut P, count: u32) -> Posted
        requires room { outstanding self.old.deflate.ring < room self.old }
        requires few { count ≤ max_request_pages }
        requires there { count ≤ lent_count self.old }
        requires memory { IsLargeEnough (P.mem port.old) }
        requires backed { HaveRingFrames self.old.queue_size (P.mem port.old) }
        ensures { AsksBack (P.mem port.old) (P.mem port.new) (P.part port.old) (P.part port.new)
            self.old self.new count result }
    {
        if self.features.must_tell_host() {
            self.ask_and_wait(port, count)
        } else {
            self.ask_and_free(port, count)
        }
    }

    /// Whether a deflate request is out that the host may serve after an inflate that names the
    /// same page again: where the host is told first there is none.
    fn has_deflate_pending(&self) -> bool
        ensures { result
            ≡ (not (tells_host self.now) && nat_lt 0 (outstanding self.now.deflate.ring)) }
    {
        !self.features.must_tell_host() && self.deflate.outstanding() > 0
    }

    /// Whether a request for `count` pages may be posted: the device must be initialised, what the
    /// request needs must have been accepted, the queue must have room, no request must be in the
    /// way, and there must be a page to name.
    fn admit<P: Port>(
        &self,
        port: &P,
        needs: Needs,
        queue: &RequestQueue,
        count: u32,
    ) -> Result<(), Refusal>
        ensures refusal { refusal_in result ≡ first_refusal (
            (not (is_up (P.part port.now).status) ⇒ NotReady)
            ∷ (not needs.accepted ⇒ NoFeature)
            ∷ (nat_le (room self.now) (outstanding queue.now.ring) ⇒ QueueFull)
            ∷ (needs.pending ⇒ DeflatePending)
            ∷ ((count == 0) ⇒ Nothing)
            ∷ []) }
        ensures ready { OnOk result (is_up (P.part port.now).status ≡ true) }
        ensures room { OnOk result (outstanding queue.now.ring < room self.now) }
    {
        if !is_up(port) {
            return Err(Refusal::NotReady);
        }
        if !needs.accepted {
            return Err(Refusal::NoFeature);
        }
        if self.is_full(queue) {
            return Err(Refusal::QueueFull);
        }
        if needs.pending {
            return Err(Refusal::DeflatePending);
        }
        if count == 0 {
            return Err(Refusal::Nothing);
        }
        Ok(())
    }

    /// Offers pages to the host: at most `n` and 256, no more than the host's target lacks or than
    /// are stranded, whichever is more, and no more than are stranded or free. Stranded pages go
    /// first, lowest first.
    ///
    /// Refused for `NotReady` (the device isn't initialised, or has failed), `QueueFull` (16
    /// requests of the queue are out, or as many as it has descriptors), `DeflatePending` (a
    /// deflate request is out, and MUST_TELL_HOST wasn't accepted, so its pages may be among the
    /// free ones), `Nothing` (the number is 0); then nothing is changed.
    pub fn inflate<P: Port>(&mut self, port: &mut P, n: u32) -> Result<Posted, Refusal>
        requires memory { IsLargeEnough (P.mem port.old) }
        requires backed { is_up (P.part port.old).status ≡ true
            → HaveRingFrames self.old.queue_size (P.mem port.old) }
        ensures { InflatesBy (P.mem port.old) (P.mem port.new) (P.part port.old) (P.part port.new)
            self.old self.new n result }
    {
        let count = self.inflate_count(port.target(), n);
        let needs = Needs {
            accepted: true,
            pending: self.has_deflate_pending(),
        };
        self.admit(port, needs, &self.inflate, count)?;
        Ok(self.offer(port, count))
    }

    /// Asks for the lowest lent pages back: at most `n` and 256, and no more than are above the
    /// host's target, those on their way to it counted. Where MUST_TELL_HOST was accepted they can
    /// be used once the request came back, else at once.
    ///
    /// Refused for `NotReady`, `QueueFull`, `Nothing`; then nothing is changed.
    pub fn deflate<P: Port>(&mut self, port: &mut P, n: u32) -> Result<Posted, Refusal>
        requires memory { IsLargeEnough (P.mem port.old) }
        requires backed { is_up (P.part port.old).status ≡ true
            → HaveRingFrames self.old.queue_size (P.mem port.old) }
        ensures { DeflatesBy (P.mem port.old) (P.mem port.new) (P.part port.old) (P.part port.new)
            self.old self.new n result }
    {
        let count = self.deflate_count(port.target(), n);
        self.admit(port, Needs::NOTHING, &self.deflate, count)?;
        Ok(self.ask_back(port, count))
    }

    /// Asks for the lowest lent pages back where the guest runs out of memory (VIRTIO 1.1, 5.5.6):
    /// at most `n` and 256, whatever the host's target.
    ///
    /// Refused for `NotReady`, `NoFeature` (DEFLATE_ON_OOM wasn't accepted), `QueueFull`,
    /// `Nothing`; then nothing is changed.
    pub fn oom<P: Port>(&mut self, port: &mut P, n: u32) -> Result<Posted, Refusal>
        requires memory { IsLargeEnough (P.mem port.old) }
        requires backed { is_up (P.part port.old).status ≡ true
            → HaveRingFrames self.old.queue_size (P.mem port.old) }
        ensures { DeflatesOnOomBy
            (P.mem port.old) (P.mem port.new) (P.part port.old) (P.part port.new)
            self.old self.new n result }
    {
        let count = self.oom_count(n);
        let needs = Needs {
            accepted: self.features.deflate_on_oom(),
            pending: false,
        };
        self.admit(port, needs, &self.deflate, count)?;
        Ok(self.ask_back(port, count))
    }
}

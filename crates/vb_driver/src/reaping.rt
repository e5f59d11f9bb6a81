//! Used requests are taken back (VIRTIO 1.1, 5.5.6).

ghost use Rattle.std.specs.Prelude.{◌≡◌, ◌<◌, ◌∷◌, [], not, bit_or};
ghost use Rattle.std.specs.Prelude.{Ok, Err, None, Some, IfOk, IfErr, OnOk, OnErr, MatchOption};
ghost use Rattle.vb_virtio.specs.Limits.{max_outstanding};
ghost use Rattle.vb_virtio.specs.Status.{failed};
ghost use Rattle.vb_virtio.specs.FirstRefusal.{◌⇒◌, first_refusal};
ghost use Rattle.vb_virtio.specs.declared.refusals.Refusal.TheVariants.{NotReady, NoFeature};
ghost use Rattle.vb_virtio.specs.declared.refusals.Refusal.TheVariants.{RingBroken};
ghost use Rattle.vb_ring.specs.Layout.{IsInside};
ghost use Rattle.vb_ring.specs.Ends.{after_take, used_answer};
ghost use Rattle.vb_ring.specs.Calls.{TakesUsedBy};
ghost use Rattle.vb_report.specs.Blocks.{blocks_of};
ghost use Rattle.vb_driver.specs.State.{IsReportQueue, sent_by, given_away};
ghost use Rattle.vb_driver.specs.Answers.{IsLargeEnough, is_up, is_ring_broken, refusal_in};
ghost use Rattle.vb_driver.specs.Calls.{ReapsBy, after_refusal, after_reap, with_actual};

use crate::places::count_pages;
use crate::queue::{RequestPages, RequestQueue};
use crate::reports::ReportQueue;
use crate::requests::is_up;
use crate::{Driver, Reaped};
use bitflags::Flags;
use vb_model::Place;
use vb_report::Blocks;
use vb_status::{Port, Status};
use vb_virtio::Refusal;
use vb_virtio::layout::{DEFLATE_QUEUE, INFLATE_QUEUE, REPORT_QUEUE};

/// Tells the device that its driver has given up.
pub(crate) fn give_up<P: Port>(port: &mut P)
    ensures part { P.part port.new
        ≡ record (P.part port.old) { status = bit_or (P.part port.old).status failed } }
    ensures mem { P.mem port.new ≡ P.mem port.old }
{
    let failed = port.status().union(Status::FAILED);
    let _ = port.write_status(failed);
}

/// Takes the next request of a queue that the device used, gives its head, and puts its pages into
/// `pages`; what they are where no request came back is left open. The driver gives up where the
/// used ring says what no device may say.
fn take_back<P: Port>(
    queue: &mut RequestQueue,
    port: &mut P,
    pages: &mut RequestPages,
) -> Result<Option<u16>, Refusal>
    requires { IsInside (P.mem port.old) queue.old.ring.layout }
    ensures refusal { refusal_in result ≡ first_refusal (
        (not (is_up (P.part port.old).status) ⇒ NotReady)
        ∷ (is_ring_broken (P.mem port.old) queue.old.ring ⇒ RingBroken)
        ∷ []) }
    ensures failed { IfErr result (λ refusal.
        P.part port.new ≡ after_refusal refusal (P.part port.old)) }
    ensures kept { OnErr result (queue.new ≡ queue.old) }
    ensures part { OnOk result (P.part port.new ≡ P.part port.old) }
    ensures mem { P.mem port.new ≡ P.mem port.old }
    ensures ring { OnOk result (TakesUsedBy (P.mem port.old) queue.old.ring queue.new.ring
        (used_answer (P.mem port.old) queue.old.ring)) }
    ensures next { IfOk result (λ got. MatchOption got
        ((used_answer (P.mem port.old) queue.old.ring ≡ Ok None) × (queue.new ≡ queue.old))
        (λ head. (used_answer (P.mem port.old) queue.old.ring ≡ Ok (Some head))
        × (head < max_outstanding)
        × (pages.new.items ≡ sent_by queue.old head) × (queue.new ≡ after_reap queue.old head))) }
{
    if !is_up(port) {
        return Err(Refusal::NotReady);
    }
    match queue.take_used(port, pages) {
        Ok(head) => Ok(head),
        Err(_) => {
            give_up(port);
            Err(Refusal::RingBroken)
        }
    }
}

/// Takes the report back if the device has used it, and gives its head and its blocks. The driver
/// gives up where the used ring says what no device may say.
fn take_report_back<P: Port>(
    report: &mut ReportQueue,
    port: &mut P,
    accepted: bool,
) -> Result<Option<(u16, Blocks)>, Refusal>
    requires inside { IsInside (P.mem port.old) report.old.ring.layout }
    requires queue { IsReportQueue report.old report.old.ring.size }
    ensures refusal { refusal_in result ≡ first_refusal (
        (not (is_up (P.part port.old).status) ⇒ NotReady)
        ∷ (not accepted ⇒ NoFeature)
        ∷ (is_ring_broken (P.mem port.old) report.old.ring ⇒ RingBroken)
        ∷ []) }
    ensures failed { IfErr result (λ refusal.
        P.part port.new ≡ after_refusal refusal (P.part port.old)) }
    ensures kept { OnErr result (report.new ≡ report.old) }
    ensures part { OnOk result (P.part port.new ≡ P.part port.old) }
    ensures mem { P.mem port.new ≡ P.mem port.old }
    ensures ring { OnOk result (TakesUsedBy (P.mem port.old) report.old.ring report.new.ring
        (used_answer (P.mem port.old) report.old.ring)) }
    ensures next { IfOk result (λ got. MatchOption got
        ((used_answer (P.mem port.old) report.old.ring ≡ Ok None) × (report.new ≡ report.old))
        (λ used. (used_answer (P.mem port.old) report.old.ring ≡ Ok (Some used.0))
        × (used.0 ≡ 0) × (blocks_of used.1.items ≡ report.old.blocks)
        × (report.new ≡ record {
          ring = after_take report.old.ring (Ok (Some used.0));
          blocks = [];
        }))) }
{
    if !is_up(port) {
        return Err(Refusal::NotReady);
    }
    if !accepted {
        return Err(Refusal::NoFeature);
    }
    match report.take_used(port) {
        Ok(used) => Ok(used),
        Err(_) => {
            give_up(port);
            Err(Refusal::RingBroken)
        }
    }
}

impl Driver {
    /// Tells the device how many pages are lent or requested back.
    fn tell_actual<P: Port>(&mut self, port: &mut P)
        ensures state { self.new ≡ with_actual self.old }
        ensures part { P.part port.new
            ≡ record (P.part port.old) { actual = given_away self.old } }
        ensures mem { P.mem port.new ≡ P.mem port.old }
    {
        self.actual = self.given_away();
        port.set_actual(self.actual);
    }

    /// Tells the device how many pages are lent or requested back once a request of this head came
    /// back, which named `pages` pages.
    fn tell_reaped<P: Port>(&mut self, port: &mut P, head: u16, pages: u32) -> Reaped
        ensures state { self.new ≡ with_actual self.old }
        ensures part { P.part port.new
            ≡ record (P.part port.old) { actual = given_away self.old } }
        ensures mem { P.mem port.new ≡ P.mem port.old }
        ensures head { result.head ≡ head }
        ensures pages { result.pages ≡ pages }
    {
        self.tell_actual(port);
        Reaped { head, pages }
    }

    /// Takes back the next inflate request that the device used: its pages are lent from now on.
    fn reap_lent<P: Port>(&mut self, port: &mut P) -> Result<Option<Reaped>, Refusal>
        requires { IsLargeEnough (P.mem port.old) }
        ensures { ReapsBy (P.mem port.old) (P.mem port.new) (P.part port.old) (P.part port.new)
            self.old self.new 0 result }
    {
        // Borrowed first: so the proof has what holds of each driver where the call is refused too.
        let places = &mut self.places;
        let head = match take_back(&mut self.inflate, port, &mut self.named) {
            Ok(Some(head)) => head,
            Ok(None) => return Ok(None),
            Err(refusal) => return Err(refusal),
        };
        places.set_all(&self.named, Place::Lent);
        let pages = self.named.len() as u32;
        Ok(Some(self.tell_reaped(port, head, pages)))
    }

    /// Takes back the next deflate request that the device used: its pages are free from now on,
    /// or were so since it was posted.
    fn reap_freed<P: Port>(&mut self, port: &mut P) -> Result<Option<Reaped>, Refusal>
        requires { IsLargeEnough (P.mem port.old) }
        ensures { ReapsBy (P.mem port.old) (P.mem port.new) (P.part port.old) (P.part port.new)
            self.old self.new 1 result }
    {
        // Borrowed first: so the proof has what holds of each driver where the call is refused too.
        let places = &mut self.places;
        let head = match take_back(&mut self.deflate, port, &mut self.named) {
            Ok(Some(head)) => head,
            Ok(None) => return Ok(None),
            Err(refusal) => return Err(refusal),
        };
        let pages = self.named.len() as u32;
        if !self.features.must_tell_host() {
            return Ok(Some(self.tell_reaped(port, head, pages)));
        }
        self.areas.give_all(&self.named);
        places.set_all(&self.named, Place::Free);
        Ok(Some(self.tell_reaped(port, head, pages)))
    }

    /// Takes back the report if the device used it: its pages are free from now on.
    fn reap_reported<P: Port>(&mut self, port: &mut P) -> Result<Option<Reaped>, Refusal>
        requires { IsLargeEnough (P.mem port.old) }
        ensures { ReapsBy (P.mem port.old) (P.mem port.new) (P.part port.old) (P.part port.new)
            self.old self.new 4 result }
    {
        // Borrowed first: so the proof has what holds of each driver where the call is refused too.
        let places = &mut self.places;
        let accepted = self.features.reporting();
        let used = match take_report_back(&mut self.report, port, accepted) {
            Ok(Some(used)) => used,
            Ok(None) => return Ok(None),
            Err(refusal) => return Err(refusal),
        };
        self.areas.give_blocks(&used.1);
        places.set_blocks(&used.1, Place::Free);
        self.tell_actual(port);
        Ok(Some(Reaped {
            head: used.0,
            pages: count_pages(&used.1),
        }))
    }

    /// Takes back the next request of a queue that the device used, if there is one: the pages of
    /// an inflate request are lent from now on, those of a deflate request or of a report free;
    /// where MUST_TELL_HOST wasn't accepted, those of a deflate request stay where they are. Then
    /// the device is told how many pages are lent or requested back.
    ///
    /// Refused for `NoQueue` (not 0, 1 or 4), `NotReady`, `NoFeature` (queue 4, but REPORTING
    /// wasn't accepted), `RingBroken` (the used ring says what no device may say: the driver gives
    /// up, by FAILED in the status); nothing else is changed then.
    pub fn reap<P: Port>(&mut self, port: &mut P, queue: u32) -> Result<Option<Reaped>, Refusal>
        requires { IsLargeEnough (P.mem port.old) }
        ensures { ReapsBy (P.mem port.old) (P.mem port.new) (P.part port.old) (P.part port.new)
            self.old self.new queue result }
    {
        // A no-op read: it gives the prover the type's invariant on the path of a refusal.
        let _places = &self.places;
        if queue == INFLATE_QUEUE {
            self.reap_lent(port)
        } else if queue == DEFLATE_QUEUE {
            self.reap_freed(port)
        } else if queue == REPORT_QUEUE {
            self.reap_reported(port)
        } else {
            Err(Refusal::NoQueue)
        }
    }
}

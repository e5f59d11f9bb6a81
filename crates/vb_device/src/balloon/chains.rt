//! Chains of a device's queues: settled, visited and used.

ghost use Rattle.std.specs.Prelude.{◌≡◌, ◌==◌, ◌&&◌, not, ◌<◌, [], true, false, None, IfNone, IfOk};
ghost use Rattle.std.specs.Prelude.{OnSome, length};
ghost use Rattle.vb_virtio.specs.declared.layout.TheConstants.{DEFLATE_QUEUE, STATISTICS_QUEUE};
ghost use Rattle.vb_virtio.specs.Status.{contains, driver_ok};
ghost use Rattle.vb_status.specs.Bits.{status_bits};
ghost use Rattle.vb_ring.specs.Layout.{IsBacked};
ghost use Rattle.vb_device.specs.Queues.{queue_layout};
ghost use Rattle.vb_device.specs.BaseCalls.{SettlesBy, UsesChain, CanUse, TakesBuffer};
ghost use Rattle.vb_device.specs.BaseCalls.{VisitsNext, visited_queue, page_to_visit, with_visit};
ghost use Rattle.vb_device.specs.Calls.{UsesFirst};
ghost use Rattle.vb_device.specs.Conditions.{serve_refusal, use_refusal};
ghost use Rattle.vb_device.specs.QueueState.{status_after};

use crate::Worked;
use crate::balloon::BalloonDevice;
use crate::pace::Pace;
use crate::queues::{INFLATES, REPORTS, STATISTICS, index_of};
use bitflags::Flags;
use vb_status::Status;
use vb_virtio::Refusal;
use vb_virtio::layout::{DEFLATE_QUEUE, REPORT_QUEUE, STATISTICS_QUEUE};

/// Sets DEVICE_NEEDS_RESET where a take found a broken rule.
pub(super) fn note_fault(status: &mut Status, taken: &Result<Option<u16>, Refusal>)
    ensures { status_bits status.new ≡ status_after taken.now (status_bits status.old) }
{
    if let Err(Refusal::Broken { .. }) = taken {
        status.insert(Status::DEVICE_NEEDS_RESET);
    }
}

/// Whether the pages of this queue's requests are visited before they are finished, where a device
/// visits pages or doesn't.
fn visits_first(visits: bool, queue: u32) -> bool
    ensures { result ≡ (visits && not (queue == DEFLATE_QUEUE)) }
{
    visits && queue != DEFLATE_QUEUE
}

impl<P: Pace> BalloonDevice<P> {
    /// All of `finish` but for the used element: marks the pages of the request, takes it out, and
    /// its pages' frames away. Nothing is written. The pages are to be visited first, or aren't.
    pub(crate) fn settle(&mut self, queue: u32, index: u32, visits: bool) -> Result<u16, Refusal>
        requires backed { contains self.old.part.status driver_ok ≡ true →
            IsBacked self.old.mem (queue_layout queue self.old.part) }
        requires none { self.old.part.loose ≡ [] }
        ensures by { SettlesBy visits queue index self.old.mem self.new.mem
            self.old.part self.new.part result }
        ensures ready { IfOk result (λ head. CanUse queue head self.new.mem self.new.part) }
    {
        if let Some(why) = self.queue_refusal(queue) {
            return Err(why);
        }
        let place = index_of(queue);
        let request = self.queues[place].taken(index, visits_first(visits, queue))?;
        let head = request.head();
        self.queues[place].take_out(&mut self.ram, &mut self.loose, &mut self.ballooned, index);
        Ok(head)
    }

    /// Whether the pages of a queue's ring have frames, as a serve and a finish want it.
    pub fn has_ring(&self, queue: u32) -> bool
        ensures { result ≡ true → IsBacked self.now.mem (queue_layout queue self.now.part) }
    {
        if queue > STATISTICS_QUEUE && queue != REPORT_QUEUE {
            return false;
        }
        let layout = self.queues[index_of(queue)].layout();
        self.ram.backing(layout.table).is_some()
            && self.ram.backing(layout.avail.page).is_some()
            && self.ram.backing(layout.used.page).is_some()
    }

    /// Tells the driver that the chain from this head was used.
    pub(super) fn use_chain(&mut self, queue: u32, head: u16)
        requires { CanUse queue head self.old.mem self.old.part }
        ensures { UsesChain queue head self.old.mem self.new.mem self.old.part self.new.part }
    {
        let place = index_of(queue);
        self.queues[place].add_used(&mut self.ram, head);
    }

    /// What a serve is refused for before guest memory is read.
    pub(super) fn serve_refusal(&self, queue: u32) -> Option<Refusal>
        ensures { result ≡ serve_refusal queue self.now.part }
    {
        if let Some(why) = self.take_refusal(queue) {
            return Some(why);
        }
        if self.queues[index_of(queue)].is_idle() {
            None
        } else {
            Some(Refusal::Busy)
        }
    }

    /// Uses the first taken chain of a queue, whatever was visited of its pages; a buffer of
    /// statistics stays taken.
    pub(super) fn use_first(&mut self, queue: u32)
        requires taken { (queue == STATISTICS_QUEUE) ≡ false →
            use_refusal false queue 0 self.old.part ≡ None }
        requires backed { contains self.old.part.status driver_ok ≡ true →
            IsBacked self.old.mem (queue_layout queue self.old.part) }
        requires none { self.old.part.loose ≡ [] }
        ensures { UsesFirst queue self.old.mem self.new.mem self.old.part self.new.part }
    {
        if queue == STATISTICS_QUEUE {
            return;
        }
        match self.settle(queue, 0, false) {
            Ok(head) => self.use_chain(queue, head),
            Err(_) => unreachable!(),
        }
    }

    /// Takes the statistics buffer out, if it is taken; answers its head.
    pub(super) fn take_buffer(&mut self) -> Result<u16, Refusal>
        requires backed { contains self.old.part.status driver_ok ≡ true →
            IsBacked self.old.mem (queue_layout STATISTICS_QUEUE self.old.part) }
        ensures by { TakesBuffer self.old.mem self.new.mem self.old.part self.new.part result }
        ensures ready { IfOk result
            (λ head. CanUse STATISTICS_QUEUE head self.new.mem self.new.part) }
    {
        if let Some(why) = self.readiness_refusal() {
            return Err(why);
        }
        let buffer = self.queues[STATISTICS].taken(0, false)?;
        let head = buffer.head();
        self.queues[STATISTICS].forget(0);
        Ok(head)
    }

    /// Counts the next page of the taken inflates as visited, or of the taken reports where there
    /// is none.
    fn count_visit(&mut self) -> Option<u32>
        ensures page { result ≡ page_to_visit self.old.part }
        ensures none { IfNone result (self.new ≡ self.old) }
        ensures part { OnSome result
            (self.new.part ≡ with_visit (visited_queue self.old.part) self.old.part) }
        ensures mem { self.new.mem ≡ self.old.mem }
        ensures attached { OnSome result (0 < length self.new.mem) }
    {
        if let Some(page) = self.queues[INFLATES].visit_next() {
            return Some(page);
        }
        self.queues[REPORTS].visit_next()
    }

    /// Visits the next page of the taken inflates, or of the taken reports where there is none:
    /// takes its frame away, if it has one. None where every page is visited.
    pub(super) fn visit_next(&mut self) -> Option<Worked>
        requires none { self.old.part.loose ≡ [] }
        ensures { VisitsNext self.old.mem self.new.mem self.old.part self.new.part result }
    {
        let page = self.count_visit()?;
        let freed = self.discard(page);
        Some(Worked { page, freed })
    }
}

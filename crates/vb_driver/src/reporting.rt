//! Free blocks are reported to the host (profile).

ghost use Rattle.std.specs.Prelude.{◌≡◌, ◌==◌, ◌∷◌, [], true, IfOk, OnErr, length};
ghost use Rattle.vb_virtio.specs.FirstRefusal.{◌⇒◌, first_refusal};
ghost use Rattle.vb_virtio.specs.declared.refusals.Refusal.TheVariants.{Nothing};
ghost use Rattle.vb_pages.specs.FreePages.{drained};
ghost use Rattle.vb_ring.specs.Ends.{outstanding};
ghost use Rattle.vb_driver.specs.State.{IsDriver};
ghost use Rattle.vb_driver.specs.Answers.{HaveRingFrames, IsLargeEnough, blocks_to_report, is_up};
ghost use Rattle.vb_driver.specs.Answers.{refusal_in};
ghost use Rattle.vb_driver.specs.Calls.{Reports, ReportsBy, Unchanged};

use crate::places::count_pages;
use crate::requests::is_up;
use crate::{Driver, Posted};
use vb_model::Place;
use vb_status::Port;
use vb_virtio::Refusal;
use vb_virtio::limits::MAX_OUTSTANDING;

impl Driver {
    /// Reports free blocks from a page on, where no report is out.
    fn report_blocks<P: Port>(&mut self, port: &mut P, from: u32) -> Result<Posted, Refusal>
        requires none_out { outstanding self.old.report.ring ≡ 0 }
        requires backed { HaveRingFrames self.old.queue_size (P.mem port.old) }
        ensures driver { IsDriver self.old }
        ensures refusal { refusal_in result ≡ first_refusal
            (((length (blocks_to_report self.old from) == 0) ⇒ Nothing) ∷ []) }
        ensures refused { OnErr result
            (Unchanged (P.mem port.old) (P.mem port.new) (P.part port.old) (P.part port.new)
            (record self.old { areas = drained self.old.areas }) self.new) }
        ensures reports { IfOk result
            (Reports (P.mem port.old) (P.mem port.new) (P.part port.old) (P.part port.new)
            self.old self.new (blocks_to_report self.old from)) }
    {
        let room = u32::from(self.config.queue_size).min(MAX_OUTSTANDING);
        let blocks = self.areas.choose(from, room);
        if blocks.is_empty() {
            return Err(Refusal::Nothing);
        }
        self.places.set_blocks(&blocks, Place::Reporting);
        let pages = count_pages(&blocks);
        let head = self.report.post(port, blocks);
        Ok(Posted { head, pages })
    }

    /// Reports free blocks to the host, which may take their frames (profile): the first ones of
    /// order 4 or more from page `from` on, by rising start, at most 16 and as many as the queue
    /// has descriptors. No allocation gets a page of them until the report is reaped. The lists of
    /// all processors are drained into the page areas before.
    ///
    /// Refused for `NotReady`, `NoFeature` (REPORTING wasn't accepted), `QueueFull` (a report is
    /// out); then nothing is changed. Refused for `Nothing` (there is no such block); then the
    /// lists are drained, and no page changes its place.
    pub fn report<P: Port>(&mut self, port: &mut P, from: u32) -> Result<Posted, Refusal>
        requires memory { IsLargeEnough (P.mem port.old) }
        requires backed { is_up (P.part port.old).status ≡ true
            → HaveRingFrames self.old.queue_size (P.mem port.old) }
        ensures { ReportsBy (P.mem port.old) (P.mem port.new) (P.part port.old) (P.part port.new)
            self.old self.new from result }
    {
        // Borrowed first: so the proof has what holds of each driver where the call is refused too.
        let report = &self.report;
        if !is_up(port) {
            return Err(Refusal::NotReady);
        }
        if !self.features.reporting() {
            return Err(Refusal::NoFeature);
        }
        if report.is_out() {
            return Err(Refusal::QueueFull);
        }
        self.report_blocks(port, from)
    }
}

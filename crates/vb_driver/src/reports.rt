//! The driver's side of the queue of page reports.

ghost use Rattle.std.specs.Prelude.{◌≡◌, ◌≤◌, ◌<◌, [], Ok, Err, None, Some, IfOk, IfErr, OnErr};
ghost use Rattle.std.specs.Prelude.{MatchOption, All, length, nat_le};
ghost use Rattle.vb_virtio.specs.Limits.{max_outstanding};
ghost use Rattle.vb_ring.specs.Layout.{IsSize, IsInside};
ghost use Rattle.vb_ring.specs.Ends.{after_take, outstanding, used_answer};
ghost use Rattle.vb_ring.specs.Calls.{TakesUsedBy};
ghost use Rattle.vb_report.specs.Blocks.{blocks_of};
ghost use Rattle.vb_driver.specs.Answers.{HaveRingFrames};
ghost use Rattle.vb_driver.specs.State.{IsAreaBlock, IsReportQueue, fresh_report};
ghost use Rattle.vb_driver.specs.Calls.{PostsReport};

use std::marker::Model;
use vb_ram::{GuestBytes, Shape};
use vb_report::{Blocks, encode};
use vb_ring::{DriverRing, RingBroken};
use vb_virtio::layout::REPORT_QUEUE;

/// The driver's side of the queue of page reports.
#[derive(Drop)]
pub(crate) struct ReportQueue {
    /// The driver's end of the ring.
    ring: DriverRing,
    /// The blocks of the report that is out, by rising start; none where no report is.
    blocks: Blocks,
}

impl Model for ReportQueue {
    ghost use Rattle.vb_report.specs.Blocks.{blocks_of};
    ghost use Rattle.vb_driver.specs.State.{ReportSide};

    ghost Value = { ReportSide };

    ghost view = { λ q. record { ring = q.ring; blocks = blocks_of q.blocks.items } };
}

impl ReportQueue {
    /// A queue of which nothing is out.
    pub(crate) fn new(shape: Shape) -> Self
        requires { IsSize shape.queue_size }
        ensures { result ≡ fresh_report shape.queue_size }
    {
        ReportQueue {
            ring: DriverRing::new(shape.ring_page(REPORT_QUEUE), shape.queue_size),
            blocks: Blocks::new(),
        }
    }

    /// Begins anew, with nothing out.
    pub(crate) fn renew(&mut self, shape: Shape)
        requires { IsSize shape.queue_size }
        ensures { self.new ≡ fresh_report shape.queue_size }
    {
        self.ring = DriverRing::new(shape.ring_page(REPORT_QUEUE), shape.queue_size);
        self.blocks = Blocks::new();
    }

    /// Whether a report is out.
    pub(crate) fn is_out(&self) -> bool
        ensures { result ≡ nat_le 1 (outstanding self.now.ring) }
    {
        self.ring.outstanding() >= 1
    }

    /// Posts a report of these blocks, where none is out, and answers its head.
    pub(crate) fn post<G: GuestBytes>(&mut self, ram: &mut G, blocks: Blocks) -> u16
        requires queue { IsReportQueue self.old self.old.ring.size }
        requires size { IsSize self.old.ring.size }
        requires none_out { outstanding self.old.ring ≡ 0 }
        requires some { 0 < length blocks.items }
        requires room { length blocks.items ≤ self.old.ring.size }
        requires few { length blocks.items ≤ max_outstanding }
        requires blocks { All IsAreaBlock (blocks_of blocks.items) }
        requires backed { HaveRingFrames self.old.ring.size (G.mem ram.old) }
        ensures posts { PostsReport (G.mem ram.old) (G.mem ram.new)
            self.old self.new (blocks_of blocks.items) }
        ensures queue { IsReportQueue self.new self.old.ring.size }
        ensures head { result ≡ 0 }
        ensures part { G.part ram.new ≡ G.part ram.old }
    {
        let pieces = encode(&blocks);
        let Ok(head) = self.ring.add(ram, &pieces) else {
            unreachable!()
        };
        self.blocks = blocks;
        head
    }

    /// Takes the report back if the device has used it, and gives its head and its blocks.
    pub(crate) fn take_used<G: GuestBytes>(
        &mut self,
        ram: &G,
    ) -> Result<Option<(u16, Blocks)>, RingBroken>
        requires inside { IsInside (G.mem ram.now) self.old.ring.layout }
        requires queue { IsReportQueue self.old self.old.ring.size }
        ensures ring { TakesUsedBy (G.mem ram.now) self.old.ring self.new.ring
            (used_answer (G.mem ram.now) self.old.ring) }
        ensures refused { IfErr result (λ fault.
            used_answer (G.mem ram.now) self.old.ring ≡ Err fault) }
        ensures kept { OnErr result (self.new ≡ self.old) }
        ensures next { IfOk result (λ got. MatchOption got
            ((used_answer (G.mem ram.now) self.old.ring ≡ Ok None) × (self.new ≡ self.old))
            (λ used. (used_answer (G.mem ram.now) self.old.ring ≡ Ok (Some used.0))
            × (used.0 ≡ 0) × (blocks_of used.1.items ≡ self.old.blocks)
            × (self.new ≡ record {
              ring = after_take self.old.ring (Ok (Some used.0));
              blocks = [];
            }))) }
    {
        let Some(head) = self.ring.take_used(ram)? else {
            return Ok(None);
        };
        let blocks = std::mem::replace(&mut self.blocks, Blocks::new());
        Ok(Some((head, blocks)))
    }
}

//! A table of a host's frames.

ghost use Rattle.std.specs.Prelude.{◌≡◌, ◌<◌, ◌≤◌, true, false, List, Bool};
ghost use Rattle.std.specs.Prelude.{length, replicate, IfOk, count_by};
ghost use Rattle.vb_model.specs.declared.calls.Claim.{Claim};
ghost use Rattle.vb_model.specs.HostFrames.{Gives};
ghost use Rattle.vb_frames.specs.Out.{AllAnswered, TableAnswers, is_out};

use crate::{FrameKeeper, Refused};
use std::alloc::{AllocError, Global};
use std::marker::Model;
use vb_bits::BitSet;
use vb_ram::Frame;
use vb_virtio::limits::MAX_FRAMES;

/// The frames of a host, numbered from 0 on. A claim gives the least number that isn't out, which
/// three words tell, however many frames there are.
#[derive(Drop)]
pub struct FrameTable {
    /// Where the frames' bytes come from.
    alloc: Global,
    /// The frames that aren't out.
    free: BitSet,
}

impl Model for FrameTable {
    ghost use Rattle.std.specs.Prelude.{List, Bool, map, not};

    ghost Value = { List Bool };

    ghost view = { λ t. map not t.free };
}

impl FrameTable {
    /// A table of `frames` frames, 1 to 65,536, none of which is out. An allocation failure is the
    /// only refusal.
    pub fn new(alloc: Global, frames: u32) -> Result<FrameTable, AllocError>
        requires some { 0 < frames }
        requires few { frames ≤ MAX_FRAMES }
        ensures { IfOk result (λ table. table ≡ replicate frames false) }
    {
        let mut free = BitSet::new(alloc, frames)?;
        free.fill();
        Ok(FrameTable { alloc, free })
    }

    /// How many frames there are.
    pub fn frames(&self) -> u32
        ensures { result ≡ length self.now }
    {
        self.free.bound()
    }

    /// How many frames are out. The number is kept, not counted.
    pub fn used(&self) -> u32
        ensures { result ≡ count_by (λ out. out) self.now }
    {
        self.free.bound() - self.free.len()
    }
}

impl FrameKeeper for FrameTable {
    ghost use Rattle.vb_frames.specs.Out.{TableAnswers};

    ghost out = { λ t. t };

    ghost answers = { TableAnswers };

    fn claim(&mut self) -> Result<Frame, Refused> {
        let Some(number) = self.free.first() else {
            return Err(Refused::NoFrame);
        };
        let Ok(frame) = Frame::fresh(self.alloc, number) else {
            return Err(Refused::Memory);
        };
        self.free.remove(number);
        Ok(frame)
    }

    fn put_back(&mut self, frame: Frame) {
        self.free.insert(frame.number());
    }
}

/// Whatever claims a table answers one after the other, each that gives a frame gives the least
/// number that isn't out, NoFrame is answered exactly where all are out, and an allocation failure
/// ends them where one was free.
pub fn a_table_gives_the_least()
    ensures { (out : List Bool) (claims : List Claim) → AllAnswered TableAnswers out claims →
        Gives (length out) (λ n. is_out out n ≡ true) claims }
{}

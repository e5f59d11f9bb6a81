//! A notice over a running guest's memory.

ghost use Rattle.std.specs.Prelude.{◌≡◌, ◌+◌, ◌≤◌};
ghost use Rattle.vb_monitor.specs.declared.room.TheConstants.{MAX_BYTES};
ghost use Rattle.vb_monitor.specs.Accesses.{Steps, Makes};
ghost use Rattle.vb_monitor.specs.Notices.{Serves};
ghost use Rattle.vb_monitor.specs.Giving.{used_accesses};
ghost use Rattle.vb_monitor.specs.Machine.{Fits, is_ended, Ahead, Does, GoesOn, Copies, whole};
ghost use Rattle.vb_monitor.specs.Left.{left};
ghost use Rattle.vb_monitor.specs.Steps.{phase_of, step_of};
ghost use Rattle.std.specs.Prelude.{◌<◌, false};

use crate::discards::first_runs;
use crate::room::{MAX_BYTES, MAX_FIGURES};
use crate::rows::row_bytes;
use crate::{Budget, LiveMemory, Outcome, Phase, Progress, Region, Room, Spot, UsedSpots};
use vb_core::{Device, Kind, UsedEntry};

/// Copies `length` bytes after the first `from` ones.
fn copy_bytes<M: LiveMemory>(
    memory: &mut M,
    at: Spot,
    from: usize,
    length: usize,
    bytes: &mut [u8; MAX_BYTES],
)
    requires { from + length ≤ MAX_BYTES }
    ensures { Makes M.goes memory.old memory.new
        (Copies at from length bytes.old bytes.new) }
{
    memory.copy(at, &mut bytes[from..from + length]);
}

/// Writes a used element, and after it the index.
fn write_used<M: LiveMemory>(memory: &mut M, spots: UsedSpots, entry: UsedEntry)
    ensures { Steps M.goes memory.old (used_accesses spots entry) memory.new }
{
    memory.write_number(spots.id, entry.id);
    memory.write_number(spots.length, entry.length);
    memory.release();
    memory.write_word(spots.index, entry.index);
}

/// Does what is to be done; answers the word that was read, if one was.
pub(crate) fn perform<M: LiveMemory>(
    memory: &mut M,
    kind: Kind,
    phase: Phase,
    room: &mut Room,
) -> u16
    requires { Fits phase }
    ensures does { Makes M.goes memory.old memory.new
        (Does phase kind result room.old.bytes room.new) }
    ensures stays { room.new ≡ record room.old { bytes = room.new.bytes } }
{
    match phase {
        Phase::AwaitsIndex { at } => memory.word(at),
        Phase::AwaitsEntry { at } => {
            memory.acquire();
            memory.word(at)
        }
        Phase::AwaitsDescriptor { at, walk } => {
            copy_bytes(memory, at, 0, row_bytes(&walk), &mut room.bytes);
            0
        }
        Phase::AwaitsPart {
            at,
            into,
            length,
            ..
        } => {
            copy_bytes(memory, at, into, length as usize, &mut room.bytes);
            0
        }
        Phase::TellsPages { named, .. } => {
            memory.tell_pages(kind, first_runs(&room.runs, named.runs as usize), named);
            0
        }
        Phase::TellsFigures { count, .. } => {
            memory.tell_figures(&room.figures[..(count as usize).min(MAX_FIGURES)]);
            0
        }
        Phase::TellsId { id, .. } => {
            memory.tell_id(id);
            0
        }
        Phase::Paused { .. } => {
            memory.pause();
            0
        }
        Phase::Discards { cut, .. } => {
            memory.discard(cut);
            0
        }
        Phase::GivesBack { spots, entry } => {
            write_used(memory, spots, entry);
            0
        }
        Phase::AwaitsFlags { at, .. } => {
            memory.full();
            memory.word(at)
        }
        Phase::Ended { .. } => 0,
    }
}

/// A notice over a memory: whose queue it is of, and where it is.
#[derive(Clone, Copy, Debug)]
pub struct Notice {
    pub kind: Kind,
    pub step: Progress,
}

impl Notice {
    /// Does what is to be done over a memory, once, and goes on.
    pub fn serve_step<M: LiveMemory>(
        &mut self,
        memory: &mut M,
        device: &mut Device,
        regions: &[Region],
        room: &mut Room,
    )
        requires { Fits (phase_of self.old.step) }
        ensures kind { self.new.kind ≡ self.old.kind }
        ensures step { GoesOn M.goes memory.old memory.new
            (λ after outcome log. Ahead (whole regions.now self.old.kind after outcome)
            (step_of self.old.step) device.old room.old log)
            (λ after outcome log. Ahead (whole regions.now self.old.kind after outcome)
            (step_of self.new.step) device.new room.new log) }
        ensures fits { Fits (phase_of self.new.step) }
        ensures left { is_ended (phase_of self.old.step) ≡ false →
            left regions.now (step_of self.new.step) < left regions.now (step_of self.old.step) }
    {
        let kind = self.kind;
        let answer = perform(memory, kind, self.step.phase(), room);
        self.step.next(device, regions, kind, answer, room);
    }

    /// Makes steps until the notice has ended, at most `times`; says whether it has.
    #[tactic(auto, using(crate::proofs::StepLemmas::on_steps))]
    pub fn serve_steps<M: LiveMemory>(
        &mut self,
        memory: &mut M,
        device: &mut Device,
        regions: &[Region],
        room: &mut Room,
        times: u64,
    ) -> bool
        requires { Fits (phase_of self.old.step) }
        ensures kind { self.new.kind ≡ self.old.kind }
        ensures step { GoesOn M.goes memory.old memory.new
            (λ after outcome log. Ahead (whole regions.now self.old.kind after outcome)
            (step_of self.old.step) device.old room.old log)
            (λ after outcome log. Ahead (whole regions.now self.old.kind after outcome)
            (step_of self.new.step) device.new room.new log) }
        ensures ended { result ≡ is_ended (phase_of self.new.step) }
    {
        for _ in 0..times {
            if self.step.is_ended() {
                return true;
            }
            self.serve_step(memory, device, regions, room);
        }
        self.step.is_ended()
    }

    /// Makes steps until the notice has ended; says what it came to.
    pub fn serve_all<M: LiveMemory>(
        &mut self,
        memory: &mut M,
        device: &mut Device,
        regions: &[Region],
        room: &mut Room,
    ) -> Outcome
        requires { Fits (phase_of self.old.step) }
        ensures { Makes M.goes memory.old memory.new (λ log.
            Ahead (whole regions.now self.old.kind device.new result)
            (step_of self.old.step) device.old
            room.old log) }
    {
        loop {
            if let Some(outcome) = self.step.outcome() {
                return outcome;
            }
            self.serve_step(memory, device, regions, room);
        }
    }
}

/// Serves the queue of a kind, as far as the budget has room, and says what it came to.
pub fn serve<M: LiveMemory>(
    memory: &mut M,
    device: &mut Device,
    regions: &[Region],
    kind: Kind,
    budget: Budget,
    room: &mut Room,
) -> Outcome
    ensures { Makes M.goes memory.old memory.new
        (Serves regions.now kind budget device.old device.new result) }
{
    let mut notice = Notice {
        kind,
        step: Progress::NOTHING,
    };
    notice.step.begin(device, regions, kind, budget);
    notice.serve_all(memory, device, regions, room)
}

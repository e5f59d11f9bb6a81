//! What a notice shows to C.

ghost use Rattle.std.specs.Prelude.{◌≡◌, ◌<◌, ◌≤◌, true};
ghost use Rattle.vb_monitor.specs.declared.regions.Spot.{Spot};
ghost use Rattle.vb_monitor.specs.declared.step.Phase.TheVariants.{AwaitsDescriptor, Ended};
ghost use Rattle.vb_core.specs.declared.kinds.Kind.{Kind};
ghost use Rattle.vb_monitor.specs.Machine.{Fits, waits, row_bytes};
ghost use Rattle.vb_monitor.specs.Steps.{phase_of, step_of, tally_of};
ghost use Rattle.vb_c.specs.Notices.{Says, SaysEnd, end_code, breaks, asked_bits, answer_bits};
ghost use Rattle.vb_c.specs.Notices.{IsNotice, HasEnded, IsElse};
ghost use Rattle.vb_monitor.specs.declared.room.TheConstants.{MAX_BYTES};

use crate::bits::{
    ACQUIRE, COPY, DISCARD, FULL_FENCE, GIVE_BACK, PAUSE, READ, TELL_FIGURES, TELL_ID, TELL_PAGES,
};
use crate::kinds::code_of_kind;
use crate::notice::VbNotice;
use vb_chain::DESCRIPTOR_SIZE;
use vb_core::{Denial, Kind};
use vb_monitor::{Asked, ENDED, NOTHING, OK, Phase, Tally, Told, Walk, code_of, end_rule};

/// The code of what a notice came to.
fn end_code(why: Option<Denial>, tally: Tally) -> u32
    ensures { result ≡ end_code why tally }
{
    match why {
        Some(why) => code_of(why),
        None => {
            if tally.given || tally.held.is_some() {
                OK
            } else {
                NOTHING
            }
        }
    }
}

/// Whether the driver is told of a change of configuration.
fn breaks(why: Option<Denial>) -> bool
    ensures { result ≡ breaks why }
{
    matches!(why, Some(Denial::Broken(_)))
}

/// The bits of what needs no answer.
fn asked_bits(asked: Asked, cuts: u32) -> u32
    ensures bits { result ≡ asked_bits asked cuts }
    ensures few { result < 32 }
{
    let told = match asked.told {
        Told::Nothing => 0,
        Told::Pages => TELL_PAGES,
        Told::Figures => TELL_FIGURES,
        Told::Id => TELL_ID,
    };
    let discards = if cuts == 0 { 0 } else { DISCARD };
    let gives = if asked.gives { GIVE_BACK } else { 0 };
    told + discards + gives
}

/// The bits of what is done for an answer.
#[inline(always)]
fn answer_bits(phase: &Phase) -> u32
    ensures bits { result ≡ answer_bits phase.now }
    ensures few { result < 4096 }
{
    match phase {
        Phase::AwaitsIndex { .. } => READ,
        Phase::AwaitsEntry { .. } => ACQUIRE + READ,
        Phase::AwaitsDescriptor { .. } | Phase::AwaitsPart { .. } => COPY,
        Phase::AwaitsFlags { .. } => FULL_FENCE + READ,
        Phase::Paused { .. } => PAUSE,
        Phase::TellsPages { .. }
        | Phase::TellsFigures { .. }
        | Phase::TellsId { .. }
        | Phase::Discards { .. }
        | Phase::GivesBack { .. }
        | Phase::Ended { .. } => 0,
    }
}

impl VbNotice {
    /// Shows that it has ended before anything was done.
    pub(crate) fn end_with(&mut self, code: u32)
        ensures { HasEnded self.new code }
    {
        self.what = 0;
        self.step.phase = ENDED;
        self.step.code = code;
        self.step.rule = 0;
        self.step.interrupt = 0;
        self.step.configuration = 0;
        self.step.more = 0;
    }

    /// Shows how many bytes the row has that is copied, to the front of the room.
    #[inline(always)]
    fn show_row(&mut self, walk: Walk)
        requires { row_bytes walk ≤ MAX_BYTES }
        ensures phase { (at : Spot) → phase_of self.old.step ≡ AwaitsDescriptor at walk →
            phase_of self.new.step ≡ AwaitsDescriptor at walk }
        ensures tally { tally_of self.new.step ≡ tally_of self.old.step }
        ensures into { self.new.step.into ≡ 0 }
        ensures length { self.new.step.length ≡ row_bytes walk }
        ensures rest { IsElse self.old self.new }
    {
        self.step.length = DESCRIPTOR_SIZE as u32 * (u32::from(walk.further) + 1);
        self.step.into = 0;
    }

    /// Shows what it came to.
    fn show_end(&mut self, why: Option<Denial>, interrupt: bool, more: bool)
        ensures phase { phase_of self.new.step ≡ Ended why interrupt more }
        ensures tally { tally_of self.new.step ≡ tally_of self.old.step }
        ensures says { SaysEnd self.new (tally_of self.old.step) why interrupt more }
        ensures rest { IsElse self.old self.new }
    {
        let tally = self.step.tally();
        self.step.phase = ENDED;
        self.step.code = end_code(why, tally);
        self.step.rule = end_rule(why);
        self.step.interrupt = u32::from(interrupt);
        self.step.configuration = u32::from(breaks(why));
        self.step.more = u32::from(more);
    }

    /// Shows what the notice waits for, or came to.
    #[inline(always)]
    fn show_phase(&mut self)
        requires { Fits (phase_of self.old.step) }
        ensures phase { phase_of self.new.step ≡ phase_of self.old.step }
        ensures tally { tally_of self.new.step ≡ tally_of self.old.step }
        ensures says { Says self.new (tally_of self.old.step) (phase_of self.old.step) }
        ensures rest { IsElse self.old self.new }
    {
        match self.step.phase() {
            Phase::AwaitsDescriptor { walk, .. } => self.show_row(walk),
            Phase::Ended {
                why,
                interrupt,
                more,
            } => self.show_end(why, interrupt, more),
            Phase::AwaitsIndex { .. } => {}
            Phase::AwaitsEntry { .. } => {}
            Phase::AwaitsPart { .. } => {}
            Phase::AwaitsFlags { .. } => {}
            Phase::Paused { .. } => {}
            Phase::Discards { .. } => {}
            Phase::TellsPages { .. } => {}
            Phase::TellsFigures { .. } => {}
            Phase::TellsId { .. } => {}
            Phase::GivesBack { .. } => {}
        }
    }

    /// Shows a notice of a kind's queue, beside what needs no answer.
    #[inline(always)]
    pub(crate) fn show(&mut self, asked: Asked, kind: Kind)
        requires fits { Fits (phase_of self.old.step) }
        requires waits { waits (phase_of self.old.step) ≡ true }
        ensures is { IsNotice self.new asked
            (record { kind = kind; step = step_of self.old.step }) }
        ensures orders { self.new.orders ≡ self.old.orders }
    {
        let bits = answer_bits(&self.step.phase());
        self.kind = code_of_kind(Some(kind));
        self.what = asked_bits(asked, self.orders.cuts) + bits;
        self.show_phase();
    }
}

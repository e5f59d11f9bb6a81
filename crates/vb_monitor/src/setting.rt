//! What a notice is to do next is put where it stays.

ghost use Rattle.std.specs.Prelude.{◌≡◌, ◌+◌, ◌≤◌, List};
ghost use Rattle.vb_core.specs.declared.device.Device.{Device};
ghost use Rattle.vb_monitor.specs.declared.regions.Region.{Region};
ghost use Rattle.vb_monitor.specs.declared.room.Room.{Room};
ghost use Rattle.vb_monitor.specs.declared.room.TheConstants.{MAX_BYTES, MAX_RUNS, MAX_FIGURES};
ghost use Rattle.vb_monitor.specs.declared.step.Phase.TheVariants.{AwaitsIndex, AwaitsEntry};
ghost use Rattle.vb_monitor.specs.declared.step.Phase.TheVariants.{AwaitsDescriptor, AwaitsPart};
ghost use Rattle.vb_monitor.specs.declared.step.Phase.TheVariants.{TellsPages, TellsFigures};
ghost use Rattle.vb_monitor.specs.declared.step.Phase.TheVariants.{TellsId, Paused};
ghost use Rattle.vb_monitor.specs.declared.step.Phase.TheVariants.{Discards, GivesBack};
ghost use Rattle.vb_monitor.specs.declared.step.Phase.TheVariants.{AwaitsFlags, Ended};
ghost use Rattle.vb_monitor.specs.Accesses.{Access};
ghost use Rattle.vb_monitor.specs.Ends.{Whole};
ghost use Rattle.vb_monitor.specs.Giving.{with_held};
ghost use Rattle.vb_monitor.specs.Machine.{Ahead, AheadAt, Fits, stage, row_bytes};
ghost use Rattle.vb_monitor.specs.Left.{left, left_of, of_chains};
ghost use Rattle.vb_monitor.specs.Steps.{phase_of, step_of, tally_of};

use crate::answers::{end_rule, why_code};
use crate::codes::{
    CUT, DESCRIPTOR, ENDED, ENTRY, FIGURES, FLAGS, ID, INDEX, PAGES, PART, PAUSE, USED,
};
use crate::{Cut, Discarding, Place, Progress, Spot, UsedSpots, Walk};
use vb_core::{Denial, Named, UsedEntry};

impl Progress {
    /// The chain of this head, which names `pages` pages, is held.
    #[inline(always)]
    pub(crate) fn hold(&mut self, head: u16, pages: u32)
        ensures { tally_of self.new ≡ with_held head pages (tally_of self.old) }
    {
        self.taken = 1;
        self.taken_head = head;
        self.taken_pages = pages;
    }

    /// The word there is to be read: the available index.
    #[inline(always)]
    pub(crate) fn await_index(&mut self, at: Spot)
        ensures step { (w : Whole) (d : Device) (room : Room) (log : List Access) →
            Ahead w (step_of self.new) d room log →
            AheadAt (AwaitsIndex at) w (tally_of self.old) d room log }
        ensures fits { Fits (phase_of self.new) }
        ensures stage { stage (phase_of self.new) ≡ 3 }
        ensures left { (regions : List Region) → left regions (step_of self.new) ≤
            of_chains regions (tally_of self.old).chains + left_of regions (AwaitsIndex at) }
    {
        self.phase = INDEX;
        self.at = at;
    }

    /// After an acquire fence the word there is to be read: the entry.
    #[inline(always)]
    pub(crate) fn await_entry(&mut self, at: Spot)
        ensures step { (w : Whole) (d : Device) (room : Room) (log : List Access) →
            Ahead w (step_of self.new) d room log →
            AheadAt (AwaitsEntry at) w (tally_of self.old) d room log }
        ensures fits { Fits (phase_of self.new) }
        ensures stage { stage (phase_of self.new) ≡ 3 }
        ensures left { (regions : List Region) → left regions (step_of self.new) ≤
            of_chains regions (tally_of self.old).chains + left_of regions (AwaitsEntry at) }
    {
        self.phase = ENTRY;
        self.at = at;
    }

    /// The bytes of a row of descriptors are to be copied from there.
    #[inline(always)]
    pub(crate) fn await_row(&mut self, at: Spot, walk: Walk)
        requires { row_bytes walk ≤ MAX_BYTES }
        ensures step { (w : Whole) (d : Device) (room : Room) (log : List Access) →
            Ahead w (step_of self.new) d room log →
            AheadAt (AwaitsDescriptor at walk) w (tally_of self.old) d room log }
        ensures fits { Fits (phase_of self.new) }
        ensures stage { stage (phase_of self.new) ≡ 3 }
        ensures left { (regions : List Region) → left regions (step_of self.new) ≤
            of_chains regions (tally_of self.old).chains + left_of regions
            (AwaitsDescriptor at walk) }
    {
        self.phase = DESCRIPTOR;
        self.at = at;
        self.number = usize::from(walk.first);
        self.from = usize::from(walk.further);
        self.head = walk.head;
        self.count = walk.count;
        self.flag = u8::from(walk.writing);
    }

    /// The part of a piece before a place is to be copied from there, after the first `into` bytes.
    #[inline(always)]
    pub(crate) fn await_part(&mut self, at: Spot, place: Place, into: usize, length: u32)
        requires { into + length ≤ MAX_BYTES }
        ensures step { (w : Whole) (d : Device) (room : Room) (log : List Access) →
            Ahead w (step_of self.new) d room log →
            AheadAt (AwaitsPart at place into length) w (tally_of self.old) d room log }
        ensures fits { Fits (phase_of self.new) }
        ensures stage { stage (phase_of self.new) ≡ 3 }
        ensures left { (regions : List Region) → left regions (step_of self.new) ≤
            of_chains regions (tally_of self.old).chains + left_of regions
            (AwaitsPart at place into length) }
    {
        self.phase = PART;
        self.at = at;
        self.length = length;
        self.into = into as u32;
        self.head = place.head;
        self.count = place.count;
        self.piece = place.piece;
        self.done = place.done;
    }

    /// The driver's flags are to be read, and then it ends so.
    #[inline(always)]
    pub(crate) fn await_flags(&mut self, at: Spot, why: Option<Denial>, more: bool)
        ensures step { (w : Whole) (d : Device) (room : Room) (log : List Access) →
            Ahead w (step_of self.new) d room log →
            AheadAt (AwaitsFlags at why more) w (tally_of self.old) d room log }
        ensures fits { Fits (phase_of self.new) }
        ensures stage { stage (phase_of self.new) ≡ 3 }
        ensures left { (regions : List Region) → left regions (step_of self.new) ≤
            of_chains regions (tally_of self.old).chains + left_of regions
            (AwaitsFlags at why more) }
    {
        self.phase = FLAGS;
        self.at = at;
        self.code = why_code(why);
        self.rule = end_rule(why);
        self.more = u32::from(more);
    }

    /// The part is to be discarded.
    #[inline(always)]
    pub(crate) fn await_cut(&mut self, cut: Cut, discarding: Discarding)
        ensures step { (w : Whole) (d : Device) (room : Room) (log : List Access) →
            Ahead w (step_of self.new) d room log →
            AheadAt (Discards cut discarding) w (tally_of self.old) d room log }
        ensures fits { Fits (phase_of self.new) }
        ensures stage { stage (phase_of self.new) ≡ 1 }
        ensures left { (regions : List Region) → left regions (step_of self.new) ≤
            of_chains regions (tally_of self.old).chains + left_of regions
            (Discards cut discarding) }
    {
        self.phase = CUT;
        self.at = Spot {
            region: cut.region,
            offset: cut.offset,
        };
        self.in_file = cut.in_file;
        self.cut_length = cut.length;
        self.head = discarding.place.head;
        self.count = discarding.place.count;
        self.piece = discarding.place.piece;
        self.done = discarding.place.done;
        self.flag = u8::from(discarding.further);
        self.length = discarding.runs;
        self.number = discarding.run;
        self.from = discarding.from;
    }

    /// The pages of the first runs are to be told.
    #[inline(always)]
    pub(crate) fn await_pages(&mut self, place: Place, named: Named, further: bool)
        ensures step { (w : Whole) (d : Device) (room : Room) (log : List Access) →
            Ahead w (step_of self.new) d room log →
            AheadAt (TellsPages place named further) w (tally_of self.old) d room log }
        ensures fits { named.runs ≤ MAX_RUNS → Fits (phase_of self.new) }
        ensures stage { stage (phase_of self.new) ≡ 0 }
        ensures left { (regions : List Region) → left regions (step_of self.new) ≤
            of_chains regions (tally_of self.old).chains + left_of regions
            (TellsPages place named further) }
    {
        self.phase = PAGES;
        self.head = place.head;
        self.count = place.count;
        self.piece = place.piece;
        self.done = place.done;
        self.named = named;
        self.flag = u8::from(further);
    }

    /// The first `count` figures are to be told.
    #[inline(always)]
    pub(crate) fn await_figures(&mut self, head: u16, count: u32)
        ensures step { (w : Whole) (d : Device) (room : Room) (log : List Access) →
            Ahead w (step_of self.new) d room log →
            AheadAt (TellsFigures head count) w (tally_of self.old) d room log }
        ensures fits { count ≤ MAX_FIGURES → Fits (phase_of self.new) }
        ensures stage { stage (phase_of self.new) ≡ 0 }
        ensures left { (regions : List Region) → left regions (step_of self.new) ≤
            of_chains regions (tally_of self.old).chains + left_of regions
            (TellsFigures head count) }
    {
        self.phase = FIGURES;
        self.head = head;
        self.length = count;
    }

    /// An id of hints is to be told.
    #[inline(always)]
    pub(crate) fn await_id(&mut self, head: u16, id: u32)
        ensures step { (w : Whole) (d : Device) (room : Room) (log : List Access) →
            Ahead w (step_of self.new) d room log →
            AheadAt (TellsId head id) w (tally_of self.old) d room log }
        ensures fits { Fits (phase_of self.new) }
        ensures stage { stage (phase_of self.new) ≡ 0 }
        ensures left { (regions : List Region) → left regions (step_of self.new) ≤
            of_chains regions (tally_of self.old).chains + left_of regions (TellsId head id) }
    {
        self.phase = ID;
        self.head = head;
        self.length = id;
    }

    /// The notice pauses; then more of a chain is copied from this place on.
    #[inline(always)]
    pub(crate) fn pause(&mut self, place: Place)
        ensures step { (w : Whole) (d : Device) (room : Room) (log : List Access) →
            Ahead w (step_of self.new) d room log →
            AheadAt (Paused place) w (tally_of self.old) d room log }
        ensures fits { Fits (phase_of self.new) }
        ensures stage { stage (phase_of self.new) ≡ 3 }
        ensures left { (regions : List Region) → left regions (step_of self.new) ≤
            of_chains regions (tally_of self.old).chains + left_of regions (Paused place) }
    {
        self.phase = PAUSE;
        self.head = place.head;
        self.count = place.count;
        self.piece = place.piece;
        self.done = place.done;
    }

    /// A used element is to be written.
    #[inline(always)]
    pub(crate) fn await_used(&mut self, spots: UsedSpots, entry: UsedEntry)
        ensures step { (w : Whole) (d : Device) (room : Room) (log : List Access) →
            Ahead w (step_of self.new) d room log →
            AheadAt (GivesBack spots entry) w (tally_of self.old) d room log }
        ensures fits { Fits (phase_of self.new) }
        ensures stage { stage (phase_of self.new) ≡ 2 }
        ensures left { (regions : List Region) → left regions (step_of self.new) ≤
            of_chains regions (tally_of self.old).chains + left_of regions (GivesBack spots entry) }
    {
        self.phase = USED;
        self.spots = spots;
        self.entry = entry;
    }

    /// Nothing more is to be done.
    #[inline(always)]
    pub(crate) fn stop(&mut self, why: Option<Denial>, interrupt: bool, more: bool)
        ensures step { (w : Whole) (d : Device) (room : Room) (log : List Access) →
            Ahead w (step_of self.new) d room log →
            AheadAt (Ended why interrupt more) w (tally_of self.old) d room log }
        ensures fits { Fits (phase_of self.new) }
        ensures stage { stage (phase_of self.new) ≡ 3 }
        ensures left { (regions : List Region) → left regions (step_of self.new) ≤
            of_chains regions (tally_of self.old).chains + left_of regions
            (Ended why interrupt more) }
    {
        self.phase = ENDED;
        self.code = why_code(why);
        self.rule = end_rule(why);
        self.interrupt = u32::from(interrupt);
        self.more = u32::from(more);
    }
}

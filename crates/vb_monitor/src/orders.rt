//! What is to be done at once, since none of it needs an answer.

ghost use Rattle.std.specs.Prelude.{◌≡◌, ◌≤◌, ◌++◌, ◌∷◌, true, List, take, map, Some};
ghost use Rattle.vb_monitor.specs.declared.cuts.NextCut.{NextCut};
ghost use Rattle.vb_core.specs.declared.device.Device.{Device};
ghost use Rattle.vb_virtio.specs.Tests.{one_if};
ghost use Rattle.vb_core.specs.Config.{keeps_free};
ghost use Rattle.vb_core.specs.Settings.{holds_chains};
ghost use Rattle.vb_monitor.specs.Giving.{is_kept, kept_pages};
ghost use Rattle.vb_monitor.specs.declared.orders.TheConstants.{MAX_CUTS};
ghost use Rattle.vb_monitor.specs.declared.outcome.Outcome.{Outcome};
ghost use Rattle.vb_monitor.specs.declared.room.Room.{Room};
ghost use Rattle.vb_monitor.specs.Accesses.{Access, Discard};
ghost use Rattle.vb_monitor.specs.Machine.{Fits, stage, waits, Ahead, whole};
ghost use Rattle.vb_monitor.specs.Machine.{cuts_after};
ghost use Rattle.vb_monitor.specs.Steps.{phase_of, step_of, tally_of};
ghost use Rattle.vb_monitor.specs.declared.orders.Told.TheVariants.{Pages, Figures};
ghost use Rattle.vb_monitor.specs.declared.room.TheConstants.{MAX_RUNS, MAX_FIGURES};
ghost use Rattle.vb_monitor.specs.Orders.{cuts_left, telling, giving, at_once, HasRoom, FillsList};

use crate::cuts::NextCut;
use crate::discards::{after_told, discard_next, first_runs, go_onward, kept_pages};
use crate::ends::end;
use crate::filling::fill;
use crate::giving::give_back;
use crate::looks::after_given;
use crate::{Cut, Discarding, Phase, Progress, Region, Room, UsedSpots};
use vb_core::{Device, Kind, Named};

/// Parts of runs that are discarded at once, at most.
pub const MAX_CUTS: usize = 256;

/// What is told.
#[derive(Clone, Copy, Debug)]
pub enum Told {
    Nothing,
    /// The pages of the first runs.
    Pages,
    /// The first figures.
    Figures,
    /// An id of hints.
    Id,
}

/// A used element, and where it goes.
#[repr(C)]
#[derive(Clone, Copy, Debug)]
pub struct Used {
    pub spots: UsedSpots,
    /// The number of the chain's first descriptor.
    pub id: u32,
    /// How many bytes were written to the chain.
    pub length: u32,
    /// The index after the element.
    pub index: u16,
}

/// What is done at once, in this order; how many of these there are is said where they are asked
/// for.
#[repr(C)]
#[derive(Clone, Copy, Debug)]
pub struct Orders {
    /// What the monitor is told of pages.
    pub named: Named,
    /// How many figures it is told.
    pub figures: u32,
    /// How many parts are discarded.
    pub cuts: u32,
    /// How many of the pages are kept.
    pub kept: u32,
    /// 1 where the pages wait for a grant, since their chain is held once all of it was told; else
    /// 0.
    pub waits: u32,
    /// The id of hints that it is told.
    pub hint_id: u32,
    /// What is written of a used chain.
    pub used: Used,
}

/// The room that a notice needs.
#[repr(C)]
pub struct NoticeRoom {
    /// For what is copied of a chain, and made of it.
    pub copied: Room,
    /// For the parts that are discarded at once.
    pub cuts: [Cut; MAX_CUTS],
}

/// Which of these are asked for; parts are where there are some.
#[derive(Clone, Copy, Debug)]
pub struct Asked {
    pub told: Told,
    pub gives: bool,
}

/// Tells pages, figures or an id, where that is to be done next.
#[inline(always)]
fn tell(
    step: &mut Progress,
    device: &mut Device,
    regions: &[Region],
    kind: Kind,
    room: &Room,
    orders: &mut Orders,
) -> Told
    requires { Fits (phase_of step.old) }
    ensures step { (after : Device) (outcome : Outcome) (rest : List Access) →
        Ahead (whole regions.now kind after outcome) (step_of step.new) device.new room.now rest →
        Ahead (whole regions.now kind after outcome) (step_of step.old) device.old room.now
        (telling result kind orders.new room.now.runs room.now.figures ++ rest) }
    ensures fits { Fits (phase_of step.new) }
    ensures stage { 1 ≤ stage (phase_of step.new) }
    ensures runs { result ≡ Pages → orders.new.named.runs ≤ MAX_RUNS }
    ensures kept { result ≡ Pages → orders.new.kept ≡
        kept_pages (is_kept kind (tally_of step.old).keeps (keeps_free kind device.old))
        orders.new.named.pages }
    ensures waits { result ≡ Pages →
        orders.new.waits ≡ one_if (holds_chains kind device.old.settings) }
    ensures figures { result ≡ Figures → orders.new.figures ≤ MAX_FIGURES }
{
    match step.phase() {
        Phase::TellsPages {
            place,
            named,
            further,
        } => {
            orders.named = named;
            orders.kept = kept_pages(device, kind, step.keeps(), named.pages);
            orders.waits = u32::from(device.settings.holds_chains(kind));
            let discarding = Discarding::first(place, further, named.runs);
            after_told(step, device, regions, kind, discarding, room);
            Told::Pages
        }
        Phase::TellsFigures { count, .. } => {
            orders.figures = count;
            end(step, device, regions, kind, None, false);
            Told::Figures
        }
        Phase::TellsId { head, id } => {
            orders.hint_id = id;
            give_back(step, device, regions, kind, head);
            Told::Id
        }
        Phase::Discards { .. }
        | Phase::Paused { .. }
        | Phase::GivesBack { .. }
        | Phase::AwaitsIndex { .. }
        | Phase::AwaitsEntry { .. }
        | Phase::AwaitsDescriptor { .. }
        | Phase::AwaitsPart { .. }
        | Phase::AwaitsFlags { .. }
        | Phase::Ended { .. } => Told::Nothing,
    }
}

/// Discards parts, where that is to be done next, as many as the list has room for; says how many.
#[tactic(auto, using(crate::proofs::OrderLemmas::discards_all))]
#[inline(always)]
fn discard(
    step: &mut Progress,
    device: &mut Device,
    regions: &[Region],
    kind: Kind,
    room: &Room,
    cuts: &mut [Cut; MAX_CUTS],
) -> u32
    requires fits { Fits (phase_of step.old) }
    requires stage { 1 ≤ stage (phase_of step.old) }
    ensures step { (after : Device) (outcome : Outcome) (rest : List Access) →
        Ahead (whole regions.now kind after outcome) (step_of step.new) device.new room.now rest →
        Ahead (whole regions.now kind after outcome) (step_of step.old) device.old room.now
        (map Discard (take result cuts.new) ++ rest) }
    ensures fits { Fits (phase_of step.new) }
    ensures few { result ≤ MAX_CUTS }
    ensures full { stage (phase_of step.new) ≡ 1 → result ≡ MAX_CUTS }
    ensures stage { 1 ≤ stage (phase_of step.new) }
{
    match step.phase() {
        Phase::Discards { cut, discarding } => {
            let named = first_runs(&room.runs, discarding.runs as usize);
            let first = NextCut {
                run: discarding.run,
                cut,
                from: discarding.from,
            };
            let filled = fill(regions, named, &first, cuts);
            match filled.left {
                None => go_onward(step, device, regions, kind, discarding, room),
                Some(found) => discard_next(step, discarding, &found),
            }
            filled.count
        }
        Phase::TellsPages { .. }
        | Phase::TellsFigures { .. }
        | Phase::TellsId { .. }
        | Phase::Paused { .. }
        | Phase::GivesBack { .. }
        | Phase::AwaitsIndex { .. }
        | Phase::AwaitsEntry { .. }
        | Phase::AwaitsDescriptor { .. }
        | Phase::AwaitsPart { .. }
        | Phase::AwaitsFlags { .. }
        | Phase::Ended { .. } => 0,
    }
}

/// Gives a chain back, where that is to be done next; says whether it is.
#[tactic(auto, using(crate::proofs::OrderLemmas::stage_waits))]
#[inline(always)]
fn give(
    step: &mut Progress,
    device: &mut Device,
    regions: &[Region],
    kind: Kind,
    used: &mut Used,
) -> bool
    requires fits { Fits (phase_of step.old) }
    requires stage { 1 ≤ stage (phase_of step.old) }
    ensures step { (after : Device) (outcome : Outcome) (room : Room) (rest : List Access) →
        Ahead (whole regions.now kind after outcome) (step_of step.new) device.new room rest →
        Ahead (whole regions.now kind after outcome) (step_of step.old) device.old room
        (giving result used.new ++ rest) }
    ensures fits { Fits (phase_of step.new) }
    ensures stage { stage (phase_of step.new) ≡ 1 → stage (phase_of step.old) ≡ 1 }
    ensures waits { waits (phase_of step.new) ≡ true }
{
    match step.phase() {
        Phase::GivesBack { spots, entry } => {
            used.id = entry.id;
            used.length = entry.length;
            used.index = entry.index;
            used.spots = spots;
            step.given = 1;
            after_given(step, device, regions, kind);
            true
        }
        Phase::TellsPages { .. }
        | Phase::TellsFigures { .. }
        | Phase::TellsId { .. }
        | Phase::Discards { .. }
        | Phase::Paused { .. }
        | Phase::AwaitsIndex { .. }
        | Phase::AwaitsEntry { .. }
        | Phase::AwaitsDescriptor { .. }
        | Phase::AwaitsPart { .. }
        | Phase::AwaitsFlags { .. }
        | Phase::Ended { .. } => false,
    }
}

/// Whether an answer is awaited, the notice pauses, or nothing is to be done.
#[inline(always)]
fn waits(step: &Progress) -> bool
    ensures { result ≡ true → stage (phase_of step.now) ≡ 3 }
{
    match step.phase() {
        Phase::AwaitsIndex { .. }
        | Phase::AwaitsEntry { .. }
        | Phase::AwaitsDescriptor { .. }
        | Phase::AwaitsPart { .. }
        | Phase::AwaitsFlags { .. }
        | Phase::Paused { .. }
        | Phase::Ended { .. } => true,
        Phase::TellsPages { .. }
        | Phase::TellsFigures { .. }
        | Phase::TellsId { .. }
        | Phase::Discards { .. }
        | Phase::GivesBack { .. } => false,
    }
}

/// Goes on as long as nothing needs an answer, and parts that are discarded have room; what is to
/// be done so is put into the orders and the list of parts. A part is left only where the list is
/// full.
#[tactic(auto, using(crate::proofs::OrderLemmas::stage_waits))]
#[inline(always)]
pub fn at_once(
    step: &mut Progress,
    device: &mut Device,
    regions: &[Region],
    kind: Kind,
    room: &mut NoticeRoom,
    orders: &mut Orders,
) -> Asked
    requires { Fits (phase_of step.old) }
    ensures step { (after : Device) (outcome : Outcome) (rest : List Access) →
        Ahead (whole regions.now kind after outcome) (step_of step.new) device.new
        room.old.copied rest →
        Ahead (whole regions.now kind after outcome) (step_of step.old) device.old
        room.old.copied (at_once result kind orders.new room.new.cuts room.old.copied.runs
        room.old.copied.figures rest) }
    ensures stays { room.new ≡ record room.old { cuts = room.new.cuts } }
    ensures fits { Fits (phase_of step.new) }
    ensures room { HasRoom result orders.new }
    ensures kept { result.told ≡ Pages → orders.new.kept ≡
        kept_pages (is_kept kind (tally_of step.old).keeps (keeps_free kind device.old))
        orders.new.named.pages }
    ensures held { result.told ≡ Pages →
        orders.new.waits ≡ one_if (holds_chains kind device.old.settings) }
    ensures full { FillsList (phase_of step.new) orders.new }
    ensures waits { waits (phase_of step.new) ≡ true }
{
    orders.cuts = 0;
    if waits(step) {
        return Asked {
            told: Told::Nothing,
            gives: false,
        };
    }
    let (copied, cuts) = (&room.copied, &mut room.cuts);
    let told = tell(step, device, regions, kind, copied, orders);
    orders.cuts = discard(step, device, regions, kind, copied, cuts);
    let gives = give(step, device, regions, kind, &mut orders.used);
    Asked { told, gives }
}

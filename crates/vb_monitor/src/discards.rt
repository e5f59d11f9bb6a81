//! The discards of a chain's runs, part by part.

ghost use Rattle.std.specs.Prelude.{◌≡◌, ◌≤◌, true, false, List, [], take, drop};
ghost use Rattle.vb_core.specs.declared.runs.Run.{Run};
ghost use Rattle.vb_core.specs.declared.device.Device.{Device};
ghost use Rattle.vb_monitor.specs.declared.outcome.Outcome.{Outcome};
ghost use Rattle.vb_monitor.specs.declared.step.Phase.TheVariants.{Discards};
ghost use Rattle.vb_monitor.specs.Accesses.{Access};
ghost use Rattle.vb_monitor.specs.Regions.{cuts_of};
ghost use Rattle.vb_core.specs.Config.{keeps_free};
ghost use Rattle.vb_monitor.specs.declared.regions.Region.{Region};
ghost use Rattle.vb_monitor.specs.Giving.{cuts_for, is_kept, kept_pages, DiscardsThen};
ghost use Rattle.vb_monitor.specs.Giving.{is_discarded};
ghost use Rattle.vb_monitor.specs.Machine.{Fits, stage, Ahead, AheadAt, whole, Onward, OnceToldBy};
ghost use Rattle.vb_monitor.specs.Steps.{phase_of, step_of, tally_of};
ghost use Rattle.vb_monitor.specs.declared.room.Room.{Room};
ghost use Rattle.vb_monitor.specs.Ends.{Whole};
ghost use Rattle.vb_monitor.specs.Machine.{cuts_after};
ghost use Rattle.vb_monitor.specs.Left.{left, of_chains, onward_left, parts_left};
ghost use Rattle.vb_monitor.specs.declared.room.TheConstants.{MAX_RUNS};
ghost use Rattle.std.specs.Prelude.{◌-◌, ◌*◌, ◌+◌, length};

use crate::copying::copy_further;
use crate::cuts::{NextCut, cut_after, first_cut};
use crate::ends::end;
use crate::giving::give_back;
use crate::room::MAX_RUNS;
use crate::step::Discarding;
use crate::{Place, Progress, Region, Room};
use vb_core::{Device, Kind, Run};

/// The first `count` runs.
pub(crate) fn first_runs(runs: &[Run; MAX_RUNS], count: usize) -> &[Run]
    ensures { result.now ≡ take count runs.now }
{
    &runs[..count.min(MAX_RUNS)]
}

/// Whether the pages that a kind's chains name are kept, by a notice that keeps all pages or
/// doesn't.
#[inline(always)]
fn is_kept(device: &Device, kind: Kind, keeps: bool) -> bool
    ensures { result ≡ is_kept kind keeps (keeps_free kind device.now) }
{
    match kind {
        Kind::Inflate => keeps,
        Kind::Hint | Kind::Report => keeps || device.keeps_free(kind),
        Kind::Deflate | Kind::Statistics => false,
    }
}

/// How many of `pages` pages that a kind's chains name are kept, by such a notice.
#[inline(always)]
pub(crate) fn kept_pages(device: &Device, kind: Kind, keeps: bool, pages: u32) -> u32
    ensures { result ≡ kept_pages (is_kept kind keeps (keeps_free kind device.now)) pages }
{
    if is_kept(device, kind, keeps) {
        pages
    } else {
        0
    }
}

/// Whether what a kind's chains name is discarded, by such a notice.
#[inline(always)]
fn discards(device: &Device, kind: Kind, keeps: bool) -> bool
    ensures value { result ≡ is_discarded kind (is_kept kind keeps (keeps_free kind device.now)) }
    ensures yes { result ≡ true → (regions : List Region) (runs : List Run) →
        cuts_for kind (is_kept kind keeps (keeps_free kind device.now)) regions runs ≡
        cuts_of regions runs }
    ensures no { result ≡ false → (regions : List Region) (runs : List Run) →
        cuts_for kind (is_kept kind keeps (keeps_free kind device.now)) regions runs ≡ [] }
{
    match kind {
        Kind::Inflate | Kind::Hint | Kind::Report => !is_kept(device, kind, keeps),
        Kind::Statistics | Kind::Deflate => false,
    }
}

/// This part is discarded next.
#[inline(always)]
pub(crate) fn discard_next(step: &mut Progress, discarding: Discarding, next: &NextCut)
    ensures step { (w : Whole) (d : Device) (room : Room) (log : List Access) →
        Ahead w (step_of step.new) d room log → AheadAt (Discards next.now.cut
        (record discarding { run = next.now.run; from = next.now.from })) w (tally_of step.old) d
        room log }
    ensures fits { Fits (phase_of step.new) }
    ensures stage { stage (phase_of step.new) ≡ 1 }
    ensures left { (regions : List Region) → left regions (step_of step.new) ≤
        of_chains regions (tally_of step.old).chains
        + (3 + parts_left (length regions) next.now.run next.now.from
        + onward_left discarding.further regions discarding.place.piece discarding.place.done) }
{
    let discarding = Discarding {
        run: next.run,
        from: next.from,
        ..discarding
    };
    step.await_cut(next.cut, discarding)
}

/// The chain is copied further, at once or after a pause.
#[inline(always)]
fn go_further(
    step: &mut Progress,
    device: &mut Device,
    regions: &[Region],
    kind: Kind,
    place: Place,
    room: &Room,
)
    ensures step { (after : Device) (outcome : Outcome) (log : List Access) →
        Ahead (whole regions.now kind after outcome) (step_of step.new) device.new room.now log →
        Onward true (whole regions.now kind after outcome) (tally_of step.old) device.old place
        room.now log }
    ensures fits { Fits (phase_of step.new) }
    ensures stage { 2 ≤ stage (phase_of step.new) }
    ensures left { left regions.now (step_of step.new) ≤
        of_chains regions.now (tally_of step.old).chains
        + (2 + onward_left true regions.now place.piece place.done) }
{
    if step.pages_left == 0 {
        return step.pause(place);
    }
    copy_further(step, device, regions, kind, place, room)
}

/// What was told is discarded: the chain is copied further, or given back.
#[inline(always)]
pub(crate) fn go_onward(
    step: &mut Progress,
    device: &mut Device,
    regions: &[Region],
    kind: Kind,
    discarding: Discarding,
    room: &Room,
)
    ensures step { (after : Device) (outcome : Outcome) (log : List Access) →
        Ahead (whole regions.now kind after outcome) (step_of step.new) device.new room.now log →
        Onward discarding.further (whole regions.now kind after outcome) (tally_of step.old)
        device.old discarding.place room.now log }
    ensures fits { Fits (phase_of step.new) }
    ensures stage { 2 ≤ stage (phase_of step.new) }
    ensures left { left regions.now (step_of step.new) ≤
        of_chains regions.now (tally_of step.old).chains
        + (2 + onward_left discarding.further regions.now discarding.place.piece
        discarding.place.done) }
{
    if discarding.further {
        return go_further(step, device, regions, kind, discarding.place, room);
    }
    give_back(step, device, regions, kind, discarding.place.head)
}

/// Discards the runs from the one on where this begins.
#[inline(always)]
fn discard_on(
    step: &mut Progress,
    device: &mut Device,
    regions: &[Region],
    kind: Kind,
    discarding: Discarding,
    room: &Room,
)
    ensures step { (after : Device) (outcome : Outcome) (log : List Access) →
        Ahead (whole regions.now kind after outcome) (step_of step.new) device.new room.now log →
        DiscardsThen (Onward discarding.further (whole regions.now kind after outcome)
        (tally_of step.old) device.old discarding.place room.now)
        (cuts_of regions.now (drop discarding.run (take discarding.runs room.now.runs))) log }
    ensures fits { Fits (phase_of step.new) }
    ensures stage { 1 ≤ stage (phase_of step.new) }
    ensures left { left regions.now (step_of step.new) ≤
        of_chains regions.now (tally_of step.old).chains
        + (2 + (MAX_RUNS - discarding.run) * length regions.now
        + onward_left discarding.further regions.now discarding.place.piece
        discarding.place.done) }
{
    let named = first_runs(&room.runs, discarding.runs as usize);
    match first_cut(regions, named, discarding.run) {
        None => go_onward(step, device, regions, kind, discarding, room),
        Some(found) => discard_next(step, discarding, &found),
    }
}

/// The pages of the runs were told, and are discarded unless they are kept; or the notice ends,
/// since their chain is held, all of which was told.
#[inline(always)]
pub(crate) fn after_told(
    step: &mut Progress,
    device: &mut Device,
    regions: &[Region],
    kind: Kind,
    discarding: Discarding,
    room: &Room,
)
    ensures step { (after : Device) (outcome : Outcome) (log : List Access) →
        Ahead (whole regions.now kind after outcome) (step_of step.new) device.new room.now log →
        OnceToldBy discarding.further (whole regions.now kind after outcome) (tally_of step.old)
        device.old discarding.place room.now
        (cuts_for kind (is_kept kind (tally_of step.old).keeps
        (keeps_free kind device.old)) regions.now
        (drop discarding.run (take discarding.runs room.now.runs))) log }
    ensures fits { Fits (phase_of step.new) }
    ensures stage { 1 ≤ stage (phase_of step.new) }
    ensures left { left regions.now (step_of step.new) ≤
        of_chains regions.now (tally_of step.old).chains
        + (2 + (MAX_RUNS - discarding.run) * length regions.now
        + onward_left discarding.further regions.now discarding.place.piece
        discarding.place.done) }
{
    if !discarding.further && step.held().is_some() {
        return end(step, device, regions, kind, None, false);
    }
    if !discards(device, kind, step.keeps()) {
        return go_onward(step, device, regions, kind, discarding, room);
    }
    discard_on(step, device, regions, kind, discarding, room)
}

/// A part of a run was discarded.
pub(crate) fn after_discard(
    step: &mut Progress,
    device: &mut Device,
    regions: &[Region],
    kind: Kind,
    discarding: Discarding,
    room: &Room,
)
    ensures step { (after : Device) (outcome : Outcome) (log : List Access) →
        Ahead (whole regions.now kind after outcome) (step_of step.new) device.new room.now log →
        DiscardsThen (Onward discarding.further (whole regions.now kind after outcome)
        (tally_of step.old) device.old discarding.place room.now)
        (cuts_after discarding.from discarding.run regions.now
        (take discarding.runs room.now.runs)) log }
    ensures fits { Fits (phase_of step.new) }
    ensures left { left regions.now (step_of step.new) ≤
        of_chains regions.now (tally_of step.old).chains
        + (2 + parts_left (length regions.now) discarding.run discarding.from
        + onward_left discarding.further regions.now discarding.place.piece
        discarding.place.done) }
{
    let named = first_runs(&room.runs, discarding.runs as usize);
    match cut_after(regions, named, discarding.run, discarding.from) {
        None => go_onward(step, device, regions, kind, discarding, room),
        Some(found) => discard_next(step, discarding, &found),
    }
}

//! What the pieces of a chain, and their bytes, come to.

ghost use Rattle.std.specs.Prelude.{◌≡◌, ◌≤◌, true, false, List, length, take};
ghost use Rattle.vb_virtio.specs.declared.limits.TheConstants.{MAX_QUEUE_SIZE};
ghost use Rattle.vb_core.specs.declared.device.Device.{Device};
ghost use Rattle.vb_monitor.specs.declared.outcome.Outcome.{Outcome};
ghost use Rattle.vb_monitor.specs.Accesses.{Access};
ghost use Rattle.vb_core.specs.Statistics.{statistics_denial};
ghost use Rattle.vb_monitor.specs.declared.room.TheConstants.{MAX_RUNS, MAX_FIGURES};
ghost use Rattle.vb_monitor.specs.declared.step.Phase.TheVariants.{TellsPages};
ghost use Rattle.vb_monitor.specs.Giving.{spent, with_named};
ghost use Rattle.vb_monitor.specs.Portions.{ServesPortion, NamesPortion, GoesFurther};
ghost use Rattle.vb_core.specs.Pieces.{pieces_in};
ghost use Rattle.vb_monitor.specs.Chains.{NamesBytes, FiguresBy, CopiesBy};
ghost use Rattle.vb_monitor.specs.Machine.{Fits, Ahead, AheadAt, whole, next_chain, serves, served};
ghost use Rattle.vb_monitor.specs.Machine.{parts_from};
ghost use Rattle.vb_monitor.specs.declared.room.Room.{Room};
ghost use Rattle.vb_monitor.specs.declared.regions.Region.{Region};
ghost use Rattle.vb_monitor.specs.Ends.{Whole};
ghost use Rattle.vb_monitor.specs.Left.{left, of_chains, once_named, copies_left, once_whole};
ghost use Rattle.vb_monitor.specs.Steps.{phase_of, step_of, tally_of};
ghost use Rattle.std.specs.Prelude.{◌+◌};

use crate::copying::{copy_on, first_bytes};
use crate::ends::{end, fail};
use crate::free_pages::{hear_id, name_report, serve_hint};
use crate::pieces::{first_pieces, request_length, statistics_length};
use crate::{Place, Progress, Region, Room, Walk};
use vb_chain::ChainFault;
use vb_core::{Device, Kind, Named, Settings};

/// Counts pages that are told.
#[inline(always)]
fn spend(step: &mut Progress, named: &Named)
    ensures { tally_of step.new ≡ spent named.now (tally_of step.old) }
{
    let fewer = step.pages_left.saturating_sub(named.pages);
    step.pages_left = fewer.saturating_sub(named.skipped);
    step.told = step.told.saturating_add(named.pages);
}

/// Counts the pages of a chain, or of its last portion; it is held where the settings say so, with
/// all its pages.
#[inline(always)]
fn count_named(step: &mut Progress, settings: &Settings, kind: Kind, head: u16, named: &Named)
    ensures { tally_of step.new ≡ with_named kind settings.now head named.now (tally_of step.old) }
{
    spend(step, named);
    if settings.holds_chains(kind) {
        step.hold(head, step.told);
    }
}

/// Tells the pages that were named, of a chain that is held, where the settings say so.
#[inline(always)]
pub(crate) fn tell_pages(
    step: &mut Progress,
    settings: &Settings,
    kind: Kind,
    place: Place,
    named: Named,
)
    ensures step { (w : Whole) (d : Device) (room : Room) (log : List Access) →
        Ahead w (step_of step.new) d room log → AheadAt (TellsPages place named false) w
        (with_named kind settings.now place.head named (tally_of step.old)) d room log }
    ensures fits { named.runs ≤ MAX_RUNS → Fits (phase_of step.new) }
    ensures left { (regions : List Region) → left regions (step_of step.new) ≤
        of_chains regions (tally_of step.old).chains + once_named regions }
{
    count_named(step, settings, kind, place.head, &named);
    step.await_pages(place, named, false);
}

/// Tells the pages that were named, of a portion of a chain of which more is copied from this place
/// on.
#[inline(always)]
fn tell_portion(step: &mut Progress, place: Place, named: Named)
    ensures step { (w : Whole) (d : Device) (room : Room) (log : List Access) →
        Ahead w (step_of step.new) d room log → AheadAt (TellsPages place named true) w
        (spent named (tally_of step.old)) d room log }
    ensures fits { named.runs ≤ MAX_RUNS → Fits (phase_of step.new) }
    ensures left { (regions : List Region) → left regions (step_of step.new) ≤
        of_chains regions (tally_of step.old).chains
        + (once_named regions + 1 + copies_left regions place.piece place.done) }
{
    spend(step, &named);
    step.await_pages(place, named, true);
}

/// Names the pages of a portion of a request, all the bytes in the room; more is copied from this
/// place on.
#[tactic(auto, using(crate::proofs::RoomLemmas::few_named))]
#[inline(always)]
fn name_numbers(
    step: &mut Progress,
    device: &mut Device,
    regions: &[Region],
    kind: Kind,
    place: Place,
    room: &mut Room,
)
    ensures step { (after : Device) (outcome : Outcome) (log : List Access) →
        Ahead (whole regions.now kind after outcome) (step_of step.new) device.new room.new log →
        NamesPortion (whole regions.now kind after outcome)
        (λ d t rest. GoesFurther (whole regions.now kind after outcome)
        (served (whole regions.now kind after outcome) (tally_of step.old) place.head) d
        (parts_from 0 place room.old) t rest) device.old (tally_of step.old) room.old.bytes log }
    ensures fits { Fits (phase_of step.new) }
    ensures left { left regions.now (step_of step.new) ≤
        of_chains regions.now (tally_of step.old).chains
        + (once_named regions.now + 1 + copies_left regions.now place.piece place.done) }
{
    match device.name_numbers(kind, &room.bytes, &mut room.runs) {
        Err(why) => end(step, device, regions, kind, Some(why), false),
        Ok(named) => tell_portion(step, place, named),
    }
}

/// Serves a portion of a chain, all the bytes in the room; more is copied from this place on.
#[inline(always)]
pub(crate) fn name_portion(
    step: &mut Progress,
    device: &mut Device,
    regions: &[Region],
    kind: Kind,
    place: Place,
    room: &mut Room,
)
    ensures step { (after : Device) (outcome : Outcome) (log : List Access) →
        Ahead (whole regions.now kind after outcome) (step_of step.new) device.new room.new log →
        ServesPortion kind (whole regions.now kind after outcome)
        (λ d t rest. GoesFurther (whole regions.now kind after outcome)
        (served (whole regions.now kind after outcome) (tally_of step.old) place.head) d
        (parts_from 0 place room.old) t rest) device.old (tally_of step.old) room.old.bytes log }
    ensures fits { Fits (phase_of step.new) }
    ensures left { left regions.now (step_of step.new) ≤
        of_chains regions.now (tally_of step.old).chains
        + (once_named regions.now + 1 + copies_left regions.now place.piece place.done) }
{
    match kind {
        Kind::Statistics | Kind::Hint | Kind::Report => {
            fail(step, device, regions, kind, ChainFault::BadLength)
        }
        Kind::Inflate | Kind::Deflate => name_numbers(step, device, regions, kind, place, room),
    }
}

/// Names the pages of a request, or of its last portion, the first `into` bytes of the room.
#[tactic(auto, using(crate::proofs::RoomLemmas::few_named))]
#[inline(always)]
fn name_bytes(
    step: &mut Progress,
    device: &mut Device,
    regions: &[Region],
    kind: Kind,
    place: Place,
    into: usize,
    room: &mut Room,
)
    ensures step { (after : Device) (outcome : Outcome) (log : List Access) →
        Ahead (whole regions.now kind after outcome) (step_of step.new) device.new room.new log →
        NamesBytes (whole regions.now kind after outcome)
        (next_chain (whole regions.now kind after outcome) (tally_of step.old))
        device.old (tally_of step.old) place.head (take into room.old.bytes) log }
    ensures fits { Fits (phase_of step.new) }
    ensures left { left regions.now (step_of step.new) ≤
        of_chains regions.now (tally_of step.old).chains + once_named regions.now }
{
    let bytes = first_bytes(&room.bytes, into);
    match device.name_numbers(kind, bytes, &mut room.runs) {
        Err(why) => end(step, device, regions, kind, Some(why), false),
        Ok(named) => {
            device.take_request(kind);
            tell_pages(step, &device.settings, kind, place, named)
        }
    }
}

/// Reads the figures of a buffer of statistics of which the first `into` bytes were copied; the
/// buffer is held.
fn keep_figures(
    step: &mut Progress,
    device: &mut Device,
    regions: &[Region],
    kind: Kind,
    place: Place,
    into: usize,
    room: &mut Room,
)
    ensures step { (after : Device) (outcome : Outcome) (log : List Access) →
        Ahead (whole regions.now kind after outcome) (step_of step.new) device.new room.new log →
        FiguresBy
        (statistics_denial (length (take into room.old.bytes)) MAX_FIGURES device.old)
        (whole regions.now kind after outcome) device.old (tally_of step.old) place.head
        (take into room.old.bytes) log }
    ensures fits { Fits (phase_of step.new) }
    ensures left { left regions.now (step_of step.new) ≤ of_chains regions.now
        (tally_of step.old).chains + 2 }
{
    let head = place.head;
    let bytes = first_bytes(&room.bytes, into);
    match device.statistics(bytes, &mut room.figures) {
        Err(why) => end(step, device, regions, kind, Some(why), false),
        Ok(count) => {
            step.hold(head, 0);
            step.await_figures(head, count);
        }
    }
}

/// Serves a chain, or the last portion of one, of which the first `into` bytes were copied.
#[inline(always)]
pub(crate) fn serve_bytes(
    step: &mut Progress,
    device: &mut Device,
    regions: &[Region],
    kind: Kind,
    place: Place,
    into: usize,
    room: &mut Room,
)
    ensures step { (after : Device) (outcome : Outcome) (log : List Access) →
        Ahead (whole regions.now kind after outcome) (step_of step.new) device.new room.new log →
        served (whole regions.now kind after outcome) (tally_of step.old) place.head device.old
        (tally_of step.old) (take into room.old.bytes) log }
    ensures fits { Fits (phase_of step.new) }
    ensures left { left regions.now (step_of step.new) ≤
        of_chains regions.now (tally_of step.old).chains + once_named regions.now }
{
    match kind {
        Kind::Statistics => keep_figures(step, device, regions, kind, place, into, room),
        Kind::Hint => hear_id(step, device, regions, kind, place, into, room),
        Kind::Inflate | Kind::Deflate | Kind::Report => {
            name_bytes(step, device, regions, kind, place, into, room)
        }
    }
}

/// The place before the first piece of a walk that is over.
fn first_place(walk: Walk) -> Place
    ensures { result ≡ record { head = walk.head; count = walk.count; piece = 0; done = 0 } }
{
    Place {
        head: walk.head,
        count: walk.count,
        piece: 0,
        done: 0,
    }
}

/// Serves the chain of a walk that is over.
#[inline(always)]
pub(crate) fn serve_pieces(
    step: &mut Progress,
    device: &mut Device,
    regions: &[Region],
    kind: Kind,
    walk: Walk,
    room: &mut Room,
)
    ensures step { (after : Device) (outcome : Outcome) (log : List Access) →
        Ahead (whole regions.now kind after outcome) (step_of step.new) device.new room.new log →
        serves (whole regions.now kind after outcome) (tally_of step.old) device.old walk.head
        (pieces_in (take walk.count room.old.pieces)) log }
    ensures fits { Fits (phase_of step.new) }
    ensures left { left regions.now (step_of step.new) ≤
        of_chains regions.now (tally_of step.old).chains + once_whole regions.now }
{
    let chain = first_pieces(&room.pieces, walk.count);
    let place = first_place(walk);
    match kind {
        Kind::Hint => serve_hint(step, device, regions, kind, place, room),
        Kind::Report => name_report(step, device, regions, kind, place, room),
        Kind::Statistics => match statistics_length(chain) {
            Err(fault) => fail(step, device, regions, kind, fault),
            Ok(_) => copy_on(step, device, regions, kind, place, 0, room),
        },
        Kind::Inflate | Kind::Deflate => match request_length(chain, step.longest) {
            Err(fault) => fail(step, device, regions, kind, fault),
            Ok(_) => copy_on(step, device, regions, kind, place, 0, room),
        },
    }
}

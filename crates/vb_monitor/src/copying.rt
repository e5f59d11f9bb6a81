//! The copies of a chain's pieces, part by part.

ghost use Rattle.std.specs.Prelude.{◌≡◌, ◌+◌, ◌≤◌, List, take};
ghost use Rattle.vb_core.specs.declared.device.Device.{Device};
ghost use Rattle.vb_monitor.specs.declared.outcome.Outcome.{Outcome};
ghost use Rattle.vb_monitor.specs.declared.room.Room.{Room};
ghost use Rattle.vb_monitor.specs.Accesses.{Access};
ghost use Rattle.vb_monitor.specs.declared.room.TheConstants.{MAX_BYTES};
ghost use Rattle.vb_monitor.specs.Pieces.{PartAt};
ghost use Rattle.vb_monitor.specs.Portions.{CopiesParts, CopiesFurther};
ghost use Rattle.vb_monitor.specs.Regions.{spot};
ghost use Rattle.vb_monitor.specs.Machine.{Fits, stage, Ahead, whole, served, parts_from};
ghost use Rattle.vb_monitor.specs.Left.{left, of_chains, once_named, copies_left};
ghost use Rattle.vb_monitor.specs.Steps.{phase_of, step_of, tally_of};

use crate::ends::fail;
use crate::naming::{name_portion, serve_bytes};
use crate::parts::next_part;
use crate::pieces::first_pieces;
use crate::regions::find_from;
use crate::room::MAX_BYTES;
use crate::{Part, Place, Progress, Region, Room};
use vb_chain::ChainFault;
use vb_core::{Device, Kind};

/// Asks for the part of a piece before a place, after the first `into` bytes.
#[inline(always)]
fn ask_part(
    step: &mut Progress,
    device: &mut Device,
    regions: &[Region],
    kind: Kind,
    part: Part,
    place: Place,
    into: usize,
)
    requires { into + part.length ≤ MAX_BYTES }
    ensures step { (after : Device) (outcome : Outcome) (room : Room) (log : List Access) →
        Ahead (whole regions.now kind after outcome) (step_of step.new) device.new room log →
        PartAt (whole regions.now kind after outcome)
        (CopiesParts (whole regions.now kind after outcome)
        (served (whole regions.now kind after outcome) (tally_of step.old) place.head) device.old
        (tally_of step.old) (parts_from (into + part.length) place room)) device.old
        (tally_of step.old) part (take into room.bytes)
        (spot regions.now (part.address + part.plus) part.length) log }
    ensures fits { Fits (phase_of step.new) }
    ensures stage { stage (phase_of step.new) ≡ 3 }
    ensures left { left regions.now (step_of step.new) ≤
        of_chains regions.now (tally_of step.old).chains
        + (once_named regions.now + 2 + copies_left regions.now place.piece place.done) }
{
    match find_from(
        regions,
        part.address,
        u64::from(part.plus),
        u64::from(part.length),
    ) {
        None => fail(step, device, regions, kind, ChainFault::OutOfRam),
        Some(at) => step.await_part(at, place, into, part.length),
    }
}

/// The first `count` bytes.
pub(crate) fn first_bytes(bytes: &[u8; MAX_BYTES], count: usize) -> &[u8]
    ensures { result.now ≡ take count bytes.now }
{
    &bytes[..count.min(MAX_BYTES)]
}

/// Copies the pieces from a place on, after the first `into` bytes, which were copied.
#[tactic(auto, using(crate::proofs::CopyLemmas::copy_steps))]
#[inline(always)]
pub(crate) fn copy_on(
    step: &mut Progress,
    device: &mut Device,
    regions: &[Region],
    kind: Kind,
    place: Place,
    into: usize,
    room: &mut Room,
)
    requires { into ≤ MAX_BYTES }
    ensures step { (after : Device) (outcome : Outcome) (log : List Access) →
        Ahead (whole regions.now kind after outcome) (step_of step.new) device.new room.new log →
        CopiesParts (whole regions.now kind after outcome)
        (served (whole regions.now kind after outcome) (tally_of step.old) place.head) device.old
        (tally_of step.old) (parts_from into place room.old) (take into room.old.bytes) log }
    ensures fits { Fits (phase_of step.new) }
    ensures left { left regions.now (step_of step.new) ≤
        of_chains regions.now (tally_of step.old).chains
        + (once_named regions.now + 1 + copies_left regions.now place.piece place.done) }
{
    let pieces = first_pieces(&room.pieces, place.count);
    match next_part(pieces, place.piece, place.done, into) {
        None => serve_bytes(step, device, regions, kind, place, into, room),
        Some(found) => {
            if into == MAX_BYTES {
                return name_portion(step, device, regions, kind, place, room);
            }
            let place = Place {
                piece: found.piece,
                done: found.done,
                ..place
            };
            ask_part(step, device, regions, kind, found.part, place, into)
        }
    }
}

/// Copies the next portion of a chain, from a place on.
#[tactic(auto, using(crate::proofs::CopyLemmas::further_steps))]
#[inline(always)]
pub(crate) fn copy_further(
    step: &mut Progress,
    device: &mut Device,
    regions: &[Region],
    kind: Kind,
    place: Place,
    room: &Room,
)
    ensures step { (after : Device) (outcome : Outcome) (log : List Access) →
        Ahead (whole regions.now kind after outcome) (step_of step.new) device.new room.now log →
        CopiesFurther (whole regions.now kind after outcome)
        (served (whole regions.now kind after outcome) (tally_of step.old) place.head) device.old
        (tally_of step.old) (parts_from 0 place room.now) log }
    ensures fits { Fits (phase_of step.new) }
    ensures stage { stage (phase_of step.new) ≡ 3 }
    ensures left { left regions.now (step_of step.new) ≤
        of_chains regions.now (tally_of step.old).chains
        + (2 + copies_left regions.now place.piece place.done) }
{
    let pieces = first_pieces(&room.pieces, place.count);
    match next_part(pieces, place.piece, place.done, 0) {
        None => fail(step, device, regions, kind, ChainFault::BadLength),
        Some(found) => {
            let place = Place {
                piece: found.piece,
                done: found.done,
                ..place
            };
            ask_part(step, device, regions, kind, found.part, place, 0)
        }
    }
}

//! Chains of free pages: reports, and hints with their ids (VIRTIO 1.2, 5.5.6.6).

ghost use Rattle.std.specs.Prelude.{◌≡◌, ◌≤◌, ◌+◌, List, take, Ok};
ghost use Rattle.vb_core.specs.declared.device.Device.{Device};
ghost use Rattle.vb_core.specs.Pieces.{pieces_in};
ghost use Rattle.vb_monitor.specs.declared.outcome.Outcome.{Outcome};
ghost use Rattle.vb_monitor.specs.Accesses.{Access};
ghost use Rattle.vb_monitor.specs.Chains.{NamesReport, ServesHint, has_id, IdBy, id_of};
ghost use Rattle.vb_monitor.specs.Chains.{told_if, tells_pages};
ghost use Rattle.vb_monitor.specs.Machine.{Fits, Ahead, whole, next_chain};
ghost use Rattle.vb_monitor.specs.Left.{left, of_chains, once_named, once_whole};
ghost use Rattle.vb_monitor.specs.Steps.{phase_of, step_of, tally_of};

use crate::copying::{copy_on, first_bytes};
use crate::ends::{end, fail};
use crate::naming::tell_pages;
use crate::pieces::{first_pieces, has_id, id_length, report_named};
use crate::{Place, Progress, Region, Room};
use vb_chain::ChainFault;
use vb_core::{Device, Kind, Named};

/// Whether pages of the kind's chains are told: of hints in a round that is open alone.
fn tells_pages(device: &Device, kind: Kind) -> bool
    ensures { result ≡ tells_pages kind device.now }
{
    match kind {
        Kind::Inflate | Kind::Deflate | Kind::Report => true,
        Kind::Statistics => false,
        Kind::Hint => device.round.is_open(),
    }
}

/// What is told of pages that a chain names by its pieces: where none of them is told, each counts
/// as skipped.
fn told_if(is_told: bool, named: Named) -> Named
    ensures { told_if is_told (Ok named) ≡ Ok result }
{
    if is_told {
        return named;
    }
    Named {
        runs: 0,
        pages: 0,
        skipped: named.pages,
    }
}

/// Names the pages of a report or a hint of a place's pieces.
#[tactic(auto, using(crate::proofs::RoomLemmas::few_reported))]
pub(crate) fn name_report(
    step: &mut Progress,
    device: &mut Device,
    regions: &[Region],
    kind: Kind,
    place: Place,
    room: &mut Room,
)
    ensures step { (after : Device) (outcome : Outcome) (log : List Access) →
        Ahead (whole regions.now kind after outcome) (step_of step.new) device.new room.new log →
        NamesReport (whole regions.now kind after outcome)
        (next_chain (whole regions.now kind after outcome) (tally_of step.old))
        device.old (tally_of step.old) place.head (pieces_in (take place.count room.old.pieces))
        log }
    ensures fits { Fits (phase_of step.new) }
    ensures left { left regions.now (step_of step.new) ≤
        of_chains regions.now (tally_of step.old).chains + once_named regions.now }
{
    let chain = first_pieces(&room.pieces, place.count);
    let is_told = tells_pages(device, kind);
    match report_named(device, kind, chain, &mut room.runs) {
        Err(why) => end(step, device, regions, kind, Some(why), false),
        Ok(named) => {
            let told = told_if(is_told, named);
            tell_pages(step, &device.settings, kind, place, told)
        }
    }
}

/// The id of hints that these bytes are, if there are 4.
fn id_of(bytes: &[u8]) -> Option<u32>
    ensures { result ≡ id_of bytes.now }
{
    if bytes.len() != 4 {
        return None;
    }
    let mut word = [0; 4];
    word.copy_from_slice(bytes);
    Some(u32::from_le_bytes(word))
}

/// Reads an id of hints, of which the first `into` bytes were copied: the device's round opens or
/// closes by it.
pub(crate) fn hear_id(
    step: &mut Progress,
    device: &mut Device,
    regions: &[Region],
    kind: Kind,
    place: Place,
    into: usize,
    room: &mut Room,
)
    ensures step { (after : Device) (outcome : Outcome) (log : List Access) →
        Ahead (whole regions.now kind after outcome) (step_of step.new) device.new room.new log →
        IdBy (id_of (take into room.old.bytes)) (whole regions.now kind after outcome)
        (next_chain (whole regions.now kind after outcome) (tally_of step.old)) device.old
        (tally_of step.old) place.head log }
    ensures fits { Fits (phase_of step.new) }
    ensures left { left regions.now (step_of step.new) ≤
        of_chains regions.now (tally_of step.old).chains + 3 }
{
    match id_of(first_bytes(&room.bytes, into)) {
        None => fail(step, device, regions, kind, ChainFault::BadLength),
        Some(id) => {
            device.take_request(Kind::Hint);
            device.hear_id(id);
            step.await_id(place.head, id);
        }
    }
}

/// Serves a chain of hints, of which nothing was copied: its id is copied, or its pages are named.
pub(crate) fn serve_hint(
    step: &mut Progress,
    device: &mut Device,
    regions: &[Region],
    kind: Kind,
    place: Place,
    room: &mut Room,
)
    requires first_piece { place.piece ≡ 0 }
    requires first_byte { place.done ≡ 0 }
    ensures step { (after : Device) (outcome : Outcome) (log : List Access) →
        Ahead (whole regions.now kind after outcome) (step_of step.new) device.new room.new log →
        ServesHint (has_id (pieces_in (take place.count room.old.pieces)))
        (whole regions.now kind after outcome)
        (next_chain (whole regions.now kind after outcome) (tally_of step.old)) device.old
        (tally_of step.old) place.head (pieces_in (take place.count room.old.pieces)) log }
    ensures fits { Fits (phase_of step.new) }
    ensures left { left regions.now (step_of step.new) ≤
        of_chains regions.now (tally_of step.old).chains + once_whole regions.now }
{
    let chain = first_pieces(&room.pieces, place.count);
    if !has_id(chain) {
        return name_report(step, device, regions, kind, place, room);
    }
    match id_length(chain) {
        Err(fault) => fail(step, device, regions, kind, fault),
        Ok(_) => copy_on(step, device, regions, kind, place, 0, room),
    }
}

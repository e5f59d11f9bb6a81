//! The walk along a chain, one descriptor after the other (VIRTIO 1.1, 2.6.5).

ghost use Rattle.std.specs.Prelude.{◌≡◌, ◌+◌, ◌-◌, ◌*◌, ◌≤◌, ◌<◌, List, None, length, take};
ghost use Rattle.vb_chain.specs.declared.descriptor.TheConstants.{DESCRIPTOR_SIZE};
ghost use Rattle.vb_core.specs.declared.device.Device.{Device};
ghost use Rattle.vb_core.specs.Devices.{ring_of};
ghost use Rattle.vb_monitor.specs.declared.outcome.Outcome.{Outcome};
ghost use Rattle.vb_monitor.specs.Accesses.{Access};
ghost use Rattle.vb_monitor.specs.Chains.{longest, memory_end, AfterDescriptor, Follows};
ghost use Rattle.vb_monitor.specs.Chains.{TakesRow, further_in_row, unless_apart};
ghost use Rattle.vb_monitor.specs.Notices.{AfterEntry};
ghost use Rattle.vb_monitor.specs.declared.room.TheConstants.{ROW_DESCRIPTORS};
ghost use Rattle.vb_core.specs.Pieces.{pieces_in};
ghost use Rattle.vb_monitor.specs.Regions.{spot};
ghost use Rattle.vb_monitor.specs.declared.room.Room.{Room};
ghost use Rattle.vb_monitor.specs.Machine.{Fits, Ahead, whole, serves, next_chain};
ghost use Rattle.vb_monitor.specs.Machine.{row_in, row_bytes};
ghost use Rattle.vb_monitor.specs.Left.{left, of_chains, once_copied};
ghost use Rattle.vb_monitor.specs.Steps.{phase_of, step_of, tally_of};

use crate::copying::first_bytes;
use crate::ends::fail;
use crate::naming::serve_pieces;
use crate::regions::{PAGE_BYTES, find_from};
use crate::room::ROW_DESCRIPTORS;
use crate::rows::{RowEnd, RowWalk, row_bytes, walk_row};
use crate::{Progress, Region, Room, Walk};
use vb_chain::{ChainFault, DESCRIPTOR_SIZE};
use vb_core::{Device, Kind};

/// Where guest memory ends.
pub(crate) fn memory_end(device: &Device) -> u64
    ensures { result ≡ memory_end device.now }
{
    PAGE_BYTES * (device.settings.memory_end / PAGE_BYTES)
}

/// Asks for a row: of the descriptors after its first one, unless they lie apart from it.
#[tactic(auto, using(crate::proofs::TableRowLemmas::row_steps))]
#[inline(always)]
fn ask_row(step: &mut Progress, device: &mut Device, regions: &[Region], kind: Kind, walk: Walk)
    requires { walk.further < ROW_DESCRIPTORS }
    ensures step { (after : Device) (outcome : Outcome) (room : Room) (log : List Access) →
        Ahead (whole regions.now kind after outcome) (step_of step.new) device.new room log →
        TakesRow (whole regions.now kind after outcome) device.old (tally_of step.old)
        (Follows (longest (ring_of kind device.old).size - (walk.count + 1))
        (whole regions.now kind after outcome) device.old (tally_of step.old)
        (serves (whole regions.now kind after outcome) (tally_of step.old) device.old walk.head))
        (serves (whole regions.now kind after outcome) (tally_of step.old) device.old walk.head)
        walk.first
        (unless_apart (spot regions.now ((ring_of kind device.old).table + 16 * walk.first)
        (16 * (walk.further + 1))) walk.further) walk.writing
        (pieces_in (take walk.count room.pieces)) log }
    ensures fits { Fits (phase_of step.new) }
    ensures left { left regions.now (step_of step.new) ≤
        of_chains regions.now (tally_of step.old).chains
        + (once_copied regions.now walk.count + 1) }
{
    let table = device.ring(kind).table;
    let length = DESCRIPTOR_SIZE as u64;
    let start = length * u64::from(walk.first);
    if let Some(at) = find_from(
        regions,
        table,
        start,
        length * (u64::from(walk.further) + 1),
    ) {
        return step.await_row(at, walk);
    }
    match find_from(regions, table, start, length) {
        None => fail(step, device, regions, kind, ChainFault::OutOfRam),
        Some(at) => step.await_row(at, Walk { further: 0, ..walk }),
    }
}

/// Asks for a chain's first descriptor, alone.
#[tactic(auto, using(crate::proofs::TableRowLemmas::first_steps))]
#[inline(always)]
pub(crate) fn ask_first(
    step: &mut Progress,
    device: &mut Device,
    regions: &[Region],
    kind: Kind,
    head: u16,
)
    requires { head < (ring_of kind device.old).size }
    ensures step { (after : Device) (outcome : Outcome) (room : Room) (log : List Access) →
        Ahead (whole regions.now kind after outcome) (step_of step.new) device.new room log →
        AfterEntry (whole regions.now kind after outcome)
        (next_chain (whole regions.now kind after outcome) (tally_of step.old)) device.old
        (tally_of step.old) head log }
    ensures fits { Fits (phase_of step.new) }
    ensures left { left regions.now (step_of step.new) ≤
        of_chains regions.now (tally_of step.old).chains + (once_copied regions.now 0 + 1) }
{
    let walk = Walk {
        head,
        count: 0,
        writing: false,
        first: head,
        further: 0,
    };
    ask_row(step, device, regions, kind, walk)
}

/// Asks for the row from a descriptor on that is not the chain's first.
#[tactic(auto, using(crate::proofs::TableRowLemmas::next_steps))]
fn ask_next(
    step: &mut Progress,
    device: &mut Device,
    regions: &[Region],
    kind: Kind,
    walk: Walk,
    number: u16,
)
    ensures step { (after : Device) (outcome : Outcome) (room : Room) (log : List Access) →
        0 < length (pieces_in (take walk.count room.pieces)) →
        Ahead (whole regions.now kind after outcome) (step_of step.new) device.new room log →
        TakesRow (whole regions.now kind after outcome) device.old (tally_of step.old)
        (Follows (longest (ring_of kind device.old).size - (walk.count + 1))
        (whole regions.now kind after outcome) device.old (tally_of step.old)
        (serves (whole regions.now kind after outcome) (tally_of step.old) device.old walk.head))
        (serves (whole regions.now kind after outcome) (tally_of step.old) device.old walk.head)
        number
        (further_in_row regions.now (ring_of kind device.old) number
        (pieces_in (take walk.count room.pieces))) walk.writing
        (pieces_in (take walk.count room.pieces)) log }
    ensures fits { Fits (phase_of step.new) }
    ensures left { left regions.now (step_of step.new) ≤
        of_chains regions.now (tally_of step.old).chains
        + (once_copied regions.now walk.count + 1) }
{
    let size = device.ring(kind).size;
    let left = u32::from(size).saturating_sub(u32::from(number) + 1);
    let further = left.min(ROW_DESCRIPTORS as u32 - 1) as u16;
    let walk = Walk {
        first: number,
        further,
        ..walk
    };
    ask_row(step, device, regions, kind, walk)
}

/// The bytes of a row of descriptors were copied to the front of these.
#[tactic(auto, using(crate::proofs::BufferLemmas::length_in))]
pub(crate) fn after_descriptor(
    step: &mut Progress,
    device: &mut Device,
    regions: &[Region],
    kind: Kind,
    walk: Walk,
    room: &mut Room,
)
    ensures step { (after : Device) (outcome : Outcome) (log : List Access) →
        Ahead (whole regions.now kind after outcome) (step_of step.new) device.new room.new log →
        AfterDescriptor (whole regions.now kind after outcome) device.old (tally_of step.old)
        (Follows (longest (ring_of kind device.old).size - (walk.count + 1))
        (whole regions.now kind after outcome) device.old (tally_of step.old)
        (serves (whole regions.now kind after outcome) (tally_of step.old) device.old walk.head)
        (row_in walk room.old.bytes))
        (serves (whole regions.now kind after outcome) (tally_of step.old) device.old walk.head)
        walk.writing
        (pieces_in (take walk.count room.old.pieces))
        (take DESCRIPTOR_SIZE (take (row_bytes walk) room.old.bytes)) log }
    ensures fits { Fits (phase_of step.new) }
    ensures left { left regions.now (step_of step.new) ≤
        of_chains regions.now (tally_of step.old).chains + once_copied regions.now walk.count }
{
    let size = device.ring(kind).size;
    let end = memory_end(device);
    let row = first_bytes(&room.bytes, row_bytes(&walk));
    let walked = walk_row(size, end, walk, row, &mut room.pieces);
    let RowWalk {
        count,
        writing,
        end,
    } = walked;
    let walk = Walk {
        count,
        writing,
        ..walk
    };
    match end {
        RowEnd::Broken(fault) => fail(step, device, regions, kind, fault),
        RowEnd::Last => serve_pieces(step, device, regions, kind, walk, room),
        RowEnd::Leaves(number) => ask_next(step, device, regions, kind, walk, number),
    }
}

//! Chains that are given back.

ghost use Rattle.std.specs.Prelude.{◌≡◌, ◌+◌, ◌≤◌, List};
ghost use Rattle.vb_core.specs.declared.device.Device.{Device};
ghost use Rattle.vb_monitor.specs.declared.outcome.Outcome.{Outcome};
ghost use Rattle.vb_monitor.specs.Accesses.{Access};
ghost use Rattle.vb_monitor.specs.Giving.{GivesBack, used_spots};
ghost use Rattle.vb_monitor.specs.declared.room.Room.{Room};
ghost use Rattle.vb_monitor.specs.Machine.{Fits, stage, Ahead, whole, next_chain};
ghost use Rattle.vb_monitor.specs.Left.{left, of_chains};
ghost use Rattle.vb_monitor.specs.Steps.{phase_of, step_of, tally_of};

use crate::ends::{end, fail};
use crate::regions::find_from;
use crate::{Progress, Region, Spot};
use vb_chain::ChainFault;
use vb_core::{Device, Kind, UsedEntry};
use vb_ring::{RING_WORD_SIZE, USED_FIELD_SIZE, USED_LENGTH_AT};

/// Where a used element goes (VIRTIO 1.1, 2.6.8).
#[repr(C)]
#[derive(Clone, Copy, Debug)]
pub struct UsedSpots {
    /// Its id, of 32 bits.
    pub id: Spot,
    /// Its length, of 32 bits.
    pub length: Spot,
    /// The index, of 16 bits.
    pub index: Spot,
}

/// Where a used element goes, where all of it is guest memory.
#[inline(always)]
fn used_spots(regions: &[Region], entry: &UsedEntry) -> Option<UsedSpots>
    ensures { result ≡ used_spots regions.now entry.now }
{
    match find_from(regions, entry.element_at, 0, USED_FIELD_SIZE) {
        None => None,
        Some(id) => match find_from(regions, entry.element_at, USED_LENGTH_AT, USED_FIELD_SIZE) {
            None => None,
            Some(length) => match find_from(regions, entry.index_at, 0, RING_WORD_SIZE) {
                None => None,
                Some(index) => Some(UsedSpots { id, length, index }),
            },
        },
    }
}

/// Gives the chain of this head back.
#[inline(never)]
pub(crate) fn give_back(
    step: &mut Progress,
    device: &mut Device,
    regions: &[Region],
    kind: Kind,
    head: u16,
)
    ensures step { (after : Device) (outcome : Outcome) (room : Room) (log : List Access) →
        Ahead (whole regions.now kind after outcome) (step_of step.new) device.new room log →
        GivesBack (whole regions.now kind after outcome)
        (next_chain (whole regions.now kind after outcome) (tally_of step.old)) device.old
        (tally_of step.old) head log }
    ensures fits { Fits (phase_of step.new) }
    ensures stage { 2 ≤ stage (phase_of step.new) }
    ensures left { left regions.now (step_of step.new) ≤ of_chains regions.now
        (tally_of step.old).chains + 2 }
{
    match device.use_chain(kind, u32::from(head)) {
        Err(why) => end(step, device, regions, kind, Some(why), false),
        Ok(entry) => match used_spots(regions, &entry) {
            None => fail(step, device, regions, kind, ChainFault::OutOfRam),
            Some(spots) => step.await_used(spots, entry),
        },
    }
}

//! How a notice ends.

ghost use Rattle.std.specs.Prelude.{◌≡◌, true, false, List};
ghost use Rattle.vb_core.specs.declared.device.Device.{Device};
ghost use Rattle.vb_monitor.specs.declared.outcome.Outcome.{Outcome};
ghost use Rattle.vb_monitor.specs.Accesses.{Access};
ghost use Rattle.vb_monitor.specs.Ends.{Whole, wants_interrupt, Ends, Breaks, Stops};
ghost use Rattle.vb_monitor.specs.declared.room.Room.{Room};
ghost use Rattle.vb_monitor.specs.Machine.{Fits, stage, Ahead, whole};
ghost use Rattle.vb_monitor.specs.Left.{left, of_chains};
ghost use Rattle.vb_monitor.specs.Steps.{phase_of, step_of, tally_of};
ghost use Rattle.vb_monitor.specs.declared.regions.Region.{Region};
ghost use Rattle.std.specs.Prelude.{◌+◌, ◌≤◌};

use crate::regions::find;
use crate::{Progress, Region};
use vb_chain::ChainFault;
use vb_core::{Denial, Device, Kind};
use vb_ring::RING_WORD_SIZE;

/// The bit of the flags by which a driver wants no interrupt (VIRTIO 1.1, 2.6.7).
const NO_INTERRUPT: u16 = 1;

/// The notice ends: where a chain was given back, the driver is asked whether it wants an
/// interrupt.
#[inline(never)]
pub(crate) fn end(
    step: &mut Progress,
    device: &Device,
    regions: &[Region],
    kind: Kind,
    why: Option<Denial>,
    more: bool,
)
    ensures step { (after : Device) (outcome : Outcome) (room : Room) (log : List Access) →
        Ahead (whole regions.now kind after outcome) (step_of step.new) device.now room log →
        Ends (whole regions.now kind after outcome) device.now (tally_of step.old) why more log }
    ensures fits { Fits (phase_of step.new) }
    ensures stage { stage (phase_of step.new) ≡ 3 }
    ensures left { left regions.now (step_of step.new) ≤ of_chains regions.now
        (tally_of step.old).chains + 1 }
{
    if !step.is_given() {
        return step.stop(why, false, more);
    }
    match find(regions, device.ring(kind).avail, RING_WORD_SIZE) {
        None => step.stop(why, false, more),
        Some(at) => step.await_flags(at, why, more),
    }
}

/// The notice ends since the guest broke a rule.
#[inline(never)]
pub(crate) fn fail(
    step: &mut Progress,
    device: &mut Device,
    regions: &[Region],
    kind: Kind,
    fault: ChainFault,
)
    ensures step { (after : Device) (outcome : Outcome) (room : Room) (log : List Access) →
        Ahead (whole regions.now kind after outcome) (step_of step.new) device.new room log →
        Breaks (whole regions.now kind after outcome) device.old (tally_of step.old) fault log }
    ensures fits { Fits (phase_of step.new) }
    ensures stage { stage (phase_of step.new) ≡ 3 }
    ensures left { left regions.now (step_of step.new) ≤ of_chains regions.now
        (tally_of step.old).chains + 1 }
{
    device.note_fault();
    end(
        step,
        device,
        regions,
        kind,
        Some(Denial::Broken(fault)),
        false,
    )
}

/// The flags were read.
pub(crate) fn after_flags(step: &mut Progress, why: Option<Denial>, more: bool, flags: u16)
    ensures step { (w : Whole) (d : Device) (room : Room) (log : List Access) →
        Ahead w (step_of step.new) d room log → Stops w d (tally_of step.old) why
        (wants_interrupt flags) more log }
    ensures fits { Fits (phase_of step.new) }
    ensures left { (regions : List Region) →
        left regions (step_of step.new) ≤ of_chains regions (tally_of step.old).chains }
{
    step.stop(why, flags & NO_INTERRUPT == 0, more)
}

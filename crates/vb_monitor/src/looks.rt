//! A look at a queue: its available index, and the entry that is next (VIRTIO 1.1, 2.6.6).

ghost use Rattle.std.specs.Prelude.{◌≡◌, ◌+◌, ◌<◌, List};
ghost use Rattle.vb_core.specs.declared.device.Device.{Device};
ghost use Rattle.vb_monitor.specs.declared.outcome.Outcome.{Outcome};
ghost use Rattle.vb_monitor.specs.Accesses.{Access};
ghost use Rattle.vb_monitor.specs.Notices.{entry_offset, stands, AfterEntry, Looks, TakesChain};
ghost use Rattle.vb_monitor.specs.Notices.{TakesNext, ServesPublished, AfterGiven, with_published};
ghost use Rattle.vb_monitor.specs.declared.room.Room.{Room};
ghost use Rattle.vb_monitor.specs.Machine.{Fits, stage, Ahead, whole, next_chain};
ghost use Rattle.vb_monitor.specs.Left.{left, of_chains, of_chain, once_copied};
ghost use Rattle.vb_monitor.specs.Steps.{phase_of, step_of, tally_of};
ghost use Rattle.std.specs.Prelude.{◌≤◌};

use crate::ends::{end, fail};
use crate::regions::find_from;
use crate::walk::ask_first;
use crate::{Progress, Region};
use vb_chain::ChainFault;
use vb_core::{Device, Kind, Virtqueue, place_in_ring};
use vb_ring::{AVAIL_ENTRY_SIZE, RING_HEADER_SIZE, RING_INDEX_AT, RING_WORD_SIZE};

/// Where the entry is that is taken next, after the available ring's begin.
pub(crate) fn entry_offset(ring: &Virtqueue) -> u64
    ensures { result ≡ entry_offset ring.now }
{
    if ring.size == 0 {
        return RING_HEADER_SIZE;
    }
    RING_HEADER_SIZE + AVAIL_ENTRY_SIZE * u64::from(place_in_ring(ring.next_avail, ring.size))
}

/// Whether a chain is available by this index.
pub(crate) fn stands(ring: &Virtqueue, index: u16) -> Result<bool, ChainFault>
    ensures { result ≡ stands ring.now index }
{
    let ahead = index.wrapping_sub(ring.next_avail);
    if ahead == 0 {
        Ok(false)
    } else if ahead <= ring.size {
        Ok(true)
    } else {
        Err(ChainFault::IndexJump)
    }
}

/// Looks at a queue.
#[inline(never)]
pub(crate) fn look(step: &mut Progress, device: &mut Device, regions: &[Region], kind: Kind)
    ensures step { (after : Device) (outcome : Outcome) (room : Room) (log : List Access) →
        Ahead (whole regions.now kind after outcome) (step_of step.new) device.new room log →
        Looks (tally_of step.old).chains (whole regions.now kind after outcome) device.old
        (tally_of step.old) log }
    ensures fits { Fits (phase_of step.new) }
    ensures stage { stage (phase_of step.new) ≡ 3 }
    ensures left { left regions.now (step_of step.new) ≤ of_chains regions.now
        (tally_of step.old).chains + 2 }
{
    match device.queue_denial(kind) {
        Some(why) => end(step, device, regions, kind, Some(why), false),
        None => match find_from(
            regions,
            device.ring(kind).avail,
            RING_INDEX_AT,
            RING_WORD_SIZE,
        ) {
            None => fail(step, device, regions, kind, ChainFault::OutOfRam),
            Some(at) => step.await_index(at),
        },
    }
}

/// Asks for the entry that is next.
fn ask_entry(step: &mut Progress, device: &mut Device, regions: &[Region], kind: Kind)
    ensures step { (after : Device) (outcome : Outcome) (room : Room) (log : List Access) →
        Ahead (whole regions.now kind after outcome) (step_of step.new) device.new room log →
        TakesChain (whole regions.now kind after outcome)
        (next_chain (whole regions.now kind after outcome) (tally_of step.old)) device.old
        (tally_of step.old) log }
    ensures fits { Fits (phase_of step.new) }
    ensures stage { stage (phase_of step.new) ≡ 3 }
    ensures left { left regions.now (step_of step.new) ≤
        of_chains regions.now (tally_of step.old).chains + of_chain regions.now }
{
    let ring = device.ring(kind);
    match find_from(regions, ring.avail, entry_offset(&ring), AVAIL_ENTRY_SIZE) {
        None => fail(step, device, regions, kind, ChainFault::OutOfRam),
        Some(at) => step.await_entry(at),
    }
}

/// Takes the chain that is next, where the budget has room for one.
#[tactic(auto, using(crate::proofs::NextLemmas::take_steps))]
fn take(step: &mut Progress, device: &mut Device, regions: &[Region], kind: Kind)
    ensures step { (after : Device) (outcome : Outcome) (room : Room) (log : List Access) →
        Ahead (whole regions.now kind after outcome) (step_of step.new) device.new room log →
        TakesNext (tally_of step.old).chains (whole regions.now kind after outcome) device.old
        (tally_of step.old) log }
    ensures fits { Fits (phase_of step.new) }
    ensures stage { stage (phase_of step.new) ≡ 3 }
    ensures left { left regions.now (step_of step.new) ≤ of_chains regions.now
        (tally_of step.old).chains + 1 }
{
    if step.chains_left == 0 {
        return end(step, device, regions, kind, None, true);
    }
    step.chains_left -= 1;
    step.told = 0;
    if step.pages_left == 0 {
        return end(step, device, regions, kind, None, true);
    }
    ask_entry(step, device, regions, kind)
}

/// Serves what the index that was read publishes, as far as it isn't served yet.
#[inline(never)]
fn serve_published(step: &mut Progress, device: &mut Device, regions: &[Region], kind: Kind)
    ensures step { (after : Device) (outcome : Outcome) (room : Room) (log : List Access) →
        Ahead (whole regions.now kind after outcome) (step_of step.new) device.new room log →
        ServesPublished (tally_of step.old).chains (whole regions.now kind after outcome)
        device.old (tally_of step.old) log }
    ensures fits { Fits (phase_of step.new) }
    ensures stage { stage (phase_of step.new) ≡ 3 }
    ensures left { left regions.now (step_of step.new) ≤ of_chains regions.now
        (tally_of step.old).chains + 1 }
{
    match stands(&device.ring(kind), step.published) {
        Err(fault) => fail(step, device, regions, kind, fault),
        Ok(there) => {
            if there {
                take(step, device, regions, kind)
            } else {
                end(step, device, regions, kind, None, false)
            }
        }
    }
}

/// The index was read.
pub(crate) fn after_index(
    step: &mut Progress,
    device: &mut Device,
    regions: &[Region],
    kind: Kind,
    index: u16,
)
    ensures step { (after : Device) (outcome : Outcome) (room : Room) (log : List Access) →
        Ahead (whole regions.now kind after outcome) (step_of step.new) device.new room log →
        ServesPublished (tally_of step.old).chains (whole regions.now kind after outcome) device.old
        (with_published index (tally_of step.old)) log }
    ensures fits { Fits (phase_of step.new) }
    ensures left { left regions.now (step_of step.new) ≤ of_chains regions.now
        (tally_of step.old).chains + 1 }
{
    step.published = index;
    serve_published(step, device, regions, kind)
}

/// The entry was read.
pub(crate) fn after_entry(
    step: &mut Progress,
    device: &mut Device,
    regions: &[Region],
    kind: Kind,
    head: u16,
)
    ensures step { (after : Device) (outcome : Outcome) (room : Room) (log : List Access) →
        Ahead (whole regions.now kind after outcome) (step_of step.new) device.new room log →
        AfterEntry (whole regions.now kind after outcome)
        (next_chain (whole regions.now kind after outcome) (tally_of step.old)) device.old
        (tally_of step.old) head log }
    ensures fits { Fits (phase_of step.new) }
    ensures left { left regions.now (step_of step.new) ≤
        of_chains regions.now (tally_of step.old).chains + (once_copied regions.now 0 + 1) }
{
    if head >= device.ring(kind).size {
        return fail(step, device, regions, kind, ChainFault::BadHead);
    }
    ask_first(step, device, regions, kind, head)
}

/// A chain was given back: the next one comes, but after one that was held.
pub(crate) fn after_given(step: &mut Progress, device: &mut Device, regions: &[Region], kind: Kind)
    ensures step { (after : Device) (outcome : Outcome) (room : Room) (log : List Access) →
        Ahead (whole regions.now kind after outcome) (step_of step.new) device.new room log →
        AfterGiven (whole regions.now kind after outcome)
        (ServesPublished (tally_of step.old).chains (whole regions.now kind after outcome))
        device.old (tally_of step.old) log }
    ensures fits { Fits (phase_of step.new) }
    ensures stage { stage (phase_of step.new) ≡ 3 }
    ensures left { left regions.now (step_of step.new) ≤ of_chains regions.now
        (tally_of step.old).chains + 1 }
{
    match step.held() {
        Some(_) => end(step, device, regions, kind, None, false),
        None => serve_published(step, device, regions, kind),
    }
}

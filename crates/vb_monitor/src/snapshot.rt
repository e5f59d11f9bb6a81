//! What a notice needs of its device from one step to the next: the host may call the device, and
//! the driver reset it, before the notice continues.

ghost use Rattle.std.specs.Prelude.{◌≡◌, true, false, List};
ghost use Rattle.vb_core.specs.declared.device.Device.{Device};
ghost use Rattle.vb_core.specs.Devices.{ring_of};
ghost use Rattle.vb_monitor.specs.declared.outcome.Outcome.{Outcome};
ghost use Rattle.vb_monitor.specs.declared.cuts.Cut.{Cut};
ghost use Rattle.vb_monitor.specs.declared.step.Discarding.{Discarding};
ghost use Rattle.vb_monitor.specs.declared.step.Phase.TheVariants.{Discards};
ghost use Rattle.vb_monitor.specs.Accesses.{Access};
ghost use Rattle.vb_monitor.specs.Machine.{Fits, Ahead, Onward, is_discarding, whole};
ghost use Rattle.vb_monitor.specs.Steps.{phase_of, step_of, tally_of};
ghost use Rattle.vb_monitor.specs.Snapshots.{snapshot_of, IsCurrent, may_discard};

use crate::discards::go_onward;
use crate::{Phase, Progress, Region, Room};
use vb_core::{Device, Kind, Virtqueue};

/// A device as a notice left it.
#[repr(C)]
#[derive(Clone, Copy, Debug)]
pub struct Snapshot {
    /// The ring of the notice's queue.
    pub ring: Virtqueue,
    /// What `free_page_hint_cmd_id` showed.
    pub shown: u32,
    /// The status register.
    pub status: u8,
}

/// Whether two rings are the same.
#[inline(always)]
fn are_same(one: &Virtqueue, other: &Virtqueue) -> bool
    ensures yes { result ≡ true → one.now ≡ other.now }
    ensures no { result ≡ false → ¬ (one.now ≡ other.now) }
{
    one.table == other.table
        && one.avail == other.avail
        && one.used == other.used
        && one.size == other.size
        && one.next_avail == other.next_avail
        && one.next_used == other.next_used
}

impl Snapshot {
    /// The snapshot of a device that a notice of this kind's queue leaves.
    #[inline(always)]
    pub fn of(device: &Device, kind: Kind) -> Snapshot
        ensures { result ≡ snapshot_of kind device.now }
    {
        Snapshot {
            ring: device.ring(kind),
            shown: device.round.shown,
            status: device.status,
        }
    }

    /// Whether the device wasn't reset since, and its queue wasn't placed, started, stopped or used
    /// by another notice.
    #[inline(always)]
    pub fn is_current(&self, device: &Device, kind: Kind) -> bool
        ensures yes { result ≡ true → IsCurrent self.now kind device.now }
        ensures no { result ≡ false → ¬ IsCurrent self.now kind device.now }
    {
        self.status == device.status && are_same(&self.ring, &device.ring(kind))
    }

    /// Whether what the notice named may be discarded still: hints only while their round is open
    /// (VIRTIO 1.2, 5.5.6.6.1).
    #[inline(always)]
    pub fn may_discard(&self, device: &Device, kind: Kind) -> bool
        ensures { result ≡ may_discard self.now kind device.now }
    {
        match kind {
            Kind::Hint => device.round.is_open() && self.shown == device.round.shown,
            Kind::Inflate | Kind::Deflate | Kind::Statistics | Kind::Report => true,
        }
    }
}

impl Progress {
    /// The parts that are left to discard are left: their chain is copied further, or given back.
    pub fn leave_parts(&mut self, device: &mut Device, regions: &[Region], kind: Kind, room: &Room)
        requires fits { Fits (phase_of self.old) }
        ensures step { (cut : Cut) (x : Discarding) (after : Device) (outcome : Outcome)
            (log : List Access) → phase_of self.old ≡ Discards cut x →
            Ahead (whole regions.now kind after outcome) (step_of self.new) device.new room.now
            log →
            Onward x.further (whole regions.now kind after outcome) (tally_of self.old) device.old
            x.place room.now log }
        ensures stays { is_discarding (phase_of self.old) ≡ false →
            (self.new ≡ self.old) × (device.new ≡ device.old) }
        ensures fits { Fits (phase_of self.new) }
    {
        if let Phase::Discards { discarding, .. } = self.phase() {
            go_onward(self, device, regions, kind, discarding, room);
        }
    }
}

//! A device over regions: where memory ends, and where queues may lie.

ghost use Rattle.std.specs.Prelude.{◌≡◌, ◌≤◌, ◌^◌, true, false, Some, None, Ok, Err, if◌then◌else◌};
ghost use Rattle.vb_core.specs.declared.device.Denial.{Denial};
ghost use Rattle.vb_core.specs.declared.device.Denial.TheVariants.{Misplaced};
ghost use Rattle.vb_core.specs.declared.saved.Saved.{Saved};
ghost use Rattle.vb_core.specs.Devices.{place_denial, placed, with_ring};
ghost use Rattle.vb_core.specs.Saved.{restored};
ghost use Rattle.vb_monitor.specs.Places.{memory_end_of, is_memory, AreMemory, HasMemory, Lies};
ghost use Rattle.vb_monitor.specs.Places.{AllLie, FitsOver, Becomes};
ghost use Rattle.vb_monitor.specs.Places.{RestoresBy};
ghost use Rattle.vb_monitor.specs.Places.{balloon_over, ending_with, may_be_memory};

use crate::regions::{PAGE_BYTES, find};
use crate::{Balloon, Region};
use vb_chain::DESCRIPTOR_SIZE;
use vb_core::{Denial, Device, Held, Kind, MEMORY_LIMIT, Saved, Settings, StateDenial, Virtqueue};
use vb_ring::{AVAIL_ENTRY_SIZE, RING_META_SIZE, USED_ELEMENT_SIZE};

/// The place of a queue: where its parts lie, by addresses of guest memory, and how many
/// descriptors it has.
#[repr(C)]
#[derive(Clone, Copy, Debug)]
pub struct QueuePlace {
    /// Where the descriptor table begins.
    pub table: u64,
    /// Where the available ring begins.
    pub avail: u64,
    /// Where the used ring begins.
    pub used: u64,
    /// How many descriptors there are.
    pub size: u16,
}

/// Why a balloon isn't restored over regions.
#[derive(Clone, Copy, Debug, PartialEq, Eq)]
pub enum RestoreDenial {
    /// No balloon is restored of these bytes anywhere.
    State(StateDenial),
    /// Memory ends elsewhere than it did, or a part of a queue lies in a hole.
    Elsewhere,
}

/// Where memory of these regions ends; none where one of them isn't whole pages of guest memory.
#[tactic(auto, using(crate::proofs::PlaceLemmas::region_steps))]
pub fn memory_end_of(regions: &[Region]) -> Option<u64>
    ensures { result ≡ memory_end_of regions.now }
{
    let mut end = 0;
    for number in 0..regions.len() {
        let region = &regions[number];
        if !region.is_possible() {
            return None;
        }
        end = end.max(region.guest + region.length);
    }
    Some(end)
}

/// Whether a byte lies in one of the regions.
#[tactic(auto, using(crate::proofs::PlaceLemmas::memory_there))]
fn is_memory(regions: &[Region], byte: u64) -> bool
    ensures { result ≡ is_memory regions.now byte }
{
    find(regions, byte, 1).is_some()
}

/// Whether each of `length` bytes from an address on lies in one of the regions.
#[tactic(auto, using(crate::proofs::PlaceLemmas::byte_steps))]
pub fn are_memory(regions: &[Region], address: u64, length: u64) -> bool
    ensures yes { result ≡ true → AreMemory regions.now address length }
    ensures no { result ≡ false → ¬ AreMemory regions.now address length }
{
    if length == 0 {
        return true;
    }
    let last = address.saturating_add(length - 1);
    if last >= MEMORY_LIMIT {
        return false;
    }
    for page in address / PAGE_BYTES..last / PAGE_BYTES + 1 {
        if !is_memory(regions, address.max(PAGE_BYTES * page)) {
            return false;
        }
    }
    true
}

/// Whether each part of a queue is memory.
fn has_memory(regions: &[Region], ring: &Virtqueue) -> bool
    ensures yes { result ≡ true → HasMemory regions.now ring.now }
    ensures no { result ≡ false → ¬ HasMemory regions.now ring.now }
{
    let size = u64::from(ring.size);
    are_memory(regions, ring.table, DESCRIPTOR_SIZE as u64 * size)
        && are_memory(
            regions,
            ring.avail,
            RING_META_SIZE + AVAIL_ENTRY_SIZE * size,
        )
        && are_memory(
            regions,
            ring.used,
            RING_META_SIZE + USED_ELEMENT_SIZE * size,
        )
}

/// Whether a queue has no place, or one that is memory.
pub(crate) fn lies(regions: &[Region], ring: &Virtqueue) -> bool
    ensures yes { result ≡ true → Lies regions.now ring.now }
    ensures no { result ≡ false → ¬ Lies regions.now ring.now }
{
    ring.size == 0 || has_memory(regions, ring)
}

/// Whether each queue of a device does.
#[tactic(auto, using(crate::proofs::PlaceLemmas::kind_steps))]
fn all_lie(regions: &[Region], device: &Device) -> bool
    ensures yes { result ≡ true → AllLie regions.now device.now }
    ensures no { result ≡ false → ¬ AllLie regions.now device.now }
{
    lies(regions, &device.inflate)
        && lies(regions, &device.deflate)
        && lies(regions, &device.statistics)
        && lies(regions, &device.hint)
        && lies(regions, &device.report)
}

/// Whether a saved balloon goes on over these regions in place of this one.
fn fits_over(regions: &[Region], balloon: &Balloon, saved: &Saved) -> bool
    ensures yes { result ≡ true → FitsOver regions.now balloon.now saved.now }
    ensures no { result ≡ false → ¬ FitsOver regions.now balloon.now saved.now }
{
    saved.device.settings.memory_end == balloon.device.settings.memory_end
        && all_lie(regions, &saved.device)
}

impl Balloon {
    /// A balloon that waits for its driver, over these regions: where the settings say no end of
    /// memory (0), it ends with the last region.
    ///
    /// None where a region isn't whole pages of guest memory, or no device has such settings.
    pub fn over(settings: Settings, regions: &[Region]) -> Option<Balloon>
        ensures { result ≡ balloon_over settings regions.now }
    {
        let end = memory_end_of(regions)?;
        let memory_end = if settings.memory_end == 0 {
            end
        } else {
            settings.memory_end
        };
        let settings = Settings {
            memory_end,
            ..settings
        };
        if !settings.are_possible() {
            return None;
        }
        Some(Balloon {
            device: Device::new(settings),
            held: Held::NOTHING,
        })
    }

    /// These regions are guest memory from now on, and it ends with the last of them. Whether it is
    /// so: refused, with nothing changed, where a region isn't whole pages of guest memory, or no
    /// device has such memory. A queue that lies past the end is refused as `Misplaced`, and the
    /// balloon isn't saved, until the driver resets the device or the queue stops.
    pub fn set_regions(&mut self, regions: &[Region]) -> bool
        ensures value { result ≡ may_be_memory self.old.device.settings regions.now }
        ensures left { self.new ≡ (if may_be_memory self.old.device.settings regions.now
            then record self.old {
              device = record self.old.device {
                settings = ending_with self.old.device.settings regions.now;
              };
            }
            else self.old) }
    {
        match memory_end_of(regions) {
            None => false,
            Some(memory_end) => {
                let settings = Settings {
                    memory_end,
                    ..self.device.settings
                };
                if !settings.are_possible() {
                    return false;
                }
                self.device.settings = settings;
                true
            }
        }
    }

    /// Gives a kind's queue its place over these regions.
    ///
    /// Refused as by `Device::place`, and then `Misplaced` where a part of the queue lies in a
    /// hole.
    /// Then nothing is changed.
    pub fn place(&mut self, regions: &[Region], kind: Kind, at: QueuePlace) -> Result<(), Denial>
        ensures denied { (why : Denial) →
            place_denial kind (placed at.table at.avail at.used at.size) self.old.device
            ≡ Some why → (result ≡ Err why) × (self.new ≡ self.old) }
        ensures hole { place_denial kind (placed at.table at.avail at.used at.size) self.old.device
            ≡ None →
            (¬ Lies regions.now (placed at.table at.avail at.used at.size)) →
            (result ≡ Err Misplaced) × (self.new ≡ self.old) }
        ensures placed { place_denial kind (placed at.table at.avail at.used at.size)
            self.old.device ≡ None →
            Lies regions.now (placed at.table at.avail at.used at.size) →
            (result ≡ Ok tt) × (self.new ≡ record self.old {
              device = with_ring kind (placed at.table at.avail at.used at.size) self.old.device;
            }) }
    {
        let ring = Virtqueue {
            table: at.table,
            avail: at.avail,
            used: at.used,
            size: at.size,
            next_avail: 0,
            next_used: 0,
        };
        let mut device = self.device;
        device.place(kind, at.table, at.avail, at.used, at.size)?;
        if !lies(regions, &ring) {
            return Err(Denial::Misplaced);
        }
        self.device = device;
        Ok(())
    }

    /// Goes on as a saved balloon, where it fits these regions.
    fn become_saved(&mut self, regions: &[Region], saved: &Saved) -> Result<(), RestoreDenial>
        ensures { Becomes regions.now saved.now self.old self.new result }
    {
        if !fits_over(regions, self, saved) {
            return Err(RestoreDenial::Elsewhere);
        }
        *self = Balloon {
            device: saved.device,
            held: saved.held,
        };
        Ok(())
    }

    /// Goes on where the balloon was that was saved as these bytes, over these regions.
    ///
    /// Refused as by `Saved::restore`, and then `Elsewhere` where memory ends elsewhere than this
    /// balloon's, or a part of a queue lies in a hole. Then nothing is changed.
    pub fn restore(&mut self, regions: &[Region], bytes: &[u8]) -> Result<(), RestoreDenial>
        ensures { RestoresBy (restored bytes.now) regions.now self.old self.new result }
    {
        match Saved::restore(bytes) {
            Err(why) => Err(RestoreDenial::State(why)),
            Ok(saved) => self.become_saved(regions, &saved),
        }
    }
}

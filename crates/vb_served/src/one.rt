//! One chain of a queue over guest memory.

ghost use Rattle.std.specs.Prelude.{◌≡◌, ◌<◌, ◌*◌, length};
ghost use Rattle.vb_virtio.specs.Limits.{page_size};
ghost use Rattle.vb_core.specs.Devices.{ring_of};
ghost use Rattle.vb_served.specs.One.{ServesNext, all_of};

use crate::LooseRam;
use crate::reading::PAGE_BYTES;
use vb_core::{Device, Kind};
use vb_monitor::{Budget, Outcome, Region, Room, serve};
use vb_virtio::limits::MAX_REQUEST_PAGES;

/// What serves one chain.
const ONE_CHAIN: Budget = Budget {
    chains: 1,
    pages: 1,
    keeps: false,
    longest: MAX_REQUEST_PAGES,
};

/// The region that is all of a memory of n pages.
fn whole_memory(pages: u32) -> [Region; 1]
    ensures { result ≡ all_of pages }
{
    [Region {
        guest: 0,
        length: PAGE_BYTES * u64::from(pages),
        in_file: 0,
    }]
}

/// How many entries a device has taken from a kind's queue, modulo 65,536.
fn taken_so_far(device: &Device, kind: Kind) -> u16
    ensures is { result ≡ (ring_of kind device.now).next_avail }
    ensures few { result < 65536 }
{
    device.ring(kind).next_avail
}

/// Serves one chain of a queue, if one is there, over the memory that the device is of; a buffer of
/// statistics is taken and held.
pub fn serve_one(memory: &mut LooseRam, device: &mut Device, kind: Kind, room: &mut Room) -> Outcome
    requires end { device.old.settings.memory_end ≡ page_size * length memory.old.mem }
    requires holds { device.old.settings.holds_deflates ≡ 0 }
    ensures { ServesNext kind device.old device.new result memory.old memory.new }
{
    // Asked for the proof: that a count has 16 bits is a clause of this call alone.
    let _taken = taken_so_far(device, kind);
    let regions = whole_memory(memory.pages());
    serve(memory, device, &regions, kind, ONE_CHAIN, room)
}

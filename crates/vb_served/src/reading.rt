//! Bytes of guest memory, across the borders of its pages.

ghost use Rattle.std.specs.Prelude.{◌≡◌, ◌<◌, ◌^◌, length};
ghost use Rattle.vb_request.specs.Request.{bytes_from};

use vb_ram::GuestBytes;
use vb_virtio::limits::PAGE_SIZE;

/// Bytes of a page.
pub(crate) const PAGE_BYTES: u64 = PAGE_SIZE as u64;

/// Reads bytes from an address on: zeros where a page has no frame, and past the end.
pub(crate) fn read_across<G: GuestBytes>(ram: &G, address: u64, out: &mut [u8])
    ensures { out.new ≡ bytes_from (G.mem ram.now) address (length out.old) }
{
    if address / PAGE_BYTES >= u64::from(ram.pages()) {
        out.fill(0);
        return;
    }
    let page = (address / PAGE_BYTES) as u32;
    let offset = (address % PAGE_BYTES) as usize;
    let room = PAGE_SIZE as usize - offset;
    let len = out.len();
    let (first, rest) = out.split_at_mut(room.min(len));
    let _ = ram.read(page, offset, first);
    if len <= room {
        return;
    }
    read_across(ram, address + room as u64, rest);
}

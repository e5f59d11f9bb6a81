//! What the driver writes into guest memory beside its rings.

ghost use Rattle.std.specs.Prelude.{◌≡◌, ℕ, ◌+◌, ◌*◌, ◌<◌, IsSome, length};
ghost use Rattle.std.specs.Prelude.{true};
ghost use Rattle.vb_virtio.specs.Limits.{page_size};
ghost use Rattle.vb_virtio.specs.Layout.{is_ring_page};
ghost use Rattle.vb_ram.specs.Pages.{byte_at, frame_at, Covers, SameBut};
ghost use Rattle.vb_driver.specs.Coding.{Names, AreZeroed};
ghost use Rattle.vb_driver.specs.Answers.{has_frames, HaveRingFrames, IsLargeEnough};

use vb_ram::{GuestBytes, Shape, write_u32};

/// Writes page numbers from an offset of a page on, as the buffer of a request has them
/// (VIRTIO 1.1, 5.5.6).
pub(crate) fn write_numbers<G: GuestBytes>(ram: &mut G, page: u32, offset: usize, pages: &[u32])
    requires covers { Covers (G.mem ram.old) page offset (4 * length pages.now) }
    requires backed { IsSome (frame_at (G.mem ram.old) page) }
    ensures part { G.part ram.new ≡ G.part ram.old }
    ensures names { Names (G.mem ram.new) page offset pages.now }
    ensures rest { SameBut (G.mem ram.old) (G.mem ram.new)
        page offset (offset + 4 * length pages.now) }
{
    for k in 0..pages.len() {
        write_u32(ram, page, offset + 4 * k, pages[k]);
    }
}

/// Whether all pages of rings and buffers have frames.
pub(crate) fn all_backed<G: GuestBytes>(ram: &G, shape: Shape) -> bool
    ensures value { result ≡ has_frames shape.queue_size (G.mem ram.now) }
    ensures backed { result ≡ true → HaveRingFrames shape.queue_size (G.mem ram.now) }
{
    for page in 0..shape.reserved_pages() {
        if shape.is_start_page(page) && !ram.has_frame(page) {
            return false;
        }
    }
    true
}

/// Makes all bytes of a page zeros.
fn zero_page<G: GuestBytes>(ram: &mut G, page: u32)
    requires inside { page < length (G.mem ram.old) }
    requires backed { IsSome (frame_at (G.mem ram.old) page) }
    ensures zero { (offset : ℕ) → offset < page_size → byte_at (G.mem ram.new) page offset ≡ 0 }
    ensures rest { SameBut (G.mem ram.old) (G.mem ram.new) page 0 page_size }
    ensures part { G.part ram.new ≡ G.part ram.old }
{
    let _ = ram.clear_page(page);
}

/// Makes all bytes of the rings' pages zeros.
pub(crate) fn zero_rings<G: GuestBytes>(ram: &mut G, shape: Shape)
    requires memory { IsLargeEnough (G.mem ram.old) }
    requires backed { HaveRingFrames shape.queue_size (G.mem ram.old) }
    ensures zeroed { AreZeroed (G.mem ram.old) (G.mem ram.new) (is_ring_page shape.queue_size) }
    ensures part { G.part ram.new ≡ G.part ram.old }
{
    for page in 0..shape.reserved_pages() {
        if shape.is_ring_page(page) {
            zero_page(ram, page);
        }
    }
}

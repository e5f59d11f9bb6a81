//! Laws of guest memory, in the words of its contracts.

ghost use Rattle.std.specs.Prelude.{◌≡◌, ℕ, ◌+◌, ◌<◌, ◌≤◌, List, length, slice_index, take, drop};
ghost use Rattle.vb_virtio.specs.Memory.{overwritten};
ghost use Rattle.vb_virtio.specs.declared.limits.TheConstants.{PAGE_SIZE};
ghost use Rattle.vb_ram.specs.Pages.{Pages, byte_at, contents_at, frame_at, page_at, IsWhole};
ghost use Rattle.vb_ram.specs.Pages.{SameBut, Wrote, Supplied, Discarded};

/// What a write makes of a page's bytes: its own are between those before and those after.
pub fn a_write_replaces_bytes()
    ensures { (old new : Pages) (p off : ℕ) (bs : List ℕ) → IsWhole old →
        off + length bs ≤ PAGE_SIZE →
        Wrote old new p off bs → contents_at new p ≡ overwritten off bs (contents_at old p) }
{}

/// What a read gives is that part of the page's bytes.
pub fn a_read_gives_bytes()
    ensures { (mem : Pages) (p off : ℕ) (out : List ℕ) → IsWhole mem →
        off + length out ≤ PAGE_SIZE →
        ((k : ℕ) → k < length out → slice_index out k ≡ byte_at mem p (off + k)) →
        out ≡ take (length out) (drop off (contents_at mem p)) }
{}

/// Each page keeps its `PAGE_SIZE` bytes, whatever is written, supplied and discarded.
pub fn memory_stays_whole()
    ensures written { (old new : Pages) (p lo hi : ℕ) → IsWhole old → SameBut old new p lo hi →
        IsWhole new }
    ensures supplied { (old new : Pages) (p number : ℕ) → IsWhole old → Supplied old new p number →
        IsWhole new }
    ensures discarded { (old new : Pages) (p : ℕ) → IsWhole old → Discarded old new p →
        IsWhole new }
{}

/// A page is its frame's number and its bytes.
pub fn a_page_is_its_frame_and_bytes()
    ensures { (a b : Pages) (p : ℕ) → frame_at a p ≡ frame_at b p →
        contents_at a p ≡ contents_at b p →
        page_at a p ≡ page_at b p }
{}

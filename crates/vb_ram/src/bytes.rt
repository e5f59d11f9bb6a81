//! What is seen of a guest's memory.

ghost use Rattle.std.specs.Prelude.{◌≡◌, ℕ, ◌+◌, ◌<◌, ◌≤◌, None, IsSome, IsOk, OnOk};
ghost use Rattle.std.specs.Prelude.{OnErr, is_some, length, slice_index};
ghost use Rattle.vb_ram.specs.Part.{Part};
ghost use Rattle.vb_ram.specs.Pages.{Pages, byte_at, frame_at, Covers, Wrote, Cleared};

use crate::RamFault;
use crate::frame::ZEROS;

/// What is seen of a guest's memory, whatever keeps it.
pub trait GuestBytes {
    /// Each page with its frame's number and bytes, or none.
    ghost mem: { Self → Pages };

    /// What is kept beside the bytes.
    ghost part: { Self → Part };

    /// How many pages there are.
    fn pages(&self) -> u32
        ensures { result ≡ length (mem self.now) };

    /// Whether a page has a frame; a page past the end has none.
    fn has_frame(&self, page: u32) -> bool
        ensures { result ≡ is_some (frame_at (mem self.now) page) };

    /// Reads the bytes from an offset of a page on, as many as `out` has. A page with no frame
    /// reads as zeros.
    ///
    /// Refused with `OutOfRam` where there is no such page, or where the offset and the length
    /// together are over `PAGE_SIZE`; then `out` is as it was.
    fn read(&self, page: u32, offset: usize, out: &mut [u8]) -> Result<(), RamFault>
        ensures answers { Covers (mem self.now) page offset (length out.old) → IsOk result }
        ensures out_of_ram { ¬ (Covers (mem self.now) page offset (length out.old)) →
            result ≡ Err RamFault.OutOfRam }
        ensures covers { OnOk result (Covers (mem self.now) page offset (length out.old)) }
        ensures bytes { OnOk result ((k : ℕ) → k < length out.old →
            slice_index out.new k ≡ byte_at (mem self.now) page (offset + k)) }
        ensures unread { OnErr result (out.new ≡ out.old) };

    /// Writes bytes from an offset of a page on, and changes nothing else.
    ///
    /// Refused with `OutOfRam` where there is no such page, or where the offset and the length
    /// together are over `PAGE_SIZE`; then with `NeedsFrame` where a byte is to be written and the
    /// page has no frame. A refused write changes nothing.
    fn write(&mut self, page: u32, offset: usize, bytes: &[u8]) -> Result<(), RamFault>
        ensures answers { Covers (mem self.old) page offset (length bytes.now) →
            IsSome (frame_at (mem self.old) page) → IsOk result }
        ensures out_of_ram { ¬ (Covers (mem self.old) page offset (length bytes.now)) →
            result ≡ Err RamFault.OutOfRam }
        ensures needs_frame { Covers (mem self.old) page offset (length bytes.now) →
            0 < length bytes.now → frame_at (mem self.old) page ≡ None →
            result ≡ Err RamFault.NeedsFrame }
        ensures empty { Covers (mem self.old) page offset (length bytes.now) →
            length bytes.now ≡ 0 → IsOk result }
        ensures covers { OnOk result (Covers (mem self.old) page offset (length bytes.now)) }
        ensures bytes { OnOk result (Wrote (mem self.old) (mem self.new) page offset bytes.now) }
        ensures part { part self.new ≡ part self.old }
        ensures unwritten { OnErr result (mem self.new ≡ mem self.old) }
        ensures none_written { length bytes.now ≡ 0 → mem self.new ≡ mem self.old };

    /// Makes all bytes of a page zeros, and changes nothing else: as a write of zeros does. An
    /// implementation may do it for less.
    ///
    /// Refused with `OutOfRam` where there is no such page, then with `NeedsFrame` where the page
    /// has no frame. A refused call changes nothing.
    fn clear_page(&mut self, page: u32) -> Result<(), RamFault>
        ensures answers { page < length (mem self.old) → IsSome (frame_at (mem self.old) page) →
            IsOk result }
        ensures out_of_ram { length (mem self.old) ≤ page → result ≡ Err RamFault.OutOfRam }
        ensures needs_frame { page < length (mem self.old) → frame_at (mem self.old) page ≡ None →
            result ≡ Err RamFault.NeedsFrame }
        ensures cleared { OnOk result (Cleared (mem self.old) (mem self.new) page) }
        ensures part { part self.new ≡ part self.old }
        ensures kept { OnErr result (mem self.new ≡ mem self.old) }
    {
        self.write(page, 0, &ZEROS)
    }
}

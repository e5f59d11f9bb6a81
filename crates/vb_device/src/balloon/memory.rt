//! Guest memory, and the frames that come loose from it.

ghost use Rattle.std.specs.Prelude.{◌≡◌, ◌<◌, [], ◌∷◌, ◌++◌, is_some, length};
ghost use Rattle.vb_ram.specs.Pages.{frame_at};
ghost use Rattle.vb_device.specs.Discards.{discarded, frames_behind};

use crate::balloon::BalloonDevice;
use crate::discarding::discard_page;
use crate::pace::Pace;
use vb_ram::{GuestBytes, RamFault};

impl<P: Pace> BalloonDevice<P> {
    /// Takes the frame of one page away, if it has one; says whether it had.
    pub(super) fn discard(&mut self, page: u32) -> bool
        requires attached { 0 < length self.old.mem }
        requires none { self.old.part.loose ≡ [] }
        ensures answer { result ≡ is_some (frame_at self.old.mem page) }
        ensures mem { self.new.mem ≡ discarded (page ∷ []) self.old.mem }
        ensures part { self.new.part ≡
            record self.old.part {
              loose = self.old.part.loose ++
                  frames_behind self.old.mem (page ∷ []);
            } }
    {
        discard_page(&mut self.ram, &mut self.loose, page)
    }
}

impl<P: Pace> GuestBytes for BalloonDevice<P> {
    ghost mem = { λ d. d.mem };

    ghost part = { λ d. d.part };

    fn pages(&self) -> u32 {
        self.ram.pages()
    }

    fn has_frame(&self, page: u32) -> bool {
        self.ram.has_frame(page)
    }

    fn read(&self, page: u32, offset: usize, out: &mut [u8]) -> Result<(), RamFault> {
        self.ram.read(page, offset, out)
    }

    fn write(&mut self, page: u32, offset: usize, bytes: &[u8]) -> Result<(), RamFault> {
        self.ram.write(page, offset, bytes)
    }

    fn clear_page(&mut self, page: u32) -> Result<(), RamFault> {
        self.ram.clear_page(page)
    }
}

//! A port in memory.

ghost use Rattle.std.specs.Prelude.{◌≡◌};
ghost use Rattle.vb_ram.specs.Part.{no_part};
ghost use Rattle.vb_status.specs.Bits.{feature_bits};

use crate::{Features, Port, Status, StatusFault, negotiate, write_status};
use bitflags::Flags;
use vb_ram::{GuestBytes, Ram, RamFault};

/// Guest memory with a status, features and a configuration, and no device: what a driver's calls
/// leave can be looked at, and nothing comes back.
#[derive(Drop)]
pub struct MemoryPort {
    /// The memory.
    ram: Ram,
    /// The status that was written last.
    status: Status,
    /// What was negotiated last.
    features: Features,
    /// How many pages the host wants in the balloon.
    target: u32,
    /// How many pages the driver told last.
    actual: u32,
}

impl MemoryPort {
    /// A port over this memory, as after a reset, with target 0.
    pub fn new(ram: Ram) -> Self
        ensures mem { ⟦<MemoryPort as GuestBytes>⟧.mem result ≡ ⟦<Ram as GuestBytes>⟧.mem ram }
        ensures part { ⟦<MemoryPort as GuestBytes>⟧.part result ≡ no_part }
    {
        MemoryPort {
            ram,
            status: Status::empty(),
            features: Features::empty(),
            target: 0,
            actual: 0,
        }
    }

    /// What the driver told last.
    pub fn actual(&self) -> u32
        ensures { result ≡ (⟦<MemoryPort as GuestBytes>⟧.part self.now).actual }
    {
        self.actual
    }

    /// What was negotiated last.
    pub fn features(&self) -> Features
        ensures { feature_bits result ≡ (⟦<MemoryPort as GuestBytes>⟧.part self.now).features }
    {
        self.features
    }

    /// Sets how many pages the host wants in the balloon.
    pub fn set_target(&mut self, pages: u32)
        ensures part { ⟦<MemoryPort as GuestBytes>⟧.part self.new ≡
            record (⟦<MemoryPort as GuestBytes>⟧.part self.old) { target = pages } }
        ensures mem { ⟦<MemoryPort as GuestBytes>⟧.mem self.new ≡
            ⟦<MemoryPort as GuestBytes>⟧.mem self.old }
    {
        self.target = pages;
    }
}

impl GuestBytes for MemoryPort {
    ghost use Rattle.vb_ram.specs.Part.{no_part};
    ghost use Rattle.vb_status.specs.Bits.{status_bits, feature_bits};

    ghost mem = { λ p. ⟦<Ram as GuestBytes>⟧.mem p.ram };

    ghost part = { λ p. record no_part {
      status = status_bits p.status;
      features = feature_bits p.features;
      target = p.target;
      actual = p.actual;
    } };

    fn pages(&self) -> u32 {
        self.ram.pages()
    }

    fn has_frame(&self, page: u32) -> bool {
        self.ram.has_frame(page)
    }

    fn read(&self, page: u32, offset: usize, out: &mut [u8]) -> Result<(), RamFault> {
        self.ram.read(page, offset, out)
    }

    fn write(&mut self, page: u32, offset: usize, bytes: &[u8]) -> Result<(), RamFault> {
        self.ram.write(page, offset, bytes)
    }

    fn clear_page(&mut self, page: u32) -> Result<(), RamFault> {
        self.ram.clear_page(page)
    }
}

impl Port for MemoryPort {
    fn status(&self) -> Status {
        self.status
    }

    fn write_status(&mut self, write: Status) -> Result<(), StatusFault> {
        self.status = write_status(self.status, self.features, write)?;
        if write.is_empty() {
            self.features = Features::empty();
            self.actual = 0;
        }
        Ok(())
    }

    fn negotiate(&mut self, wanted: Features) -> Result<(), StatusFault> {
        self.features = negotiate(self.status, wanted)?;
        Ok(())
    }

    fn target(&self) -> u32 {
        self.target
    }

    fn set_actual(&mut self, pages: u32) {
        self.actual = pages;
    }
}

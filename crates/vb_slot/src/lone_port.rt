//! A device that waits for a guest by itself.

ghost use Rattle.std.specs.Prelude.{◌≡◌};
ghost use Rattle.vb_slot.specs.Spare.{IsNew};

use crate::guest_port::GuestPort;
use crate::lone::LoneSlot;
use std::alloc::{AllocError, Global};
use vb_device::Device;
use vb_ram::Config;

/// A device for a guest that no host supplies, which has the frames that the device keeps and no
/// other.
#[derive(Drop)]
pub struct LonePort {
    /// The device, which no guest has yet.
    device: Box<dyn Device + Send>,
}

impl LonePort {
    /// The port of a device that no guest has yet, and of whose own frames, if it keeps such, none
    /// is out.
    pub fn new(device: Box<dyn Device + Send>) -> LonePort
        requires { IsNew (mem device) (part device) }
        ensures waits { ⟦<LonePort as GuestPort>⟧.waits result }
        ensures pace { ⟦<LonePort as GuestPort>⟧.pace result ≡ (part device).paced }
    {
        LonePort { device }
    }
}

impl GuestPort for LonePort {
    ghost use Rattle.vb_slot.specs.Spare.{IsNew};

    type Slot = LoneSlot;

    ghost waits = { λ p. IsNew
        ((Device-box p.device).GuestBytes.mem p.device.value)
        ((Device-box p.device).GuestBytes.part p.device.value) };

    ghost pace = { λ p. ((Device-box p.device).GuestBytes.part p.device.value).paced };

    fn is_paced(&self) -> bool {
        self.device.paced()
    }

    fn plug(self, alloc: Global, config: Config) -> Result<LoneSlot, AllocError> {
        match LoneSlot::new(alloc, self.device, config) {
            Ok(slot) => Ok(slot),
            Err(_refused) => Err(AllocError),
        }
    }
}

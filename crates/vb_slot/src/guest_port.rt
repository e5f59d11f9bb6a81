//! The place at which a thread runner plugs in a guest.

ghost use Rattle.std.specs.Prelude.{◌≡◌, IfOk, true};
ghost use Rattle.vb_model.specs.Guest.{fresh};
ghost use Rattle.vb_virtio.specs.Limits.{is_config};
ghost use Rattle.vb_slot.specs.Spare.{config_of};

use crate::guest_slot::GuestSlot;
use std::alloc::{AllocError, Global};
use vb_ram::Config;

/// A device that waits for a guest: a thread runner gets one for each guest.
pub trait GuestPort: Drop {
    ghost use Rattle.std.specs.Prelude.{Bool};

    /// The guest that is plugged in here.
    type Slot: GuestSlot + Send;

    /// No guest has the device yet, and of its own frames, if it keeps such, none is out.
    ghost waits: { Self → Type 0 };

    /// Whether the device is paced.
    ghost pace: { Self → Bool };

    /// Whether the device is paced.
    fn is_paced(&self) -> bool
        ensures { result ≡ pace self.now };

    /// The guest of this size as it is plugged in, on this device. Refused on an allocation failure
    /// alone; the device is gone then.
    fn plug(self, alloc: Global, config: Config) -> Result<Self::Slot, AllocError>
        requires waits { waits self }
        requires config { is_config config.pages config.queue_size config.processors ≡ true }
        ensures { IfOk result (λ slot. Self.Slot.stands slot
            (fresh (config_of config (pace self)) 0)) };
}

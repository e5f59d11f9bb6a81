//! A guest by itself: its frames come from its device alone.

ghost use Rattle.std.specs.Prelude.{◌≡◌, IfOk, IfErr, true, []};
ghost use Rattle.vb_model.specs.Guest.{Guest, fresh};
ghost use Rattle.vb_virtio.specs.Limits.{is_config};
ghost use Rattle.vb_model.specs.Queries.{Answers};
ghost use Rattle.vb_slot.specs.Alone.{AreBehind};
ghost use Rattle.vb_slot.specs.Spare.{IsNew, config_of};

use crate::guest_slot::GuestSlot;
use crate::new::NoSlot;
use crate::slot::Slot;
use std::alloc::Global;
use vb_device::Device;
use vb_frames::{FrameKeeper, Refused};
use vb_model::{Call, Claim, Query, Reply};
use vb_ram::{Config, Frame};

/// A keeper that has no frame to give: its only one is out, and nobody here has it.
#[derive(Drop)]
pub(crate) struct NoFrames {
    /// Whether it is out still.
    out: bool,
}

impl NoFrames {
    /// Such a keeper.
    pub(crate) fn new() -> NoFrames
        ensures { result.out ≡ true }
    {
        NoFrames { out: true }
    }
}

impl FrameKeeper for NoFrames {
    ghost use Rattle.std.specs.Prelude.{◌≡◌, ◌∷◌, []};
    ghost use Rattle.vb_model.specs.declared.calls.Claim.TheVariants.{GaveNoFrame};

    ghost out = { λ k. k.out ∷ [] };

    ghost answers = { λ _ claim. claim ≡ GaveNoFrame };

    fn claim(&mut self) -> Result<Frame, Refused> {
        Err(Refused::NoFrame)
    }

    fn put_back(&mut self, _frame: Frame) {
        self.out = false;
    }
}

/// A guest that no host supplies: it has the frames that its device keeps, and no other. They go
/// with it when it is dropped.
#[derive(Drop)]
pub struct LoneSlot {
    /// The guest, with its device.
    slot: Slot,
}

impl LoneSlot {
    /// A guest of this size as it is plugged in, on a device that no guest has yet, and of whose
    /// own frames, if it keeps such, none is out. Refused on an allocation failure alone.
    pub fn new(
        alloc: Global,
        device: Box<dyn Device + Send>,
        config: Config,
    ) -> Result<LoneSlot, NoSlot>
        requires new { IsNew (mem device) (part device) }
        requires config { is_config config.pages config.queue_size config.processors ≡ true }
        ensures made { IfOk result
            (λ slot. ⟦<LoneSlot as GuestSlot>⟧.stands slot
            (fresh (config_of config (part device).paced) 0)) }
        ensures frames { IfOk result
            (λ slot. AreBehind (⟦<LoneSlot as GuestSlot>⟧.own slot)
            (fresh (config_of config (part device).paced) 0)) }
        ensures claimed { IfOk result (λ slot. ⟦<LoneSlot as GuestSlot>⟧.claimed slot ≡ []) }
        ensures refused { IfErr result
            (λ refused. (mem refused.device ≡ mem device) × (part refused.device ≡ part device)) }
    {
        match Slot::new(alloc, device, config) {
            Ok(slot) => Ok(LoneSlot { slot }),
            Err(refused) => Err(refused),
        }
    }

    /// Answers a question about the guest.
    pub fn query(&self, alloc: Global, query: &Query) -> Reply
        requires { (g : Guest) × ⟦<LoneSlot as GuestSlot>⟧.stands self.now g }
        ensures { (g : Guest) → ⟦<LoneSlot as GuestSlot>⟧.stands self.now g
            → Answers query.now g result }
    {
        self.slot.query(alloc, query)
    }
}

impl GuestSlot for LoneSlot {
    ghost use Rattle.vb_slot.specs.Alone.{IsAlone};

    ghost stands = { λ l. IsAlone
        ((Device-box l.slot.device.device).GuestBytes.mem l.slot.device.device.value)
        ((Device-box l.slot.device.device).GuestBytes.part l.slot.device.device.value)
        l.slot.driver };

    ghost own = { λ l. ((Device-box l.slot.device.device).GuestBytes.part
        l.slot.device.device.value).own };

    ghost claimed = { λ l. l.slot.claims.items };

    fn call(&mut self, alloc: Global, call: &Call) -> Reply {
        self.slot.call(alloc, &mut NoFrames::new(), call)
    }

    fn claims(&self) -> &[Claim] {
        self.slot.claimed()
    }

    fn pages(&self) -> u32 {
        self.slot.pages()
    }

    fn spare(&self, floor: u32) -> u32 {
        self.slot.spare(floor)
    }

    fn backing(&self, page: u32) -> Option<u32> {
        self.slot.backing(page)
    }
}

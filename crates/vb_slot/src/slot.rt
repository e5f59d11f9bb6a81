//! A guest behind one type: how it is made, and its calls and questions told apart by their names.

ghost use Rattle.std.specs.Prelude.{◌≡◌, true, []};
ghost use Rattle.vb_guest.specs.Dispatch.{CallsBy, LeavesAlone};
ghost use Rattle.vb_slot.specs.Slots.{stands_for, claims_of, memory_of, moment_of, part_of};
ghost use Rattle.vb_slot.specs.Slots.{HasGuest, HasGuestOut};
ghost use Rattle.vb_slot.specs.Slots.{SlotAnswers, SlotSteps};

use crate::boxed::BoxedDevice;
use crate::new::NoSlot;
use std::alloc::Global;
use vb_device::Device;
use vb_driver::Driver;
use vb_frames::FrameKeeper;
use vb_guest::Claims;
use vb_model::{Call, Query, Reply};
use vb_ram::Config;

/// A guest: its balloon driver, and its device in a box, with its memory.
#[derive(Drop)]
pub struct Slot {
    /// The guest's device, with its memory.
    pub(crate) device: BoxedDevice,
    /// Its balloon driver, with its page areas.
    pub(crate) driver: Driver,
    /// What the claims of the last call were answered.
    pub(crate) claims: Claims,
}

/// Forgets what the claims of the call before were answered.
pub(crate) fn forget(claims: &mut Claims)
    ensures { claims.new.items ≡ [] }
{
    claims.clear();
}

impl Slot {
    /// Answers a call on the guest. Frames that its pages gain are claimed from its device, where
    /// that keeps frames of its own, else from the keeper, and those that they lose go back there.
    pub fn call<K: FrameKeeper>(&mut self, alloc: Global, keeper: &mut K, call: &Call) -> Reply
        requires stands { HasGuestOut mem part self.old (K.out keeper.old) }
        ensures step { SlotSteps K.answers mem part self.old (K.out keeper.old) self.new
            (K.out keeper.new) call.now result }
        ensures exact { CallsBy K.answers (moment_of mem part self.old (K.out keeper.old))
            (moment_of mem part self.new (K.out keeper.new)) (claims_of self.new) call.now result }
        ensures quiet { LeavesAlone (keeper.new ≡ keeper.old) (part_of part self.old).keeps
            (memory_of mem self.old) (memory_of mem self.new) (claims_of self.new) }
    {
        vb_guest::call(
            alloc,
            &mut self.driver,
            &mut self.device,
            keeper,
            &mut self.claims,
            call,
        )
    }

    /// Answers a question about the guest.
    pub fn query(&self, alloc: Global, query: &Query) -> Reply
        requires stands { HasGuest mem part self.now }
        ensures answer { SlotAnswers mem part self.now query.now result }
    {
        vb_guest::query(alloc, &self.driver, &self.device, query)
    }
}

impl Slot {
    ghost use Rattle.std.specs.Prelude.{◌≡◌, true, false, IfOk, IfErr, [], None, replicate};
    ghost use Rattle.vb_model.specs.Guest.{fresh};
    ghost use Rattle.vb_virtio.specs.Limits.{is_config};
    ghost use Rattle.vb_device.specs.Calls.{IsUnused, attached};
    ghost use Rattle.vb_driver.specs.State.{fresh_driver};
    ghost use Rattle.vb_slot.specs.Slots.{claims_of, driver_of, memory_of, part_of};

    /// A guest of this size as it is plugged in, on a device that no guest has yet, and of whose
    /// own frames, if it keeps such, none is out. Refused on an allocation failure alone.
    pub fn new(
        alloc: Global,
        device: Box<dyn Device + Send>,
        config: Config,
    ) -> Result<Slot, NoSlot>
        requires unused { IsUnused (mem device) (part device) }
        requires own { (part device).own ≡ [] }
        requires config { is_config config.pages config.queue_size config.processors ≡ true }
        ensures made { IfOk result
            (λ slot. stands_for (part device).keeps mem part slot
            (fresh (record {
              pages = config.pages;
              queue_size = config.queue_size;
              processors = config.processors;
              paced = (part device).paced;
            }) 0)) }
        ensures claimed { IfOk result (λ slot. claims_of slot ≡ []) }
        ensures driver { IfOk result (λ slot. driver_of slot
            ≡ fresh_driver config.pages config.queue_size config.processors) }
        ensures device { IfOk result (λ slot. (memory_of mem slot ≡ replicate config.pages None)
            × (part_of part slot ≡ attached config (part device))) }
        ensures refused { IfErr result
            (λ refused. (mem refused.device ≡ mem device) × (part refused.device ≡ part device)) }
    {
        let driver = match Driver::new(alloc, config) {
            Ok(driver) => driver,
            Err(_) => return Err(NoSlot { device }),
        };
        let mut device = BoxedDevice { device };
        match device.attach(alloc, config) {
            Ok(()) => Ok(Slot {
                device,
                driver,
                claims: Claims::new(),
            }),
            Err(_) => Err(NoSlot {
                device: device.device,
            }),
        }
    }
}

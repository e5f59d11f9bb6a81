//! The processors' calls on pages.

ghost use Rattle.std.specs.Prelude.{◌≡◌, [], false, true};
ghost use Rattle.vb_model.specs.Pages.{place_of, is_used};
ghost use Rattle.vb_driver.specs.Calls.{AllocatesBy, FreesBy};
ghost use Rattle.vb_guest.specs.Exact.{IsQuiet, PutsBy, ReadsBy};
ghost use Rattle.vb_guest.specs.Replies.{page_reply, done_reply, bytes_reply};
ghost use Rattle.vb_slot.specs.Slots.{supply_at, claims_of, memory_of, part_of, driver_of};
ghost use Rattle.vb_slot.specs.Slots.{IsUntouched, HasGuest, SlotSteps, SlotStepsAlone};

use crate::slot::{Slot, forget};
use std::alloc::Global;
use vb_frames::FrameKeeper;
use vb_model::{Bytes, Call};
use vb_virtio::Refusal;

impl Slot {
    /// A processor asks for a block of 2^order pages (Gorman, chapter 6); answers its first page,
    /// which is the one that the processor's list or the page areas give by their rule. Refused
    /// with `BadOrder`, `BadCpu` and `NoPages`, tested in this order.
    pub fn alloc(&mut self, cpu: u32, order: u32) -> Result<u32, Refusal>
        ensures step { SlotStepsAlone mem part self.old self.new (Call.Alloc cpu order)
            (page_reply result) }
        ensures claimed { claims_of self.new ≡ [] }
        ensures exact { AllocatesBy (driver_of self.old) (driver_of self.new) cpu order result }
        ensures device { IsUntouched mem part self.old self.new }
    {
        forget(&mut self.claims);
        vb_guest::alloc(&mut self.driver, cpu, order)
    }

    /// A processor gives a block back that an allocation answered (Gorman, chapter 6). Refused with
    /// `BadOrder`, `BadCpu` and `NotHeld`, tested in this order.
    pub fn free(&mut self, cpu: u32, start: u32, order: u32) -> Result<(), Refusal>
        ensures step { SlotStepsAlone mem part self.old self.new (Call.Free cpu start order)
            (done_reply result) }
        ensures claimed { claims_of self.new ≡ [] }
        ensures exact { FreesBy (driver_of self.old) (driver_of self.new) cpu start order result }
        ensures device { IsUntouched mem part self.old self.new }
    {
        forget(&mut self.claims);
        vb_guest::free(&mut self.driver, cpu, start, order)
    }

    /// Bytes of a page that an allocation holds. Refused with `NotHeld`, `OutOfRam` where they
    /// don't lie in a page, and `NoMemory` where there is none for them, tested in this order.
    pub fn read(
        &mut self,
        alloc: Global,
        page: u32,
        offset: u32,
        len: u32,
    ) -> Result<Bytes, Refusal>
        requires { HasGuest mem part self.old }
        ensures step { SlotStepsAlone mem part self.old self.new (Call.Read page offset len)
            (bytes_reply result) }
        ensures claimed { claims_of self.new ≡ [] }
        ensures exact { ReadsBy (memory_of mem self.old) (driver_of self.old).places
            page offset len result }
        ensures driver { driver_of self.new ≡ driver_of self.old }
        ensures device { IsUntouched mem part self.old self.new }
    {
        forget(&mut self.claims);
        vb_guest::read(alloc, &self.driver, &self.device, page, offset, len)
    }

    /// Writes bytes of a page that an allocation holds, which gets a frame if it has none. Refused
    /// with `NotHeld`, `OutOfRam`, and `NoFrame` or `NoMemory` where a frame is wanting, tested in
    /// this order.
    pub fn write<K: FrameKeeper>(
        &mut self,
        keeper: &mut K,
        page: u32,
        offset: u32,
        bytes: &Bytes,
    ) -> Result<(), Refusal>
        requires { HasGuest mem part self.old }
        ensures step { SlotSteps K.answers mem part self.old (K.out keeper.old) self.new
            (K.out keeper.new) (Call.Write page offset bytes.now) (done_reply result) }
        ensures refused { is_used (place_of (driver_of self.old).places page) ≡ false
            → (result ≡ Err Refusal.NotHeld)
            × IsQuiet (supply_at part self.old (K.out keeper.old))
            (supply_at part self.new (K.out keeper.new))
            (memory_of mem self.old) (memory_of mem self.new)
            (part_of part self.old) (part_of part self.new) (claims_of self.new) }
        ensures exact { is_used (place_of (driver_of self.old).places page) ≡ true
            → PutsBy K.answers (supply_at part self.old (K.out keeper.old))
            (supply_at part self.new (K.out keeper.new))
            (memory_of mem self.old) (memory_of mem self.new)
            (part_of part self.old) (part_of part self.new) (claims_of self.new)
            page offset bytes.now result }
        ensures driver { driver_of self.new ≡ driver_of self.old }
        ensures quiet { claims_of self.new ≡ [] → keeper.new ≡ keeper.old }
        ensures unasked { (part_of part self.old).keeps ≡ true → keeper.new ≡ keeper.old }
    {
        vb_guest::write(
            &self.driver,
            &mut self.device,
            keeper,
            &mut self.claims,
            page,
            offset,
            bytes,
        )
    }

    /// Writes bytes of any page past the driver (profile), which gets a frame if it has none. From
    /// then on, up to its next life, nothing is said of what the guest's rings, requests and pages
    /// hold. Refused with `OutOfRam`, and `NoFrame` or `NoMemory` where a frame is wanting, tested
    /// in this order.
    pub fn scribble<K: FrameKeeper>(
        &mut self,
        keeper: &mut K,
        page: u32,
        offset: u32,
        bytes: &Bytes,
    ) -> Result<(), Refusal>
        requires { HasGuest mem part self.old }
        ensures step { SlotSteps K.answers mem part self.old (K.out keeper.old) self.new
            (K.out keeper.new) (Call.Scribble page offset bytes.now) (done_reply result) }
        ensures exact { PutsBy K.answers (supply_at part self.old (K.out keeper.old))
            (supply_at part self.new (K.out keeper.new))
            (memory_of mem self.old) (memory_of mem self.new)
            (part_of part self.old) (part_of part self.new) (claims_of self.new)
            page offset bytes.now result }
        ensures driver { driver_of self.new ≡ driver_of self.old }
        ensures quiet { claims_of self.new ≡ [] → keeper.new ≡ keeper.old }
        ensures unasked { (part_of part self.old).keeps ≡ true → keeper.new ≡ keeper.old }
    {
        vb_guest::scribble(
            &mut self.device,
            keeper,
            &mut self.claims,
            page,
            offset,
            bytes,
        )
    }
}

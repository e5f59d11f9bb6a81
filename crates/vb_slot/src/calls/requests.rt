//! The driver's calls: its lives with a device, requests, reports and statistics.

ghost use Rattle.std.specs.Prelude.{◌≡◌, [], true};
ghost use Rattle.vb_model.specs.declared.replies.Reply.TheVariants.{Done};
ghost use Rattle.vb_driver.specs.Calls.{InflatesBy, DeflatesBy, DeflatesOnOomBy, ReportsBy};
ghost use Rattle.vb_driver.specs.Calls.{FillsBy, ReapsBy, ResetsBy};
ghost use Rattle.vb_guest.specs.Exact.{InitialisesBy};
ghost use Rattle.vb_guest.specs.Replies.{ready_reply, posted_reply, reaped_reply, filled_reply};
ghost use Rattle.vb_slot.specs.Slots.{supply_at, claims_of, memory_of, part_of, driver_of};
ghost use Rattle.vb_slot.specs.Slots.{HasGuest, SlotSteps, SlotStepsAlone};

use crate::slot::{Slot, forget};
use vb_driver::{Posted, Reaped};
use vb_frames::FrameKeeper;
use vb_model::Call;
use vb_virtio::Refusal;

impl Slot {
    /// The driver initialises the device with these features (VIRTIO 1.1, 3.1.1). Refused with
    /// `AlreadyUp`, `NoFrame` or `NoMemory` where a page of rings and buffers gets no frame, then
    /// `FeatureNotOffered` and `VersionMissing`.
    pub fn init<K: FrameKeeper>(&mut self, keeper: &mut K, wanted: u64) -> Result<(), Refusal>
        requires { HasGuest mem part self.old }
        ensures step { SlotSteps K.answers mem part self.old (K.out keeper.old) self.new
            (K.out keeper.new) (Call.Init wanted) (ready_reply result) }
        ensures exact { InitialisesBy K.answers (supply_at part self.old (K.out keeper.old))
            (K.out keeper.new) (memory_of mem self.old) (memory_of mem self.new)
            (part_of part self.old) (part_of part self.new)
            (driver_of self.old) (driver_of self.new)
            (claims_of self.new) wanted result }
        ensures quiet { claims_of self.new ≡ [] → keeper.new ≡ keeper.old }
        ensures unasked { (part_of part self.old).keeps ≡ true → keeper.new ≡ keeper.old }
    {
        vb_guest::init(
            &mut self.driver,
            &mut self.device,
            keeper,
            &mut self.claims,
            wanted,
        )
    }

    /// The driver resets the device (VIRTIO 1.1, 2.1).
    pub fn reset(&mut self)
        ensures step { SlotStepsAlone mem part self.old self.new (Call.Reset) Done }
        ensures claimed { claims_of self.new ≡ [] }
        ensures exact { ResetsBy (memory_of mem self.old) (memory_of mem self.new)
            (part_of part self.old) (part_of part self.new)
            (driver_of self.old) (driver_of self.new) }
    {
        forget(&mut self.claims);
        vb_guest::reset(&mut self.driver, &mut self.device);
    }

    /// The driver offers up to this many pages to the host (VIRTIO 1.1, 5.5.6). Refused with
    /// `NotReady`, `QueueFull`, without MUST_TELL_HOST `DeflatePending` while a deflate request is
    /// out, and `Nothing`, tested in this order.
    pub fn inflate(&mut self, pages: u32) -> Result<Posted, Refusal>
        requires { HasGuest mem part self.old }
        ensures step { SlotStepsAlone mem part self.old self.new (Call.Inflate pages)
            (posted_reply result) }
        ensures claimed { claims_of self.new ≡ [] }
        ensures exact { InflatesBy (memory_of mem self.old) (memory_of mem self.new)
            (part_of part self.old) (part_of part self.new)
            (driver_of self.old) (driver_of self.new) pages result }
    {
        forget(&mut self.claims);
        vb_guest::inflate(&mut self.driver, &mut self.device, pages)
    }

    /// The driver asks for up to this many pages back, as far as the target allows (VIRTIO 1.1,
    /// 5.5.6). Refused with `NotReady`, `QueueFull` and `Nothing`, tested in this order.
    pub fn deflate(&mut self, pages: u32) -> Result<Posted, Refusal>
        requires { HasGuest mem part self.old }
        ensures step { SlotStepsAlone mem part self.old self.new (Call.Deflate pages)
            (posted_reply result) }
        ensures claimed { claims_of self.new ≡ [] }
        ensures exact { DeflatesBy (memory_of mem self.old) (memory_of mem self.new)
            (part_of part self.old) (part_of part self.new)
            (driver_of self.old) (driver_of self.new) pages result }
    {
        forget(&mut self.claims);
        vb_guest::deflate(&mut self.driver, &mut self.device, pages)
    }

    /// The driver asks for up to this many pages back, whatever the target (VIRTIO 1.1, 5.5.6, with
    /// DEFLATE_ON_OOM). Refused with `NotReady`, `NoFeature`, `QueueFull` and `Nothing`, tested in
    /// this order.
    pub fn oom(&mut self, pages: u32) -> Result<Posted, Refusal>
        requires { HasGuest mem part self.old }
        ensures step { SlotStepsAlone mem part self.old self.new (Call.Oom pages)
            (posted_reply result) }
        ensures claimed { claims_of self.new ≡ [] }
        ensures exact { DeflatesOnOomBy (memory_of mem self.old) (memory_of mem self.new)
            (part_of part self.old) (part_of part self.new)
            (driver_of self.old) (driver_of self.new) pages result }
    {
        forget(&mut self.claims);
        vb_guest::oom(&mut self.driver, &mut self.device, pages)
    }

    /// The driver offers the first free blocks of order 4 or more that start at or after this page,
    /// at most min(Q, 16), in one report of a queue of its own (profile). Refused with `NotReady`,
    /// `NoFeature` without REPORTING, `QueueFull` while a report is out, and `Nothing`, tested in
    /// this order.
    pub fn report(&mut self, from: u32) -> Result<Posted, Refusal>
        requires { HasGuest mem part self.old }
        ensures step { SlotStepsAlone mem part self.old self.new (Call.Report from)
            (posted_reply result) }
        ensures claimed { claims_of self.new ≡ [] }
        ensures exact { ReportsBy (memory_of mem self.old) (memory_of mem self.new)
            (part_of part self.old) (part_of part self.new)
            (driver_of self.old) (driver_of self.new) from result }
    {
        forget(&mut self.claims);
        vb_guest::report(&mut self.driver, &mut self.device, from)
    }

    /// The driver fills the statistics buffer anew and makes it available, where the device has
    /// used it (VIRTIO 1.1, 5.5.6.3); answers whether it did. Refused with `NotReady`, without
    /// STATS_VQ `NoFeature`, and `RingBroken` where the used ring of a rogue guest says what no
    /// device says, tested in this order: the driver gives up then, by FAILED in the status.
    pub fn stats(&mut self) -> Result<bool, Refusal>
        requires { HasGuest mem part self.old }
        ensures step { SlotStepsAlone mem part self.old self.new (Call.Stats)
            (filled_reply result) }
        ensures claimed { claims_of self.new ≡ [] }
        ensures exact { FillsBy (memory_of mem self.old) (memory_of mem self.new)
            (part_of part self.old) (part_of part self.new)
            (driver_of self.old) (driver_of self.new) result }
    {
        forget(&mut self.claims);
        vb_guest::stats(&mut self.driver, &mut self.device)
    }

    /// The driver takes the next used request of a queue (VIRTIO 1.1, 2.6.14), 0 and 1, or 4 for a
    /// report; answers none where none is new. Refused with `NoQueue`, `NotReady`, of queue 4
    /// without REPORTING `NoFeature`, and `RingBroken` where the used ring of a rogue guest says
    /// what no device says, tested in this order: the driver gives up then, by FAILED in the
    /// status.
    pub fn reap(&mut self, queue: u32) -> Result<Option<Reaped>, Refusal>
        requires { HasGuest mem part self.old }
        ensures step { SlotStepsAlone mem part self.old self.new (Call.Reap queue)
            (reaped_reply result) }
        ensures claimed { claims_of self.new ≡ [] }
        ensures exact { ReapsBy (memory_of mem self.old) (memory_of mem self.new)
            (part_of part self.old) (part_of part self.new)
            (driver_of self.old) (driver_of self.new) queue result }
    {
        forget(&mut self.claims);
        vb_guest::reap(&mut self.driver, &mut self.device, queue)
    }
}

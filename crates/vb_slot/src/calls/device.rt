//! The device's calls and the host's.

ghost use Rattle.std.specs.Prelude.{◌≡◌, Bool, [], true};
ghost use Rattle.vb_model.specs.declared.replies.Reply.TheVariants.{Done};
ghost use Rattle.vb_model.specs.Guest.{Guest};
ghost use Rattle.vb_device.specs.Calls.{TakesBy, WorksBy, FinishesBy, SweepsBy, AsksBy};
ghost use Rattle.vb_guest.specs.Exact.{IsHandedBack, KeepsFrames};
ghost use Rattle.vb_guest.specs.Replies.{taken_reply, finished_reply, worked_reply, swept_reply};
ghost use Rattle.vb_guest.specs.Replies.{asked_reply, served_reply};
ghost use Rattle.vb_guest.specs.Serving.{ServesAllBy};
ghost use Rattle.vb_slot.specs.Slots.{stands_for, claims_of, memory_of, part_of, driver_of};
ghost use Rattle.vb_slot.specs.Slots.{HasGuest, HasGuestOut, SlotSteps, SlotStepsAlone};

use crate::slot::{Slot, forget};
use vb_device::Worked;
use vb_frames::FrameKeeper;
use vb_guest::Served;
use vb_model::Call;
use vb_virtio::Refusal;

impl Slot {
    /// The device takes the next chain of a queue (VIRTIO 1.1, 2.6): a request (0 and 1), the
    /// buffer of statistics (2), which it reads, or a report (4). Answers its head, or none where
    /// no chain is available. Refused with `NoQueue`, `NotReady`, `NeedsReset`, `NoQueue` where the
    /// queue's feature wasn't accepted, and `Busy` where 16 chains of the queue, or one of queue 2,
    /// are taken, tested in this order; then with `Broken` where the bytes that a rogue guest wrote
    /// break a rule: the device needs a reset then.
    pub fn take(&mut self, queue: u32) -> Result<Option<u16>, Refusal>
        ensures step { SlotStepsAlone mem part self.old self.new (Call.Take queue)
            (taken_reply result) }
        ensures claimed { claims_of self.new ≡ [] }
        ensures exact { TakesBy queue (memory_of mem self.old) (memory_of mem self.new)
            (part_of part self.old) (part_of part self.new) result }
        ensures driver { driver_of self.new ≡ driver_of self.old }
    {
        forget(&mut self.claims);
        vb_guest::take(&mut self.device, queue)
    }

    /// A paced device visits one more page of the requests that it took, the oldest inflate first
    /// and reports after the inflates, and takes its frame away, if it has one. Answers the page
    /// and whether it had a frame; none where no page is left to visit, and always where the device
    /// is immediate. Refused with `NotReady` and `NeedsReset`, tested in this order.
    pub fn work<K: FrameKeeper>(&mut self, keeper: &mut K) -> Result<Option<Worked>, Refusal>
        requires { HasGuestOut mem part self.old (K.out keeper.old) }
        ensures step { SlotSteps K.answers mem part self.old (K.out keeper.old) self.new
            (K.out keeper.new) (Call.Work) (worked_reply result) }
        ensures exact { IsHandedBack
            (λ after. WorksBy (memory_of mem self.old) (memory_of mem self.new)
            (part_of part self.old) after result) (part_of part self.new) }
        ensures driver { driver_of self.new ≡ driver_of self.old }
        ensures quiet { KeepsFrames (memory_of mem self.old) (memory_of mem self.new)
            → keeper.new ≡ keeper.old }
        ensures unasked { (part_of part self.old).keeps ≡ true → keeper.new ≡ keeper.old }
    {
        forget(&mut self.claims);
        vb_guest::work(&mut self.device, keeper)
    }

    /// The device uses the taken chain of this number, from 0, of requests (queue 0 or 1) or
    /// reports (4); answers its head. Refused with `NoQueue`, `NotReady`, `NeedsReset`, `NotTaken`
    /// and `NotWorked`, tested in this order.
    pub fn finish<K: FrameKeeper>(
        &mut self,
        keeper: &mut K,
        queue: u32,
        index: u32,
    ) -> Result<u16, Refusal>
        requires { HasGuestOut mem part self.old (K.out keeper.old) }
        ensures step { SlotSteps K.answers mem part self.old (K.out keeper.old) self.new
            (K.out keeper.new) (Call.Finish queue index) (finished_reply result) }
        ensures exact { IsHandedBack
            (λ after. FinishesBy queue index (memory_of mem self.old) (memory_of mem self.new)
            (part_of part self.old) after result) (part_of part self.new) }
        ensures driver { driver_of self.new ≡ driver_of self.old }
        ensures quiet { KeepsFrames (memory_of mem self.old) (memory_of mem self.new)
            → keeper.new ≡ keeper.old }
        ensures unasked { (part_of part self.old).keeps ≡ true → keeper.new ≡ keeper.old }
    {
        forget(&mut self.claims);
        vb_guest::finish(&mut self.device, keeper, queue, index)
    }

    /// The device serves a queue: each chain that is available is taken, its pages are visited, and
    /// it is used before the next one; of the queue of statistics (2) the buffer alone is taken,
    /// and stays taken until `ask`. Answers how many chains were served, and which rule the next
    /// one breaks, if it breaks one: the device needs a reset then. Refused with `NoQueue`,
    /// `NotReady`, `NeedsReset`, `NoQueue` where the queue's feature wasn't accepted, and `Busy`
    /// where any chain of the queue is taken, tested in this order.
    pub fn serve<K: FrameKeeper>(&mut self, keeper: &mut K, queue: u32) -> Result<Served, Refusal>
        requires { HasGuestOut mem part self.old (K.out keeper.old) }
        ensures step { SlotSteps K.answers mem part self.old (K.out keeper.old) self.new
            (K.out keeper.new) (Call.Serve queue) (served_reply result) }
        ensures exact { ServesAllBy queue (memory_of mem self.old) (memory_of mem self.new)
            (part_of part self.old) (part_of part self.new) result }
        ensures driver { driver_of self.new ≡ driver_of self.old }
        ensures quiet { KeepsFrames (memory_of mem self.old) (memory_of mem self.new)
            → keeper.new ≡ keeper.old }
        ensures unasked { (part_of part self.old).keeps ≡ true → keeper.new ≡ keeper.old }
    {
        forget(&mut self.claims);
        vb_guest::serve(&mut self.device, keeper, queue)
    }

    /// The host discards what it still has of a ballooned page; answers whether it had a frame.
    /// Refused with `NotReady`, `NeedsReset`, `NoFeature` without MUST_TELL_HOST, and
    /// `NotBallooned`, tested in this order.
    pub fn sweep<K: FrameKeeper>(&mut self, keeper: &mut K, page: u32) -> Result<bool, Refusal>
        requires { HasGuestOut mem part self.old (K.out keeper.old) }
        ensures step { SlotSteps K.answers mem part self.old (K.out keeper.old) self.new
            (K.out keeper.new) (Call.Sweep page) (swept_reply result) }
        ensures exact { IsHandedBack
            (λ after. SweepsBy page (memory_of mem self.old) (memory_of mem self.new)
            (part_of part self.old) after result) (part_of part self.new) }
        ensures driver { driver_of self.new ≡ driver_of self.old }
        ensures quiet { KeepsFrames (memory_of mem self.old) (memory_of mem self.new)
            → keeper.new ≡ keeper.old }
        ensures unasked { (part_of part self.old).keeps ≡ true → keeper.new ≡ keeper.old }
    {
        forget(&mut self.claims);
        vb_guest::sweep(&mut self.device, keeper, page)
    }

    /// The device asks for statistics: it uses the buffer of them that it took, so that the driver
    /// fills it anew (VIRTIO 1.1, 5.5.6.3). Refused with `NotReady`, `NeedsReset`, and `NotTaken`
    /// where none is taken, tested in this order.
    pub fn ask(&mut self) -> Result<(), Refusal>
        requires { HasGuest mem part self.old }
        ensures step { SlotStepsAlone mem part self.old self.new (Call.Ask) (asked_reply result) }
        ensures claimed { claims_of self.new ≡ [] }
        ensures exact { AsksBy (memory_of mem self.old) (memory_of mem self.new)
            (part_of part self.old) (part_of part self.new) result }
        ensures driver { driver_of self.new ≡ driver_of self.old }
    {
        forget(&mut self.claims);
        vb_guest::ask(&mut self.device)
    }

    /// The host sets how many pages it wants (`num_pages`, VIRTIO 1.1, 5.5.4).
    pub fn set_target(&mut self, pages: u32)
        ensures aims { (keeps : Bool) (g : Guest) → stands_for keeps mem part self.old g
            → stands_for keeps mem part self.new (record g { target = pages }) }
        ensures step { SlotStepsAlone mem part self.old self.new (Call.SetTarget pages) Done }
        ensures claimed { claims_of self.new ≡ [] }
        ensures part { part_of part self.new ≡ record (part_of part self.old) { target = pages } }
        ensures mem { memory_of mem self.new ≡ memory_of mem self.old }
        ensures driver { driver_of self.new ≡ driver_of self.old }
    {
        forget(&mut self.claims);
        vb_guest::set_target(&mut self.device, pages);
    }
}

//! What the host does to a guest's device.

ghost use Rattle.std.specs.Prelude.{◌≡◌, Bool, true, []};
ghost use Rattle.vb_model.specs.declared.replies.Reply.TheVariants.{Done};
ghost use Rattle.vb_model.specs.Guest.{Guest};
ghost use Rattle.vb_driver.specs.State.{DriverState};
ghost use Rattle.vb_device.specs.Calls.{TakesBy, WorksBy, FinishesBy, SweepsBy, AsksBy};
ghost use Rattle.vb_guest.specs.Exact.{IsHandedBack, KeepsFrames};
ghost use Rattle.vb_guest.specs.Promises.{EachSteps, EachStepsAlone, SomeGuest, SomeGuestOut};
ghost use Rattle.vb_guest.specs.Promises.{moment};
ghost use Rattle.vb_guest.specs.Replies.{taken_reply, worked_reply, finished_reply, swept_reply};
ghost use Rattle.vb_guest.specs.Replies.{asked_reply};
ghost use Rattle.vb_guest.specs.Stands.{Stands};

use crate::frames::return_loose;
use vb_device::{Device, Worked};
use vb_frames::FrameKeeper;
use vb_model::Call;
use vb_virtio::Refusal;

/// The device takes the next chain of a queue (VIRTIO 1.1, 2.6); answers its head, or none where no
/// chain is available. Of a statistics buffer it reads what it says. Refused with `NoQueue`,
/// `NotReady`, `NeedsReset`, `NoQueue` where the queue's feature wasn't accepted, and `Busy`,
/// tested in this order; then with `Broken` where the bytes that a rogue guest wrote break a rule:
/// the device needs a reset then.
pub fn take<D: Device>(device: &mut D, queue: u32) -> Result<Option<u16>, Refusal>
    ensures step { (d : DriverState) → EachStepsAlone (D.mem device.old) (D.mem device.new)
        (D.part device.old) (D.part device.new) d d (Call.Take queue)
        (taken_reply result) }
    ensures exact { TakesBy queue (D.mem device.old) (D.mem device.new)
        (D.part device.old) (D.part device.new) result }
{
    device.take(queue)
}

/// A paced device visits one more page of the requests that it took, the oldest first, and takes
/// the page's frame away, if it has one; the frame goes back to where it came from. Answers the
/// page and whether it had a frame; none where no page is left, and always where the device is
/// immediate. Refused with `NotReady` and `NeedsReset`, tested in this order.
pub fn work<D: Device, K: FrameKeeper>(
    device: &mut D,
    keeper: &mut K,
) -> Result<Option<Worked>, Refusal>
    requires { (d : DriverState) × SomeGuestOut (D.mem device.old) (D.part device.old) d
        (K.out keeper.old) }
    ensures step { (d : DriverState) → EachSteps K.answers
        (moment (D.mem device.old) (D.part device.old) d (K.out keeper.old))
        (moment (D.mem device.new) (D.part device.new) d (K.out keeper.new)) [] Call.Work
        (worked_reply result) }
    ensures exact { IsHandedBack (λ part. WorksBy (D.mem device.old) (D.mem device.new)
        (D.part device.old) part result) (D.part device.new) }
    ensures quiet { KeepsFrames (D.mem device.old) (D.mem device.new) → keeper.new ≡ keeper.old }
    ensures unasked { (D.part device.old).keeps ≡ true → keeper.new ≡ keeper.old }
{
    let answer = device.work();
    return_loose(device, keeper);
    answer
}

/// The device uses the taken chain of this number, from 0, on a queue; answers its head. Frames
/// that its pages lose go back to where they came from. Refused with `NoQueue`, `NotReady`,
/// `NeedsReset`, `NotTaken` and, where a paced device hasn't visited all pages, `NotWorked`, tested
/// in this order.
pub fn finish<D: Device, K: FrameKeeper>(
    device: &mut D,
    keeper: &mut K,
    queue: u32,
    index: u32,
) -> Result<u16, Refusal>
    requires { (d : DriverState) × SomeGuestOut (D.mem device.old) (D.part device.old) d
        (K.out keeper.old) }
    ensures step { (d : DriverState) → EachSteps K.answers
        (moment (D.mem device.old) (D.part device.old) d (K.out keeper.old))
        (moment (D.mem device.new) (D.part device.new) d (K.out keeper.new)) []
        (Call.Finish queue index) (finished_reply result) }
    ensures exact { IsHandedBack
        (λ part. FinishesBy queue index (D.mem device.old) (D.mem device.new)
        (D.part device.old) part result) (D.part device.new) }
    ensures quiet { KeepsFrames (D.mem device.old) (D.mem device.new) → keeper.new ≡ keeper.old }
    ensures unasked { (D.part device.old).keeps ≡ true → keeper.new ≡ keeper.old }
{
    let answer = device.finish(queue, index);
    return_loose(device, keeper);
    answer
}

/// The host discards what it still has of a ballooned page; answers whether it had a frame, which
/// goes back to where it came from. Refused with `NotReady`, `NeedsReset`, `NoFeature` without
/// MUST_TELL_HOST, and `NotBallooned`, tested in this order.
pub fn sweep<D: Device, K: FrameKeeper>(
    device: &mut D,
    keeper: &mut K,
    page: u32,
) -> Result<bool, Refusal>
    requires { (d : DriverState) × SomeGuestOut (D.mem device.old) (D.part device.old) d
        (K.out keeper.old) }
    ensures step { (d : DriverState) → EachSteps K.answers
        (moment (D.mem device.old) (D.part device.old) d (K.out keeper.old))
        (moment (D.mem device.new) (D.part device.new) d (K.out keeper.new)) [] (Call.Sweep page)
        (swept_reply result) }
    ensures exact { IsHandedBack (λ part. SweepsBy page (D.mem device.old) (D.mem device.new)
        (D.part device.old) part result) (D.part device.new) }
    ensures quiet { KeepsFrames (D.mem device.old) (D.mem device.new) → keeper.new ≡ keeper.old }
    ensures unasked { (D.part device.old).keeps ≡ true → keeper.new ≡ keeper.old }
{
    let answer = device.sweep(page);
    return_loose(device, keeper);
    answer
}

/// The device gives the statistics buffer that it took back to the driver, which is to fill it anew
/// (VIRTIO 1.1, 5.5.6.3). Refused with `NotReady`, `NeedsReset` and `NotTaken`, tested in this
/// order.
pub fn ask<D: Device>(device: &mut D) -> Result<(), Refusal>
    requires { (d : DriverState) × SomeGuest (D.mem device.old) (D.part device.old) d }
    ensures step { (d : DriverState) → EachStepsAlone (D.mem device.old) (D.mem device.new)
        (D.part device.old) (D.part device.new) d d Call.Ask
        (asked_reply result) }
    ensures exact { AsksBy (D.mem device.old) (D.mem device.new)
        (D.part device.old) (D.part device.new) result }
{
    device.ask_stats()
}

/// The host sets how many pages it wants (`num_pages`, VIRTIO 1.1, 5.5.4).
pub fn set_target<D: Device>(device: &mut D, pages: u32)
    ensures aims { (keeps : Bool) (d : DriverState) (g : Guest)
        → Stands keeps (D.mem device.old) (D.part device.old) d g
        → Stands keeps (D.mem device.new) (D.part device.new) d (record g { target = pages }) }
    ensures step { (d : DriverState) → EachStepsAlone (D.mem device.old) (D.mem device.new)
        (D.part device.old) (D.part device.new) d d (Call.SetTarget pages) Done }
    ensures part { D.part device.new ≡ record (D.part device.old) { target = pages } }
    ensures mem { D.mem device.new ≡ D.mem device.old }
{
    device.set_target(pages);
}

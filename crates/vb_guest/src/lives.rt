//! A guest's device starts, and starts over (VIRTIO 1.1, 2.1 and 3.1.1).

ghost use Rattle.std.specs.Prelude.{◌≡◌, ◌+◌, ◌≤◌, [], length, true, false, None, replicate};
ghost use Rattle.std.specs.List.{range_with_len};
ghost use Rattle.vb_model.specs.declared.replies.Reply.TheVariants.{Done};
ghost use Rattle.vb_virtio.specs.Tests.{times};
ghost use Rattle.vb_driver.specs.Calls.{ResetsBy};
ghost use Rattle.vb_driver.specs.State.{DriverState, fresh_driver};
ghost use Rattle.vb_device.specs.Discards.{frames_behind};
ghost use Rattle.vb_guest.specs.declared.frames.TheConstants.{MAX_CLAIMS};
ghost use Rattle.vb_guest.specs.Exact.{InitialisesBy, IsReset, KeepsFrames};
ghost use Rattle.vb_guest.specs.Lives.{is_bare, bare_from, SuppliesBy};
ghost use Rattle.vb_guest.specs.Promises.{EachRestarts, EachSteps, EachStepsAlone, OfEach};
ghost use Rattle.vb_guest.specs.Promises.{SomeGuest, SomeGuestOut, moment};
ghost use Rattle.vb_guest.specs.Replies.{ready_reply};
ghost use Rattle.vb_guest.specs.Steps.{AllReturn, IsBare};
ghost use Rattle.vb_guest.specs.Supply.{supply_of, AreLoose, Moves, nothing};

use crate::frames::{Claims, claim_frame, return_frame, return_loose};
use crate::memory::supply;
use bitflags::Flags;
use vb_device::Device;
use vb_driver::Driver;
use vb_frames::{FrameKeeper, Refused};
use vb_model::Call;
use vb_ram::Shape;
use vb_status::{Features, Port};
use vb_virtio::Refusal;

/// Whether a page is one of rings and buffers, and has no frame.
fn is_bare<D: Device>(device: &D, shape: Shape, page: u32) -> bool
    ensures { result ≡ is_bare shape.queue_size (D.mem device.now) page }
{
    shape.is_start_page(page) && device.backing(page).is_none()
}

/// Backs with new frames those pages of rings and buffers, from this one on, that have none. All
/// are claimed first: where a claim is refused, those that were given go back, and no page has one.
fn supply_from<D: Device, K: FrameKeeper>(
    device: &mut D,
    keeper: &mut K,
    claims: &mut Claims,
    shape: Shape,
    page: u32,
) -> Result<(), Refused>
    requires none { (D.part device.old).keeps ≡ false → (D.part device.old).own ≡ [] }
    requires memory { 64 ≤ length (D.mem device.old) }
    requires room { length claims.old.items
        + length (bare_from shape.queue_size (D.mem device.old) page) ≤ MAX_CLAIMS }
    ensures supplies { SuppliesBy K.answers (supply_of (D.part device.old) (K.out keeper.old))
        (supply_of (D.part device.new) (K.out keeper.new)) claims.old.items claims.new.items
        (bare_from shape.queue_size (D.mem device.old) page)
        (D.mem device.old) (D.mem device.new) result }
    ensures part { D.part device.new ≡
        record (D.part device.old) { own = (D.part device.new).own } }
    ensures quiet { claims.new.items ≡ claims.old.items → keeper.new ≡ keeper.old }
    ensures unasked { (D.part device.old).keeps ≡ true → keeper.new ≡ keeper.old }
{
    if page >= shape.reserved_pages() {
        return Ok(());
    }
    if !is_bare(device, shape, page) {
        return supply_from(device, keeper, claims, shape, page + 1);
    }
    let frame = claim_frame(device, keeper, claims)?;
    match supply_from(device, keeper, claims, shape, page + 1) {
        Ok(()) => {
            supply(device, page, frame);
            Ok(())
        }
        Err(refused) => {
            return_frame(device, keeper, frame);
            Err(refused)
        }
    }
}

/// The driver initialises the device with these features, once the pages of its rings and buffers
/// have frames; they keep them where the features are refused. Notes what the claims were answered.
/// Refused with `AlreadyUp`, then `NoFrame` or `NoMemory` where a frame is wanting, in which case
/// no page keeps one, then `FeatureNotOffered` and `VersionMissing`.
pub fn init<D: Device, K: FrameKeeper>(
    driver: &mut Driver,
    device: &mut D,
    keeper: &mut K,
    claims: &mut Claims,
    wanted: u64,
) -> Result<(), Refusal>
    requires { SomeGuest (D.mem device.old) (D.part device.old) driver.old }
    ensures step { EachSteps K.answers
        (moment (D.mem device.old) (D.part device.old) driver.old (K.out keeper.old))
        (moment (D.mem device.new) (D.part device.new) driver.new (K.out keeper.new))
        claims.new.items (Call.Init wanted) (ready_reply result) }
    ensures exact { InitialisesBy K.answers (supply_of (D.part device.old) (K.out keeper.old))
        (K.out keeper.new) (D.mem device.old) (D.mem device.new) (D.part device.old)
        (D.part device.new) driver.old driver.new claims.new.items wanted result }
    ensures quiet { claims.new.items ≡ [] → keeper.new ≡ keeper.old }
    ensures unasked { (D.part device.old).keeps ≡ true → keeper.new ≡ keeper.old }
{
    claims.clear();
    if device.status().bits() != 0 {
        return Err(Refusal::AlreadyUp);
    }
    match supply_from(device, keeper, claims, driver.shape(), 0) {
        Ok(()) => driver.init(device, Features::from_bits_retain(wanted)),
        Err(Refused::NoFrame) => Err(Refusal::NoFrame),
        Err(Refused::Memory) => Err(Refusal::NoMemory),
    }
}

/// The driver resets the device (VIRTIO 1.1, 2.1).
pub fn reset<D: Device>(driver: &mut Driver, device: &mut D)
    ensures step { EachStepsAlone (D.mem device.old) (D.mem device.new) (D.part device.old)
        (D.part device.new) driver.old driver.new Call.Reset Done }
    ensures exact { ResetsBy (D.mem device.old) (D.mem device.new)
        (D.part device.old) (D.part device.new) driver.old driver.new }
{
    driver.reset(device);
}

/// Resets the device, and gives the frames of all pages back.
fn take_all_back<D: Device, K: FrameKeeper>(device: &mut D, keeper: &mut K)
    requires none { (D.part device.old).keeps ≡ false → (D.part device.old).own ≡ [] }
    requires loose { (D.part device.old).loose ≡ [] }
    requires out { AreLoose
        (frames_behind (D.mem device.old) (range_with_len 0 (length (D.mem device.old))))
        (supply_of (D.part device.old) (K.out keeper.old)) }
    ensures mem { D.mem device.new ≡ replicate (length (D.mem device.old)) None }
    ensures part { IsReset (D.part device.old) (D.part device.new) }
    ensures moves { Moves (supply_of (D.part device.old) (K.out keeper.old))
        (supply_of (D.part device.new) (K.out keeper.new)) nothing
        (λ n. times n
        (frames_behind (D.mem device.old) (range_with_len 0 (length (D.mem device.old))))) }
    ensures quiet { KeepsFrames (D.mem device.old) (D.mem device.new) → keeper.new ≡ keeper.old }
    ensures unasked { (D.part device.old).keeps ≡ true → keeper.new ≡ keeper.old }
{
    device.detach();
    return_loose(device, keeper);
}

/// A new life of the guest begins (profile): the device is reset, every frame goes back to where it
/// came from, and all unreserved pages are free. The target stays.
pub fn restart<D: Device, K: FrameKeeper>(driver: &mut Driver, device: &mut D, keeper: &mut K)
    requires { SomeGuestOut (D.mem device.old) (D.part device.old) driver.old (K.out keeper.old) }
    ensures life { EachRestarts
        (moment (D.mem device.old) (D.part device.old) driver.old (K.out keeper.old))
        (moment (D.mem device.new) (D.part device.new) driver.new (K.out keeper.new)) }
    ensures mem { D.mem device.new ≡ replicate (length (D.mem device.old)) None }
    ensures part { IsReset (D.part device.old) (D.part device.new) }
    ensures driver { driver.new
        ≡ fresh_driver driver.old.pages driver.old.queue_size driver.old.processors }
    ensures quiet { KeepsFrames (D.mem device.old) (D.mem device.new) → keeper.new ≡ keeper.old }
    ensures unasked { (D.part device.old).keeps ≡ true → keeper.new ≡ keeper.old }
{
    driver.restart(device);
    take_all_back(device, keeper);
}

/// The guest's life ends: the device is reset, its target kept, and every frame goes back to where
/// it came from.
pub fn empty<D: Device, K: FrameKeeper>(device: &mut D, keeper: &mut K)
    requires { (d : DriverState) × SomeGuestOut (D.mem device.old) (D.part device.old) d
        (K.out keeper.old) }
    ensures bare { IsBare (D.mem device.new) (D.part device.new) }
    ensures mem { D.mem device.new ≡ replicate (length (D.mem device.old)) None }
    ensures part { IsReset (D.part device.old) (D.part device.new) }
    ensures returned { (d : DriverState) → OfEach (D.mem device.old) (D.part device.old) d
        (λ g. AllReturn (supply_of (D.part device.old) (K.out keeper.old))
        (supply_of (D.part device.new) (K.out keeper.new)) g) }
    ensures quiet { KeepsFrames (D.mem device.old) (D.mem device.new) → keeper.new ≡ keeper.old }
    ensures unasked { (D.part device.old).keeps ≡ true → keeper.new ≡ keeper.old }
{
    take_all_back(device, keeper);
}

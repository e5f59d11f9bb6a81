//! Bytes of a guest's pages.

ghost use Rattle.std.specs.Prelude.{◌≡◌, ◌<◌, ◌+◌, None, true, false, []};
ghost use Rattle.std.specs.Prelude.{IfOk, IsSome, length, take, drop};
ghost use Rattle.vb_model.specs.Pages.{place_of, is_used};
ghost use Rattle.vb_ram.specs.Pages.{frame_at, contents_at, Covers, Wrote, Supplied};
ghost use Rattle.vb_driver.specs.State.{DriverState};
ghost use Rattle.vb_guest.specs.Exact.{FillsBare, IsQuiet, PutsBy, ReadsBy};
ghost use Rattle.vb_guest.specs.Promises.{EachSteps, EachStepsAlone, SomeGuest, moment};
ghost use Rattle.vb_guest.specs.Replies.{bytes_reply, done_reply};
ghost use Rattle.vb_guest.specs.Supply.{supply_of};

use crate::frames::{Claims, claim_frame};
use std::alloc::{AllocError, Global};
use vb_device::Device;
use vb_driver::Driver;
use vb_frames::{FrameKeeper, Refused};
use vb_model::{Bytes, Call};
use vb_ram::{Frame, PAGE_SIZE, RamFault};
use vb_virtio::Refusal;

/// Backs a page that has no frame.
pub(crate) fn supply<D: Device>(device: &mut D, page: u32, frame: Frame)
    requires inside { page < length (D.mem device.old) }
    requires bare { frame_at (D.mem device.old) page ≡ None }
    ensures supplied { Supplied (D.mem device.old) (D.mem device.new) page frame.number }
    ensures part { D.part device.new ≡ D.part device.old }
{
    match device.supply(page, frame) {
        Ok(()) => {}
        Err(_) => unreachable!(),
    }
}

/// Writes bytes within a page that has a frame.
fn overwrite<D: Device>(device: &mut D, page: u32, offset: u32, bytes: &Bytes)
    requires covers { Covers (D.mem device.old) page offset (length bytes.now) }
    requires backed { IsSome (frame_at (D.mem device.old) page) }
    ensures wrote { Wrote (D.mem device.old) (D.mem device.new) page offset bytes.now }
    ensures part { D.part device.new ≡ D.part device.old }
{
    match device.write(page, offset as usize, bytes.as_slice()) {
        Ok(()) => {}
        Err(_) => unreachable!(),
    }
}

/// Backs a page that has no frame, and then writes bytes of it.
fn put_fresh<D: Device, K: FrameKeeper>(
    device: &mut D,
    keeper: &mut K,
    claims: &mut Claims,
    page: u32,
    offset: u32,
    bytes: &Bytes,
) -> Result<(), Refusal>
    requires covers { Covers (D.mem device.old) page offset (length bytes.now) }
    requires some { 0 < length bytes.now }
    requires bare { frame_at (D.mem device.old) page ≡ None }
    requires none { claims.old.items ≡ [] }
    ensures exact { FillsBare K.answers (supply_of (D.part device.old) (K.out keeper.old))
        (supply_of (D.part device.new) (K.out keeper.new)) (D.mem device.old) (D.mem device.new)
        (D.part device.old) (D.part device.new) claims.new.items page offset bytes.now result }
    ensures unasked { (D.part device.old).keeps ≡ true → keeper.new ≡ keeper.old }
{
    let frame = match claim_frame(device, keeper, claims) {
        Ok(frame) => frame,
        Err(Refused::NoFrame) => return Err(Refusal::NoFrame),
        Err(Refused::Memory) => return Err(Refusal::NoMemory),
    };
    supply(device, page, frame);
    overwrite(device, page, offset, bytes);
    Ok(())
}

/// Writes bytes of a page, which gets a frame if it has none. Refused with `OutOfRam` where the
/// bytes don't lie in a page, and with `NoFrame` or `NoMemory` where a frame is wanting.
fn put_bytes<D: Device, K: FrameKeeper>(
    device: &mut D,
    keeper: &mut K,
    claims: &mut Claims,
    page: u32,
    offset: u32,
    bytes: &Bytes,
) -> Result<(), Refusal>
    requires stands { (d : DriverState) × SomeGuest (D.mem device.old) (D.part device.old) d }
    requires none { claims.old.items ≡ [] }
    ensures writes { (d : DriverState) → is_used (place_of d.places page) ≡ true → EachSteps
        K.answers (moment (D.mem device.old) (D.part device.old) d (K.out keeper.old))
        (moment (D.mem device.new) (D.part device.new) d (K.out keeper.new)) claims.new.items
        (Call.Write page offset bytes.now) (done_reply result) }
    ensures scribbles { (d : DriverState) → EachSteps K.answers
        (moment (D.mem device.old) (D.part device.old) d (K.out keeper.old))
        (moment (D.mem device.new) (D.part device.new) d (K.out keeper.new)) claims.new.items
        (Call.Scribble page offset bytes.now) (done_reply result) }
    ensures exact { PutsBy K.answers (supply_of (D.part device.old) (K.out keeper.old))
        (supply_of (D.part device.new) (K.out keeper.new)) (D.mem device.old) (D.mem device.new)
        (D.part device.old) (D.part device.new) claims.new.items page offset bytes.now result }
    ensures quiet { claims.new.items ≡ [] → keeper.new ≡ keeper.old }
    ensures unasked { (D.part device.old).keeps ≡ true → keeper.new ≡ keeper.old }
{
    match device.write(page, offset as usize, bytes.as_slice()) {
        Ok(()) => Ok(()),
        Err(RamFault::NeedsFrame) => put_fresh(device, keeper, claims, page, offset, bytes),
        Err(RamFault::OutOfRam) => Err(Refusal::OutOfRam),
        Err(RamFault::AlreadyBacked) => unreachable!(),
        Err(RamFault::Memory) => unreachable!(),
    }
}

/// Writes bytes of a page that an allocation holds, which gets a frame if it has none, and notes
/// what the claim of it was answered. Refused with `NotHeld` where the page isn't used, with
/// `OutOfRam` where the bytes don't lie in a page, and with `NoFrame` or `NoMemory` where a frame
/// is wanting, tested in this order; a refusal changes nothing.
pub fn write<D: Device, K: FrameKeeper>(
    driver: &Driver,
    device: &mut D,
    keeper: &mut K,
    claims: &mut Claims,
    page: u32,
    offset: u32,
    bytes: &Bytes,
) -> Result<(), Refusal>
    requires { SomeGuest (D.mem device.old) (D.part device.old) driver.now }
    ensures step { EachSteps K.answers
        (moment (D.mem device.old) (D.part device.old) driver.now (K.out keeper.old))
        (moment (D.mem device.new) (D.part device.new) driver.now (K.out keeper.new))
        claims.new.items (Call.Write page offset bytes.now) (done_reply result) }
    ensures refused { is_used (place_of driver.now.places page) ≡ false
        → (result ≡ Err Refusal.NotHeld)
        × IsQuiet (supply_of (D.part device.old) (K.out keeper.old))
        (supply_of (D.part device.new) (K.out keeper.new)) (D.mem device.old) (D.mem device.new)
        (D.part device.old) (D.part device.new) claims.new.items }
    ensures exact { is_used (place_of driver.now.places page) ≡ true
        → PutsBy K.answers (supply_of (D.part device.old) (K.out keeper.old))
        (supply_of (D.part device.new) (K.out keeper.new)) (D.mem device.old) (D.mem device.new)
        (D.part device.old) (D.part device.new) claims.new.items page offset bytes.now result }
    ensures quiet { claims.new.items ≡ [] → keeper.new ≡ keeper.old }
    ensures unasked { (D.part device.old).keeps ≡ true → keeper.new ≡ keeper.old }
{
    claims.clear();
    if !driver.held(page) {
        return Err(Refusal::NotHeld);
    }
    put_bytes(device, keeper, claims, page, offset, bytes)
}

/// Writes bytes of any page past the driver (profile), which gets a frame if it has none, and notes
/// what the claim of it was answered. From then on nothing is said any more of what the guest's
/// rings, requests and pages hold. Refused with `OutOfRam` where the bytes don't lie in a page, and
/// with `NoFrame` or `NoMemory` where a frame is wanting, tested in this order; a refusal changes
/// nothing.
pub fn scribble<D: Device, K: FrameKeeper>(
    device: &mut D,
    keeper: &mut K,
    claims: &mut Claims,
    page: u32,
    offset: u32,
    bytes: &Bytes,
) -> Result<(), Refusal>
    requires { (d : DriverState) × SomeGuest (D.mem device.old) (D.part device.old) d }
    ensures step { (d : DriverState) → EachSteps K.answers
        (moment (D.mem device.old) (D.part device.old) d (K.out keeper.old))
        (moment (D.mem device.new) (D.part device.new) d (K.out keeper.new)) claims.new.items
        (Call.Scribble page offset bytes.now) (done_reply result) }
    ensures exact { PutsBy K.answers (supply_of (D.part device.old) (K.out keeper.old))
        (supply_of (D.part device.new) (K.out keeper.new)) (D.mem device.old) (D.mem device.new)
        (D.part device.old) (D.part device.new) claims.new.items page offset bytes.now result }
    ensures quiet { claims.new.items ≡ [] → keeper.new ≡ keeper.old }
    ensures unasked { (D.part device.old).keeps ≡ true → keeper.new ≡ keeper.old }
{
    claims.clear();
    put_bytes(device, keeper, claims, page, offset, bytes)
}

/// Whether these bytes lie in a page of guest memory.
fn covers<D: Device>(device: &D, page: u32, offset: u32, len: u32) -> bool
    ensures inside { result ≡ true → Covers (D.mem device.now) page offset len }
    ensures outside { result ≡ false → Covers (D.mem device.now) page offset len → ⊥ }
{
    page < device.pages() && u64::from(offset) + u64::from(len) <= PAGE_SIZE as u64
}

/// These bytes of a page.
fn read_bytes<D: Device>(
    alloc: Global,
    device: &D,
    page: u32,
    offset: u32,
    len: u32,
) -> Result<Bytes, AllocError>
    requires { Covers (D.mem device.now) page offset len }
    ensures { IfOk result
        (λ bytes. bytes ≡ take len (drop offset (contents_at (D.mem device.now) page))) }
{
    // A no-op call: its clause tells the prover that each page has `PAGE_SIZE` bytes.
    let _frame = device.backing(page);
    let mut bytes = vec![in alloc; 0; len as usize]?;
    match device.read(page, offset as usize, &mut bytes) {
        Ok(()) => Ok(Bytes::new(bytes)),
        Err(_) => unreachable!(),
    }
}

/// Reads bytes of a page that an allocation holds. Refused with `NotHeld` where the page isn't
/// used, with `OutOfRam` where the bytes don't lie in a page, and with `NoMemory` where there is no
/// memory for them, tested in this order.
pub fn read<D: Device>(
    alloc: Global,
    driver: &Driver,
    device: &D,
    page: u32,
    offset: u32,
    len: u32,
) -> Result<Bytes, Refusal>
    requires { SomeGuest (D.mem device.now) (D.part device.now) driver.now }
    ensures step { EachStepsAlone (D.mem device.now) (D.mem device.now) (D.part device.now)
        (D.part device.now) driver.now driver.now (Call.Read page offset len) (bytes_reply result) }
    ensures exact { ReadsBy (D.mem device.now) driver.now.places page offset len result }
{
    if !driver.held(page) {
        return Err(Refusal::NotHeld);
    }
    if !covers(device, page, offset, len) {
        return Err(Refusal::OutOfRam);
    }
    match read_bytes(alloc, device, page, offset, len) {
        Ok(bytes) => Ok(bytes),
        Err(_) => Err(Refusal::NoMemory),
    }
}

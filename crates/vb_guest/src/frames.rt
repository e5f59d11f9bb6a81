//! A guest's frames come from its device, where that keeps frames of its own, else from the keeper,
//! and go back to where they came from.

ghost use Rattle.std.specs.Prelude.{◌≡◌, ◌<◌, ◌++◌, ◌∷◌, false, true, [], length, IfOk};
ghost use Rattle.vb_virtio.specs.Memory.{zero_page};
ghost use Rattle.vb_virtio.specs.Tests.{times};
ghost use Rattle.vb_frames.specs.Out.{claim_in};
ghost use Rattle.vb_guest.specs.Supply.{supply_of, is_used, IsClaimed, Moves, nothing, AreLoose};

use arrayvec::ArrayVec;
use vb_device::{Claimed, Device};
use vb_frames::{FrameKeeper, Refused};
use vb_model::Claim;
use vb_ram::Frame;

/// The most claims of a call: an initialisation makes one for each page of rings and buffers that
/// has no frame, of which there are 13, or 17 where each ring takes two pages; no other call makes
/// more than one.
pub const MAX_CLAIMS: usize = 17;

/// What the claims of a call were answered, in order.
pub type Claims = ArrayVec<Claim, { MAX_CLAIMS }>;

/// What a claim was answered.
fn claim_in(answer: &Result<Frame, Refused>) -> Claim
    ensures { result ≡ claim_in answer.now }
{
    match answer {
        Ok(frame) => Claim::Gave(frame.number()),
        Err(Refused::NoFrame) => Claim::GaveNoFrame,
        Err(Refused::Memory) => Claim::GaveNoMemory,
    }
}

/// Claims a frame of the device's own, if it keeps such, else one of the keeper's.
fn claim_from<D: Device, K: FrameKeeper>(device: &mut D, keeper: &mut K) -> Result<Frame, Refused>
    ensures mem { D.mem device.new ≡ D.mem device.old }
    ensures part { D.part device.new ≡
        record (D.part device.old) { own = (D.part device.new).own } }
    ensures claimed { IsClaimed K.answers (supply_of (D.part device.old) (K.out keeper.old))
        (supply_of (D.part device.new) (K.out keeper.new)) (claim_in result) }
    ensures answered { (D.part device.old).keeps ≡ true
        → D.answers device.old (claim_in result) ≡ true }
    ensures zeros { IfOk result (λ frame. frame.bytes ≡ zero_page) }
    ensures unasked { (D.part device.old).keeps ≡ true → keeper.new ≡ keeper.old }
{
    match device.claim() {
        Claimed::Gave(frame) => Ok(frame),
        Claimed::AskHost => keeper.claim(),
        Claimed::NoFrame => Err(Refused::NoFrame),
        Claimed::NoMemory => Err(Refused::Memory),
    }
}

/// Claims a frame, and notes what was answered.
pub(crate) fn claim_frame<D: Device, K: FrameKeeper>(
    device: &mut D,
    keeper: &mut K,
    claims: &mut Claims,
) -> Result<Frame, Refused>
    requires room { length claims.old.items < MAX_CLAIMS }
    ensures mem { D.mem device.new ≡ D.mem device.old }
    ensures part { D.part device.new ≡
        record (D.part device.old) { own = (D.part device.new).own } }
    ensures claimed { IsClaimed K.answers (supply_of (D.part device.old) (K.out keeper.old))
        (supply_of (D.part device.new) (K.out keeper.new)) (claim_in result) }
    ensures noted { claims.new.items ≡ claims.old.items ++ (claim_in result ∷ []) }
    ensures answered { (D.part device.old).keeps ≡ true
        → D.answers device.old (claim_in result) ≡ true }
    ensures zeros { IfOk result (λ frame. frame.bytes ≡ zero_page) }
    ensures unasked { (D.part device.old).keeps ≡ true → keeper.new ≡ keeper.old }
{
    let answer = claim_from(device, keeper);
    claims.push(claim_in(&answer));
    answer
}

/// Gives a frame that is out back.
pub(crate) fn return_frame<D: Device, K: FrameKeeper>(device: &mut D, keeper: &mut K, frame: Frame)
    requires none { (D.part device.old).keeps ≡ false → (D.part device.old).own ≡ [] }
    requires used { is_used (supply_of (D.part device.old) (K.out keeper.old)) frame.number ≡ true }
    ensures mem { D.mem device.new ≡ D.mem device.old }
    ensures part { D.part device.new ≡
        record (D.part device.old) { own = (D.part device.new).own } }
    ensures moves { Moves (supply_of (D.part device.old) (K.out keeper.old))
        (supply_of (D.part device.new) (K.out keeper.new)) nothing
        (λ n. times n (frame.number ∷ [])) }
    ensures unasked { (D.part device.old).keeps ≡ true → keeper.new ≡ keeper.old }
{
    if let Some(frame) = device.put_back(frame) {
        keeper.put_back(frame);
    }
}

/// Gives each loose frame of the device back.
pub(crate) fn return_loose<D: Device, K: FrameKeeper>(device: &mut D, keeper: &mut K)
    requires none { (D.part device.old).keeps ≡ false → (D.part device.old).own ≡ [] }
    requires loose { AreLoose (D.part device.old).loose
        (supply_of (D.part device.old) (K.out keeper.old)) }
    ensures mem { D.mem device.new ≡ D.mem device.old }
    ensures part { D.part device.new ≡
        record (D.part device.old) { loose = []; own = (D.part device.new).own } }
    ensures moves { Moves (supply_of (D.part device.old) (K.out keeper.old))
        (supply_of (D.part device.new) (K.out keeper.new)) nothing
        (λ n. times n (D.part device.old).loose) }
    ensures quiet { (D.part device.old).loose ≡ [] → keeper.new ≡ keeper.old }
    ensures unasked { (D.part device.old).keeps ≡ true → keeper.new ≡ keeper.old }
{
    while let Some(frame) = device.hand_back() {
        keeper.put_back(frame);
    }
}

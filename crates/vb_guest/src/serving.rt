//! The device serves a queue: chain after chain.

ghost use Rattle.std.specs.Prelude.{◌≡◌, ◌≤◌, ◌+◌, true, []};
ghost use Rattle.vb_virtio.specs.declared.limits.TheConstants.{MAX_QUEUE_SIZE};
ghost use Rattle.vb_driver.specs.State.{DriverState};
ghost use Rattle.vb_guest.specs.Exact.{KeepsFrames};
ghost use Rattle.vb_guest.specs.Promises.{EachReaches, EachSteps, SomeGuestOut, moment};
ghost use Rattle.vb_guest.specs.Replies.{served_reply};
ghost use Rattle.vb_guest.specs.Serving.{LosesBehind, NextBy, NextStep, RestBy, RestStep};
ghost use Rattle.vb_guest.specs.Serving.{ServesAllBy, first_served, served_until};

use crate::frames::return_loose;
use crate::served::Served;
use vb_device::Device;
use vb_frames::FrameKeeper;
use vb_model::Call;
use vb_virtio::Refusal;
use vb_virtio::layout::STATISTICS_QUEUE;
use vb_virtio::limits::MAX_QUEUE_SIZE;

/// The device serves the next chain of a queue. Frames that its pages lose go back to where they
/// came from.
fn serve_next<D: Device, K: FrameKeeper>(
    device: &mut D,
    keeper: &mut K,
    queue: u32,
) -> Result<Option<u16>, Refusal>
    requires { (d : DriverState) × SomeGuestOut (D.mem device.old) (D.part device.old) d
        (K.out keeper.old) }
    ensures step { (d : DriverState) → EachReaches
        (moment (D.mem device.old) (D.part device.old) d (K.out keeper.old))
        (moment (D.mem device.new) (D.part device.new) d (K.out keeper.new))
        (NextStep queue result) }
    ensures exact { NextBy queue (D.mem device.old) (D.mem device.new)
        (D.part device.old) (D.part device.new) result }
    ensures loses { LosesBehind (D.mem device.old) (D.mem device.new) }
    ensures quiet { KeepsFrames (D.mem device.old) (D.mem device.new) → keeper.new ≡ keeper.old }
    ensures unasked { (D.part device.old).keeps ≡ true → keeper.new ≡ keeper.old }
    ensures keeps { (D.part device.new).keeps ≡ (D.part device.old).keeps }
{
    let answer = device.serve(queue);
    return_loose(device, keeper);
    answer
}

/// How far a serve came that a refusal ended after `chains` chains: a chain may break a rule, and
/// nothing else can be.
fn stopped(chains: u32, why: Refusal) -> Served
    ensures { result ≡ served_until chains (Err why) }
{
    let broken = match why {
        Refusal::Broken { rule } => Some(rule),
        _ => None,
    };
    Served { chains, broken }
}

/// The device serves the chains after the first ones of a queue, `left` of them at most.
fn serve_rest<D: Device, K: FrameKeeper>(
    device: &mut D,
    keeper: &mut K,
    queue: u32,
    chains: u32,
    left: u32,
) -> Served
    requires stands { (d : DriverState) × SomeGuestOut (D.mem device.old) (D.part device.old) d
        (K.out keeper.old) }
    requires few { chains + left ≤ MAX_QUEUE_SIZE }
    ensures step { (d : DriverState) → EachReaches
        (moment (D.mem device.old) (D.part device.old) d (K.out keeper.old))
        (moment (D.mem device.new) (D.part device.new) d (K.out keeper.new))
        (RestStep queue chains left result) }
    ensures exact { RestBy queue left chains (D.mem device.old) (D.mem device.new)
        (D.part device.old) (D.part device.new) result }
    ensures loses { LosesBehind (D.mem device.old) (D.mem device.new) }
    ensures quiet { KeepsFrames (D.mem device.old) (D.mem device.new) → keeper.new ≡ keeper.old }
    ensures unasked { (D.part device.old).keeps ≡ true → keeper.new ≡ keeper.old }
{
    if left == 0 {
        return Served {
            chains,
            broken: None,
        };
    }
    match serve_next(device, keeper, queue) {
        Ok(Some(_)) => serve_rest(device, keeper, queue, chains + 1, left - 1),
        Ok(None) => Served {
            chains,
            broken: None,
        },
        Err(why) => stopped(chains, why),
    }
}

/// What is answered where the first chain is refused: one that breaks a rule ends a serve of none.
fn refused_first(why: Refusal) -> Result<Served, Refusal>
    ensures { result ≡ first_served (Err why) }
{
    match why {
        Refusal::Broken { rule } => Ok(Served {
            chains: 0,
            broken: Some(rule),
        }),
        why => Err(why),
    }
}

/// The device serves a queue: each chain that is available is taken, its pages are visited, and it
/// is used before the next one; of the queue of statistics the buffer alone is taken, and stays
/// taken. Frames that pages lose go back to where they came from. Answers how many chains were
/// served, and which rule the next one breaks, if it breaks one. Refused with `NoQueue`,
/// `NotReady`, `NeedsReset`, `NoQueue` where the queue's feature wasn't accepted, and `Busy` where
/// any chain of the queue is taken, tested in this order.
pub fn serve<D: Device, K: FrameKeeper>(
    device: &mut D,
    keeper: &mut K,
    queue: u32,
) -> Result<Served, Refusal>
    requires { (d : DriverState) × SomeGuestOut (D.mem device.old) (D.part device.old) d
        (K.out keeper.old) }
    ensures step { (d : DriverState) → EachSteps K.answers
        (moment (D.mem device.old) (D.part device.old) d (K.out keeper.old))
        (moment (D.mem device.new) (D.part device.new) d (K.out keeper.new)) [] (Call.Serve queue)
        (served_reply result) }
    ensures exact { ServesAllBy queue (D.mem device.old) (D.mem device.new)
        (D.part device.old) (D.part device.new) result }
    ensures quiet { KeepsFrames (D.mem device.old) (D.mem device.new) → keeper.new ≡ keeper.old }
    ensures unasked { (D.part device.old).keeps ≡ true → keeper.new ≡ keeper.old }
{
    match serve_next(device, keeper, queue) {
        Ok(Some(_)) => {
            if queue == STATISTICS_QUEUE {
                return Ok(Served {
                    chains: 1,
                    broken: None,
                });
            }
            Ok(serve_rest(device, keeper, queue, 1, MAX_QUEUE_SIZE - 1))
        }
        Ok(None) => Ok(Served {
            chains: 0,
            broken: None,
        }),
        Err(why) => refused_first(why),
    }
}

//! The example of the README.

ghost use Rattle.std.specs.Prelude.{◌≡◌, ◌≢◌, true, IfSome};
ghost use Rattle.vb_device.specs.Own.{has};

use std::test::Fail;
use std::thread::{Threads, join};
use vb_shared::{FramePass, SharedFrames};

fn claim_one(mut pass: FramePass) -> (FramePass, Option<u32>)
    ensures table { result.0.table ≡ pass.table }
    ensures held { IfSome result.1 (λ f. has result.0.held f ≡ true) }
{
    let frame = pass.claim();
    (pass, frame)
}

/// Two passes of one table claim on two threads: their frames differ.
fn claim_on_two_threads<R: Threads + Sync>(
    rt: &R,
    one: FramePass,
    other: FramePass,
) -> (Option<u32>, Option<u32>)
    requires { one.table ≡ other.table }
    ensures { IfSome result.0 (λ a. IfSome result.1 (λ b. a ≢ b)) }
{
    let ((mut one, a), (mut other, b)) = join(rt, move || claim_one(one), move || claim_one(other));
    one.meet(&mut other);
    (a, b)
}

#[test]
fn two_threads_with_a_pass_each(rt: HostRuntime) -> Result<(), Fail> {
    let (frames, mut passes) = SharedFrames::open(rt.alloc(), 64, 2)?;
    let (Some(other), Some(one)) = (passes.pop(), passes.pop()) else {
        panic!(rt; "there are two passes")
    };
    let (a, b) = claim_on_two_threads(&rt, one, other);
    assert!(rt; a.is_some() && b.is_some() && frames.census() == 2);
    Ok(())
}

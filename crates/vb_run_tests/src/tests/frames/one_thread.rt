//! Two passes and a leased device on one thread.

use std::test::Fail;
use vb_device::{Claimed, Device, ImmediateDevice};
use vb_shared::{FramePass, Leased, SharedFrames};

/// A table of frames with two passes: one in a device, until that is dropped, and one by itself.
#[derive(Drop)]
struct Host {
    frames: SharedFrames,
    device: Option<Leased<ImmediateDevice>>,
    pass: FramePass,
}

/// What is done.
#[derive(Clone, Copy)]
enum Step {
    /// The device claims a frame.
    DeviceClaims,
    /// The device is dropped, and its pass with it.
    DropDevice,
    /// The pass claims a frame.
    Claim,
    /// The pass puts this number back; 1 where it held it, else 0.
    PutBack(u32),
    /// The pass gives all back.
    GiveBackAll,
    /// The frames that are held are counted.
    Census,
}

/// Steps on a table of three frames, and the number that each answers.
static STEPS: [(Step, Option<u32>); 19] = [
    (Step::DeviceClaims, Some(0)),
    (Step::DeviceClaims, Some(1)),
    (Step::Claim, Some(2)),
    (Step::DeviceClaims, None),
    (Step::Claim, None),
    (Step::Census, Some(3)),
    (Step::PutBack(0), Some(0)),
    (Step::PutBack(3), Some(0)),
    (Step::Census, Some(3)),
    (Step::DropDevice, None),
    (Step::Census, Some(1)),
    (Step::Claim, Some(0)),
    (Step::PutBack(2), Some(1)),
    (Step::PutBack(2), Some(0)),
    (Step::Claim, Some(1)),
    (Step::Census, Some(2)),
    (Step::GiveBackAll, None),
    (Step::Census, Some(0)),
    (Step::Claim, Some(0)),
];

/// The frame's number, or none where no frame was free; a number past all frames for another
/// answer.
fn number_of(claimed: Claimed) -> Option<u32> {
    match claimed {
        Claimed::Gave(frame) => Some(frame.number()),
        Claimed::NoFrame => None,
        Claimed::AskHost | Claimed::NoMemory => Some(u32::MAX),
    }
}

impl Host {
    fn step(&mut self, step: Step) -> Option<u32> {
        match step {
            Step::DeviceClaims => number_of(self.device.as_mut()?.claim()),
            Step::DropDevice => {
                self.device = None;
                None
            }
            Step::Claim => self.pass.claim(),
            Step::PutBack(number) => Some(u32::from(self.pass.put_back(number))),
            Step::GiveBackAll => {
                self.pass.give_back_all();
                None
            }
            Step::Census => Some(self.frames.census()),
        }
    }

    /// The first step that isn't answered so.
    fn first_wrong(&mut self, steps: &[(Step, Option<u32>)]) -> Option<usize> {
        for (number, (step, answer)) in steps.iter().enumerate() {
            if self.step(*step) != *answer {
                return Some(number);
            }
        }
        None
    }
}

#[test]
fn frames_come_in_rising_order_and_go_back_with_the_device(rt: HostRuntime) -> Result<(), Fail> {
    let (frames, mut passes) = SharedFrames::open(rt.alloc(), 3, 2)?;
    let (Some(pass), Some(first)) = (passes.pop(), passes.pop()) else {
        panic!(rt; "there are two passes")
    };
    let device = Some(Leased::new(ImmediateDevice::new(rt.alloc()), first));
    let mut host = Host {
        frames,
        device,
        pass,
    };
    assert!(rt; host.first_wrong(&STEPS).is_none());
    Ok(())
}

#[test]
fn passes_that_meet_keep_what_they_hold(rt: HostRuntime) -> Result<(), Fail> {
    let (frames, mut passes) = SharedFrames::open(rt.alloc(), 3, 2)?;
    let (Some(mut one), Some(mut other)) = (passes.pop(), passes.pop()) else {
        panic!(rt; "there are two passes")
    };
    let claimed = (one.claim(), other.claim());
    one.meet(&mut other);
    assert!(rt; claimed == (Some(0), Some(1)) && frames.census() == 2);
    assert!(rt; one.put_back(0) && other.put_back(1));
    Ok(())
}

/// Claims a frame, and once more where there was no memory for its bytes; then as many frames were
/// held as before.
fn claim_at_last(host: &mut Host) -> Option<u32> {
    let held = host.frames.census();
    match host.device.as_mut()?.claim() {
        Claimed::NoMemory if host.frames.census() == held => host.step(Step::DeviceClaims),
        claimed => number_of(claimed),
    }
}

/// Whichever request for memory is refused (`rt try --test --fail-alloc N`), nothing is lost by it.
#[test]
fn want_of_memory_loses_no_frame(rt: HostRuntime) {
    let Ok((frames, mut passes)) = SharedFrames::open(rt.alloc(), 3, 2) else {
        return;
    };
    let (Some(pass), Some(first)) = (passes.pop(), passes.pop()) else {
        panic!(rt; "there are two passes")
    };
    let device = Some(Leased::new(ImmediateDevice::new(rt.alloc()), first));
    let mut host = Host {
        frames,
        device,
        pass,
    };
    let claimed = (claim_at_last(&mut host), claim_at_last(&mut host));
    assert!(rt; claimed == (Some(0), Some(1)) && host.frames.census() == 2);
}

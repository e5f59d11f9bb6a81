//! Chains that devices of both paces serve.

use super::bytes::{AVAILABLE, NUMBERS, TWO_REQUESTS, WRITABLE};
use super::requests::TWO_TAKEN;
use super::{Answer, Scenario, Sight, Step, expect};
use vb_device::{Immediate, Paced};
use vb_virtio::Refusal;

/// Before a life nothing is served, and no other queue ever is.
const NOT_READY: &'static [(Step, Answer)] = &[
    (Step::Serve(0), Answer::Refused(Refusal::NotReady)),
    (Step::Start, Answer::Done),
    (Step::Serve(0), Answer::Head(None)),
    (Step::Serve(1), Answer::Head(None)),
    (Step::WriteStatus(0), Answer::Done),
    (Step::Serve(0), Answer::Refused(Refusal::NotReady)),
];

/// Of pages 17 to 20, which two requests name, 18 and 20 have frames.
const TWO_POSTED: &'static [(Step, Answer)] = &[
    (Step::Start, Answer::Done),
    (Step::Supply(18, 40), Answer::Done),
    (Step::Supply(20, 41), Answer::Done),
    (Step::Write(4, 0, &NUMBERS), Answer::Done),
    (Step::Write(0, 0, &TWO_REQUESTS), Answer::Done),
    (Step::Write(0, 128, &[0, 0, 2, 0, 0, 0, 1, 0]), Answer::Done),
];

/// The used ring with two elements, of which this shows the first, of head 0 and length 0.
const USED_TWO: [u8; 12] = [0, 0, 2, 0, 0, 0, 0, 0, 0, 0, 0, 0];

/// One chain after the other is used, and the frames of its pages alone are loose then.
const BOTH_SERVED: &'static [(Step, Answer)] = &[
    (Step::Serve(0), Answer::Head(Some(0))),
    (Step::See(Sight::AreBallooned(17, 18)), Answer::Done),
    (Step::See(Sight::Backing(20)), Answer::Frame(Some(41))),
    (Step::HandBack, Answer::Frame(Some(40))),
    (Step::HandBack, Answer::Frame(None)),
    (Step::Serve(0), Answer::Head(Some(1))),
    (Step::See(Sight::AreBallooned(17, 20)), Answer::Done),
    (Step::HandBack, Answer::Frame(Some(41))),
    (Step::HandBack, Answer::Frame(None)),
    (Step::Serve(0), Answer::Head(None)),
    (Step::Finish(0, 0), Answer::Refused(Refusal::NotTaken)),
    (Step::See(Sight::Bytes(0, 152)), Answer::Bytes(USED_TWO)),
];

/// A queue with a taken chain is busy, and another one isn't.
const BUSY: &'static [(Step, Answer)] = &[
    (Step::Serve(0), Answer::Refused(Refusal::Busy)),
    (Step::Serve(1), Answer::Head(None)),
];

/// A statistics buffer of 20 bytes, and what it says: free and total memory.
const TWENTY_BYTES: [u8; 16] = [0, 0xc0, 0, 0, 0, 0, 0, 0, 20, 0, 0, 0, 0, 0, 0, 0];

const FREE_AND_TOTAL: [u8; 20] = [4, 0, 0, 0, 3, 0, 0, 0, 0, 0, 5, 0, 0, 0, 4, 0, 0, 0, 0, 0];

/// The buffer is taken and not used, until the device asks.
const STATISTICS: &'static [(Step, Answer)] = &[
    (Step::Start, Answer::Done),
    (Step::Write(12, 0, &FREE_AND_TOTAL), Answer::Done),
    (Step::Write(2, 0, &TWENTY_BYTES), Answer::Done),
    (Step::Write(2, 128, &AVAILABLE), Answer::Done),
    (Step::Serve(2), Answer::Head(Some(0))),
    (
        Step::See(Sight::Stats),
        Answer::Stats(Some(196_608), Some(262_144)),
    ),
    (Step::Serve(2), Answer::Refused(Refusal::Busy)),
    (Step::Ask, Answer::Done),
    (Step::Ask, Answer::Refused(Refusal::NotTaken)),
    (Step::Serve(2), Answer::Head(None)),
];

/// A chain that breaks a rule isn't used, and the device needs a reset.
const BROKEN: &'static [(Step, Answer)] = &[
    (Step::Start, Answer::Done),
    (Step::Write(0, 0, &WRITABLE), Answer::Done),
    (Step::Write(0, 128, &AVAILABLE), Answer::Done),
    (Step::Serve(0), Answer::Broken(5)),
    (Step::See(Sight::Status), Answer::Status(79)),
    (Step::Serve(0), Answer::Refused(Refusal::NeedsReset)),
    (Step::See(Sight::Bytes(0, 152)), Answer::Bytes([0; 12])),
];

static SERVES: [Scenario; 5] = [
    ("serves of a device that isn't ready", 64, 8, &[NOT_READY]),
    ("two requests are served", 64, 8, &[TWO_POSTED, BOTH_SERVED]),
    (
        "a queue with a taken chain is busy",
        64,
        8,
        &[TWO_TAKEN, BUSY],
    ),
    ("the statistics buffer is served", 64, 8, &[STATISTICS]),
    ("a chain that breaks a rule", 64, 8, &[BROKEN]),
];

#[test]
fn immediate_devices_serve(rt: HostRuntime) {
    for scenario in &SERVES {
        expect::<Immediate>(&rt, rt.alloc(), scenario);
    }
}

#[test]
fn paced_devices_serve(rt: HostRuntime) {
    for scenario in &SERVES {
        expect::<Paced>(&rt, rt.alloc(), scenario);
    }
}

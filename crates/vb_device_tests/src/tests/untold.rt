//! Drivers without MUST_TELL_HOST, which use a page again before the device knows.

use super::bytes::{AVAILABLE, NUMBERS, SIXTEEN_BYTES};
use super::requests::DEFLATE;
use super::{Answer, Scenario, Sight, Step, expect};
use vb_device::{Immediate, Paced};
use vb_virtio::Refusal;

/// All features but MUST_TELL_HOST.
const UNTOLD: u64 = 0x1_0000_0026;

/// An available ring whose index is nine ahead of one chain that was taken.
const TEN_AHEAD: [u8; 6] = [0, 0, 10, 0, 0, 0];

/// A request for pages 17 to 20 is taken. Nothing is ballooned yet, and that isn't looked at.
const TAKEN: &'static [(Step, Answer)] = &[
    (Step::Sweep(17), Answer::Refused(Refusal::NotReady)),
    (Step::StartWith(UNTOLD), Answer::Done),
    (Step::Sweep(17), Answer::Refused(Refusal::NoFeature)),
    (Step::Write(4, 0, &NUMBERS), Answer::Done),
    (Step::Write(0, 0, &SIXTEEN_BYTES), Answer::Done),
    (Step::Write(0, 128, &AVAILABLE), Answer::Done),
    (Step::Take(0), Answer::Head(Some(0))),
];

const VISITED: &'static [(Step, Answer)] = &[(Step::WorkBare(17, 21), Answer::Done)];

/// The four pages are ballooned, and the guest uses page 18 again.
const IN_USE: &'static [(Step, Answer)] = &[
    (Step::Finish(0, 0), Answer::Head(Some(0))),
    (Step::See(Sight::AreBallooned(17, 20)), Answer::Done),
    (Step::Supply(18, 41), Answer::Done),
    (Step::Sweep(17), Answer::Refused(Refusal::NoFeature)),
    (Step::Sweep(18), Answer::Refused(Refusal::NoFeature)),
    (Step::Sweep(21), Answer::Refused(Refusal::NoFeature)),
    (Step::See(Sight::Backing(18)), Answer::Frame(Some(41))),
];

/// Page 18 keeps its frame as it comes back.
const KEPT: &'static [(Step, Answer)] = &[
    (Step::See(Sight::Backing(18)), Answer::Frame(Some(41))),
    (Step::HandBack, Answer::Frame(None)),
    (Step::Sweep(18), Answer::Refused(Refusal::NoFeature)),
    (Step::See(Sight::Backing(18)), Answer::Frame(Some(41))),
];

/// A fault is told first, and a driver that tells the host may come after this one.
const FAULT: &'static [(Step, Answer)] = &[
    (Step::Write(0, 128, &TEN_AHEAD), Answer::Done),
    (Step::Take(0), Answer::Broken(7)),
    (Step::Sweep(19), Answer::Refused(Refusal::NeedsReset)),
    (Step::Start, Answer::Done),
    (Step::Sweep(19), Answer::Refused(Refusal::NotBallooned)),
];

/// What devices of both paces answer them.
static UNTOLD_IMMEDIATE: Scenario = (
    "an immediate device isn't told",
    64,
    8,
    &[TAKEN, IN_USE, DEFLATE, KEPT, FAULT],
);

static UNTOLD_PACED: Scenario = (
    "a paced device isn't told",
    64,
    8,
    &[TAKEN, VISITED, IN_USE, DEFLATE, KEPT, FAULT],
);

#[test]
fn devices_that_are_not_told(rt: HostRuntime) {
    expect::<Immediate>(&rt, rt.alloc(), &UNTOLD_IMMEDIATE);
    expect::<Paced>(&rt, rt.alloc(), &UNTOLD_PACED);
}

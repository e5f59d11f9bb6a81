//! Inflates and deflates on immediate devices.

use super::bytes::{
    AVAILABLE, EIGHT_BYTES, NUMBERS, NUMBERS_FROM_32, SIXTEEN_BYTES, TWO_REQUESTS, USED,
};
use super::{Answer, Scenario, Sight, Step, expect};
use vb_device::Immediate;
use vb_virtio::Refusal;

/// Pages 17 to 20 go into the balloon.
pub(super) const INFLATE: &'static [(Step, Answer)] = &[
    (Step::Start, Answer::Done),
    (Step::Write(4, 0, &NUMBERS), Answer::Done),
    (Step::Write(0, 0, &SIXTEEN_BYTES), Answer::Done),
    (Step::Write(0, 128, &AVAILABLE), Answer::Done),
    (Step::Take(0), Answer::Head(Some(0))),
    (Step::Finish(0, 0), Answer::Head(Some(0))),
    (Step::See(Sight::AreBallooned(17, 20)), Answer::Done),
];

const INFLATED: &'static [(Step, Answer)] = &[
    (Step::See(Sight::Bytes(0, 152)), Answer::Bytes(USED)),
    (Step::See(Sight::BalloonedCount), Answer::Count(4)),
    (Step::See(Sight::Backing(17)), Answer::Frame(None)),
    (Step::See(Sight::Backing(18)), Answer::Frame(None)),
    (Step::See(Sight::Backing(19)), Answer::Frame(None)),
    (Step::See(Sight::Backing(20)), Answer::Frame(None)),
    (Step::Take(0), Answer::Head(None)),
];

const FRAME_BEHIND_17: &'static [(Step, Answer)] = &[(Step::Supply(17, 40), Answer::Done)];

const FRAME_IS_LOOSE: &'static [(Step, Answer)] = &[
    (Step::See(Sight::Backing(17)), Answer::Frame(None)),
    (Step::HandBack, Answer::Frame(Some(40))),
    (Step::HandBack, Answer::Frame(None)),
];

/// Pages 17 and 18 come back.
pub(super) const DEFLATE: &'static [(Step, Answer)] = &[
    (Step::Write(1, 0, &EIGHT_BYTES), Answer::Done),
    (Step::Write(1, 128, &AVAILABLE), Answer::Done),
    (Step::Take(1), Answer::Head(Some(0))),
    (Step::Finish(1, 0), Answer::Head(Some(0))),
    (Step::See(Sight::AreBallooned(19, 20)), Answer::Done),
    (Step::See(Sight::Bytes(1, 152)), Answer::Bytes(USED)),
];

const RESET: &'static [(Step, Answer)] = &[
    (Step::WriteStatus(0), Answer::Done),
    (Step::See(Sight::BalloonedCount), Answer::Count(0)),
    (Step::See(Sight::Backing(17)), Answer::Frame(None)),
    (Step::See(Sight::Backing(18)), Answer::Frame(None)),
    (Step::See(Sight::Backing(19)), Answer::Frame(None)),
    (Step::See(Sight::Backing(20)), Answer::Frame(None)),
    (Step::Finish(0, 0), Answer::Refused(Refusal::NotReady)),
];

const SWEEPS: &'static [(Step, Answer)] = &[
    (Step::Supply(18, 41), Answer::Done),
    (Step::Sweep(18), Answer::Is(true)),
    (Step::HandBack, Answer::Frame(Some(41))),
    (Step::Sweep(18), Answer::Is(false)),
    (Step::Sweep(21), Answer::Refused(Refusal::NotBallooned)),
];

/// The used ring with one element, of head 1 and length 0.
const USED_ONE: [u8; 12] = [0, 0, 1, 0, 1, 0, 0, 0, 0, 0, 0, 0];

/// Requests for pages 17 and 18 from head 0 and for pages 19 and 20 from head 1; the second one is
/// finished first.
const TWO_IN_ANY_ORDER: &'static [(Step, Answer)] = &[
    (Step::Start, Answer::Done),
    (Step::Write(4, 0, &NUMBERS), Answer::Done),
    (Step::Write(0, 0, &TWO_REQUESTS), Answer::Done),
    (Step::Write(0, 128, &[0, 0, 2, 0, 0, 0, 1, 0]), Answer::Done),
    (Step::Take(0), Answer::Head(Some(0))),
    (Step::Take(0), Answer::Head(Some(1))),
    (Step::Finish(0, 2), Answer::Refused(Refusal::NotTaken)),
    (Step::Finish(0, 1), Answer::Head(Some(1))),
    (Step::See(Sight::Bytes(0, 152)), Answer::Bytes(USED_ONE)),
    (Step::See(Sight::AreBallooned(19, 20)), Answer::Done),
    (Step::Finish(0, 0), Answer::Head(Some(0))),
    (Step::See(Sight::AreBallooned(17, 20)), Answer::Done),
];

/// Requests for pages 17 and 18 and for pages 19 and 20 are taken.
pub(super) const TWO_TAKEN: &'static [(Step, Answer)] = &[
    (Step::Start, Answer::Done),
    (Step::Write(4, 0, &NUMBERS), Answer::Done),
    (Step::Write(0, 0, &TWO_REQUESTS), Answer::Done),
    (Step::Write(0, 128, &[0, 0, 2, 0, 0, 0, 1, 0]), Answer::Done),
    (Step::Take(0), Answer::Head(Some(0))),
    (Step::Take(0), Answer::Head(Some(1))),
];

/// An immediate device has nothing to visit.
const NO_WORK: &'static [(Step, Answer)] = &[
    (Step::Work, Answer::Idle),
    (Step::Finish(0, 1), Answer::Head(Some(1))),
    (Step::Work, Answer::Idle),
];

/// A request for pages 17 to 20, of which 18 and 20 have frames, is taken.
pub(super) const TAKEN: &'static [(Step, Answer)] = &[
    (Step::Work, Answer::Refused(Refusal::NotReady)),
    (Step::Start, Answer::Done),
    (Step::Work, Answer::Idle),
    (Step::Supply(18, 40), Answer::Done),
    (Step::Supply(20, 41), Answer::Done),
    (Step::Write(4, 0, &NUMBERS), Answer::Done),
    (Step::Write(0, 0, &SIXTEEN_BYTES), Answer::Done),
    (Step::Write(0, 128, &AVAILABLE), Answer::Done),
    (Step::Take(0), Answer::Head(Some(0))),
];

/// In rings of two pages, with available and used ring in the second, pages 32 to 35 go into the
/// balloon, and pages 32 and 33 come back.
const TWO_PAGES: &'static [(Step, Answer)] = &[
    (Step::Start, Answer::Done),
    (Step::Supply(33, 40), Answer::Done),
    (Step::Write(4, 0, &NUMBERS_FROM_32), Answer::Done),
    (Step::Write(16, 0, &SIXTEEN_BYTES), Answer::Done),
    (Step::Write(17, 0, &AVAILABLE), Answer::Done),
    (Step::Take(0), Answer::Head(Some(0))),
    (Step::See(Sight::Bytes(17, 520)), Answer::Bytes([0; 12])),
    (Step::Finish(0, 0), Answer::Head(Some(0))),
    (Step::See(Sight::Bytes(17, 520)), Answer::Bytes(USED)),
    (Step::See(Sight::AreBallooned(32, 35)), Answer::Done),
    (Step::See(Sight::Backing(33)), Answer::Frame(None)),
    (Step::HandBack, Answer::Frame(Some(40))),
    (Step::HandBack, Answer::Frame(None)),
    (Step::See(Sight::Backing(16)), Answer::Frame(Some(16))),
    (Step::See(Sight::Backing(17)), Answer::Frame(Some(17))),
    (Step::Take(0), Answer::Head(None)),
    (Step::Write(18, 0, &EIGHT_BYTES), Answer::Done),
    (Step::Write(19, 0, &AVAILABLE), Answer::Done),
    (Step::Take(1), Answer::Head(Some(0))),
    (Step::Finish(1, 0), Answer::Head(Some(0))),
    (Step::See(Sight::Bytes(19, 520)), Answer::Bytes(USED)),
    (Step::See(Sight::AreBallooned(34, 35)), Answer::Done),
];

/// The used ring, with the element of head 255.
const USED_255: [u8; 12] = [0, 0, 1, 0, 255, 0, 0, 0, 0, 0, 0, 0];

/// A chain from the last descriptor, which ends with its page.
const LAST_DESCRIPTOR: &'static [(Step, Answer)] = &[
    (Step::Start, Answer::Done),
    (Step::Write(4, 0, &NUMBERS_FROM_32), Answer::Done),
    (Step::Write(16, 4080, &SIXTEEN_BYTES), Answer::Done),
    (Step::Write(17, 0, &[0, 0, 1, 0, 255, 0]), Answer::Done),
    (Step::Take(0), Answer::Head(Some(255))),
    (Step::Finish(0, 0), Answer::Head(Some(255))),
    (Step::See(Sight::Bytes(17, 520)), Answer::Bytes(USED_255)),
];

/// The statistics buffer and the ring of reports there.
const OTHER_RINGS: &'static [(Step, Answer)] = &[
    (Step::Start, Answer::Done),
    (Step::Write(20, 0, &NO_STATISTICS), Answer::Done),
    (Step::Write(21, 0, &AVAILABLE), Answer::Done),
    (Step::Take(2), Answer::Head(Some(0))),
    (Step::Ask, Answer::Done),
    (Step::See(Sight::Bytes(21, 520)), Answer::Bytes(USED)),
    (Step::Supply(32, 40), Answer::Done),
    (Step::Write(22, 0, &PAGES_FROM_32), Answer::Done),
    (Step::Write(23, 0, &AVAILABLE), Answer::Done),
    (Step::Take(4), Answer::Head(Some(0))),
    (Step::Finish(4, 0), Answer::Head(Some(0))),
    (Step::See(Sight::Bytes(23, 520)), Answer::Bytes(USED)),
    (Step::See(Sight::Backing(32)), Answer::Frame(None)),
    (Step::HandBack, Answer::Frame(Some(40))),
];

/// No bytes at address 0xc000, and the last 48 pages of a guest of 80.
const NO_STATISTICS: [u8; 16] = [0, 0xc0, 0, 0, 0, 0, 0, 0, 0, 0, 0, 0, 0, 0, 0, 0];

const PAGES_FROM_32: [u8; 16] = [0, 0, 2, 0, 0, 0, 0, 0, 0, 0, 3, 0, 2, 0, 0, 0];

/// A queue of 128 has its rings in one page: its used ring after the available ring's 262 bytes.
const ONE_PAGE: &'static [(Step, Answer)] = &[
    (Step::Start, Answer::Done),
    (Step::Write(4, 0, &NUMBERS), Answer::Done),
    (Step::Write(0, 0, &SIXTEEN_BYTES), Answer::Done),
    (Step::Write(0, 2048, &AVAILABLE), Answer::Done),
    (Step::Take(0), Answer::Head(Some(0))),
    (Step::Finish(0, 0), Answer::Head(Some(0))),
    (Step::See(Sight::Bytes(0, 2312)), Answer::Bytes(USED)),
    (Step::See(Sight::AreBallooned(17, 20)), Answer::Done),
];

/// What immediate devices make of inflates and deflates.
static INFLATES: [Scenario; 10] = [
    (
        "a request is taken and finished",
        64,
        8,
        &[INFLATE, INFLATED],
    ),
    (
        "a ballooned page loses its frame",
        64,
        8,
        &[FRAME_BEHIND_17, INFLATE, FRAME_IS_LOOSE],
    ),
    (
        "a deflated page is ballooned no more",
        64,
        8,
        &[INFLATE, DEFLATE],
    ),
    ("a reset empties the balloon", 64, 8, &[INFLATE, RESET]),
    ("a ballooned page is swept", 64, 8, &[INFLATE, SWEEPS]),
    (
        "requests are finished in any order",
        64,
        8,
        &[TWO_IN_ANY_ORDER],
    ),
    ("an immediate device is idle", 64, 8, &[TWO_TAKEN, NO_WORK]),
    (
        "requests in rings of two pages",
        80,
        256,
        &[TWO_PAGES, LAST_DESCRIPTOR],
    ),
    (
        "statistics and a report in rings of two pages",
        80,
        256,
        &[OTHER_RINGS],
    ),
    ("a ring of 128 takes one page", 80, 128, &[ONE_PAGE]),
];

#[test]
fn immediate_devices_inflate_and_deflate(rt: HostRuntime) {
    for scenario in &INFLATES {
        expect::<Immediate>(&rt, rt.alloc(), scenario);
    }
}

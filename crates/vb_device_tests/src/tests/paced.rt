//! Paced devices, which visit the pages of requests and reports one by one.

use super::bytes::{AVAILABLE, FOUR_BYTES, NINE_AHEAD, PAGE_16_TWICE, USED};
use super::requests::{DEFLATE, TAKEN, TWO_TAKEN};
use super::statistics_and_reports::TAKEN_TWICE;
use super::{Answer, Scenario, Sight, Step, expect};
use vb_device::Paced;
use vb_virtio::Refusal;

/// Its pages are visited one by one; page 19 gets a frame after its visit.
const VISITED: &'static [(Step, Answer)] = &[
    (Step::Finish(0, 0), Answer::Refused(Refusal::NotWorked)),
    (Step::Work, Answer::Worked(17, false)),
    (Step::Work, Answer::Worked(18, true)),
    (Step::See(Sight::Backing(18)), Answer::Frame(None)),
    (Step::HandBack, Answer::Frame(Some(40))),
    (Step::Work, Answer::Worked(19, false)),
    (Step::Supply(19, 42), Answer::Done),
    (Step::Finish(0, 0), Answer::Refused(Refusal::NotWorked)),
    (Step::See(Sight::BalloonedCount), Answer::Count(0)),
    (Step::Work, Answer::Worked(20, true)),
    (Step::HandBack, Answer::Frame(Some(41))),
    (Step::Work, Answer::Idle),
    (Step::See(Sight::Backing(19)), Answer::Frame(Some(42))),
];

const FINISHED: &'static [(Step, Answer)] = &[
    (Step::Finish(0, 0), Answer::Head(Some(0))),
    (Step::HandBack, Answer::Frame(Some(42))),
    (Step::HandBack, Answer::Frame(None)),
    (Step::See(Sight::Backing(19)), Answer::Frame(None)),
    (Step::See(Sight::AreBallooned(17, 20)), Answer::Done),
    (Step::See(Sight::Bytes(0, 152)), Answer::Bytes(USED)),
    (Step::Work, Answer::Idle),
];

const OLDER_FIRST: &'static [(Step, Answer)] = &[
    (Step::Work, Answer::Worked(17, false)),
    (Step::Finish(0, 2), Answer::Refused(Refusal::NotTaken)),
    (Step::Finish(0, 1), Answer::Refused(Refusal::NotWorked)),
    (Step::Work, Answer::Worked(18, false)),
    (Step::Work, Answer::Worked(19, false)),
    (Step::Finish(0, 0), Answer::Head(Some(0))),
    (Step::Finish(0, 0), Answer::Refused(Refusal::NotWorked)),
    (Step::Work, Answer::Worked(20, false)),
    (Step::Work, Answer::Idle),
    (Step::Finish(0, 0), Answer::Head(Some(1))),
];

/// The taken requests are gone after a reset, and after a fault none is visited.
const DROPPED: &'static [(Step, Answer)] = &[
    (Step::Work, Answer::Worked(17, false)),
    (Step::WriteStatus(0), Answer::Done),
    (Step::Work, Answer::Refused(Refusal::NotReady)),
    (Step::Finish(0, 0), Answer::Refused(Refusal::NotReady)),
    (Step::Start, Answer::Done),
    (Step::Work, Answer::Idle),
    (Step::Finish(0, 0), Answer::Refused(Refusal::NotTaken)),
    (Step::Write(0, 128, &NINE_AHEAD), Answer::Done),
    (Step::Take(0), Answer::Broken(7)),
    (Step::Work, Answer::Refused(Refusal::NeedsReset)),
];

/// Blocks of pages 16 to 31 and 32 to 63, as a driver reports them in a queue of 8.
const TWO_BLOCKS: [u8; 32] = [
    0, 0, 1, 0, 0, 0, 0, 0, 0, 0, 1, 0, 3, 0, 1, 0, 0, 0, 2, 0, 0, 0, 0, 0, 0, 0, 2, 0, 2, 0, 0, 0,
];

/// All free pages are reported, and page 16 has a frame.
const REPORT: &'static [(Step, Answer)] = &[
    (Step::Supply(16, 40), Answer::Done),
    (
        Step::TakeChain(4, &TWO_BLOCKS, AVAILABLE),
        Answer::Head(Some(0)),
    ),
    (Step::Work, Answer::Worked(16, true)),
    (Step::HandBack, Answer::Frame(Some(40))),
    (Step::Finish(4, 0), Answer::Refused(Refusal::NotWorked)),
    (Step::WorkBare(17, 63), Answer::Done),
    (Step::Finish(4, 0), Answer::Refused(Refusal::NotWorked)),
    (Step::WorkBare(63, 64), Answer::Done),
    (Step::Work, Answer::Idle),
    (Step::Supply(20, 41), Answer::Done),
    (Step::Finish(4, 0), Answer::Head(Some(0))),
    (Step::HandBack, Answer::Frame(Some(41))),
    (Step::See(Sight::BalloonedCount), Answer::Count(0)),
    (Step::See(Sight::Bytes(3, 152)), Answer::Bytes(USED)),
    (Step::Finish(4, 0), Answer::Refused(Refusal::NotTaken)),
    (Step::Take(4), Answer::Head(None)),
];

const VISITED_TWICE: &'static [(Step, Answer)] = &[
    (Step::Work, Answer::Worked(16, true)),
    (Step::HandBack, Answer::Frame(Some(40))),
    (Step::Work, Answer::Worked(16, false)),
    (Step::Work, Answer::Idle),
    (Step::Finish(4, 0), Answer::Head(Some(0))),
    (Step::HandBack, Answer::Frame(None)),
];

/// A request for page 17 is posted and taken after the report, and its page is visited first.
const INFLATE_FIRST: &'static [(Step, Answer)] = &[
    (
        Step::TakeChain(4, &PAGE_16_TWICE, AVAILABLE),
        Answer::Head(Some(0)),
    ),
    (Step::Work, Answer::Worked(16, false)),
    (Step::Write(4, 0, &[17, 0, 0, 0]), Answer::Done),
    (Step::Write(0, 0, &FOUR_BYTES), Answer::Done),
    (Step::Write(0, 128, &AVAILABLE), Answer::Done),
    (Step::Take(0), Answer::Head(Some(0))),
    (Step::Work, Answer::Worked(17, false)),
    (Step::Work, Answer::Worked(16, false)),
    (Step::Work, Answer::Idle),
];

/// What paced ones answer.
static PACED: [Scenario; 6] = [
    (
        "a paced device visits page by page",
        64,
        8,
        &[TAKEN, VISITED, FINISHED, DEFLATE],
    ),
    (
        "the older request is visited first",
        64,
        8,
        &[TWO_TAKEN, OLDER_FIRST],
    ),
    (
        "nothing is visited after a reset",
        64,
        8,
        &[TWO_TAKEN, DROPPED],
    ),
    ("a report is visited and finished", 64, 8, &[REPORT]),
    (
        "a page reported twice is visited twice",
        64,
        8,
        &[TAKEN_TWICE, VISITED_TWICE],
    ),
    (
        "an inflate is visited before a report",
        64,
        8,
        &[INFLATE_FIRST],
    ),
];

#[test]
fn paced_devices_visit_pages(rt: HostRuntime) {
    for scenario in &PACED {
        expect::<Paced>(&rt, rt.alloc(), scenario);
    }
}

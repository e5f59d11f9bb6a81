//! Statistics and reports on immediate devices.

use super::bytes::{AVAILABLE, PAGE_16_TWICE, USED};
use super::{Answer, Scenario, Sight, Step, expect};
use vb_device::Immediate;
use vb_virtio::Refusal;

/// A statistics buffer of 20 bytes at address 0xc000 in a queue of 8, and what a driver with 48
/// free pages of 64 writes there.
const TWENTY_BYTES: [u8; 16] = [0, 0xc0, 0, 0, 0, 0, 0, 0, 20, 0, 0, 0, 0, 0, 0, 0];

const FREE_AND_TOTAL: [u8; 20] = [4, 0, 0, 0, 3, 0, 0, 0, 0, 0, 5, 0, 0, 0, 4, 0, 0, 0, 0, 0];

/// Buffers of 30 and of no bytes there.
const THIRTY_BYTES: [u8; 16] = [0, 0xc0, 0, 0, 0, 0, 0, 0, 30, 0, 0, 0, 0, 0, 0, 0];

const NO_BYTES: [u8; 16] = [0, 0xc0, 0, 0, 0, 0, 0, 0, 0, 0, 0, 0, 0, 0, 0, 0];

/// Tag 9 with value 1, tag 4 with value 4096, and tag 4 with value 8192.
const FREE_TWICE: [u8; 30] = [
    9, 0, 1, 0, 0, 0, 0, 0, 0, 0, 4, 0, 0, 16, 0, 0, 0, 0, 0, 0, 4, 0, 0, 32, 0, 0, 0, 0, 0, 0,
];

/// The buffer is taken, asked for, and taken again with other statistics and with none.
const STATISTICS: &'static [(Step, Answer)] = &[
    (Step::Start, Answer::Done),
    (Step::Ask, Answer::Refused(Refusal::NotTaken)),
    (Step::See(Sight::Stats), Answer::Stats(None, None)),
    (Step::Write(12, 0, &FREE_AND_TOTAL), Answer::Done),
    (Step::Write(2, 0, &TWENTY_BYTES), Answer::Done),
    (Step::Write(2, 128, &AVAILABLE), Answer::Done),
    (Step::Take(2), Answer::Head(Some(0))),
    (
        Step::See(Sight::Stats),
        Answer::Stats(Some(196_608), Some(262_144)),
    ),
    (Step::Write(2, 130, &[2]), Answer::Done),
    (Step::Take(2), Answer::Refused(Refusal::Busy)),
    (Step::Ask, Answer::Done),
    (Step::See(Sight::Bytes(2, 152)), Answer::Bytes(USED)),
    (Step::Ask, Answer::Refused(Refusal::NotTaken)),
    (
        Step::See(Sight::Stats),
        Answer::Stats(Some(196_608), Some(262_144)),
    ),
    (Step::Write(12, 0, &FREE_TWICE), Answer::Done),
    (Step::Write(2, 0, &THIRTY_BYTES), Answer::Done),
    (Step::Take(2), Answer::Head(Some(0))),
    (Step::See(Sight::Stats), Answer::Stats(Some(8192), None)),
    (Step::Ask, Answer::Done),
    (Step::Write(2, 0, &NO_BYTES), Answer::Done),
    (Step::Write(2, 130, &[3]), Answer::Done),
    (Step::Take(2), Answer::Head(Some(0))),
    (Step::See(Sight::Stats), Answer::Stats(None, None)),
];

/// A reset empties what the device knew, and the buffer is no longer taken.
const STATISTICS_RESET: &'static [(Step, Answer)] = &[
    (Step::Write(12, 0, &FREE_AND_TOTAL), Answer::Done),
    (
        Step::TakeChain(2, &TWENTY_BYTES, AVAILABLE),
        Answer::Head(Some(0)),
    ),
    (
        Step::See(Sight::Stats),
        Answer::Stats(Some(196_608), Some(262_144)),
    ),
    (Step::Start, Answer::Done),
    (Step::See(Sight::Stats), Answer::Stats(None, None)),
    (Step::Ask, Answer::Refused(Refusal::NotTaken)),
];

pub(super) const TAKEN_TWICE: &'static [(Step, Answer)] = &[
    (
        Step::TakeChain(4, &PAGE_16_TWICE, AVAILABLE),
        Answer::Head(Some(0)),
    ),
    (Step::Supply(16, 40), Answer::Done),
];

const FINISHED_ONCE: &'static [(Step, Answer)] = &[
    (Step::Work, Answer::Idle),
    (Step::Finish(4, 0), Answer::Head(Some(0))),
    (Step::HandBack, Answer::Frame(Some(40))),
    (Step::HandBack, Answer::Frame(None)),
    (Step::See(Sight::Backing(16)), Answer::Frame(None)),
];

/// All pages from page 32 on of a guest of 65,536 pages, in one piece.
const ALL_PAGES: [u8; 16] = [0, 0, 2, 0, 0, 0, 0, 0, 0, 0, 0xfe, 0xf, 2, 0, 0, 0];

const REPORT_OF_ALL: &'static [(Step, Answer)] = &[
    (
        Step::TakeChain(4, &ALL_PAGES, AVAILABLE),
        Answer::Head(Some(0)),
    ),
    (Step::Supply(32, 40), Answer::Done),
    (Step::Supply(65_535, 41), Answer::Done),
    (Step::Finish(4, 0), Answer::Head(Some(0))),
    (Step::HandBack, Answer::Frame(Some(41))),
    (Step::HandBack, Answer::Frame(Some(40))),
    (Step::HandBack, Answer::Frame(None)),
    (Step::See(Sight::Backing(65_535)), Answer::Frame(None)),
];

/// What they make of statistics and reports.
static OTHERS: [Scenario; 3] = [
    (
        "statistics are taken and asked for",
        64,
        8,
        &[STATISTICS, STATISTICS_RESET],
    ),
    (
        "a page reported twice is visited twice",
        64,
        8,
        &[TAKEN_TWICE, FINISHED_ONCE],
    ),
    (
        "a large guest reports all pages",
        65_536,
        256,
        &[REPORT_OF_ALL],
    ),
];

#[test]
fn immediate_devices_take_statistics_and_reports(rt: HostRuntime) {
    for scenario in &OTHERS {
        expect::<Immediate>(&rt, rt.alloc(), scenario);
    }
}

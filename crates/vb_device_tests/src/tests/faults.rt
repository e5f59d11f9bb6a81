//! What a device refuses, and which rule a chain breaks.

use super::bytes::{
    AVAILABLE, EMPTY, FOUR_BYTES, HEAD_IS_8, NINE_AHEAD, NUMBERS, SIXTEEN_BYTES, WRITABLE,
};
use super::requests::INFLATE;
use super::{Answer, Scenario, Sight, Step, expect};
use vb_device::Immediate;
use vb_virtio::Refusal;

/// Numbers 20, 64 and 3.
const ONE_RIGHT: [u8; 12] = [20, 0, 0, 0, 64, 0, 0, 0, 3, 0, 0, 0];

const NO_PAGE: [u8; 16] = [4, 0x40, 0, 0, 0, 0, 0, 0, 4, 0, 0, 0, 0, 0, 0, 0];

const RESERVED: [u8; 16] = [8, 0x40, 0, 0, 0, 0, 0, 0, 4, 0, 0, 0, 0, 0, 0, 0];

const SIX_BYTES: [u8; 16] = [0, 0x40, 0, 0, 0, 0, 0, 0, 6, 0, 0, 0, 0, 0, 0, 0];

const NEXT_IS_8: [u8; 16] = [0, 0x40, 0, 0, 0, 0, 0, 0, 4, 0, 0, 0, 1, 0, 8, 0];

const NEXT_IS_0: [u8; 16] = [0, 0x40, 0, 0, 0, 0, 0, 0, 4, 0, 0, 0, 1, 0, 0, 0];

const INDIRECT: [u8; 16] = [0, 0x40, 0, 0, 0, 0, 0, 0, 4, 0, 0, 0, 4, 0, 0, 0];

/// Four bytes that end where memory does.
const TO_THE_LAST_BYTE: [u8; 16] = [0xfc, 0xff, 3, 0, 0, 0, 0, 0, 4, 0, 0, 0, 0, 0, 0, 0];

/// Four bytes of which the last is past the end of memory.
const ONE_BYTE_TOO_FAR: [u8; 16] = [0xfd, 0xff, 3, 0, 0, 0, 0, 0, 4, 0, 0, 0, 0, 0, 0, 0];

/// Eight bytes of which the last four are past the last address of 64 bits.
const PAST_ALL_ADDRESSES: [u8; 16] = [
    0xfc, 0xff, 0xff, 0xff, 0xff, 0xff, 0xff, 0xff, 8, 0, 0, 0, 0, 0, 0, 0,
];

const EIGHT_AHEAD: [u8; 6] = [0, 0, 8, 0, 0, 0];

const BROKEN: &'static [(Step, Answer)] = &[
    (Step::Write(4, 0, &ONE_RIGHT), Answer::Done),
    (Step::TakeChain(0, &RESERVED, AVAILABLE), Answer::Broken(10)),
    (Step::TakeChain(0, &NO_PAGE, AVAILABLE), Answer::Broken(9)),
    (Step::TakeChain(0, &NEXT_IS_8, AVAILABLE), Answer::Broken(2)),
    (Step::TakeChain(0, &NEXT_IS_0, AVAILABLE), Answer::Broken(3)),
    (Step::TakeChain(0, &INDIRECT, AVAILABLE), Answer::Broken(4)),
    (Step::TakeChain(0, &WRITABLE, AVAILABLE), Answer::Broken(5)),
    (Step::TakeChain(0, &SIX_BYTES, AVAILABLE), Answer::Broken(8)),
    (Step::TakeChain(0, &EMPTY, HEAD_IS_8), Answer::Broken(1)),
    (Step::TakeChain(0, &EMPTY, NINE_AHEAD), Answer::Broken(7)),
    (Step::TakeChain(0, &EMPTY, EIGHT_AHEAD), Answer::Broken(8)),
    (Step::TakeChain(1, &RESERVED, AVAILABLE), Answer::Broken(10)),
    (Step::TakeChain(1, &NO_PAGE, AVAILABLE), Answer::Broken(9)),
    (Step::TakeChain(1, &NEXT_IS_8, AVAILABLE), Answer::Broken(2)),
    (Step::TakeChain(1, &NEXT_IS_0, AVAILABLE), Answer::Broken(3)),
    (Step::TakeChain(1, &INDIRECT, AVAILABLE), Answer::Broken(4)),
    (Step::TakeChain(1, &WRITABLE, AVAILABLE), Answer::Broken(5)),
    (Step::TakeChain(1, &SIX_BYTES, AVAILABLE), Answer::Broken(8)),
    (Step::TakeChain(1, &EMPTY, HEAD_IS_8), Answer::Broken(1)),
    (Step::TakeChain(1, &EMPTY, NINE_AHEAD), Answer::Broken(7)),
    (Step::TakeChain(1, &EMPTY, EIGHT_AHEAD), Answer::Broken(8)),
    (
        Step::TakeChain(0, &TO_THE_LAST_BYTE, AVAILABLE),
        Answer::Broken(10),
    ),
    (
        Step::TakeChain(0, &ONE_BYTE_TOO_FAR, AVAILABLE),
        Answer::Broken(6),
    ),
    (
        Step::TakeChain(0, &PAST_ALL_ADDRESSES, AVAILABLE),
        Answer::Broken(6),
    ),
    (
        Step::TakeChain(0, &FOUR_BYTES, AVAILABLE),
        Answer::Head(Some(0)),
    ),
];

const FAULT: &'static [(Step, Answer)] = &[
    (Step::Start, Answer::Done),
    (Step::Write(0, 128, &NINE_AHEAD), Answer::Done),
    (Step::Take(0), Answer::Broken(7)),
    (Step::See(Sight::Status), Answer::Status(79)),
    (Step::Take(0), Answer::Refused(Refusal::NeedsReset)),
    (Step::Take(1), Answer::Refused(Refusal::NeedsReset)),
    (Step::Finish(0, 0), Answer::Refused(Refusal::NeedsReset)),
];

const SEVENTEEN: &'static [(Step, Answer)] = &[
    (Step::Start, Answer::Done),
    (Step::Write(4, 0, &NUMBERS), Answer::Done),
    (Step::Write(0, 0, &SIXTEEN_BYTES), Answer::Done),
    (Step::Write(0, 512, &AVAILABLE), Answer::Done),
    (Step::Write(0, 514, &[17, 0]), Answer::Done),
];

const SIXTEEN_TAKES: &'static [(Step, Answer)] = &[(Step::Take(0), Answer::Head(Some(0))); 16];

const ONE_TOO_MANY: &'static [(Step, Answer)] = &[
    (Step::Take(0), Answer::Refused(Refusal::Busy)),
    (Step::Take(3), Answer::Refused(Refusal::NoQueue)),
];

/// Statistics of 15 bytes.
const FIFTEEN_BYTES: [u8; 16] = [0, 0xc0, 0, 0, 0, 0, 0, 0, 15, 0, 0, 0, 0, 0, 0, 0];

/// Reports that the device may not write, of no bytes, from the middle of a page on, and of page
/// 15.
const REPORT_TO_READ: [u8; 16] = [0, 0, 1, 0, 0, 0, 0, 0, 0, 16, 0, 0, 0, 0, 0, 0];

const REPORT_OF_NOTHING: [u8; 16] = [0, 0, 1, 0, 0, 0, 0, 0, 0, 0, 0, 0, 2, 0, 0, 0];

const REPORT_FROM_THE_MIDDLE: [u8; 16] = [0, 8, 1, 0, 0, 0, 0, 0, 0, 16, 0, 0, 2, 0, 0, 0];

const REPORT_OF_PAGE_15: [u8; 16] = [0, 0xf0, 0, 0, 0, 0, 0, 0, 0, 16, 0, 0, 2, 0, 0, 0];

const OTHER_QUEUES_BROKEN: &'static [(Step, Answer)] = &[
    (Step::TakeChain(2, &WRITABLE, AVAILABLE), Answer::Broken(5)),
    (
        Step::TakeChain(2, &FIFTEEN_BYTES, AVAILABLE),
        Answer::Broken(8),
    ),
    (Step::See(Sight::Status), Answer::Status(79)),
    (Step::TakeChain(2, &EMPTY, NINE_AHEAD), Answer::Broken(7)),
    (
        Step::TakeChain(4, &REPORT_TO_READ, AVAILABLE),
        Answer::Broken(5),
    ),
    (
        Step::TakeChain(4, &REPORT_OF_NOTHING, AVAILABLE),
        Answer::Broken(8),
    ),
    (
        Step::TakeChain(4, &REPORT_FROM_THE_MIDDLE, AVAILABLE),
        Answer::Broken(9),
    ),
    (
        Step::TakeChain(4, &REPORT_OF_PAGE_15, AVAILABLE),
        Answer::Broken(10),
    ),
    (
        Step::TakeChain(4, &REPORT_OF_PAGE_15, HEAD_IS_8),
        Answer::Broken(1),
    ),
    (Step::Take(4), Answer::Refused(Refusal::NeedsReset)),
    (Step::Finish(4, 0), Answer::Refused(Refusal::NeedsReset)),
];

/// Queues whose feature wasn't accepted.
const FEATURES_MISSING: &'static [(Step, Answer)] = &[
    (Step::StartWith(0x1_0000_0007), Answer::Done),
    (Step::Take(4), Answer::Refused(Refusal::NoQueue)),
    (Step::Take(2), Answer::Head(None)),
    (Step::StartWith(0x1_0000_0001), Answer::Done),
    (Step::Take(2), Answer::Refused(Refusal::NoQueue)),
    (Step::Ask, Answer::Refused(Refusal::NotTaken)),
    (Step::See(Sight::Stats), Answer::Stats(None, None)),
    (Step::Take(3), Answer::Refused(Refusal::NoQueue)),
];

/// Numbers 31, 16, 32, 79 and 80.
const BOUNDS: [u8; 20] = [
    31, 0, 0, 0, 16, 0, 0, 0, 32, 0, 0, 0, 79, 0, 0, 0, 80, 0, 0, 0,
];

/// Descriptors of each of them.
const THIRD_NUMBER: [u8; 16] = [8, 0x40, 0, 0, 0, 0, 0, 0, 4, 0, 0, 0, 0, 0, 0, 0];

const SECOND_NUMBER: [u8; 16] = [4, 0x40, 0, 0, 0, 0, 0, 0, 4, 0, 0, 0, 0, 0, 0, 0];

const FOURTH_NUMBER: [u8; 16] = [12, 0x40, 0, 0, 0, 0, 0, 0, 4, 0, 0, 0, 0, 0, 0, 0];

const FIFTH_NUMBER: [u8; 16] = [16, 0x40, 0, 0, 0, 0, 0, 0, 4, 0, 0, 0, 0, 0, 0, 0];

/// Reports of pages 16, 31 and 32, of the last page of 80, and of that one with the next.
const REPORT_OF_PAGE_16: [u8; 16] = [0, 0, 1, 0, 0, 0, 0, 0, 0, 16, 0, 0, 2, 0, 0, 0];

const REPORT_OF_PAGE_31: [u8; 16] = [0, 0xf0, 1, 0, 0, 0, 0, 0, 0, 16, 0, 0, 2, 0, 0, 0];

const REPORT_OF_PAGE_32: [u8; 16] = [0, 0, 2, 0, 0, 0, 0, 0, 0, 16, 0, 0, 2, 0, 0, 0];

const REPORT_OF_PAGE_79: [u8; 16] = [0, 0xf0, 4, 0, 0, 0, 0, 0, 0, 16, 0, 0, 2, 0, 0, 0];

const REPORT_PAST_PAGE_79: [u8; 16] = [0, 0xf0, 4, 0, 0, 0, 0, 0, 0, 32, 0, 0, 2, 0, 0, 0];

/// The bounds of a guest of 80 pages, of which 32 are reserved.
const OF_32_RESERVED: &'static [(Step, Answer)] = &[
    (Step::Write(4, 0, &BOUNDS), Answer::Done),
    (
        Step::TakeChain(0, &FOUR_BYTES, AVAILABLE),
        Answer::Broken(10),
    ),
    (
        Step::TakeChain(0, &SECOND_NUMBER, AVAILABLE),
        Answer::Broken(10),
    ),
    (
        Step::TakeChain(0, &THIRD_NUMBER, AVAILABLE),
        Answer::Head(Some(0)),
    ),
    (
        Step::TakeChain(1, &FOURTH_NUMBER, AVAILABLE),
        Answer::Head(Some(0)),
    ),
    (
        Step::TakeChain(1, &FIFTH_NUMBER, AVAILABLE),
        Answer::Broken(9),
    ),
    (
        Step::TakeChain(4, &REPORT_OF_PAGE_16, AVAILABLE),
        Answer::Broken(10),
    ),
    (
        Step::TakeChain(4, &REPORT_OF_PAGE_31, AVAILABLE),
        Answer::Broken(10),
    ),
    (
        Step::TakeChain(4, &REPORT_OF_PAGE_32, AVAILABLE),
        Answer::Head(Some(0)),
    ),
    (
        Step::TakeChain(4, &REPORT_OF_PAGE_79, AVAILABLE),
        Answer::Head(Some(0)),
    ),
    (
        Step::TakeChain(4, &REPORT_PAST_PAGE_79, AVAILABLE),
        Answer::Broken(6),
    ),
    (
        Step::TakeChain(0, &EMPTY, [0, 0, 1, 0, 0, 1]),
        Answer::Broken(1),
    ),
    (
        Step::TakeChain(0, &EMPTY, [0, 0, 1, 1, 0, 0]),
        Answer::Broken(7),
    ),
];

/// Those of one of which 16 are.
const OF_16_RESERVED: &'static [(Step, Answer)] = &[
    (Step::Write(4, 0, &BOUNDS), Answer::Done),
    (
        Step::TakeChain(0, &FOUR_BYTES, AVAILABLE),
        Answer::Head(Some(0)),
    ),
    (
        Step::TakeChain(0, &SECOND_NUMBER, AVAILABLE),
        Answer::Head(Some(0)),
    ),
    (
        Step::TakeChain(1, &FOURTH_NUMBER, AVAILABLE),
        Answer::Head(Some(0)),
    ),
    (
        Step::TakeChain(1, &FIFTH_NUMBER, AVAILABLE),
        Answer::Broken(9),
    ),
    (
        Step::TakeChain(4, &REPORT_OF_PAGE_15, AVAILABLE),
        Answer::Broken(10),
    ),
    (
        Step::TakeChain(4, &REPORT_OF_PAGE_16, AVAILABLE),
        Answer::Head(Some(0)),
    ),
];

/// What they refuse.
static FAULTS: [Scenario; 7] = [
    ("the broken rule is told", 64, 8, &[BROKEN]),
    ("a fault needs a reset", 64, 8, &[FAULT, INFLATE]),
    (
        "sixteen requests are taken and no more",
        64,
        32,
        &[SEVENTEEN, SIXTEEN_TAKES, ONE_TOO_MANY],
    ),
    (
        "the broken rule of another queue is told",
        64,
        8,
        &[OTHER_QUEUES_BROKEN],
    ),
    ("a queue needs its feature", 64, 8, &[FEATURES_MISSING]),
    ("32 pages of 80 are reserved", 80, 256, &[OF_32_RESERVED]),
    ("16 pages of 80 are reserved", 80, 128, &[OF_16_RESERVED]),
];

#[test]
fn immediate_devices_refuse(rt: HostRuntime) {
    for scenario in &FAULTS {
        expect::<Immediate>(&rt, rt.alloc(), scenario);
    }
}

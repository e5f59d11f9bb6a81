//! Reports of free blocks.

use super::{ALL, AVAILABLE, Answer, DONE, Line, Sight, Step, YES, expect};
use vb_model::Place;
use vb_virtio::Refusal;

static REPORTS: [Line; 22] = [
    (Step::Report(0), Err(Refusal::NotReady)),
    (Step::Reap(4), Err(Refusal::NotReady)),
    (Step::Init(0x1_0000_0007), DONE),
    (Step::Report(0), Err(Refusal::NoFeature)),
    (Step::Reap(4), Err(Refusal::NoFeature)),
    (Step::Reset, DONE),
    (Step::Init(ALL), DONE),
    (Step::Reap(4), Ok(Answer::NoneUsed)),
    (Step::Report(40), Err(Refusal::Nothing)),
    (Step::Report(17), Ok(Answer::Posted(0, 32))),
    (Step::See(Sight::At(Place::Reporting, 32, 64)), YES),
    (Step::See(Sight::At(Place::Free, 16, 32)), YES),
    (Step::Report(0), Err(Refusal::QueueFull)),
    (Step::Alloc(0, 5), Err(Refusal::NoPages)),
    (Step::Use(4, 0, 1), DONE),
    (Step::Reap(4), Ok(Answer::Reaped(0, 32))),
    (Step::See(Sight::Counts(48, 0)), YES),
    (Step::Reap(4), Ok(Answer::NoneUsed)),
    (Step::Alloc(0, 5), Ok(Answer::Page(32))),
    (Step::Report(0), Ok(Answer::Posted(0, 16))),
    (Step::Use(4, 1, 2), DONE),
    (Step::Reap(4), Err(Refusal::RingBroken)),
];

#[test]
fn reports_free_blocks(rt: HostRuntime) {
    expect(&rt, rt.alloc(), 13, &REPORTS);
}

/// A chain of 64 KiB from page 16 on, for the device to write, which goes on at descriptor 1.
const FIRST_BLOCK: [u8; 16] = [0, 0, 1, 0, 0, 0, 0, 0, 0, 0, 1, 0, 3, 0, 1, 0];

/// And of 128 KiB from page 32 on.
const SECOND_BLOCK: [u8; 16] = [0, 0, 2, 0, 0, 0, 0, 0, 0, 0, 2, 0, 2, 0, 0, 0];

static ALL_REPORTED: [Line; 21] = [
    (Step::Init(ALL), DONE),
    (Step::Alloc(0, 0), Ok(Answer::Page(16))),
    (Step::Free(0, 16, 0), DONE),
    (Step::Report(0), Ok(Answer::Posted(0, 48))),
    (Step::See(Sight::At(Place::Reporting, 16, 64)), YES),
    (Step::See(Sight::Shows(3, 0, FIRST_BLOCK)), YES),
    (Step::See(Sight::Shows(3, 16, SECOND_BLOCK)), YES),
    (Step::See(Sight::Shows(3, 128, AVAILABLE)), YES),
    (Step::Alloc(0, 0), Err(Refusal::NoPages)),
    (Step::See(Sight::Actual), Ok(Answer::Number(0))),
    (Step::Use(4, 0, 1), DONE),
    (Step::Reap(4), Ok(Answer::Reaped(0, 48))),
    (Step::See(Sight::Counts(48, 0)), YES),
    (Step::See(Sight::Told), Ok(Answer::Number(0))),
    (Step::Report(0), Ok(Answer::Posted(0, 48))),
    (Step::Reset, DONE),
    (Step::See(Sight::Counts(48, 0)), YES),
    (Step::Alloc(0, 5), Ok(Answer::Page(32))),
    (Step::Free(0, 32, 5), DONE),
    (Step::Init(ALL), DONE),
    (Step::Report(0), Ok(Answer::Posted(0, 48))),
];

#[test]
fn hands_no_reported_page_out(rt: HostRuntime) {
    expect(&rt, rt.alloc(), 13, &ALL_REPORTED);
}

//! Blocks of pages, and what is refused before a driver is up.

use super::{ALL, Answer, DONE, Line, NO, Sight, Step, YES, expect};
use vb_model::Place;
use vb_virtio::Refusal;

static BLOCKS: [Line; 16] = [
    (Step::See(Sight::Counts(48, 0)), YES),
    (Step::See(Sight::At(Place::Reserved, 0, 16)), YES),
    (Step::See(Sight::At(Place::Free, 16, 64)), YES),
    (Step::See(Sight::At(Place::Reserved, 64, 65)), YES),
    (Step::See(Sight::Actual), Ok(Answer::Number(0))),
    (Step::Alloc(0, 0), Ok(Answer::Page(16))),
    (Step::See(Sight::Counts(47, 1)), YES),
    (Step::See(Sight::Held(16)), YES),
    (Step::See(Sight::Held(17)), NO),
    (Step::Free(0, 16, 0), DONE),
    (Step::See(Sight::Counts(48, 0)), YES),
    (Step::Alloc(0, 0), Ok(Answer::Page(16))),
    (Step::Alloc(0, 5), Ok(Answer::Page(32))),
    (Step::See(Sight::Counts(15, 33)), YES),
    (Step::Init(ALL), Err(Refusal::NoFrame)),
    (Step::See(Sight::Status), Ok(Answer::Number(0))),
];

#[test]
fn hands_blocks_out(rt: HostRuntime) {
    expect(&rt, rt.alloc(), 0, &BLOCKS);
}

static REFUSALS: [Line; 17] = [
    (Step::Alloc(0, 10), Err(Refusal::BadOrder)),
    (Step::Alloc(1, 0), Err(Refusal::BadCpu)),
    (Step::Alloc(0, 9), Err(Refusal::NoPages)),
    (Step::Free(0, 16, 0), Err(Refusal::NotHeld)),
    (Step::Alloc(0, 1), Ok(Answer::Page(16))),
    (Step::Free(0, 16, 0), Err(Refusal::NotHeld)),
    (Step::Free(0, 16, 10), Err(Refusal::BadOrder)),
    (Step::Free(1, 16, 1), Err(Refusal::BadCpu)),
    (Step::See(Sight::Counts(46, 2)), YES),
    (Step::Inflate(1), Err(Refusal::NotReady)),
    (Step::Deflate(1), Err(Refusal::NotReady)),
    (Step::Oom(1), Err(Refusal::NotReady)),
    (Step::Reap(0), Err(Refusal::NotReady)),
    (Step::Reap(1), Err(Refusal::NotReady)),
    (Step::Reap(2), Err(Refusal::NoQueue)),
    (Step::Init(0), Err(Refusal::NoFrame)),
    (Step::See(Sight::Status), Ok(Answer::Number(0))),
];

#[test]
fn refuses_before_an_initialisation(rt: HostRuntime) {
    expect(&rt, rt.alloc(), 12, &REFUSALS);
}

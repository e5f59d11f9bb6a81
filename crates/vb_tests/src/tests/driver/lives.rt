//! Initialisations, resets, and new lives of a guest.

use super::{ALL, Answer, DONE, Line, Sight, Step, YES, expect};
use vb_model::Place;
use vb_virtio::Refusal;

static LIVES: [Line; 22] = [
    (Step::Alloc(0, 3), Ok(Answer::Page(16))),
    (Step::Reset, DONE),
    (Step::See(Sight::Counts(40, 8)), YES),
    (Step::See(Sight::Status), Ok(Answer::Number(0))),
    (Step::Init(0x26), Err(Refusal::VersionMissing)),
    (Step::See(Sight::Status), Ok(Answer::Number(131))),
    (Step::Reset, DONE),
    (Step::Init(0x1_0000_0067), Err(Refusal::FeatureNotOffered)),
    (Step::See(Sight::Status), Ok(Answer::Number(131))),
    (Step::Reset, DONE),
    (Step::Init(0x27), Err(Refusal::VersionMissing)),
    (Step::See(Sight::Status), Ok(Answer::Number(131))),
    (Step::Reset, DONE),
    (Step::Init(0x1_0000_0001), DONE),
    (Step::See(Sight::Status), Ok(Answer::Number(15))),
    (Step::Oom(1), Err(Refusal::NoFeature)),
    (Step::Reset, DONE),
    (Step::Init(ALL), DONE),
    (Step::See(Sight::Status), Ok(Answer::Number(15))),
    (Step::See(Sight::Features), Ok(Answer::Number(ALL))),
    (Step::Init(ALL), Err(Refusal::AlreadyUp)),
    (Step::See(Sight::Status), Ok(Answer::Number(15))),
];

#[test]
fn starts_and_starts_over(rt: HostRuntime) {
    expect(&rt, rt.alloc(), 13, &LIVES);
}

/// A new life begins with a block held, pages lent, a request out and pages in a processor's list.
static NEW_LIFE: [Line; 18] = [
    (Step::Alloc(0, 3), Ok(Answer::Page(16))),
    (Step::SetTarget(8), DONE),
    (Step::Init(ALL), DONE),
    (Step::Inflate(4), Ok(Answer::Posted(0, 4))),
    (Step::Use(0, 0, 1), DONE),
    (Step::Reap(0), Ok(Answer::Reaped(0, 4))),
    (Step::Inflate(4), Ok(Answer::Posted(0, 4))),
    (Step::Alloc(0, 0), Ok(Answer::Page(32))),
    (Step::Restart, DONE),
    (Step::See(Sight::At(Place::Free, 16, 64)), YES),
    (Step::See(Sight::Counts(48, 0)), YES),
    (Step::See(Sight::Status), Ok(Answer::Number(0))),
    (Step::Free(0, 16, 3), Err(Refusal::NotHeld)),
    (Step::Inflate(1), Err(Refusal::NotReady)),
    (Step::Alloc(0, 5), Ok(Answer::Page(32))),
    (Step::Alloc(0, 0), Ok(Answer::Page(16))),
    (Step::Init(ALL), DONE),
    (Step::Inflate(1), Ok(Answer::Posted(0, 1))),
];

#[test]
fn begins_a_new_life(rt: HostRuntime) {
    expect(&rt, rt.alloc(), 13, &NEW_LIFE);
}

/// Pages 16 to 19, as the buffer of a request has them.
const FOUR: [u8; 16] = [16, 0, 0, 0, 17, 0, 0, 0, 18, 0, 0, 0, 19, 0, 0, 0];

/// Pages 18 and 19 in a buffer that no request had before.
const TWO: [u8; 16] = [18, 0, 0, 0, 19, 0, 0, 0, 0, 0, 0, 0, 0, 0, 0, 0];

static STRANDED: [Line; 19] = [
    (Step::SetTarget(4), DONE),
    (Step::Init(ALL), DONE),
    (Step::Inflate(4), Ok(Answer::Posted(0, 4))),
    (Step::Use(0, 0, 1), DONE),
    (Step::Reap(0), Ok(Answer::Reaped(0, 4))),
    (Step::See(Sight::At(Place::Lent, 16, 20)), YES),
    (Step::See(Sight::At(Place::Free, 20, 64)), YES),
    (Step::See(Sight::Told), Ok(Answer::Number(4))),
    (Step::Reset, DONE),
    (Step::See(Sight::At(Place::Stranded, 16, 20)), YES),
    (Step::See(Sight::Status), Ok(Answer::Number(0))),
    (Step::Inflate(1), Err(Refusal::NotReady)),
    (Step::SetTarget(0), DONE),
    (Step::Init(ALL), DONE),
    (Step::Inflate(2), Ok(Answer::Posted(0, 2))),
    (Step::See(Sight::Shows(4, 0, FOUR)), YES),
    (Step::Inflate(256), Ok(Answer::Posted(1, 2))),
    (Step::See(Sight::Shows(4, 1024, TWO)), YES),
    (Step::Inflate(1), Err(Refusal::Nothing)),
];

#[test]
fn offers_stranded_pages_first(rt: HostRuntime) {
    expect(&rt, rt.alloc(), 13, &STRANDED);
}

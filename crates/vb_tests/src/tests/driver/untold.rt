//! Drivers that don't tell the host: pages requested back are free at once, and no inflate
//! overtakes the request that names them.

use super::{ALL, Answer, DONE, Line, Sight, Step, YES, expect};
use vb_model::Place;
use vb_virtio::Refusal;

/// All that a device offers but MUST_TELL_HOST.
const UNTOLD: u64 = 0x1_0000_0026;

/// Of four lent pages two are requested back and used, while their request is posted and then used.
static BACK: [Line; 30] = [
    (Step::SetTarget(4), DONE),
    (Step::Init(UNTOLD), DONE),
    (Step::See(Sight::Status), Ok(Answer::Number(15))),
    (Step::See(Sight::Features), Ok(Answer::Number(UNTOLD))),
    (Step::Inflate(4), Ok(Answer::Posted(0, 4))),
    (Step::Use(0, 0, 1), DONE),
    (Step::Reap(0), Ok(Answer::Reaped(0, 4))),
    (Step::See(Sight::Told), Ok(Answer::Number(4))),
    (Step::SetTarget(2), DONE),
    (Step::Deflate(4), Ok(Answer::Posted(0, 2))),
    (Step::See(Sight::At(Place::Free, 16, 18)), YES),
    (Step::See(Sight::At(Place::Lent, 18, 20)), YES),
    (Step::See(Sight::Actual), Ok(Answer::Number(4))),
    (Step::See(Sight::Told), Ok(Answer::Number(4))),
    (Step::Inflate(1), Err(Refusal::DeflatePending)),
    (Step::Alloc(0, 0), Ok(Answer::Page(16))),
    (Step::Alloc(0, 0), Ok(Answer::Page(17))),
    (Step::Reap(1), Ok(Answer::NoneUsed)),
    (Step::Use(1, 0, 1), DONE),
    (Step::Inflate(1), Err(Refusal::DeflatePending)),
    (Step::See(Sight::Told), Ok(Answer::Number(4))),
    (Step::Reap(1), Ok(Answer::Reaped(0, 2))),
    (Step::See(Sight::At(Place::Used, 16, 18)), YES),
    (Step::See(Sight::At(Place::Lent, 18, 20)), YES),
    (Step::See(Sight::Actual), Ok(Answer::Number(2))),
    (Step::See(Sight::Told), Ok(Answer::Number(2))),
    (Step::Inflate(1), Err(Refusal::Nothing)),
    (Step::SetTarget(3), DONE),
    (Step::Inflate(1), Ok(Answer::Posted(0, 1))),
    (Step::See(Sight::At(Place::Giving, 20, 21)), YES),
];

#[test]
fn uses_pages_before_the_host_knows(rt: HostRuntime) {
    expect(&rt, rt.alloc(), 13, &BACK);
}

/// A full queue of inflates is told before the deflate that is out.
static FULL: [Line; 27] = [
    (Step::SetTarget(9), DONE),
    (Step::Init(UNTOLD), DONE),
    (Step::Inflate(1), Ok(Answer::Posted(0, 1))),
    (Step::Use(0, 0, 1), DONE),
    (Step::Reap(0), Ok(Answer::Reaped(0, 1))),
    (Step::Inflate(1), Ok(Answer::Posted(0, 1))),
    (Step::Inflate(1), Ok(Answer::Posted(1, 1))),
    (Step::Inflate(1), Ok(Answer::Posted(2, 1))),
    (Step::Inflate(1), Ok(Answer::Posted(3, 1))),
    (Step::Inflate(1), Ok(Answer::Posted(4, 1))),
    (Step::Inflate(1), Ok(Answer::Posted(5, 1))),
    (Step::Inflate(1), Ok(Answer::Posted(6, 1))),
    (Step::Inflate(1), Ok(Answer::Posted(7, 1))),
    (Step::Oom(1), Ok(Answer::Posted(0, 1))),
    (Step::See(Sight::At(Place::Free, 16, 17)), YES),
    (Step::Inflate(1), Err(Refusal::QueueFull)),
    (Step::Use(0, 0, 2), DONE),
    (Step::Inflate(1), Err(Refusal::QueueFull)),
    (Step::Reap(0), Ok(Answer::Reaped(0, 1))),
    (Step::Inflate(1), Err(Refusal::DeflatePending)),
    (Step::Use(1, 0, 1), DONE),
    (Step::Inflate(1), Err(Refusal::DeflatePending)),
    (Step::Reap(1), Ok(Answer::Reaped(0, 1))),
    (Step::See(Sight::At(Place::Free, 16, 17)), YES),
    (Step::Inflate(1), Ok(Answer::Posted(0, 1))),
    (Step::See(Sight::At(Place::Giving, 16, 17)), YES),
    (Step::See(Sight::At(Place::Lent, 17, 18)), YES),
];

#[test]
fn tells_a_full_queue_first(rt: HostRuntime) {
    expect(&rt, rt.alloc(), 13, &FULL);
}

/// Two pages are requested back one after the other, and the second request comes back first.
static OOM: [Line; 31] = [
    (Step::SetTarget(48), DONE),
    (Step::Init(UNTOLD), DONE),
    (Step::Inflate(256), Ok(Answer::Posted(0, 48))),
    (Step::Alloc(0, 0), Err(Refusal::NoPages)),
    (Step::Use(0, 0, 1), DONE),
    (Step::Reap(0), Ok(Answer::Reaped(0, 48))),
    (Step::Deflate(1), Err(Refusal::Nothing)),
    (Step::Oom(1), Ok(Answer::Posted(0, 1))),
    (Step::See(Sight::At(Place::Free, 16, 17)), YES),
    (Step::See(Sight::Actual), Ok(Answer::Number(48))),
    (Step::See(Sight::Told), Ok(Answer::Number(48))),
    (Step::Alloc(0, 0), Ok(Answer::Page(16))),
    (Step::Oom(1), Ok(Answer::Posted(1, 1))),
    (Step::Alloc(0, 0), Ok(Answer::Page(17))),
    (Step::Inflate(1), Err(Refusal::DeflatePending)),
    (Step::Use(1, 1, 1), DONE),
    (Step::Reap(1), Ok(Answer::Reaped(1, 1))),
    (Step::See(Sight::Actual), Ok(Answer::Number(47))),
    (Step::See(Sight::Told), Ok(Answer::Number(47))),
    (Step::Inflate(1), Err(Refusal::DeflatePending)),
    (Step::Use(1, 0, 2), DONE),
    (Step::Reap(1), Ok(Answer::Reaped(0, 1))),
    (Step::See(Sight::At(Place::Used, 16, 18)), YES),
    (Step::See(Sight::Actual), Ok(Answer::Number(46))),
    (Step::See(Sight::Told), Ok(Answer::Number(46))),
    (Step::Inflate(1), Err(Refusal::Nothing)),
    (Step::Free(0, 16, 0), DONE),
    (Step::Inflate(2), Ok(Answer::Posted(0, 1))),
    (Step::See(Sight::At(Place::Giving, 16, 17)), YES),
    (Step::See(Sight::At(Place::Used, 17, 18)), YES),
    (Step::See(Sight::At(Place::Lent, 18, 64)), YES),
];

#[test]
fn uses_pages_at_once_out_of_memory(rt: HostRuntime) {
    expect(&rt, rt.alloc(), 13, &OOM);
}

/// A reset strands no page that a deflate names, and the next start may tell the host.
static RESETS: [Line; 40] = [
    (Step::SetTarget(4), DONE),
    (Step::Init(UNTOLD), DONE),
    (Step::Inflate(4), Ok(Answer::Posted(0, 4))),
    (Step::Use(0, 0, 1), DONE),
    (Step::Reap(0), Ok(Answer::Reaped(0, 4))),
    (Step::SetTarget(0), DONE),
    (Step::Deflate(2), Ok(Answer::Posted(0, 2))),
    (Step::Alloc(0, 0), Ok(Answer::Page(16))),
    (Step::Reset, DONE),
    (Step::See(Sight::At(Place::Used, 16, 17)), YES),
    (Step::See(Sight::At(Place::Free, 17, 18)), YES),
    (Step::See(Sight::At(Place::Stranded, 18, 20)), YES),
    (Step::See(Sight::Actual), Ok(Answer::Number(0))),
    (Step::See(Sight::Told), Ok(Answer::Number(0))),
    (Step::SetTarget(0), DONE),
    (Step::Init(UNTOLD), DONE),
    (Step::Inflate(4), Ok(Answer::Posted(0, 2))),
    (Step::See(Sight::At(Place::Giving, 18, 20)), YES),
    (Step::Reset, DONE),
    (Step::SetTarget(0), DONE),
    (Step::Init(ALL), DONE),
    (Step::Inflate(4), Ok(Answer::Posted(0, 2))),
    (Step::Use(0, 0, 1), DONE),
    (Step::Reap(0), Ok(Answer::Reaped(0, 2))),
    (Step::Deflate(1), Ok(Answer::Posted(0, 1))),
    (Step::See(Sight::At(Place::Taking, 18, 19)), YES),
    (Step::SetTarget(4), DONE),
    (Step::Inflate(1), Ok(Answer::Posted(0, 1))),
    (Step::Restart, DONE),
    (Step::SetTarget(1), DONE),
    (Step::Init(UNTOLD), DONE),
    (Step::Inflate(1), Ok(Answer::Posted(0, 1))),
    (Step::Use(0, 0, 1), DONE),
    (Step::Reap(0), Ok(Answer::Reaped(0, 1))),
    (Step::Oom(1), Ok(Answer::Posted(0, 1))),
    (Step::Restart, DONE),
    (Step::See(Sight::Counts(48, 0)), YES),
    (Step::See(Sight::Actual), Ok(Answer::Number(0))),
    (Step::Init(UNTOLD), DONE),
    (Step::Reap(1), Ok(Answer::NoneUsed)),
];

#[test]
fn starts_over_while_a_deflate_is_out(rt: HostRuntime) {
    expect(&rt, rt.alloc(), 13, &RESETS);
}

/// The driver asks for VERSION_1 and for nothing else.
static BARE: [Line; 9] = [
    (Step::SetTarget(1), DONE),
    (Step::Init(0x1_0000_0000), DONE),
    (Step::Inflate(1), Ok(Answer::Posted(0, 1))),
    (Step::Use(0, 0, 1), DONE),
    (Step::Reap(0), Ok(Answer::Reaped(0, 1))),
    (Step::Oom(1), Err(Refusal::NoFeature)),
    (Step::Report(0), Err(Refusal::NoFeature)),
    (Step::Stats, Err(Refusal::NoFeature)),
    (Step::Reap(4), Err(Refusal::NoFeature)),
];

#[test]
fn needs_no_feature_but_the_version(rt: HostRuntime) {
    expect(&rt, rt.alloc(), 13, &BARE);
}

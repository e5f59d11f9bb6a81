//! Inflates and deflates, and how their requests come back.

use super::{ALL, AVAILABLE, Answer, DONE, Line, Sight, Step, YES, expect};
use vb_model::Place;
use vb_virtio::Refusal;

/// A request for pages 17 to 20.
const NUMBERS: [u8; 16] = [17, 0, 0, 0, 18, 0, 0, 0, 19, 0, 0, 0, 20, 0, 0, 0];

/// A descriptor of 16 bytes at address 0x4000 that the device reads, with no other after it.
const DESCRIPTOR: [u8; 16] = [0, 0x40, 0, 0, 0, 0, 0, 0, 16, 0, 0, 0, 0, 0, 0, 0];

static REQUEST: [Line; 7] = [
    (Step::SetTarget(4), DONE),
    (Step::Init(ALL), DONE),
    (Step::Alloc(0, 0), Ok(Answer::Page(16))),
    (Step::Inflate(4), Ok(Answer::Posted(0, 4))),
    (Step::See(Sight::Shows(4, 0, NUMBERS)), YES),
    (Step::See(Sight::Shows(0, 0, DESCRIPTOR)), YES),
    (Step::See(Sight::Shows(0, 128, AVAILABLE)), YES),
];

#[test]
fn a_request_is_the_standards_bytes(rt: HostRuntime) {
    expect(&rt, rt.alloc(), 13, &REQUEST);
}

static BACK: [Line; 22] = [
    (Step::SetTarget(48), DONE),
    (Step::Init(ALL), DONE),
    (Step::Inflate(256), Ok(Answer::Posted(0, 48))),
    (Step::Alloc(0, 0), Err(Refusal::NoPages)),
    (Step::Use(0, 0, 1), DONE),
    (Step::Reap(0), Ok(Answer::Reaped(0, 48))),
    (Step::Deflate(1), Err(Refusal::Nothing)),
    (Step::Oom(1), Ok(Answer::Posted(0, 1))),
    (Step::See(Sight::At(Place::Taking, 16, 17)), YES),
    (Step::Alloc(0, 0), Err(Refusal::NoPages)),
    (Step::Use(1, 0, 1), DONE),
    (Step::See(Sight::Told), Ok(Answer::Number(48))),
    (Step::Reap(1), Ok(Answer::Reaped(0, 1))),
    (Step::See(Sight::Actual), Ok(Answer::Number(47))),
    (Step::See(Sight::Told), Ok(Answer::Number(47))),
    (Step::Alloc(0, 0), Ok(Answer::Page(16))),
    (Step::SetTarget(40), DONE),
    (Step::Deflate(256), Ok(Answer::Posted(0, 7))),
    (Step::See(Sight::At(Place::Taking, 17, 24)), YES),
    (Step::See(Sight::At(Place::Lent, 24, 64)), YES),
    (Step::Deflate(1), Err(Refusal::Nothing)),
    (Step::Reap(1), Ok(Answer::NoneUsed)),
];

#[test]
fn asks_pages_back(rt: HostRuntime) {
    expect(&rt, rt.alloc(), 13, &BACK);
}

static ORDER: [Line; 18] = [
    (Step::SetTarget(3), DONE),
    (Step::Init(ALL), DONE),
    (Step::Inflate(1), Ok(Answer::Posted(0, 1))),
    (Step::Inflate(1), Ok(Answer::Posted(1, 1))),
    (Step::Inflate(1), Ok(Answer::Posted(2, 1))),
    (Step::Inflate(1), Err(Refusal::Nothing)),
    (Step::Use(0, 2, 1), DONE),
    (Step::Use(0, 0, 2), DONE),
    (Step::Use(0, 1, 3), DONE),
    (Step::Reap(0), Ok(Answer::Reaped(2, 1))),
    (Step::Reap(0), Ok(Answer::Reaped(0, 1))),
    (Step::Reap(0), Ok(Answer::Reaped(1, 1))),
    (Step::Reap(0), Ok(Answer::NoneUsed)),
    (Step::See(Sight::At(Place::Lent, 16, 19)), YES),
    (Step::Use(0, 0, 4), DONE),
    (Step::Reap(0), Err(Refusal::RingBroken)),
    (Step::See(Sight::Status), Ok(Answer::Number(143))),
    (Step::Reap(0), Err(Refusal::NotReady)),
];

#[test]
fn reaps_in_the_devices_order(rt: HostRuntime) {
    expect(&rt, rt.alloc(), 13, &ORDER);
}

static FULL: [Line; 11] = [
    (Step::SetTarget(9), DONE),
    (Step::Init(ALL), DONE),
    (Step::Inflate(1), Ok(Answer::Posted(0, 1))),
    (Step::Inflate(1), Ok(Answer::Posted(1, 1))),
    (Step::Inflate(1), Ok(Answer::Posted(2, 1))),
    (Step::Inflate(1), Ok(Answer::Posted(3, 1))),
    (Step::Inflate(1), Ok(Answer::Posted(4, 1))),
    (Step::Inflate(1), Ok(Answer::Posted(5, 1))),
    (Step::Inflate(1), Ok(Answer::Posted(6, 1))),
    (Step::Inflate(1), Ok(Answer::Posted(7, 1))),
    (Step::Inflate(1), Err(Refusal::QueueFull)),
];

#[test]
fn has_as_many_requests_as_descriptors(rt: HostRuntime) {
    expect(&rt, rt.alloc(), 13, &FULL);
}

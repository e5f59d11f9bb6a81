//! The statistics buffer.

use super::{ALL, AVAILABLE, Answer, DONE, Line, NO, Sight, Step, YES, expect};
use vb_virtio::Refusal;

/// The descriptor of the statistics buffer: 20 bytes at address 0xc000 that the device reads.
const FIGURES_AT: [u8; 16] = [0, 0xc0, 0, 0, 0, 0, 0, 0, 20, 0, 0, 0, 0, 0, 0, 0];

/// How the buffer begins with 48, 44 and 32 free pages: tag 4, their bytes, and tag 5.
const FREE_48: [u8; 16] = [4, 0, 0, 0, 3, 0, 0, 0, 0, 0, 5, 0, 0, 0, 4, 0];

const FREE_44: [u8; 16] = [4, 0, 0, 0xc0, 2, 0, 0, 0, 0, 0, 5, 0, 0, 0, 4, 0];

const FREE_32: [u8; 16] = [4, 0, 0, 0, 2, 0, 0, 0, 0, 0, 5, 0, 0, 0, 4, 0];

/// What follows: the rest of the bytes of all 64 pages, and nothing.
const ALL_64: [u8; 16] = [4, 0, 0, 0, 0, 0, 0, 0, 0, 0, 0, 0, 0, 0, 0, 0];

/// An available ring in which head 0 was published twice.
const AVAILABLE_AGAIN: [u8; 16] = [0, 0, 2, 0, 0, 0, 0, 0, 0, 0, 0, 0, 0, 0, 0, 0];

const ZEROS: [u8; 16] = [0; 16];

static STATISTICS: [Line; 19] = [
    (Step::Stats, Err(Refusal::NotReady)),
    (Step::Init(ALL), DONE),
    (Step::See(Sight::Shows(2, 0, FIGURES_AT)), YES),
    (Step::See(Sight::Shows(2, 128, AVAILABLE)), YES),
    (Step::See(Sight::Shows(12, 0, FREE_48)), YES),
    (Step::See(Sight::Shows(12, 14, ALL_64)), YES),
    (Step::Alloc(0, 4), Ok(Answer::Page(16))),
    (Step::Stats, NO),
    (Step::See(Sight::Shows(12, 0, FREE_48)), YES),
    (Step::See(Sight::Shows(2, 128, AVAILABLE)), YES),
    (Step::Use(2, 0, 1), DONE),
    (Step::Stats, YES),
    (Step::See(Sight::Shows(12, 0, FREE_32)), YES),
    (Step::See(Sight::Shows(2, 128, AVAILABLE_AGAIN)), YES),
    (Step::Stats, NO),
    (Step::Use(2, 0, 2), DONE),
    (Step::Stats, YES),
    (Step::Reset, DONE),
    (Step::Stats, Err(Refusal::NotReady)),
];

#[test]
fn fills_the_statistics_buffer(rt: HostRuntime) {
    expect(&rt, rt.alloc(), 13, &STATISTICS);
}

static NO_STATISTICS: [Line; 8] = [
    (Step::Init(0x1_0000_0001), DONE),
    (Step::See(Sight::Shows(2, 0, ZEROS)), YES),
    (Step::See(Sight::Shows(2, 128, ZEROS)), YES),
    (Step::See(Sight::Shows(12, 0, ZEROS)), YES),
    (Step::Stats, Err(Refusal::NoFeature)),
    (Step::Use(2, 0, 1), DONE),
    (Step::Stats, Err(Refusal::NoFeature)),
    (Step::See(Sight::Status), Ok(Answer::Number(15))),
];

#[test]
fn has_no_statistics_without_the_feature(rt: HostRuntime) {
    expect(&rt, rt.alloc(), 13, &NO_STATISTICS);
}

static BROKEN_STATISTICS: [Line; 15] = [
    (Step::SetTarget(4), DONE),
    (Step::Init(ALL), DONE),
    (Step::Use(2, 0, 2), DONE),
    (Step::Stats, Err(Refusal::RingBroken)),
    (Step::See(Sight::Status), Ok(Answer::Number(143))),
    (Step::Stats, Err(Refusal::NotReady)),
    (Step::Reset, DONE),
    (Step::Init(ALL), DONE),
    (Step::Inflate(4), Ok(Answer::Posted(0, 4))),
    (Step::Use(2, 1, 1), DONE),
    (Step::Stats, Err(Refusal::RingBroken)),
    (Step::See(Sight::Status), Ok(Answer::Number(143))),
    (Step::Reset, DONE),
    (Step::Init(ALL), DONE),
    (Step::See(Sight::Shows(12, 0, FREE_44)), YES),
];

#[test]
fn gives_up_on_a_broken_ring_of_statistics(rt: HostRuntime) {
    expect(&rt, rt.alloc(), 13, &BROKEN_STATISTICS);
}

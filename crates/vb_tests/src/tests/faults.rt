//! What the libraries' faults show, each by its words.

use std::alloc::Global;
use std::fmt::Display;
use std::io::Write;
use vb_chain::ChainFault;
use vb_frames::Refused;
use vb_pages::PageFault;
use vb_ram::RamFault;
use vb_script::ScriptFault;
use vb_status::StatusFault;

/// Whether a fault shows as this text.
fn shows<T: Display>(alloc: Global, fault: &T, expected: &str) -> bool {
    let mut text = Vec::new(alloc);
    write!(text, "{fault}").is_ok() && text.as_slice() == expected.as_bytes()
}

/// The first of these faults that shows otherwise, by its place.
fn first_wrong<T: Display>(alloc: Global, faults: &[(T, &str)]) -> Option<usize> {
    for place in 0..faults.len() {
        let (fault, text) = &faults[place];
        if !shows(alloc, fault, text) {
            return Some(place);
        }
    }
    None
}

static RAM: [(RamFault, &str); 4] = [
    (RamFault::OutOfRam, "out of guest memory"),
    (RamFault::NeedsFrame, "the page has no frame"),
    (RamFault::AlreadyBacked, "the page has a frame already"),
    (RamFault::Memory, "out of memory"),
];

static CHAINS: [(ChainFault, &str); 10] = [
    (
        ChainFault::BadHead,
        "the head is no descriptor of the queue",
    ),
    (
        ChainFault::BadNext,
        "a next field names no descriptor of the queue",
    ),
    (ChainFault::TooLong, "the chain is longer than the queue"),
    (ChainFault::Indirect, "an indirect descriptor"),
    (
        ChainFault::WrongDirection,
        "a piece has the wrong direction",
    ),
    (ChainFault::OutOfRam, "a buffer is out of guest memory"),
    (ChainFault::IndexJump, "the available index has jumped"),
    (
        ChainFault::BadLength,
        "a length that the queue doesn't take",
    ),
    (ChainFault::BadPage, "no such page"),
    (ChainFault::ReservedPage, "a reserved page"),
];

static STATUSES: [(StatusFault, &str); 5] = [
    (
        StatusFault::ClearsBit,
        "the write clears a bit of the status",
    ),
    (
        StatusFault::OutOfOrder,
        "the write leaves the order of the steps",
    ),
    (
        StatusFault::FeatureNotOffered,
        "the device lacks a feature that is wanted",
    ),
    (
        StatusFault::MustTellHostMissing,
        "MUST_TELL_HOST isn't negotiated",
    ),
    (StatusFault::VersionMissing, "VERSION_1 isn't negotiated"),
];

static PAGES: [(PageFault, &str); 4] = [
    (PageFault::BadOrder, "no block has this order"),
    (PageFault::BadCpu, "no such processor"),
    (PageFault::NoPages, "no block of this order is free"),
    (PageFault::NotHeld, "no allocation has just this block"),
];

static KEEPERS: [(Refused, &str); 2] = [
    (Refused::NoFrame, "all frames are out"),
    (Refused::Memory, "out of memory"),
];

static SCRIPTS: [(ScriptFault, &str); 3] = [
    (ScriptFault::BadLine(1), "line 1: bad line"),
    (
        ScriptFault::BadLine(u64::MAX),
        "line 18446744073709551615: bad line",
    ),
    (ScriptFault::Memory, "memory"),
];

#[test]
fn faults_show_their_words(rt: HostRuntime) {
    let alloc = rt.alloc();
    assert!(rt; first_wrong(alloc, &RAM).is_none());
    assert!(rt; first_wrong(alloc, &CHAINS).is_none());
    assert!(rt; first_wrong(alloc, &STATUSES).is_none());
    assert!(rt; first_wrong(alloc, &PAGES).is_none());
    assert!(rt; first_wrong(alloc, &KEEPERS).is_none());
    assert!(rt; first_wrong(alloc, &SCRIPTS).is_none());
}

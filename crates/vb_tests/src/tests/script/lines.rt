//! Each line of the format, and each way to be none.

use std::alloc::{AllocError, Global};
use vb_model::{Call, Event, Place, Query};
use vb_script::{Pace, Script, ScriptFault, parse};

/// Lines of events, each with its numbers in order, and its bytes. Numbers that a line lacks are 0.
static EVENTS: [(&str, [u32; 4], &[u8]); 25] = [
    ("plug 64 8 1", [64, 8, 1, 0], b""),
    ("unplug 7", [7, 0, 0, 0], b""),
    ("restart 7", [7, 0, 0, 0], b""),
    ("balance 16", [16, 0, 0, 0], b""),
    ("frames", [0, 0, 0, 0], b""),
    ("reset 7", [7, 0, 0, 0], b""),
    ("inflate 7 3", [7, 3, 0, 0], b""),
    ("deflate 7 3", [7, 3, 0, 0], b""),
    ("oom 7 3", [7, 3, 0, 0], b""),
    ("report 7 16", [7, 16, 0, 0], b""),
    ("stats 7", [7, 0, 0, 0], b""),
    ("reap 7 4", [7, 4, 0, 0], b""),
    ("take 7 1", [7, 1, 0, 0], b""),
    ("work 7", [7, 0, 0, 0], b""),
    ("finish 7 1 2", [7, 1, 2, 0], b""),
    ("serve 7 20", [7, 20, 0, 0], b""),
    ("sweep 7 20", [7, 20, 0, 0], b""),
    ("ask 7", [7, 0, 0, 0], b""),
    ("target 7 4", [7, 4, 0, 0], b""),
    ("alloc 7 1 5", [7, 1, 5, 0], b""),
    ("free 7 1 32 5", [7, 1, 32, 5], b""),
    ("read 7 16 4092 4", [7, 16, 4092, 4], b""),
    ("write 7 16 2 abCDe0", [7, 16, 2, 0], &[0xab, 0xcd, 0xe0]),
    ("write 7 16 0 ab", [7, 16, 0, 0], &[0xab]),
    ("scribble 7 0 130 0900", [7, 0, 130, 0], &[9, 0]),
];

/// A line's name, its numbers in order, and its bytes. Numbers that it lacks are 0.
pub type Shown<'a> = (&'static str, [u32; 4], &'a [u8]);

/// What the line of an event shows.
fn shown(event: &Event) -> Shown<'_> {
    match event {
        Event::Plug { size } => (
            "plug",
            [size.pages, size.queue_size, size.processors, 0],
            &[],
        ),
        Event::Unplug { guest } => ("unplug", [*guest, 0, 0, 0], &[]),
        Event::Restart { guest } => ("restart", [*guest, 0, 0, 0], &[]),
        Event::Balance { floor } => ("balance", [*floor, 0, 0, 0], &[]),
        Event::Frames => ("frames", [0; 4], &[]),
        Event::Guest { guest, call } => shown_on(*guest, call),
        Event::Query { .. } => ("?", [0; 4], &[]),
    }
}

/// What the line of a call on a guest shows.
pub fn shown_on(guest: u32, call: &Call) -> Shown<'_> {
    match call {
        Call::Write { page, at, bytes } => ("write", [guest, *page, *at, 0], bytes.as_slice()),
        Call::Scribble { page, at, bytes } => (
            "scribble",
            [guest, *page, *at, 0],
            bytes.as_slice(),
        ),
        _ => shown_call(guest, call),
    }
}

/// The name of a call without bytes, and the numbers of its line.
fn shown_call(guest: u32, call: &Call) -> Shown<'static> {
    match call {
        Call::Finish { queue, index } => ("finish", [guest, *queue, *index, 0], &[]),
        Call::Alloc { cpu, order } => ("alloc", [guest, *cpu, *order, 0], &[]),
        Call::Free { cpu, start, order } => ("free", [guest, *cpu, *start, *order], &[]),
        Call::Read { page, at, len } => ("read", [guest, *page, *at, *len], &[]),
        _ => {
            let (name, number) = shown_small(call);
            (name, [guest, number, 0, 0], &[])
        }
    }
}

/// The name of a call with one number or none, and the number.
fn shown_small(call: &Call) -> (&'static str, u32) {
    match call {
        Call::Reset => ("reset", 0),
        Call::Inflate { pages } => ("inflate", *pages),
        Call::Deflate { pages } => ("deflate", *pages),
        Call::Oom { pages } => ("oom", *pages),
        Call::Report { from } => ("report", *from),
        Call::Stats => ("stats", 0),
        Call::Reap { queue } => ("reap", *queue),
        Call::Take { queue } => ("take", *queue),
        Call::Work => ("work", 0),
        Call::Serve { queue } => ("serve", *queue),
        Call::Sweep { page } => ("sweep", *page),
        Call::Ask => ("ask", 0),
        Call::SetTarget { pages } => ("target", *pages),
        _ => ("?", 0),
    }
}

/// Whether a line was read to an event that shows these numbers and bytes.
fn shows(
    found: Result<Event, ScriptFault>,
    line: &str,
    expected: [u32; 4],
    expected_bytes: &[u8],
) -> bool {
    match found {
        Ok(event) => {
            let (name, numbers, bytes) = shown(&event);
            line.starts_with(name) && numbers == expected && bytes == expected_bytes
        }
        Err(_fault) => false,
    }
}

/// A text of two lines: a host of one frame, and this one, which begins so and ends so.
fn text_of(alloc: Global, start: &[u8], end: &[u8]) -> Result<Vec<u8>, AllocError> {
    let mut text = Vec::from_slice(alloc, b"host 1\n")?;
    text.extend_from_slice(start)?;
    text.extend_from_slice(end)?;
    Ok(text)
}

/// What a script has that begins so and has this end, or its fault.
fn script_of(alloc: Global, start: &[u8], end: &[u8]) -> Result<Option<Script>, ScriptFault> {
    match text_of(alloc, start, end) {
        Ok(text) => parse(alloc, text.as_slice()),
        Err(_) => Err(ScriptFault::Memory),
    }
}

/// The last event of a script.
fn last_event(script: Script) -> Result<Event, ScriptFault> {
    let mut events = script.events;
    match events.pop() {
        Some(event) => Ok(event),
        None => Err(ScriptFault::BadLine(0)),
    }
}

/// The event of a line.
fn event_of(alloc: Global, line: &[u8]) -> Result<Event, ScriptFault> {
    match script_of(alloc, line, b"")? {
        Some(script) => last_event(script),
        None => Err(ScriptFault::BadLine(0)),
    }
}

/// Why a line has no event, if it has none.
fn fault_of(alloc: Global, line: &[u8]) -> Option<ScriptFault> {
    event_of(alloc, line).err()
}

#[test]
fn events(rt: HostRuntime) {
    for (line, numbers, bytes) in &EVENTS {
        let found = event_of(rt.alloc(), line.as_bytes());
        assert!(rt; shows(found, line, *numbers, bytes), "at {line}");
    }
}

/// Lines that start the device of guest 7, and the features that they ask for.
static INITS: [(&[u8], u64); 2] = [
    (b"init 7", 0x0000_0001_0000_0027),
    (b"init 7 0000000100000026", 0x0000_0001_0000_0026),
];

/// The features of such a line.
fn wanted(found: Result<Event, ScriptFault>) -> Option<u64> {
    match found {
        Ok(
            Event::Guest {
                guest: 7,
                call: Call::Init { features },
            },
        ) => Some(features),
        _ => None,
    }
}

#[test]
fn features_of_a_line(rt: HostRuntime) {
    for (line, features) in &INITS {
        assert!(rt; wanted(event_of(rt.alloc(), line)) == Some(*features));
    }
}

/// Lines that ask about guest 7, and what they ask.
static QUESTIONS: [(&str, Query); 12] = [
    ("places 7", Query::Places),
    ("balloon 7", Query::Balloon),
    ("memory 7", Query::Memory),
    ("backing 7 16", Query::Backing { page: 16 }),
    ("pages 7 ballooned", Query::PagesBallooned),
    ("pages 7 free", Query::PagesAt(Place::Free)),
    ("pages 7 used", Query::PagesAt(Place::Used)),
    ("pages 7 giving", Query::PagesAt(Place::Giving)),
    ("pages 7 lent", Query::PagesAt(Place::Lent)),
    ("pages 7 taking", Query::PagesAt(Place::Taking)),
    ("pages 7 stranded", Query::PagesAt(Place::Stranded)),
    ("pages 7 reporting", Query::PagesAt(Place::Reporting)),
];

/// Whether a line was read to this question about guest 7.
fn asks(found: Result<Event, ScriptFault>, expected: Query) -> bool {
    matches!(found, Ok(Event::Query { guest: 7, query }) if query == expected)
}

#[test]
fn questions(rt: HostRuntime) {
    for (line, query) in &QUESTIONS {
        let found = event_of(rt.alloc(), line.as_bytes());
        assert!(rt; asks(found, *query), "at {line}");
    }
}

/// Lines that break a rule of the format.
static BAD_LINES: [&[u8]; 56] = [
    b" ",
    b" frames",
    b"frames ",
    b"frames 0",
    b"Frames",
    b"frame",
    b"frames\r",
    b"frames\t",
    b"frames\0",
    b"frames\xff",
    b"plug 64 8",
    b"plug 64 8 1 1",
    b"plug  64 8 1",
    b"plug 64 8 1 ",
    b"plug 64 8 -1",
    b"plug 64 8 +1",
    b"plug 64 8 0x1",
    b"plug 64 8 4294967296",
    b"plug",
    b"unplug",
    b"unplug 0 0",
    b"work",
    b"work 0 0",
    b"read 0 16 0 0",
    b"read 0 16 0",
    b"write 0 16 0",
    b"write 0 16 0 ",
    b"write 0 16 0 a",
    b"write 0 16 0 abc",
    b"write 0 16 0 0g",
    b"write 0 16 0 ab cd",
    b"init",
    b"init 0 100000027",
    b"init 0 00000000100000027",
    b"init 0 000000010000002g",
    b"init 0 0000000100000027 0",
    b"pages 0",
    b"pages 0 reserved",
    b"pages 0 free 1",
    b"host 64",
    b"\xef\xbb\xbfframes",
    b"\tframes",
    b"frames \r",
    b"plug\t64 8 1",
    b"plug 64 8 1\r",
    b"plug 64 8 18446744073709551617",
    b"PLUG 64 8 1",
    b"take 0",
    b"take 0 0 0",
    b"free 0 0 16",
    b"free 0 0 16 0 0",
    b"read 0 16 0 4 4",
    b"read 0 16 0 00",
    b"write 0 16 0 0xab",
    b"write 0 16 0 ab ",
    b"pages 0 Free",
];

#[test]
fn bad_lines(rt: HostRuntime) {
    for line in &BAD_LINES {
        assert!(rt; fault_of(rt.alloc(), line) == Some(ScriptFault::BadLine(2)));
    }
}

/// Words, and the numbers that they show.
static NUMBERS: [(&[u8], Option<u32>); 8] = [
    (b"0", Some(0)),
    (b"00000000000000000000064", Some(64)),
    (b"4294967295", Some(4_294_967_295)),
    (b"04294967295", Some(4_294_967_295)),
    (b"4294967296", None),
    (b"42949672950", None),
    (b"", None),
    (b"1_0", None),
];

/// The number that a word shows, as that of a guest.
fn number_of(alloc: Global, word: &[u8]) -> Option<u32> {
    match script_of(alloc, b"unplug ", word) {
        Ok(Some(script)) => match last_event(script) {
            Ok(Event::Unplug { guest }) => Some(guest),
            _ => None,
        },
        _ => None,
    }
}

#[test]
fn numbers(rt: HostRuntime) {
    for (word, expected) in &NUMBERS {
        assert!(rt; number_of(rt.alloc(), word) == *expected);
    }
}

/// Words, and the features that they show.
static FEATURES: [(&[u8], Option<u64>); 5] = [
    (b"0000000100000027", Some(0x0000_0001_0000_0027)),
    (b"80000000fFfEaB26", Some(0x8000_0000_fffe_ab26)),
    (b"000000010000002g", None),
    (b"27", None),
    (b"00000000100000027", None),
];

/// The features that a word shows, as those of a start.
fn features_of(alloc: Global, word: &[u8]) -> Option<u64> {
    match script_of(alloc, b"init 7 ", word) {
        Ok(Some(script)) => wanted(last_event(script)),
        _ => None,
    }
}

#[test]
fn features_as_digits(rt: HostRuntime) {
    for (word, expected) in &FEATURES {
        assert!(rt; features_of(rt.alloc(), word) == *expected);
    }
}

/// Lines, and the frames of the host that they bring.
static HOSTS: [(&[u8], Option<u32>); 13] = [
    (b"host 1", Some(1)),
    (b"host 65536", Some(65_536)),
    (b"host 0", None),
    (b"host 65537", None),
    (b"host", None),
    (b"host 1 1", None),
    (b"host  1", None),
    (b"host 1 ", None),
    (b"host 1\r", None),
    (b"host 0000000000001", Some(1)),
    (b"host 4294967297", None),
    (b"\xef\xbb\xbfhost 1", None),
    (b"frames", None),
];

/// The frames that a first line brings.
fn frames_of(alloc: Global, line: &[u8]) -> Option<u32> {
    match parse(alloc, line) {
        Ok(Some(script)) => Some(script.frames),
        _ => None,
    }
}

#[test]
fn hosts(rt: HostRuntime) {
    for (line, expected) in &HOSTS {
        assert!(rt; frames_of(rt.alloc(), line) == *expected);
    }
}

/// Lines after that of the host, and the spare devices that they bring.
static SPARES: [(&[u8], Result<Option<Pace>, ScriptFault>); 12] = [
    (b"spare immediate", Ok(Some(Pace::Immediate))),
    (b"spare paced", Ok(Some(Pace::Paced))),
    (b"spare monitor", Ok(Some(Pace::Monitor))),
    (b"frames", Ok(None)),
    (b"spare", Err(ScriptFault::BadLine(2))),
    (b"spare ", Err(ScriptFault::BadLine(2))),
    (b"spare fast", Err(ScriptFault::BadLine(2))),
    (b"spare Monitor", Err(ScriptFault::BadLine(2))),
    (b"spare immediate 1", Err(ScriptFault::BadLine(2))),
    (b"spare  immediate", Err(ScriptFault::BadLine(2))),
    (b"spare immediate ", Err(ScriptFault::BadLine(2))),
    (b"Spare immediate", Err(ScriptFault::BadLine(2))),
];

/// The spare device that a line brings, if it brings one.
fn spare_of(alloc: Global, line: &[u8]) -> Result<Option<Pace>, ScriptFault> {
    match script_of(alloc, line, b"")? {
        Some(script) => Ok(script.spares.first().copied()),
        None => Ok(None),
    }
}

#[test]
fn spares(rt: HostRuntime) {
    for (line, expected) in &SPARES {
        assert!(rt; spare_of(rt.alloc(), line) == *expected);
    }
}

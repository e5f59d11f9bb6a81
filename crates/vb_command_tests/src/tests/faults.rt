//! What faults show: the words that the program prints of them.

use std::alloc::Global;
use std::fmt::Display;
use std::io::Write;
use vb_command::{ArgumentsFault, ProgramFault, refuse, report};
use vb_run::RunFault;

/// What a fault shows.
fn shown<T: Display>(alloc: Global, fault: &T) -> Vec<u8> {
    let mut text = Vec::new(alloc);
    let _ = write!(text, "{fault}");
    text
}

/// What is printed of a fault of the program.
fn reported(alloc: Global, fault: &ProgramFault) -> Vec<u8> {
    let mut errors = Vec::new(alloc);
    let _ = report(fault, &mut errors);
    errors
}

/// What is printed of a fault of the command line.
fn refused(alloc: Global, fault: ArgumentsFault) -> Vec<u8> {
    let mut errors = Vec::new(alloc);
    let _ = refuse(fault, &mut errors);
    errors
}

/// Whether this is a text and a line feed.
fn is_line(line: &[u8], text: &[u8]) -> bool {
    line.strip_suffix(b"\n") == Some(text)
}

/// Faults that something is printed of, and what they show.
const PRINTED: [(ProgramFault, &str); 4] = [
    (ProgramFault::BadLine(7), "script: line 7: bad line"),
    (ProgramFault::BadPlan, "run: bad plan"),
    (ProgramFault::Memory, "run: memory"),
    (ProgramFault::Audit, "run: audit"),
];

#[test]
fn what_is_printed_of_a_fault_is_what_it_shows(rt: HostRuntime) {
    for (fault, text) in &PRINTED {
        let line = reported(rt.alloc(), fault);
        assert!(rt;
            shown(rt.alloc(), fault).as_slice() == text.as_bytes(),
            "{text}"
        );
        assert!(rt; is_line(line.as_slice(), text.as_bytes()), "{text}");
    }
}

#[test]
fn nothing_is_printed_of_a_broken_stream(rt: HostRuntime) {
    let text = shown(rt.alloc(), &ProgramFault::Stream);
    assert!(rt; text.as_slice() == b"run: broken stream".as_slice());
    assert!(rt; reported(rt.alloc(), &ProgramFault::Stream).is_empty());
}

/// Faults of the command line, and what they show.
static ARGUMENTS: [(ArgumentsFault, &str); 2] = [
    (
        ArgumentsFault::Refused,
        "usage: vb_sim run | threads [--bells MODE]",
    ),
    (ArgumentsFault::Memory, "run: memory"),
];

#[test]
fn what_is_printed_of_a_command_line_is_what_its_fault_shows(rt: HostRuntime) {
    for (fault, text) in &ARGUMENTS {
        let line = refused(rt.alloc(), *fault);
        assert!(rt;
            shown(rt.alloc(), fault).as_slice() == text.as_bytes(),
            "{text}"
        );
        assert!(rt; is_line(line.as_slice(), text.as_bytes()), "{text}");
    }
}

/// Faults of a run of guests on threads, and what they show.
static RUNS: [(RunFault, &str); 3] = [
    (RunFault::Memory, "memory"),
    (RunFault::BadPlan, "bad plan"),
    (RunFault::Audit, "audit"),
];

#[test]
fn faults_of_a_run_show_their_words(rt: HostRuntime) {
    for (fault, text) in &RUNS {
        assert!(rt;
            shown(rt.alloc(), fault).as_slice() == text.as_bytes(),
            "{text}"
        );
    }
}

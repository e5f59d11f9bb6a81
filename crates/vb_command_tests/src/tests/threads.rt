//! Guests on threads: what a whole run writes, and the exit statuses.

use super::{Outcome, repeated};
use std::alloc::{AllocError, Global};
use std::io;
use std::io::{ErrorKind, Read, Write};
use std::sync::Wait;
use std::thread::Threads;
use vb_command::{ProgramFault, report, threads_script};
use vb_run::Bells;

/// The ways in which doorbells are rung.
static BELLS: [Bells; 4] = [Bells::Plain, Bells::Drop, Bells::Double, Bells::Late];

/// Runs the guests of a script.
fn run<R: Threads + Wait + Sync>(rt: &R, alloc: Global, bells: Bells, script: &[u8]) -> Outcome {
    let (mut output, mut errors) = (Vec::new(alloc), Vec::new(alloc));
    let status = threads_script(rt, alloc, bells, script, &mut output, &mut errors);
    Outcome {
        output,
        errors,
        status,
    }
}

#[test]
fn a_frame_in_common_is_status_5(rt: HostRuntime) {
    let mut errors = Vec::new(rt.alloc());
    assert!(rt; report(&ProgramFault::Audit, &mut errors) == 5);
    assert!(rt; errors.as_slice() == b"run: audit\n".as_slice());
}

/// Beginnings of scripts, the line that follows each, and how often it does.
static LONG: [(&str, &str, usize); 3] = [
    ("", "plug 64 8 1\n", 0),
    (
        "host 200\nspare paced\nspare paced\nspare paced\nspare paced\nspare paced\nspare paced\n\
spare paced\nspare paced\nspare paced\n",
        "plug 64 8 1\n",
        9,
    ),
    ("host 64\nspare paced\nplug 64 8 1\n", "reap 0 0\n", 100_001),
];

#[test]
fn no_line_and_too_many_are_bad_plans(rt: HostRuntime) -> Result<(), AllocError> {
    for (start, line, count) in &LONG {
        let script = repeated(rt.alloc(), start, line, *count, "")?;
        let outcome = run(&rt, rt.alloc(), Bells::Plain, script.as_slice());
        assert!(rt; outcome.shows(b"", b"run: bad plan\n", 1));
    }
    Ok(())
}

/// How long a comment is, what is said of a script that has it alone, and the exit statuses.
static LENGTHS: [(usize, &str, u8); 2] = [(67_108_864, "run: bad plan\n", 1), (67_108_865, "", 4)];

#[test]
fn a_byte_too_many_is_status_4(rt: HostRuntime) -> Result<(), AllocError> {
    for (length, errors, status) in &LENGTHS {
        let script = vec![in rt.alloc(); b'#'; *length]?;
        let outcome = run(&rt, rt.alloc(), Bells::Plain, script.as_slice());
        assert!(rt; outcome.shows(b"", errors.as_bytes(), *status));
    }
    Ok(())
}

/// A reader that fails.
#[derive(Drop)]
struct Broken {
    kind: ErrorKind,
}

impl Read for Broken {
    fn read(&mut self, _buf: &mut [u8]) -> io::Result<usize> {
        Err(io::Error::from(self.kind))
    }
}

/// How reading fails, what is said of it, and the exit status.
static READING: [(ErrorKind, &str, u8); 2] = [
    (ErrorKind::ConnectionReset, "", 4),
    (ErrorKind::OutOfMemory, "run: memory\n", 3),
];

#[test]
fn input_that_cant_be_read_has_its_status(rt: HostRuntime) {
    for (kind, said, status) in &READING {
        let (mut output, mut errors) = (Vec::new(rt.alloc()), Vec::new(rt.alloc()));
        let input = Broken { kind: *kind };
        let written = threads_script(
            &rt,
            rt.alloc(),
            Bells::Plain,
            input,
            &mut output,
            &mut errors,
        );
        let outcome = Outcome {
            output,
            errors,
            status: written,
        };
        assert!(rt; outcome.shows(b"", said.as_bytes(), *status));
    }
}

/// A writer with room for a number of bytes.
#[derive(Drop)]
struct Narrow {
    room: usize,
}

impl Write for Narrow {
    fn write(&mut self, buf: &[u8]) -> io::Result<usize> {
        if self.room == 0 {
            return Err(io::Error::from(ErrorKind::BrokenPipe));
        }
        let n = buf.len().min(self.room);
        self.room -= n;
        Ok(n)
    }

    fn flush(&mut self) -> io::Result<()> {
        Ok(())
    }
}

/// Scripts, how many bytes are written to the output and to the errors, and the exit status where
/// they can be.
static WRITTEN: [(&str, usize, usize, u8); 3] = [
    ("host 12\nspare paced\nplug 64 8 1\n", 34, 0, 0),
    ("host 12\nplug 64 8\n", 0, 25, 1),
    ("host 12\nplug 64 8 1\n", 0, 14, 1),
];

#[test]
fn what_cant_be_written_is_status_4(rt: HostRuntime) {
    for (script, output, errors, status) in &WRITTEN {
        for room in 0..=*output + *errors {
            let (mut out, mut err) = (Narrow { room }, Narrow { room });
            let script = script.as_bytes();
            let bells = Bells::Plain;
            let own = threads_script(&rt, rt.alloc(), bells, script, &mut out, &mut err);
            let is_whole = room == *output + *errors;
            assert!(rt; own == if is_whole { *status } else { 4 }, "at byte {room}");
        }
    }
}

/// A writer that shows what it was given once it is flushed, if it can be.
#[derive(Drop)]
struct Holding {
    held: Vec<u8>,
    shown: Vec<u8>,
    sticks: bool,
}

impl Write for Holding {
    fn write(&mut self, buf: &[u8]) -> io::Result<usize> {
        self.held.extend_from_slice(buf)?;
        Ok(buf.len())
    }

    fn flush(&mut self) -> io::Result<()> {
        if self.sticks {
            return Err(io::Error::from(ErrorKind::BrokenPipe));
        }
        self.shown.extend_from_slice(self.held.as_slice())?;
        self.held.clear();
        Ok(())
    }
}

/// Runs the guests of a script over such a writer: what it shows at the end, and the exit status.
fn run_held<R: Threads + Wait + Sync>(rt: &R, alloc: Global, sticks: bool) -> (Vec<u8>, u8) {
    let mut out = Holding {
        held: Vec::new(alloc),
        shown: Vec::new(alloc),
        sticks,
    };
    let mut errors = Vec::new(alloc);
    let script = b"host 12\nspare paced\nplug 64 8 1\nalloc 0 0 0\ninflate 0 1\n".as_slice();
    let status = threads_script(rt, alloc, Bells::Plain, script, &mut out, &mut errors);
    (out.shown, status)
}

/// Whether a flush fails, what is shown then, and the exit status.
static FLUSHED: [(bool, &str, u8); 2] = [
    (false, "guest 0 calls 2 frames 0\ndisjoint\n", 0),
    (true, "", 4),
];

#[test]
fn a_report_is_flushed(rt: HostRuntime) {
    for (sticks, expected, status) in &FLUSHED {
        let (shown, ended) = run_held(&rt, rt.alloc(), *sticks);
        assert!(rt; shown.as_slice() == expected.as_bytes());
        assert!(rt; ended == *status);
    }
}

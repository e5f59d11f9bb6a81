//! Whole runs: what is written where, and the exit status, also where reading or writing fails.

ghost use Rattle.std.specs.Prelude.{◌≡◌, IfOk, length, vec_len};

use super::{Outcome, repeated};
use std::alloc::{AllocError, Global};
use std::io;
use std::io::{ErrorKind, Read, Write};
use vb_command::{Host, Play, ProgramFault, run_script_on, write_lines};
use vb_model::Reply;
use vb_script::Script;
use vb_virtio::Refusal;

/// A host without guests.
#[derive(Drop)]
struct Empty;

impl Play for Empty {
    ghost played = { λ said replies. length replies ≡ length said.events };

    fn play<W: Write>(
        &mut self,
        alloc: Global,
        script: &Script,
        out: &mut W,
    ) -> Result<(), ProgramFault> {
        let replies = refuse_all(alloc, script)?;
        write_lines(out, &replies)
    }
}

/// What a script's events are answered where no guest is there.
fn refuse_all(alloc: Global, script: &Script) -> Result<Vec<Reply>, AllocError>
    ensures { IfOk result (λ replies. vec_len replies ≡ vec_len script.now.events) }
{
    let mut replies = Vec::with_capacity(alloc, script.events.len())?;
    for _event in &script.events {
        replies.push(Reply::Refused(Refusal::NoGuest))?;
    }
    Ok(replies)
}

/// A host that finds no memory.
#[derive(Drop)]
struct Starved;

impl Play for Starved {
    ghost played = { λ said replies. ⊥ };

    fn play<W: Write>(
        &mut self,
        _alloc: Global,
        _script: &Script,
        _out: &mut W,
    ) -> Result<(), ProgramFault> {
        Err(ProgramFault::Memory)
    }
}

/// What goes wrong with the streams of a run.
#[derive(Clone, Copy)]
struct Faults {
    /// How reading fails after the script's bytes, if it does.
    reading: Option<ErrorKind>,
    /// How many bytes can be written to a stream.
    room: usize,
    /// The call that fails among those that write to a stream, counted from 1.
    call: usize,
    /// The most bytes that one call writes.
    most: usize,
    /// Whether a stream that has failed works again from then on.
    heals: bool,
    /// Whether what was written can't be flushed.
    holds: bool,
}

/// Nothing goes wrong.
const NONE: Faults = Faults {
    reading: None,
    room: usize::MAX,
    call: 0,
    most: usize::MAX,
    heals: false,
    holds: false,
};

/// A reader of these bytes, a byte at a time, which may fail after them.
#[derive(Drop)]
struct Slow<'a> {
    rest: &'a [u8],
    fails: Option<ErrorKind>,
}

impl Read for Slow<'_> {
    fn read(&mut self, buf: &mut [u8]) -> io::Result<usize> {
        if let (true, Some(kind)) = (self.rest.is_empty(), self.fails) {
            return Err(io::Error::from(kind));
        }
        let n = buf.len().min(self.rest.len()).min(1);
        buf[..n].copy_from_slice(&self.rest[..n]);
        self.rest = &self.rest[n..];
        Ok(n)
    }
}

/// A writer into a list, which fails at one call, and once it holds n bytes.
#[derive(Drop)]
struct Flaky<'a> {
    text: &'a mut Vec<u8>,
    calls: usize,
    room: usize,
    faults: Faults,
}

impl Write for Flaky<'_> {
    fn write(&mut self, buf: &[u8]) -> io::Result<usize> {
        self.calls = self.calls.saturating_add(1);
        let room = self.room.saturating_sub(self.text.len());
        if self.calls == self.faults.call || room == 0 {
            if self.faults.heals {
                self.room = usize::MAX;
            }
            return Err(io::Error::from(ErrorKind::BrokenPipe));
        }
        let n = buf.len().min(room).min(self.faults.most);
        self.text.extend_from_slice(&buf[..n])?;
        Ok(n)
    }

    fn flush(&mut self) -> io::Result<()> {
        if self.faults.holds {
            return Err(io::Error::from(ErrorKind::BrokenPipe));
        }
        Ok(())
    }
}

/// Runs a script on a host, over streams with these faults.
fn run<P: Play>(alloc: Global, host: &mut P, text: &[u8], faults: Faults) -> Outcome {
    let (mut output, mut errors) = (Vec::new(alloc), Vec::new(alloc));
    let input = Slow {
        rest: text,
        fails: faults.reading,
    };
    let mut out = Flaky {
        text: &mut output,
        calls: 0,
        room: faults.room,
        faults,
    };
    let mut err = Flaky {
        text: &mut errors,
        calls: 0,
        room: faults.room,
        faults,
    };
    let status = run_script_on(alloc, host, input, &mut out, &mut err);
    Outcome {
        output,
        errors,
        status,
    }
}

/// Scripts, each with what is written of it to the output and to the errors, and the exit status.
static SCRIPTS: [(&[u8], &[u8], &[u8], u8); 7] = [
    (b"", b"", b"", 0),
    (b"\n\n# host 0\r\t\0\xff\n\n#", b"", b"", 0),
    (b"host 64\n", b"", b"", 0),
    (
        b"# first\nhost 64\n\nspare immediate\ntake 0 0\n#\nreap 0 0",
        b"no guest\nno guest\n",
        b"",
        0,
    ),
    (
        b"# first\nhost 64\n\nspare immediate\ntake 0 0\n#\nscribble 0 0 0 0",
        b"",
        b"script: line 7: bad line\n",
        1,
    ),
    (
        b"host 64\nplug 64 8\nplug\nframes\n",
        b"",
        b"script: line 2: bad line\n",
        1,
    ),
    (b"frames\n", b"", b"script: line 1: bad line\n", 1),
];

#[test]
fn each_event_has_a_reply_or_the_first_bad_line_is_named(rt: HostRuntime) {
    for (script, output, errors, status) in &SCRIPTS {
        let outcome = run(rt.alloc(), &mut Empty, script, NONE);
        assert!(rt; outcome.shows(output, errors, *status));
    }
}

/// Scripts, each with how reading it fails, how many bytes can be written, what is written to the
/// errors, and the exit status.
static BROKEN: [(&[u8], Option<ErrorKind>, usize, &[u8], u8); 6] = [
    (
        b"host 64\nframes\n",
        Some(ErrorKind::ConnectionReset),
        usize::MAX,
        b"",
        4,
    ),
    (b"", Some(ErrorKind::ConnectionReset), usize::MAX, b"", 4),
    (
        b"frames\n",
        Some(ErrorKind::UnexpectedEof),
        usize::MAX,
        b"",
        4,
    ),
    (
        b"host 64\n",
        Some(ErrorKind::OutOfMemory),
        usize::MAX,
        b"run: memory\n",
        3,
    ),
    (b"host 64\nframes\n", None, 0, b"", 4),
    (b"frames\n", None, 0, b"", 4),
];

#[test]
fn broken_streams_have_their_status(rt: HostRuntime) {
    for (script, reading, room, errors, status) in &BROKEN {
        let faults = Faults {
            reading: *reading,
            room: *room,
            ..NONE
        };
        let outcome = run(rt.alloc(), &mut Empty, script, faults);
        assert!(rt; outcome.shows(b"", errors, *status));
    }
}

/// A script and its replies.
static SPOKEN: (&[u8], &[u8]) = (
    b"host 64\nspare paced\nplug 64 8 1\ninit 0\nframes\n",
    b"guest 0\nready\nframes used 13 free 51\n",
);

#[test]
fn nothing_is_written_where_reading_fails_at_any_byte(rt: HostRuntime) {
    let script = SPOKEN.0;
    let faults = Faults {
        reading: Some(ErrorKind::ConnectionReset),
        ..NONE
    };
    for length in 0..=script.len() {
        let outcome = run(rt.alloc(), &mut Host, &script[..length], faults);
        assert!(rt; outcome.shows(b"", b"", 4), "behind byte {length}");
    }
}

/// Whether a run on a stream with room for `room` bytes fails, and has written this much of its
/// replies, or of these and what comes after them.
fn fails_at(alloc: Global, room: usize, heals: bool) -> bool {
    let (script, replies) = (SPOKEN.0, SPOKEN.1);
    let faults = Faults {
        room,
        heals,
        ..NONE
    };
    let outcome = run(alloc, &mut Host, script, faults);
    outcome.status == 4
        && outcome.errors.is_empty()
        && outcome.output.len() >= room
        && (heals || outcome.output.len() == room)
        && replies.starts_with(&outcome.output)
}

#[test]
fn what_is_written_where_writing_fails_at_any_byte_is_true(rt: HostRuntime) {
    for room in 0..SPOKEN.1.len() {
        assert!(rt; fails_at(rt.alloc(), room, false), "at byte {room}");
        assert!(rt; fails_at(rt.alloc(), room, true), "at byte {room}");
    }
}

#[test]
fn what_cant_be_flushed_is_status_4(rt: HostRuntime) {
    let faults = Faults {
        holds: true,
        ..NONE
    };
    let outcome = run(rt.alloc(), &mut Host, SPOKEN.0, faults);
    assert!(rt; outcome.shows(SPOKEN.1, b"", 4));
}

/// A script with a bad line, and what is said of it.
static MISSPOKEN: (&[u8], &[u8]) = (b"host 64\nplug\n", b"script: line 2: bad line\n");

#[test]
fn a_bad_line_that_cant_be_named_is_status_4(rt: HostRuntime) {
    let (script, errors) = (MISSPOKEN.0, MISSPOKEN.1);
    for room in 0..errors.len() {
        let faults = Faults { room, ..NONE };
        let outcome = run(rt.alloc(), &mut Host, script, faults);
        assert!(rt; outcome.shows(b"", &errors[..room], 4), "at byte {room}");
    }
}

#[test]
fn streams_may_write_less_than_they_are_given(rt: HostRuntime) {
    for most in 1..5 {
        let faults = Faults { most, ..NONE };
        let outcome = run(rt.alloc(), &mut Host, SPOKEN.0, faults);
        assert!(rt; outcome.shows(SPOKEN.1, b"", 0), "{most} at a time");
        let outcome = run(rt.alloc(), &mut Host, MISSPOKEN.0, faults);
        assert!(rt; outcome.shows(b"", MISSPOKEN.1, 1), "{most} at a time");
    }
}

#[test]
fn want_of_memory_is_status_3(rt: HostRuntime) {
    let outcome = run(rt.alloc(), &mut Starved, b"host 64\nframes\n", NONE);
    assert!(rt; outcome.shows(b"", b"run: memory\n", 3));
}

/// Calls of the writer of 18,000 bytes, up to 8,192 each, at which it fails, and the exit statuses.
static FLAKY: [(usize, u8); 4] = [(1, 4), (2, 4), (3, 4), (100, 0)];

#[test]
fn a_write_that_fails_once_is_status_4(rt: HostRuntime) -> Result<(), AllocError> {
    let script = repeated(rt.alloc(), "host 64\n", "take 0 0\n", 2000, "")?;
    for (call, status) in &FLAKY {
        let faults = Faults {
            call: *call,
            most: 8_192,
            ..NONE
        };
        let outcome = run(rt.alloc(), &mut Empty, script.as_slice(), faults);
        assert!(rt; outcome.status == *status);
    }
    Ok(())
}

/// Numbers of line feeds, and the exit statuses of scripts of n.
static LENGTHS: [(usize, u8); 2] = [(67_108_864, 0), (67_108_865, 4)];

#[test]
fn a_byte_too_many_is_a_fault_of_input(rt: HostRuntime) -> Result<(), AllocError> {
    for (length, status) in &LENGTHS {
        let script = vec![in rt.alloc(); b'\n'; *length]?;
        let outcome = run(rt.alloc(), &mut Empty, script.as_slice(), NONE);
        assert!(rt; outcome.shows(b"", b"", *status));
    }
    Ok(())
}

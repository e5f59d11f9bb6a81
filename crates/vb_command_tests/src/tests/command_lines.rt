//! Command lines: what they ask for, what is written, and the exit status.

use super::Outcome;
use std::alloc::{AllocError, Global};
use std::io;
use std::io::{ErrorKind, Write};
use std::sync::Wait;
use std::thread::Threads;
use vb_command::{ArgumentsFault, Asked, read_arguments, refuse, run_command};
use vb_run::Bells;

/// The words of a command line, the program's name first.
pub(super) fn command_line(alloc: Global, words: &[&str]) -> Result<Vec<String>, ArgumentsFault> {
    let mut all = Vec::new(alloc);
    let program = String::from_str(alloc, "vb_sim")?;
    all.push(program).map_err(AllocError::from)?;
    for word in words {
        let word = String::from_str(alloc, word)?;
        all.push(word).map_err(AllocError::from)?;
    }
    Ok(all)
}

/// What the words after the program's name ask for.
fn arguments(alloc: Global, words: &[&str]) -> Result<Asked, ArgumentsFault> {
    let all = command_line(alloc, words)?;
    read_arguments(alloc, all.as_slice())
}

/// Words after the program's name, and what they ask for, if for anything.
static COMMAND_LINES: [(&[&str], Option<Asked>); 57] = [
    (&[], Some(Asked::Run)),
    (&["run"], Some(Asked::Run)),
    (&["threads"], Some(Asked::Threads(Bells::Plain))),
    (
        &["threads", "--bells", "plain"],
        Some(Asked::Threads(Bells::Plain)),
    ),
    (
        &["threads", "--bells", "drop"],
        Some(Asked::Threads(Bells::Drop)),
    ),
    (
        &["threads", "--bells", "double"],
        Some(Asked::Threads(Bells::Double)),
    ),
    (
        &["threads", "--bells", "late"],
        Some(Asked::Threads(Bells::Late)),
    ),
    (
        &["threads", "--bells=plain"],
        Some(Asked::Threads(Bells::Plain)),
    ),
    (
        &["threads", "--bells=drop"],
        Some(Asked::Threads(Bells::Drop)),
    ),
    (
        &["threads", "--bells=double"],
        Some(Asked::Threads(Bells::Double)),
    ),
    (
        &["threads", "--bells=late"],
        Some(Asked::Threads(Bells::Late)),
    ),
    (&["threads", "--bells"], None),
    (&["threads", "--bells", ""], None),
    (&["threads", "--bells="], None),
    (&["threads", "--bells", "loud"], None),
    (&["threads", "--bells=loud"], None),
    (&["threads", "--bells", "Late"], None),
    (&["threads", "--bells", "late", "late"], None),
    (&["threads", "--bells=late", "late"], None),
    (&["threads", "--bells", "late", "--bells", "late"], None),
    (&["threads", "--bell", "late"], None),
    (&["threads", "-b", "late"], None),
    (&["threads", "late"], None),
    (&["threads", "--"], None),
    (&["threads", "--help"], None),
    (&["threads", "threads"], None),
    (&["--bells", "late"], None),
    (&["--bells=late", "threads"], None),
    (&["run", "--bells", "late"], None),
    (&["run", "threads"], None),
    (&["threads", "run"], None),
    (&[""], None),
    (&["run", ""], None),
    (&["--"], None),
    (&["run", "--"], None),
    (&["--", "run"], None),
    (&["run", "run"], None),
    (&["run", "--", "--"], None),
    (&["run", "a", "b", "c"], None),
    (&["a", "b", "c", "d", "e"], None),
    (&["", "", "", "", "", "", "", ""], None),
    (&["help"], None),
    (&["run", "help"], None),
    (&["--help"], None),
    (&["run", "--help"], None),
    (&["-h"], None),
    (&["run", "-h"], None),
    (&["-V"], None),
    (&["run", "-V"], None),
    (&["--version"], None),
    (&["run", "--version"], None),
    (&["ru"], None),
    (&["run", "ru"], None),
    (&["RUN"], None),
    (&["run", "RUN"], None),
    (&["THREADS"], None),
    (&["--bells"], None),
];

#[test]
fn command_lines(rt: HostRuntime) {
    for (words, asked) in &COMMAND_LINES {
        assert!(rt; arguments(rt.alloc(), words) == asked.ok_or(ArgumentsFault::Refused));
    }
}

/// Words after the program's name, a script, what is written to the output and to the errors, and
/// the exit status.
static COMMANDS: [(&[&str], &str, &str, &str, u8); 11] = [
    (&[], "host 3\nframes\n", "frames used 0 free 3\n", "", 0),
    (
        &["run"],
        "host 3\nframes\n",
        "frames used 0 free 3\n",
        "",
        0,
    ),
    (&["run"], "", "", "", 0),
    (
        &["run"],
        "host 3\nframes\nframe\n",
        "",
        "script: line 3: bad line\n",
        1,
    ),
    (
        &["walk"],
        "host 3\nframes\n",
        "",
        "usage: vb_sim run | threads [--bells MODE]\n",
        2,
    ),
    (
        &["run", "now"],
        "frames\n",
        "",
        "usage: vb_sim run | threads [--bells MODE]\n",
        2,
    ),
    (
        &["--help"],
        "",
        "",
        "usage: vb_sim run | threads [--bells MODE]\n",
        2,
    ),
    (
        &["threads"],
        "host 13\nspare paced\nplug 64 8 1\n",
        "guest 0 calls 0 frames 13\ndisjoint\n",
        "",
        0,
    ),
    (
        &["threads", "--bells", "late"],
        "host 13\nspare paced\nplug 64 8 1\n",
        "guest 0 calls 0 frames 13\ndisjoint\n",
        "",
        0,
    ),
    (
        &["threads", "--bells", "drop"],
        "host 3\nframes\n",
        "",
        "script: line 2: bad line\n",
        1,
    ),
    (
        &["threads", "--bells", "loud"],
        "host 13\nspare paced\nplug 64 8 1\n",
        "",
        "usage: vb_sim run | threads [--bells MODE]\n",
        2,
    ),
];

/// What a command writes, and its exit status.
pub(super) fn command<R: Threads + Wait + Sync>(
    rt: &R,
    alloc: Global,
    words: Result<Vec<String>, ArgumentsFault>,
    script: &[u8],
) -> Outcome {
    let (mut output, mut errors) = (Vec::new(alloc), Vec::new(alloc));
    let status = run_command(rt, alloc, words, script, &mut output, &mut errors);
    Outcome {
        output,
        errors,
        status,
    }
}

#[test]
fn commands(rt: HostRuntime) {
    for (words, script, output, errors, status) in &COMMANDS {
        let words = command_line(rt.alloc(), words);
        let outcome = command(&rt, rt.alloc(), words, script.as_bytes());
        assert!(rt; outcome.shows(output.as_bytes(), errors.as_bytes(), *status));
    }
}

#[test]
fn words_that_there_is_no_memory_for(rt: HostRuntime) {
    let outcome = command(
        &rt,
        rt.alloc(),
        Err(ArgumentsFault::Memory),
        b"host 3\nframes\n",
    );
    assert!(rt; outcome.shows(b"", b"run: memory\n", 3));
}

/// A writer that has room for a number of bytes, and then fails.
#[derive(Drop)]
struct Narrow {
    room: usize,
}

impl Write for Narrow {
    fn write(&mut self, buf: &[u8]) -> io::Result<usize> {
        if self.room == 0 {
            return Err(io::Error::from(ErrorKind::BrokenPipe));
        }
        let n = buf.len().min(self.room);
        self.room -= n;
        Ok(n)
    }

    fn flush(&mut self) -> io::Result<()> {
        Ok(())
    }
}

/// Why a command line asks for nothing, how many bytes are said of it, and the exit status where
/// they can be written.
static FAULTS: [(ArgumentsFault, usize, u8); 2] = [
    (ArgumentsFault::Refused, 43, 2),
    (ArgumentsFault::Memory, 12, 3),
];

#[test]
fn a_refusal_that_cant_be_written_is_status_4(rt: HostRuntime) {
    for (fault, length, status) in &FAULTS {
        for room in 0..*length {
            assert!(rt; refuse(*fault, &mut Narrow { room }) == 4, "at byte {room}");
        }
        assert!(rt; refuse(*fault, &mut Narrow { room: *length }) == *status);
    }
}

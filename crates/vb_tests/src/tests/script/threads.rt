//! Scripts for guests on threads.

use super::lines::{Shown, shown_on};
use std::alloc::Global;
use vb_script::{Pace, ScriptFault, ThreadsGuest, ThreadsScript, parse_threads};

/// What a text was read to: the frames, the number of guests, the floor and the rounds, or nothing
/// where it makes no plan.
type Outline = Result<Option<(u32, usize, u32, u32)>, ScriptFault>;

/// What a text is read to.
fn outline(alloc: Global, text: &[u8]) -> Outline {
    match parse_threads(alloc, text)? {
        Some(script) => Ok(Some(sizes(&script))),
        None => Ok(None),
    }
}

/// A script's frames, the number of its guests, the floor and the rounds.
fn sizes(script: &ThreadsScript) -> (u32, usize, u32, u32) {
    (
        script.frames,
        script.guests.len(),
        script.floor,
        script.rounds,
    )
}

/// Texts, and what they are read to: no plan, a plan, or a bad line.
static TEXTS: [(&[u8], Outline); 70] = [
    (b"", Ok(None)),
    (b"\n#\n\n", Ok(None)),
    (b"host 64\n", Ok(None)),
    (b"host 64\nspare paced\n", Ok(None)),
    (b"host 64\nspare paced\nrounds 16 1\n", Ok(None)),
    (b"host 64\nspare paced\ncpu 0", Ok(None)),
    (b"host 64\nplug 64 8 1\n", Ok(None)),
    (
        b"host 64\nspare paced\nplug 64 8 1\nplug 64 8 1\n",
        Ok(None),
    ),
    (
        b"host 64\nspare paced\nplug 64 8 1\nalloc 1 0 0\n",
        Ok(None),
    ),
    (
        b"host 64\nspare paced\nplug 64 8 1\nstats 4294967295\n",
        Ok(None),
    ),
    (
        b"host 64\nspare paced\nplug 64 8 1\ncpu 1\nalloc 0 1 0\n",
        Ok(None),
    ),
    (
        b"host 64\nspare paced\nplug 64 8 1\ncpu 4294967295\nalloc 0 0 0\n",
        Ok(None),
    ),
    (b"host 64\nspare paced\nalloc 0 0 0\n", Ok(None)),
    (
        b"host 64\nspare paced\nplug 64 8 0\nalloc 0 0 0\n",
        Ok(None),
    ),
    (
        b"host 64\nspare paced\nplug 64 8 1\n",
        Ok(Some((64, 1, 0, 0))),
    ),
    (
        b"host 64\nspare paced\nplug 64 8 1\ncpu 99\n",
        Ok(Some((64, 1, 0, 0))),
    ),
    (
        b"host 64\nspare paced\nplug 64 8 1\ncpu 99\n\n# \xff\ncpu 00\nalloc 0 1 0",
        Ok(Some((64, 1, 0, 0))),
    ),
    (
        b"host 64\nspare paced\nplug 64 8 1\nrounds 16 3\n",
        Ok(Some((64, 1, 16, 3))),
    ),
    (
        b"host 64\nspare paced\nplug 64 8 1\nrounds 4294967295 0\ncpu 0",
        Ok(Some((64, 1, 4_294_967_295, 0))),
    ),
    (
        b"host 65536\nspare paced\nspare immediate\nplug 65 7 0",
        Ok(Some((65_536, 1, 0, 0))),
    ),
    (b"spare paced\n", Err(ScriptFault::BadLine(1))),
    (b"host 0", Err(ScriptFault::BadLine(1))),
    (
        b"host 64\nspare paced\nplug 64 8 1\nrestart 0\n",
        Err(ScriptFault::BadLine(4)),
    ),
    (
        b"host 64\nspare paced\nplug 64 8 1\ninit 0\n",
        Err(ScriptFault::BadLine(4)),
    ),
    (
        b"host 64\nspare paced\nplug 64 8 1\nreset 0",
        Err(ScriptFault::BadLine(4)),
    ),
    (
        b"host 64\nspare paced\nplug 64 8 1\nscribble 0 16 0 aa",
        Err(ScriptFault::BadLine(4)),
    ),
    (
        b"host 64\nspare paced\nplug 64 8 1\ntake 0 0",
        Err(ScriptFault::BadLine(4)),
    ),
    (
        b"host 64\nspare paced\nplug 64 8 1\nwork 0",
        Err(ScriptFault::BadLine(4)),
    ),
    (
        b"host 64\nspare paced\nplug 64 8 1\nfinish 0 0 0",
        Err(ScriptFault::BadLine(4)),
    ),
    (
        b"host 64\nspare paced\nplug 64 8 1\nserve 0 0",
        Err(ScriptFault::BadLine(4)),
    ),
    (
        b"host 64\nspare paced\nplug 64 8 1\nsweep 0 16",
        Err(ScriptFault::BadLine(4)),
    ),
    (
        b"host 64\nspare paced\nplug 64 8 1\nask 0",
        Err(ScriptFault::BadLine(4)),
    ),
    (
        b"host 64\nspare paced\nplug 64 8 1\ntarget 0 4",
        Err(ScriptFault::BadLine(4)),
    ),
    (
        b"host 64\nspare paced\nplug 64 8 1\nunplug 0",
        Err(ScriptFault::BadLine(4)),
    ),
    (
        b"host 64\nspare paced\nplug 64 8 1\nbalance 16",
        Err(ScriptFault::BadLine(4)),
    ),
    (
        b"host 64\nspare paced\nplug 64 8 1\nplaces 0",
        Err(ScriptFault::BadLine(4)),
    ),
    (
        b"host 64\nspare paced\nplug 64 8 1\npages 0 free",
        Err(ScriptFault::BadLine(4)),
    ),
    (
        b"host 64\nspare paced\nplug 64 8 1\nballoon 0",
        Err(ScriptFault::BadLine(4)),
    ),
    (
        b"host 64\nspare paced\nplug 64 8 1\nmemory 0",
        Err(ScriptFault::BadLine(4)),
    ),
    (
        b"host 64\nspare paced\nplug 64 8 1\nbacking 0 16",
        Err(ScriptFault::BadLine(4)),
    ),
    (
        b"host 64\nspare paced\nplug 64 8 1\nframes",
        Err(ScriptFault::BadLine(4)),
    ),
    (
        b"host 64\nspare paced\nplug 64 8 1\nhost 64",
        Err(ScriptFault::BadLine(4)),
    ),
    (
        b"host 64\nspare paced\nplug 64 8 1\nspare paced",
        Err(ScriptFault::BadLine(4)),
    ),
    (
        b"host 64\nspare paced\nplug 64 8 1\nrounds 0 1\nspare paced",
        Err(ScriptFault::BadLine(5)),
    ),
    (
        b"host 64\nspare paced\nrounds 0 1\nspare paced",
        Err(ScriptFault::BadLine(4)),
    ),
    (
        b"host 64\nspare paced\ncpu 0\nspare paced",
        Err(ScriptFault::BadLine(4)),
    ),
    (
        b"host 64\nspare paced\nrounds 0 1\nplug 64 8 1",
        Err(ScriptFault::BadLine(4)),
    ),
    (
        b"host 64\nspare paced\ncpu 0\nplug 64 8 1",
        Err(ScriptFault::BadLine(4)),
    ),
    (
        b"host 64\nspare paced\nplug 64 8 1\nalloc 0 0 0\nplug 64 8 1",
        Err(ScriptFault::BadLine(5)),
    ),
    (
        b"host 64\nspare paced\nplug 64 8 1\nrounds 0 1\nplug 64 8 1",
        Err(ScriptFault::BadLine(5)),
    ),
    (
        b"host 64\nspare paced\nplug 64 8 1\nrounds 0 1\nrounds 0 1",
        Err(ScriptFault::BadLine(5)),
    ),
    (
        b"host 64\nspare paced\nplug 64 8 1\ncpu 0\nrounds 0 1",
        Err(ScriptFault::BadLine(5)),
    ),
    (
        b"host 64\nspare paced\nplug 64 8 1\nalloc 0 0 0\nrounds 0 1",
        Err(ScriptFault::BadLine(5)),
    ),
    (
        b"host 64\nspare paced\nplug 64 8 1\nrounds 0",
        Err(ScriptFault::BadLine(4)),
    ),
    (
        b"host 64\nspare paced\nplug 64 8 1\nrounds 0 1 2",
        Err(ScriptFault::BadLine(4)),
    ),
    (
        b"host 64\nspare paced\nplug 64 8 1\nrounds 0 4294967296",
        Err(ScriptFault::BadLine(4)),
    ),
    (
        b"host 64\nspare paced\nplug 64 8 1\nrounds",
        Err(ScriptFault::BadLine(4)),
    ),
    (
        b"host 64\nspare paced\nplug 64 8 1\ncpu",
        Err(ScriptFault::BadLine(4)),
    ),
    (
        b"host 64\nspare paced\nplug 64 8 1\ncpu 0 0",
        Err(ScriptFault::BadLine(4)),
    ),
    (
        b"host 64\nspare paced\nplug 64 8 1\ncpu -1",
        Err(ScriptFault::BadLine(4)),
    ),
    (
        b"host 64\nspare paced\nplug 64 8 1\ncpu 4294967296",
        Err(ScriptFault::BadLine(4)),
    ),
    (
        b"host 64\nspare paced\nplug 64 8 1\nread 0 16 0 0",
        Err(ScriptFault::BadLine(4)),
    ),
    (
        b"host 64\nspare paced\nplug 64 8 1\nalloc 0 0",
        Err(ScriptFault::BadLine(4)),
    ),
    (
        b"host 64\nspare paced\nplug 64 8 1\nwrite 0 16 0 a",
        Err(ScriptFault::BadLine(4)),
    ),
    (
        b"host 64\nspare paced\nplug 64 8 1\nplug 64 8",
        Err(ScriptFault::BadLine(4)),
    ),
    (
        b"host 64\nspare paced\nplug 64 8 1\nCpu 0",
        Err(ScriptFault::BadLine(4)),
    ),
    (
        b"host 64\nspare paced\nplug 64 8 1\ncpus 0",
        Err(ScriptFault::BadLine(4)),
    ),
    (
        b"host 64\nspare paced\nplug 64 8 1\n cpu 0",
        Err(ScriptFault::BadLine(4)),
    ),
    (
        b"host 64\nspare paced\nplug 64 8 1\nalloc 9 0 0\n\n#\ntake 0 0\ntake 0 0",
        Err(ScriptFault::BadLine(7)),
    ),
    (
        b"host 64\nplug 64 8 1\nplug 64 8 1\nrounds 0 1 ",
        Err(ScriptFault::BadLine(4)),
    ),
];

#[test]
fn threads_texts(rt: HostRuntime) {
    for (text, expected) in &TEXTS {
        assert!(rt; outline(rt.alloc(), text) == *expected);
    }
}

/// Two guests, whose processors take turns in the text.
static TURNS: &[u8] = b"\
    host 64\n\
    \n\
    spare immediate\n\
    spare paced\n\
    spare paced\n\
    plug 64 8 2\n\
    plug 128 2 4\n\
    # calls\n\
    alloc 0 0 5\n\
    cpu 1\n\
    inflate 0 4\n\
    free 1 1 32 5\n\
    cpu 3\n\
    read 1 16 4092 4\n\
    cpu 0\n\
    write 0 17 2 abCD\n\
    deflate 1 2\n\
    alloc 0 1 0\n\
    oom 1 1\n\
    cpu 1\n\
    report 0 16\n\
    stats 1\n\
    reap 0 4\n\
    cpu 9\n\
";

/// The guests of that text: their paces, and their configurations.
static GUESTS: [(usize, Pace, [u32; 3]); 2] = [
    (0, Pace::Immediate, [64, 8, 2]),
    (1, Pace::Paced, [128, 2, 4]),
];

/// How many calls each processor makes: guest, processor, calls.
static LENGTHS: [(usize, usize, usize); 6] = [
    (0, 0, 3),
    (0, 1, 3),
    (1, 0, 2),
    (1, 1, 2),
    (1, 2, 0),
    (1, 3, 1),
];

/// The calls: guest, processor, which one of its calls, and what that shows.
static CALLS: [(usize, usize, usize, Shown<'static>); 11] = [
    (0, 0, 0, ("alloc", [0, 0, 5, 0], &[])),
    (0, 0, 1, ("write", [0, 17, 2, 0], &[0xab, 0xcd])),
    (0, 0, 2, ("alloc", [0, 1, 0, 0], &[])),
    (0, 1, 0, ("inflate", [0, 4, 0, 0], &[])),
    (0, 1, 1, ("report", [0, 16, 0, 0], &[])),
    (0, 1, 2, ("reap", [0, 4, 0, 0], &[])),
    (1, 0, 0, ("deflate", [1, 2, 0, 0], &[])),
    (1, 0, 1, ("oom", [1, 1, 0, 0], &[])),
    (1, 1, 0, ("free", [1, 1, 32, 5], &[])),
    (1, 1, 1, ("stats", [1, 0, 0, 0], &[])),
    (1, 3, 0, ("read", [1, 16, 4092, 4], &[])),
];

/// Whether a guest has this pace and this configuration.
fn is_guest(guest: Option<&ThreadsGuest>, pace: Pace, config: [u32; 3]) -> bool {
    match guest {
        Some(guest) => {
            guest.pace == pace && [guest.pages, guest.queue_size, guest.processors] == config
        }
        None => false,
    }
}

/// How many calls the processor of a guest makes, if it is there.
fn length_of(guest: Option<&ThreadsGuest>, cpu: usize) -> Option<usize> {
    Some(guest?.scripts.get(cpu)?.len())
}

/// Whether the call at a place of a processor's script shows this.
fn shows(guest: Option<&ThreadsGuest>, cpu: usize, index: usize, shown: Shown) -> bool {
    let Some(guest) = guest else {
        return false;
    };
    let Some(script) = guest.scripts.get(cpu) else {
        return false;
    };
    match script.get(index) {
        Some(call) => shown_on(shown.1[0], call) == shown,
        None => false,
    }
}

/// Whether a script is the plan of the text above.
fn is_turns(script: &ThreadsScript) -> bool {
    for (guest, pace, config) in &GUESTS {
        if !is_guest(script.guests.get(*guest), *pace, *config) {
            return false;
        }
    }
    for (guest, cpu, length) in &LENGTHS {
        if length_of(script.guests.get(*guest), *cpu) != Some(*length) {
            return false;
        }
    }
    for (guest, cpu, index, shown) in &CALLS {
        if !shows(script.guests.get(*guest), *cpu, *index, *shown) {
            return false;
        }
    }
    sizes(script) == (64, 2, 0, 0)
}

#[test]
fn processors_take_turns(rt: HostRuntime) {
    let found = match parse_threads(rt.alloc(), TURNS) {
        Ok(Some(script)) => is_turns(&script),
        _ => false,
    };
    assert!(rt; found);
}

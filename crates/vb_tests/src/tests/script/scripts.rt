//! Whole scripts.

use std::alloc::{AllocError, Global};
use vb_script::{Pace, Script, ScriptFault, parse};

/// What a text was read to: the frames, the number of spare devices and that of events, or nothing
/// where it has no lines.
type Outline = Result<Option<(u32, usize, usize)>, ScriptFault>;

/// What a text is read to.
fn outline(alloc: Global, text: &[u8]) -> Outline {
    match parse(alloc, text)? {
        Some(script) => Ok(Some(sizes(&script))),
        None => Ok(None),
    }
}

/// A script's frames, the number of its spare devices and that of its events.
fn sizes(script: &Script) -> (u32, usize, usize) {
    (script.frames, script.spares.len(), script.events.len())
}

/// Texts, and what they are read to.
static TEXTS: [(&[u8], Outline); 20] = [
    (
        b"\n#\nhost 0064\nspare immediate\n# \0\xff\r\nspare immediate\nframes\n\nplug 64 8 1",
        Ok(Some((64, 2, 2))),
    ),
    (b"", Ok(None)),
    (b"\n", Ok(None)),
    (b"#", Ok(None)),
    (b"\n\n# host 64\n#\xff", Ok(None)),
    (b"frames", Err(ScriptFault::BadLine(1))),
    (
        b"\n#\nspare immediate\nhost 64",
        Err(ScriptFault::BadLine(3)),
    ),
    (b"host 64\nhost 64", Err(ScriptFault::BadLine(2))),
    (
        b"host 64\nframes\nspare immediate",
        Err(ScriptFault::BadLine(3)),
    ),
    (b"host 64\n\n \nhost", Err(ScriptFault::BadLine(3))),
    (b"host 64\r\nframes\r\n", Err(ScriptFault::BadLine(1))),
    (b"host 64\n #\n", Err(ScriptFault::BadLine(2))),
    (b"\xef\xbb\xbfhost 64\n", Err(ScriptFault::BadLine(1))),
    (b"host 64\n\tframes\n", Err(ScriptFault::BadLine(2))),
    (b"host 64\nspare paced\n", Ok(Some((64, 1, 0)))),
    (
        b"host 64\nframes\n\n#\nunplug",
        Err(ScriptFault::BadLine(5)),
    ),
    (b"host 64\nframes\n\n\n", Ok(Some((64, 0, 1)))),
    (b"\nhost 64", Ok(Some((64, 0, 0)))),
    (b"host 64\0", Err(ScriptFault::BadLine(1))),
    (
        b"host 64\nframes\nframes\nfree\nread",
        Err(ScriptFault::BadLine(4)),
    ),
];

#[test]
fn texts(rt: HostRuntime) {
    for (text, expected) in &TEXTS {
        assert!(rt; outline(rt.alloc(), text) == *expected);
    }
}

/// Lines of n spare devices after a host's, of m events, lines that are skipped, and a write of k
/// bytes.
#[derive(Clone, Copy)]
enum Part {
    Spares,
    Frames,
    Skipped,
    Bytes,
}

impl Part {
    /// How such a text begins, and the part that it repeats.
    fn texts(self) -> (&'static [u8], &'static [u8]) {
        match self {
            Part::Spares => (b"host 1\n", b"spare immediate\n"),
            Part::Frames => (b"host 1\n", b"frames\n"),
            Part::Skipped => (b"", b"#\n"),
            Part::Bytes => (b"host 1\nwrite 0 16 0 ", b"aB"),
        }
    }
}

/// Parts, each with how often it is there, the end after it, and what that text is read to: no more
/// than 64 spare devices, the bytes of a page and no more, and lines far down.
static REPEATED: [(Part, usize, &[u8], Outline); 17] = [
    (Part::Spares, 1, b"", Ok(Some((1, 1, 0)))),
    (Part::Spares, 63, b"", Ok(Some((1, 63, 0)))),
    (Part::Spares, 64, b"", Ok(Some((1, 64, 0)))),
    (Part::Spares, 64, b"frames\n", Ok(Some((1, 64, 1)))),
    (Part::Spares, 65, b"", Err(ScriptFault::BadLine(66))),
    (Part::Frames, 20_000, b"", Ok(Some((1, 0, 20_000)))),
    (
        Part::Frames,
        150,
        b"write 0 16 0 a\n",
        Err(ScriptFault::BadLine(152)),
    ),
    (
        Part::Frames,
        150,
        b"write 0 16 0 0g\n",
        Err(ScriptFault::BadLine(152)),
    ),
    (
        Part::Frames,
        2_000,
        b"spare paced\n",
        Err(ScriptFault::BadLine(2_002)),
    ),
    (
        Part::Skipped,
        1_500,
        b"frames\n",
        Err(ScriptFault::BadLine(1_501)),
    ),
    (Part::Skipped, 1_500, b"host 64", Ok(Some((64, 0, 0)))),
    (Part::Skipped, 20_000, b"\n\n#", Ok(None)),
    (Part::Bytes, 4095, b"", Ok(Some((1, 0, 1)))),
    (Part::Bytes, 4096, b"\nframes", Ok(Some((1, 0, 2)))),
    (
        Part::Bytes,
        4095,
        b"a\nframes",
        Err(ScriptFault::BadLine(2)),
    ),
    (
        Part::Bytes,
        4095,
        b"0g\nframes",
        Err(ScriptFault::BadLine(2)),
    ),
    (Part::Bytes, 4097, b"", Err(ScriptFault::BadLine(2))),
];

/// A text with this part `count` times, and this end.
fn repeated(alloc: Global, part: Part, count: usize, end: &[u8]) -> Result<Vec<u8>, AllocError> {
    let (start, part) = part.texts();
    let mut text = Vec::from_slice(alloc, start)?;
    for _ in 0..count {
        text.extend_from_slice(part)?;
    }
    text.extend_from_slice(end)?;
    Ok(text)
}

#[test]
fn limits(rt: HostRuntime) -> Result<(), AllocError> {
    for (part, count, end, expected) in &REPEATED {
        let text = repeated(rt.alloc(), *part, *count, end)?;
        assert!(rt; outline(rt.alloc(), text.as_slice()) == *expected);
    }
    Ok(())
}

/// Whether a text is read to a script of these spare devices.
fn brings(alloc: Global, text: &[u8], paces: &[Pace]) -> bool {
    match parse(alloc, text) {
        Ok(Some(script)) => script.spares.as_slice() == paces,
        _ => false,
    }
}

#[test]
fn spare_devices_have_their_paces(rt: HostRuntime) {
    let text = b"host 1\nspare immediate\nspare paced\nspare immediate";
    let paces = [Pace::Immediate, Pace::Paced, Pace::Immediate];
    assert!(rt; brings(rt.alloc(), text, &paces));
}

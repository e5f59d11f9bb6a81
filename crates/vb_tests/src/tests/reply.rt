//! Each reply's line, as docs/SCRIPTS.md has it.

use arrayvec::ArrayVec;
use std::alloc::{AllocError, Global};
use std::io;
use std::io::{ErrorKind, Write};
use std::process::Abort;
use vb_model::{BalloonState, Bytes, PageRun, PageRuns, PlaceCounts, Reply};
use vb_reply::{write_replies, write_reply};
use vb_virtio::{LastStatistics, Numbers, Refusal};

/// The text that is written of a reply.
fn written(alloc: Global, reply: &Reply) -> Vec<u8> {
    let mut text = Vec::new(alloc);
    let _ = write_reply(&mut text, reply);
    text
}

/// Whether a text is this line and a line feed.
fn is_line(text: &[u8], line: &str) -> bool {
    text.strip_suffix(b"\n") == Some(line.as_bytes())
}

/// Checks that the reply's line is this text and a line feed.
fn check(rt: &impl Abort, alloc: Global, reply: Reply, line: &str) {
    let text = written(alloc, &reply);
    assert!(rt; is_line(text.as_slice(), line), "at {line}");
}

#[test]
fn words(rt: HostRuntime) {
    let alloc = rt.alloc();
    check(&rt, alloc, Reply::Done, "ok");
    check(&rt, alloc, Reply::Ready, "ready");
    check(&rt, alloc, Reply::Filled, "filled");
    check(&rt, alloc, Reply::NotUsed, "none");
    check(&rt, alloc, Reply::Empty, "empty");
    check(&rt, alloc, Reply::Idle, "idle");
    check(&rt, alloc, Reply::Asked, "asked");
    check(&rt, alloc, Reply::Backing { frame: None }, "no backing");
}

#[test]
fn requests(rt: HostRuntime) {
    let alloc = rt.alloc();
    let (head, pages) = (1, 44);
    check(&rt, alloc, Reply::Posted { head, pages }, "posted 1 44");
    check(&rt, alloc, Reply::Reaped { head, pages }, "reaped 1 44");
    check(&rt, alloc, Reply::Taken { head }, "taken 1");
    check(&rt, alloc, Reply::Finished { head }, "finished 1");
}

#[test]
fn served_chains(rt: HostRuntime) {
    let alloc = rt.alloc();
    let (chains, broken) = (0, None);
    check(&rt, alloc, Reply::Served { chains, broken }, "served 0");
    let (chains, broken) = (256, Some(10));
    check(
        &rt,
        alloc,
        Reply::Served { chains, broken },
        "served 256 broken C10",
    );
}

#[test]
fn pages_of_the_host(rt: HostRuntime) {
    let alloc = rt.alloc();
    let (page, freed) = (16, true);
    check(&rt, alloc, Reply::Worked { page, freed }, "worked 16 freed");
    check(&rt, alloc, Reply::Swept { freed }, "swept freed");
    let (page, freed) = (19, false);
    check(&rt, alloc, Reply::Worked { page, freed }, "worked 19 bare");
    check(&rt, alloc, Reply::Swept { freed }, "swept bare");
}

#[test]
fn numbers(rt: HostRuntime) {
    let alloc = rt.alloc();
    check(&rt, alloc, Reply::Plugged { guest: 0 }, "guest 0");
    let guest = usize::MAX;
    check(
        &rt,
        alloc,
        Reply::Plugged { guest },
        "guest 18446744073709551615",
    );
    check(&rt, alloc, Reply::Page { start: 16 }, "page 16");
    let frame = Some(13);
    check(&rt, alloc, Reply::Backing { frame }, "frame 13");
    let (used, free) = (14, 50);
    let line = "frames used 14 free 50";
    check(&rt, alloc, Reply::Frames { used, free }, line);
}

#[test]
fn views(rt: HostRuntime) {
    let state = BalloonState {
        ballooned: 47,
        actual: 46,
        target: 48,
        status: 143,
    };
    let balloon = Reply::Balloon { state };
    let line = "ballooned 47 actual 46 target 48 status 143";
    check(&rt, rt.alloc(), balloon, line);
    let counts = PlaceCounts {
        free: 44,
        used: 1,
        giving: 2,
        lent: 3,
        taking: 4,
        stranded: 5,
        reporting: 6,
    };
    let line = "free 44 used 1 giving 2 lent 3 taking 4 stranded 5 reporting 6";
    check(&rt, rt.alloc(), Reply::Places { counts }, line);
}

/// Statistics, and their texts.
static STATISTICS: [(Option<u64>, Option<u64>, &str); 3] = [
    (Some(131_072), Some(262_144), "memory 131072 262144"),
    (None, None, "memory - -"),
    (Some(u64::MAX), None, "memory 18446744073709551615 -"),
];

#[test]
fn statistics(rt: HostRuntime) {
    for (free, total, line) in &STATISTICS {
        let (free, total) = (*free, *total);
        let last = LastStatistics { free, total };
        check(&rt, rt.alloc(), Reply::Statistics { last }, line);
    }
}

/// Refusals, and their lines.
static REFUSALS: [(Refusal, &str); 33] = [
    (Refusal::NoGuest, "no guest"),
    (Refusal::BadConfig, "bad config"),
    (Refusal::TooMany, "too many"),
    (Refusal::NoDevice, "no device"),
    (Refusal::BadOrder, "bad order"),
    (Refusal::BadCpu, "bad cpu"),
    (Refusal::NoPages, "no pages"),
    (Refusal::NotHeld, "not held"),
    (Refusal::NotReady, "not ready"),
    (Refusal::QueueFull, "queue full"),
    (Refusal::DeflatePending, "deflate pending"),
    (Refusal::Nothing, "nothing"),
    (Refusal::RingBroken, "ring broken"),
    (Refusal::NoFeature, "no feature"),
    (Refusal::AlreadyUp, "already up"),
    (Refusal::FeatureNotOffered, "feature not offered"),
    (Refusal::VersionMissing, "version missing"),
    (Refusal::ClearsBit, "clears bit"),
    (Refusal::OutOfOrder, "out of order"),
    (Refusal::NoQueue, "no queue"),
    (Refusal::NeedsReset, "needs reset"),
    (Refusal::Busy, "busy"),
    (Refusal::Broken { rule: 1 }, "broken C1"),
    (Refusal::Broken { rule: 10 }, "broken C10"),
    (Refusal::NotTaken, "not taken"),
    (Refusal::NotWorked, "not worked"),
    (Refusal::NotBallooned, "not ballooned"),
    (Refusal::OutOfRam, "out of ram"),
    (Refusal::NoFrame, "no frame"),
    (Refusal::NoMemory, "memory"),
    (Refusal::Short { missing: 18 }, "short 18"),
    (Refusal::Short { missing: 0 }, "short 0"),
    (
        Refusal::Short { missing: u64::MAX },
        "short 18446744073709551615",
    ),
];

#[test]
fn refusals(rt: HostRuntime) {
    for (refusal, line) in &REFUSALS {
        check(&rt, rt.alloc(), Reply::Refused(*refusal), line);
    }
}

/// Bytes that were read, and their lines.
static BYTES: [(&[u8], &str); 2] = [
    (&[0xab, 0xcd, 0, 0xf], "bytes abcd000f"),
    (&[0xff], "bytes ff"),
];

#[test]
fn bytes(rt: HostRuntime) -> Result<(), AllocError> {
    for (bytes, line) in &BYTES {
        let bytes = Bytes::new(Vec::from_slice(rt.alloc(), bytes)?);
        check(&rt, rt.alloc(), Reply::ReadBytes { bytes }, line);
    }
    Ok(())
}

/// Targets, and their lines.
static TARGETS: [(&[u32], &str); 2] = [(&[28, 0], "targets 28 0"), (&[], "targets")];

#[test]
fn targets(rt: HostRuntime) -> Result<(), AllocError> {
    for (pages, line) in &TARGETS {
        let mut targets = ArrayVec::new();
        for page in *pages {
            let _room = targets.try_push(*page);
        }
        let pages = Numbers::new(targets);
        check(&rt, rt.alloc(), Reply::Targets { pages }, line);
    }
    Ok(())
}

/// Runs of pages, and their lines.
static RUNS: [(&[PageRun], &str); 2] = [
    (
        &[
            PageRun {
                first: 16,
                last: 19,
            },
            PageRun {
                first: 22,
                last: 22,
            },
        ],
        "pages 16-19 22",
    ),
    (&[], "pages"),
];

#[test]
fn pages(rt: HostRuntime) -> Result<(), AllocError> {
    for (runs, line) in &RUNS {
        let runs = PageRuns::new(Vec::from_slice(rt.alloc(), runs)?);
        check(&rt, rt.alloc(), Reply::Pages { runs }, line);
    }
    Ok(())
}

/// A list of a reply, whose items are all alike.
enum Items {
    Bytes(u8),
    Targets(u32),
    Runs(PageRun),
}

impl Items {
    /// The reply with `count` of them.
    fn reply(&self, alloc: Global, count: usize) -> Result<Reply, AllocError> {
        Ok(match self {
            Items::Bytes(byte) => Reply::ReadBytes {
                bytes: Bytes::new(vec![in alloc; *byte; count]?),
            },
            Items::Targets(target) => Reply::Targets {
                pages: targets_of(*target, count),
            },
            Items::Runs(run) => Reply::Pages {
                runs: PageRuns::new(vec![in alloc; *run; count]?),
            },
        })
    }
}

/// n targets, as far as there is room.
fn targets_of(target: u32, count: usize) -> Numbers {
    let mut targets = ArrayVec::new();
    for _ in 0..count {
        let _room = targets.try_push(target);
    }
    Numbers::new(targets)
}

/// All pages that have a number.
const ALL_PAGES: PageRun = PageRun {
    first: 0,
    last: u32::MAX,
};

/// The last page that has a number.
const LAST_PAGE: PageRun = PageRun {
    first: u32::MAX,
    last: u32::MAX,
};

/// Long lists, how their lines begin, and what each item adds.
static LONG: [(Items, usize, &str, &str); 12] = [
    (Items::Bytes(0xa5), 255, "bytes ", "a5"),
    (Items::Bytes(0xa5), 256, "bytes ", "a5"),
    (Items::Bytes(0xa5), 257, "bytes ", "a5"),
    (Items::Bytes(0), 4095, "bytes ", "00"),
    (Items::Bytes(0xff), 4096, "bytes ", "ff"),
    (Items::Targets(65_536), 1, "targets", " 65536"),
    (Items::Targets(u32::MAX), 7, "targets", " 4294967295"),
    (Items::Targets(u32::MAX), 8, "targets", " 4294967295"),
    (Items::Runs(ALL_PAGES), 7, "pages", " 0-4294967295"),
    (Items::Runs(ALL_PAGES), 400, "pages", " 0-4294967295"),
    (Items::Runs(LAST_PAGE), 1000, "pages", " 4294967295"),
    (Items::Runs(ALL_PAGES), 8192, "pages", " 0-4294967295"),
];

/// A text of this start, `count` times this part, and a line feed.
fn repeated(alloc: Global, start: &str, part: &str, count: usize) -> Result<Vec<u8>, AllocError> {
    let mut text = Vec::from_slice(alloc, start.as_bytes())?;
    for _ in 0..count {
        text.extend_from_slice(part.as_bytes())?;
    }
    text.extend_from_slice(b"\n")?;
    Ok(text)
}

#[test]
fn long_lists(rt: HostRuntime) -> Result<(), AllocError> {
    for (items, count, start, part) in &LONG {
        let reply = items.reply(rt.alloc(), *count)?;
        let expected = repeated(rt.alloc(), start, part, *count)?;
        assert!(rt;
            written(rt.alloc(), &reply) == expected,
            "{count} of {part}"
        );
    }
    Ok(())
}

/// Counts that are as large as they may be.
const LARGE: [(Reply, &str); 7] = [
    (
        Reply::Posted {
            head: u32::MAX,
            pages: u32::MAX,
        },
        "posted 4294967295 4294967295",
    ),
    (
        Reply::Reaped {
            head: u32::MAX,
            pages: u32::MAX,
        },
        "reaped 4294967295 4294967295",
    ),
    (
        Reply::Worked {
            page: u32::MAX,
            freed: true,
        },
        "worked 4294967295 freed",
    ),
    (
        Reply::Frames {
            used: u32::MAX,
            free: u32::MAX,
        },
        "frames used 4294967295 free 4294967295",
    ),
    (
        Reply::Balloon {
            state: BalloonState {
                ballooned: u32::MAX,
                actual: u32::MAX,
                target: u32::MAX,
                status: u8::MAX,
            },
        },
        "ballooned 4294967295 actual 4294967295 target 4294967295 status 255",
    ),
    (
        Reply::Statistics {
            last: LastStatistics {
                free: Some(u64::MAX),
                total: Some(u64::MAX),
            },
        },
        "memory 18446744073709551615 18446744073709551615",
    ),
    (
        Reply::Places {
            counts: PlaceCounts {
                free: u32::MAX,
                used: u32::MAX,
                giving: u32::MAX,
                lent: u32::MAX,
                taking: u32::MAX,
                stranded: u32::MAX,
                reporting: u32::MAX,
            },
        },
        "free 4294967295 used 4294967295 giving 4294967295 lent 4294967295 \
taking 4294967295 stranded 4294967295 reporting 4294967295",
    ),
];

#[test]
fn large_numbers(rt: HostRuntime) {
    for (reply, line) in &LARGE {
        let text = written(rt.alloc(), reply);
        assert!(rt; is_line(text.as_slice(), line), "at {line}");
    }
}

/// A writer that fails at one call, counted from 1, and at no other.
#[derive(Drop)]
struct Failing {
    calls: usize,
    fails_at: usize,
}

impl Write for Failing {
    fn write(&mut self, buf: &[u8]) -> io::Result<usize> {
        self.calls = self.calls.saturating_add(1);
        if self.calls == self.fails_at {
            return Err(io::Error::from(ErrorKind::BrokenPipe));
        }
        Ok(buf.len())
    }

    fn flush(&mut self) -> io::Result<()> {
        Ok(())
    }
}

/// How writing replies to such a writer fails, if it does, and how many calls it makes.
fn calls_of(replies: &[Reply], fails_at: usize) -> (Option<ErrorKind>, usize) {
    let mut out = Failing { calls: 0, fails_at };
    let fault = match write_replies(&mut out, replies) {
        Ok(()) => None,
        Err(fault) => Some(fault.kind()),
    };
    (fault, out.calls)
}

/// The long lists as replies, one after the other.
fn long_replies(alloc: Global) -> Result<Vec<Reply>, AllocError> {
    let mut replies = Vec::new(alloc);
    for (items, count, _start, _part) in &LONG {
        let reply = items.reply(alloc, *count)?;
        replies.push(reply).map_err(AllocError::from)?;
    }
    Ok(replies)
}

#[test]
fn nothing_is_written_behind_a_failure(rt: HostRuntime) -> Result<(), AllocError> {
    let replies = long_replies(rt.alloc())?;
    let (fault, calls) = calls_of(replies.as_slice(), 0);
    assert!(rt; fault.is_none() && calls > 7);
    for call in 1..=calls {
        assert!(rt;
            calls_of(replies.as_slice(), call) == (Some(ErrorKind::BrokenPipe), call),
            "at {call}"
        );
    }
    Ok(())
}

#[test]
fn many_replies(rt: HostRuntime) -> Result<(), AllocError> {
    let mut replies = Vec::new(rt.alloc());
    for _ in 0..20_000 {
        replies.push(Reply::Done).map_err(AllocError::from)?;
    }
    let mut text = Vec::new(rt.alloc());
    let result = write_replies(&mut text, replies.as_slice());
    let expected = repeated(rt.alloc(), "", "ok\n", 19_999)?;
    assert!(rt; result.is_ok() && text.len() == 60_000);
    assert!(rt; text.strip_suffix(b"ok\n") == expected.strip_suffix(b"\n"));
    Ok(())
}

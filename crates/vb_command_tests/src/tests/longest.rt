//! Scripts and replies of the greatest lengths, which take most memory.

use super::{repeated, run};
use std::alloc::{AllocError, Global};
use std::io;
use std::io::Write;
use vb_command::SUCCESS;

/// How long the longest text is.
const LONGEST: usize = 67_108_864;

/// How such a text begins, what its comment goes on with to its end, and its reply.
static LONG: (&str, &str, &[u8]) = (
    "host 64\nframes\n#",
    "################",
    b"frames used 0 free 64\n",
);

/// How often the comment goes on so.
const TIMES: usize = 4_194_303;

#[test]
fn the_longest_text_has_a_host(rt: HostRuntime) -> Result<(), AllocError> {
    let script = repeated(rt.alloc(), LONG.0, LONG.1, TIMES, "")?;
    assert!(rt; script.len() == LONGEST);
    let outcome = run(rt.alloc(), script.as_slice());
    assert!(rt; outcome.shows(LONG.2, b"", SUCCESS));
    Ok(())
}

/// How many events a script has.
const EVENTS: usize = 1_000_001;

#[test]
fn over_a_million_events_are_answered(rt: HostRuntime) -> Result<(), AllocError> {
    let script = repeated(rt.alloc(), "host 64\n", "take 0 0\n", EVENTS, "")?;
    let replies = repeated(rt.alloc(), "", "no guest\n", EVENTS, "")?;
    let outcome = run(rt.alloc(), script.as_slice());
    assert!(rt; outcome.shows(replies.as_slice(), b"", SUCCESS));
    Ok(())
}

/// Pages of a guest, of which the first 16 are reserved.
const PAGES: u32 = 4096;

/// A guest that allocates all its pages and frees every second one, each of which is ballooned.
fn script_of_holes(alloc: Global) -> io::Result<Vec<u8>> {
    let start = "host 13\nspare immediate\nplug 4096 8 1\ninit 0\n";
    let mut script = repeated(alloc, start, "alloc 0 0 0\n", 4080, "target 0 2040\n")?;
    for page in 16..PAGES {
        if page % 2 == 0 {
            writeln!(script, "free 0 0 {page} 0")?;
        }
    }
    let inflates = "inflate 0 256\ntake 0 0\nfinish 0 0 0\nreap 0 0\n";
    let end = repeated(alloc, "", inflates, 8, "pages 0 used\npages 0 ballooned\n")?;
    script.extend_from_slice(end.as_slice())?;
    Ok(script)
}

/// The reply that names every second page, the odd or the even ones.
fn every_second(text: &mut Vec<u8>, odd: u32) -> io::Result<()> {
    write!(text, "pages")?;
    for page in 16..PAGES {
        if page % 2 == odd {
            write!(text, " {page}")?;
        }
    }
    writeln!(text)
}

/// The last two replies to that script.
fn replies_of_holes(alloc: Global) -> io::Result<Vec<u8>> {
    let mut replies = Vec::from_slice(alloc, b"\n")?;
    every_second(&mut replies, 1)?;
    every_second(&mut replies, 0)?;
    Ok(replies)
}

#[test]
fn over_a_thousand_runs_of_pages_are_told(rt: HostRuntime) -> Result<(), AllocError> {
    let script = script_of_holes(rt.alloc()).map_err(|_| AllocError)?;
    let replies = replies_of_holes(rt.alloc()).map_err(|_| AllocError)?;
    let outcome = run(rt.alloc(), script.as_slice());
    assert!(rt; outcome.status == SUCCESS);
    assert!(rt; outcome.output.as_slice().ends_with(replies.as_slice()));
    Ok(())
}

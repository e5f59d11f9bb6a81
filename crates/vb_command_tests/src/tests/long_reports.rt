//! Reports of a whole guest of the greatest sizes, visited page by page.

use super::run;
use std::alloc::{AllocError, Global};
use std::io;
use std::io::Write;
use vb_command::SUCCESS;

/// A guest of the greatest sizes, on a paced device.
static START: (&str, &str) = (
    "\
host 64
spare paced
plug 16384 128 1
init 0
",
    "\
guest 0
ready
",
);

/// Its reports one after the other, each with its first page, the page after its last one, and the
/// number of its pages: 16 blocks at most, of 512 pages at most.
static REPORTED: [(u32, u32, u32); 3] = [
    (16, 6144, 6128),
    (6144, 14_336, 8192),
    (14_336, 16_384, 2048),
];

/// The lines of one report, with a visit to each of its pages, and one too many.
fn add_lines(script: &mut Vec<u8>, first: u32, end: u32) -> io::Result<()> {
    write!(script, "report 0 {first}\ntake 0 4\n")?;
    for _page in first..end {
        script.write_all(b"work 0\n")?;
    }
    script.write_all(b"work 0\nfinish 0 4 0\nreap 0 4\n")
}

/// The replies to these lines.
fn add_replies(replies: &mut Vec<u8>, first: u32, end: u32, pages: u32) -> io::Result<()> {
    write!(replies, "posted 0 {pages}\ntaken 0\n")?;
    for page in first..end {
        write!(replies, "worked {page} bare\n")?;
    }
    write!(replies, "idle\nfinished 0\nreaped 0 {pages}\n")
}

/// The script of all reports, and its replies.
fn long_run(alloc: Global) -> io::Result<(Vec<u8>, Vec<u8>)> {
    let mut script = Vec::from_slice(alloc, START.0.as_bytes())?;
    let mut replies = Vec::from_slice(alloc, START.1.as_bytes())?;
    for (first, end, pages) in &REPORTED {
        add_lines(&mut script, *first, *end)?;
        add_replies(&mut replies, *first, *end, *pages)?;
    }
    Ok((script, replies))
}

#[test]
fn a_paced_device_visits_all_pages_of_long_reports(rt: HostRuntime) -> Result<(), AllocError> {
    let (script, replies) = long_run(rt.alloc()).map_err(|_| AllocError)?;
    let outcome = run(rt.alloc(), script.as_slice());
    assert!(rt; outcome.shows(replies.as_slice(), b"", SUCCESS));
    Ok(())
}

//! The largest guest, whose queues have 256 descriptors, so that each ring takes two pages.

use super::{repeated, run};
use std::alloc::{AllocError, Global};
use std::test::Fail;
use vb_command::SUCCESS;

/// One round of an inflate of 256 pages, and one of a deflate, with their replies.
const INFLATE: (&str, &str) = (
    "inflate 0 256\ntake 0 0\nfinish 0 0 0\nreap 0 0\n",
    "posted 0 256\ntaken 0\nfinished 0\nreaped 0 256\n",
);

const DEFLATE: (&str, &str) = (
    "deflate 0 256\ntake 0 1\nfinish 0 1 0\nreap 0 1\n",
    "posted 0 256\ntaken 0\nfinished 0\nreaped 0 256\n",
);

/// The largest guest begins, has given all its pages, and has all of them back.
const START: (&str, &str) = (
    "host 64\nspare immediate\nplug 65536 256 4\ninit 0\ntarget 0 65536\n",
    "guest 0\nready\nok\n",
);

const GIVEN: (&str, &str) = (
    "\
inflate 0 256
take 0 0
finish 0 0 0
reap 0 0
inflate 0 256
places 0
balloon 0
target 0 0
",
    "\
posted 0 224
taken 0
finished 0
reaped 0 224
nothing
free 0 used 0 giving 0 lent 65504 taking 0 stranded 0 reporting 0
ballooned 65504 actual 65504 target 65536 status 15
ok
",
);

const BACK: (&str, &str) = (
    "\
deflate 0 256
take 0 1
finish 0 1 0
reap 0 1
deflate 0 256
places 0
balloon 0
pages 0 free
frames
alloc 0 0 9
",
    "\
posted 0 224
taken 0
finished 0
reaped 0 224
nothing
free 65504 used 0 giving 0 lent 0 taking 0 stranded 0 reporting 0
ballooned 0 actual 0 target 0 status 15
pages 32-65535
frames used 17 free 47
page 512
",
);

/// A text that repeats its second and its fourth part 255 times.
fn given_and_back(alloc: Global, parts: [&str; 5]) -> Result<Vec<u8>, AllocError> {
    let [start, inflate, given, deflate, back] = parts;
    let mut text = repeated(alloc, start, inflate, 255, given)?;
    text.extend_from_slice(&repeated(alloc, "", deflate, 255, back)?)?;
    Ok(text)
}

/// Whether a script writes these replies.
fn writes(alloc: Global, script: &[u8], replies: &[u8]) -> bool {
    run(alloc, script).shows(replies, b"", SUCCESS)
}

#[test]
fn the_largest_guest_gives_all_it_has_and_takes_it_back(rt: HostRuntime) -> Result<(), Fail> {
    let parts = [START.0, INFLATE.0, GIVEN.0, DEFLATE.0, BACK.0];
    let script = given_and_back(rt.alloc(), parts)?;
    let answers = [START.1, INFLATE.1, GIVEN.1, DEFLATE.1, BACK.1];
    let replies = given_and_back(rt.alloc(), answers)?;
    assert!(rt; writes(rt.alloc(), &script, &replies));
    Ok(())
}

//! Rounds until the indices of rings begin again.

use super::{repeated, run};
use std::alloc::AllocError;
use vb_command::SUCCESS;

/// A guest with queues of two descriptors starts: the script, and its replies.
static START: (&str, &str) = (
    "\
host 64
spare immediate
plug 64 2 1
init 0
",
    "\
guest 0
ready
",
);

/// A round, and its replies: a page is lent, and given back.
static ROUND: (&str, &str) = (
    "\
target 0 1
inflate 0 1
take 0 0
finish 0 0 0
reap 0 0
target 0 0
deflate 0 1
take 0 1
finish 0 1 0
reap 0 1
",
    "\
ok
posted 0 1
taken 0
finished 0
reaped 0 1
ok
posted 0 1
taken 0
finished 0
reaped 0 1
",
);

/// Rounds after which the indices of both queues, numbers of 16 bits, have begun again.
const ROUNDS: usize = 65_540;

#[test]
fn queues_go_on_where_their_indices_begin_again(rt: HostRuntime) -> Result<(), AllocError> {
    let script = repeated(rt.alloc(), START.0, ROUND.0, ROUNDS, "")?;
    let replies = repeated(rt.alloc(), START.1, ROUND.1, ROUNDS, "")?;
    let outcome = run(rt.alloc(), script.as_slice());
    assert!(rt; outcome.shows(replies.as_slice(), b"", SUCCESS));
    Ok(())
}

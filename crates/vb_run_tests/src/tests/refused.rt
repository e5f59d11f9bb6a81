//! An allocation failure, wherever it meets a run.

use crate::tests::leased::Ended;
use crate::tests::rows::TWO_GUESTS;
use std::process::Abort;
use vb_run::{Bells, RunFault};

/// What a refused request left.
#[derive(Clone, Copy, Debug)]
enum Left {
    /// It was one that the test makes beside the run.
    NoRun,
    /// There is no report.
    NoReport,
    /// There is a report, which is whole.
    Report,
}

/// What a run left; no frame is out.
fn left_by(rt: &impl Abort, ended: &Ended) -> Left {
    assert!(rt; ended.is_clean(), "no frame is out");
    match &ended.result {
        Ok(report) => {
            assert!(rt; report.guests.len() == 2, "both guests are in the report");
            Left::Report
        }
        Err(fault) => {
            assert!(rt; *fault == RunFault::Memory, "the run ends by {fault:?}");
            Left::NoReport
        }
    }
}

/// Whichever request for memory is refused, or thread, there is no report and no frame is out, or a
/// whole one: `tools/refuse-memory --threads` refuses each in turn, and reads what was left.
#[test]
fn want_of_memory_leaves_no_report_or_a_whole_one(rt: HostRuntime) {
    let left = match TWO_GUESTS.run(&rt, rt.alloc(), Bells::Plain) {
        Ok(ended) => left_by(&rt, &ended),
        Err(_refused) => Left::NoRun,
    };
    let _ = eprintln!(rt; "left: {left:?}");
}

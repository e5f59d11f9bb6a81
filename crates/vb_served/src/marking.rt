//! The set of ballooned pages, by the runs that a notice tells.

ghost use Rattle.std.specs.Prelude.{◌≡◌, slice_set};
ghost use Rattle.vb_device.specs.Discards.{flagged};
ghost use Rattle.vb_core.specs.Ballooned.{is_entering};
ghost use Rattle.vb_core.specs.Runs.{pages_of_run, pages_of_runs};

use vb_bits::BitSet;
use vb_core::{Marking, Run};

/// Has a page enter the set, or leave it, if there is such a page.
fn mark_page(ballooned: &mut BitSet, page: u64, marking: Marking)
    ensures { ballooned.new ≡ slice_set ballooned.old page (is_entering marking) }
{
    if page < u64::from(ballooned.bound()) {
        ballooned.set(page as u32, marking == Marking::Enter);
    }
}

/// Has the pages of a run enter the set, or leave it.
fn mark_run(ballooned: &mut BitSet, run: Run, marking: Marking)
    ensures { ballooned.new ≡ flagged (pages_of_run run) (is_entering marking) ballooned.old }
{
    for k in 0..run.count {
        mark_page(ballooned, u64::from(run.first) + u64::from(k), marking);
    }
}

/// Has the pages of all runs enter the set, or leave it.
pub(crate) fn mark_runs(ballooned: &mut BitSet, runs: &[Run], marking: Marking)
    ensures { ballooned.new ≡ flagged (pages_of_runs runs.now) (is_entering marking) ballooned.old }
{
    for k in 0..runs.len() {
        mark_run(ballooned, runs[k], marking);
    }
}

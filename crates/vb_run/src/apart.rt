//! Whether guests have their frames for themselves.

ghost use Rattle.std.specs.Prelude.{◌≡◌, ◌↔◌, ◌≤◌, ◌<◌, ℕ, true, IfOk, sum_by};
ghost use Rattle.vb_virtio.specs.Tests.{times};
ghost use Rattle.vb_run.specs.Reports.{AreApart};
ghost use Rattle.vb_run.specs.Rising.{IsRising};

use crate::report::GuestReport;
use std::alloc::{AllocError, Global};

/// Whether each number is above the one before it.
fn is_rising(numbers: &[u32]) -> bool
    ensures { (result ≡ true) ↔ IsRising numbers.now }
{
    for place in 1..numbers.len() {
        if numbers[place - 1] >= numbers[place] {
            return false;
        }
    }
    true
}

/// The frames of all guests.
fn all_frames(alloc: Global, reports: &[GuestReport]) -> Result<Vec<u32>, AllocError>
    ensures { IfOk result (λ all. (frame : ℕ)
        → times frame all.items ≡ sum_by (λ r. times frame r.frames.items) reports.now) }
{
    let mut all = Vec::new(alloc);
    for report in reports {
        all.extend_from_slice(report.frames.as_slice())?;
    }
    Ok(all)
}

/// Whether no frame is twice among those of all guests.
pub(crate) fn are_apart(alloc: Global, reports: &[GuestReport]) -> Result<bool, AllocError>
    ensures { IfOk result (λ apart. (apart ≡ true) ↔ AreApart reports.now) }
{
    let mut frames = all_frames(alloc, reports)?;
    frames.sort_unstable();
    Ok(is_rising(frames.as_slice()))
}

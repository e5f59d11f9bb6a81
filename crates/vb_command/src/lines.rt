//! The lines that tell of a run of guests on threads.

ghost use Rattle.std.specs.Prelude.{◌≡◌, ◌≤◌, true, length, OnOk};
ghost use Rattle.std.specs.Io.KnownBytes.{Appends};
ghost use Rattle.std.specs.List.{list_all};
ghost use Rattle.vb_run.specs.Plans.{is_guest_plan};
ghost use Rattle.vb_command.specs.Threads.{calls_of, guest_line, guest_lines, report_lines};

use std::io;
use std::io::Write;
use vb_run::{GuestPlan, GuestReport, Plan, Report};

/// Writes a line for each guest: how many calls its scripts have, and how many frames it has at the
/// end; and last that no two guests have a frame in common.
pub fn write_report<W: Write>(out: &mut W, plan: &Plan, report: &Report) -> io::Result<()>
    requires guests { length report.now.guests.items ≡ length plan.now.guests.items }
    requires plan { list_all is_guest_plan plan.now.guests.items ≡ true }
    ensures { OnOk result
        (Appends (W.contents out.old) (W.contents out.new) (report_lines plan.now report.now)) }
{
    write_guests(out, plan.guests.as_slice(), report.guests.as_slice())?;
    writeln!(out, "disjoint")?;
    out.flush()
}

/// Writes a line for each guest.
fn write_guests<W: Write>(
    out: &mut W,
    plans: &[GuestPlan],
    reports: &[GuestReport],
) -> io::Result<()>
    requires guests { length reports.now ≡ length plans.now }
    requires plans { list_all is_guest_plan plans.now ≡ true }
    ensures { OnOk result
        (Appends (W.contents out.old) (W.contents out.new) (guest_lines 0 plans.now reports.now)) }
{
    for guest in 0..plans.len() {
        write_guest(out, guest, &plans[guest], &reports[guest])?;
    }
    Ok(())
}

/// Writes the line of one guest.
fn write_guest<W: Write>(
    out: &mut W,
    guest: usize,
    plan: &GuestPlan,
    report: &GuestReport,
) -> io::Result<()>
    requires { is_guest_plan plan.now ≡ true }
    ensures { OnOk result (Appends (W.contents out.old) (W.contents out.new)
        (guest_line guest (calls_of plan.now) (length report.now.frames.items))) }
{
    let calls = count_calls(plan);
    let frames = report.frames.len();
    writeln!(out, "guest {guest} calls {calls} frames {frames}")
}

/// How many calls all scripts of a guest have.
fn count_calls(plan: &GuestPlan) -> u64
    requires { is_guest_plan plan.now ≡ true }
    ensures { result ≡ calls_of plan.now }
{
    let mut calls = 0;
    for script in &plan.scripts {
        calls += script.len() as u64;
    }
    calls
}

//! A run of guests on threads, each on a device of its own that leases its frames from one table.

ghost use Rattle.std.specs.Prelude.{◌≡◌, ◌↔◌, ◌≤◌, ◌<◌, true, length, map, All, MatchResult};
ghost use Rattle.vb_virtio.specs.declared.limits.TheConstants.{MAX_FRAMES, MAX_GUESTS};
ghost use Rattle.vb_run.specs.Plans.{is_plan};
ghost use Rattle.vb_run.specs.Reports.{IsReport};
ghost use Rattle.vb_script.specs.Lines.{is_paced};
ghost use Rattle.vb_command.specs.Threads.{AreWithin, IsPlanFault};

use crate::fault::ProgramFault;
use std::alloc::Global;
use std::sync::Wait;
use std::thread::Threads;
use vb_device::{ImmediateDevice, PacedDevice};
use vb_run::{GuestPort, GuestReport, OpenGate, Plan, Report, add_port, run_threads};
use vb_script::Pace;
use vb_shared::{Leased, SharedFrames};
use vb_slot::LonePort;

/// Runs a plan, each guest on a paced device where its pace in this list is, else on an immediate
/// one. A report with a frame that isn't the host's is a failed audit.
pub fn run_plan<T: Threads + Wait + Sync>(
    rt: &T,
    alloc: Global,
    plan: &Plan,
    paces: &[Pace],
) -> Result<Report, ProgramFault>
    requires some_frames { 1 ≤ plan.now.frames }
    requires few_frames { plan.now.frames ≤ MAX_FRAMES }
    requires some_guests { 1 ≤ length paces.now }
    requires few_guests { length paces.now ≤ MAX_GUESTS }
    requires paces { length paces.now ≡ length plan.now.guests.items }
    ensures { MatchResult result
        (λ report. (is_plan plan.now (length plan.now.guests.items) ≡ true)
        × IsReport plan.now (map is_paced paces.now) report
        × AreWithin plan.now.frames report.guests.items)
        (λ fault. IsPlanFault (is_plan plan.now (length plan.now.guests.items)) fault) }
{
    let (_frames, passes) = SharedFrames::open(alloc, plan.frames, paces.len() as u32)?;
    let mut passes = passes.into_iter();
    let mut ports: Vec<LonePort> = Vec::new(alloc);
    for pace in paces {
        let Some(pass) = passes.next() else {
            return Err(ProgramFault::Memory);
        };
        if pace.is_paced() {
            let device = Leased::new(PacedDevice::new(alloc), pass);
            let Ok(device) = Box::new(alloc, device) else {
                return Err(ProgramFault::Memory);
            };
            let port = LonePort::new(device);
            add_port(&mut ports, port)?;
        } else {
            let device = Leased::new(ImmediateDevice::new(alloc), pass);
            let Ok(device) = Box::new(alloc, device) else {
                return Err(ProgramFault::Memory);
            };
            let port = LonePort::new(device);
            add_port(&mut ports, port)?;
        }
    }
    run_within(rt, alloc, plan, ports)
}

/// Runs a plan at these ports, and audits whether the frames of its report are the
/// host's.
fn run_within<T: Threads + Wait + Sync, P: GuestPort>(
    rt: &T,
    alloc: Global,
    plan: &Plan,
    ports: Vec<P>,
) -> Result<Report, ProgramFault>
    requires { All P.waits ports.items }
    ensures { MatchResult result
        (λ report. (is_plan plan.now (length ports.items) ≡ true)
        × IsReport plan.now (map P.pace ports.items) report
        × AreWithin plan.now.frames report.guests.items)
        (λ fault. IsPlanFault (is_plan plan.now (length ports.items)) fault) }
{
    let report = run_threads(rt, alloc, plan, ports, &OpenGate)?;
    if !are_within(plan.frames, report.guests.as_slice()) {
        return Err(ProgramFault::Audit);
    }
    Ok(report)
}

/// Whether each frame of these guests is one of the first `frames`.
fn are_within(frames: u32, reports: &[GuestReport]) -> bool
    ensures { (result ≡ true) ↔ AreWithin frames reports.now }
{
    for report in reports {
        if !are_below(frames, report.frames.as_slice()) {
            return false;
        }
    }
    true
}

/// Whether each of these numbers is below the first.
fn are_below(bound: u32, numbers: &[u32]) -> bool
    ensures { (result ≡ true) ↔ All (λ n. n < bound) numbers.now }
{
    for number in numbers {
        if *number >= bound {
            return false;
        }
    }
    true
}

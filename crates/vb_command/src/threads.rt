//! The run of a script for guests on threads, from its bytes to the exit status.

ghost use Rattle.std.specs.Prelude.{◌≡◌, Ok, Err, Some, IfErr, IfOk, IfSome, OnOk, MatchResult};
ghost use Rattle.std.specs.Io.KnownBytes.{Keeps};
ghost use Rattle.vb_script.specs.Plans.{planned_by, threads_script_of};
ghost use Rattle.vb_command.specs.Ends.{IsWithinBound};
ghost use Rattle.vb_command.specs.Faults.{UnlessStream};
ghost use Rattle.vb_command.specs.Threads.{IsRunOf, IsRunOfText, IsTextFault, IsThreadsFault};
ghost use Rattle.vb_command.specs.Threads.{PrintsReport, ThreadsEnds};

use crate::fault::{ProgramFault, SUCCESS, report};
use crate::input::read_text;
use crate::lines::write_report;
use crate::plans::{paces_of, plan_of};
use crate::ports::run_plan;
use std::alloc::Global;
use std::io::{Read, Write};
use std::sync::Wait;
use std::thread::Threads;
use vb_run::{Bells, Plan, Report};
use vb_script::{ThreadsScript, parse_threads};
use vb_virtio::limits::MAX_GUESTS;

/// Reads a script from `input`, runs its guests on threads, with doorbells rung in this mode, and
/// once all have ended writes a line for each to `output` and last `disjoint`. Answers the exit
/// status; where it is 1, 3 or 5, `errors` has a line that says why, and `output` nothing.
pub fn threads_script<T, R, O, E>(
    rt: &T,
    alloc: Global,
    bells: Bells,
    input: R,
    output: &mut O,
    errors: &mut E,
) -> u8
where
    T: Threads + Wait + Sync,
    R: Read + Drop,
    O: Write,
    E: Write,
    ensures { ThreadsEnds bells (R.remaining input) (O.contents output.old)
        (O.contents output.new) (E.contents errors.old) (E.contents errors.new) result }
{
    match answer(rt, alloc, bells, input, output) {
        Ok(()) => SUCCESS,
        Err(fault) => report(&fault, errors),
    }
}

/// Reads a script, runs its guests and writes their lines, once all threads have ended.
fn answer<T: Threads + Wait + Sync, R: Read + Drop, O: Write>(
    rt: &T,
    alloc: Global,
    bells: Bells,
    input: R,
    output: &mut O,
) -> Result<(), ProgramFault>
    ensures ok { OnOk result (IfSome (R.remaining input) (λ text. IsWithinBound text
        × PrintsReport bells (threads_script_of text) (O.contents output.old)
        (O.contents output.new))) }
    ensures fault { IfErr result (λ fault. IfSome (R.remaining input)
        (λ text. IsTextFault text fault)) }
    ensures nothing { IfErr result
        (λ fault. UnlessStream fault (Keeps (O.contents output.old) (O.contents output.new))) }
{
    let text = read_text(alloc, input)?;
    run_into(rt, alloc, bells, text, output)
}

/// Runs the guests of a script and writes their lines to `out`. Nothing is written where there is
/// no report.
fn run_into<T: Threads + Wait + Sync, W: Write>(
    rt: &T,
    alloc: Global,
    bells: Bells,
    text: Vec<u8>,
    out: &mut W,
) -> Result<(), ProgramFault>
    ensures ok { OnOk result (PrintsReport bells (threads_script_of text.items)
        (W.contents out.old) (W.contents out.new)) }
    ensures fault { IfErr result
        (λ fault. IsThreadsFault (threads_script_of text.items) fault) }
    ensures nothing { IfErr result
        (λ fault. UnlessStream fault (Keeps (W.contents out.old) (W.contents out.new))) }
{
    let (plan, report) = run_text(rt, alloc, bells, text)?;
    match write_report(out, &plan, &report) {
        Ok(()) => Ok(()),
        Err(_fault) => Err(ProgramFault::Stream),
    }
}

/// The plan of a script, and the report of a run of it.
fn run_text<T: Threads + Wait + Sync>(
    rt: &T,
    alloc: Global,
    bells: Bells,
    text: Vec<u8>,
) -> Result<(Plan, Report), ProgramFault>
    ensures ok { IfOk result
        (λ run. IsRunOfText (threads_script_of text.items) bells run.0 run.1) }
    ensures fault { IfErr result
        (λ fault. IsThreadsFault (threads_script_of text.items) fault) }
{
    let script = read_script(alloc, text)?;
    run_planned(rt, alloc, bells, script)
}

/// Reads a script that makes a plan from its text, which is let go before anything runs.
fn read_script(alloc: Global, text: Vec<u8>) -> Result<ThreadsScript, ProgramFault>
    ensures ok { IfOk result
        (λ script. threads_script_of text.items ≡ Ok (Some (planned_by script))) }
    ensures fault { IfErr result
        (λ fault. IsThreadsFault (threads_script_of text.items) fault) }
{
    match parse_threads(alloc, text.as_slice())? {
        Some(script) => Ok(script),
        None => Err(ProgramFault::BadPlan),
    }
}

/// Runs the plan of a script, each guest on a device of its pace: the plan and the report.
fn run_planned<T: Threads + Wait + Sync>(
    rt: &T,
    alloc: Global,
    bells: Bells,
    script: ThreadsScript,
) -> Result<(Plan, Report), ProgramFault>
    ensures { MatchResult result
        (λ run. IsRunOf (planned_by script) bells run.0 run.1)
        (λ fault. IsThreadsFault (Ok (Some (planned_by script))) fault) }
{
    let paces = paces_of(alloc, script.guests.as_slice())?;
    let Some(plan) = plan_of(alloc, script, bells)? else {
        return Err(ProgramFault::BadPlan);
    };
    if paces.len() > MAX_GUESTS as usize {
        return Err(ProgramFault::BadPlan);
    }
    let report = run_plan(rt, alloc, &plan, paces.as_slice())?;
    Ok((plan, report))
}

//! Runs a script: events on a host and its guests, or guests on threads.
#![tactic(auto)]

use std::env;
use std::process::ExitCode;
use std::rt::Env;
use vb_command::{ArgumentsFault, run_command};

fn main(rt: HostRuntime) -> ExitCode {
    let words = command_line(&rt);
    let input = rt.reader();
    let status = run_command(
        &rt,
        rt.alloc(),
        words,
        input,
        &mut rt.stdout(),
        &mut rt.stderr(),
    );
    ExitCode::from(status)
}

/// The words of the command line that the program was given.
fn command_line(rt: &(impl Env + AllocGlobal)) -> Result<Vec<String>, ArgumentsFault> {
    Ok(env::args(rt)?.collect(rt.alloc())?)
}

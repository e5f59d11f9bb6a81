//! Runs the scripts that a list names in the folder in which it is started, and says which of them
//! don't write what their files say: by the program's own command lines, and on other hosts.
#![tactic(auto)]

mod leased;
mod listed;
mod listing;
mod noticed;
mod runs;
mod script;

use runs::first_difference;
use std::process::ExitCode;
use std::{fs, io};

/// The file that names the scripts: a line for each, which has its name without an ending, and then
/// the words of the other hosts that it runs on.
const LIST: &str = "list";

fn main(rt: HostRuntime) -> io::Result<ExitCode> {
    let list = fs::read_to_string(&rt, LIST)?;
    let (mut passed, mut failed) = (0u64, 0u64);
    for line in list.lines() {
        match first_difference(&rt, line)? {
            None => passed = passed.saturating_add(1),
            Some(run) => {
                println!(rt; "{line}: not what its files say, by {run}")?;
                failed = failed.saturating_add(1);
            }
        }
    }
    println!(rt; "{passed} passed, {failed} failed")?;
    Ok(ExitCode::from(u8::from(failed > 0)))
}

//! What the contracts leave open: what a whole run writes, the exit statuses, and the command line.

mod command_lines;
mod faults;
mod largest_guest;
mod long_reports;
mod longest;
mod rounds;
mod runs;
mod sizes;
mod threads;

use std::alloc::{AllocError, Global};
use vb_command::run_script;

/// What a run wrote to the output and to the errors, and its exit status.
#[derive(Drop)]
struct Outcome {
    output: Vec<u8>,
    errors: Vec<u8>,
    status: u8,
}

impl Outcome {
    /// Whether the run wrote these texts and has this exit status.
    fn shows(&self, output: &[u8], errors: &[u8], status: u8) -> bool {
        self.status == status
            && self.output.as_slice() == output
            && self.errors.as_slice() == errors
    }
}

/// Runs a script on a host of the program's.
fn run(alloc: Global, script: &[u8]) -> Outcome {
    let (mut output, mut errors) = (Vec::new(alloc), Vec::new(alloc));
    let status = run_script(alloc, script, &mut output, &mut errors);
    Outcome {
        output,
        errors,
        status,
    }
}

/// A text of this start, `count` times this part, and this end.
fn repeated(
    alloc: Global,
    start: &str,
    part: &str,
    count: usize,
    end: &str,
) -> Result<Vec<u8>, AllocError> {
    let mut text = Vec::from_slice(alloc, start.as_bytes())?;
    for _ in 0..count {
        text.extend_from_slice(part.as_bytes())?;
    }
    text.extend_from_slice(end.as_bytes())?;
    Ok(text)
}

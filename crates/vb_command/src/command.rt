//! What a command line asks for, from its words to the exit status.

ghost use Rattle.std.specs.Prelude.{◌≡◌, IfErr, IfOk, OnOk, Some};
ghost use Rattle.std.specs.Io.KnownBytes.{Appends};
ghost use Rattle.vb_command.specs.Arguments.{asked_by, refusal_line, refusal_status};
ghost use Rattle.vb_command.specs.Ends.{Says};
ghost use Rattle.vb_command.specs.Commands.{CommandEnds};

use crate::arguments::{ArgumentsFault, Asked, read_arguments};
use crate::fault::{BAD_ARGUMENTS, BROKEN_STREAM, NO_MEMORY};
use crate::run::run_script;
use crate::threads::threads_script;
use std::alloc::Global;
use std::io;
use std::io::{Read, Write};
use std::sync::Wait;
use std::thread::Threads;

/// Does what the words of a command line ask for, the program's name first. Answers the exit
/// status: that of what was run, or where nothing is asked for 2 or 3, and `errors` has a line that
/// says why.
pub fn run_command<T, R, O, E>(
    rt: &T,
    alloc: Global,
    words: Result<Vec<String>, ArgumentsFault>,
    input: R,
    output: &mut O,
    errors: &mut E,
) -> u8
where
    T: Threads + Wait + Sync,
    R: Read + Drop,
    O: Write,
    E: Write,
    ensures { CommandEnds words
        (R.remaining input) (O.contents output.old) (O.contents output.new)
        (E.contents errors.old) (E.contents errors.new) result }
{
    match ask(alloc, words) {
        Ok(Asked::Run) => run_script(alloc, input, output, errors),
        Ok(Asked::Threads(bells)) => threads_script(rt, alloc, bells, input, output, errors),
        Err(fault) => refuse(fault, errors),
    }
}

/// What the words ask for, if they could be had.
fn ask(alloc: Global, words: Result<Vec<String>, ArgumentsFault>) -> Result<Asked, ArgumentsFault>
    ensures asked { IfOk result (λ asked. asked_by words ≡ Some asked) }
    ensures given { IfErr words (λ fault. result ≡ Err fault) }
{
    match words {
        Ok(words) => read_arguments(alloc, words.as_slice()),
        Err(fault) => Err(fault),
    }
}

/// Writes why a command line asks for nothing, and answers its exit status, or where that can't be
/// written the one of a broken stream.
pub fn refuse<E: Write>(fault: ArgumentsFault, errors: &mut E) -> u8
    ensures { Says (refusal_line fault) (refusal_status fault) (E.contents errors.old)
        (E.contents errors.new) result }
{
    match write_refusal(fault, errors) {
        Ok(()) => fault.status(),
        Err(_fault) => BROKEN_STREAM,
    }
}

impl ArgumentsFault {
    /// The exit status.
    fn status(self) -> u8
        ensures { result ≡ refusal_status self }
    {
        match self {
            ArgumentsFault::Refused => BAD_ARGUMENTS,
            ArgumentsFault::Memory => NO_MEMORY,
        }
    }
}

/// Writes a line that says why a command line asks for nothing.
fn write_refusal<E: Write>(fault: ArgumentsFault, errors: &mut E) -> io::Result<()>
    ensures { OnOk result
        (Appends (E.contents errors.old) (E.contents errors.new) (refusal_line fault)) }
{
    match fault {
        ArgumentsFault::Refused => writeln!(errors, "usage: vb_sim run | threads [--bells MODE]"),
        ArgumentsFault::Memory => writeln!(errors, "run: memory"),
    }
}

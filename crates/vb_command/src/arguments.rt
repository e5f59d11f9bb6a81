//! The command line.

ghost use Rattle.std.specs.Prelude.{◌≡◌, ◌≢◌, drop, map, string_bytes, IfOk, Some};
ghost use Rattle.vb_command.specs.Arguments.{asked_of, bells_joined, bells_named, command_of};
ghost use Rattle.vb_command.specs.Arguments.{run_with, threads_with};

use clap::error::ErrorKind;
use clap::{Arg, ArgAction, Command, Error};
use std::alloc::{AllocError, Global};
use std::io;
use vb_run::Bells;

/// What a command line asks for.
#[derive(Clone, Copy, Debug, PartialEq, Eq)]
pub enum Asked {
    /// To run a script of events.
    Run,
    /// To run a script for guests on threads, with doorbells rung like this.
    Threads(Bells),
}

/// Why a command line asks for nothing.
#[derive(Clone, Copy, Debug, PartialEq, Eq, thiserror::Error)]
pub enum ArgumentsFault {
    /// The command line isn't understood.
    #[error("usage: vb_sim run | threads [--bells MODE]")]
    Refused,
    /// There was no memory to read it.
    #[error("run: memory")]
    Memory,
}

impl From<AllocError> for ArgumentsFault {
    ghost use Rattle.vb_command.specs.declared.arguments.ArgumentsFault.TheVariants.{Memory};

    ghost from_gives = { λ _ r. r ≡ Memory };

    fn from(_fault: AllocError) -> ArgumentsFault {
        ArgumentsFault::Memory
    }
}

impl From<io::Error> for ArgumentsFault {
    ghost use Rattle.vb_command.specs.Arguments.{IsFaultOf};

    ghost from_gives = { λ fault r. IsFaultOf fault r };

    fn from(fault: io::Error) -> ArgumentsFault {
        match fault.kind() {
            io::ErrorKind::OutOfMemory => ArgumentsFault::Memory,
            _ => ArgumentsFault::Refused,
        }
    }
}

impl From<Error> for ArgumentsFault {
    ghost use Rattle.vb_command.specs.Arguments.{IsRefusalOf};

    ghost from_gives = { λ fault r. IsRefusalOf fault r };

    fn from(fault: Error) -> ArgumentsFault {
        match fault.kind() {
            ErrorKind::OutOfMemory => ArgumentsFault::Memory,
            _ => ArgumentsFault::Refused,
        }
    }
}

/// What the words of a command line, the program's name first, ask for: `run`, or no word at all;
/// or `threads`, with `--bells MODE` or without.
pub fn read_arguments(alloc: Global, words: &[String]) -> Result<Asked, ArgumentsFault>
    ensures { IfOk result (λ asked. asked_of (map string_bytes words.now) ≡ Some asked) }
{
    command(alloc)?.try_get_matches_from(words)?;
    asked_of(words).ok_or(ArgumentsFault::Refused)
}

/// What these words ask for. `--` alone, after which all words are plain values, is understood too,
/// but asks for nothing.
fn asked_of(words: &[String]) -> Option<Asked>
    ensures { result ≡ asked_of (map string_bytes words.now) }
{
    match words.get(1) {
        None => Some(Asked::Run),
        Some(word) => command_of(word.as_str(), &words[2..]),
    }
}

/// What this word asks for with these words after it.
fn command_of(word: &str, words: &[String]) -> Option<Asked>
    ensures { result ≡ command_of word.now (map string_bytes words.now) }
{
    match word {
        "run" => run_with(words),
        "threads" => threads_with(words),
        _ => None,
    }
}

/// What `run` asks for with these words after it.
fn run_with(words: &[String]) -> Option<Asked>
    ensures { result ≡ run_with (map string_bytes words.now) }
{
    if words.is_empty() {
        Some(Asked::Run)
    } else {
        None
    }
}

/// What `threads` asks for with these words after it.
fn threads_with(words: &[String]) -> Option<Asked>
    ensures { result ≡ threads_with (map string_bytes words.now) }
{
    let bells = match words {
        [] => Some(Bells::Plain),
        [option] => bells_joined(option.as_str()),
        [option, mode] if option.as_str() == "--bells" => bells_named(mode.as_str()),
        _ => None,
    };
    bells.map(Asked::Threads)
}

/// How doorbells are rung, by the word for it.
fn bells_named(mode: &str) -> Option<Bells>
    ensures { result ≡ bells_named mode.now }
{
    match mode {
        "plain" => Some(Bells::Plain),
        "drop" => Some(Bells::Drop),
        "double" => Some(Bells::Double),
        "late" => Some(Bells::Late),
        _ => None,
    }
}

/// How doorbells are rung, by an option `--bells=MODE`.
fn bells_joined(option: &str) -> Option<Bells>
    ensures { result ≡ bells_joined option.now }
{
    match option {
        "--bells=plain" => Some(Bells::Plain),
        "--bells=drop" => Some(Bells::Drop),
        "--bells=double" => Some(Bells::Double),
        "--bells=late" => Some(Bells::Late),
        _ => None,
    }
}

/// What the program understands. A call for help is refused like any other word.
fn command<'a>(alloc: Global) -> Result<Command<'a>, AllocError> {
    let threads = threads_command(alloc)?;
    command_to_run(alloc)?.subcommand(threads)
}

/// The program with the command that runs a script of events.
fn command_to_run<'a>(alloc: Global) -> Result<Command<'a>, AllocError> {
    let run = Command::new(alloc, "run").disable_help_flag(true);
    Command::new(alloc, "vb_sim")
        .disable_help_flag(true)
        .disable_version_flag(true)
        .disable_help_subcommand(true)
        .subcommand(run)
}

/// The command that runs guests on threads.
fn threads_command<'a>(alloc: Global) -> Result<Command<'a>, AllocError> {
    let bells = Arg::new(alloc, "bells")
        .long("bells")
        .action(ArgAction::Set);
    Command::new(alloc, "threads")
        .disable_help_flag(true)
        .arg(bells)
}

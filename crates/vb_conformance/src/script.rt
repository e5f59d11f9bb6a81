//! A script of a file, and what its runs have to write.

ghost use Rattle.std.specs.Prelude.{◌≡◌, true};

use std::alloc::{AllocError, Global};
use std::rt::Files;
use std::{fs, io};

/// A script, and what each of its runs has to write.
#[derive(Drop)]
pub struct Script {
    /// The command lines that it is run by: a line for each, with the words after the program's
    /// name; or the line `-`, by none.
    pub commands: String,
    /// The script itself.
    pub text: Vec<u8>,
    output: Vec<u8>,
    errors: Vec<u8>,
    status: u8,
}

impl Script {
    /// Reads the files of a script by its name: `NAME.script` and `NAME.expected`, and where they
    /// aren't the command line `run`, nothing and 0, `NAME.args`, `NAME.errors` and `NAME.status`.
    /// Fails where a file can't be read, and where a status is no number from 0 to 255.
    pub fn read<R: Files + AllocGlobal>(rt: &R, name: &str) -> io::Result<Script> {
        Ok(Script {
            commands: text_or(rt, name, "args", "run")?,
            text: fs::read(rt, path(rt.alloc(), name, "script")?.as_str())?,
            output: fs::read(rt, path(rt.alloc(), name, "expected")?.as_str())?,
            errors: text_or(rt, name, "errors", "")?.into_bytes(),
            status: status_of(text_or(rt, name, "status", "0")?.as_str())?,
        })
    }

    /// Whether this is what its files say of a run: all that is written to the output and to the
    /// errors, and the exit status.
    pub fn says(&self, output: &[u8], errors: &[u8], status: u8) -> bool
        ensures yes { result ≡ true → (self.now.status ≡ status)
            × (self.now.output.items ≡ output.now) × (self.now.errors.items ≡ errors.now) }
        ensures no { self.now.status ≡ status → self.now.output.items ≡ output.now →
            self.now.errors.items ≡ errors.now → result ≡ true }
    {
        self.status == status
            && self.output.as_slice() == output
            && self.errors.as_slice() == errors
    }
}

/// The path of a script's file of this ending.
fn path(alloc: Global, name: &str, ending: &str) -> Result<String, AllocError> {
    format!(in alloc; "{name}.{ending}")
}

/// The text of a script's file of this ending, or another text where there is no such file.
fn text_or<R>(rt: &R, name: &str, ending: &str, otherwise: &str) -> io::Result<String>
where
    R: Files + AllocGlobal,
{
    match fs::read_to_string(rt, path(rt.alloc(), name, ending)?.as_str()) {
        Err(fault) if fault.kind() == io::ErrorKind::NotFound => {
            Ok(String::from_str(rt.alloc(), otherwise)?)
        }
        read => read,
    }
}

/// The exit status that a text has.
fn status_of(text: &str) -> io::Result<u8> {
    match text.trim().parse::<u8>() {
        Ok(status) => Ok(status),
        Err(_fault) => Err(io::Error::from(io::ErrorKind::InvalidData)),
    }
}

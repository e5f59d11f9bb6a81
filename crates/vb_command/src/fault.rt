//! Why the program prints nothing, or not all: what is said of it, and the exit statuses.

ghost use Rattle.std.specs.Prelude.{◌≡◌, OnOk};
ghost use Rattle.std.specs.Io.KnownBytes.{Appends};
ghost use Rattle.vb_command.specs.Ends.{Says, fault_line};
ghost use Rattle.vb_command.specs.Faults.{status_of};

use std::alloc::{AllocError, AllocFailed};
use std::io;
use std::io::{ErrorKind, Write};
use thiserror::Error;
use vb_reply::Failed;
use vb_run::RunFault;
use vb_script::ScriptFault;

/// Exit status: all went well.
pub const SUCCESS: u8 = 0;

/// Exit status: the script breaks a rule, or makes no plan that can be run.
pub const BAD_SCRIPT: u8 = 1;

/// Exit status: the arguments aren't understood.
pub const BAD_ARGUMENTS: u8 = 2;

/// Exit status: there was no memory before anything could run, or guests on threads found none.
pub const NO_MEMORY: u8 = 3;

/// Exit status: reading or writing failed.
pub const BROKEN_STREAM: u8 = 4;

/// Exit status: guests on threads had a frame in common at their end, or one that isn't the host's,
/// or their report isn't the plan's.
pub const FAILED_AUDIT: u8 = 5;

/// Why a script's output isn't there, or not all of it.
#[derive(Debug, Drop, Error)]
pub enum ProgramFault {
    /// The line of this number, the first one that breaks a rule.
    #[error("script: line {0}: bad line")]
    BadLine(u64),
    /// The lines make no plan, or one that can't be run.
    #[error("run: bad plan")]
    BadPlan,
    /// There was no memory before anything could run, or guests on threads found none, or no thread
    /// could be made for one.
    #[error("run: memory")]
    Memory,
    /// Guests on threads had a frame in common at their end, or one that isn't the host's, or their
    /// report isn't the plan's.
    #[error("run: audit")]
    Audit,
    /// Reading or writing failed, or the script is too long. Nothing is said of it.
    #[error("run: broken stream")]
    Stream,
}

impl ProgramFault {
    /// The exit status.
    fn status(&self) -> u8
        ensures { result ≡ status_of self.now }
    {
        match self {
            ProgramFault::BadLine(_) | ProgramFault::BadPlan => BAD_SCRIPT,
            ProgramFault::Memory => NO_MEMORY,
            ProgramFault::Audit => FAILED_AUDIT,
            ProgramFault::Stream => BROKEN_STREAM,
        }
    }
}

impl From<AllocError> for ProgramFault {
    ghost use Rattle.vb_command.specs.declared.fault.ProgramFault.TheVariants.{Memory};

    ghost from_gives = { λ _ r. r ≡ Memory };

    fn from(_fault: AllocError) -> ProgramFault {
        ProgramFault::Memory
    }
}

impl<T: Drop> From<AllocFailed<T>> for ProgramFault {
    ghost use Rattle.vb_command.specs.declared.fault.ProgramFault.TheVariants.{Memory};

    ghost from_gives = { λ _ r. r ≡ Memory };

    fn from(_fault: AllocFailed<T>) -> ProgramFault {
        ProgramFault::Memory
    }
}

impl From<Failed> for ProgramFault {
    ghost use Rattle.vb_command.specs.declared.fault.ProgramFault.TheVariants.{Stream};

    ghost from_gives = { λ _ r. r ≡ Stream };

    fn from(_fault: Failed) -> ProgramFault {
        ProgramFault::Stream
    }
}

impl From<ScriptFault> for ProgramFault {
    ghost use Rattle.vb_command.specs.Faults.{fault_of};

    ghost from_gives = { λ fault r. r ≡ fault_of fault };

    fn from(fault: ScriptFault) -> ProgramFault {
        match fault {
            ScriptFault::BadLine(line) => ProgramFault::BadLine(line),
            ScriptFault::Memory => ProgramFault::Memory,
        }
    }
}

impl From<RunFault> for ProgramFault {
    ghost use Rattle.vb_command.specs.Faults.{fault_of_threads};

    ghost from_gives = { λ fault r. r ≡ fault_of_threads fault };

    fn from(fault: RunFault) -> ProgramFault {
        match fault {
            RunFault::Memory => ProgramFault::Memory,
            RunFault::BadPlan => ProgramFault::BadPlan,
            RunFault::Audit => ProgramFault::Audit,
        }
    }
}

impl From<io::Error> for ProgramFault {
    ghost use Rattle.vb_command.specs.Faults.{IsStreamFault};

    ghost from_gives = { λ fault r. IsStreamFault fault r };

    fn from(fault: io::Error) -> ProgramFault {
        match fault.kind() {
            ErrorKind::OutOfMemory => ProgramFault::Memory,
            _ => ProgramFault::Stream,
        }
    }
}

/// Writes why there is no output, and answers its exit status: that of the fault, or where that
/// can't be written the one of a broken stream.
pub fn report<E: Write>(fault: &ProgramFault, errors: &mut E) -> u8
    ensures { Says (fault_line fault.now) (status_of fault.now) (E.contents errors.old)
        (E.contents errors.new) result }
{
    match write_fault(fault, errors) {
        Ok(()) => fault.status(),
        Err(_fault) => BROKEN_STREAM,
    }
}

/// Writes a line that says why there is no output, but of a broken stream.
fn write_fault<E: Write>(fault: &ProgramFault, errors: &mut E) -> io::Result<()>
    ensures { OnOk result
        (Appends (E.contents errors.old) (E.contents errors.new) (fault_line fault.now)) }
{
    match fault {
        ProgramFault::BadLine(line) => writeln!(errors, "script: line {line}: bad line"),
        ProgramFault::BadPlan => writeln!(errors, "run: bad plan"),
        ProgramFault::Memory => writeln!(errors, "run: memory"),
        ProgramFault::Audit => writeln!(errors, "run: audit"),
        ProgramFault::Stream => Ok(()),
    }
}

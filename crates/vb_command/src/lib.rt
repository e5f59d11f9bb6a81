//! What the program `vb_sim` does, over any reader and writers: it runs a script of events on a
//! host and its guests, or a script of guests on threads.
#![tactic(auto)]

mod arguments;
mod command;
mod fault;
mod host;
mod input;
mod lines;
mod plans;
mod play;
mod ports;
mod run;
mod threads;

pub use arguments::{ArgumentsFault, Asked, read_arguments};
pub use command::{refuse, run_command};
pub use fault::{
    BAD_ARGUMENTS, BAD_SCRIPT, BROKEN_STREAM, FAILED_AUDIT, NO_MEMORY, ProgramFault, SUCCESS,
    report,
};
pub use host::Host;
pub use play::{Play, write_lines};
pub use run::{run_script, run_script_on};
pub use threads::threads_script;

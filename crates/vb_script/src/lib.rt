//! The language of scripts: what happens on a host as lines of text.
//!
//! `parse` reads a text to a `Script`: a host's frames, its spare devices, and events in order.
//! `parse_threads` reads one to a `ThreadsScript`: a host's frames, and guests whose processors
//! have a list of calls each.
//! `docs/SCRIPTS.md` has the rules of the format; `vb_reply` writes the lines that the events are
//! answered with. Any implementation may answer them.
#![tactic(auto)]

mod events;
mod lines;
mod names;
mod plans;
mod reading;
mod script;
mod texts;
mod threads;
mod values;
mod words;

pub use lines::Pace;
pub use reading::{ScriptFault, parse, parse_threads};
pub use script::{MAX_SPARES, Script, ThreadsGuest, ThreadsScript};

//! The text of replies: what an event is answered, as a line.
//!
//! `write_reply` writes a reply's line, `write_replies` those of many, and `put_reply` one after
//! others as replies come. `docs/SCRIPTS.md` has all lines; `vb_script` reads those of events.
//! Any implementation may answer the events.
#![tactic(auto)]

mod held;
mod refusals;
mod replies;

pub use held::{Failed, Held, release};
pub use replies::{put_reply, write_replies, write_reply};

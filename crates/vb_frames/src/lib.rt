//! Who hands out a host's frames, and a table that does (profile).
#![tactic(auto)]

mod keeper;
mod table;

pub use keeper::{FrameKeeper, Refused};
pub use table::{FrameTable, a_table_gives_the_least};

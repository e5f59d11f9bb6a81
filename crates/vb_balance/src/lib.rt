//! How many pages each guest is asked to give, so that the host's frames suffice (profile).
#![tactic(auto)]

mod levels;
mod need;
mod sharing;

pub use need::{GuestNeed, Short, Targets};
pub use sharing::{targets, targets_are_unique};

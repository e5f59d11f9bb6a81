//! The balloon driver of a guest.
#![tactic(auto)]

mod answers;
mod areas;
mod driver;
mod lives;
mod memory;
mod places;
mod queue;
mod reaping;
mod reporting;
mod reports;
mod requests;
mod statistics;

pub use answers::{Posted, Reaped};
pub use driver::Driver;

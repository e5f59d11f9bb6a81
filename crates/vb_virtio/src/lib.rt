//! What every crate of this repository speaks of: the limits and the layout of queues, what an
//! initialisation agrees on, and why a call is refused.
#![tactic(auto)]

pub mod layout;
pub mod limits;
pub mod negotiation;
mod numbers;
mod refusals;
mod statistics;

pub use numbers::Numbers;
pub use refusals::Refusal;
pub use statistics::LastStatistics;

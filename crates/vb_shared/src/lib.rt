//! Frames that guests on threads share without a lock: an atomic word a frame, and a pass a guest.
#![tactic(auto)]

mod laws;
mod leased;
mod pass;
mod rule;
mod steps;

pub use laws::{each_kind_of_step_keeps_the_rule, what_the_rule_says};
pub use leased::Leased;
pub use pass::{FramePass, SharedFrames};

//! All guests of a host, and what happens to them.
#![tactic(auto)]

mod world;

pub use world::{World, add_spare};

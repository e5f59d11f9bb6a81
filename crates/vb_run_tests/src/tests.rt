//! Guests on leased frames, run on threads.

mod bad_plans;
mod frames;
mod gates;
mod history;
mod holds;
mod leased;
mod many;
mod notes;
mod order;
mod plans;
mod random;
mod reading;
mod refused;
mod rows;
mod sizes;
mod watch;

//! Which guest is asked for how much, so that a host has what it lacks: memory that guests use for
//! nothing before page cache, and page cache before reserves; by weight; moving few targets.
#![tactic(auto)]

mod asking;
mod decision;
mod figures;
mod guest;
mod laws;
mod level;
mod machine;
mod pressure;
mod settle;
mod tiers;
mod wants;

pub use asking::ask;
pub use decision::decide;
pub use figures::{Budget, Contact, Figures};
pub use guest::{Decision, Division, Guest, Host, Tier};
pub use laws::{
    budget_leaves_room, decisions_rest, least_pages_stay, no_more_is_given, no_more_than_asked,
    nobody_waits_in_vain, order_of_guests_is_free, parts_are_fair, parts_are_monotone,
    pressure_ends, pressure_lasts, targets_are_enough, targets_are_possible, tiers_are_in_order,
};
pub use machine::Machine;
pub use pressure::{Counter, Counters, KILLED_MS, PRESSED_MS, Pressure, Sample};

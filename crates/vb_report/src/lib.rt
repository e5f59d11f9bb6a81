//! Page reporting (profile): which free blocks a guest's driver offers to its host, what it says of
//! them in guest memory, and how they come back.
#![tactic(auto)]

mod blocks;
mod laws;
mod pieces;

pub use blocks::{Blocks, MAX_BLOCKS, choose, give_all};
pub use laws::reports_name_free_places;
pub use pieces::{Pieces, encode};

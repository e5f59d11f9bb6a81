//! The guest's page allocator: buddy areas with a list for each processor.
//!
//! Blocks of a power of two, their halving and merging and lists per processor are those of Gorman,
//! "Understanding the Linux Virtual Memory Manager", chapter 6. Which block a request gets, the
//! sizes of the lists and all numbers are the profile's.
#![tactic(auto)]

mod areas;
mod block;
mod fault;
mod free;
mod held;
mod lists;
mod pages;
mod table;

pub use block::FreeBlock;
pub use fault::PageFault;
pub use pages::Pages;
pub use table::MAX_PAGES;

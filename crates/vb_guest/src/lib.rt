//! One guest: what its balloon driver and its device do, as steps of the guest that they represent.
#![tactic(auto)]

mod calls;
mod device;
mod driver;
mod frames;
mod lives;
mod memory;
mod queries;
mod replies;
mod served;
mod serving;

pub use calls::{call, query};
pub use device::{ask, finish, set_target, sweep, take, work};
pub use driver::{alloc, deflate, free, inflate, oom, reap, report, stats};
pub use frames::{Claims, MAX_CLAIMS};
pub use lives::{empty, init, reset, restart};
pub use memory::{read, scribble, write};
pub use queries::{balloon, pages, pages_at, pages_ballooned, places, spare, statistics};
pub use served::Served;
pub use serving::serve;

//! Guest memory: pages of 4096 bytes, each backed by a frame or not, and the little-endian numbers
//! in it.
//!
//! An unbacked page reads as zeros and can't be written. `Ram` is the plain memory; a device that
//! keeps more beside the bytes implements `GuestBytes` too, and says by `Part` what each of its
//! calls leaves.
#![tactic(auto)]

mod bytes;
mod config;
mod fault;
mod fields;
mod frame;
mod laws;
mod memory;
mod shape;

pub use bytes::GuestBytes;
pub use config::Config;
pub use fault::RamFault;
pub use fields::{read_u16, read_u32, read_u64, write_u16, write_u32, write_u64};
pub use frame::{Frame, PAGE_SIZE};
pub use laws::{
    a_page_is_its_frame_and_bytes, a_read_gives_bytes, a_write_replaces_bytes, memory_stays_whole,
};
pub use memory::{Ram, SupplyRefused};
pub use shape::Shape;

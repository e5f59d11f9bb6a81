//! Balloon devices behind one trait (VIRTIO 1.1, 5.5): what a device's guest memory, status,
//! queues, ballooned pages and loose frames are before and after each call.
#![tactic(auto)]

mod balloon;
mod claimed;
mod device;
mod discarding;
mod flags;
mod pace;
mod queue;
mod queues;
mod serving;
mod taken;
mod taken_list;
mod worked;

pub use balloon::{BalloonDevice, ImmediateDevice, PacedDevice};
pub use claimed::Claimed;
pub use device::Device;
pub use discarding::discard_page;
pub use pace::{Immediate, Pace, Paced};
pub use serving::{OpenQueue, QueueRegisters, ServedChain, ServesChains};
pub use vb_request::Statistics;
pub use worked::Worked;

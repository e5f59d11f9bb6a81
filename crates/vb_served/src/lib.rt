//! A device whose queues are served by the very code that a monitor links: the notices of
//! `vb_monitor` go over the guest memory that the device owns.
#![tactic(auto)]

mod device;
mod figures;
mod loose_ram;
mod marking;
mod one;
mod reading;
mod server;

pub use device::NoticedDevice;
pub use loose_ram::LooseRam;
pub use one::serve_one;
pub use server::Notices;

//! One guest of a host: its balloon driver, and its boxed device with the guest's memory.
#![tactic(auto)]

mod boxed;
mod calls;
mod guest_port;
mod guest_slot;
mod lone;
mod lone_port;
mod new;
mod slot;

pub use guest_port::GuestPort;
pub use guest_slot::GuestSlot;
pub use lone::LoneSlot;
pub use lone_port::LonePort;
pub use new::NoSlot;
pub use slot::Slot;

//! One module for each crate.

mod chain;
mod device;
mod driver;
mod faults;
mod notices;
mod reply;
mod request;
mod ring;
mod script;

//! Guests on threads: a lock, a doorbell and a worker for each guest, and one balancer for all.
#![tactic(auto)]

mod apart;
mod audit;
mod bell;
mod entry;
mod gate;
mod kept;
mod note;
mod pace;
mod plan;
mod ports;
mod report;
mod room;
mod round;
mod run;
mod script;
mod served;
mod threads;

pub use entry::{Entry, Step};
pub use gate::{Gate, OpenGate};
pub use note::{Caller, Note};
pub use pace::Pace;
pub use plan::{Bells, GuestPlan, MAX_SCRIPT_CALLS, Plan};
pub use ports::add_port;
pub use report::{GuestReport, Report, RunFault};
pub use round::Round;
pub use run::run_threads;
pub use vb_slot::{GuestPort, GuestSlot};

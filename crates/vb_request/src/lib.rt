//! What a device makes of a chain, by its pieces and the guest's bytes (VIRTIO 1.1, 5.5.6): the
//! pages of a request, those of a report, or the figures of a buffer of statistics; and else the
//! first rule that the chain breaks. And which calls a device refuses by its status, its features
//! and a queue's number alone (VIRTIO 1.1, 2.1).
//!
//! Chains of the queues of inflates and deflates are for `read_request`, those of the queue of
//! statistics for `read_statistics`, and those of the queue of reports for `read_report`. Each
//! answers a function of the guest's bytes, whatever these are, and keeps nothing.
//! `read_chain_into` chooses among them by the queue's number.
#![tactic(auto)]

mod asked;
mod buffer;
mod laws;
mod named;
mod refusals;
mod report;
mod request;
mod statistics;

pub use asked::read_chain_into;
pub use laws::{
    a_report_names_pages_of_the_guest, a_request_names_pages_of_the_guest,
    a_written_request_is_read,
};
pub use named::{NamedPages, NamedRun};
pub use refusals::{
    broken, has_fault, is_not_ready, lacks_feature, readiness_refusal, rule_of, take_refusal,
};
pub use report::{check_report, count_pages, read_report, read_report_into};
pub use request::{
    is_request_length, number_at, number_fault, read_request, read_request_into, request_length,
};
pub use statistics::{
    Statistics, is_statistics_length, read_statistics, statistics_length, tag_at, value_at,
};

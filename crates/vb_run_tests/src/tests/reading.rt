//! What the tests read in a report.

use vb_model::Reply;
use vb_run::{Caller, Note, Report};
use vb_virtio::Refusal;

/// How many pages the first guest could spare when the balancer looked first.
pub(super) fn first_look(report: &Report) -> Option<u32> {
    for note in &report.guests.first()?.history {
        if let Note::Looked { spare, .. } = note {
            return Some(*spare);
        }
    }
    None
}

/// Whether some target was set at the first guest.
pub(super) fn sets_a_target(report: &Report) -> bool {
    let Some(guest) = report.guests.first() else {
        return false;
    };
    for note in &guest.history {
        if let Note::Called {
            caller: Caller::Balancer { .. },
            ..
        } = note
        {
            return true;
        }
    }
    false
}

/// What the first round answered.
#[derive(Clone, Copy, Debug, PartialEq, Eq)]
pub(super) enum Balanced {
    /// A first target.
    Target(u32),
    /// n pages stay missing.
    Short(u64),
}

pub(super) fn first_round(report: &Report) -> Option<Balanced> {
    match report.rounds.first()?.answer() {
        Reply::Targets { pages } => Some(Balanced::Target(*pages.as_slice().first()?)),
        Reply::Refused(Refusal::Short { missing }) => Some(Balanced::Short(*missing)),
        _ => None,
    }
}

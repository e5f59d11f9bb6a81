//! What may happen to a lender.

use crate::Report;

/// What may happen to a lender. A guest goes by its place in the list of seats: where there is no
/// such place, nothing happens. A number of pages may be any.
#[derive(Clone, Copy, Debug, PartialEq, Eq)]
pub enum Event {
    /// A guest's process has reported.
    Hears {
        guest: usize,
        report: Report,
    },
    /// The deflate of a guest is granted, if it lends nothing more, or if the guest is the first
    /// that waits and there is room.
    Grants {
        guest: usize,
    },
    /// The deflate of the guest that waits first is granted from the overdraft, if all others wait
    /// or have reached their targets.
    Overdraws {
        guest: usize,
    },
    /// This many pages of a guest are wanted in its balloon.
    Wants {
        guest: usize,
        pages: u32,
    },
    /// A guest has the target from now on that is possible.
    Targets {
        guest: usize,
    },
    /// A guest of this many pages arrives at a place, whichever was there, with these of them in
    /// its balloon, which stay there; of no pages: the guest has gone.
    Arrives {
        guest: usize,
        pages: u32,
        ballooned: u32,
    },
    /// The memory at a place, which was let in and of which nothing is reclaimed, joins a guest,
    /// and its place is vacant.
    Joins {
        guest: usize,
        added: usize,
    },
    /// A guest of this many pages sends its first report to a later lender.
    TakesOver {
        guest: usize,
        pages: u32,
        report: Report,
    },
    /// A guest takes pages without a grant: its balloon counts no longer, until another guest is at
    /// its place.
    Uncounts {
        guest: usize,
    },
    /// The host has this many frames to lend from now on.
    Budget {
        frames: u32,
    },
    /// Of all guests just this one is preferred from now on: where it waits, it comes before all
    /// others of its line. None is, where there is no such place.
    Prefers {
        guest: usize,
    },
    /// A guest that waits in a reset or to come lets others pass: as long as this wait lasts, it is
    /// in the last line, after all that wait there now.
    Defers {
        guest: usize,
    },
}

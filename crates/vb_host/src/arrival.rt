//! What a lender knows first of a guest: one that arrives, or one of an earlier lender.

ghost use Rattle.std.specs.Prelude.{◌≡◌};
ghost use Rattle.vb_host.specs.Seats.{newcomer, starting, taken_over, queued};

use crate::{Report, Seat};

impl Seat {
    /// A guest of this many pages that arrives.
    pub(crate) fn newcomer(pages: u32) -> Seat
        ensures { result ≡ newcomer pages }
    {
        Seat {
            pages,
            ballooned: pages,
            least_target: pages,
            target: pages,
            wanted: 0,
            held: 0,
            line: 0,
            outside: 0,
            target_number: 0,
            deflates: 0,
            granted: 0,
            removed: 0,
            turn: 0,
            uncounted: 0,
            preferred: 0,
            deferred: 0,
        }
    }

    /// A guest of this many pages that arrives with these of them in its balloon, which stay there.
    pub(crate) fn starting(pages: u32, ballooned: u32) -> Seat
        ensures { result ≡ starting pages ballooned }
    {
        let mut seat = Seat::newcomer(pages);
        seat.want(ballooned);
        seat
    }

    /// What a later lender knows of a guest of this many pages by its first report.
    pub(crate) fn taken_over(pages: u32, report: &Report) -> Seat
        ensures { result ≡ taken_over pages report.now }
    {
        let granted = if report.held > 0 {
            report.deflates.saturating_sub(1)
        } else {
            report.deflates
        };
        Seat {
            pages,
            ballooned: report.ballooned,
            least_target: report.target.min(report.read_target),
            target: report.target,
            wanted: report.target,
            held: report.held,
            line: report.line,
            outside: report.outside,
            target_number: report.target_number,
            deflates: report.deflates,
            granted,
            removed: report.removed,
            turn: 0,
            uncounted: 0,
            preferred: 0,
            deferred: 0,
        }
    }

    /// A later lender knows a guest by its first report; it has this turn, if it waits.
    pub(crate) fn take_over(pages: u32, report: &Report, turn: u64) -> Seat
        ensures { result ≡ queued turn (taken_over pages report.now) }
    {
        let mut seat = Seat::taken_over(pages, report);
        seat.queue(turn);
        seat
    }
}

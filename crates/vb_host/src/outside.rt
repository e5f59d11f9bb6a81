//! What a report may say of memory: how many pages are outside, and which the guest took unasked.

ghost use Rattle.std.specs.Prelude.{◌≡◌};
ghost use Rattle.vb_host.specs.Outside.{believed_outside, gone, most_outside, shown, taken_unasked};
ghost use Rattle.vb_host.specs.Outside.{TakesOutside, TellsMemory};

use crate::{Report, Seat};

impl Seat {
    /// The pages in its balloon by a report: without those of a granted deflate, and none where it
    /// doesn't count.
    fn shown(&self, report: &Report) -> u32
        ensures { result ≡ shown report.now self.now }
    {
        let ballooned = if self.is_uncounted() {
            0
        } else {
            report.ballooned
        };
        let granted = if report.deflates == self.granted {
            report.held
        } else {
            0
        };
        ballooned.saturating_sub(granted)
    }

    /// How many fewer these are than before.
    fn gone(&self, report: &Report) -> u32
        ensures { result ≡ gone report.now self.now }
    {
        self.ballooned.saturating_sub(self.shown(report))
    }

    /// The pages that have left its balloon by a report, and neither were granted nor went with
    /// memory that was taken away: its guest took them unasked.
    pub fn taken_unasked(&self, report: &Report) -> u32
        ensures { result ≡ taken_unasked report.now self.now }
    {
        let gone = u64::from(self.gone(report));
        let removed = report.removed.saturating_sub(self.removed);
        gone.saturating_sub(removed) as u32
    }

    /// The most pages that may be outside by a report.
    fn most_outside(&self, report: &Report) -> u64
        ensures { result ≡ most_outside report.now self.now }
    {
        let before = u64::from(self.pages) + u64::from(self.outside);
        let then = u64::from(self.left(report)) + u64::from(self.gone(report));
        before.saturating_sub(then)
    }

    /// Of the pages that a report says to be outside those that may be: no more than were, and were
    /// taken away since, but for what has left the balloon.
    pub fn believed_outside(&self, report: &Report) -> u32
        ensures { result ≡ believed_outside report.now self.now }
    {
        u64::from(report.outside).min(self.most_outside(report)) as u32
    }
}

/// A report says something of the memory just where no page was taken unasked, and no more is
/// outside than may be; with as many as may be outside it does so, and these are outside then.
pub fn a_report_tells_of_memory()
    ensures tells { TellsMemory }
    ensures takes { TakesOutside }
{}

//! What a report makes of a seat.

ghost use Rattle.std.specs.Prelude.{◌≡◌};
ghost use Rattle.vb_host.specs.Seats.{noting, counting, believed, served, raised, is_stale, heard};
ghost use Rattle.vb_host.specs.Seats.{holding, is_news, keeps_turn, left, remembering};

use crate::{Report, Seat};

impl Seat {
    /// The pages of its memory of which none was taken away since its last report.
    pub(crate) fn left(&self, report: &Report) -> u32
        ensures { result ≡ left report.now self.now }
    {
        let taken = report.removed.saturating_sub(self.removed);
        let all = u64::from(self.pages);
        if taken < all { (all - taken) as u32 } else { 0 }
    }

    /// Whether what was taken away is all that has left its balloon, or is outside since.
    fn is_news(&self, ballooned: u32, report: &Report) -> bool
        ensures { result ≡ is_news ballooned report.now self.now }
    {
        let fallen = u64::from(self.ballooned.saturating_sub(ballooned));
        let taken = report.removed.saturating_sub(self.removed);
        let then = u64::from(self.left(report)) + u64::from(report.outside) + fallen;
        let before = u64::from(self.pages) + u64::from(self.outside);
        fallen <= taken && then <= before
    }

    /// Notes what its process reports of its memory and its balloon, if that may be.
    fn remember(&mut self, ballooned: u32, report: &Report)
        ensures { self.new ≡ remembering ballooned report.now self.old }
    {
        if self.is_news(ballooned, report) {
            self.pages = self.left(report);
            self.ballooned = ballooned;
            self.outside = report.outside;
            self.removed = report.removed;
        }
    }

    /// Notes the deflate that its process holds back.
    fn hold(&mut self, held: u32, report: &Report)
        ensures { self.new ≡ holding held report.now self.old }
    {
        self.held = held;
        self.line = report.line;
        self.deflates = report.deflates;
    }

    /// Notes what its process reports of its memory, its balloon, and a deflate.
    fn note(&mut self, ballooned: u32, held: u32, report: &Report)
        ensures { self.new ≡ noting ballooned held report.now self.old }
    {
        self.remember(ballooned, report);
        self.hold(held, report);
    }

    /// What a report shows: an empty balloon, where that counts no longer.
    fn believe(&self, report: &Report) -> Report
        ensures { result ≡ believed self.now report.now }
    {
        let mut believed = *report;
        if self.is_uncounted() {
            believed.ballooned = 0;
        }
        believed
    }

    /// Counts the pages in its balloon, without those of a deflate that was granted.
    fn count(&mut self, report: &Report)
        ensures { self.new ≡ counting report.now self.old }
    {
        if report.deflates == self.granted {
            let ballooned = report.ballooned.saturating_sub(report.held);
            self.note(ballooned, 0, report);
        } else {
            self.note(report.ballooned, report.held, report);
        }
    }

    /// Grants its deflate, if that lends nothing more.
    fn serve(&mut self)
        ensures { self.new ≡ served self.old }
    {
        if self.covers() {
            self.grant();
        }
    }

    /// Raises the least target to the last one, once its driver has read that.
    fn raise(&mut self, report: &Report)
        ensures { self.new ≡ raised report.now self.old }
    {
        if report.target_number == self.target_number && report.read_target == self.target {
            self.least_target = self.least_target.max(self.target);
        }
    }

    /// Whether the deflate that waited before still waits, in the same line.
    fn keeps_turn(&self, old: &Seat) -> bool
        ensures { result ≡ keeps_turn old.now self.now }
    {
        old.waits() && self.waits() && old.deflates == self.deflates && old.line == self.line
    }

    /// Whether a report was made before the last grant, or before memory was taken away that is
    /// known of.
    fn is_stale(&self, report: &Report) -> bool
        ensures { result ≡ is_stale report.now self.now }
    {
        report.deflates < self.granted || report.removed < self.removed
    }

    /// Its process has reported; a guest that waits from now on has this turn.
    pub(crate) fn hear(&mut self, report: &Report, turn: u64)
        ensures { self.new ≡ heard turn report.now self.old }
    {
        if self.is_stale(report) {
            return;
        }
        let old = *self;
        self.count(&old.believe(report));
        self.serve();
        self.raise(report);
        if !self.keeps_turn(&old) {
            self.queue(turn);
        }
    }
}

//! What a lender knows of one guest, and what each event makes of it.

ghost use Rattle.std.specs.Prelude.{◌≡◌, ◌≢◌, true, false, ◌+◌, ◌-◌, ◌<◌, ◌≤◌, ◌^◌};
ghost use Rattle.vb_host.specs.Line.{lined};
ghost use Rattle.vb_host.specs.Seats.{apart, lent, asked, waits, covers, granting, possible_target};
ghost use Rattle.vb_host.specs.Seats.{granted_waiting};
ghost use Rattle.vb_host.specs.Seats.{targeted, retargeted, uncounting};
ghost use Rattle.vb_host.specs.Seats.{is_done, is_uncounted, is_preferred, place_in_line};
ghost use Rattle.vb_host.specs.Seats.{preferring, waiting_line, line_rank, may_defer, deferring};
ghost use Rattle.vb_host.specs.Seats.{due_target, due_grant, reclaimed, grown, rank, queued};
ghost use Rattle.vb_host.specs.Seats.{room_after};
ghost use Rattle.vb_host.specs.Seats.{needs_grant};

use crate::{Report, WaitingLine};

/// How many places a line has: the first one, and one for each turn.
const PLACES: u128 = (1 << 64) + 1;

/// What a lender knows of a guest. What is lent to it follows from this alone.
#[repr(C)]
#[derive(Clone, Copy, Debug, Default, PartialEq, Eq)]
pub struct Seat {
    /// The pages of its memory, which it may have frames for; 0 where no guest is there.
    pub pages: u32,
    /// The pages in its balloon, as last reported, without those of a granted deflate.
    pub ballooned: u32,
    /// The least of all targets that its driver may still obey, in pages.
    pub least_target: u32,
    /// Its last target, in pages.
    pub target: u32,
    /// The pages that are wanted in its balloon: its target is this or above.
    pub wanted: u32,
    /// The pages of the deflate that waits; 0 where none does.
    pub held: u32,
    /// The number of the line in which it waits (`WaitingLine::of`).
    pub line: u32,
    /// The pages that have frames outside of its memory slots, by its last report.
    pub outside: u32,
    /// The number of its last target: how many it was sent.
    pub target_number: u64,
    /// How many deflates its process has held back, by its last report.
    pub deflates: u64,
    /// The number of the last deflate that was granted.
    pub granted: u64,
    /// How many pages were taken away from its memory so far, by its last report.
    pub removed: u64,
    /// Its turn among those that wait; 0 where it doesn't.
    pub turn: u64,
    /// Whether its balloon counts no longer: 0 where it counts.
    pub uncounted: u32,
    /// Whether it comes before all others of its line: 0 where it doesn't.
    pub preferred: u32,
    /// Whether it lets others pass, and waits in the last line: 0 where it doesn't.
    pub deferred: u32,
}

impl Seat {
    /// The pages of its balloon that it may not deflate.
    pub(crate) fn reclaimed(&self) -> u32
        ensures { result ≡ reclaimed self.now }
    {
        self.ballooned.min(self.least_target)
    }

    /// The pages that stay in its balloon, or are outside.
    pub(crate) fn apart(&self) -> u64
        ensures { result ≡ apart self.now }
    {
        u64::from(self.reclaimed()) + u64::from(self.outside)
    }

    /// What is lent to it where this many pages of its balloon may not be deflated.
    pub(crate) fn lent_but(&self, reclaimed: u32) -> u64
        ensures value { result ≡ self.now.pages + self.now.outside - reclaimed }
        ensures small { result ≤ 8589934590 }
    {
        let all = u64::from(self.pages) + u64::from(self.outside);
        all.saturating_sub(u64::from(reclaimed))
    }

    /// What is lent to it: all its pages, with those outside, but for those of its balloon that it
    /// may not deflate.
    pub fn lent(&self) -> u64
        ensures value { result ≡ lent self.now }
        ensures small { result ≤ 8589934590 }
    {
        self.lent_but(self.reclaimed())
    }

    /// Whether another seat says the same.
    pub fn is_same(&self, other: &Seat) -> bool
        ensures same { result ≡ true → self.now ≡ other.now }
        ensures other { result ≡ false → self.now ≢ other.now }
    {
        *self == *other
    }

    /// Whether a deflate waits.
    pub fn waits(&self) -> bool
        ensures { result ≡ waits self.now }
    {
        self.held > 0
    }

    /// Its deflate is granted: its pages count as if they had left the balloon.
    pub(crate) fn grant(&mut self)
        ensures { self.new ≡ granting self.old }
    {
        self.ballooned = self.ballooned.saturating_sub(self.held);
        self.granted = self.deflates;
        self.held = 0;
        self.turn = 0;
        self.deferred = 0;
    }

    /// Its deflate is granted, if one waits.
    pub(crate) fn grant_waiting(&mut self)
        ensures { self.new ≡ granted_waiting self.old }
    {
        if self.waits() {
            self.grant();
        }
    }

    /// What is lent to it once its deflate is granted.
    pub(crate) fn lent_then(&self) -> u64
        ensures value { result ≡ lent (granting self.now) }
        ensures small { result ≤ 8589934590 }
        ensures more { result ≤ lent self.now + 4294967295 }
    {
        let ballooned = self.ballooned.saturating_sub(self.held);
        self.lent_but(ballooned.min(self.least_target))
    }

    /// What a grant would lend to it beyond what is lent.
    pub fn asked(&self) -> u32
        ensures { result ≡ asked self.now }
    {
        if self.waits() {
            self.lent_then().saturating_sub(self.lent()) as u32
        } else {
            0
        }
    }

    /// Whether a deflate waits that takes nothing which isn't lent already.
    pub fn covers(&self) -> bool
        ensures { result ≡ covers self.now }
    {
        self.waits() && self.asked() == 0
    }

    /// Whether its balloon counts no longer.
    pub fn is_uncounted(&self) -> bool
        ensures { result ≡ is_uncounted self.now }
    {
        self.uncounted > 0
    }

    /// Whether it waits, or has in its balloon what its target says, or can give nothing that
    /// counts.
    pub(crate) fn is_done(&self) -> bool
        ensures { result ≡ is_done self.now }
    {
        self.waits() || self.is_uncounted() || self.target <= self.ballooned
    }

    /// Whether it comes before all others of its line.
    pub fn is_preferred(&self) -> bool
        ensures { result ≡ is_preferred self.now }
    {
        self.preferred > 0
    }

    /// Its place in its line.
    fn place_in_line(&self) -> u128
        ensures value { result ≡ place_in_line self.now }
        ensures small { result < 2 ^ 65 }
    {
        if self.is_preferred() {
            0
        } else {
            u128::from(self.turn) + 1
        }
    }

    /// The line in which it waits.
    fn waiting_line(&self) -> WaitingLine
        ensures { result ≡ waiting_line self.now }
    {
        if self.deferred > 0 {
            WaitingLine::Arrivals
        } else {
            WaitingLine::of(self.line)
        }
    }

    /// How many lines come before its own.
    fn line_rank(&self) -> u32
        ensures { result ≡ line_rank self.now }
    {
        self.waiting_line().number()
    }

    /// The pages of its deflate, if that waits in a line or a later one; else 0.
    pub(crate) fn held_from(&self, line: u32) -> u32
        ensures { result ≡ (lined line self.now).held }
    {
        if line <= self.line_rank() {
            self.held
        } else {
            0
        }
    }

    /// Its rank among those that wait.
    pub(crate) fn rank(&self) -> u128
        ensures { result ≡ rank self.now }
    {
        PLACES * u128::from(self.line_rank()) + self.place_in_line()
    }

    /// It is preferred from now on, or it isn't.
    pub(crate) fn prefer(&mut self, preferred: u32)
        ensures { self.new ≡ preferring preferred self.old }
    {
        self.preferred = preferred;
    }

    /// It has this turn from now on, if it waits.
    pub(crate) fn queue(&mut self, turn: u64)
        ensures { self.new ≡ queued turn self.old }
    {
        self.turn = if self.waits() { turn } else { 0 };
        self.deferred = 0;
    }

    /// Whether it waits in a line where it may let others pass.
    pub(crate) fn may_defer(&self) -> bool
        ensures { result ≡ may_defer self.now }
    {
        self.waits() && self.line_rank() > 0
    }

    /// It lets others pass, if it may: it waits in the last line from now on, with this turn.
    pub(crate) fn defer(&mut self, turn: u64)
        ensures { self.new ≡ deferring turn self.old }
    {
        if self.may_defer() {
            self.turn = turn;
            self.deferred = 1;
        }
    }

    /// Whether it is lent by grants alone, since it waits or wasn't let in yet.
    fn needs_grant(&self) -> bool
        ensures { result ≡ needs_grant self.now }
    {
        self.waits() || self.granted == 0
    }

    /// The target that is possible where this much may be lent for it.
    fn possible_target(&self, room: u32) -> u32
        ensures { result ≡ possible_target room self.now }
    {
        let lent = if self.needs_grant() { 0 } else { room };
        self.wanted.max(self.reclaimed().saturating_sub(lent))
    }

    /// It has this target from now on.
    fn set_target(&mut self, target: u32)
        ensures { self.new ≡ targeted target self.old }
    {
        if self.target_number == u64::MAX {
            return;
        }
        if self.target != target {
            self.target_number += 1;
        }
        self.target = target;
        self.least_target = self.least_target.min(target);
    }

    /// It has the target from now on that is possible where this much may be lent for it. Returns
    /// what is left of that.
    pub(crate) fn retarget(&mut self, room: u32) -> u32
        ensures state { self.new ≡ retargeted room self.old }
        ensures left { result ≡ room_after room self.old }
    {
        let before = self.lent();
        let target = self.possible_target(room);
        self.set_target(target);
        let after = self.lent();
        u64::from(room).saturating_sub(after.saturating_sub(before)) as u32
    }

    /// This many pages are wanted in its balloon.
    pub(crate) fn want(&mut self, pages: u32)
        ensures { self.new ≡ record self.old { wanted = pages } }
    {
        self.wanted = pages;
    }

    /// Whether its process, of which this is the last report, is to be sent its target.
    pub fn due_target(&self, report: &Report) -> bool
        ensures { result ≡ due_target report.now self.now }
    {
        report.target_number != self.target_number
    }

    /// Whether its process, of which this is the last report, is to be sent the grant of the
    /// deflate that it holds back.
    pub fn due_grant(&self, report: &Report) -> bool
        ensures { result ≡ due_grant report.now self.now }
    {
        report.held > 0 && report.deflates == self.granted
    }

    /// This many pages join it, all of which are lent.
    pub(crate) fn grow(&mut self, pages: u32)
        requires { self.old.pages + pages < 2 ^ 32 }
        ensures { self.new ≡ grown pages self.old }
    {
        self.pages += pages;
    }

    /// Its balloon counts no longer: all its pages are lent to it.
    pub(crate) fn uncount(&mut self)
        ensures { self.new ≡ uncounting self.old }
    {
        self.ballooned = 0;
        self.least_target = 0;
        self.uncounted = 1;
    }
}

//! How much of what was decided of a guest is wanted in its balloon at once.

ghost use Rattle.std.specs.Prelude.{◌≡◌};
ghost use Rattle.vb_host.specs.Paces.{by_steps, gains, growth, in_the_end, pace_of, rises};
ghost use Rattle.vb_host.specs.Paces.{stepped, told, waits_for_driver, wanted_now};
ghost use Rattle.vb_host.specs.Paces.{StepsReach, NoneStepsInNeed};

use crate::Seat;

/// What was decided of a guest, and how its host is.
#[repr(C)]
#[derive(Clone, Copy, Debug, Default, PartialEq, Eq)]
pub struct Aim {
    /// The pages that are to be in its balloon.
    pub target: u32,
    /// Whether its deflates wait for grants; 0 where they don't.
    pub strict: u32,
    /// Whether its driver is there; 0 where it isn't.
    pub ready: u32,
    /// In how many seconds its target may grow by all its pages; 0: at once.
    pub seconds: u32,
    /// Whether a guest waits for pages, or a strict one is to get some; 0 where none does.
    pub needed: u32,
    /// The budget, in frames.
    pub frames: u32,
    /// What files of guests' memory hold, in KiB.
    pub held_kib: u64,
    /// The milliseconds since its target was last let grow; 0: it isn't to grow now.
    pub passed: u64,
}

/// How a guest's target follows what was decided.
#[repr(C)]
#[derive(Clone, Copy, Debug, Default, PartialEq, Eq)]
pub struct Pace {
    /// The pages that are wanted in its balloon in the end, and those that are wanted now.
    pub all: u32,
    pub now: u32,
    /// Whether its target may be one that grows by steps: 1, or 0.
    pub rises: u32,
    /// Whether it is strict, and to get pages: 1, or 0.
    pub gains: u32,
}

impl Seat {
    /// The last target that it was sent; 0 before the first.
    pub(crate) fn told(&self) -> u32
        ensures { result ≡ told self.now }
    {
        if self.target_number > 0 {
            self.target
        } else {
            0
        }
    }

    /// Whether it is strict, and to get pages, which others may have to give first.
    fn gains(&self, aim: &Aim) -> bool
        ensures { result ≡ gains aim.now self.now }
    {
        aim.strict > 0 && aim.target < self.told()
    }

    /// Whether its target is to grow, on a host where targets grow by steps.
    fn rises(&self, aim: &Aim) -> bool
        ensures { result ≡ rises aim.now self.now }
    {
        aim.seconds > 0 && self.told() < aim.target
    }

    /// Whether its target grows by steps: the host is within its budget, and nobody needs pages.
    fn by_steps(&self, aim: &Aim) -> bool
        ensures { result ≡ by_steps aim.now self.now }
    {
        let most = 4 * u64::from(aim.frames);
        self.rises(aim) && aim.needed == 0 && aim.held_kib <= most
    }

    /// Whether it has given pages that its target would lend it, while nobody could take them.
    fn waits_for_driver(&self, aim: &Aim) -> bool
        ensures { result ≡ waits_for_driver aim.now self.now }
    {
        aim.strict > 0 && aim.ready == 0 && aim.target < self.reclaimed()
    }

    /// The pages that are wanted in its balloon in the end.
    fn in_the_end(&self, aim: &Aim) -> u32
        ensures { result ≡ in_the_end aim.now self.now }
    {
        if aim.strict > 0 && !self.is_let_in() {
            self.wanted
        } else if self.waits_for_driver(aim) {
            self.reclaimed()
        } else {
            aim.target
        }
    }

    /// By how much its target grows since it was last let grow: by a page at least.
    fn growth(&self, aim: &Aim) -> u128
        ensures { result ≡ growth aim.now self.now }
    {
        let pages = u128::from(self.roomy()) * u128::from(aim.passed);
        let parts = 1000 * u128::from(aim.seconds);
        if parts > 0 { (pages / parts).max(1) } else { 1 }
    }

    /// The pages that are wanted now where its target grows by steps.
    fn stepped(&self, aim: &Aim) -> u32
        ensures { result ≡ stepped aim.now self.now }
    {
        let told = self.told();
        let missing = aim.target.saturating_sub(told);
        let growth = self.growth(aim);
        if growth < u128::from(missing) {
            told + growth as u32
        } else {
            self.in_the_end(aim)
        }
    }

    /// The pages that are wanted in its balloon now.
    fn wanted_now(&self, aim: &Aim) -> u32
        ensures { result ≡ wanted_now aim.now self.now }
    {
        let all = self.in_the_end(aim);
        if !self.by_steps(aim) {
            all
        } else if aim.passed == 0 || self.wanted == all {
            self.wanted
        } else {
            self.stepped(aim)
        }
    }

    /// How its target follows what was decided.
    pub fn pace(&self, aim: &Aim) -> Pace
        ensures { result ≡ pace_of aim.now self.now }
    {
        Pace {
            all: self.in_the_end(aim),
            now: self.wanted_now(aim),
            rises: u32::from(self.rises(aim)),
            gains: u32::from(self.gains(aim)),
        }
    }
}

/// What is wanted by steps comes nearer to what was decided with each, and is never above it; and
/// where pages are needed all is wanted at once.
pub fn steps_reach_what_was_decided()
    ensures reach { StepsReach }
    ensures need { NoneStepsInNeed }
{}

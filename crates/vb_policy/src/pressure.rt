//! Whether a guest's own work waits for memory, by the counters of its statistics.

ghost use Rattle.std.specs.Prelude.{◌≡◌};
ghost use Rattle.vb_policy.specs.Pressing.{after, all_latest, has_killed, has_risen, has_stalled};
ghost use Rattle.vb_policy.specs.Pressing.{inflates, is_pressed, latest, presses_for};
ghost use Rattle.vb_policy.specs.Pressing.{pressed_until};

/// For how many milliseconds a guest is pressed from the sample on that shows that it stalled.
pub const PRESSED_MS: u64 = 5_000;

/// For how many milliseconds it is from the sample on that shows that it killed a process.
pub const KILLED_MS: u64 = 120_000;

/// A counter of a guest's statistics, since the guest has booted. Any number may come.
#[repr(C)]
#[derive(Clone, Copy, Debug, Default, PartialEq, Eq)]
pub struct Counter {
    /// How many.
    pub value: u64,
    /// Unless 0, the guest has reported it.
    pub present: u64,
}

impl Counter {
    /// Whether it is higher than it was, where both were reported.
    fn has_risen(&self, sampled: &Counter) -> bool
        ensures { result ≡ has_risen self.now sampled.now }
    {
        self.present > 0 && sampled.present > 0 && self.value < sampled.value
    }

    /// As it was reported last.
    fn latest(&self, sampled: &Counter) -> Counter
        ensures { result ≡ latest self.now sampled.now }
    {
        if sampled.present > 0 { *sampled } else { *self }
    }
}

/// The counters of a guest's statistics that tell whether its work waits for memory.
#[repr(C)]
#[derive(Clone, Copy, Debug, Default, PartialEq, Eq)]
pub struct Counters {
    /// Memory that was read back from swap.
    pub swap_in: Counter,
    /// Memory that was swapped out.
    pub swap_out: Counter,
    /// Processes that were killed for lack of memory.
    pub oom_kills: Counter,
    /// Allocations that waited until memory was reclaimed.
    pub stalls: Counter,
    /// Pages that allocations looked at to reclaim them.
    pub direct_scan: Counter,
    /// Pages that allocations reclaimed.
    pub direct_reclaim: Counter,
}

impl Counters {
    /// Whether work has waited for swap, or since an allocation found no free page.
    fn has_stalled(&self, sampled: &Counters) -> bool
        ensures { result ≡ has_stalled self.now sampled.now }
    {
        self.swap_in.has_risen(&sampled.swap_in)
            || self.swap_out.has_risen(&sampled.swap_out)
            || self.stalls.has_risen(&sampled.stalls)
            || self.direct_scan.has_risen(&sampled.direct_scan)
            || self.direct_reclaim.has_risen(&sampled.direct_reclaim)
    }

    /// Whether a process was killed for lack of memory.
    fn has_killed(&self, sampled: &Counters) -> bool
        ensures { result ≡ has_killed self.now sampled.now }
    {
        self.oom_kills.has_risen(&sampled.oom_kills)
    }

    /// Each as it was reported last.
    fn latest(&self, sampled: &Counters) -> Counters
        ensures { result ≡ all_latest self.now sampled.now }
    {
        Counters {
            swap_in: self.swap_in.latest(&sampled.swap_in),
            swap_out: self.swap_out.latest(&sampled.swap_out),
            oom_kills: self.oom_kills.latest(&sampled.oom_kills),
            stalls: self.stalls.latest(&sampled.stalls),
            direct_scan: self.direct_scan.latest(&sampled.direct_scan),
            direct_reclaim: self.direct_reclaim.latest(&sampled.direct_reclaim),
        }
    }
}

/// A guest's counters, and its balloon at that time, in pages.
#[repr(C)]
#[derive(Clone, Copy, Debug, Default, PartialEq, Eq)]
pub struct Sample {
    /// What it reports.
    pub counters: Counters,
    /// In its balloon.
    pub ballooned: u32,
    /// Its target.
    pub target: u32,
}

impl Sample {
    /// Whether the balloon inflated between this sample and a later one.
    fn inflates(&self, sampled: &Sample) -> bool
        ensures { result ≡ inflates self.now sampled.now }
    {
        self.ballooned < self.target
            || self.ballooned < sampled.ballooned
            || sampled.ballooned < sampled.target
    }

    /// For how long what a later sample shows presses the guest.
    fn presses_for(&self, sampled: &Sample) -> u64
        ensures { result ≡ presses_for self.now sampled.now }
    {
        if self.counters.has_killed(&sampled.counters) {
            KILLED_MS
        } else if self.counters.has_stalled(&sampled.counters) && !self.inflates(sampled) {
            PRESSED_MS
        } else {
            0
        }
    }
}

/// What a host remembers of a guest to tell whether it is pressed. Zeros are a guest of which no
/// sample was taken.
#[repr(C)]
#[derive(Clone, Copy, Debug, Default, PartialEq, Eq)]
pub struct Pressure {
    /// The last sample, with counters that it lacked as they were before.
    pub last: Sample,
    /// It is pressed before this time, in milliseconds.
    pub until: u64,
}

impl Pressure {
    /// Until when it is pressed.
    fn pressed_until(&self, sampled: &Sample, now: u64) -> u64
        ensures { result ≡ pressed_until self.now sampled.now now }
    {
        let until = now.saturating_add(self.last.presses_for(sampled));
        self.until.max(until).min(now.saturating_add(KILLED_MS))
    }

    /// With one more sample, which was taken now.
    pub fn after(&self, sampled: &Sample, now: u64) -> Pressure
        ensures { result ≡ after self.now sampled.now now }
    {
        let counters = self.last.counters.latest(&sampled.counters);
        Pressure {
            last: Sample {
                counters,
                ..*sampled
            },
            until: self.pressed_until(sampled, now),
        }
    }

    /// Whether it is pressed at this time.
    pub fn is_pressed(&self, now: u64) -> bool
        ensures { result ≡ is_pressed self.now now }
    {
        now < self.until
    }
}

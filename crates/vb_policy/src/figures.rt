//! What a host knows of a guest, what the guest counts for, and what it can give in each tier.

ghost use Rattle.std.specs.Prelude.{◌≡◌, nat_lt};
ghost use Rattle.vb_policy.specs.Asking.{rest};
ghost use Rattle.vb_policy.specs.Needs.{cached_of, charged, contact_of, counts, forced, given};
ghost use Rattle.vb_policy.specs.Needs.{gives, guest_of, is_lent, is_paused, is_spared, last_of};
ghost use Rattle.vb_policy.specs.Needs.{loose, most_of, reserved, spare_of, spares, target_of};
ghost use Rattle.vb_policy.specs.Needs.{tells, unused_of, waits, waits_behind, yielding, yields};

use crate::Guest;

/// Whether a guest's word on its memory is at hand.
#[derive(Clone, Copy, Debug, PartialEq, Eq)]
pub enum Contact {
    /// Its driver isn't ready: nothing can be asked of it.
    Starting,
    /// Its driver is ready, and its statistics are too old.
    Silent,
    /// Its statistics are recent.
    Heard,
    /// It has gone, and its memory isn't freed yet.
    Away,
}

impl Contact {
    /// The contact of this number: 1 is `Silent`, 2 `Heard`, 3 `Away`, and any other `Starting`.
    pub fn of(number: u16) -> Contact
        ensures { result ≡ contact_of number }
    {
        match number {
            1 => Contact::Silent,
            2 => Contact::Heard,
            3 => Contact::Away,
            _ => Contact::Starting,
        }
    }
}

/// What a host has for its guests together, and what each of them is to keep, in pages.
#[repr(C)]
#[derive(Clone, Copy, Debug, Default, PartialEq, Eq)]
pub struct Budget {
    /// The frames for all guests.
    pub frames: u32,
    /// The pages that are to stay available in each guest.
    pub floor: u32,
    /// Pages that are too few to change a target for.
    pub slack: u32,
    /// What each guest keeps of its page cache as long as others have any, in percent of its
    /// pages; at most 100 count.
    pub reserve: u32,
    /// In percent: who has less than this of its part of a tier gets its part; at most 100 count.
    pub band: u32,
}

/// What a host knows of a guest, in pages. Any numbers may be passed.
#[repr(C)]
#[derive(Clone, Copy, Debug, Default, PartialEq, Eq)]
pub struct Figures {
    /// Its memory.
    pub pages: u32,
    /// The frames that it holds, by the host's own count.
    pub held: u32,
    /// In its balloon now.
    pub ballooned: u32,
    /// In its balloon when its last statistics were made.
    pub ballooned_then: u32,
    /// Available by its last statistics, or free where these don't say what is available.
    pub available: u32,
    /// Free by its last statistics: used for nothing, nor for page cache.
    pub free: u32,
    /// The frames that are lent to it, where it is strict.
    pub lent: u32,
    /// The frames that it waits for, where it is strict.
    pub asked: u32,
    /// How many pages always stay to it, as far as it has them.
    pub least: u32,
    /// What it has above these is asked of it, whatever the host lacks.
    pub most: u32,
    /// Its part of what needn't be given; 0 counts as 1.
    pub weight: u32,
    /// Its class: within each tier lower ones give first.
    pub priority: u32,
    /// Its target so far.
    pub target: u32,
    /// Whether its statistics are at hand (`Contact::of`).
    pub contact: u16,
    /// Unless 0, it uses no frames but those that it is granted.
    pub strict: u16,
    /// Unless 0, its balloon doesn't count.
    pub uncounted: u16,
    /// Unless 0, it isn't asked for more than it has given, since it has just taken pages by
    /// itself.
    pub paused: u16,
    /// Unless 0, its own work waits for memory: it isn't asked for more of its unused memory and
    /// its page cache than it has given, and gets its part at once.
    pub pressed: u16,
    /// Unless 0, it waits first of all.
    pub first: u16,
}

impl Figures {
    /// Whether it counts for all its memory, whatever its contact.
    fn is_lent(&self) -> bool
        ensures { result ≡ is_lent self.now }
    {
        self.strict > 0 || self.uncounted > 0
    }

    /// The pages of its memory that are in its balloon.
    fn given(&self) -> u32
        ensures { result ≡ given self.now }
    {
        self.ballooned.min(self.pages)
    }

    /// The pages for which it counts by its contact.
    fn charged(&self) -> u32
        ensures { result ≡ charged (contact_of self.now.contact) self.now }
    {
        match Contact::of(self.contact) {
            Contact::Starting | Contact::Heard => self.pages,
            Contact::Silent => self.held.saturating_add(self.given()).min(self.pages),
            Contact::Away => self.held,
        }
    }

    /// The pages for which it counts.
    pub fn counts(&self) -> u32
        ensures { result ≡ counts self.now }
    {
        if self.is_lent() {
            self.pages
        } else {
            self.charged()
        }
    }

    /// Whether it waits for frames.
    pub fn waits(&self) -> bool
        ensures { result ≡ waits self.now }
    {
        self.is_lent() && self.asked > 0
    }

    /// Whether it isn't asked for more than it has given.
    fn is_paused(&self) -> bool
        ensures { result ≡ is_paused self.now }
    {
        self.paused > 0
    }

    /// Whether it isn't asked for more unused memory and page cache than it has given.
    fn is_spared(&self) -> bool
        ensures { result ≡ is_spared self.now }
    {
        self.is_paused() || self.pressed > 0
    }

    /// What it can give by its own word, where `floor` are to stay of `room` pages.
    pub(crate) fn tells(&self, limited: bool, floor: u32, room: u32) -> u32
        ensures { result ≡ tells (contact_of self.now.contact) limited floor room self.now }
    {
        match Contact::of(self.contact) {
            Contact::Starting | Contact::Away => 0,
            Contact::Silent => self.given(),
            Contact::Heard => {
                let has = self.ballooned_then.saturating_add(room).min(self.pages);
                let spare = has.saturating_sub(floor);
                if limited {
                    spare.min(self.given())
                } else {
                    spare
                }
            }
        }
    }

    /// What it can give: by what it waits for, or by its word.
    fn spares(&self, limited: bool, floor: u32, room: u32) -> u32
        ensures { result ≡ spares limited floor room self.now }
    {
        if self.waits() {
            self.pages
                .saturating_sub(self.lent.saturating_add(self.asked))
        } else if self.uncounted > 0 {
            0
        } else {
            self.tells(limited, floor, room).min(self.counts())
        }
    }

    /// What it can give beside its least pages.
    fn gives(&self, limited: bool, floor: u32, room: u32) -> u32
        ensures { result ≡ gives limited floor room self.now }
    {
        self.spares(limited, floor, room)
            .min(self.counts().saturating_sub(self.least))
    }

    /// The pages that stay free in it, as long as it gives unused memory alone.
    fn loose(&self, budget: &Budget) -> u32
        ensures { result ≡ loose budget.now self.now }
    {
        (budget.floor / 2).max(self.pages / 512)
    }

    /// The pages that stay available in it, as long as it gives page cache beside its reserve.
    fn reserved(&self, budget: &Budget) -> u32
        ensures { result ≡ reserved budget.now self.now }
    {
        let reserve = u64::from(self.pages) * u64::from(budget.reserve.min(100)) / 100;
        let most = u64::from(u32::MAX);
        (u64::from(budget.floor) + reserve).min(most) as u32
    }

    /// What it can give of memory that it uses for nothing.
    pub fn unused(&self, budget: &Budget) -> u32
        ensures { result ≡ unused_of budget.now self.now }
    {
        let room = self.available.min(self.free);
        self.gives(self.is_spared(), self.loose(budget), room)
    }

    /// What it can give with its page cache.
    pub fn cached(&self, budget: &Budget) -> u32
        ensures { result ≡ cached_of budget.now self.now }
    {
        self.gives(self.is_spared(), self.reserved(budget), self.available)
    }

    /// All that it can give.
    pub fn spare(&self, budget: &Budget) -> u32
        ensures { result ≡ spare_of budget.now self.now }
    {
        self.gives(self.is_paused(), budget.floor, self.available)
    }

    /// What it can give with less than the floor by the slack.
    pub fn most(&self, budget: &Budget) -> u32
        ensures { result ≡ most_of budget.now self.now }
    {
        let floor = budget.floor.saturating_sub(budget.slack);
        self.gives(self.is_paused(), floor, self.available)
    }

    /// What is asked of it since it has more than its `most` pages, as far as it can give it.
    pub fn forced(&self, budget: &Budget) -> u32
        ensures { result ≡ forced budget.now self.now }
    {
        if self.waits() {
            0
        } else {
            self.counts()
                .saturating_sub(self.most)
                .min(self.spare(budget))
        }
    }

    /// What it counts for beside what is forced.
    pub(crate) fn rest(&self, budget: &Budget) -> u32
        ensures { result ≡ rest budget.now self.now }
    {
        self.counts().saturating_sub(self.forced(budget))
    }

    /// Its target so far, of a pressed guest one that is more than may be.
    fn target(&self, budget: &Budget) -> u32
        ensures { result ≡ target_of budget.now self.now }
    {
        if self.pressed > 0 {
            u32::MAX
        } else {
            self.target.saturating_sub(self.forced(budget))
        }
    }

    /// What is decided on, beside what is forced.
    pub fn guest(&self, budget: &Budget) -> Guest
        ensures { result ≡ guest_of budget.now self.now }
    {
        let forced = self.forced(budget);
        Guest {
            unused: self.unused(budget).saturating_sub(forced),
            cached: self.cached(budget).saturating_sub(forced),
            spare: self.spare(budget).saturating_sub(forced),
            weight: self.weight,
            priority: self.priority,
            target: self.target(budget),
            most: self.most(budget).saturating_sub(forced),
            waits: self.waits(),
        }
    }

    /// Whether it waits, and others wait before it.
    fn waits_behind(&self) -> bool
        ensures { result ≡ waits_behind self.now }
    {
        self.waits() && self.first == 0
    }

    /// What it can give while a quarter of the floor stays.
    fn last(&self, budget: &Budget) -> u32
        ensures { result ≡ last_of budget.now self.now }
    {
        self.gives(self.is_paused(), budget.floor / 4, self.available)
    }

    /// What it gives so that the first that waits is served.
    fn yields(&self, budget: &Budget) -> u32
        ensures { result ≡ yields budget.now self.now }
    {
        if self.waits_behind() {
            let kept = self.pages.saturating_sub(self.lent);
            kept.min(self.counts().saturating_sub(self.least))
        } else {
            self.last(budget)
        }
    }

    /// What is decided on, so that the first that waits is served.
    pub(crate) fn yielding(&self, budget: &Budget) -> Guest
        ensures { result ≡ yielding budget.now self.now }
    {
        let spare = self.yields(budget).saturating_sub(self.forced(budget));
        Guest {
            spare,
            ..self.guest(budget)
        }
    }
}

//! What is known of guests and of their host, and what is decided.

/// What guests are asked for, from the first on.
#[derive(Clone, Copy, Debug, PartialEq, Eq)]
pub enum Tier {
    /// Memory that they use for nothing.
    Unused,
    /// Page cache beside their reserves.
    Cache,
    /// Their reserves.
    Reserve,
}

/// A guest, in pages. What is said to be more than it can give in a later tier doesn't count.
#[repr(C)]
#[derive(Clone, Copy, Debug, Default, PartialEq, Eq)]
pub struct Guest {
    /// What it can give of memory that it uses for nothing.
    pub unused: u32,
    /// That, and what it can give of page cache.
    pub cached: u32,
    /// That, and what it can give of its reserve: all that it can give.
    pub spare: u32,
    /// Its part of what needn't be given; 0 counts as 1.
    pub weight: u32,
    /// Its class: within each tier lower ones give first.
    pub priority: u32,
    /// Its target so far.
    pub target: u32,
    /// The most that its target so far may be, where that is more than `spare`.
    pub most: u32,
    /// Whether it waits for pages.
    pub waits: bool,
}

/// What a host lacks, and how much it leaves as it is.
#[repr(C)]
#[derive(Clone, Copy, Debug, Default, PartialEq, Eq)]
pub struct Host {
    /// The pages that guests have to give.
    pub lack: u64,
    /// Pages that are too few to change a target for.
    pub slack: u32,
    /// In percent: who has less than this of its part of a tier gets its part; at most 100 count.
    pub band: u32,
}

/// How what is missing is divided.
#[derive(Clone, Copy, Debug, PartialEq, Eq)]
pub struct Division {
    /// The tiers before this one are given whole, and the later ones are kept.
    pub tier: Tier,
    /// Lower classes give this tier whole, and higher ones keep it.
    pub priority: u32,
    /// What each guest of the class keeps of the tier, for each unit of weight, in 4096ths of a
    /// page.
    pub kept: u64,
}

/// What was decided.
#[derive(Clone, Copy, Debug, PartialEq, Eq)]
pub enum Decision {
    /// Nothing is missing: nobody is asked for more.
    Enough,
    /// What is missing is divided so.
    Divided {
        /// What each guest's part is.
        division: Division,
        /// By how many pages less than its part a guest may be asked for.
        gap: u32,
    },
    /// The guests can't give enough.
    Short {
        /// The pages that stay missing.
        missing: u64,
    },
}

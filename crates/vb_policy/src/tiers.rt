//! What guests give, tier after tier, and within a tier class after class.

ghost use Rattle.std.specs.Prelude.{◌≡◌, ◌≤◌, length, sum_by};
ghost use Rattle.vb_policy.specs.Tiers.{before, high, low, through};

use crate::{Guest, Tier};

/// What a guest can give up to and with a tier.
pub(crate) fn through(guest: &Guest, tier: Tier) -> u32
    ensures { result ≡ through tier guest.now }
{
    match tier {
        Tier::Unused => guest.unused.min(guest.cached.min(guest.spare)),
        Tier::Cache => guest.cached.min(guest.spare),
        Tier::Reserve => guest.spare,
    }
}

/// What a guest can give in the tiers before.
fn before(guest: &Guest, tier: Tier) -> u32
    ensures { result ≡ before tier guest.now }
{
    match tier {
        Tier::Unused => 0,
        Tier::Cache => through(guest, Tier::Unused),
        Tier::Reserve => through(guest, Tier::Cache),
    }
}

/// The least that a guest gives while this class divides this tier.
pub(crate) fn low(guest: &Guest, tier: Tier, priority: u32) -> u32
    ensures { result ≡ low tier priority guest.now }
{
    if guest.priority < priority {
        through(guest, tier)
    } else {
        before(guest, tier)
    }
}

/// The most that a guest gives while this class divides this tier.
pub(crate) fn high(guest: &Guest, tier: Tier, priority: u32) -> u32
    ensures { result ≡ high tier priority guest.now }
{
    if guest.priority <= priority {
        through(guest, tier)
    } else {
        before(guest, tier)
    }
}

/// What all guests can give up to and with a tier.
pub(crate) fn all_through(guests: &[Guest], tier: Tier) -> u128
    ensures { result ≡ sum_by (through tier) guests.now }
{
    let mut pages: u128 = 0;
    for guest in guests {
        pages += u128::from(through(guest, tier));
    }
    pages
}

/// The most that all guests give while this class divides this tier.
pub(crate) fn all_high(guests: &[Guest], tier: Tier, priority: u32) -> u128
    ensures { result ≡ sum_by (high tier priority) guests.now }
{
    let mut pages: u128 = 0;
    for guest in guests {
        pages += u128::from(high(guest, tier, priority));
    }
    pages
}

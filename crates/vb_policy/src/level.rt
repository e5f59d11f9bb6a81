//! The division of what is missing.

ghost use Rattle.std.specs.Prelude.{◌≡◌, ℕ, ◌<◌, ◌≤◌, All, sum_by};
ghost use Rattle.vb_policy.specs.Tiers.{before, high, low, through};
ghost use Rattle.vb_policy.specs.Divisions.{Divides, fair, keeps, share};

use crate::tiers::{all_high, all_through, high, low};
use crate::{Division, Guest, Tier};

/// The pages that a guest may keep, by its weight.
fn keeps(guest: &Guest, kept: u64) -> u128
    ensures { result ≡ keeps kept guest.now }
{
    u128::from(kept) * u128::from(guest.weight.max(1)) / 4096
}

/// The target that a division has for a guest.
pub(crate) fn fair(guest: &Guest, division: Division) -> u32
    ensures { result ≡ fair division guest.now }
{
    let most = u128::from(high(guest, division.tier, division.priority));
    let left = most.saturating_sub(keeps(guest, division.kept)) as u32;
    low(guest, division.tier, division.priority).max(left)
}

/// What all guests give by a division.
fn all_fair(guests: &[Guest], division: Division) -> u128
    ensures { result ≡ sum_by (fair division) guests.now }
{
    let mut pages: u128 = 0;
    for guest in guests {
        pages += u128::from(fair(guest, division));
    }
    pages
}

/// The highest priority.
fn most_priority(guests: &[Guest]) -> u32
    ensures { All (λ g. g.priority ≤ result) guests.now }
{
    let mut most = 0;
    for guest in guests {
        most = guest.priority.max(most);
    }
    most
}

/// The most that a guest can give.
fn most_spare(guests: &[Guest]) -> u32
    ensures { All (λ g. g.spare ≤ result) guests.now }
{
    let mut most = 0;
    for guest in guests {
        most = guest.spare.max(most);
    }
    most
}

/// The first tier with which the guests give enough.
fn first_tier(guests: &[Guest], lack: u128) -> Tier
    requires some { 0 < lack }
    requires enough { lack ≤ sum_by (through Tier.Reserve) guests.now }
    ensures first { sum_by (before result) guests.now < lack }
    ensures enough { lack ≤ sum_by (through result) guests.now }
{
    if lack <= all_through(guests, Tier::Unused) {
        Tier::Unused
    } else if lack <= all_through(guests, Tier::Cache) {
        Tier::Cache
    } else {
        Tier::Reserve
    }
}

/// The lowest class with which the guests give enough of this tier.
fn first_class(guests: &[Guest], tier: Tier, lack: u128) -> u32
    requires { lack ≤ sum_by (through tier) guests.now }
    ensures first { (p : ℕ) → p < result → sum_by (high tier p) guests.now < lack }
    ensures enough { lack ≤ sum_by (high tier result) guests.now }
{
    let mut first = 0;
    let mut last = most_priority(guests);
    while first < last {
        let middle = first + (last - first) / 2;
        if all_high(guests, tier, middle) >= lack {
            last = middle;
        } else {
            first = middle + 1;
        }
    }
    first
}

/// The most that guests of this class may keep of this tier, for each unit of weight.
fn most_kept(guests: &[Guest], tier: Tier, priority: u32, lack: u128) -> u64
    requires first { sum_by (low tier priority) guests.now < lack }
    requires enough { lack ≤ sum_by (high tier priority) guests.now }
    ensures enough { lack ≤ sum_by (share tier priority result) guests.now }
    ensures most { (k : ℕ) → lack ≤ sum_by (share tier priority k) guests.now → k ≤ result }
{
    let mut kept = 0;
    let mut too_much = u64::from(most_spare(guests)) * 4096 + 1;
    while too_much - kept > 1 {
        let middle = kept + (too_much - kept) / 2;
        let division = Division {
            tier,
            priority,
            kept: middle,
        };
        if all_fair(guests, division) >= lack {
            kept = middle;
        } else {
            too_much = middle;
        }
    }
    kept
}

/// How what is missing is divided, where the guests can give it.
pub(crate) fn divide(guests: &[Guest], lack: u128) -> Division
    requires some { 0 < lack }
    requires enough { lack ≤ sum_by (through Tier.Reserve) guests.now }
    ensures { Divides lack guests.now result }
{
    let tier = first_tier(guests, lack);
    let priority = first_class(guests, tier, lack);
    let kept = most_kept(guests, tier, priority, lack);
    Division {
        tier,
        priority,
        kept,
    }
}

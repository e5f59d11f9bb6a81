//! Which targets change, and how far.

ghost use Rattle.std.specs.Prelude.{◌≡◌, ℕ, ◌≤◌, length, map, sum_by};
ghost use Rattle.vb_policy.specs.Divisions.{Divides};
ghost use Rattle.vb_policy.specs.Settling.{base, is_poor, is_squeezed, settled, Settles};

use crate::level::fair;
use crate::tiers::through;
use crate::{Division, Guest, Host, Tier};

/// Whether a guest has less left of the tier than the band of its part, by more than the slack.
fn is_squeezed(host: &Host, guest: &Guest, tier: Tier, part: u32) -> bool
    ensures { result ≡ is_squeezed host.now tier part guest.now }
{
    let all = through(guest, tier);
    let left = u64::from(all.saturating_sub(guest.target)) + u64::from(host.slack);
    100 * left < u64::from(host.band.min(100)) * u64::from(all.saturating_sub(part))
}

/// Whether a guest is asked for more than may be, or is squeezed.
fn is_poor(host: &Host, guest: &Guest, tier: Tier, part: u32) -> bool
    ensures { result ≡ is_poor host.now tier part guest.now }
{
    if guest.target > guest.most.max(guest.spare) {
        return true;
    }
    is_squeezed(host, guest, tier, part)
}

/// The part of a poor guest, and the target so far of another.
pub(crate) fn base(host: &Host, guest: &Guest, tier: Tier, part: u32) -> u32
    ensures { result ≡ base host.now tier part guest.now }
{
    if is_poor(host, guest, tier, part) {
        part
    } else {
        guest.target
    }
}

/// A guest's target, within the gap of its part.
fn settled(host: &Host, guest: &Guest, division: Division, gap: u32) -> u32
    ensures { result ≡ settled host.now division gap guest.now }
{
    let part = fair(guest, division);
    base(host, guest, division.tier, part).max(part.saturating_sub(gap))
}

/// What all guests give by targets within the gap of their parts.
fn all_settled(host: &Host, guests: &[Guest], division: Division, gap: u32) -> u128
    ensures { result ≡ sum_by (settled host.now division gap) guests.now }
{
    let mut pages: u128 = 0;
    for guest in guests {
        pages += u128::from(settled(host, guest, division, gap));
    }
    pages
}

/// The widest gap that leaves enough.
pub(crate) fn widest_gap(host: &Host, guests: &[Guest], division: Division) -> u32
    requires { Divides host.now.lack guests.now division }
    ensures { Settles host.now guests.now division result }
{
    let lack = u128::from(host.lack);
    if all_settled(host, guests, division, u32::MAX) >= lack {
        return u32::MAX;
    }
    let mut gap = 0;
    let mut too_wide = u32::MAX;
    while too_wide - gap > 1 {
        let middle = gap + (too_wide - gap) / 2;
        if all_settled(host, guests, division, middle) >= lack {
            gap = middle;
        } else {
            too_wide = middle;
        }
    }
    gap
}

/// Sets targets within the gap of the guests' parts.
pub(crate) fn settle_into(
    host: &Host,
    guests: &[Guest],
    division: Division,
    gap: u32,
    targets: &mut [u32],
)
    requires { length targets.old ≡ length guests.now }
    ensures { targets.new ≡ map (settled host.now division gap) guests.now }
{
    for place in 0..guests.len() {
        targets[place] = settled(host, &guests[place], division, gap);
    }
}

//! The decision.

ghost use Rattle.std.specs.Prelude.{◌≡◌, length, map};
ghost use Rattle.std.specs.List.{list_all};
ghost use Rattle.vb_policy.specs.Decisions.{Decides, may_stay, short_targets};
ghost use Rattle.vb_policy.specs.Settling.{base};

use crate::level::divide;
use crate::settle::{base, settle_into, widest_gap};
use crate::tiers::all_through;
use crate::{Decision, Guest, Host, Tier};

/// Gives poor guests all that they have, and leaves the others as they are.
fn relieve_into(host: &Host, guests: &[Guest], targets: &mut [u32])
    requires { length targets.old ≡ length guests.now }
    ensures { targets.new ≡ map (base host.now Tier.Unused 0) guests.now }
{
    for place in 0..guests.len() {
        targets[place] = base(host, &guests[place], Tier::Unused, 0);
    }
}

/// Whether a guest may stay at its target on a short host.
fn may_stay(host: &Host, guest: &Guest) -> bool
    ensures { result ≡ may_stay host.now guest.now }
{
    let target = u64::from(guest.target);
    let spare = u64::from(guest.spare);
    let slack = u64::from(host.slack);
    target <= spare + slack && spare <= target + slack && !guest.waits
}

/// Whether all guests may stay at their targets on a short host.
fn all_may_stay(host: &Host, guests: &[Guest]) -> bool
    ensures { result ≡ list_all (may_stay host.now) guests.now }
{
    for guest in guests {
        if !may_stay(host, guest) {
            return false;
        }
    }
    true
}

/// Leaves all targets as they are.
fn keep_into(guests: &[Guest], targets: &mut [u32])
    requires { length targets.old ≡ length guests.now }
    ensures { targets.new ≡ map (λ g. g.target) guests.now }
{
    for place in 0..guests.len() {
        targets[place] = guests[place].target;
    }
}

/// Asks each guest for all that it can give.
fn spares_into(guests: &[Guest], targets: &mut [u32])
    requires { length targets.old ≡ length guests.now }
    ensures { targets.new ≡ map (λ g. g.spare) guests.now }
{
    for place in 0..guests.len() {
        targets[place] = guests[place].spare;
    }
}

/// Sets the targets of a short host.
fn short_into(host: &Host, guests: &[Guest], targets: &mut [u32])
    requires { length targets.old ≡ length guests.now }
    ensures { targets.new ≡ short_targets host.now guests.now }
{
    if all_may_stay(host, guests) {
        keep_into(guests, targets);
    } else {
        spares_into(guests, targets);
    }
}

/// Sets a target for each guest, so that the host has what it lacks. Memory that guests use for
/// nothing is asked for before page cache, page cache before reserves, and within each tier lower
/// classes give first. What the last class needn't give of the last tier it keeps in equal parts by
/// weight. Poor guests get their parts, and others move as little as leaves enough. However many
/// guests there are, it looks at each at most 120 times, and takes no memory.
pub fn decide(host: &Host, guests: &[Guest], targets: &mut [u32]) -> Decision
    requires { length targets.old ≡ length guests.now }
    ensures { Decides host.now guests.now result targets.new }
{
    let lack = u128::from(host.lack);
    let spare = all_through(guests, Tier::Reserve);
    if lack > spare {
        short_into(host, guests, targets);
        return Decision::Short {
            missing: (lack - spare) as u64,
        };
    }
    if lack == 0 {
        relieve_into(host, guests, targets);
        return Decision::Enough;
    }
    let division = divide(guests, lack);
    let gap = widest_gap(host, guests, division);
    settle_into(host, guests, division, gap, targets);
    Decision::Divided { division, gap }
}

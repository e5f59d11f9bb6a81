//! What the guests of a host are asked for, by what the host knows of each.

ghost use Rattle.std.specs.Prelude.{◌≡◌, length, map, sum_by, false, true};
ghost use Rattle.std.specs.List.{list_any};
ghost use Rattle.vb_policy.specs.declared.guest.Decision.{Decision};
ghost use Rattle.vb_policy.specs.Decisions.{Decides};
ghost use Rattle.vb_policy.specs.Asking.{Asks, host_of, joined, rest, starves};
ghost use Rattle.vb_policy.specs.Needs.{guest_of, waits, yielding};

use crate::tiers::all_through;
use crate::{Budget, Decision, Figures, Guest, Host, Tier, decide};

/// What all guests count for beside what is forced.
fn all_rest(budget: &Budget, figures: &[Figures]) -> u128
    ensures { result ≡ sum_by (rest budget.now) figures.now }
{
    let mut pages: u128 = 0;
    for guest in figures {
        pages += u128::from(guest.rest(budget));
    }
    pages
}

/// What the host lacks, and how much it leaves as it is.
fn host_of(budget: &Budget, figures: &[Figures]) -> Host
    ensures { result ≡ host_of budget.now figures.now }
{
    let pages = all_rest(budget, figures);
    let most = u128::from(u64::MAX);
    let lack = pages.saturating_sub(u128::from(budget.frames)).min(most);
    Host {
        lack: lack as u64,
        slack: budget.slack,
        band: budget.band,
    }
}

/// Whether a guest waits.
fn any_waits(figures: &[Figures]) -> bool
    ensures { result ≡ list_any waits figures.now }
{
    for guest in figures {
        if guest.waits() {
            return true;
        }
    }
    false
}

/// Whether the guests can't give enough, and one of them waits.
fn starves(host: &Host, figures: &[Figures], guests: &[Guest], budget: &Budget) -> bool
    requires host { host.now ≡ host_of budget.now figures.now }
    requires guests { guests.now ≡ map (guest_of budget.now) figures.now }
    ensures { result ≡ starves budget.now figures.now }
{
    u128::from(host.lack) > all_through(guests, Tier::Reserve) && any_waits(figures)
}

/// What is decided on.
fn guests_into(budget: &Budget, figures: &[Figures], guests: &mut [Guest])
    requires { length guests.old ≡ length figures.now }
    ensures { guests.new ≡ map (guest_of budget.now) figures.now }
{
    for place in 0..figures.len() {
        guests[place] = figures[place].guest(budget);
    }
}

/// What is decided on, so that the first that waits is served.
fn yielding_into(budget: &Budget, figures: &[Figures], guests: &mut [Guest])
    requires { length guests.old ≡ length figures.now }
    ensures { guests.new ≡ map (yielding budget.now) figures.now }
{
    for place in 0..figures.len() {
        guests[place] = figures[place].yielding(budget);
    }
}

/// Adds to each target what is forced.
#[tactic(auto, using(crate::proofs::Joins::join_more))]
fn join_forced(budget: &Budget, figures: &[Figures], targets: &mut [u32])
    requires { length targets.old ≡ length figures.now }
    ensures { targets.new ≡ joined budget.now figures.now targets.old }
{
    for place in 0..figures.len() {
        targets[place] = targets[place].saturating_add(figures[place].forced(budget));
    }
}

/// Decides so that the first that waits is served.
fn serve_first(
    budget: &Budget,
    figures: &[Figures],
    host: &Host,
    guests: &mut [Guest],
    targets: &mut [u32],
)
    requires host { host.now ≡ host_of budget.now figures.now }
    requires guests { length guests.old ≡ length figures.now }
    requires targets { length targets.old ≡ length figures.now }
    ensures { (d : Decision) × Decides (host_of budget.now figures.now)
        (map (yielding budget.now) figures.now) d targets.new }
{
    yielding_into(budget, figures, guests);
    decide(host, guests, targets);
}

/// Where the host starves, has targets be those with which the first that waits is served.
fn serve_starved(
    budget: &Budget,
    figures: &[Figures],
    host: &Host,
    guests: &mut [Guest],
    targets: &mut [u32],
)
    requires host { host.now ≡ host_of budget.now figures.now }
    requires guests { guests.old ≡ map (guest_of budget.now) figures.now }
    requires lengths { length guests.old ≡ length figures.now }
    requires targets { length targets.old ≡ length figures.now }
    ensures usual { starves budget.now figures.now ≡ false → targets.new ≡ targets.old }
    ensures first { starves budget.now figures.now ≡ true →
        (d : Decision) × Decides (host_of budget.now figures.now)
        (map (yielding budget.now) figures.now) d targets.new }
{
    if starves(host, figures, guests, budget) {
        serve_first(budget, figures, host, guests, targets);
    }
}

/// Puts a target for each guest into `targets`: what is forced by its most, and what `decide` has
/// beside that. While a guest waits on a short host, what others wait for after the first of them
/// isn't looked at, and those that don't wait are asked for all but a quarter of their floor. What
/// `guests` has before doesn't matter.
pub fn ask(
    budget: &Budget,
    figures: &[Figures],
    guests: &mut [Guest],
    targets: &mut [u32],
) -> Decision
    requires guests { length guests.old ≡ length figures.now }
    requires targets { length targets.old ≡ length figures.now }
    ensures { Asks budget.now figures.now result targets.new }
{
    guests_into(budget, figures, guests);
    let host = host_of(budget, figures);
    let decision = decide(&host, guests, targets);
    serve_starved(budget, figures, &host, guests, targets);
    join_forced(budget, figures, targets);
    decision
}

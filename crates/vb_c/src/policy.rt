//! What the guests of a host are asked for, by what the host knows of each, which are pressed, and
//! how much they may hold on a machine with other work.

ghost use Rattle.std.specs.Prelude.{◌≡◌};
ghost use Rattle.vb_virtio.specs.Tests.{one_if};
ghost use Rattle.vb_c.specs.Policy.{decision_of, refused, tier_number, tiers_of, DecidesFor};
ghost use Rattle.vb_policy.specs.Following.{budget_after};
ghost use Rattle.vb_policy.specs.Needs.{wants};
ghost use Rattle.vb_policy.specs.Pressing.{after, is_pressed};

use vb_monitor::{BAD_ARGUMENT, OK, SHORT};
use vb_policy::{Budget, Decision, Figures, Guest, Machine, Pressure, Sample, Tier, ask};

/// What was decided.
#[repr(C)]
#[derive(Clone, Copy, Debug)]
pub struct VbDecision {
    pub code: u32,
    pub tier: u32,
    pub missing: u64,
}

/// What a guest counts for, and what it can give up to and with each tier.
#[repr(C)]
#[derive(Clone, Copy, Debug)]
pub struct VbTiers {
    pub pages: u32,
    pub unused: u32,
    pub cached: u32,
    pub spare: u32,
    pub most: u32,
}

/// The tier of a host where nothing is missing.
const NONE: u32 = 0;

/// The tier of a host whose guests can't give enough.
const SHORT_OF: u32 = 4;

/// The number of a tier.
fn tier_number(tier: Tier) -> u32
    ensures { result ≡ tier_number tier }
{
    match tier {
        Tier::Unused => 1,
        Tier::Cache => 2,
        Tier::Reserve => 3,
    }
}

/// A decision as plain data.
fn decision_of(decision: Decision) -> VbDecision
    ensures { result ≡ decision_of decision }
{
    let (code, tier, missing) = match decision {
        Decision::Enough => (OK, NONE, 0),
        Decision::Divided { division, .. } => (OK, tier_number(division.tier), 0),
        Decision::Short { missing } => (SHORT, SHORT_OF, missing),
    };
    VbDecision {
        code,
        tier,
        missing,
    }
}

/// The answer where a list has another length.
fn refused() -> VbDecision
    ensures { result ≡ refused }
{
    VbDecision {
        code: BAD_ARGUMENT,
        tier: NONE,
        missing: 0,
    }
}

/// What a guest counts for, and what it can give.
#[unsafe(no_mangle)]
pub extern "C" fn vb_policy_tiers(budget: &Budget, figures: &Figures) -> VbTiers
    ensures { result ≡ tiers_of budget.now figures.now }
{
    let spare = figures.spare(budget);
    let cached = figures.cached(budget).min(spare);
    VbTiers {
        pages: figures.counts(),
        unused: figures.unused(budget).min(cached),
        cached,
        spare,
        most: figures.most(budget),
    }
}

/// What a guest that waits takes in the end beyond what is lent to it.
#[unsafe(no_mangle)]
pub extern "C" fn vb_policy_wants(budget: &Budget, figures: &Figures) -> u32
    ensures { result ≡ wants budget.now figures.now }
{
    figures.wants(budget)
}

/// Puts a target for each guest into the caller's array.
#[unsafe(no_mangle)]
pub extern "C" fn vb_policy_decide(
    budget: &Budget,
    figures: &[Figures],
    rooms: &mut [Guest],
    targets: &mut [u32],
) -> VbDecision
    ensures { DecidesFor budget.now figures.now rooms.old rooms.new targets.old targets.new result }
{
    if rooms.len() != figures.len() || targets.len() != figures.len() {
        return refused();
    }
    decision_of(ask(budget, figures, rooms, targets))
}

/// What is remembered of a guest with one more sample.
#[unsafe(no_mangle)]
pub extern "C" fn vb_policy_press(pressure: &Pressure, sample: &Sample, now: u64) -> Pressure
    ensures { result ≡ after pressure.now sample.now now }
{
    pressure.after(sample, now)
}

/// Whether a guest is pressed now.
#[unsafe(no_mangle)]
pub extern "C" fn vb_policy_pressed(pressure: &Pressure, now: u64) -> u32
    ensures { result ≡ one_if (is_pressed pressure.now now) }
{
    u32::from(pressure.is_pressed(now))
}

/// The budget of guests on a machine with other work.
#[unsafe(no_mangle)]
pub extern "C" fn vb_policy_budget(machine: &Machine) -> u32
    ensures { result ≡ budget_after machine.now }
{
    machine.budget_after()
}

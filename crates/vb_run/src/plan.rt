//! What is to be run.

ghost use Rattle.std.specs.Prelude.{◌≡◌, ◌&&◌, nat_le, length};
ghost use Rattle.std.specs.List.{list_all};
ghost use Rattle.vb_run.specs.Plans.{may_stand, is_script, are_scripts, is_guest_plan, is_plan};

use vb_model::Call;
use vb_ram::Config;
use vb_virtio::limits::MAX_GUESTS;

/// Calls that one script may have.
pub const MAX_SCRIPT_CALLS: usize = 100_000;

/// One guest of a plan.
#[derive(Drop)]
pub struct GuestPlan {
    /// How large it is.
    pub config: Config,
    /// The calls of each of its processors, in order: those that what runs in a guest and its
    /// balloon driver make, and of no other processor.
    pub scripts: Vec<Vec<Call>>,
}

/// How a guest's doorbell is rung after a call of its processors.
#[derive(Clone, Copy, Debug, PartialEq, Eq)]
pub enum Bells {
    /// Once after each call.
    Plain,
    /// Never.
    Drop,
    /// Twice after each call.
    Double,
    /// Once after the call that follows, and after the script's end for its last call.
    Late,
}

/// Guests, and how they are run.
#[derive(Drop)]
pub struct Plan {
    /// One to eight guests.
    pub guests: Vec<GuestPlan>,
    /// The host's frames, by which the balancer shares out what is missing.
    pub frames: u32,
    /// How doorbells are rung.
    pub bells: Bells,
    /// The free pages that a balance leaves to each guest, by its last statistics.
    pub floor: u32,
    /// How many rounds the balancer makes.
    pub rounds: u32,
}

/// Whether the call may be in this processor's script.
fn may_stand(cpu: usize, call: &Call) -> bool
    ensures { result ≡ may_stand cpu call.now }
{
    match call {
        Call::Alloc { cpu: named, .. } | Call::Free { cpu: named, .. } => *named as usize == cpu,
        Call::Read { .. }
        | Call::Write { .. }
        | Call::Inflate { .. }
        | Call::Deflate { .. }
        | Call::Oom { .. }
        | Call::Report { .. }
        | Call::Stats
        | Call::Reap { .. } => true,
        _ => false,
    }
}

/// Whether these calls are a script of this processor.
fn is_script(cpu: usize, calls: &[Call]) -> bool
    ensures { result ≡ is_script cpu calls.now }
{
    calls.len() <= MAX_SCRIPT_CALLS && all_may_stand(cpu, calls)
}

/// Whether all of the calls may be in this processor's script.
#[tactic(auto, using(crate::proofs::Lists::list_all_more, crate::proofs::Lists::list_all_at))]
fn all_may_stand(cpu: usize, calls: &[Call]) -> bool
    ensures { result ≡ list_all (may_stand cpu) calls.now }
{
    for call in calls {
        if !may_stand(cpu, call) {
            return false;
        }
    }
    true
}

/// Whether each of these is the script of its processor.
fn are_scripts(scripts: &[Vec<Call>]) -> bool
    ensures { result ≡ are_scripts 0 scripts.now }
{
    for cpu in 0..scripts.len() {
        if !is_script(cpu, scripts[cpu].as_slice()) {
            return false;
        }
    }
    true
}

/// Whether the guest is within the limits, with a script for each of its processors.
fn is_guest_plan(plan: &GuestPlan) -> bool
    ensures { result ≡ is_guest_plan plan.now }
{
    plan.config.is_within_limits()
        && plan.scripts.len() == plan.config.processors as usize
        && are_scripts(plan.scripts.as_slice())
}

/// Whether the plan can be run with `ports` ports.
pub(crate) fn is_plan(plan: &Plan, ports: usize) -> bool
    ensures { result ≡ is_plan plan.now ports }
{
    let count = plan.guests.len();
    count != 0
        && count <= MAX_GUESTS as usize
        && ports == count
        && are_guest_plans(plan.guests.as_slice())
}

/// Whether each of the guests can be run.
#[tactic(auto, using(crate::proofs::Lists::list_all_more, crate::proofs::Lists::list_all_at))]
fn are_guest_plans(guests: &[GuestPlan]) -> bool
    ensures { result ≡ list_all is_guest_plan guests.now }
{
    for guest in guests {
        if !is_guest_plan(guest) {
            return false;
        }
    }
    true
}

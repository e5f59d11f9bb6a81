//! The runner's plan of a script for guests on threads.

ghost use Rattle.std.specs.Prelude.{◌≡◌, false, map, IfOk, MatchOption};
ghost use Rattle.std.specs.List.{list_all};
ghost use Rattle.vb_virtio.specs.Limits.{is_config};
ghost use Rattle.vb_script.specs.Plans.{guest_plan, planned_by};
ghost use Rattle.vb_command.specs.Plans.{IsPlanOf, can_run, is_part, part_of, planned_part};

use std::alloc::{AllocError, Global};
use vb_ram::Config;
use vb_run::{Bells, GuestPlan, Plan};
use vb_script::{Pace, ThreadsGuest, ThreadsScript};

/// The plan of a script, with these bells; none where a guest's sizes are beyond their limits.
pub fn plan_of(
    alloc: Global,
    script: ThreadsScript,
    bells: Bells,
) -> Result<Option<Plan>, AllocError>
    ensures { IfOk result (λ plan. MatchOption plan (can_run (planned_by script) ≡ false)
        (λ plan. IsPlanOf (planned_by script) bells plan)) }
{
    let ThreadsScript {
        frames,
        guests,
        floor,
        rounds,
    } = script;
    let Some(guests) = guests_of(alloc, guests)? else {
        return Ok(None);
    };
    Ok(Some(Plan {
        guests,
        frames,
        bells,
        floor,
        rounds,
    }))
}

/// The guests as they are run; none where the sizes of one are beyond their limits.
fn guests_of(alloc: Global, guests: Vec<ThreadsGuest>) -> Result<Option<Vec<GuestPlan>>, AllocError>
    ensures { IfOk result (λ plans. MatchOption plans
        (list_all is_part (map planned_part (map guest_plan guests.items)) ≡ false)
        (λ plans. map part_of plans.items ≡ map planned_part (map guest_plan guests.items))) }
{
    let mut plans = Vec::new(alloc);
    for guest in guests {
        let Some(plan) = guest_of(guest) else {
            return Ok(None);
        };
        plans.push(plan)?;
    }
    Ok(Some(plans))
}

/// A guest as it is run; none where one of its sizes is beyond its limits.
fn guest_of(guest: ThreadsGuest) -> Option<GuestPlan>
    ensures { MatchOption result
        (is_config guest.pages guest.queue_size guest.processors ≡ false)
        (λ plan. part_of plan ≡ planned_part (guest_plan guest)) }
{
    let config = Config::new(guest.pages, guest.queue_size, guest.processors)?;
    Some(GuestPlan {
        config,
        scripts: guest.scripts,
    })
}

/// The paces of the guests' devices.
pub fn paces_of(alloc: Global, guests: &[ThreadsGuest]) -> Result<Vec<Pace>, AllocError>
    ensures { IfOk result (λ paces. paces.items ≡ map (λ guest. guest.pace) guests.now) }
{
    let mut paces = Vec::new(alloc);
    for guest in guests {
        paces.push(guest.pace)?;
    }
    Ok(paces)
}

//! Runs a plan.

ghost use Rattle.std.specs.Prelude.{◌≡◌, ◌↔◌, ℕ, true, false, length, IfOk, Err, Some};
ghost use Rattle.std.specs.Prelude.{slice_get, map, All};
ghost use Rattle.std.specs.List.{list_all};
ghost use Rattle.vb_model.specs.Guest.{fresh};
ghost use Rattle.vb_run.specs.Paces.{is_deferred};
ghost use Rattle.vb_run.specs.Past.{AreBegun, AreScripts};
ghost use Rattle.vb_run.specs.Plans.{are_scripts, config_of, is_guest_plan, is_plan};
ghost use Rattle.vb_run.specs.Reports.{IsGuestReport, IsReport};

use crate::apart::are_apart;
use crate::audit::are_rounds;
use crate::bell::Bell;
use crate::gate::Gate;
use crate::kept::{GuestOfRun, Kept};
use crate::pace::{Pace, pace_of};
use crate::plan::{GuestPlan, Plan, is_plan};
use crate::report::{GuestReport, Report, RunFault, Stop};
use crate::round::Round;
use crate::script::Script;
use crate::threads::{Seat, run_all};
use std::alloc::{AllocError, Global};
use std::convert::AsSlice;
use std::sync::{Mutex, Wait};
use std::thread::Threads;
use vb_model::Call;
use vb_slot::{GuestPort, GuestSlot};

/// The scripts of a guest's processors, where they are, of which no call was made.
fn scripts_of<'p>(
    alloc: Global,
    calls: &'p [Vec<Call>],
) -> Result<Vec<Script<&'p [Call]>>, AllocError>
    requires { are_scripts 0 calls.now ≡ true }
    ensures begun { IfOk result (λ scripts. AreBegun scripts.items) }
    ensures calls { IfOk result (λ scripts. AreScripts scripts.items calls.now) }
{
    let mut scripts = Vec::new(alloc);
    for own in calls {
        scripts.push(Script::new(own.as_slice()))?;
    }
    Ok(scripts)
}

/// A guest as it was plugged in, on a device of this pace: started, and under its lock.
fn seat_of<'p, S: GuestSlot>(
    alloc: Global,
    guest: u32,
    plan: &'p GuestPlan,
    pace: Pace,
    slot: S,
) -> Result<Seat<S, &'p [Call]>, AllocError>
    requires plan { is_guest_plan plan.now ≡ true }
    requires fresh { S.stands slot (fresh (config_of plan.now.config (is_deferred pace)) 0) }
    ensures guest { IfOk result (λ seat. seat.guest ≡ guest) }
    ensures pace { IfOk result (λ seat. seat.pace ≡ pace) }
    ensures processors { IfOk result (λ seat. seat.processors ≡ plan.now.config.processors) }
{
    let scripts = scripts_of(alloc, plan.scripts.as_slice())?;
    let kept = Kept::start(alloc, guest, plan.config, pace, slot, scripts)?;
    let processors = plan.config.processors;
    Ok(Seat {
        guest,
        pace,
        processors,
        lock: Mutex::new(kept),
        bell: Bell::new(processors),
    })
}

/// A guest of the plan, plugged in at a port and started.
fn seat_at<'p, P: GuestPort>(
    alloc: Global,
    guest: u32,
    plan: &'p GuestPlan,
    port: P,
) -> Result<Seat<P::Slot, &'p [Call]>, AllocError>
    requires plan { is_guest_plan plan.now ≡ true }
    requires waits { P.waits port }
    ensures guest { IfOk result (λ seat. seat.guest ≡ guest) }
    ensures pace { IfOk result (λ seat. is_deferred seat.pace ≡ P.pace port) }
    ensures processors { IfOk result (λ seat. seat.processors ≡ plan.now.config.processors) }
{
    let pace = pace_of(&port);
    let slot = port.plug(alloc, plan.config)?;
    seat_of(alloc, guest, plan, pace, slot)
}

/// The guests, each plugged in at the port of its place and started.
fn seats_of<'p, P: GuestPort>(
    alloc: Global,
    plan: &'p [GuestPlan],
    ports: Vec<P>,
) -> Result<Vec<Seat<P::Slot, &'p [Call]>>, AllocError>
    requires plan { list_all is_guest_plan plan.now ≡ true }
    requires count { length ports.items ≡ length plan.now }
    requires waits { All P.waits ports.items }
    ensures { IfOk result (λ seats. map (λ s. is_deferred s.pace) seats.items
        ≡ map P.pace ports.items) }
{
    let mut seats = Vec::new(alloc);
    let mut left = ports.into_iter();
    let mut guest = 0;
    for own in plan {
        let Some(port) = left.next() else {
            break;
        };
        seats.push(seat_at(alloc, guest, own, port)?)?;
        guest = guest.saturating_add(1);
    }
    Ok(seats)
}

/// The report of one guest, whose lock is opened for good.
fn report_of<S: GuestSlot, L: AsSlice<Call> + Drop, R: Wait>(
    rt: &R,
    alloc: Global,
    of: GuestOfRun,
    plan: &GuestPlan,
    rounds: &[Round],
    lock: Mutex<Kept<S, L>>,
) -> Result<GuestReport, Stop>
    ensures { IfOk result
        (IsGuestReport of.floor of.number plan.now (is_deferred of.pace) rounds.now) }
{
    lock.into_inner().close(rt, alloc, of, plan, rounds)
}

/// The report of each guest.
fn reports_of<S: GuestSlot, L: AsSlice<Call> + Drop, R: Wait>(
    rt: &R,
    alloc: Global,
    plan: &[GuestPlan],
    floor: u32,
    rounds: &[Round],
    seats: Vec<Seat<S, L>>,
) -> Result<Vec<GuestReport>, Stop>
    ensures len { IfOk result (λ reports. length reports.items ≡ length plan.now) }
    ensures each { IfOk result (λ reports. (g : ℕ) (r : _) (p : _) (s : _)
        → slice_get reports.items g ≡ Some r → slice_get plan.now g ≡ Some p
        → slice_get seats.items g ≡ Some s
        → IsGuestReport floor g p (is_deferred s.pace) rounds.now r) }
{
    let mut reports = Vec::new(alloc);
    let mut left = seats.into_iter();
    for guest in 0..plan.len() {
        let Some(seat) = left.next() else {
            return Err(Stop::Audit);
        };
        let Ok(number) = u32::try_from(guest) else {
            return Err(Stop::Audit);
        };
        let of = GuestOfRun {
            number,
            pace: seat.pace,
            floor,
        };
        let report = report_of(rt, alloc, of, &plan[guest], rounds, seat.lock)?;
        if reports.push(report).is_err() {
            return Err(Stop::Memory);
        }
    }
    Ok(reports)
}

/// Runs a plan that can be run.
fn run_plan<P: GuestPort, G: Gate, R: Threads + Wait + Sync>(
    rt: &R,
    alloc: Global,
    plan: &Plan,
    ports: Vec<P>,
    gate: &G,
) -> Result<Report, Stop>
    requires plan { list_all is_guest_plan plan.now.guests.items ≡ true }
    requires count { length ports.items ≡ length plan.now.guests.items }
    requires waits { All P.waits ports.items }
    ensures { IfOk result (IsReport plan.now (map P.pace ports.items)) }
{
    let seats = seats_of(alloc, plan.guests.as_slice(), ports)?;
    let ended = run_all(rt, alloc, seats.as_slice(), plan, gate);
    let rounds = ended.rounds;
    if !ended.all_made || rounds.len() != plan.rounds as usize {
        return Err(Stop::Memory);
    }
    if !are_rounds(plan, rounds.as_slice()) {
        return Err(Stop::Audit);
    }
    let guests = reports_of(
        rt,
        alloc,
        plan.guests.as_slice(),
        plan.floor,
        rounds.as_slice(),
        seats,
    )?;
    if !are_apart(alloc, guests.as_slice())? {
        return Err(Stop::Audit);
    }
    Ok(Report { guests, rounds })
}

/// Runs each guest of the plan at the port of its place, on threads: one for each of its
/// processors, a worker for each guest, and one balancer for all. Each guest is plugged in and
/// started here. Where there is a fault, all ports are dropped.
pub fn run_threads<P: GuestPort, G: Gate, R: Threads + Wait + Sync>(
    rt: &R,
    alloc: Global,
    plan: &Plan,
    ports: Vec<P>,
    gate: &G,
) -> Result<Report, RunFault>
    requires { All P.waits ports.items }
    ensures report { IfOk result (IsReport plan.now (map P.pace ports.items)) }
    ensures bad { (result ≡ Err RunFault.BadPlan)
        ↔ (is_plan plan.now (length ports.items) ≡ false) }
{
    if !is_plan(plan, ports.len()) {
        return Err(RunFault::BadPlan);
    }
    match run_plan(rt, alloc, plan, ports, gate) {
        Ok(report) => Ok(report),
        Err(Stop::Memory) => Err(RunFault::Memory),
        Err(Stop::Audit) => Err(RunFault::Audit),
    }
}

//! What each thread of a run does.

ghost use Rattle.std.specs.Prelude.{◌≡◌, ◌≤◌, length, IfSome};

use crate::bell::Bell;
use crate::gate::Gate;
use crate::kept::Kept;
use crate::pace::Pace;
use crate::plan::{Bells, GuestPlan, Plan};
use crate::round::Round;
use crate::served::found_nothing;
use std::alloc::Global;
use std::convert::AsSlice;
use std::sync::{Mutex, Wait};
use std::thread;
use std::thread::Threads;
use vb_balance::GuestNeed;
use vb_model::{Actor, Call, Reply};
use vb_slot::GuestSlot;
use vb_virtio::limits::MAX_GUESTS;

/// A guest under its lock, with its doorbell.
#[derive(Drop)]
pub(crate) struct Seat<S: GuestSlot, L: AsSlice<Call> + Drop> {
    /// The guest's number.
    pub guest: u32,
    /// The pace of its device.
    pub pace: Pace,
    /// How many processors it has.
    pub processors: u32,
    pub lock: Mutex<Kept<S, L>>,
    pub bell: Bell,
}

/// Rings as the mode says after the call of this number, the first being 0.
fn ring<R: Wait>(rt: &R, bell: &Bell, bells: Bells, number: u64) {
    match bells {
        Bells::Plain => bell.ring(rt),
        Bells::Drop => {}
        Bells::Double => {
            bell.ring(rt);
            bell.ring(rt);
        }
        Bells::Late => {
            if number > 0 {
                bell.ring(rt);
            }
        }
    }
}

/// How many calls the script of a guest's processor has.
fn calls_in(guest: &GuestPlan, cpu: u32) -> u64 {
    match guest.scripts.get(cpu as usize) {
        Some(calls) => calls.len() as u64,
        None => 0,
    }
}

/// How many calls the processor's script has.
fn calls_of(plan: &Plan, guest: u32, cpu: u32) -> u64 {
    match plan.guests.get(guest as usize) {
        Some(guest) => calls_in(guest, cpu),
        None => 0,
    }
}

/// The calls of one processor, in order.
fn run_processor<S: GuestSlot, L: AsSlice<Call> + Drop, G: Gate, R: Wait>(
    rt: &R,
    alloc: Global,
    seat: &Seat<S, L>,
    plan: &Plan,
    gate: &G,
    cpu: u32,
) {
    let calls = calls_of(plan, seat.guest, cpu);
    let actor = Actor::Processor {
        guest: seat.guest,
        cpu,
    };
    for number in 0..calls {
        gate.before(actor, number);
        let mut kept = seat.lock.lock(rt);
        gate.inside(seat.guest, cpu, number);
        let answer = kept.next(alloc, cpu);
        drop(kept);
        let Ok(Some(reply)) = answer else {
            seat.lock.lock(rt).mark_short();
            break;
        };
        gate.after(actor, &reply);
        ring(rt, &seat.bell, plan.bells, number);
    }
    if plan.bells == Bells::Late && calls > 0 {
        seat.bell.ring(rt);
    }
    seat.bell.sign_off(rt);
}

/// A worker's calls until none of them finds anything to do: how many rounds it has made then, each
/// under its guest's lock, until a call finds something to do or all of them found nothing.
fn make_pass<S: GuestSlot, L: AsSlice<Call> + Drop, G: Gate, R: Wait>(
    rt: &R,
    alloc: Global,
    seat: &Seat<S, L>,
    gate: &G,
    first: u64,
) -> u64 {
    let actor = Actor::Worker { guest: seat.guest };
    let mut number = first;
    let mut service = 0;
    for _ in rt.forever() {
        gate.before(actor, number);
        let answer = seat.lock.lock(rt).serve_from(rt, alloc, service);
        number = number.saturating_add(1);
        let Ok(served) = answer else {
            seat.lock.lock(rt).mark_short();
            break;
        };
        gate.after(actor, &served.reply);
        if found_nothing(&served.reply) {
            break;
        }
        service = served.number;
    }
    number
}

/// A pass at the start, one whenever the doorbell was rung since the last was begun, however often,
/// and one once the guest's processors have ended.
fn run_worker<S: GuestSlot, L: AsSlice<Call> + Drop, G: Gate, R: Wait>(
    rt: &R,
    alloc: Global,
    seat: &Seat<S, L>,
    gate: &G,
) {
    let mut number = make_pass(rt, alloc, seat, gate, 0);
    let mut seen = 0;
    for _ in rt.forever() {
        let rung = seat.bell.wait_past(rt, seen);
        seen = rung.rings;
        number = make_pass(rt, alloc, seat, gate, number);
        if !rung.is_running {
            break;
        }
    }
}

/// What the balancer sees of each guest.
fn looks<S: GuestSlot, L: AsSlice<Call> + Drop, R: Wait>(
    rt: &R,
    alloc: Global,
    seats: &[Seat<S, L>],
    floor: u32,
) -> Option<Vec<GuestNeed>>
    ensures { IfSome result (λ needs. length needs.items ≡ length seats.now) }
{
    let mut needs = Vec::new(alloc);
    for seat in seats {
        let need = seat.lock.lock(rt).look(floor).ok()?;
        needs.push(need).ok()?;
    }
    Some(needs)
}

/// Sets each guest's target.
fn set_targets<S: GuestSlot, L: AsSlice<Call> + Drop, R: Wait>(
    rt: &R,
    alloc: Global,
    seats: &[Seat<S, L>],
    targets: &[u32],
) -> Option<()> {
    for (seat, target) in seats.iter().zip(targets.iter()) {
        seat.lock.lock(rt).set_target(alloc, *target).ok()?;
    }
    Some(())
}

/// One round; none where memory was refused.
fn make_round<S: GuestSlot, L: AsSlice<Call> + Drop, R: Wait>(
    rt: &R,
    alloc: Global,
    seats: &[Seat<S, L>],
    plan: &Plan,
) -> Option<Round> {
    if seats.len() > MAX_GUESTS as usize {
        return None;
    }
    let needs = looks(rt, alloc, seats, plan.floor)?;
    let round = Round::new(plan.frames, needs);
    if let Reply::Targets { pages } = round.answer() {
        set_targets(rt, alloc, seats, pages.as_slice())?;
    }
    Some(round)
}

/// The plan's rounds; where memory is refused there are fewer.
fn run_balancer<S: GuestSlot, L: AsSlice<Call> + Drop, G: Gate, R: Wait>(
    rt: &R,
    alloc: Global,
    seats: &[Seat<S, L>],
    plan: &Plan,
    gate: &G,
    rounds: &Mutex<Vec<Round>>,
) {
    for number in 0..plan.rounds {
        gate.before(Actor::Balancer, u64::from(number));
        let Some(round) = make_round(rt, alloc, seats, plan) else {
            break;
        };
        gate.after(Actor::Balancer, round.answer());
        if rounds.lock(rt).push(round).is_err() {
            break;
        }
    }
}

/// What the threads of a run left beside what the locks keep.
#[derive(Drop)]
pub(crate) struct Ended {
    /// Whether each thread could be made.
    pub all_made: bool,
    /// The balancer's rounds.
    pub rounds: Vec<Round>,
}

/// Starts a thread for each processor, each worker and the balancer, and returns once all have
/// ended.
pub(crate) fn run_all<
    S: GuestSlot + Send,
    L: AsSlice<Call> + Send + Drop,
    G: Gate,
    R: Threads + Wait + Sync,
>(rt: &R, alloc: Global, seats: &[Seat<S, L>], plan: &Plan, gate: &G) -> Ended {
    let rounds = Mutex::new(Vec::new(alloc));
    let noted = &rounds;
    let all_made = thread::scope(thread::scope_env(), rt, |scope| {
        let mut all_made = true;
        for seat in seats {
            let spawned = scope.spawn(move || run_worker(rt, alloc, seat, gate));
            all_made = all_made && spawned.is_ok();
            for cpu in 0..seat.processors {
                let spawned = scope.spawn(move || run_processor(rt, alloc, seat, plan, gate, cpu));
                if spawned.is_err() {
                    seat.bell.sign_off(rt);
                    all_made = false;
                }
            }
        }
        let spawned = scope.spawn(move || run_balancer(rt, alloc, seats, plan, gate, noted));
        all_made && spawned.is_ok()
    });
    Ended {
        all_made,
        rounds: rounds.into_inner(),
    }
}

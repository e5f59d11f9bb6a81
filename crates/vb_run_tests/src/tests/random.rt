//! Random plans: each that is run gives a report, and what its threads noted is as it must be.

use crate::tests::leased::{Noted, Pace, Ports, Tables, run_noted};
use rand_core::Rng;
use rand_pcg::Pcg32;
use std::alloc::{AllocError, Global};
use std::sync::Wait;
use std::test::Fail;
use std::thread::Threads;
use std::time::Clock;
use vb_model::{Bytes, Call};
use vb_ram::Config;
use vb_run::{Bells, GuestPlan, Plan};

// How much is tried here. `tools/soak-threads` tries more of larger plans, with other numbers in
// these five lines.
const PLANS: u32 = 6;

const MAX_GUESTS: u32 = 2;

const MAX_CALLS: u32 = 24;

const SEED: u64 = 1;

// Fewer calls than this show nothing. The tool wants more than there are: so it is told how many
// were made.
const LEAST_CALLS: u64 = 100;

/// A number below this one, or 0.
fn below(numbers: &mut Pcg32, end: u32) -> u32 {
    numbers.next_u32().checked_rem(end).unwrap_or(0)
}

/// One of these.
fn one_of<T: Copy + Default>(numbers: &mut Pcg32, choices: &[T]) -> T {
    let place = below(numbers, number(choices.len()));
    choices.get(place as usize).copied().unwrap_or_default()
}

fn number(count: usize) -> u32 {
    u32::try_from(count).unwrap_or(u32::MAX)
}

/// One of the pages that a call may get hold of, usually; else any number up to the guest's end.
fn page(numbers: &mut Pcg32, pages: u32) -> u32 {
    match below(numbers, 4) {
        0 => below(numbers, pages.saturating_add(2)),
        _ => 16u32.saturating_add(below(numbers, 12)),
    }
}

/// A call of a guest's processor.
fn call(alloc: Global, numbers: &mut Pcg32, cpu: u32, pages: u32) -> Result<Call, AllocError> {
    let order = below(numbers, 3);
    let page = page(numbers, pages);
    let offset = below(numbers, 4_100);
    let count = one_of(numbers, &[1, 2, 3, 4, 8, 9]);
    Ok(match below(numbers, 14) {
        0 | 1 | 2 => Call::Alloc { cpu, order },
        3 => Call::Free {
            cpu,
            start: page,
            order,
        },
        4 | 5 => Call::Write {
            page,
            at: offset,
            bytes: Bytes::new(vec![in alloc; 0xaa; count as usize]?),
        },
        6 => Call::Read {
            page,
            at: offset,
            len: count,
        },
        7 | 8 => Call::Inflate { pages: count },
        9 => Call::Deflate { pages: count },
        10 => Call::Oom { pages: count },
        11 => Call::Report { from: page },
        12 => Call::Stats,
        _ => Call::Reap {
            queue: below(numbers, 5),
        },
    })
}

/// A guest of random size with random scripts.
fn guest(alloc: Global, numbers: &mut Pcg32) -> Result<GuestPlan, AllocError> {
    let config = Config {
        pages: one_of(numbers, &[64, 80, 128]),
        queue_size: one_of(numbers, &[2, 4, 8, 256]),
        processors: one_of(numbers, &[1, 2, 3, 4]),
    };
    let mut scripts = Vec::new(alloc);
    for cpu in 0..config.processors {
        let mut script = Vec::new(alloc);
        for _ in 0..below(numbers, MAX_CALLS) {
            script.push(call(alloc, numbers, cpu, config.pages)?)?;
        }
        scripts.push(script)?;
    }
    Ok(GuestPlan { config, scripts })
}

/// How a guest's doorbell is rung.
fn bells(numbers: &mut Pcg32) -> Bells {
    match below(numbers, 4) {
        0 => Bells::Plain,
        1 => Bells::Drop,
        2 => Bells::Double,
        _ => Bells::Late,
    }
}

/// A plan of random guests, on a host that may want frames.
fn plan(alloc: Global, numbers: &mut Pcg32) -> Result<Plan, AllocError> {
    let mut guests = Vec::new(alloc);
    for _ in 0..=below(numbers, MAX_GUESTS) {
        guests.push(guest(alloc, numbers)?)?;
    }
    let needed = number(guests.len()).saturating_mul(48);
    Ok(Plan {
        guests,
        frames: below(numbers, needed).max(1),
        bells: bells(numbers),
        floor: below(numbers, 32),
        rounds: below(numbers, 6),
    })
}

/// How many calls the scripts of a plan have.
fn calls_in(plan: &Plan) -> u64 {
    let mut calls: u64 = 0;
    for guest in &plan.guests {
        for script in &guest.scripts {
            calls = calls.saturating_add(script.len() as u64);
        }
    }
    calls
}

/// Runs a plan on one table of frames, whose devices are of this pace.
fn run<R: Threads + Wait + Clock + Sync>(
    rt: &R,
    alloc: Global,
    plan: &Plan,
    pace: Pace,
) -> Result<Noted, AllocError> {
    let ports = Ports {
        count: number(plan.guests.len()),
        pace,
        tables: Tables::Shared,
        frames: plan.frames,
    };
    run_noted(rt, alloc, plan, ports, &[])
}

#[test]
fn random_plans_are_run(rt: HostRuntime) -> Result<(), Fail> {
    let alloc = rt.alloc();
    let mut numbers = Pcg32::new(SEED, 0);
    let mut calls: u64 = 0;
    for turn in 0..PLANS {
        let plan = plan(alloc, &mut numbers)?;
        let pace = if below(&mut numbers, 2) == 0 {
            Pace::Immediate
        } else {
            Pace::Paced
        };
        let noted = run(&rt, alloc, &plan, pace)?;
        let broken = noted.broken;
        assert!(rt;
            noted.ended.result.is_ok() && noted.ended.is_clean() && broken.is_none(),
            "plan {turn} is run: {broken:?}"
        );
        calls = calls.saturating_add(calls_in(&plan));
    }
    assert!(rt; calls >= LEAST_CALLS, "{calls} calls were made");
    Ok(())
}

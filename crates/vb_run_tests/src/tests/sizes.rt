//! Runs of many rounds and of the largest table, and the room that a history has from the start.

use crate::tests::leased::{Ended, Pace, Ports, Tables, run_leased};
use crate::tests::plans::{Balances, Guests, Line, SMALL};
use std::alloc::{AllocError, Global};
use std::sync::Wait;
use std::thread::Threads;
use vb_ram::Config;
use vb_run::{Bells, OpenGate, Report};
use vb_virtio::limits::MAX_FRAMES;

/// A guest of two processors, and what the balancer does.
struct Row {
    name: &'static str,
    frames: u32,
    /// Calls of each processor.
    calls: usize,
    /// Rounds of the balancer; there is no greatest number of them.
    rounds: u32,
    /// Entries that have room from the start: twice the calls of both, and 64 more.
    room: usize,
}

const ONE: Row = Row {
    name: "no call",
    frames: 64,
    calls: 0,
    rounds: 0,
    room: 64,
};

static ROWS: [Row; 4] = [
    ONE,
    Row {
        name: "room for 400 calls",
        calls: 200,
        room: 864,
        ..ONE
    },
    Row {
        name: "many rounds",
        rounds: 4_000,
        ..ONE
    },
    Row {
        name: "the largest table",
        frames: MAX_FRAMES,
        ..ONE
    },
];

/// Processors that read pages which they don't hold.
static READS: &[&[Line]] = &[&[Line::Read(16)], &[Line::Read(17)]];

impl Row {
    fn run<R: Threads + Wait + Sync>(&self, rt: &R, alloc: Global) -> Result<Ended, AllocError> {
        let guests = Guests {
            count: 1,
            config: Config {
                processors: 2,
                ..SMALL
            },
            scripts: READS,
            rounds: self.calls,
        };
        let balances = Balances {
            floor: 0,
            count: self.rounds,
        };
        let plan = guests.plan(alloc, self.frames, Bells::Plain, balances)?;
        let ports = Ports {
            count: 1,
            pace: Pace::Paced,
            tables: Tables::Shared,
            frames: self.frames,
        };
        run_leased(rt, alloc, &plan, ports, &OpenGate)
    }

    /// Whether the report has all rounds, and its guest's history the room.
    fn is_whole(&self, report: &Report) -> bool {
        match report.guests.first() {
            None => false,
            Some(guest) => {
                report.rounds.len() == self.rounds as usize && guest.history.capacity() >= self.room
            }
        }
    }
}

#[test]
fn large_runs_have_memory_and_room(rt: HostRuntime) {
    for row in &ROWS {
        let name = row.name;
        let Ok(ended) = row.run(&rt, rt.alloc()) else {
            panic!(rt; "{name}: there is no memory")
        };
        assert!(rt; ended.is_clean(), "{name}: no frame is out");
        match &ended.result {
            Ok(report) => assert!(rt; row.is_whole(report), "{name}: all rounds and the room"),
            Err(fault) => panic!(rt; "{name}: {fault:?}"),
        }
    }
}

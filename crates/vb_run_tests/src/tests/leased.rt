//! Runs of plans on leased frames.

use crate::tests::holds::{Hold, Holding, first_unmet};
use crate::tests::notes::Note;
use crate::tests::order::{Broken, Run};
use crate::tests::watch::{Watch, add_watched};
use std::alloc::{AllocError, Global};
use std::sync::Wait;
use std::thread::Threads;
use std::time::Clock;
use vb_device::{ImmediateDevice, PacedDevice};
use vb_run::{Plan, Report, RunFault, run_threads};
use vb_shared::{FramePass, Leased, SharedFrames};
use vb_slot::LonePort;

/// How a guest's device serves requests.
#[derive(Clone, Copy)]
pub(super) enum Pace {
    Immediate,
    Paced,
}

/// The tables of a host's frames.
#[derive(Clone, Copy)]
pub(super) enum Tables {
    /// One for all ports.
    Shared,
    /// One for each port.
    Own,
}

/// The ports of a run.
#[derive(Clone, Copy)]
pub(super) struct Ports {
    pub count: u32,
    pub pace: Pace,
    pub tables: Tables,
    /// Frames of a table.
    pub frames: u32,
}

/// How a run ended.
#[derive(Drop)]
pub(super) struct Ended {
    pub result: Result<Report, RunFault>,
    /// Frames that are out afterwards, over all tables.
    out: u32,
}

impl Ended {
    /// Whether all frames came back.
    pub(super) fn is_clean(&self) -> bool {
        self.out == 0
    }
}

/// A table with a pass for each of `guests` guests.
fn open(
    alloc: Global,
    frames: u32,
    guests: u32,
    tables: &mut Vec<SharedFrames>,
    passes: &mut Vec<FramePass>,
) -> Result<(), AllocError> {
    if !(1..=65_536).contains(&frames) || !(1..=8).contains(&guests) {
        return Err(AllocError);
    }
    let (table, own) = SharedFrames::open(alloc, frames, guests)?;
    tables.push(table)?;
    for pass in own {
        passes.push(pass)?;
    }
    Ok(())
}

impl Ports {
    /// The tables of these ports, and a pass for each.
    fn open(
        self,
        alloc: Global,
        tables: &mut Vec<SharedFrames>,
        passes: &mut Vec<FramePass>,
    ) -> Result<(), AllocError> {
        let (count, guests) = match self.tables {
            Tables::Shared => (self.count.min(1), self.count),
            Tables::Own => (self.count, 1),
        };
        for _ in 0..count {
            open(alloc, self.frames, guests, tables, passes)?;
        }
        Ok(())
    }
}

/// How many frames are out.
fn count_out(tables: &[SharedFrames]) -> u32 {
    let mut out: u32 = 0;
    for table in tables {
        out = out.saturating_add(table.census());
    }
    out
}

/// Runs a plan at these ports.
pub(super) fn run_leased<G: Watch, R: Threads + Wait + Sync>(
    rt: &R,
    alloc: Global,
    plan: &Plan,
    ports: Ports,
    gate: &G,
) -> Result<Ended, AllocError> {
    let mut tables = Vec::new(alloc);
    let mut passes = Vec::new(alloc);
    ports.open(alloc, &mut tables, &mut passes)?;
    passes.reverse();
    let mut devices = Vec::new(alloc);
    while let Some(mut pass) = passes.pop() {
        // A new pass holds nothing; with this call that is known here.
        pass.give_back_all();
        match ports.pace {
            Pace::Immediate => {
                let device = Leased::new(ImmediateDevice::new(alloc), pass);
                let device = Box::new(alloc, device)?;
                let port = LonePort::new(device);
                add_watched(&mut devices, port, gate)?;
            }
            Pace::Paced => {
                let device = Leased::new(PacedDevice::new(alloc), pass);
                let device = Box::new(alloc, device)?;
                let port = LonePort::new(device);
                add_watched(&mut devices, port, gate)?;
            }
        }
    }
    let result = run_threads(rt, alloc, plan, devices, gate);
    let out = count_out(tables.as_slice());
    Ok(Ended { result, out })
}

/// How a run ended whose threads noted what they did.
#[derive(Drop)]
pub(super) struct Noted {
    pub ended: Ended,
    /// What the first hold waited for that wasn't met.
    pub unmet: Option<&'static str>,
    /// What of the notes isn't as it must be, if there is a report.
    pub broken: Option<Broken>,
    pub notes: Vec<Note>,
}

/// Runs a plan at these ports with a gate that notes, and has these holds.
pub(super) fn run_noted<R: Threads + Wait + Clock + Sync>(
    rt: &R,
    alloc: Global,
    plan: &Plan,
    ports: Ports,
    holds: &'static [Hold],
) -> Result<Noted, AllocError> {
    let gate = Holding::new(rt, alloc, holds)?;
    let ended = run_leased(rt, alloc, plan, ports, &gate)?;
    let notes = gate.take_notes()?;
    let broken = match &ended.result {
        Ok(report) => Run {
            plan,
            report,
            notes: notes.as_slice(),
        }
        .first_broken(alloc)?,
        Err(_fault) => None,
    };
    Ok(Noted {
        ended,
        unmet: first_unmet(holds, notes.as_slice()),
        broken,
        notes,
    })
}

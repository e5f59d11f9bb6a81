//! Plans of tests.

use std::alloc::{AllocError, Global};
use vb_model::{Bytes, Call, Reply};
use vb_ram::Config;
use vb_run::{Bells, Caller, GuestPlan, Note, Plan};
use vb_virtio::Refusal;

/// A guest of 64 pages with one processor.
pub(super) const SMALL: Config = Config {
    pages: 64,
    queue_size: 8,
    processors: 1,
};

/// A call of a script, with what the scripts of the tests leave as it is left out.
#[derive(Clone, Copy)]
pub(super) enum Line {
    /// One page is taken by this processor.
    Alloc(u32),
    /// This page is given back by processor 0.
    Free(u32),
    /// 0xaa is written at the beginning of this page.
    Write(u32),
    /// The first byte of this page is read.
    Read(u32),
    Inflate(u32),
    Deflate(u32),
    Stats,
    Report,
    Reap(u32),
    Init,
    SetTarget,
}

impl Line {
    pub(super) fn call(self, alloc: Global) -> Result<Call, AllocError> {
        Ok(match self {
            Line::Alloc(cpu) => Call::Alloc { cpu, order: 0 },
            Line::Free(start) => Call::Free {
                cpu: 0,
                start,
                order: 0,
            },
            Line::Write(page) => Call::Write {
                page,
                at: 0,
                bytes: Bytes::new(vec![in alloc; 0xaa; 1]?),
            },
            Line::Read(page) => Call::Read {
                page,
                at: 0,
                len: 1,
            },
            Line::Inflate(pages) => Call::Inflate { pages },
            Line::Deflate(pages) => Call::Deflate { pages },
            Line::Stats => Call::Stats,
            Line::Report => Call::Report { from: 0 },
            Line::Reap(queue) => Call::Reap { queue },
            Line::Init => Call::Init { features: 0 },
            Line::SetTarget => Call::SetTarget { pages: 0 },
        })
    }
}

/// What a line of a script is answered.
#[derive(Clone, Copy)]
pub(super) enum Answer {
    Done,
    /// The block that begins at this page.
    Page(u32),
    /// The byte that the scripts write.
    Written,
    /// A request with this head and n pages.
    Posted(u32, u32),
    Reaped(u32, u32),
    NotReady,
}

impl Answer {
    fn is(self, reply: &Reply) -> bool {
        match (self, reply) {
            (Answer::Done, Reply::Done) => true,
            (Answer::Page(page), Reply::Page { start }) => page == *start,
            (Answer::Written, Reply::ReadBytes { bytes }) => {
                bytes.as_slice() == [0xaa].as_slice()
            }
            (Answer::Posted(h, n), Reply::Posted { head, pages }) => h == *head && n == *pages,
            (Answer::Reaped(h, n), Reply::Reaped { head, pages }) => h == *head && n == *pages,
            (Answer::NotReady, Reply::Refused(refusal)) => *refusal == Refusal::NotReady,
            _ => false,
        }
    }
}

/// Whether this is the answer at a place of a script that goes over its lines again and again.
fn is_at(answers: &[Answer], place: usize, reply: &Reply) -> bool {
    let Some(line) = place.checked_rem(answers.len()) else {
        return false;
    };
    match answers.get(line) {
        Some(answer) => answer.is(reply),
        None => false,
    }
}

/// What the note's call was replied, if it is a call of this processor.
pub(super) fn reply_to(note: &Note, cpu: u32) -> Option<&Reply> {
    match note {
        Note::Called {
            caller: Caller::Processor { cpu: own, .. },
            reply,
            ..
        } if *own == cpu => Some(reply),
        _ => None,
    }
}

/// Whether this processor's calls are those of a script whose lines are answered so in each of its
/// rounds.
pub(super) fn are(history: &[Note], cpu: u32, answers: &[Answer], rounds: usize) -> bool {
    let mut place: usize = 0;
    for note in history {
        if let Some(reply) = reply_to(note, cpu) {
            if !is_at(answers, place, reply) {
                return false;
            }
            place = place.saturating_add(1);
        }
    }
    place == rounds.saturating_mul(answers.len())
}

/// A script: these lines, `rounds` times.
fn script(alloc: Global, lines: &[Line], rounds: usize) -> Result<Vec<Call>, AllocError> {
    let mut calls = Vec::new(alloc);
    for place in 0..rounds.saturating_mul(lines.len()) {
        if let Some(line) = lines.get(place % lines.len()) {
            calls.push(line.call(alloc)?)?;
        }
    }
    Ok(calls)
}

/// What the guests of a plan are and do; all are alike.
#[derive(Clone, Copy)]
pub(super) struct Guests {
    pub count: u32,
    pub config: Config,
    /// A script for each processor.
    pub scripts: &'static [&'static [Line]],
    /// How often each script goes over its lines.
    pub rounds: usize,
}

/// What the balancer does.
#[derive(Clone, Copy)]
pub(super) struct Balances {
    pub floor: u32,
    pub count: u32,
}

impl Guests {
    fn guest_plan(&self, alloc: Global) -> Result<GuestPlan, AllocError> {
        let mut scripts = Vec::new(alloc);
        for lines in self.scripts {
            scripts.push(script(alloc, lines, self.rounds)?)?;
        }
        Ok(GuestPlan {
            config: self.config,
            scripts,
        })
    }

    /// The plan of these guests on a host of `frames` frames.
    pub(super) fn plan(
        &self,
        alloc: Global,
        frames: u32,
        bells: Bells,
        balances: Balances,
    ) -> Result<Plan, AllocError> {
        let mut guests = Vec::new(alloc);
        for _ in 0..self.count {
            guests.push(self.guest_plan(alloc)?)?;
        }
        Ok(Plan {
            guests,
            frames,
            bells,
            floor: balances.floor,
            rounds: balances.count,
        })
    }
}

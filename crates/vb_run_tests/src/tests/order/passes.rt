//! A worker's passes: each ends once none of nine calls finds anything to do.

use super::{Broken, Run};
use crate::tests::history::{Act, Pair, Said, pairs_by, rows_of};
use crate::tests::notes::{Line, Note, is_processor, lines_of};
use std::alloc::{AllocError, Global};
use std::mem::replace;
use vb_model::Actor;
use vb_run::{Bells, Entry};
use vb_virtio::layout::{DEFLATE_QUEUE, INFLATE_QUEUE, REPORT_QUEUE, STATISTICS_QUEUE};

/// The calls by which a worker looks for everything that there may be to do: chains of each of four
/// queues, a page, a request of each of three queues that is done, and statistics.
static SERVICES: [Act<'static>; 9] = [
    Act::Take(INFLATE_QUEUE),
    Act::Take(DEFLATE_QUEUE),
    Act::Take(STATISTICS_QUEUE),
    Act::Take(REPORT_QUEUE),
    Act::Work,
    Act::Finish(INFLATE_QUEUE),
    Act::Finish(DEFLATE_QUEUE),
    Act::Finish(REPORT_QUEUE),
    Act::Ask,
];

/// A worker's call with its reply.
#[derive(Clone, Copy)]
struct Serve<'a> {
    act: Act<'a>,
    said: Said<'a>,
    /// Whether somebody else called the guest since the call before.
    is_disturbed: bool,
    /// Whether it is the first one of those that are made under one lock.
    is_first: bool,
    /// Whether it is the last one of these.
    is_last: bool,
}

/// Whether the call found nothing to do.
fn found_nothing(said: Said<'_>) -> bool {
    matches!(said, Said::Empty | Said::Idle | Said::Refused(_))
}

/// The number of a service.
fn number_of(act: Act<'_>) -> Option<usize> {
    for (number, service) in SERVICES.iter().enumerate() {
        if *service == act {
            return Some(number);
        }
    }
    None
}

/// The passes of a worker so far. Calls that are made under one lock have one number.
#[derive(Clone, Copy)]
struct Passes {
    /// How many have ended.
    count: u64,
    /// The number of the calls with which the last of these began.
    last: u64,
    /// The number of the calls with which the next one begins, or has begun.
    next: u64,
    /// Which services found nothing to do, since a call did something.
    idle: [bool; 9],
}

impl Passes {
    fn new() -> Passes {
        Passes {
            count: 0,
            last: 0,
            next: 0,
            idle: [false; 9],
        }
    }

    /// Notes a call that found nothing to do. Whether it may be made: the first one under a lock,
    /// or one of which this wasn't known.
    fn add_idle(&mut self, serve: Serve<'_>) -> bool {
        let Some(number) = number_of(serve.act) else {
            return false;
        };
        let Some(is_idle) = self.idle.get_mut(number) else {
            return false;
        };
        let was_idle = replace(is_idle, true);
        serve.is_first || !was_idle
    }

    /// Ends a pass with the calls of this number. Whether nothing is left to do.
    fn end(&mut self, number: u64) -> bool {
        self.count = self.count.saturating_add(1);
        self.last = self.next;
        self.next = number.saturating_add(1);
        self.idle == [true; 9]
    }

    /// Notes a call of those of this number, with its reply. Whether a pass may have it.
    fn add(&mut self, number: u64, serve: Serve<'_>) -> bool {
        if serve.is_disturbed {
            self.idle = [false; 9];
        }
        if !found_nothing(serve.said) {
            self.idle = [false; 9];
            return serve.is_last;
        }
        self.add_idle(serve) && (!serve.is_last || self.end(number))
    }

    /// The passes that these calls are; none where they aren't passes.
    fn of(serves: &[Serve<'_>]) -> Option<Passes> {
        let mut passes = Passes::new();
        let mut number: u64 = 0;
        for serve in serves {
            if !passes.add(number, *serve) {
                return None;
            }
            if serve.is_last {
                number = number.saturating_add(1);
            }
        }
        if passes.next == number {
            Some(passes)
        } else {
            None
        }
    }
}

/// Reads a worker's notes.
#[derive(Drop)]
struct Reader<'a> {
    serves: Vec<Serve<'a>>,
    /// The number of its next calls.
    number: u64,
    act: Option<Act<'a>>,
    is_disturbed: bool,
    is_before: bool,
    /// Whether it has called since.
    has_called: bool,
}

impl<'a> Reader<'a> {
    fn new(alloc: Global) -> Reader<'a> {
        Reader {
            serves: Vec::new(alloc),
            number: 0,
            act: None,
            is_disturbed: false,
            is_before: false,
            has_called: false,
        }
    }

    /// Begins a call. Whether it may come next: nobody else calls the guest amid calls that are
    /// made under one lock.
    fn begin(&mut self, act: Act<'a>) -> bool {
        let may_come = self.is_before && self.act.is_none();
        self.act = Some(act);
        may_come && !(self.has_called && self.is_disturbed)
    }

    /// Notes what the call that was begun was replied. Whether there is one.
    fn reply(&mut self, said: Said<'a>) -> Result<bool, AllocError> {
        let Some(act) = self.act else {
            return Ok(false);
        };
        self.serves.push(Serve {
            act,
            said,
            is_disturbed: replace(&mut self.is_disturbed, false),
            is_first: !replace(&mut self.has_called, true),
            is_last: false,
        })?;
        self.act = None;
        Ok(true)
    }

    /// Ends the calls of a number. Whether the last one was answered so.
    fn end(&mut self, said: Said<'a>) -> bool {
        let may_end = self.has_called && self.act.is_none();
        self.number = self.number.saturating_add(1);
        self.is_before = false;
        self.has_called = false;
        match self.serves.last_mut() {
            Some(serve) if may_end => {
                serve.is_last = true;
                serve.said == said
            }
            _ => false,
        }
    }

    /// Whether the note may come next.
    fn read(&mut self, line: Line<'a>) -> Result<bool, AllocError> {
        match line {
            Line::Before(number) if !self.is_before && number == self.number => {
                self.is_before = true;
                Ok(true)
            }
            Line::Disturbed => {
                self.is_disturbed = true;
                Ok(true)
            }
            Line::Called(_, act) => Ok(self.begin(act)),
            Line::Replied(said) => self.reply(said),
            Line::After(said) => Ok(self.end(said)),
            _ => Ok(false),
        }
    }
}

/// The worker's own notes: the runner makes its calls once more when all threads have ended.
fn own_lines<'b, 'a>(lines: &'b [Line<'a>]) -> &'b [Line<'a>] {
    let mut count = 0;
    for (place, line) in lines.iter().enumerate() {
        if let Line::After(_) = line {
            count = place.saturating_add(1);
        }
    }
    lines.get(..count).unwrap_or(lines)
}

/// The calls of these notes; none where they aren't calls in order, under locks that are numbered
/// from 0, those under each between its `before` and an `after` with the last one's reply.
fn serves_of<'a>(alloc: Global, lines: &[Line<'a>]) -> Result<Option<Vec<Serve<'a>>>, AllocError> {
    let mut reader = Reader::new(alloc);
    for line in lines {
        if !reader.read(*line)? {
            return Ok(None);
        }
    }
    Ok(Some(reader.serves))
}

/// What the calls were replied that found something to do.
fn found_by<'a>(alloc: Global, serves: &[Serve<'a>]) -> Result<Vec<Pair<'a>>, AllocError> {
    let mut pairs = Vec::new(alloc);
    for serve in serves {
        if !found_nothing(serve.said) {
            pairs.push((serve.act, serve.said))?;
        }
    }
    Ok(pairs)
}

/// Whether the calls that found something to do are the first ones of the worker in the history.
fn are_entries(
    alloc: Global,
    serves: &[Serve<'_>],
    history: &[Entry],
    worker: Actor,
) -> Result<bool, AllocError> {
    let rows = rows_of(alloc, history)?;
    let entries = pairs_by(alloc, rows.as_slice(), worker)?;
    let found = found_by(alloc, serves)?;
    Ok(entries.get(..found.len()) == Some(found.as_slice()))
}

/// Whether the worker's call of this number comes after all notes of its guest's processors.
fn is_behind(notes: &[Note], guest: u32, number: u64) -> bool {
    let mut has_begun = false;
    for note in notes {
        match note {
            Note::Before {
                actor: Actor::Worker { guest: own },
                number: begun,
            } if *own == guest && *begun == number => has_begun = true,
            Note::Before { actor, .. } | Note::Inside { actor, .. } | Note::After { actor, .. }
                if has_begun && is_processor(*actor, guest) => {
                return false;
            }
            _ => {}
        }
    }
    has_begun
}

/// How often a doorbell is rung after `calls` calls.
fn rings(bells: Bells, calls: u64) -> u64 {
    match bells {
        Bells::Plain | Bells::Late => calls,
        Bells::Drop => 0,
        Bells::Double => calls.saturating_mul(2),
    }
}

impl<'a> Run<'a> {
    /// The history of a guest.
    fn history(&self, alloc: Global, guest: u32) -> Result<Vec<Entry>, AllocError> {
        let own = self.report.guests.get(guest as usize);
        let plan = self.plan.guests.get(guest as usize);
        match (own, plan) {
            (Some(own), Some(plan)) => own.entries(alloc, guest, plan),
            _ => Ok(Vec::new(alloc)),
        }
    }

    /// How many calls the scripts of a guest have.
    fn calls(&self, guest: u32) -> u64 {
        let mut calls: u64 = 0;
        for cpu in 0..self.processors(guest) {
            calls = calls.saturating_add(self.script(guest, cpu).len() as u64);
        }
        calls
    }

    /// Whether a worker made a pass at the start, at most one for each ring, and one when its
    /// guest's processors had ended: if the doorbell is never rung, just these two.
    fn is_ended(&self, guest: u32, passes: &Passes) -> bool {
        let most = rings(self.plan.bells, self.calls(guest)).saturating_add(2);
        (2..=most).contains(&passes.count) && is_behind(self.notes, guest, passes.last)
    }

    /// What of a guest's worker isn't as it must be.
    pub(super) fn broken_worker(
        &self,
        alloc: Global,
        guest: u32,
    ) -> Result<Option<Broken>, AllocError> {
        let actor = Actor::Worker { guest };
        let lines = lines_of(alloc, self.notes, actor)?;
        let Some(serves) = serves_of(alloc, own_lines(lines.as_slice()))? else {
            return Ok(Some(Broken::Calls { actor }));
        };
        let history = self.history(alloc, guest)?;
        if !are_entries(alloc, serves.as_slice(), history.as_slice(), actor)? {
            return Ok(Some(Broken::Calls { actor }));
        }
        match Passes::of(serves.as_slice()) {
            Some(passes) if self.is_ended(guest, &passes) => Ok(None),
            Some(_passes) => Ok(Some(Broken::Ends { guest })),
            None => Ok(Some(Broken::Passes { guest })),
        }
    }
}

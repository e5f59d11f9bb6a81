//! What must be so of the notes of a run that gave a report.

mod lock;
mod passes;

use crate::tests::history::{Act, Said};
use crate::tests::notes::{Line, Note, lines_of};
use std::alloc::{AllocError, Global};
use vb_model::{Actor, Call, Reply};
use vb_run::{Plan, Report, Round};

/// What isn't as it must be.
#[derive(Clone, Copy, Debug, PartialEq, Eq)]
pub(super) enum Broken {
    /// A note is missing.
    Lost,
    /// Under the guest's lock somebody else did something between a processor's coming inside and
    /// the end of its call, or a call isn't of whom it must be.
    Lock { guest: u32 },
    /// The actor's notes aren't its calls, or rounds, in order, numbered from 0, each with what is
    /// reported between a `before` and an `after`, and a processor's with an `inside` before it.
    Calls { actor: Actor },
    /// The worker's calls aren't passes.
    Passes { guest: u32 },
    /// The worker made too few or too many passes, or its last one too early.
    Ends { guest: u32 },
}

/// A run with what its threads noted.
#[derive(Clone, Copy)]
pub(super) struct Run<'a> {
    pub plan: &'a Plan,
    pub report: &'a Report,
    pub notes: &'a [Note],
}

fn push_all<'a>(lines: &mut Vec<Line<'a>>, more: &[Line<'a>]) -> Result<(), AllocError> {
    for line in more {
        lines.push(*line)?;
    }
    Ok(())
}

/// What a processor must have noted that makes these calls, and is replied so.
fn lines_of_script<'a>(
    alloc: Global,
    guest: u32,
    calls: &'a [Call],
    replies: &'a [Reply],
) -> Result<Vec<Line<'a>>, AllocError> {
    let mut lines = Vec::new(alloc);
    let mut number = 0;
    for (call, reply) in calls.iter().zip(replies.iter()) {
        let said = Said::of(reply);
        push_all(
            &mut lines,
            &[
                Line::Before(number),
                Line::Inside(number),
                Line::Called(guest, Act::of(call)),
                Line::Replied(said),
                Line::After(said),
            ],
        )?;
        number = number.saturating_add(1);
    }
    Ok(lines)
}

/// What the balancer must have noted where it sees these needs.
fn push_looks<'a>(lines: &mut Vec<Line<'a>>, round: &Round) -> Result<(), AllocError> {
    let mut guest = 0;
    for need in round.needs() {
        lines.push(Line::Looked(guest, need.spare))?;
        guest = guest.saturating_add(1);
    }
    Ok(())
}

/// What the balancer must have noted where it sets these targets.
fn push_targets<'a>(lines: &mut Vec<Line<'a>>, targets: &[u32]) -> Result<(), AllocError> {
    let mut guest = 0;
    for target in targets {
        lines.push(Line::Called(guest, Act::SetTarget(*target)))?;
        lines.push(Line::Replied(Said::Done))?;
        guest = guest.saturating_add(1);
    }
    Ok(())
}

/// What the balancer must have noted in these rounds.
fn lines_of_rounds<'a>(alloc: Global, rounds: &'a [Round]) -> Result<Vec<Line<'a>>, AllocError> {
    let mut lines = Vec::new(alloc);
    let mut number = 0;
    for round in rounds {
        lines.push(Line::Before(number))?;
        push_looks(&mut lines, round)?;
        if let Reply::Targets { pages } = round.answer() {
            push_targets(&mut lines, pages.as_slice())?;
        }
        lines.push(Line::After(Said::of(round.answer())))?;
        number = number.saturating_add(1);
    }
    Ok(lines)
}

/// Whether none of the notes is missing.
fn is_whole(notes: &[Note]) -> bool {
    for note in notes {
        if let Note::Lost = note {
            return false;
        }
    }
    true
}

impl<'a> Run<'a> {
    /// The script of a guest's processor.
    fn script(&self, guest: u32, cpu: u32) -> &'a [Call] {
        match self.plan.guests.get(guest as usize) {
            Some(own) => match own.scripts.get(cpu as usize) {
                Some(calls) => calls.as_slice(),
                None => &[],
            },
            None => &[],
        }
    }

    /// What a guest's processor was replied.
    fn replies(&self, alloc: Global, guest: u32, cpu: u32) -> Result<Vec<Reply>, AllocError> {
        match self.report.guests.get(guest as usize) {
            Some(own) => own.replies(alloc, cpu),
            None => Ok(Vec::new(alloc)),
        }
    }

    /// How many processors a guest has.
    fn processors(&self, guest: u32) -> u32 {
        match self.plan.guests.get(guest as usize) {
            Some(own) => own.config.processors,
            None => 0,
        }
    }

    /// Whether a processor's notes are its script and the reported replies.
    fn is_script(&self, alloc: Global, guest: u32, cpu: u32) -> Result<bool, AllocError> {
        let calls = self.script(guest, cpu);
        let replies = self.replies(alloc, guest, cpu)?;
        let made = lines_of(alloc, self.notes, Actor::Processor { guest, cpu })?;
        let wanted = lines_of_script(alloc, guest, calls, replies.as_slice())?;
        Ok(calls.len() == replies.len() && made.as_slice() == wanted.as_slice())
    }

    /// Whether the balancer's notes are the reported rounds.
    fn are_rounds(&self, alloc: Global) -> Result<bool, AllocError> {
        let made = lines_of(alloc, self.notes, Actor::Balancer)?;
        let wanted = lines_of_rounds(alloc, self.report.rounds.as_slice())?;
        Ok(made.as_slice() == wanted.as_slice())
    }

    /// The first script of a guest that isn't as it must be.
    fn broken_script(&self, alloc: Global, guest: u32) -> Result<Option<Broken>, AllocError> {
        for cpu in 0..self.processors(guest) {
            if !self.is_script(alloc, guest, cpu)? {
                return Ok(Some(Broken::Calls {
                    actor: Actor::Processor { guest, cpu },
                }));
            }
        }
        Ok(None)
    }

    /// What of a guest isn't as it must be.
    fn broken_guest(&self, alloc: Global, guest: u32) -> Result<Option<Broken>, AllocError> {
        if !lock::is_kept(self.notes, guest) {
            return Ok(Some(Broken::Lock { guest }));
        }
        let broken = self.broken_script(alloc, guest)?;
        if broken.is_some() {
            return Ok(broken);
        }
        self.broken_worker(alloc, guest)
    }

    /// What isn't as it must be.
    pub(super) fn first_broken(&self, alloc: Global) -> Result<Option<Broken>, AllocError> {
        if !is_whole(self.notes) {
            return Ok(Some(Broken::Lost));
        }
        if !self.are_rounds(alloc)? {
            return Ok(Some(Broken::Calls {
                actor: Actor::Balancer,
            }));
        }
        let mut guest = 0;
        for _own in &self.plan.guests {
            let broken = self.broken_guest(alloc, guest)?;
            if broken.is_some() {
                return Ok(broken);
            }
            guest = guest.saturating_add(1);
        }
        Ok(None)
    }
}

//! What threads note of a run: what its gate is called for, and what its guests do.

use crate::tests::history::{Act, Said};
use std::alloc::{AllocError, Global};
use vb_model::{Actor, Call, Reply};

/// What a thread noted.
#[derive(Drop)]
pub(super) enum Note {
    /// An actor is about to make its call of this number, or the balancer its round.
    Before { actor: Actor, number: u64 },
    /// A processor has its guest's lock, for its call of this number.
    Inside { actor: Actor, number: u64 },
    /// A guest begins a call.
    Called { guest: u32, call: Call },
    /// A guest ends its call.
    Replied { guest: u32, reply: Reply },
    /// The balancer saw how many pages a guest can spare.
    Looked { guest: u32, spare: u32 },
    /// A page of a guest has this frame, once all threads have ended.
    Backed { guest: u32, frame: u32 },
    /// An actor has made its call, or the balancer its round.
    After { actor: Actor, reply: Reply },
    /// A thread was held up: by which hold, and whether some thread came where it waited for one.
    Held { hold: usize, is_met: bool },
    /// There was no memory for a note.
    Lost,
}

/// A note of one actor.
#[derive(Clone, Copy, PartialEq, Eq)]
pub(super) enum Line<'a> {
    Before(u64),
    Inside(u64),
    /// This guest's call.
    Called(u32, Act<'a>),
    Replied(Said<'a>),
    /// Somebody else calls the worker's guest.
    Disturbed,
    /// What this guest can spare.
    Looked(u32, u32),
    After(Said<'a>),
}

/// Whether a processor may make the call.
pub(super) fn is_scripted(act: Act<'_>) -> bool {
    match act {
        Act::Alloc(_, _) | Act::Free(_, _, _) | Act::Read(_, _, _) | Act::Write(_, _, _) => true,
        Act::Inflate(_) | Act::Deflate(_) | Act::Oom(_) | Act::Report(_) => true,
        Act::Stats | Act::Reap(_) => true,
        _ => false,
    }
}

/// Whether a worker may make the call.
pub(super) fn is_service(act: Act<'_>) -> bool {
    matches!(act, Act::Take(_) | Act::Work | Act::Finish(_) | Act::Ask)
}

/// Whether the actor is a processor of this guest.
pub(super) fn is_processor(actor: Actor, guest: u32) -> bool {
    match actor {
        Actor::Processor { guest: own, .. } => own == guest,
        _ => false,
    }
}

/// Picks the notes of one actor out of all.
#[derive(Clone, Copy)]
struct Picker {
    actor: Actor,
    /// Whether it is inside, before its call.
    is_inside: bool,
    /// The guest whose call it makes.
    calling: Option<u32>,
}

impl Picker {
    /// Whether the actor makes this call.
    fn makes(&self, guest: u32, act: Act<'_>) -> bool {
        match self.actor {
            Actor::Starter => false,
            Actor::Processor { guest: own, .. } => guest == own && self.is_inside,
            Actor::Worker { guest: own } => guest == own && is_service(act),
            Actor::Balancer => matches!(act, Act::SetTarget(_)),
        }
    }

    fn disturbed<'a>(&self, guest: u32) -> Option<Line<'a>> {
        match self.actor {
            Actor::Worker { guest: own } if own == guest => Some(Line::Disturbed),
            _ => None,
        }
    }

    fn called<'a>(&mut self, guest: u32, act: Act<'a>) -> Option<Line<'a>> {
        if !self.makes(guest, act) {
            return self.disturbed(guest);
        }
        self.is_inside = false;
        self.calling = Some(guest);
        Some(Line::Called(guest, act))
    }

    fn replied<'a>(&mut self, guest: u32, said: Said<'a>) -> Option<Line<'a>> {
        if self.calling != Some(guest) {
            return None;
        }
        self.calling = None;
        Some(Line::Replied(said))
    }

    /// The actor's note, if it is one.
    fn pick<'a>(&mut self, note: &'a Note) -> Option<Line<'a>> {
        match note {
            Note::Before { actor, number } if *actor == self.actor => Some(Line::Before(*number)),
            Note::Inside { actor, number } if *actor == self.actor => {
                self.is_inside = true;
                Some(Line::Inside(*number))
            }
            Note::Called { guest, call } => self.called(*guest, Act::of(call)),
            Note::Replied { guest, reply } => self.replied(*guest, Said::of(reply)),
            Note::Looked { guest, spare } if self.actor == Actor::Balancer => {
                Some(Line::Looked(*guest, *spare))
            }
            Note::After { actor, reply } if *actor == self.actor => {
                Some(Line::After(Said::of(reply)))
            }
            _ => None,
        }
    }
}

/// The notes of an actor, in order. What is called after its last note isn't its own: the runner
/// makes a worker's calls once more when all threads have ended.
pub(super) fn lines_of<'a>(
    alloc: Global,
    notes: &'a [Note],
    actor: Actor,
) -> Result<Vec<Line<'a>>, AllocError> {
    let mut lines = Vec::new(alloc);
    let mut picker = Picker {
        actor,
        is_inside: false,
        calling: None,
    };
    for note in notes {
        if let Some(line) = picker.pick(note) {
            lines.push(line)?;
        }
    }
    Ok(lines)
}

/// The frames that back the pages of a guest, by rising page.
pub(super) fn frames_of(alloc: Global, notes: &[Note], guest: u32) -> Result<Vec<u32>, AllocError> {
    let mut frames = Vec::new(alloc);
    for note in notes {
        match note {
            Note::Backed { guest: own, frame } if *own == guest => frames.push(*frame)?,
            _ => {}
        }
    }
    Ok(frames)
}

//! A gate that notes all that it is told, and holds threads up, each until another one has come
//! somewhere.

use crate::tests::notes::Note;
use crate::tests::watch::Watch;
use crossbeam_channel::{Receiver, Sender, unbounded};
use std::alloc::{AllocError, Global};
use std::sync::Wait;
use std::sync::atomic::{AtomicBool, Ordering};
use std::time::{Clock, Duration};
use vb_model::{Actor, Call, Reply};
use vb_run::Gate;

/// How many milliseconds a thread sleeps before it looks again whether another one has come.
const TURN: u64 = 1;

/// Turns for which a thread is held up at most: some ten seconds. Then all threads go on.
const MAX_TURNS: u32 = 8_000;

/// Turns for which a thread is held up where nobody may come.
const QUIET_TURNS: u32 = 100;

/// Where a thread may be.
#[derive(Clone, Copy, PartialEq, Eq)]
pub(super) enum Place {
    /// Before an actor's call, or the balancer's round, of this number.
    Before(Actor, u64),
    /// In a processor's call of this number, under its guest's lock.
    Inside(Actor, u64),
    /// In one of a worker's calls, under the lock of this guest.
    Serving(u32),
    /// Where the balancer looks at this guest, under its lock.
    Looking(u32),
    /// After an actor's call, or the balancer's round, with such an answer.
    Behind(Actor, Answer),
    /// Where no thread is.
    Nowhere,
}

/// Answers that a gate waits for.
#[derive(Clone, Copy, PartialEq, Eq)]
pub(super) enum Answer {
    Any,
    Taken,
    Finished,
}

/// Whether some thread has to come where a hold waits for one, or nobody may.
#[derive(Clone, Copy, PartialEq, Eq)]
pub(super) enum Comes {
    Somebody,
    Nobody,
}

/// The first thread at a place is held up until some thread has come to another one.
#[derive(Clone, Copy)]
pub(super) struct Hold {
    /// What is waited for.
    pub name: &'static str,
    pub at: Place,
    pub until: Place,
    pub comes: Comes,
}

/// What a hold has met.
#[derive(Drop)]
struct Mark {
    has_held: AtomicBool,
    has_come: AtomicBool,
}

/// A gate with such holds.
#[derive(Drop)]
pub(super) struct Holding<'a, R> {
    rt: &'a R,
    alloc: Global,
    holds: &'static [Hold],
    /// One for each hold.
    marks: Vec<Mark>,
    /// Whether some hold was given up.
    is_over: AtomicBool,
    notes: Sender<Note, Global>,
    noted: Receiver<Note, Global>,
}

/// A mark for each hold.
fn marks_of(alloc: Global, holds: &[Hold]) -> Result<Vec<Mark>, AllocError> {
    let mut marks = Vec::new(alloc);
    for _hold in holds {
        marks.push(Mark {
            has_held: AtomicBool::new(false),
            has_come: AtomicBool::new(false),
        })?;
    }
    Ok(marks)
}

impl<'a, R: Wait + Clock> Holding<'a, R> {
    pub(super) fn new(
        rt: &'a R,
        alloc: Global,
        holds: &'static [Hold],
    ) -> Result<Holding<'a, R>, AllocError> {
        let (notes, noted) = unbounded(alloc)?;
        Ok(Holding {
            rt,
            alloc,
            holds,
            marks: marks_of(alloc, holds)?,
            is_over: AtomicBool::new(false),
            notes,
            noted,
        })
    }

    /// Notes it.
    fn note(&self, note: Note) {
        let _ = self.notes.send(self.rt, note);
    }

    /// Some thread has come here. It is held up if it is to be held up here.
    fn come(&self, place: Place) {
        self.mark_come(place);
        for (number, hold) in self.holds.iter().enumerate() {
            if hold.at == place {
                self.hold_up(number, hold.comes);
            }
        }
    }

    /// Lets those go that wait for a thread here.
    fn mark_come(&self, place: Place) {
        for (hold, mark) in self.holds.iter().zip(self.marks.iter()) {
            if hold.until == place {
                mark.has_come.store(true, Ordering::SeqCst);
            }
        }
    }

    /// Holds the thread up by the hold of this number, if it is the first one there.
    fn hold_up(&self, number: usize, comes: Comes) {
        let Some(mark) = self.marks.get(number) else {
            return;
        };
        if mark.has_held.swap(true, Ordering::SeqCst) {
            return;
        }
        let turns = match comes {
            Comes::Somebody => MAX_TURNS,
            Comes::Nobody => QUIET_TURNS,
        };
        let has_come = self.wait_for(mark, turns);
        if comes == Comes::Somebody && !has_come {
            self.is_over.store(true, Ordering::SeqCst);
        }
        let is_met = has_come == (comes == Comes::Somebody);
        self.note(Note::Held {
            hold: number,
            is_met,
        });
    }

    /// Waits until some thread has come, for `turns` turns at most. Whether one has.
    fn wait_for(&self, mark: &Mark, turns: u32) -> bool {
        for _ in 0..turns {
            if mark.has_come.load(Ordering::SeqCst) {
                return true;
            }
            if self.is_over.load(Ordering::SeqCst) {
                return false;
            }
            self.rt.sleep(Duration::from_millis(TURN));
        }
        false
    }

    /// What was noted. To be asked once the threads have ended.
    pub(super) fn take_notes(&self) -> Result<Vec<Note>, AllocError> {
        let mut notes = Vec::new(self.alloc);
        for note in self.noted.try_iter(self.rt) {
            notes.push(note)?;
        }
        Ok(notes)
    }

    fn note_inside(&self, guest: u32, cpu: u32, call: u64) {
        let actor = Actor::Processor { guest, cpu };
        self.note(Note::Inside {
            actor,
            number: call,
        });
        self.come(Place::Inside(actor, call));
    }

    fn note_before(&self, actor: Actor, number: u64) {
        self.note(Note::Before { actor, number });
        self.come(Place::Before(actor, number));
    }

    fn note_after(&self, actor: Actor, reply: &Reply) {
        self.note(match reply.copy(self.alloc) {
            Ok(reply) => Note::After { actor, reply },
            Err(_refused) => Note::Lost,
        });
        self.come(Place::Behind(actor, Answer::Any));
        let answer = match reply {
            Reply::Taken { .. } => Answer::Taken,
            Reply::Finished { .. } => Answer::Finished,
            _ => return,
        };
        self.come(Place::Behind(actor, answer));
    }

    fn note_called(&self, alloc: Global, guest: u32, call: &Call) {
        self.note(match call.copy(alloc) {
            Ok(call) => Note::Called { guest, call },
            Err(_refused) => Note::Lost,
        });
        match call {
            Call::Take { .. } | Call::Work | Call::Finish { .. } | Call::Ask => {
                self.come(Place::Serving(guest));
            }
            _ => {}
        }
    }

    fn note_replied(&self, alloc: Global, guest: u32, reply: &Reply) {
        self.note(match reply.copy(alloc) {
            Ok(reply) => Note::Replied { guest, reply },
            Err(_refused) => Note::Lost,
        });
    }

    fn note_looked(&self, guest: u32, spare: u32) {
        self.note(Note::Looked { guest, spare });
        self.come(Place::Looking(guest));
    }

    fn note_backed(&self, guest: u32, frame: u32) {
        self.note(Note::Backed { guest, frame });
    }
}

impl<R: Wait + Clock + Sync> Gate for Holding<'_, R> {
    fn inside(&self, guest: u32, cpu: u32, call: u64) {
        self.note_inside(guest, cpu, call);
    }

    fn before(&self, actor: Actor, number: u64) {
        self.note_before(actor, number);
    }

    fn after(&self, actor: Actor, reply: &Reply) {
        self.note_after(actor, reply);
    }
}

impl<R: Wait + Clock + Sync> Watch for Holding<'_, R> {
    fn called(&self, alloc: Global, guest: u32, call: &Call) {
        self.note_called(alloc, guest, call);
    }

    fn replied(&self, alloc: Global, guest: u32, reply: &Reply) {
        self.note_replied(alloc, guest, reply);
    }

    fn looked(&self, guest: u32, spare: u32) {
        self.note_looked(guest, spare);
    }

    fn backed(&self, guest: u32, frame: u32) {
        self.note_backed(guest, frame);
    }
}

/// What the first of these holds waits for that held nobody up, or wasn't met.
pub(super) fn first_unmet(holds: &[Hold], notes: &[Note]) -> Option<&'static str> {
    for (number, hold) in holds.iter().enumerate() {
        if !is_met(number, notes) {
            return Some(hold.name);
        }
    }
    None
}

/// Whether the hold of this number held a thread up and was met.
fn is_met(number: usize, notes: &[Note]) -> bool {
    for note in notes {
        match note {
            Note::Held { hold, is_met } if *hold == number => return *is_met,
            _ => {}
        }
    }
    false
}

//! What is done under a guest's lock: one thing at a time.

use crate::tests::history::Act;
use crate::tests::notes::{Note, is_processor, is_scripted};

/// What is done under the lock.
#[derive(Clone, Copy, PartialEq, Eq)]
enum Done {
    /// A processor came inside.
    Inside,
    /// A call of a script was begun.
    Scripted,
    /// Another call was begun.
    Other,
    /// A call was ended.
    Replied,
    Looked,
}

/// Who has the lock.
#[derive(Clone, Copy, PartialEq, Eq)]
enum Holder {
    Nobody,
    /// A processor before its call.
    Processor,
    /// A call that was begun.
    Call,
}

fn begun(act: Act<'_>) -> Done {
    if is_scripted(act) {
        Done::Scripted
    } else {
        Done::Other
    }
}

/// What the note says was done under the guest's lock, if it is one of these.
fn done_in(note: &Note, guest: u32) -> Option<Done> {
    match note {
        Note::Inside { actor, .. } if is_processor(*actor, guest) => Some(Done::Inside),
        Note::Called { guest: own, call } if *own == guest => Some(begun(Act::of(call))),
        Note::Replied { guest: own, .. } if *own == guest => Some(Done::Replied),
        Note::Looked { guest: own, .. } if *own == guest => Some(Done::Looked),
        _ => None,
    }
}

impl Holder {
    /// Who has the lock after this; none where it can't be done.
    fn then(self, done: Done) -> Option<Holder> {
        match (self, done) {
            (Holder::Nobody, Done::Inside) => Some(Holder::Processor),
            (Holder::Processor, Done::Scripted) => Some(Holder::Call),
            (Holder::Nobody, Done::Other) => Some(Holder::Call),
            (Holder::Call, Done::Replied) => Some(Holder::Nobody),
            (Holder::Nobody, Done::Looked) => Some(Holder::Nobody),
            _ => None,
        }
    }
}

/// Whether under the guest's lock nobody did anything between a processor's coming inside and the
/// end of its call, nor between the beginning and the end of another call, and each actor inside
/// makes a call of a script.
pub(super) fn is_kept(notes: &[Note], guest: u32) -> bool {
    let mut holder = Holder::Nobody;
    for note in notes {
        if let Some(done) = done_in(note, guest) {
            let Some(next) = holder.then(done) else {
                return false;
            };
            holder = next;
        }
    }
    holder == Holder::Nobody
}

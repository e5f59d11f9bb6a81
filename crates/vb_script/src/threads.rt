//! The lines of a script for guests on threads.

ghost use Rattle.std.specs.Option.{option_map};
ghost use Rattle.std.specs.Prelude.{◌≡◌};
ghost use Rattle.vb_script.specs.Names.{threads_form_of};
ghost use Rattle.vb_script.specs.Threads.{are_plugs, event_line, rounds_line};
ghost use Rattle.vb_script.specs.Words.{only_number, words_left};
ghost use Rattle.vb_model.specs.declared.calls.Event.TheVariants.{Plug as Plugs};
ghost use Rattle.vb_script.specs.declared.threads.ThreadsLine.TheVariants.{Cpu as OfCpu};

use crate::events::event;
use crate::lines::LineFault;
use crate::names::{THREADS_FORMS, ThreadsForm, find};
use crate::reading::Item;
use crate::words::Words;
use std::alloc::Global;
use vb_model::{Call, Event, GuestSize};

/// What a line after the spare devices says.
#[derive(Drop)]
pub enum ThreadsLine {
    /// A guest of this configuration, with the next spare device.
    Plug {
        pages: u32,
        queue_size: u32,
        processors: u32,
    },
    /// All targets are set `count` times, above this floor of free memory.
    Rounds {
        floor: u32,
        count: u32,
    },
    /// The processor of this number makes the calls after it.
    Cpu(u32),
    /// A call on a guest.
    Call {
        guest: u32,
        call: Call,
    },
}

impl Item for ThreadsLine {
    ghost use Rattle.vb_script.specs.Threads.{threads};

    ghost language = { threads };

    fn read(
        alloc: Global,
        earlier: &[ThreadsLine],
        word: &[u8],
        words: &mut Words<'_>,
    ) -> Result<ThreadsLine, LineFault> {
        let form = threads_form_of(word).ok_or(LineFault::Bad)?;
        match form {
            ThreadsForm::Rounds => rounds(earlier, words).ok_or(LineFault::Bad),
            ThreadsForm::Cpu => cpu(words).ok_or(LineFault::Bad),
            ThreadsForm::Event => {
                let event = event(alloc, word, words)?;
                of_event(earlier, event).ok_or(LineFault::Bad)
            }
        }
    }
}

/// What a line with this first word is.
fn threads_form_of(word: &[u8]) -> Option<ThreadsForm>
    ensures { result ≡ threads_form_of word.now }
{
    find(&THREADS_FORMS, word)
}

/// Whether a plug or rounds may come after these lines.
fn are_plugs(earlier: &[ThreadsLine]) -> bool
    ensures { result ≡ are_plugs earlier.now }
{
    match earlier.last() {
        None => true,
        Some(line) => matches!(line, ThreadsLine::Plug { .. }),
    }
}

/// The rest of `rounds FLOOR COUNT`.
fn rounds(earlier: &[ThreadsLine], words: &mut Words<'_>) -> Option<ThreadsLine>
    ensures { result ≡ rounds_line earlier.now (words_left words.old.rest) }
{
    if !are_plugs(earlier) {
        return None;
    }
    let (floor, count) = words.two_numbers()?;
    Some(ThreadsLine::Rounds { floor, count })
}

/// The rest of `cpu CPU`.
fn cpu(words: &mut Words<'_>) -> Option<ThreadsLine>
    ensures { result ≡ option_map OfCpu (only_number (words_left words.old.rest)) }
{
    let cpu = words.number()?;
    Some(ThreadsLine::Cpu(cpu))
}

/// What an event says here: a plug at its place, or a call.
fn of_event(earlier: &[ThreadsLine], event: Event) -> Option<ThreadsLine>
    ensures { result ≡ event_line earlier.now event }
{
    match event {
        Event::Guest { guest, call } => Some(ThreadsLine::Call { guest, call }),
        Event::Plug { size } => plug(earlier, size),
        _ => None,
    }
}

/// A plug, if it is at its place.
fn plug(earlier: &[ThreadsLine], size: GuestSize) -> Option<ThreadsLine>
    ensures { result ≡ event_line earlier.now (Plugs size) }
{
    if !are_plugs(earlier) {
        return None;
    }
    Some(ThreadsLine::Plug {
        pages: size.pages,
        queue_size: size.queue_size,
        processors: size.processors,
    })
}

//! The event that a line's words name.

ghost use Rattle.std.specs.Prelude.{◌≡◌, ◌∷◌, IfOk, MatchOption, true};
ghost use Rattle.vb_model.specs.declared.calls.Event.TheVariants.{Guest as OnGuest};
ghost use Rattle.vb_model.specs.declared.calls.Event.TheVariants.{Query as OnQuery};
ghost use Rattle.vb_script.specs.Events.{bytes_event, event_of, four_number, init_event, is_call};
ghost use Rattle.vb_script.specs.Events.{one_number, pages_event, said, three_number, two_number};
ghost use Rattle.vb_script.specs.Events.{with_bytes};
ghost use Rattle.vb_script.specs.Names.{form_of, pages_query_of};
ghost use Rattle.vb_script.specs.Words.{words_left, three_numbers_and_a_word};
ghost use Rattle.vb_script.specs.declared.names.Form.TheVariants.{Frames, One, Two, Three, Four};

use crate::lines::LineFault;
use crate::names::{
    FORMS_OF_3, FORMS_OF_4, FORMS_OF_5, FORMS_OF_6, FORMS_OF_7, FORMS_OF_8, Form, FourNumbers,
    OneNumber, PLACES, ThreeNumbers, TwoNumbers, WithBytes, find,
};
use crate::reading::Item;
use crate::values::{bytes, features, number, positive};
use crate::words::Words;
use std::alloc::Global;
use vb_model::{Bytes, Call, Event, GuestSize, Query};
use vb_virtio::negotiation::OFFERED_FEATURES;

impl Item for Event {
    ghost use Rattle.vb_script.specs.Texts.{events};

    ghost language = { events };

    fn read(
        alloc: Global,
        _earlier: &[Event],
        word: &[u8],
        words: &mut Words<'_>,
    ) -> Result<Event, LineFault> {
        event(alloc, word, words)
    }
}

/// The event that a line's first word and those after it name. Words that name none make a bad
/// line.
pub fn event(alloc: Global, word: &[u8], words: &mut Words<'_>) -> Result<Event, LineFault>
    ensures ok { IfOk result
        (λ event. event_of (word.now ∷ words_left words.old.rest) ≡ Some event) }
    ensures bad { result ≡ Err LineFault.Bad
        → event_of (word.now ∷ words_left words.old.rest) ≡ None }
    ensures memory { result ≡ Err LineFault.Memory
        → is_call (event_of (word.now ∷ words_left words.old.rest)) ≡ true }
{
    let form = form_of(word).ok_or(LineFault::Bad)?;
    match form {
        Form::Frames => frames(words).ok_or(LineFault::Bad),
        Form::Init => init(words).ok_or(LineFault::Bad),
        Form::Pages => pages(words).ok_or(LineFault::Bad),
        Form::One(name) => one_number(name, words).ok_or(LineFault::Bad),
        Form::Two(name) => two_numbers(name, words).ok_or(LineFault::Bad),
        Form::Three(name) => three_numbers(name, words).ok_or(LineFault::Bad),
        Form::Four(name) => four_numbers(name, words).ok_or(LineFault::Bad),
        Form::Bytes(name) => with_bytes(alloc, name, words),
    }
}

/// What comes after an event's word.
fn form_of(word: &[u8]) -> Option<Form>
    ensures { result ≡ form_of word.now }
{
    match word.len() {
        3 => find(&FORMS_OF_3, word),
        4 => find(&FORMS_OF_4, word),
        5 => find(&FORMS_OF_5, word),
        6 => find(&FORMS_OF_6, word),
        7 => find(&FORMS_OF_7, word),
        8 => find(&FORMS_OF_8, word),
        _ => None,
    }
}

/// `frames`.
fn frames(words: &mut Words<'_>) -> Option<Event>
    ensures { result ≡ said Frames (words_left words.old.rest) }
{
    match words.next() {
        None => Some(Event::Frames),
        Some(_) => None,
    }
}

/// The rest of `init G FEATURES`, the last word of which may be left out.
fn init(words: &mut Words<'_>) -> Option<Event>
    ensures { result ≡ init_event (words_left words.old.rest) }
{
    let guest = number(words.next()?)?;
    let features = if words.is_at_end() {
        OFFERED_FEATURES
    } else {
        features(words.last()?)?
    };
    let call = Call::Init { features };
    Some(Event::Guest { guest, call })
}

/// The rest of `pages G PLACE`.
fn pages(words: &mut Words<'_>) -> Option<Event>
    ensures { result ≡ pages_event (words_left words.old.rest) }
{
    let guest = number(words.next()?)?;
    let query = pages_query(words.last()?)?;
    Some(Event::Query { guest, query })
}

/// The question that the word of a place makes.
fn pages_query(word: &[u8]) -> Option<Query>
    ensures { result ≡ pages_query_of word.now }
{
    find(&PLACES, word)
}

/// The rest of an event that one number says all of.
fn one_number(name: OneNumber, words: &mut Words<'_>) -> Option<Event>
    ensures { result ≡ said (One name) (words_left words.old.rest) }
{
    let number = words.number()?;
    Some(of_one(name, number))
}

/// The rest of an event that two numbers say all of.
fn two_numbers(name: TwoNumbers, words: &mut Words<'_>) -> Option<Event>
    ensures { result ≡ said (Two name) (words_left words.old.rest) }
{
    let (guest, number) = words.two_numbers()?;
    Some(of_two(name, guest, number))
}

/// The rest of an event that three numbers say all of.
fn three_numbers(name: ThreeNumbers, words: &mut Words<'_>) -> Option<Event>
    ensures { result ≡ said (Three name) (words_left words.old.rest) }
{
    let (first, second, third) = words.three_numbers()?;
    Some(of_three(name, first, second, third))
}

/// The rest of an event that four numbers say all of.
fn four_numbers(name: FourNumbers, words: &mut Words<'_>) -> Option<Event>
    ensures { result ≡ said (Four name) (words_left words.old.rest) }
{
    let (guest, second, third, fourth) = words.four_numbers()?;
    of_four(name, guest, second, third, fourth)
}

/// The event of this name, with its number.
fn of_one(name: OneNumber, number: u32) -> Event
    ensures { result ≡ one_number name number }
{
    let guest = number;
    match name {
        OneNumber::Unplug => Event::Unplug { guest },
        OneNumber::Restart => Event::Restart { guest },
        OneNumber::Reset => on_guest(guest, Call::Reset),
        OneNumber::Stats => on_guest(guest, Call::Stats),
        OneNumber::Work => on_guest(guest, Call::Work),
        OneNumber::Ask => on_guest(guest, Call::Ask),
        OneNumber::Balance => Event::Balance { floor: number },
        OneNumber::Places => asking(guest, Query::Places),
        OneNumber::Balloon => asking(guest, Query::Balloon),
        OneNumber::Memory => asking(guest, Query::Memory),
    }
}

/// The event of this name, with the guest's number and another one.
fn of_two(name: TwoNumbers, guest: u32, number: u32) -> Event
    ensures { result ≡ two_number name guest number }
{
    match name {
        TwoNumbers::Inflate => on_guest(guest, Call::Inflate { pages: number }),
        TwoNumbers::Deflate => on_guest(guest, Call::Deflate { pages: number }),
        TwoNumbers::Oom => on_guest(guest, Call::Oom { pages: number }),
        TwoNumbers::Report => on_guest(guest, Call::Report { from: number }),
        TwoNumbers::Reap => on_guest(guest, Call::Reap { queue: number }),
        TwoNumbers::Take => on_guest(guest, Call::Take { queue: number }),
        TwoNumbers::Serve => on_guest(guest, Call::Serve { queue: number }),
        TwoNumbers::Sweep => on_guest(guest, Call::Sweep { page: number }),
        TwoNumbers::Target => on_guest(guest, Call::SetTarget { pages: number }),
        TwoNumbers::Backing => asking(guest, Query::Backing { page: number }),
    }
}

/// The event of this name, with its three numbers.
fn of_three(name: ThreeNumbers, first: u32, second: u32, third: u32) -> Event
    ensures { result ≡ three_number name first second third }
{
    match name {
        ThreeNumbers::Plug => Event::Plug {
            size: GuestSize {
                pages: first,
                queue_size: second,
                processors: third,
            },
        },
        ThreeNumbers::Alloc => on_guest(
            first,
            Call::Alloc {
                cpu: second,
                order: third,
            },
        ),
        ThreeNumbers::Finish => on_guest(
            first,
            Call::Finish {
                queue: second,
                index: third,
            },
        ),
    }
}

/// The event of this name, with its four numbers.
fn of_four(name: FourNumbers, guest: u32, second: u32, third: u32, fourth: u32) -> Option<Event>
    ensures { result ≡ four_number name guest second third fourth }
{
    let call = match name {
        FourNumbers::Free => Call::Free {
            cpu: second,
            start: third,
            order: fourth,
        },
        FourNumbers::Read => Call::Read {
            page: second,
            at: third,
            len: positive(fourth)?,
        },
    };
    Some(on_guest(guest, call))
}

/// A call on a guest.
fn on_guest(guest: u32, call: Call) -> Event
    ensures { result ≡ OnGuest guest call }
{
    Event::Guest { guest, call }
}

/// A question about a guest.
fn asking(guest: u32, query: Query) -> Event
    ensures { result ≡ OnQuery guest query }
{
    Event::Query { guest, query }
}

/// The rest of a line `NAME G PAGE OFFSET BYTES`.
fn with_bytes(alloc: Global, name: WithBytes, words: &mut Words<'_>) -> Result<Event, LineFault>
    ensures ok { IfOk result (λ event. bytes_event name (words_left words.old.rest) ≡ Some event) }
    ensures bad { result ≡ Err LineFault.Bad → bytes_event name (words_left words.old.rest) ≡ None }
    ensures memory { result ≡ Err LineFault.Memory
        → is_call (bytes_event name (words_left words.old.rest)) ≡ true }
{
    let (guest, page, offset, word) = three_and_a_word(words).ok_or(LineFault::Bad)?;
    let bytes = bytes(alloc, word)?;
    Ok(of_bytes(name, guest, page, offset, bytes))
}

/// The next words as three numbers and a word, if no more are left.
fn three_and_a_word<'a>(words: &mut Words<'a>) -> Option<(u32, u32, u32, &'a [u8])>
    ensures { MatchOption result
        (three_numbers_and_a_word (words_left words.old.rest) ≡ None)
        (λ all. three_numbers_and_a_word (words_left words.old.rest)
        ≡ Some (all.0, all.1, all.2, all.3.now)) }
{
    let first = number(words.next()?)?;
    let second = number(words.next()?)?;
    let third = number(words.next()?)?;
    let word = words.last()?;
    Some((first, second, third, word))
}

/// The event of this name, with its numbers and bytes.
fn of_bytes(name: WithBytes, guest: u32, page: u32, offset: u32, bytes: Bytes) -> Event
    ensures { result ≡ with_bytes name guest page offset bytes }
{
    match name {
        WithBytes::Write => on_guest(
            guest,
            Call::Write {
                page,
                at: offset,
                bytes,
            },
        ),
        WithBytes::Scribble => on_guest(
            guest,
            Call::Scribble {
                page,
                at: offset,
                bytes,
            },
        ),
    }
}

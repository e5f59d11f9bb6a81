//! The words that a script's lines have besides numbers and digits.

ghost use Rattle.std.specs.Prelude.{◌≡◌};
ghost use Rattle.std.specs.Str.{bytes_eq};
ghost use Rattle.vb_script.specs.Names.{found_in};

use crate::lines::Pace;
use vb_model::{Place, Query};

/// An event that one number says all of: a guest's, or a floor.
#[derive(Clone, Copy)]
pub enum OneNumber {
    Unplug,
    Restart,
    Reset,
    Stats,
    Work,
    Ask,
    Balance,
    Places,
    Balloon,
    Memory,
}

/// An event that a guest's number and one more say all of.
#[derive(Clone, Copy)]
pub enum TwoNumbers {
    Inflate,
    Deflate,
    Oom,
    Report,
    Reap,
    Take,
    Serve,
    Sweep,
    Target,
    Backing,
}

/// An event that three numbers say all of.
#[derive(Clone, Copy)]
pub enum ThreeNumbers {
    Plug,
    Alloc,
    Finish,
}

/// An event that four numbers say all of.
#[derive(Clone, Copy)]
pub enum FourNumbers {
    Free,
    Read,
}

/// An event that a guest's number, a page, an offset in it and bytes say all of.
#[derive(Clone, Copy)]
pub enum WithBytes {
    Write,
    Scribble,
}

/// An event, by the words that come after its own.
#[derive(Clone, Copy)]
pub enum Form {
    /// No word.
    Frames,
    /// A guest's number, and its driver's features if a word is left.
    Init,
    /// A guest's number and the name of a place.
    Pages,
    One(OneNumber),
    Two(TwoNumbers),
    Three(ThreeNumbers),
    Four(FourNumbers),
    Bytes(WithBytes),
}

/// The events whose words have three letters.
pub static FORMS_OF_3: [(&[u8], Form); 2] = [
    (b"oom", Form::Two(TwoNumbers::Oom)),
    (b"ask", Form::One(OneNumber::Ask)),
];

/// The events whose words have four letters.
pub static FORMS_OF_4: [(&[u8], Form); 7] = [
    (b"plug", Form::Three(ThreeNumbers::Plug)),
    (b"init", Form::Init),
    (b"free", Form::Four(FourNumbers::Free)),
    (b"read", Form::Four(FourNumbers::Read)),
    (b"reap", Form::Two(TwoNumbers::Reap)),
    (b"take", Form::Two(TwoNumbers::Take)),
    (b"work", Form::One(OneNumber::Work)),
];

/// The events whose words have five letters.
pub static FORMS_OF_5: [(&[u8], Form); 7] = [
    (b"reset", Form::One(OneNumber::Reset)),
    (b"alloc", Form::Three(ThreeNumbers::Alloc)),
    (b"write", Form::Bytes(WithBytes::Write)),
    (b"stats", Form::One(OneNumber::Stats)),
    (b"serve", Form::Two(TwoNumbers::Serve)),
    (b"sweep", Form::Two(TwoNumbers::Sweep)),
    (b"pages", Form::Pages),
];

/// The events whose words have six letters.
pub static FORMS_OF_6: [(&[u8], Form); 7] = [
    (b"unplug", Form::One(OneNumber::Unplug)),
    (b"report", Form::Two(TwoNumbers::Report)),
    (b"finish", Form::Three(ThreeNumbers::Finish)),
    (b"target", Form::Two(TwoNumbers::Target)),
    (b"places", Form::One(OneNumber::Places)),
    (b"memory", Form::One(OneNumber::Memory)),
    (b"frames", Form::Frames),
];

/// The events whose words have seven letters.
pub static FORMS_OF_7: [(&[u8], Form); 6] = [
    (b"restart", Form::One(OneNumber::Restart)),
    (b"inflate", Form::Two(TwoNumbers::Inflate)),
    (b"deflate", Form::Two(TwoNumbers::Deflate)),
    (b"balance", Form::One(OneNumber::Balance)),
    (b"balloon", Form::One(OneNumber::Balloon)),
    (b"backing", Form::Two(TwoNumbers::Backing)),
];

/// The events whose words have eight letters.
pub static FORMS_OF_8: [(&[u8], Form); 1] = [(b"scribble", Form::Bytes(WithBytes::Scribble))];

/// A line of a script for guests on threads.
#[derive(Clone, Copy)]
pub enum ThreadsForm {
    /// How often all targets are set, and above which floor.
    Rounds,
    /// The processor that makes the calls after it.
    Cpu,
    /// A line that scripts of events have too.
    Event,
}

/// The lines of a script for guests on threads, each with its word.
pub static THREADS_FORMS: [(&[u8], ThreadsForm); 13] = [
    (b"plug", ThreadsForm::Event),
    (b"rounds", ThreadsForm::Rounds),
    (b"cpu", ThreadsForm::Cpu),
    (b"alloc", ThreadsForm::Event),
    (b"free", ThreadsForm::Event),
    (b"read", ThreadsForm::Event),
    (b"write", ThreadsForm::Event),
    (b"inflate", ThreadsForm::Event),
    (b"deflate", ThreadsForm::Event),
    (b"oom", ThreadsForm::Event),
    (b"report", ThreadsForm::Event),
    (b"stats", ThreadsForm::Event),
    (b"reap", ThreadsForm::Event),
];

/// Which pages `pages G PLACE` asks for.
pub static PLACES: [(&[u8], Query); 8] = [
    (b"free", Query::PagesAt(Place::Free)),
    (b"used", Query::PagesAt(Place::Used)),
    (b"giving", Query::PagesAt(Place::Giving)),
    (b"lent", Query::PagesAt(Place::Lent)),
    (b"taking", Query::PagesAt(Place::Taking)),
    (b"stranded", Query::PagesAt(Place::Stranded)),
    (b"reporting", Query::PagesAt(Place::Reporting)),
    (b"ballooned", Query::PagesBallooned),
];

/// The paces that a line of a spare device names.
pub static PACES: [(&[u8], Pace); 3] = [
    (b"immediate", Pace::Immediate),
    (b"paced", Pace::Paced),
    (b"monitor", Pace::Monitor),
];

/// What the word represents in the table, if it is there.
pub fn find<T: Copy>(table: &[(&[u8], T)], word: &[u8]) -> Option<T>
    ensures { result ≡ found_in table.now word.now }
{
    for (name, meaning) in table {
        if is_same(name, word) {
            return Some(*meaning);
        }
    }
    None
}

/// Whether two words are the same. They are short, and most differ in their lengths or at once.
fn is_same(name: &[u8], word: &[u8]) -> bool
    ensures { result ≡ bytes_eq name.now word.now }
{
    if name.len() != word.len() {
        return false;
    }
    for index in 0..name.len() {
        if name[index] != word[index] {
            return false;
        }
    }
    true
}

//! The lines of a script.

ghost use Rattle.std.specs.Option.{option_and_then};
ghost use Rattle.std.specs.Prelude.{◌≡◌, ◌≤◌, IfSome};
ghost use Rattle.vb_virtio.specs.declared.limits.TheConstants.{MAX_FRAMES};
ghost use Rattle.vb_script.specs.Lines.{host_of, is_paced};
ghost use Rattle.vb_script.specs.Names.{pace_of};
ghost use Rattle.vb_script.specs.Words.{only_word, words_left, words_of};

use crate::names::{PACES, find};
use crate::values::number;
use crate::words::Words;
use std::alloc::AllocError;
use vb_virtio::limits::MAX_FRAMES;

/// Why a line gives nothing.
#[derive(Clone, Copy, Debug, PartialEq, Eq)]
pub enum LineFault {
    /// The text isn't a line of the format, or not at its place in the script.
    Bad,
    /// There was no memory for what it says.
    Memory,
}

impl From<AllocError> for LineFault {
    ghost use Rattle.vb_script.specs.declared.lines.LineFault.TheVariants.{Memory};

    ghost from_gives = { λ _ r. r ≡ Memory };

    fn from(_fault: AllocError) -> LineFault {
        LineFault::Memory
    }
}

/// How a spare device goes about its work.
#[derive(Clone, Copy, Debug, PartialEq, Eq)]
pub enum Pace {
    /// The device does all work of a request as it finishes it.
    Immediate,
    /// The device visits the pages of a request one by one before it finishes it.
    Paced,
    /// The device does as an immediate one, and serves a queue by a VMM's notice.
    Monitor,
}

impl Pace {
    /// Whether such a device visits the pages of a request one by one.
    pub fn is_paced(self) -> bool
        ensures { result ≡ is_paced self }
    {
        matches!(self, Pace::Paced)
    }
}

/// `host FRAMES`: how many frames the host has.
pub fn host(line: &[u8]) -> Option<u32>
    ensures some { IfSome result (λ frames. 1 ≤ frames) }
    ensures bound { IfSome result (λ frames. frames ≤ MAX_FRAMES) }
    ensures value { result ≡ host_of (words_of line.now) }
{
    let mut words = Words::of(line);
    if words.next()? != b"host".as_slice() {
        return None;
    }
    let frames = words.number()?;
    if frames == 0 || frames > MAX_FRAMES {
        return None;
    }
    Some(frames)
}

/// The rest of `spare immediate`, `spare paced` or `spare monitor`.
pub fn spare(words: &mut Words<'_>) -> Option<Pace>
    ensures { result ≡ option_and_then pace_of (only_word (words_left words.old.rest)) }
{
    pace_of(words.last()?)
}

/// The pace of this name.
fn pace_of(word: &[u8]) -> Option<Pace>
    ensures { result ≡ pace_of word.now }
{
    find(&PACES, word)
}

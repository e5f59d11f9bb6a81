//! The words of a line, read one after the other, and what separates them.

ghost use Rattle.std.specs.Prelude.{◌≡◌, ◌∷◌, ◌<◌, ◌==◌, [], length, IfNone, IfSome, MatchOption};
ghost use Rattle.std.specs.List.{slice_split};
ghost use Rattle.std.specs.Option.{option_map_or, option_copied};
ghost use Rattle.memchr.specs.Find.{IsFirstByte, is_byte};
ghost use Rattle.vb_script.specs.Words.{is_empty, words_of, words_left, only_word, only_number};
ghost use Rattle.vb_script.specs.Words.{two_numbers, three_numbers, four_numbers};

use crate::values::number;
use memchr::memchr;

/// The bytes between words.
const SPACE: u8 = b' ';

/// Bytes at the front of a text that are looked at one by one: most words and lines end there, and
/// `memchr` takes longer for so few.
const NEAR: usize = 32;

/// What is left of a line. Single spaces are between its words, so a second space in a row, or one
/// at either end, makes an empty word, which nothing accepts.
#[derive(Drop)]
pub struct Words<'a> {
    pub rest: Option<&'a [u8]>,
}

impl<'a> Words<'a> {
    /// All words of the line.
    pub fn of(line: &'a [u8]) -> Words<'a>
        ensures { words_left result.rest ≡ words_of line.now }
    {
        Words { rest: Some(line) }
    }

    /// The next word, if one is left.
    pub fn next(&mut self) -> Option<&'a [u8]>
        ensures { MatchOption result
            (words_left self.old.rest ≡ [])
            (λ word. words_left self.old.rest ≡ word.now ∷ words_left self.new.rest) }
    {
        let (word, rest) = cut_at(self.rest?, SPACE);
        self.rest = rest;
        Some(word)
    }

    /// Whether no word is left.
    pub fn is_at_end(&self) -> bool
        ensures { result ≡ is_empty (words_left self.now.rest) }
    {
        self.rest.is_none()
    }

    /// The next word, if it is the last one.
    pub fn last(&mut self) -> Option<&'a [u8]>
        ensures { option_copied result ≡ only_word (words_left self.old.rest) }
    {
        let word = self.next()?;
        match self.next() {
            None => Some(word),
            Some(_) => None,
        }
    }

    /// The next word as a number of at most 32 bits, if it is the last one.
    pub fn number(&mut self) -> Option<u32>
        ensures { result ≡ only_number (words_left self.old.rest) }
    {
        number(self.last()?)
    }

    /// The next words as two numbers, if no more are left.
    pub fn two_numbers(&mut self) -> Option<(u32, u32)>
        ensures { result ≡ two_numbers (words_left self.old.rest) }
    {
        let first = number(self.next()?)?;
        let second = self.number()?;
        Some((first, second))
    }

    /// The next words as three numbers, if no more are left.
    pub fn three_numbers(&mut self) -> Option<(u32, u32, u32)>
        ensures { result ≡ three_numbers (words_left self.old.rest) }
    {
        let first = number(self.next()?)?;
        let (second, third) = self.two_numbers()?;
        Some((first, second, third))
    }

    /// The next words as four numbers, if no more are left.
    pub fn four_numbers(&mut self) -> Option<(u32, u32, u32, u32)>
        ensures { result ≡ four_numbers (words_left self.old.rest) }
    {
        let first = number(self.next()?)?;
        let (second, third, fourth) = self.three_numbers()?;
        Some((first, second, third, fourth))
    }
}

/// What comes before the first such byte of a text, and what after it if the text has one.
pub fn cut_at(text: &[u8], byte: u8) -> (&[u8], Option<&[u8]>)
    ensures split { slice_split (λ x. x == byte) text.now
        ≡ result.0.now ∷ option_map_or (λ rest. slice_split (λ x. x == byte) rest.now) result.1 [] }
    ensures whole { IfNone result.1 (result.0.now ≡ text.now) }
    ensures shorter { IfSome result.1 (λ rest. length rest.now < length text.now) }
{
    match first_place(text, byte) {
        Some(end) => (&text[..end], Some(&text[end + 1..])),
        None => (text, None),
    }
}

/// The first place of a byte in a text.
fn first_place(text: &[u8], byte: u8) -> Option<usize>
    ensures { IsFirstByte (is_byte byte) text.now result }
{
    let near = text.len().min(NEAR);
    match text[..near].iter().position(|other| *other == byte) {
        Some(place) => Some(place),
        None if near == text.len() => None,
        None => first_far_place(text, byte),
    }
}

/// The first place of a byte in a long text, by `memchr`.
#[cold]
fn first_far_place(text: &[u8], byte: u8) -> Option<usize>
    ensures { IsFirstByte (is_byte byte) text.now result }
{
    memchr(byte, text)
}

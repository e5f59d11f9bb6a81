//! The lines of a text, one after the other.

ghost use Rattle.std.specs.Prelude.{◌≡◌, ◌+◌, ◌<◌, ◌^◌, ◌∷◌, [], length, MatchOption, OnSome};
ghost use Rattle.vb_script.specs.Texts.{is_skipped, lines_of, numbered};

use crate::words::cut_at;

/// A line that isn't skipped.
#[derive(Clone, Copy)]
pub struct Line<'a> {
    /// Its number among all lines, from 1 on.
    pub number: u64,
    pub text: &'a [u8],
}

/// The lines of a text that are neither empty nor comments. Each ends at a line feed, which the
/// last one may lack.
#[derive(Drop)]
pub struct Lines<'a> {
    pub rest: &'a [u8],
    pub passed: u64,
    pub ghost few: { passed + length rest.now < 2 ^ 64 },
}

impl<'a> Lines<'a> {
    /// All lines of the text.
    pub fn of(text: &'a [u8]) -> Lines<'a>
        ensures { numbered result.passed (lines_of result.rest.now)
            ≡ numbered 0 (lines_of text.now) }
    {
        Lines {
            rest: text,
            passed: 0,
        }
    }

    /// The next line, if one is left.
    pub fn next(&mut self) -> Option<Line<'a>>
        ensures line { MatchOption result
            (numbered self.old.passed (lines_of self.old.rest.now) ≡ [])
            (λ line. numbered self.old.passed (lines_of self.old.rest.now)
            ≡ (line.number, line.text.now)
            ∷ numbered self.new.passed (lines_of self.new.rest.now)) }
        ensures shorter { OnSome result (length self.new.rest.now < length self.old.rest.now) }
    {
        while !self.rest.is_empty() {
            let (text, rest) = first_line(self.rest);
            let number = self.passed + 1;
            *self = Lines {
                rest,
                passed: number,
            };
            if !is_skipped(text) {
                return Some(Line { number, text });
            }
        }
        None
    }
}

/// The first line of a text that isn't empty, without its line feed, and what follows it.
fn first_line(text: &[u8]) -> (&[u8], &[u8])
    requires { 0 < length text.now }
    ensures shorter { length result.1.now < length text.now }
    ensures lines { lines_of text.now ≡ result.0.now ∷ lines_of result.1.now }
{
    let (line, rest) = cut_at(text, b'\n');
    (line, rest.unwrap_or(&[]))
}

/// Whether a line is empty or a comment.
fn is_skipped(line: &[u8]) -> bool
    ensures { result ≡ is_skipped line.now }
{
    match line.first() {
        None => true,
        Some(first) => *first == b'#',
    }
}

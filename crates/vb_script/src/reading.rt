//! The text of a script, read line by line.

ghost use Rattle.std.specs.Prelude.{◌≡◌, ◌≤◌, ◌/◌, ◌+◌, ◌∷◌, true, vec_capacity};
ghost use Rattle.std.specs.Prelude.{IfErr, IfOk, IsSome, OnErr, OnOk};
ghost use Rattle.std.specs.Option.{option_map};
ghost use Rattle.vb_virtio.specs.declared.limits.TheConstants.{MAX_FRAMES};
ghost use Rattle.vb_script.specs.Plans.{planned_by, threads_script_of};
ghost use Rattle.vb_script.specs.Scripts.{IfBadLine, fault_at, lines_left, said_by, told_by};
ghost use Rattle.vb_script.specs.Texts.{Language, begins_with_host, host_told, script_of, told_in};
ghost use Rattle.vb_script.specs.Texts.{with_line, with_lines, with_spare};
ghost use Rattle.vb_script.specs.Words.{words_left};

use crate::lines::{LineFault, Pace, host, spare};
use crate::plans::plan;
use crate::script::{MAX_SPARES, Reading, Script, ThreadsScript};
use crate::texts::{Line, Lines};
use crate::threads::ThreadsLine;
use crate::words::Words;
use std::alloc::{AllocError, Global};
use thiserror::Error;
use vb_model::Event;

/// Bytes of the shortest line after the spare devices, as `ask 0`, with its line feed: none takes
/// fewer.
const SHORTEST_LINE: usize = 6;

/// Why a text gives no script.
#[derive(Clone, Copy, Debug, PartialEq, Eq, Error)]
pub enum ScriptFault {
    /// The line of this number is the first one that breaks a rule of the format. All lines count,
    /// from 1 on, the empty ones and comments among them.
    #[error("line {0}: bad line")]
    BadLine(u64),
    /// There was no memory for the script.
    #[error("memory")]
    Memory,
}

impl From<AllocError> for ScriptFault {
    ghost use Rattle.vb_script.specs.declared.reading.ScriptFault.TheVariants.{Memory};

    ghost from_gives = { λ _ r. r ≡ Memory };

    fn from(_fault: AllocError) -> ScriptFault {
        ScriptFault::Memory
    }
}

impl Line<'_> {
    /// What a fault in this line means to the script.
    fn fault(self, fault: LineFault) -> ScriptFault
        ensures bad { IfBadLine result
            (λ number. (fault ≡ LineFault.Bad) × (number ≡ self.entry.number)) }
        ensures exact { result ≡ fault_at self.entry.number fault }
    {
        match fault {
            LineFault::Bad => ScriptFault::BadLine(self.number),
            LineFault::Memory => ScriptFault::Memory,
        }
    }
}

/// Reads a script from its whole text, whatever bytes that has. A text of comments and empty lines
/// alone has no lines, and so no host: there is no script, and no fault. Refused are a bad line,
/// and a script that there is no memory for; none is wanted for the first line.
pub fn parse(alloc: Global, text: &[u8]) -> Result<Option<Script>, ScriptFault>
    ensures ok { IfOk result (λ script. script_of text.now ≡ Ok (option_map said_by script)) }
    ensures bad { IfErr result
        (λ fault. IfBadLine fault (λ number. script_of text.now ≡ Err number)) }
    ensures memory { result ≡ Err ScriptFault.Memory → begins_with_host text.now ≡ true }
{
    match read::<Event>(alloc, text)? {
        None => Ok(None),
        Some(read) => Ok(Some(Script {
            frames: read.frames,
            spares: read.spares,
            events: read.items,
        })),
    }
}

/// Reads a script for guests on threads from its whole text, whatever bytes that has. Its lines are
/// `host FRAMES`, up to 64 spare devices, then `plug`s, at most once `rounds FLOOR COUNT`, and then
/// `cpu C` and calls (alloc, free, read, write, inflate, deflate, oom, report, stats, reap) in any
/// order. Refused are a bad line, and a script that there is no memory for; none is wanted for the
/// first line.
///
/// Without a fault there may be no plan: there is no plug (as in a text without any lines), a plug
/// finds no spare device left or brings more than 4 processors, or a call is for a guest or after
/// a `cpu` for a processor that isn't there.
pub fn parse_threads(alloc: Global, text: &[u8]) -> Result<Option<ThreadsScript>, ScriptFault>
    ensures script { IfOk result
        (λ script. threads_script_of text.now ≡ Ok (option_map planned_by script)) }
    ensures bad { IfErr result
        (λ fault. IfBadLine fault (λ number. threads_script_of text.now ≡ Err number)) }
    ensures memory { result ≡ Err ScriptFault.Memory → begins_with_host text.now ≡ true }
{
    match read::<ThreadsLine>(alloc, text)? {
        None => Ok(None),
        Some(read) => Ok(plan(alloc, &read)?),
    }
}

/// What a line after the spare devices says, in one of the languages of scripts.
pub trait Item: Drop {
    /// What it says, by what the lines before it said there, and its words.
    ghost language: { Language Self };

    /// Reads a line, by its first word and those after it. Words that say nothing there make a bad
    /// line.
    fn read(
        alloc: Global,
        earlier: &[Self],
        word: &[u8],
        words: &mut Words<'_>,
    ) -> Result<Self, LineFault>
        ensures ok { IfOk result
            (λ item. language earlier.now (word.now ∷ words_left words.old.rest) ≡ Some item) }
        ensures bad { result ≡ Err LineFault.Bad
            → language earlier.now (word.now ∷ words_left words.old.rest) ≡ None }
        ensures memory { result ≡ Err LineFault.Memory
            → IsSome (language earlier.now (word.now ∷ words_left words.old.rest)) };
}

/// Reads a whole text of one of the languages of scripts.
pub fn read<T: Item>(alloc: Global, text: &[u8]) -> Result<Option<Reading<T>>, ScriptFault>
    ensures ok { IfOk result (λ read. told_in T.language text.now ≡ Ok (option_map told_by read)) }
    ensures bad { IfErr result
        (λ fault. IfBadLine fault (λ number. told_in T.language text.now ≡ Err number)) }
    ensures memory { result ≡ Err ScriptFault.Memory → begins_with_host text.now ≡ true }
{
    let mut lines = Lines::of(text);
    let Some(first) = lines.next() else {
        return Ok(None);
    };
    let frames = host(first.text).ok_or(ScriptFault::BadLine(first.number))?;
    let read = read_rest(alloc, frames, lines)?;
    Ok(Some(read))
}

/// Reads what comes after the first line of a script whose host has this many frames.
fn read_rest<T: Item>(
    alloc: Global,
    frames: u32,
    mut lines: Lines<'_>,
) -> Result<Reading<T>, ScriptFault>
    requires some { 1 ≤ frames }
    requires bound { frames ≤ MAX_FRAMES }
    ensures ok { IfOk result (λ read.
        with_lines T.language (lines_left lines.entry) (host_told frames) ≡ Ok (told_by read)) }
    ensures bad { IfErr result (λ fault. IfBadLine fault (λ number.
        with_lines T.language (lines_left lines.entry) (host_told frames) ≡ Err number)) }
{
    let mut reading = Reading::of_host(alloc, frames, lines.rest.len())?;
    while let Some(line) = lines.next() {
        if let Err(fault) = reading.add(alloc, line.text) {
            return Err(line.fault(fault));
        }
    }
    Ok(reading)
}

impl<T: Item> Reading<T> {
    /// What the first line says, with room for as many lines as may be in this many bytes.
    fn of_host(alloc: Global, frames: u32, bytes: usize) -> Result<Reading<T>, AllocError>
        requires some { 1 ≤ frames }
        requires bound { frames ≤ MAX_FRAMES }
        ensures told { IfOk result (λ reading. told_by reading ≡ host_told frames) }
        ensures room { IfOk result (λ reading. vec_capacity reading.items ≡ bytes / 6 + 1) }
    {
        Ok(Reading {
            frames,
            spares: Vec::with_capacity(alloc, MAX_SPARES)?,
            items: Vec::with_capacity(alloc, bytes / SHORTEST_LINE + 1)?,
        })
    }

    /// Adds what a line after the first one says: a spare device, or what the language has.
    fn add(&mut self, alloc: Global, line: &[u8]) -> Result<(), LineFault>
        ensures ok { OnOk result
            (with_line T.language line.now (told_by self.old) ≡ Some (told_by self.new)) }
        ensures bad { result ≡ Err LineFault.Bad
            → with_line T.language line.now (told_by self.old) ≡ None }
        ensures memory { result ≡ Err LineFault.Memory
            → IsSome (with_line T.language line.now (told_by self.old)) }
        ensures err { OnErr result (told_by self.new ≡ told_by self.old) }
    {
        let mut words = Words::of(line);
        let word = words.next().ok_or(LineFault::Bad)?;
        if word == b"spare".as_slice() {
            let pace = spare(&mut words).ok_or(LineFault::Bad)?;
            return self.add_spare(pace);
        }
        let item = T::read(alloc, self.items.as_slice(), word, &mut words)?;
        self.items.push(item).map_err(AllocError::from)?;
        Ok(())
    }

    /// Adds a spare device. There may be no other line before it, and not too many beside it; no
    /// memory is wanted.
    fn add_spare(&mut self, pace: Pace) -> Result<(), LineFault>
        ensures ok { OnOk result (with_spare pace (told_by self.old) ≡ Some (told_by self.new)) }
        ensures bad { IfErr result (λ fault. (fault ≡ LineFault.Bad)
            × (with_spare pace (told_by self.old) ≡ None)) }
        ensures err { OnErr result (told_by self.new ≡ told_by self.old) }
    {
        if !self.items.is_empty() || self.spares.len() >= MAX_SPARES {
            return Err(LineFault::Bad);
        }
        match self.spares.push(pace) {
            Ok(()) => Ok(()),
            Err(_) => unreachable!(),
        }
    }
}

//! The set of the pages in the balloon, as bits of words that the caller keeps.

ghost use Rattle.std.specs.Prelude.{◌≡◌, ℕ, ◌+◌, ◌*◌, ◌/◌, ◌%◌, ◌^◌, ◌-◌, ◌<◌, ◌≤◌, ◌&&◌, ◌==◌};
ghost use Rattle.std.specs.Prelude.{Bool, false, not, nat_le, nat_lt, length, min, if◌then◌else◌};
ghost use Rattle.std.specs.List.{list_any};
ghost use Rattle.vb_virtio.specs.Tests.{has_bit, is_in};
ghost use Rattle.vb_bits.specs.declared.word.TheConstants.{WORD_BITS};
ghost use Rattle.vb_core.specs.Runs.{pages_of_run, pages_of_runs};
ghost use Rattle.vb_core.specs.Ballooned.{is_ballooned, ballooned_count, is_entering, puts_in};
ghost use Rattle.vb_core.specs.Ballooned.{Puts, MarksBy, Loses};

use crate::{Denial, Kind, Run};
use vb_bits::{WORD_BITS, is_in_words, low_ones};

/// What marking does with pages.
#[derive(Clone, Copy, Debug, PartialEq, Eq)]
pub enum Marking {
    /// They enter the set.
    Enter,
    /// They leave it.
    Leave,
}

impl Marking {
    /// What is done with the pages of a request: an inflate's enter the set, and others leave it.
    fn of(kind: Kind) -> Marking
        ensures { is_entering result ≡ puts_in kind }
    {
        if kind == Kind::Inflate {
            Marking::Enter
        } else {
            Marking::Leave
        }
    }
}

/// Pages of a word of the set.
const PAGES: u64 = WORD_BITS as u64;

/// The bits of a run's pages in the word of this number.
fn bits_of_run(run: Run, word: u64) -> u64
    requires { WORD_BITS * word < 2 ^ 64 }
    ensures { (b : ℕ) → b < WORD_BITS →
        has_bit result b ≡ is_in (WORD_BITS * word + b) (pages_of_run run) }
{
    let start = word * PAGES;
    let first = u64::from(run.first);
    let end = first + u64::from(run.count);
    low_ones(end.saturating_sub(start)) & !low_ones(first.saturating_sub(start))
}

/// The word with these bits made 1 where their pages enter the set, and 0 where they leave it.
fn with_bits(word: u64, bits: u64, marking: Marking) -> u64
    ensures { (b : ℕ) → b < WORD_BITS →
        has_bit result b ≡ (if has_bit bits b then is_entering marking else has_bit word b) }
{
    match marking {
        Marking::Enter => word | bits,
        Marking::Leave => word & !bits,
    }
}

/// Has the pages of these bits of a word enter the set, or leave it, and answers how many changed.
fn mark_word(set: &mut [u64], place: usize, bits: u64, marking: Marking) -> u32
    requires { place < length set.old }
    ensures { Puts (λ p. p / WORD_BITS == place && has_bit bits (p % WORD_BITS))
        (is_entering marking) set.old set.new result }
{
    let old = set[place];
    let new = with_bits(old, bits, marking);
    set[place] = new;
    (old ^ new).count_ones()
}

/// Whether each page of a run has a bit in `words` words.
fn has_bits(run: Run, words: usize) -> bool
    ensures { result ≡ not (list_any (λ p. nat_le (WORD_BITS * words) p) (pages_of_run run)) }
{
    if run.count == 0 {
        return true;
    }
    let last = u64::from(run.first) + u64::from(run.count) - 1;
    last / PAGES < words as u64
}

/// Whether each page of all runs has a bit in `words` words.
fn have_bits(runs: &[Run], words: usize) -> bool
    ensures { result ≡
        not (list_any (λ p. nat_le (WORD_BITS * words) p) (pages_of_runs runs.now)) }
{
    for run in runs {
        if !has_bits(*run, words) {
            return false;
        }
    }
    true
}

/// Has the pages of a run enter the set, or leave it, a word at a time, and answers how many
/// changed.
fn mark_run(set: &mut [u64], run: Run, marking: Marking) -> u64
    requires { list_any (λ p. nat_le (WORD_BITS * length set.old) p) (pages_of_run run) ≡ false }
    ensures put { Puts (λ p. is_in p (pages_of_run run)) (is_entering marking)
        set.old set.new result }
    ensures small { (p : ℕ) → 2 ^ 33 ≤ p → is_in p (pages_of_run run) ≡ false }
{
    if run.count == 0 {
        return 0;
    }
    let first = u64::from(run.first);
    let last = first + u64::from(run.count) - 1;
    let mut changed = 0;
    for word in first / PAGES..last / PAGES + 1 {
        let bits = bits_of_run(run, word);
        changed += u64::from(mark_word(set, word as usize, bits, marking));
    }
    changed
}

/// Has the pages of all runs enter the set, or leave it, and answers how many changed.
fn mark_runs(set: &mut [u64], runs: &[Run], marking: Marking) -> u64
    requires { list_any (λ p. nat_le (WORD_BITS * length set.old) p) (pages_of_runs runs.now)
        ≡ false }
    ensures { Puts (λ p. is_in p (pages_of_runs runs.now)) (is_entering marking)
        set.old set.new result }
{
    let mut changed = 0;
    for run in runs {
        changed += mark_run(set, *run, marking);
    }
    changed
}

/// Puts the pages of the runs that `Device::name_numbers` answered into the set, where they are an
/// inflate's, or takes them out, where they are a deflate's (VIRTIO 1.1, 5.5.6), and answers how
/// many pages changed: one that is named twice, or was there already, counts no more than once.
/// Page p is bit p % 64 of word p / 64. An empty set is zeros; so it is again where the driver
/// resets the device.
///
/// Refused, tested in this order: `NoQueue` for another kind; `BadArgument` where a page of a run
/// has no bit in the words. Then nothing is changed.
pub fn mark(kind: Kind, runs: &[Run], set: &mut [u64]) -> Result<u64, Denial>
    ensures { MarksBy kind runs.now set.old set.new result }
{
    if !kind.is_request() {
        return Err(Denial::NoQueue);
    }
    if !have_bits(runs, set.len()) {
        return Err(Denial::BadArgument);
    }
    Ok(mark_runs(set, runs, Marking::of(kind)))
}

/// Takes the pages of one set out of another, as those of a deflate that is granted, which waited
/// in a set of their own. Answers how many pages left the other set: a number past 2^64 - 1, which
/// no memory has room for, is answered as that.
pub fn unmark(pages: &[u64], set: &mut [u64]) -> u64
    ensures { Loses pages.now set.old set.new result }
{
    let words = pages.len().min(set.len());
    let mut left: u64 = 0;
    for word in 0..words {
        left = left.saturating_add(u64::from(mark_word(set, word, pages[word], Marking::Leave)));
    }
    left
}

/// Whether a page is in the set; none after the words is.
pub fn is_ballooned(set: &[u64], page: u32) -> bool
    ensures { result ≡ is_ballooned set.now page }
{
    is_in_words(set, u64::from(page))
}

/// How many pages are in the set, counted word by word. A number past 2^64 - 1, which no memory
/// has room for, is answered as that.
pub fn count_ballooned(set: &[u64]) -> u64
    ensures { result ≡ min (ballooned_count set.now) (2 ^ 64 - 1) }
{
    let mut count: u64 = 0;
    for word in set {
        count = count.saturating_add(u64::from(word.count_ones()));
    }
    count
}

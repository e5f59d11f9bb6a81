//! A set of numbers with a count and a summary.

ghost use Rattle.std.specs.Prelude.{◌≡◌, ◌==◌, ℕ, ◌+◌, ◌*◌, ◌<◌, ◌≤◌, true, false, [], List, Bool};
ghost use Rattle.std.specs.Prelude.{length, not, replicate, count_by, slice_index, slice_set, IfOk};
ghost use Rattle.std.specs.Option.{ForSome};
ghost use Rattle.vb_virtio.specs.Tests.{has_bit};
ghost use Rattle.vb_bits.specs.Levels.{HasSummary};
ghost use Rattle.vb_bits.specs.Sets.{has, IsFirstFrom};

use crate::level::Level;
use crate::word::WORD_BITS;
use std::alloc::{AllocError, Global};
use std::marker::Model;

/// The largest bound, that of three levels of words whose top one is a single word.
pub const MAX_BOUND: u32 = WORD_BITS * WORD_BITS * WORD_BITS;

/// A set of numbers below a bound. To contracts it is a flag for each number, that of a member set.
///
/// The members are bits of words; a level above has a bit for each word that has a member, and a
/// third one for each word of that level. So each call but `fill` and `clear` looks at no more than
/// five words, and none but `new` takes memory.
#[derive(Drop)]
pub struct BitSet {
    /// How many members there are.
    len: u32,
    /// The members.
    members: Level,
    /// The words of `members` that have one.
    words: Level,
    /// The words of `words` that have one; a single word holds them.
    groups: Level,
}

impl Model for BitSet {
    ghost use Rattle.std.specs.Prelude.{List, Bool};
    ghost use Rattle.vb_bits.specs.Levels.{IsSummed};

    ghost Value = { List Bool };

    ghost view = { λ s. s.members };

    ghost invariant = { λ s. IsSummed s.members s.words s.groups s.len };
}

/// The least member in the words from some word on, where `word` is the first one of those that
/// has a member.
fn first_in(level: &Level, word: Option<u32>) -> Option<u32>
    requires few { length level.now ≤ MAX_BOUND }
    requires within { ForSome word (λ w. WORD_BITS * w < length level.now) }
    ensures { (summary : List Bool) (start : ℕ) → HasSummary level.now summary →
        IsFirstFrom summary start word → IsFirstFrom level.now (WORD_BITS * start) result }
{
    match word {
        Some(word) => level.next_in_word(word * WORD_BITS),
        None => None,
    }
}

/// The first word from this one on that has a member.
fn word_from(words: &Level, groups: &Level, word: u32) -> Option<u32>
    requires few { length words.now ≤ MAX_BOUND }
    requires summary { HasSummary words.now groups.now }
    requires single { length groups.now ≤ WORD_BITS }
    ensures { IsFirstFrom words.now word result }
{
    match words.next_in_word(word) {
        Some(found) => Some(found),
        None => first_in(words, groups.next_in_word(word / WORD_BITS + 1)),
    }
}

impl BitSet {
    /// The set with bound 0, which has room for no number and takes no memory.
    pub fn empty(alloc: Global) -> BitSet
        ensures { result ≡ [] }
    {
        BitSet {
            len: 0,
            members: Level::empty(alloc),
            words: Level::empty(alloc),
            groups: Level::empty(alloc),
        }
    }

    /// No number below the bound, which is 0 to 262,144. An allocation failure is the only refusal.
    pub fn new(alloc: Global, bound: u32) -> Result<BitSet, AllocError>
        requires few { bound ≤ MAX_BOUND }
        ensures { IfOk result (λ set. set ≡ replicate bound false) }
    {
        let words = bound.div_ceil(WORD_BITS);
        Ok(BitSet {
            len: 0,
            members: Level::new(alloc, bound)?,
            words: Level::new(alloc, words)?,
            groups: Level::new(alloc, words.div_ceil(WORD_BITS))?,
        })
    }

    /// The numbers are below it.
    pub fn bound(&self) -> u32
        ensures { result ≡ length self.now }
    {
        self.members.bound()
    }

    /// How many members there are. The number is kept, not counted.
    pub fn len(&self) -> u32
        ensures { result ≡ count_by (λ b. b) self.now }
    {
        self.len
    }

    /// Whether there is no member.
    pub fn is_empty(&self) -> bool
        ensures { result ≡ (count_by (λ b. b) self.now == 0) }
    {
        self.len == 0
    }

    /// Whether the number is a member; none past the bound is.
    pub fn contains(&self, n: u32) -> bool
        ensures { result ≡ has self.now n }
    {
        self.members.contains(n)
    }

    /// Puts a number in or takes it out, and answers whether it was in.
    fn put(&mut self, n: u32, member: bool) -> bool
        requires { n < length self.old }
        ensures put { self.new ≡ slice_set self.old n member }
        ensures was { result ≡ has self.old n }
    {
        let was = self.members.contains(n);
        self.len = self.len + u32::from(member) - u32::from(was);
        let word = n / WORD_BITS;
        let any = self.members.put(n, member);
        let any = self.words.put(word, any);
        self.groups.put(word / WORD_BITS, any);
        was
    }

    /// Makes the number a member, and answers whether it wasn't one.
    pub fn insert(&mut self, n: u32) -> bool
        requires { n < length self.old }
        ensures set { self.new ≡ slice_set self.old n true }
        ensures changed { result ≡ not (has self.old n) }
    {
        !self.put(n, true)
    }

    /// Takes the number out, and answers whether it was a member.
    pub fn remove(&mut self, n: u32) -> bool
        requires { n < length self.old }
        ensures set { self.new ≡ slice_set self.old n false }
        ensures changed { result ≡ has self.old n }
    {
        self.put(n, false)
    }

    /// Makes the number a member, or takes it out; a number past the bound changes nothing.
    pub fn set(&mut self, n: u32, member: bool)
        ensures { self.new ≡ slice_set self.old n member }
    {
        if n < self.bound() {
            self.put(n, member);
        }
    }

    /// The least member.
    pub fn first(&self) -> Option<u32>
        ensures { IsFirstFrom self.now 0 result }
    {
        let group = self.groups.next_in_word(0);
        let word = first_in(&self.words, group);
        first_in(&self.members, word)
    }

    /// The least member that is `n` or more, where `n` is any number.
    pub fn first_from(&self, n: u32) -> Option<u32>
        ensures { IsFirstFrom self.now n result }
    {
        match self.members.next_in_word(n) {
            Some(found) => Some(found),
            None => {
                let word = word_from(&self.words, &self.groups, n / WORD_BITS + 1);
                first_in(&self.members, word)
            }
        }
    }

    /// Makes each number a member.
    pub fn fill(&mut self)
        ensures { self.new ≡ replicate (length self.old) true }
    {
        self.len = self.members.bound();
        self.members.fill();
        self.words.fill();
        self.groups.fill();
    }

    /// Takes all members out.
    pub fn clear(&mut self)
        ensures { self.new ≡ replicate (length self.old) false }
    {
        self.len = 0;
        self.members.clear();
        self.words.clear();
        self.groups.clear();
    }

    /// The members as bits: bit b of word w is 1 exactly if 64 w + b is a member. The words are the
    /// fewest that hold the bound's numbers, at least one where the bound isn't 0; bits past the
    /// bound are 0.
    pub fn words(&self) -> &[u64]
        ensures some { 0 < length self.now → 0 < length result.now }
        ensures enough { length self.now ≤ WORD_BITS * length result.now }
        ensures fewest { WORD_BITS * length result.now < length self.now + WORD_BITS }
        ensures bits { (w b : ℕ) → b < WORD_BITS →
            has_bit (slice_index result.now w) b ≡ has self.now (WORD_BITS * w + b) }
    {
        self.members.words()
    }
}

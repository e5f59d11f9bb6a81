//! A set of numbers as the bits of words, without a summary.

ghost use Rattle.std.specs.Prelude.{◌≡◌, ℕ, ◌+◌, ◌*◌, ◌/◌, ◌<◌, ◌≤◌, ◌↔◌, true, false, []};
ghost use Rattle.std.specs.Prelude.{length, replicate, slice_index, slice_set, IfOk};
ghost use Rattle.vb_virtio.specs.Tests.{has_bit};
ghost use Rattle.vb_bits.specs.Sets.{has, HasNoneIn, IsNextInWord};

use crate::word::{WORD_BITS, is_one, low_ones, lowest_from, with_bit};
use std::alloc::{AllocError, Global};
use std::marker::Model;

/// Numbers below a bound, each a bit of a word: bit b of word w represents 64 w + b.
#[derive(Drop)]
pub struct Level {
    /// The numbers are below it.
    bound: u32,
    /// The bits; those past the bound are 0.
    words: Vec<u64>,
}

impl Model for Level {
    ghost use Rattle.std.specs.Prelude.{List, Bool};
    ghost use Rattle.vb_bits.specs.Words.{AreWordsOf, flags_of};

    ghost Value = { List Bool };

    ghost view = { λ l. flags_of l.bound l.words.items };

    ghost invariant = { λ l. AreWordsOf l.bound l.words.items };
}

impl Level {
    /// No number below a bound of 0, which takes no memory.
    pub fn empty(alloc: Global) -> Level
        ensures { result ≡ [] }
    {
        Level {
            bound: 0,
            words: Vec::new(alloc),
        }
    }

    /// No number below the bound. An allocation failure is the only refusal.
    pub fn new(alloc: Global, bound: u32) -> Result<Level, AllocError>
        ensures { IfOk result (λ level. level ≡ replicate bound false) }
    {
        let words = vec![in alloc; 0; bound.div_ceil(WORD_BITS) as usize]?;
        Ok(Level { bound, words })
    }

    /// The numbers are below it.
    pub fn bound(&self) -> u32
        ensures { result ≡ length self.now }
    {
        self.bound
    }

    /// The words, as few as hold the bits.
    pub fn words(&self) -> &[u64]
        ensures enough { length self.now ≤ WORD_BITS * length result.now }
        ensures fewest { WORD_BITS * length result.now < length self.now + WORD_BITS }
        ensures bits { (w b : ℕ) → b < WORD_BITS →
            has_bit (slice_index result.now w) b ≡ has self.now (WORD_BITS * w + b) }
    {
        &self.words
    }

    /// The word of this number; past the last one it is 0.
    fn word(&self, word: u32) -> u64
        ensures { (b : ℕ) → b < WORD_BITS →
            has_bit result b ≡ has self.now (WORD_BITS * word + b) }
    {
        self.words.get(word as usize).copied().unwrap_or(0)
    }

    /// Whether the number is in the set.
    pub fn contains(&self, n: u32) -> bool
        ensures { result ≡ has self.now n }
    {
        is_one(self.word(n / WORD_BITS), n % WORD_BITS)
    }

    /// Puts a number in or takes it out, and answers whether its word has a member then.
    pub fn put(&mut self, n: u32, member: bool) -> bool
        requires { n < length self.old }
        ensures put { self.new ≡ slice_set self.old n member }
        ensures any { (result ≡ false) ↔ HasNoneIn self.new (n / WORD_BITS) }
    {
        let place = (n / WORD_BITS) as usize;
        let word = with_bit(self.words[place], n % WORD_BITS, member);
        self.words[place] = word;
        word != 0
    }

    /// Of the members in a number's word, the least one from that number on.
    pub fn next_in_word(&self, n: u32) -> Option<u32>
        ensures { IsNextInWord self.now n result }
    {
        let word = n / WORD_BITS;
        match lowest_from(self.word(word), n % WORD_BITS) {
            Some(bit) => Some(word * WORD_BITS + bit),
            None => None,
        }
    }

    /// Puts all numbers in.
    pub fn fill(&mut self)
        ensures { self.new ≡ replicate (length self.old) true }
    {
        if self.bound == 0 {
            return;
        }
        let last = (self.bound - 1) / WORD_BITS;
        self.words.fill(u64::MAX);
        self.words[last as usize] = low_ones(u64::from(self.bound - last * WORD_BITS));
    }

    /// Takes all numbers out.
    pub fn clear(&mut self)
        ensures { self.new ≡ replicate (length self.old) false }
    {
        self.words.fill(0);
    }
}

//! The bits of one word.

ghost use Rattle.std.specs.Prelude.{◌≡◌, ◌≢◌, ℕ, ◌<◌, ◌≤◌, true, false, MatchOption, nat_lt};
ghost use Rattle.vb_virtio.specs.Tests.{has_bit};
ghost use Rattle.vb_bits.specs.Words.{IsLowestFrom, in_words};

/// Bits of a word: how many numbers one has.
pub const WORD_BITS: u32 = 64;

/// Whether the bit is 1.
pub fn is_one(word: u64, bit: u32) -> bool
    requires { bit < WORD_BITS }
    ensures { result ≡ has_bit word bit }
{
    word >> bit & 1 == 1
}

/// Whether a number is in the set of these words, where bit b of word w represents 64 w + b; none
/// past the words is.
pub fn is_in_words(words: &[u64], n: u64) -> bool
    ensures { result ≡ in_words words.now n }
{
    let bits = u64::from(WORD_BITS);
    match words.get((n / bits) as usize) {
        Some(word) => is_one(*word, (n % bits) as u32),
        None => false,
    }
}

/// The word with the bit made 1.
fn with_one(word: u64, bit: u32) -> u64
    requires { bit < WORD_BITS }
    ensures same { has_bit result bit ≡ true }
    ensures others { (k : ℕ) → k < WORD_BITS → k ≢ bit → has_bit result k ≡ has_bit word k }
{
    word | 1 << bit
}

/// The word with the bit made 0.
fn with_zero(word: u64, bit: u32) -> u64
    requires { bit < WORD_BITS }
    ensures same { has_bit result bit ≡ false }
    ensures others { (k : ℕ) → k < WORD_BITS → k ≢ bit → has_bit result k ≡ has_bit word k }
{
    word & !(1 << bit)
}

/// The word with the bit made 1 or 0.
pub fn with_bit(word: u64, bit: u32, one: bool) -> u64
    requires { bit < WORD_BITS }
    ensures same { has_bit result bit ≡ one }
    ensures others { (k : ℕ) → k < WORD_BITS → k ≢ bit → has_bit result k ≡ has_bit word k }
{
    if one {
        with_one(word, bit)
    } else {
        with_zero(word, bit)
    }
}

/// The lowest bit that is 1, from this one on.
pub fn lowest_from(word: u64, bit: u32) -> Option<u32>
    requires { bit < WORD_BITS }
    ensures { MatchOption result ((k : ℕ) → bit ≤ k → k < WORD_BITS → has_bit word k ≡ false)
        (λ found. IsLowestFrom word bit found) }
{
    let rest = word & (u64::MAX << bit);
    if rest == 0 {
        None
    } else {
        Some(rest.trailing_zeros())
    }
}

/// A word whose lowest bits are 1: `count` of them, or all where that is more than a word has.
pub fn low_ones(count: u64) -> u64
    ensures { (k : ℕ) → k < WORD_BITS → has_bit result k ≡ nat_lt k count }
{
    if count == 0 {
        return 0;
    }
    u64::MAX >> u64::from(WORD_BITS).saturating_sub(count)
}

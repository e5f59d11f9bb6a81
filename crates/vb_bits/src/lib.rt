//! Sets of numbers below a bound, as bits of 64-bit words with a summary above them.
#![tactic(auto)]

mod level;
mod set;
mod word;

pub use set::{BitSet, MAX_BOUND};
pub use word::{WORD_BITS, is_in_words, low_ones};

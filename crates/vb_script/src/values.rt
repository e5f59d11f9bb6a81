//! What a word of decimal or hexadecimal digits shows.

ghost use Rattle.std.specs.Prelude.{◌≡◌, ◌+◌, ◌-◌, ◌*◌, ◌^◌, ◌<◌, ◌≤◌, IfOk, IsOk, IsSome};
ghost use Rattle.std.specs.Prelude.{MatchOption, SomeIff, length};
ghost use Rattle.hex.specs.Hex.{decode_of, decode_sized};
ghost use Rattle.vb_virtio.specs.Limits.{page_size};
ghost use Rattle.vb_script.specs.Numbers.{IsByteWord, IsDecimal, IsDigit, ShowsBits, decimal_value};
ghost use Rattle.vb_script.specs.Values.{bytes_of, features_of, positive_of};
ghost use Rattle.vb_script.specs.Words.{number_of};

use crate::lines::LineFault;
use std::alloc::Global;
use vb_model::Bytes;
use vb_virtio::limits::PAGE_SIZE;

/// Hexadecimal digits of a line's features.
const FEATURE_DIGITS: usize = 16;

/// The number that decimal digits show, any leading zeros among them, if it fits 32 bits.
pub fn number(word: &[u8]) -> Option<u32>
    ensures shown { SomeIff result
        (IsDecimal word.now × (decimal_value word.now < 2 ^ 32))
        (decimal_value word.now) }
    ensures value { result ≡ number_of word.now }
{
    if word.is_empty() {
        return None;
    }
    let mut value: u32 = 0;
    for digit in word {
        value = with_digit(value, *digit)?;
    }
    Some(value)
}

/// The number with one more digit after it.
fn with_digit(value: u32, digit: u8) -> Option<u32>
    ensures { SomeIff result
        (IsDigit digit × (value * 10 + (digit - 48) < 2 ^ 32))
        (value * 10 + (digit - 48)) }
{
    if !digit.is_ascii_digit() {
        return None;
    }
    value.checked_mul(10)?.checked_add(u32::from(digit - b'0'))
}

/// The number, if it is at least 1.
pub fn positive(number: u32) -> Option<u32>
    ensures { result ≡ positive_of number }
{
    (number > 0).then_some(number)
}

/// The feature bits that 16 hexadecimal digits show, the first digit the highest four.
pub fn features(word: &[u8]) -> Option<u64>
    ensures shown { MatchOption result
        (¬ IsOk (decode_sized word.now 8))
        (λ bits. ShowsBits word.now bits) }
    ensures value { result ≡ features_of word.now }
{
    let mut bytes = [0u8; FEATURE_DIGITS / 2];
    hex::decode_to_slice(word, &mut bytes).ok()?;
    Some(u64::from_be_bytes(bytes))
}

/// The bytes that hexadecimal digits of either case show: at least one, at most a page of them.
pub fn bytes(alloc: Global, word: &[u8]) -> Result<Bytes, LineFault>
    ensures ok { IfOk result (λ bytes. IsByteWord word.now × (decode_of word.now ≡ Ok bytes)) }
    ensures bad { result ≡ Err LineFault.Bad → ¬ IsByteWord word.now }
    ensures value { IfOk result (λ bytes. bytes_of word.now ≡ Some bytes) }
    ensures none { result ≡ Err LineFault.Bad → bytes_of word.now ≡ None }
    ensures memory { result ≡ Err LineFault.Memory → IsSome (bytes_of word.now) }
{
    if word.is_empty() || word.len() > 2 * PAGE_SIZE as usize {
        return Err(LineFault::Bad);
    }
    match hex::decode(alloc, word) {
        Ok(shown) => Ok(Bytes::new(shown)),
        Err(_fault) => Err(undecoded(word)),
    }
}

/// Why a word of at most two digits for each byte of a page wasn't decoded: it shows no bytes, or
/// it does and there was no memory for them.
#[cold]
fn undecoded(word: &[u8]) -> LineFault
    requires some { 0 < length word.now }
    requires few { length word.now ≤ 2 * page_size }
    ensures bad { result ≡ LineFault.Bad → ¬ IsByteWord word.now }
    ensures none { result ≡ LineFault.Bad → bytes_of word.now ≡ None }
    ensures memory { result ≡ LineFault.Memory → IsSome (bytes_of word.now) }
{
    let mut room = [0u8; PAGE_SIZE as usize];
    match hex::decode_to_slice(word, &mut room[..word.len() / 2]) {
        Ok(()) => LineFault::Memory,
        Err(_fault) => LineFault::Bad,
    }
}

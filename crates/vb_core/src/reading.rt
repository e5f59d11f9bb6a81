//! The device that the bytes of a saved one say.

ghost use Rattle.std.specs.Prelude.{◌≡◌, ◌+◌, ◌≤◌, true, length};
ghost use Rattle.vb_core.specs.Format.{u16_at, u32_at, u64_at};
ghost use Rattle.vb_core.specs.Format.{settings_at, ring_at, round_at};
ghost use Rattle.vb_core.specs.Format.{oldest_in, older_in, saved_in, state_in};
ghost use Rattle.vb_core.specs.Saved.{is_length};

use crate::format::{HINT_AT, HOLD_AT, OLDER_LENGTH, OLDEST_LENGTH, SAVED_LENGTH};
use crate::saved::Saved;
use crate::{Device, Held, Round, Settings, Virtqueue};

/// The number that 2 bytes are.
#[tactic(auto, unfolding(crate::specs::Format::u16_at))]
fn u16_at(bytes: &[u8], at: usize) -> u16
    requires { at + 2 ≤ length bytes.now }
    ensures { result ≡ u16_at bytes.now at }
{
    let mut word = [0; 2];
    word.copy_from_slice(&bytes[at..at + 2]);
    u16::from_le_bytes(word)
}

/// The number that 4 bytes are.
#[tactic(auto, unfolding(crate::specs::Format::u32_at))]
pub(crate) fn u32_at(bytes: &[u8], at: usize) -> u32
    requires { at + 4 ≤ length bytes.now }
    ensures { result ≡ u32_at bytes.now at }
{
    let mut word = [0; 4];
    word.copy_from_slice(&bytes[at..at + 4]);
    u32::from_le_bytes(word)
}

/// The number that 8 bytes are.
#[tactic(auto, unfolding(crate::specs::Format::u64_at))]
pub(crate) fn u64_at(bytes: &[u8], at: usize) -> u64
    requires { at + 8 ≤ length bytes.now }
    ensures { result ≡ u64_at bytes.now at }
{
    let mut word = [0; 8];
    word.copy_from_slice(&bytes[at..at + 8]);
    u64::from_le_bytes(word)
}

/// The settings that are here.
fn settings_at(bytes: &[u8], at: usize) -> Settings
    requires { at + 22 ≤ length bytes.now }
    ensures { result ≡ settings_at bytes.now at }
{
    Settings {
        memory_end: u64_at(bytes, at),
        offered: u64_at(bytes, at + 8),
        reserved_pages: u32_at(bytes, at + 16),
        needs_must_tell: bytes[at + 20],
        skips_bad_pages: bytes[at + 21],
        holds_deflates: 0,
        discards_hints: 0,
    }
}

/// The ring that is here.
fn ring_at(bytes: &[u8], at: usize) -> Virtqueue
    requires { at + 30 ≤ length bytes.now }
    ensures { result ≡ ring_at bytes.now at }
{
    Virtqueue {
        table: u64_at(bytes, at),
        avail: u64_at(bytes, at + 8),
        used: u64_at(bytes, at + 16),
        size: u16_at(bytes, at + 24),
        next_avail: u16_at(bytes, at + 26),
        next_used: u16_at(bytes, at + 28),
    }
}

/// The round of hints that is here.
fn round_at(bytes: &[u8], at: usize) -> Round
    requires { at + 9 ≤ length bytes.now }
    ensures { result ≡ round_at bytes.now at }
{
    Round {
        shown: u32_at(bytes, at),
        last: u32_at(bytes, at + 4),
        opened: bytes[at + 8],
    }
}

/// The device that these bytes are of in the oldest version.
fn oldest_in(bytes: &[u8]) -> Saved
    requires { OLDEST_LENGTH ≤ length bytes.now }
    ensures { result ≡ oldest_in bytes.now }
{
    let device = Device {
        settings: settings_at(bytes, 16),
        features: u64_at(bytes, 38),
        target: u32_at(bytes, 46),
        actual: u32_at(bytes, 50),
        inflate: ring_at(bytes, 59),
        deflate: ring_at(bytes, 89),
        statistics: ring_at(bytes, 119),
        hint: Virtqueue::NONE,
        report: ring_at(bytes, 149),
        poison: u32_at(bytes, 179),
        round: Round::NONE,
        status: bytes[58],
    };
    let held = Held {
        statistics: u32_at(bytes, 54),
        deflate: 0,
        pages: 0,
    };
    Saved { device, held }
}

/// The device that these bytes are of in the older version.
fn older_in(bytes: &[u8]) -> Saved
    requires { OLDER_LENGTH ≤ length bytes.now }
    ensures { result ≡ older_in bytes.now }
{
    let mut saved = oldest_in(bytes);
    saved.device.settings.holds_deflates = bytes[HOLD_AT];
    saved.held.deflate = u32_at(bytes, HOLD_AT + 1);
    saved.held.pages = u32_at(bytes, HOLD_AT + 5);
    saved
}

/// The device that these bytes are of in this version.
fn saved_in(bytes: &[u8]) -> Saved
    requires { SAVED_LENGTH ≤ length bytes.now }
    ensures { result ≡ saved_in bytes.now }
{
    let mut saved = older_in(bytes);
    saved.device.hint = ring_at(bytes, HINT_AT);
    saved.device.round = round_at(bytes, HINT_AT + 30);
    saved.device.settings.discards_hints = bytes[HINT_AT + 39];
    saved
}

/// The device that these bytes are of, by their number, whatever else they say.
pub(crate) fn state_in(bytes: &[u8]) -> Saved
    requires { is_length (length bytes.now) ≡ true }
    ensures { result ≡ state_in bytes.now }
{
    match bytes.len() {
        OLDEST_LENGTH => oldest_in(bytes),
        OLDER_LENGTH => older_in(bytes),
        _ => saved_in(bytes),
    }
}

//! The bytes of a saved device: numbers in a row, each little-endian.

ghost use Rattle.std.specs.Prelude.{◌≡◌, ◌+◌, ◌≤◌, ◌++◌, [], ◌∷◌};
ghost use Rattle.arrayvec.specs.ArrayVec.{array_vec_len};
ghost use Rattle.vb_core.specs.Format.{u16_bytes, u32_bytes, u64_bytes};
ghost use Rattle.vb_core.specs.Format.{in_a_row, settings_parts, ring_parts, body, saved_bytes};
ghost use Rattle.vb_core.specs.Format.{hold_parts, round_parts, checksum, header_parts};
ghost use Rattle.vb_core.specs.Format.{FitsSettings, FitsRing, FitsRound, FitsHolds, FitsSaved};

use crate::saved::Saved;
use crate::{Round, Settings, Virtqueue};
use arrayvec::ArrayVec;

/// What a saved device begins with: the bytes of `VBSTATE` and a 0, as a little-endian number.
pub(crate) const MAGIC: u64 = 0x0045_5441_5453_4256;

/// The version of the format: 4 since a device has rounds of hints.
pub const FORMAT_VERSION: u32 = 4;

/// The version before it, which is read too: no device of it has hints.
pub const OLDER_VERSION: u32 = 3;

/// The version before that one, which is read too: no device of it holds deflates, either.
pub const OLDEST_VERSION: u32 = 2;

/// Bytes that each version begins with: `MAGIC`, the version, the length.
pub(crate) const HEADER_LENGTH: usize = 16;

/// Where the version is.
pub(crate) const VERSION_AT: usize = 8;

/// Where the length of the whole is.
pub(crate) const LENGTH_AT: usize = 12;

/// Where is what the oldest version doesn't say: its checksum is there.
pub(crate) const HOLD_AT: usize = 183;

/// Where is what the older version doesn't say.
pub(crate) const HINT_AT: usize = 192;

/// Where the checksum of all bytes before it is.
pub(crate) const CHECKSUM_AT: usize = 232;

/// How many bytes the checksum has.
pub(crate) const CHECKSUM_LENGTH: usize = 8;

/// How many bytes a saved device has.
pub const SAVED_LENGTH: usize = 240;

/// How many it had in the older version.
pub const OLDER_LENGTH: usize = 200;

/// How many it had in the oldest version.
pub const OLDEST_LENGTH: usize = 191;

/// The bytes of a saved device, as far as they are there.
pub(crate) type SavedBytes = ArrayVec<u8, SAVED_LENGTH>;

/// Adds a byte.
fn push_u8(out: &mut SavedBytes, number: u8)
    requires { array_vec_len out.old + 1 ≤ SAVED_LENGTH }
    ensures items { out.new.items ≡ out.old.items ++ (number ∷ []) }
    ensures len { array_vec_len out.new ≡ array_vec_len out.old + 1 }
{
    out.push(number);
}

/// Adds the 2 bytes of a number.
#[tactic(auto, unfolding(crate::specs::Format::u16_bytes))]
fn push_u16(out: &mut SavedBytes, number: u16)
    requires { array_vec_len out.old + 2 ≤ SAVED_LENGTH }
    ensures items { out.new.items ≡ out.old.items ++ u16_bytes number }
    ensures len { array_vec_len out.new ≡ array_vec_len out.old + 2 }
{
    let bytes: [u8; 2] = number.to_le_bytes();
    let _fits = out.try_extend_from_slice(&bytes);
}

/// Adds the 4 bytes of a number.
#[tactic(auto, unfolding(crate::specs::Format::u32_bytes))]
fn push_u32(out: &mut SavedBytes, number: u32)
    requires { array_vec_len out.old + 4 ≤ SAVED_LENGTH }
    ensures items { out.new.items ≡ out.old.items ++ u32_bytes number }
    ensures len { array_vec_len out.new ≡ array_vec_len out.old + 4 }
{
    let bytes: [u8; 4] = number.to_le_bytes();
    let _fits = out.try_extend_from_slice(&bytes);
}

/// Adds the 8 bytes of a number.
#[tactic(auto, unfolding(crate::specs::Format::u64_bytes))]
fn push_u64(out: &mut SavedBytes, number: u64)
    requires { array_vec_len out.old + 8 ≤ SAVED_LENGTH }
    ensures items { out.new.items ≡ out.old.items ++ u64_bytes number }
    ensures len { array_vec_len out.new ≡ array_vec_len out.old + 8 }
{
    let bytes: [u8; 8] = number.to_le_bytes();
    let _fits = out.try_extend_from_slice(&bytes);
}

/// Adds what a saved device begins with.
fn push_header(out: &mut SavedBytes)
    requires { array_vec_len out.old + 16 ≤ SAVED_LENGTH }
    ensures items { out.new.items ≡ out.old.items ++
        in_a_row (header_parts FORMAT_VERSION SAVED_LENGTH) [] }
    ensures len { array_vec_len out.new ≡ array_vec_len out.old + 16 }
{
    push_u64(out, MAGIC);
    push_u32(out, FORMAT_VERSION);
    push_u32(out, SAVED_LENGTH as u32);
}

/// Adds the settings.
fn push_settings(out: &mut SavedBytes, settings: &Settings)
    requires { array_vec_len out.old + 22 ≤ SAVED_LENGTH }
    ensures items { out.new.items ≡ out.old.items ++ in_a_row (settings_parts settings.now) [] }
    ensures len { array_vec_len out.new ≡ array_vec_len out.old + 22 }
    ensures fits { FitsSettings settings.now }
{
    push_u64(out, settings.memory_end);
    push_u64(out, settings.offered);
    push_u32(out, settings.reserved_pages);
    push_u8(out, settings.needs_must_tell);
    push_u8(out, settings.skips_bad_pages);
}

/// Adds what is held of deflates, or may be.
fn push_holds(out: &mut SavedBytes, saved: &Saved)
    requires { array_vec_len out.old + 9 ≤ SAVED_LENGTH }
    ensures items { out.new.items ≡ out.old.items ++ in_a_row (hold_parts saved.now) [] }
    ensures len { array_vec_len out.new ≡ array_vec_len out.old + 9 }
    ensures fits { FitsHolds saved.now }
{
    push_u8(out, saved.device.settings.holds_deflates);
    push_u32(out, saved.held.deflate);
    push_u32(out, saved.held.pages);
}

/// Adds a ring.
fn push_ring(out: &mut SavedBytes, ring: &Virtqueue)
    requires { array_vec_len out.old + 30 ≤ SAVED_LENGTH }
    ensures items { out.new.items ≡ out.old.items ++ in_a_row (ring_parts ring.now) [] }
    ensures len { array_vec_len out.new ≡ array_vec_len out.old + 30 }
    ensures fits { FitsRing ring.now }
{
    push_u64(out, ring.table);
    push_u64(out, ring.avail);
    push_u64(out, ring.used);
    push_u16(out, ring.size);
    push_u16(out, ring.next_avail);
    push_u16(out, ring.next_used);
}

/// Adds the round of hints.
fn push_round(out: &mut SavedBytes, round: &Round)
    requires { array_vec_len out.old + 9 ≤ SAVED_LENGTH }
    ensures items { out.new.items ≡ out.old.items ++ in_a_row (round_parts round.now) [] }
    ensures len { array_vec_len out.new ≡ array_vec_len out.old + 9 }
    ensures fits { FitsRound round.now }
{
    push_u32(out, round.shown);
    push_u32(out, round.last);
    push_u8(out, round.opened);
}

/// Adds what comes before the checksum.
fn push_body(out: &mut SavedBytes, saved: &Saved)
    requires empty { out.old.items ≡ [] }
    requires len { array_vec_len out.old ≡ 0 }
    ensures items { out.new.items ≡ body saved.now }
    ensures len { array_vec_len out.new ≡ CHECKSUM_AT }
    ensures fits { FitsSaved saved.now }
{
    let device = &saved.device;
    push_header(out);
    push_settings(out, &device.settings);
    push_u64(out, device.features);
    push_u32(out, device.target);
    push_u32(out, device.actual);
    push_u32(out, saved.held.statistics);
    push_u8(out, device.status);
    push_ring(out, &device.inflate);
    push_ring(out, &device.deflate);
    push_ring(out, &device.statistics);
    push_ring(out, &device.report);
    push_u32(out, device.poison);
    push_holds(out, saved);
    push_ring(out, &device.hint);
    push_round(out, &device.round);
    push_u8(out, device.settings.discards_hints);
}

/// The checksum of bytes: FNV-1a with 64 bits. A change of any one byte changes it.
#[tactic(auto, using(crate::proofs::Rows::fold_more), unfolding(crate::specs::Format::checksum))]
pub(crate) fn checksum(bytes: &[u8]) -> u64
    ensures { result ≡ checksum bytes.now }
{
    let mut sum: u64 = 0xcbf2_9ce4_8422_2325;
    for byte in bytes {
        sum = (sum ^ u64::from(*byte)).wrapping_mul(0x0000_0100_0000_01b3);
    }
    sum
}

/// Adds all bytes of a saved device.
#[tactic(auto, using(crate::proofs::Rows::row_more))]
pub(crate) fn push_saved(out: &mut SavedBytes, saved: &Saved)
    requires empty { out.old.items ≡ [] }
    requires len { array_vec_len out.old ≡ 0 }
    ensures items { out.new.items ≡ saved_bytes saved.now }
    ensures len { array_vec_len out.new ≡ SAVED_LENGTH }
    ensures fits { FitsSaved saved.now }
{
    push_body(out, saved);
    let sum = checksum(out.as_slice());
    push_u64(out, sum);
}

//! What a guest says of its memory: a chain of the queue of statistics.

ghost use Rattle.std.specs.Prelude.{◌≡◌, ◌+◌, ◌*◌, ◌==◌, ◌≤◌, MatchResult, IfOk, Ok, Err, Some};
ghost use Rattle.std.specs.Prelude.{if◌then◌else◌, All, [], length};
ghost use Rattle.vb_virtio.specs.Limits.{page_size};
ghost use Rattle.vb_virtio.specs.declared.limits.TheConstants.{MAX_QUEUE_SIZE};
ghost use Rattle.vb_virtio.specs.declared.layout.TheConstants.{MAX_STATISTICS_LENGTH};
ghost use Rattle.vb_virtio.specs.declared.layout.TheConstants.{FREE_MEMORY_TAG, TOTAL_MEMORY_TAG};
ghost use Rattle.vb_request.specs.Statistics.{statistic_at, statistics_of, last_of};
ghost use Rattle.vb_request.specs.Statistics.{is_statistics_length, statistics_length};
ghost use Rattle.vb_request.specs.Statistics.{statistics_request, statistics_in};

use crate::buffer::{ChainBytes, gather, has_writable, total_length};
use byteorder::{ByteOrder, LittleEndian};
use vb_chain::{ChainFault, Piece};
use vb_ram::GuestBytes;
use vb_virtio::layout::{FREE_MEMORY_TAG, MAX_STATISTICS_LENGTH, STATISTIC_SIZE, TOTAL_MEMORY_TAG};

/// The figures of a guest's last buffer of statistics, in bytes, as far as it had them (VIRTIO 1.1,
/// 5.5.6.4).
#[derive(Clone, Copy, Debug, PartialEq, Eq)]
pub struct Statistics {
    /// Memory that is free.
    pub free: Option<u64>,
    /// All memory.
    pub total: Option<u64>,
}

/// Bytes of a statistic.
const ENTRY_BYTES: usize = STATISTIC_SIZE as usize;

impl Statistics {
    /// No figure is known.
    pub const NONE: Statistics = Statistics {
        free: None,
        total: None,
    };

    /// A later statistic counts in place of an earlier one; other tags are skipped.
    fn note(&mut self, tag: u16, value: u64)
        ensures free { self.new.free ≡
            (if tag == FREE_MEMORY_TAG then Some value else self.old.free) }
        ensures total { self.new.total ≡
            (if tag == TOTAL_MEMORY_TAG then Some value else self.old.total) }
    {
        if tag == FREE_MEMORY_TAG {
            self.free = Some(value);
        } else if tag == TOTAL_MEMORY_TAG {
            self.total = Some(value);
        }
    }
}

/// Whether a buffer of statistics may have `total` bytes: at most 1020, and a multiple of 10.
pub fn is_statistics_length(total: u64) -> bool
    ensures { result ≡ is_statistics_length total }
{
    total <= u64::from(MAX_STATISTICS_LENGTH) && total % u64::from(STATISTIC_SIZE) == 0
}

/// How many bytes a chain of these pieces has together on the queue of statistics (VIRTIO 1.1,
/// 5.5.6.3): from none to 1020.
///
/// Refused, tested in this order:
///
/// - `WrongDirection` where a piece is the device's to write;
/// - `BadLength` where the pieces have more than 1020 bytes together, or no multiple of 10.
pub fn statistics_length(pieces: &[Piece]) -> Result<u32, ChainFault>
    requires { length pieces.now ≤ MAX_QUEUE_SIZE }
    ensures { result ≡ statistics_length pieces.now }
{
    if has_writable(pieces) {
        return Err(ChainFault::WrongDirection);
    }
    let total = total_length(pieces);
    if !is_statistics_length(total) {
        return Err(ChainFault::BadLength);
    }
    Ok(total as u32)
}

/// The tag of statistic `k` of these bytes, from 0: 10 bytes each, little-endian.
pub fn tag_at(bytes: &[u8], k: usize) -> u16
    requires { 10 * k + 10 ≤ length bytes.now }
    ensures { result ≡ (statistic_at bytes.now k).tag }
{
    LittleEndian::read_u16(&bytes[ENTRY_BYTES * k..])
}

/// The value of statistic `k` of these bytes, from 0: 10 bytes each, little-endian.
pub fn value_at(bytes: &[u8], k: usize) -> u64
    requires { 10 * k + 10 ≤ length bytes.now }
    ensures { result ≡ (statistic_at bytes.now k).value }
{
    LittleEndian::read_u64(&bytes[ENTRY_BYTES * k + 2..])
}

/// What these bytes say: the last statistic of each tag counts.
fn statistics_of(bytes: &[u8]) -> Statistics
    ensures free { result.free ≡ last_of FREE_MEMORY_TAG (statistics_of bytes.now) }
    ensures total { result.total ≡ last_of TOTAL_MEMORY_TAG (statistics_of bytes.now) }
{
    let mut said = Statistics::NONE;
    for k in 0..bytes.len() / ENTRY_BYTES {
        said.note(tag_at(bytes, k), value_at(bytes, k));
    }
    said
}

/// What a buffer of statistics of these pieces says: the last statistic of each tag counts, a
/// figure that isn't there is none, and other tags are skipped. An empty buffer has no figure.
///
/// The pieces lie in the guest's memory and are no more than a queue has descriptors, as those of a
/// chain do that `vb_chain::walk` gives. Refused, tested in this order:
///
/// - `WrongDirection` where a piece is the device's to write;
/// - `BadLength` where the pieces have more than 1020 bytes together, or no multiple of 10.
pub fn read_statistics<G: GuestBytes>(ram: &G, pieces: &[Piece]) -> Result<Statistics, ChainFault>
    requires inside { All
        (λ piece. piece.addr + piece.len ≤ page_size * length (G.mem ram.now)) pieces.now }
    requires few { length pieces.now ≤ MAX_QUEUE_SIZE }
    ensures fault { MatchResult result (λ said. statistics_request pieces.now ≡ Ok [])
        (λ fault. statistics_request pieces.now ≡ Err fault) }
    ensures free { IfOk result
        (λ said. said.free ≡ (statistics_in (G.mem ram.now) pieces.now).free) }
    ensures total { IfOk result
        (λ said. said.total ≡ (statistics_in (G.mem ram.now) pieces.now).total) }
{
    // A no-op call: its clause tells the prover that memory has fewer than 2^32 pages.
    let _few = ram.pages();
    match statistics_length(pieces) {
        Err(fault) => Err(fault),
        Ok(_) => {
            let mut bytes = ChainBytes::new();
            gather(ram, pieces, &mut bytes);
            Ok(statistics_of(bytes.as_slice()))
        }
    }
}

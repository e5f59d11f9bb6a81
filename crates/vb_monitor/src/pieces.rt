//! The pieces of a chain, as they are in the room for them.

ghost use Rattle.std.specs.Prelude.{◌≡◌, ◌+◌, ◌<◌, ◌≤◌, ◌++◌, ◌∷◌, [], ◌==◌, not, length};
ghost use Rattle.std.specs.Prelude.{take, sum_by, MatchOption, true, false};
ghost use Rattle.std.specs.List.{list_any};
ghost use Rattle.vb_chain.specs.Rules.{piece_of};
ghost use Rattle.vb_virtio.specs.declared.limits.TheConstants.{MAX_QUEUE_SIZE, MAX_REQUEST_PAGES};
ghost use Rattle.vb_request.specs.Request.{total_length};
ghost use Rattle.vb_monitor.specs.Chains.{is_length_within, request_length_within, id_length};
ghost use Rattle.vb_monitor.specs.Chains.{has_id};
ghost use Rattle.vb_request.specs.Statistics.{statistics_length};
ghost use Rattle.vb_core.specs.Report.{NamesPiecesBy};
ghost use Rattle.vb_core.specs.Pieces.{piece_in, pieces_in};

use crate::room::{MAX_PIECES, MAX_RUNS};
use vb_chain::{ChainFault, Descriptor};
use vb_core::{ChainPiece, Denial, Device, Kind, Named, Run};
use vb_request::is_statistics_length;

/// The first `count` pieces.
pub(crate) fn first_pieces(pieces: &[ChainPiece; MAX_PIECES], count: u16) -> &[ChainPiece]
    ensures { result.now ≡ take count pieces.now }
{
    &pieces[..usize::from(count).min(MAX_PIECES)]
}

/// What a descriptor says of its buffer.
pub(crate) fn buffer_of(descriptor: &Descriptor) -> ChainPiece
    ensures { piece_in result ≡ piece_of descriptor.now }
{
    ChainPiece {
        address: descriptor.addr,
        length: descriptor.len,
        writable: u8::from(descriptor.is_writable()),
    }
}

/// Puts what a descriptor says of its buffer after the first `count` pieces.
#[tactic(auto, using(crate::proofs::BufferLemmas::join_at))]
pub(crate) fn push_piece(pieces: &mut [ChainPiece; MAX_PIECES], count: u16, descriptor: &Descriptor)
    requires { count < MAX_QUEUE_SIZE }
    ensures { pieces_in (take (count + 1) pieces.new) ≡
        pieces_in (take count pieces.old) ++ piece_of descriptor.now ∷ [] }
{
    pieces[usize::from(count)] = buffer_of(descriptor);
}

/// How many bytes the buffers have together; none where one of them is the device's to write.
fn readable_bytes(buffers: &[ChainPiece]) -> Option<u64>
    requires { length buffers.now ≤ MAX_QUEUE_SIZE }
    ensures { MatchOption result
        (list_any (λ buffer. not (buffer.writable == 0)) buffers.now ≡ true)
        (λ total. (list_any (λ buffer. not (buffer.writable == 0)) buffers.now ≡ false) ×
        (total ≡ sum_by (λ buffer. buffer.length) buffers.now)) }
{
    let mut total: u64 = 0;
    for buffer in buffers {
        if buffer.writable != 0 {
            return None;
        }
        total += u64::from(buffer.length);
    }
    Some(total)
}

/// How many bytes the pieces have together; none where one of them is the device's to write.
fn readable_length(pieces: &[ChainPiece]) -> Option<u64>
    requires { length pieces.now ≤ MAX_QUEUE_SIZE }
    ensures { MatchOption result
        (list_any (λ piece. piece.writable) (pieces_in pieces.now) ≡ true)
        (λ total. (list_any (λ piece. piece.writable) (pieces_in pieces.now) ≡ false) ×
        (total ≡ total_length (pieces_in pieces.now))) }
{
    readable_bytes(pieces)
}

/// Whether a request may have this length which names at most `most` pages.
fn is_length_within(most: u32, len: u64) -> bool
    ensures { result ≡ is_length_within most len }
{
    0 < len && len <= 4 * u64::from(most) && len % 4 == 0
}

/// How many bytes a request of these pieces has, which may name at most `most` pages, or the rule
/// that they break.
pub(crate) fn request_length(pieces: &[ChainPiece], most: u32) -> Result<u64, ChainFault>
    requires { length pieces.now ≤ MAX_QUEUE_SIZE }
    ensures { result ≡ request_length_within most (pieces_in pieces.now) }
{
    match readable_length(pieces) {
        None => Err(ChainFault::WrongDirection),
        Some(total) => {
            if !is_length_within(most, total) {
                return Err(ChainFault::BadLength);
            }
            Ok(total)
        }
    }
}

/// How many bytes a buffer of statistics of these pieces has, or the rule that they break.
pub(crate) fn statistics_length(pieces: &[ChainPiece]) -> Result<u32, ChainFault>
    requires { length pieces.now ≤ MAX_QUEUE_SIZE }
    ensures { result ≡ statistics_length (pieces_in pieces.now) }
{
    match readable_length(pieces) {
        None => Err(ChainFault::WrongDirection),
        Some(total) => {
            if !is_statistics_length(total) {
                return Err(ChainFault::BadLength);
            }
            Ok(total as u32)
        }
    }
}

/// How many bytes an id of hints of these pieces has, or the rule that they break.
pub(crate) fn id_length(pieces: &[ChainPiece]) -> Result<u32, ChainFault>
    requires { length pieces.now ≤ MAX_QUEUE_SIZE }
    ensures { result ≡ id_length (pieces_in pieces.now) }
{
    match readable_length(pieces) {
        None => Err(ChainFault::WrongDirection),
        Some(total) => {
            if total != 4 {
                return Err(ChainFault::BadLength);
            }
            Ok(total as u32)
        }
    }
}

/// Whether a chain of hints of these pieces has an id, and no pages.
pub(crate) fn has_id(pieces: &[ChainPiece]) -> bool
    ensures { result ≡ has_id (pieces_in pieces.now) }
{
    if pieces.is_empty() {
        return false;
    }
    pieces[0].writable == 0
}

/// Names the pages of a report or a hint of these pieces.
pub(crate) fn report_named(
    device: &mut Device,
    kind: Kind,
    pieces: &[ChainPiece],
    runs: &mut [Run; MAX_RUNS],
) -> Result<Named, Denial>
    requires { length pieces.now ≤ MAX_QUEUE_SIZE }
    ensures { NamesPiecesBy kind (pieces_in pieces.now) MAX_REQUEST_PAGES runs.new device.old
        device.new result }
{
    device.name_pieces(kind, pieces, runs)
}

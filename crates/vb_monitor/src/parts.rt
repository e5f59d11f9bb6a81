//! The parts of a chain's pieces, each within one page and one portion.

ghost use Rattle.std.specs.Prelude.{◌≡◌, ◌+◌, ◌≤◌, ◌<◌, ◌∷◌, ◌%◌, [], drop, length, IfSome};
ghost use Rattle.std.specs.Prelude.{◌^◌, MatchOption};
ghost use Rattle.vb_virtio.specs.declared.limits.TheConstants.{MAX_QUEUE_SIZE};
ghost use Rattle.vb_core.specs.Pieces.{piece_in, pieces_in};
ghost use Rattle.vb_monitor.specs.declared.room.TheConstants.{MAX_BYTES};
ghost use Rattle.vb_monitor.specs.Pieces.{next_part, parts_on};
ghost use Rattle.vb_monitor.specs.Left.{bytes_left};

use crate::regions::PAGE_BYTES;
use crate::room::MAX_BYTES;
use vb_core::ChainPiece;

/// Bytes of a piece, all in one page.
#[derive(Clone, Copy, Debug)]
pub struct Part {
    /// Where the piece begins.
    pub address: u64,
    /// How many bytes after that the part begins.
    pub plus: u32,
    /// How many bytes it has.
    pub length: u32,
}

/// The next part of a piece, `done` bytes of which were copied, and `into` bytes of the chain.
fn part_after(piece: &ChainPiece, done: u32, into: usize) -> Part
    requires { done < piece.now.length }
    ensures part { result ≡ next_part (piece_in piece.now) done into }
    ensures some { 1 ≤ result.length }
    ensures within { done + result.length ≤ piece.now.length }
    ensures fits { into % MAX_BYTES + result.length ≤ MAX_BYTES }
{
    let in_page = (piece.address % PAGE_BYTES + u64::from(done)) % PAGE_BYTES;
    let page = (PAGE_BYTES - in_page) as u32;
    let portion = (MAX_BYTES - into % MAX_BYTES) as u32;
    Part {
        address: piece.address,
        plus: done,
        length: (piece.length - done).min(page.min(portion)),
    }
}

/// A part of one of some pieces.
#[derive(Clone, Copy, Debug)]
pub(crate) struct NextPart {
    /// The number of the piece.
    pub(crate) piece: usize,
    /// The part.
    pub(crate) part: Part,
    /// How many bytes of the piece are copied with it.
    pub(crate) done: u32,
}

/// The next part of the pieces from this number on, `done` bytes of the first of which were copied,
/// and `into` bytes of the chain.
#[tactic(auto, using(crate::proofs::PartLemmas::part_steps))]
pub(crate) fn next_part(
    pieces: &[ChainPiece],
    from: usize,
    done: u32,
    into: usize,
) -> Option<NextPart>
    ensures parts { MatchOption result (parts_on into done (drop from (pieces_in pieces.now)) ≡ [])
        (λ x. parts_on into done (drop from (pieces_in pieces.now)) ≡
        x.part ∷ parts_on (into + x.part.length) x.done (drop x.piece (pieces_in pieces.now))) }
    ensures fits { IfSome result (λ x. into % MAX_BYTES + x.part.length ≤ MAX_BYTES) }
    ensures fewer { length pieces.now ≤ MAX_QUEUE_SIZE → IfSome result (λ x.
        bytes_left x.piece x.done < bytes_left from done) }
{
    let mut done = done;
    for number in from..pieces.len() {
        let piece = &pieces[number];
        if done < piece.length {
            let part = part_after(piece, done, into);
            return Some(NextPart {
                piece: number,
                part,
                done: done + part.length,
            });
        }
        done = 0;
    }
    None
}

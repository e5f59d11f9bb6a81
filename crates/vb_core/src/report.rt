//! Reports and hints: chains of pages that are free in the guest.

ghost use Rattle.std.specs.Prelude.{◌≡◌, ℕ, ◌≤◌, ◌<◌, ◌*◌, ◌^◌, not, false, true, All};
ghost use Rattle.std.specs.Prelude.{OnOk, Ok, Err};
ghost use Rattle.std.specs.Prelude.{length, map, take};
ghost use Rattle.vb_virtio.specs.declared.limits.TheConstants.{MAX_REPORT_PIECES};
ghost use Rattle.vb_virtio.specs.Limits.{page_size};
ghost use Rattle.vb_request.specs.Report.{report_request};
ghost use Rattle.std.specs.List.{list_any};
ghost use Rattle.vb_core.specs.Pieces.{piece_in, pieces_in};
ghost use Rattle.vb_core.specs.Report.{run_of, is_beyond, names_by_pieces, report_named};
ghost use Rattle.vb_core.specs.Report.{NamesPiecesBy};

use crate::pieces::piece_in;
use crate::{ChainPiece, Denial, Device, Kind, MEMORY_LIMIT, Named, Run};
use arrayvec::ArrayVec;
use vb_chain::{ChainFault, Piece};
use vb_request::{check_report, count_pages};
use vb_virtio::limits::{MAX_REPORT_PIECES, PAGE_SIZE};

/// Runs that a report has room for at least: its pieces, at the most.
pub const MAX_REPORT_RUNS: usize = MAX_REPORT_PIECES as usize;

/// These pieces, as a chain has them.
#[tactic(auto, using(crate::proofs::PieceLemmas::none_in))]
fn chain_of(buffers: &[ChainPiece]) -> ArrayVec<Piece, MAX_REPORT_RUNS>
    requires { length buffers.now ≤ MAX_REPORT_PIECES }
    ensures { result.items ≡ pieces_in buffers.now }
{
    let mut chain = ArrayVec::new();
    for buffer in buffers {
        chain.push(piece_in(buffer));
    }
    chain
}

/// Whether a buffer begins where no guest has memory.
fn any_beyond(buffers: &[ChainPiece]) -> bool
    ensures { result ≡ list_any (λ buffer. is_beyond (piece_in buffer)) buffers.now }
{
    buffers.iter().any(|buffer| buffer.address >= MEMORY_LIMIT)
}

/// Whether one of the pieces begins where no guest has memory.
fn is_any_beyond(pieces: &[ChainPiece]) -> bool
    ensures { result ≡ list_any is_beyond (pieces_in pieces.now) }
{
    any_beyond(pieces)
}

/// Whether a buffer is the device's to read.
fn any_readable(buffers: &[ChainPiece]) -> bool
    ensures { result ≡ list_any (λ buffer. not (piece_in buffer).writable) buffers.now }
{
    buffers.iter().any(|buffer| buffer.writable == 0)
}

/// What is wrong with more pieces than a report may have.
fn fault_of_many(pieces: &[ChainPiece]) -> ChainFault
    requires { MAX_REPORT_PIECES < length pieces.now }
    ensures { (reserved : ℕ) → report_request (pieces_in pieces.now) reserved ≡ Err result }
{
    if any_readable(pieces) {
        return ChainFault::WrongDirection;
    }
    ChainFault::BadLength
}

/// The pages of a piece of whole pages.
fn run_of(piece: &Piece) -> Run
    requires { piece.now.addr < page_size * 2 ^ 32 }
    ensures { result ≡ run_of piece.now }
{
    Run {
        first: (piece.addr / u64::from(PAGE_SIZE)) as u32,
        count: piece.len / PAGE_SIZE,
    }
}

/// Puts the runs of all pieces into the front of a slice.
fn put_runs(pieces: &[Piece], runs: &mut [Run])
    requires room { length pieces.now ≤ length runs.old }
    requires inside { All (λ piece. piece.addr < page_size * 2 ^ 32) pieces.now }
    ensures { take (length pieces.now) runs.new ≡ map run_of pieces.now }
{
    for (k, piece) in pieces.iter().enumerate() {
        runs[k] = run_of(piece);
    }
}

/// The pages of these pieces, or the rule that they break.
fn name_pieces(reserved: u32, pieces: &[ChainPiece], runs: &mut [Run]) -> Result<Named, ChainFault>
    requires below { list_any is_beyond (pieces_in pieces.now) ≡ false }
    requires room { MAX_REPORT_PIECES ≤ length runs.old }
    ensures answer { result ≡ report_named (pieces_in pieces.now) reserved }
    ensures runs { OnOk result
        (take (length (pieces_in pieces.now)) runs.new ≡ map run_of (pieces_in pieces.now)) }
{
    if pieces.len() > MAX_REPORT_RUNS {
        return Err(fault_of_many(pieces));
    }
    let chain = chain_of(pieces);
    match check_report(chain.as_slice(), reserved) {
        Err(fault) => Err(fault),
        Ok(()) => {
            put_runs(chain.as_slice(), runs);
            Ok(Named {
                runs: pieces.len() as u32,
                pages: count_pages(chain.as_slice()),
                skipped: 0,
            })
        }
    }
}

impl Kind {
    /// Whether its chains name pages by their pieces: reports do, and hints.
    pub fn names_by_pieces(self) -> bool
        ensures { result ≡ names_by_pieces self }
    {
        match self {
            Kind::Hint | Kind::Report => true,
            Kind::Inflate | Kind::Deflate | Kind::Statistics => false,
        }
    }
}

impl Device {
    /// Takes the chain of these pieces, in order, that was next on the queue of reports or of
    /// hints: its pages, which are free in the guest, as runs in the front of `runs`, one for each
    /// piece.
    ///
    /// Refused, tested in this order: `NoQueue` for a kind that the call isn't for; `BadArgument`
    /// where `runs` has room for fewer than 32, or a piece begins where no guest has memory;
    /// `NotReady`; `NeedsReset`; `NoQueue` for a feature; `Misplaced`. Then `Broken`, which sets
    /// DEVICE_NEEDS_RESET and takes nothing, where a piece isn't some whole unreserved pages that
    /// the device may write: nothing is skipped here.
    pub fn name_pieces(
        &mut self,
        kind: Kind,
        pieces: &[ChainPiece],
        runs: &mut [Run],
    ) -> Result<Named, Denial>
        ensures { NamesPiecesBy kind (pieces_in pieces.now) (length runs.old) runs.new
            self.old self.new result }
    {
        let fits = runs.len() >= MAX_REPORT_RUNS && !is_any_beyond(pieces);
        if let Some(why) = self.call_denial(kind, kind.names_by_pieces(), fits) {
            return Err(why);
        }
        match name_pieces(self.settings.reserved_pages, pieces, runs) {
            Ok(named) => {
                self.count_taken(kind);
                Ok(named)
            }
            Err(fault) => {
                self.note_fault();
                Err(Denial::Broken(fault))
            }
        }
    }
}

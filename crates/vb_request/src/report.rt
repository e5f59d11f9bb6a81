//! The pages of a report: a chain of the queue of reports (profile).

ghost use Rattle.std.specs.Prelude.{◌≡◌, ◌+◌, ◌*◌, ◌<◌, ◌≤◌, ◌^◌, not, All, MatchResult, Ok, Err};
ghost use Rattle.std.specs.Prelude.{IfOk, IfErr, OnOk, OnErr, length};
ghost use Rattle.std.specs.List.{list_any};
ghost use Rattle.vb_virtio.specs.declared.limits.TheConstants.{MAX_REPORT_PIECES};
ghost use Rattle.vb_virtio.specs.Limits.{page_size};
ghost use Rattle.vb_request.specs.Report.{RunsFrom};
ghost use Rattle.vb_request.specs.Report.{pages_of_pieces, has_bad_length, piece_fault};
ghost use Rattle.vb_request.specs.Report.{first_piece_fault, report_request};

use crate::NamedPages;
use crate::named::{MAX_PIECES, NamedRun};
use vb_chain::{ChainFault, Piece};
use vb_virtio::limits::PAGE_SIZE;

/// Bytes of a page.
const PAGE_BYTES: u64 = PAGE_SIZE as u64;

/// How many pages the pieces of a report have together; a page that is named again counts again.
pub fn count_pages(pieces: &[Piece]) -> u32
    requires { length pieces.now ≤ MAX_REPORT_PIECES }
    ensures value { result ≡ length (pages_of_pieces pieces.now) }
    ensures few { result ≤ MAX_REPORT_PIECES * 1048576 }
{
    let mut count = 0;
    for piece in pieces {
        count += piece.len / PAGE_SIZE;
    }
    count
}

/// A run of the pages of all pieces, which begins with page number `k`, from 0; none where they
/// have no more than `k`.
pub(crate) fn run_at(pieces: &[Piece], k: u32) -> Option<NamedRun>
    requires { All (λ piece. piece.addr + piece.len ≤ page_size * 2 ^ 32) pieces.now }
    ensures { RunsFrom (pages_of_pieces pieces.now) k result }
{
    let mut rest = k;
    for piece in pieces {
        let count = piece.len / PAGE_SIZE;
        if rest < count {
            return Some(NamedRun {
                at: k,
                first: (piece.addr / PAGE_BYTES) as u32 + rest,
                count: count - rest,
            });
        }
        rest -= count;
    }
    None
}

/// Whether a piece is the device's to read.
fn has_readable(pieces: &[Piece]) -> bool
    ensures { result ≡ list_any (λ piece. not piece.writable) pieces.now }
{
    pieces.iter().any(|piece| !piece.writable)
}

/// Whether a piece isn't some whole pages long.
fn has_wrong_length(pieces: &[Piece]) -> bool
    ensures { result ≡ list_any has_bad_length pieces.now }
{
    pieces
        .iter()
        .any(|piece| piece.len == 0 || piece.len % PAGE_SIZE != 0)
}

/// What is wrong with where a piece begins, where the first `reserved` pages are reserved.
fn fault_of_piece(piece: &Piece, reserved: u32) -> Option<ChainFault>
    ensures { result ≡ piece_fault reserved piece.now }
{
    if piece.addr % PAGE_BYTES != 0 {
        Some(ChainFault::BadPage)
    } else if piece.addr / PAGE_BYTES < u64::from(reserved) {
        Some(ChainFault::ReservedPage)
    } else {
        None
    }
}

/// What is wrong with the first wrong piece.
fn fault_of_first(pieces: &[Piece], reserved: u32) -> Option<ChainFault>
    ensures { result ≡ first_piece_fault reserved pieces.now }
{
    for piece in pieces {
        if let Some(fault) = fault_of_piece(piece, reserved) {
            return Some(fault);
        }
    }
    None
}

/// Tests a chain of these pieces on the queue of reports, where the first `reserved` pages are
/// reserved. Refused, tested in this order:
///
/// - `WrongDirection` where a piece is the device's to read;
/// - `BadLength` where there are more than 32 pieces, or one isn't some whole pages long;
/// - for the first piece that is wrong, `BadPage` where it doesn't begin where a page does, and
///   `ReservedPage` where it begins with a reserved page.
pub fn check_report(pieces: &[Piece], reserved: u32) -> Result<(), ChainFault>
    ensures answer { MatchResult result
        (λ _. report_request pieces.now reserved ≡ Ok (pages_of_pieces pieces.now))
        (λ fault. report_request pieces.now reserved ≡ Err fault) }
    ensures above { OnOk result (All (λ page. reserved ≤ page) (pages_of_pieces pieces.now)) }
    ensures few { OnOk result (length pieces.now ≤ MAX_REPORT_PIECES) }
{
    if has_readable(pieces) {
        return Err(ChainFault::WrongDirection);
    }
    if pieces.len() > MAX_PIECES || has_wrong_length(pieces) {
        return Err(ChainFault::BadLength);
    }
    match fault_of_first(pieces, reserved) {
        Some(fault) => Err(fault),
        None => Ok(()),
    }
}

/// The pages that a chain of these pieces names on the queue of reports: those of each piece in
/// turn, rising; a page that is named again is there again. The guest's first `reserved` pages are
/// reserved.
///
/// The pieces lie in a guest's memory, as those of a chain do that `vb_chain::walk` gives: no page
/// has a number of 2^32 or more. Refused as by `check_report`.
pub fn read_report(pieces: &[Piece], reserved: u32) -> Result<NamedPages, ChainFault>
    requires inside { All (λ piece. piece.addr + piece.len ≤ page_size * 2 ^ 32) pieces.now }
    ensures pages { MatchResult result (λ pages. report_request pieces.now reserved ≡ Ok pages)
        (λ fault. report_request pieces.now reserved ≡ Err fault) }
    ensures above { IfOk result (λ pages. All (λ page. reserved ≤ page) pages) }
{
    let mut named = NamedPages::none();
    match read_report_into(pieces, reserved, &mut named) {
        Ok(()) => Ok(named),
        Err(fault) => Err(fault),
    }
}

/// Reads a report as `read_report` does, into room that the caller keeps. What the room named
/// before is gone, but where the report is refused: then it names what it did.
pub fn read_report_into(
    pieces: &[Piece],
    reserved: u32,
    named: &mut NamedPages,
) -> Result<(), ChainFault>
    requires inside { All (λ piece. piece.addr + piece.len ≤ page_size * 2 ^ 32) pieces.now }
    ensures pages { OnOk result (report_request pieces.now reserved ≡ Ok named.new) }
    ensures fault { IfErr result (λ fault. report_request pieces.now reserved ≡ Err fault) }
    ensures above { OnOk result (All (λ page. reserved ≤ page) named.new) }
    ensures kept { OnErr result (named.new ≡ named.old) }
{
    check_report(pieces, reserved)?;
    named.keep_pieces(pieces);
    Ok(())
}

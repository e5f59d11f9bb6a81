//! The pages that a chain names.

ghost use Rattle.std.specs.Prelude.{◌≡◌, ◌≤◌, ◌+◌, ◌*◌, ◌^◌, [], All, length, slice_get};
ghost use Rattle.std.specs.Prelude.{Ok, Err, OnOk, IfErr};
ghost use Rattle.vb_virtio.specs.declared.limits.TheConstants.{MAX_QUEUE_SIZE, MAX_REPORT_PIECES};
ghost use Rattle.vb_virtio.specs.Limits.{page_size};
ghost use Rattle.vb_request.specs.Request.{page_request};
ghost use Rattle.vb_request.specs.Report.{pages_of_pieces, RunsFrom};

use crate::report::{count_pages, run_at};
use crate::request::page_request;
use arrayvec::ArrayVec;
use std::marker::Model;
use vb_chain::{ChainFault, Piece};
use vb_ram::GuestBytes;
use vb_virtio::limits::{MAX_REPORT_PIECES, MAX_REQUEST_PAGES};

/// Pages of a request, at most.
const MAX_PAGES: usize = MAX_REQUEST_PAGES as usize;

/// Pieces of a report, at most.
pub(crate) const MAX_PIECES: usize = MAX_REPORT_PIECES as usize;

/// The pages that a request lists.
pub(crate) type RequestPages = ArrayVec<u32, MAX_PAGES>;

/// The pieces of a report.
pub(crate) type ReportPieces = ArrayVec<Piece, MAX_PIECES>;

/// Some of the pages that a chain names, whose numbers rise by one.
#[derive(Clone, Copy)]
pub struct NamedRun {
    /// How many pages the chain names before them.
    pub at: u32,
    /// The first of them.
    pub first: u32,
    /// How many they are.
    pub count: u32,
}

impl NamedRun {
    /// A run of no pages.
    pub const NONE: NamedRun = NamedRun {
        at: 0,
        first: 0,
        count: 0,
    };
}

/// The run of the one page of this number among pages that are listed.
fn listed_run(listed: &[u32], k: u32) -> Option<NamedRun>
    ensures { RunsFrom listed.now k result }
{
    if k as usize >= listed.len() {
        return None;
    }
    Some(NamedRun {
        at: k,
        first: listed[k as usize],
        count: 1,
    })
}

/// Where the pages of a chain are kept.
#[derive(Drop)]
pub(crate) enum Kept {
    /// Pages one by one.
    Listed(RequestPages),
    /// Pieces of whole pages.
    Pieces(ReportPieces),
}

/// Puts these pieces in the place of those that are kept.
fn put_pieces(kept: &mut ReportPieces, pieces: &[Piece])
    requires { length pieces.now ≤ MAX_REPORT_PIECES }
    ensures { kept.new.items ≡ pieces.now }
{
    kept.clear();
    let _fits = kept.try_extend_from_slice(pieces);
}

/// The pages that a chain names, in order.
///
/// A request lists them, each once, at most 256. Of a report the pieces are kept, at most 32, and
/// no list of pages, which a guest could make 2,000,000 long; a page may be in several pieces.
#[derive(Drop)]
pub struct NamedPages {
    /// One or the other.
    kept: Kept,
}

impl Model for NamedPages {
    ghost use Rattle.std.specs.Prelude.{◌+◌, ◌*◌, ◌^◌, ◌≤◌, ℕ, List, All};
    ghost use Rattle.vb_virtio.specs.Limits.{page_size};
    ghost use Rattle.vb_request.specs.Kept.{kept_pages, kept_pieces};

    ghost Value = { List ℕ };

    ghost view = { λ s. kept_pages s.kept };

    ghost invariant = { λ s.
        All (λ piece. piece.addr + piece.len ≤ page_size * 2 ^ 32) (kept_pieces s.kept) };
}

impl NamedPages {
    /// No pages, as a buffer of statistics names.
    pub fn none() -> NamedPages
        ensures { result ≡ [] }
    {
        NamedPages {
            kept: Kept::Pieces(ArrayVec::new()),
        }
    }

    /// No pages any more.
    pub fn clear(&mut self)
        ensures { self.new ≡ [] }
    {
        match &mut self.kept {
            Kept::Listed(listed) => listed.clear(),
            Kept::Pieces(pieces) => pieces.clear(),
        }
    }

    /// Names the pages that a chain of these pieces lists, each once, or finds what is wrong with
    /// it; then it is left open what is named.
    pub(crate) fn list_request<G: GuestBytes>(
        &mut self,
        ram: &G,
        pieces: &[Piece],
        reserved: u32,
    ) -> Result<(), ChainFault>
        requires inside { All
            (λ piece. piece.addr + piece.len ≤ page_size * length (G.mem ram.now)) pieces.now }
        requires few { length pieces.now ≤ MAX_QUEUE_SIZE }
        ensures pages { OnOk result
            (page_request (G.mem ram.now) pieces.now reserved ≡ Ok self.new) }
        ensures fault { IfErr result (λ fault.
            page_request (G.mem ram.now) pieces.now reserved ≡ Err fault) }
    {
        if let Kept::Listed(listed) = &mut self.kept {
            return page_request(ram, pieces, reserved, listed);
        }
        let mut listed = ArrayVec::new();
        page_request(ram, pieces, reserved, &mut listed)?;
        self.kept = Kept::Listed(listed);
        Ok(())
    }

    /// Names the pages of these pieces.
    pub(crate) fn keep_pieces(&mut self, pieces: &[Piece])
        requires inside { All (λ piece. piece.addr + piece.len ≤ page_size * 2 ^ 32) pieces.now }
        requires few { length pieces.now ≤ MAX_REPORT_PIECES }
        ensures { self.new ≡ pages_of_pieces pieces.now }
    {
        if let Kept::Pieces(kept) = &mut self.kept {
            put_pieces(kept, pieces);
            return;
        }
        let mut kept = ArrayVec::new();
        put_pieces(&mut kept, pieces);
        self.kept = Kept::Pieces(kept);
    }

    /// How many there are; a page that a report names again counts again.
    pub fn count(&self) -> u32
        ensures { result ≡ length self.now }
    {
        match &self.kept {
            Kept::Listed(listed) => listed.len() as u32,
            Kept::Pieces(pieces) => count_pages(pieces),
        }
    }

    /// The page of this number, from 0; none where there are no more than that.
    pub fn get(&self, k: u32) -> Option<u32>
        ensures { result ≡ slice_get self.now k }
    {
        let run = self.run(k)?;
        Some(run.first)
    }

    /// A run that begins with the page of this number, from 0; none where there are no more than
    /// that. How many pages it has after that one is left open.
    pub fn run(&self, k: u32) -> Option<NamedRun>
        ensures { RunsFrom self.now k result }
    {
        match &self.kept {
            Kept::Listed(listed) => listed_run(listed, k),
            Kept::Pieces(pieces) => run_at(pieces, k),
        }
    }
}

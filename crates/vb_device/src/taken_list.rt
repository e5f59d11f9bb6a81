//! The chains of a queue that a device has taken.

ghost use Rattle.std.specs.Prelude.{◌≡◌, ℕ, ◌<◌, ◌≤◌, ◌+◌, ◌*◌, ◌++◌, ◌∷◌, [], Some, IfErr, IfNone};
ghost use Rattle.std.specs.Prelude.{OnOk, OnErr, All, List, Ok, Err, length, remove, slice_get};
ghost use Rattle.std.specs.List.{position};
ghost use Rattle.vb_virtio.specs.declared.limits.TheConstants.{MAX_QUEUE_SIZE};
ghost use Rattle.vb_virtio.specs.Queues.{is_unvisited};
ghost use Rattle.vb_model.specs.Device.{next_page, visiting};
ghost use Rattle.vb_virtio.specs.Layout.{reserved_pages};
ghost use Rattle.vb_virtio.specs.Limits.{max_outstanding, page_size};
ghost use Rattle.vb_virtio.specs.Queues.{Request};
ghost use Rattle.vb_request.specs.Asked.{request_of, noted};

use crate::taken::{ChainOrigin, TakenRequest};
use std::marker::Model;
use vb_chain::{ChainFault, Piece};
use vb_ram::GuestBytes;
use vb_request::Statistics;
use vb_virtio::limits::MAX_OUTSTANDING;

/// Chains of a queue that may be taken at a time.
pub(crate) const MAX_TAKEN: usize = MAX_OUTSTANDING as usize;

/// The chains of a queue that are taken, oldest first. A chain is read into its place here, and is
/// used from there, since the pages of one take a kilobyte.
#[derive(Drop)]
pub(crate) struct TakenList {
    /// The taken requests, in order; past `len` is room for later ones.
    requests: [TakenRequest; MAX_TAKEN],
    /// How many there are.
    len: usize,
}

impl Model for TakenList {
    ghost use Rattle.std.specs.Prelude.{◌≤◌, List, take};
    ghost use Rattle.vb_virtio.specs.Queues.{Request};
    ghost use Rattle.vb_virtio.specs.Limits.{max_outstanding};

    ghost Value = { List Request };

    ghost view = { λ t. take t.len t.requests };

    ghost invariant = { λ t. t.len ≤ max_outstanding };
}

impl TakenList {
    /// No chains.
    pub(crate) fn new() -> TakenList
        ensures { result ≡ [] }
    {
        TakenList {
            requests: Default::default(),
            len: 0,
        }
    }

    /// The chains, oldest first.
    pub(crate) fn as_slice(&self) -> &[TakenRequest]
        ensures requests { result.now ≡ self.now }
        ensures few { length result.now ≤ max_outstanding }
    {
        &self.requests[..self.len]
    }

    /// Forgets all chains.
    pub(crate) fn clear(&mut self)
        ensures { self.new ≡ [] }
    {
        self.len = 0;
    }

    /// Takes the chain of these pieces, from this origin, after the
    /// others. What a buffer of statistics says replaces `last`. Where the chain breaks a rule, the
    /// rule is the answer, and nothing is changed.
    pub(crate) fn take<G: GuestBytes>(
        &mut self,
        origin: ChainOrigin,
        ram: &G,
        pieces: &[Piece],
        last: &mut Statistics,
    ) -> Result<(), ChainFault>
        requires room { length self.old < max_outstanding }
        requires inside { All
            (λ piece. piece.addr + piece.len ≤ page_size * length (G.mem ram.now)) pieces.now }
        requires few { length pieces.now ≤ MAX_QUEUE_SIZE }
        ensures taken { OnOk result ((pages : List ℕ) ×
            (request_of origin.queue origin.shape.queue_size (G.mem ram.now) pieces.now ≡
            Ok pages) ×
            All (λ page. reserved_pages origin.shape.queue_size ≤ page) pages ×
            (self.new ≡
            self.old ++ (record { head = origin.head; pages = pages; visited = 0 } ∷ []))) }
        ensures fault { IfErr result (λ fault.
            request_of origin.queue origin.shape.queue_size (G.mem ram.now) pieces.now ≡
            Err fault) }
        ensures kept { OnErr result (self.new ≡ self.old) }
        ensures said { OnOk result ((last.new.free ≡ (noted origin.queue (G.mem ram.now) pieces.now
            (record { free = last.old.free; total = last.old.total })).free) ×
            (last.new.total ≡ (noted origin.queue (G.mem ram.now) pieces.now
            (record { free = last.old.free; total = last.old.total })).total)) }
        ensures err { OnErr result (last.new ≡ last.old) }
    {
        self.requests[self.len].read(origin, ram, pieces, last)?;
        self.len += 1;
        Ok(())
    }

    /// Takes a chain from this head that names no page, after the others.
    pub(crate) fn hold(&mut self, head: u16)
        requires { length self.old < max_outstanding }
        ensures { self.new ≡ self.old ++ (record { head = head; pages = []; visited = 0 } ∷ []) }
    {
        self.requests[self.len].hold(head);
        self.len += 1;
    }

    /// Counts the oldest page that isn't visited yet as visited; answers the page, or none where
    /// every page of every chain is visited.
    pub(crate) fn visit_next(&mut self) -> Option<u32>
        ensures page { result ≡ next_page self.old }
        ensures none { IfNone result (self.new ≡ self.old) }
        ensures taken { self.new ≡ visiting self.old }
    {
        let oldest = oldest_unvisited(self.as_slice())?;
        Some(self.requests[oldest].visit())
    }

    /// Forgets the chain of this number; those after it close up.
    pub(crate) fn forget(&mut self, index: usize)
        requires { index < length self.old }
        ensures { self.new ≡ remove self.old index }
    {
        move_to_end(&mut self.requests[..self.len], index);
        self.len -= 1;
    }
}

/// The number of the oldest chain with a page that isn't visited yet.
fn oldest_unvisited(taken: &[TakenRequest]) -> Option<usize>
    ensures { result ≡ position is_unvisited taken.now }
{
    taken.iter().position(|request| request.is_unvisited())
}

/// Moves the chain of this number after the others, which close up.
fn move_to_end(taken: &mut [TakenRequest], index: usize)
    requires { index < length taken.old }
    ensures { (r : Request) → slice_get taken.old index ≡ Some r →
        taken.new ≡ remove taken.old index ++ r ∷ [] }
{
    taken[index..].rotate_left(1);
}

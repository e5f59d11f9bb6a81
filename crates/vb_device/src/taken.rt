//! A chain that a device has taken.

ghost use Rattle.std.specs.Prelude.{◌≡◌, ◌<◌, ◌≤◌, ◌+◌, ◌*◌, ◌^◌, true, Some, length, slice_get};
ghost use Rattle.std.specs.Prelude.{All, IfErr, OnOk, OnErr, Ok, Err, []};
ghost use Rattle.vb_virtio.specs.declared.limits.TheConstants.{MAX_QUEUE_SIZE};
ghost use Rattle.vb_virtio.specs.Layout.{reserved_pages};
ghost use Rattle.vb_virtio.specs.Limits.{page_size};
ghost use Rattle.vb_request.specs.Asked.{request_of, noted};
ghost use Rattle.vb_virtio.specs.Queues.{is_unvisited};
ghost use Rattle.vb_request.specs.Report.{IsRun};

use std::marker::Model;
use vb_chain::{ChainFault, Piece};
use vb_ram::{GuestBytes, Shape};
use vb_request::{NamedPages, NamedRun, Statistics, read_chain_into};

/// Where a chain that is taken begins.
#[derive(Clone, Copy, Debug)]
pub(crate) struct ChainOrigin {
    /// Its first descriptor.
    pub(crate) head: u16,
    /// The number of its queue.
    pub(crate) queue: u32,
    /// The size of the device's queues.
    pub(crate) shape: Shape,
}

/// A chain that was taken and isn't used yet.
#[derive(Drop)]
pub(crate) struct TakenRequest {
    /// The first descriptor of its chain.
    head: u16,
    /// The pages that it names.
    pages: NamedPages,
    /// How many of them the device has visited, from the first on.
    visited: u32,
}

impl Model for TakenRequest {
    ghost use Rattle.vb_virtio.specs.Queues.{Request};

    ghost Value = { Request };

    ghost view = { λ r. record { head = r.head; pages = r.pages; visited = r.visited } };
}

impl Default for TakenRequest {
    fn default() -> Self {
        TakenRequest {
            head: 0,
            pages: NamedPages::none(),
            visited: 0,
        }
    }
}

impl TakenRequest {
    /// Becomes the chain of these pieces, from this origin: reads which
    /// pages it names, of which none is visited. What a buffer of statistics says replaces `last`.
    /// Where the chain breaks a rule, the rule is the answer, and what the request is then is left
    /// open.
    pub(crate) fn read<G: GuestBytes>(
        &mut self,
        origin: ChainOrigin,
        ram: &G,
        pieces: &[Piece],
        last: &mut Statistics,
    ) -> Result<(), ChainFault>
        requires inside { All
            (λ piece. piece.addr + piece.len ≤ page_size * length (G.mem ram.now)) pieces.now }
        requires few { length pieces.now ≤ MAX_QUEUE_SIZE }
        ensures pages { OnOk result
            (request_of origin.queue origin.shape.queue_size (G.mem ram.now) pieces.now ≡
            Ok self.new.pages) }
        ensures fresh { OnOk result ((self.new.head ≡ origin.head) × (self.new.visited ≡ 0)) }
        ensures above { OnOk result
            (All (λ page. reserved_pages origin.shape.queue_size ≤ page) self.new.pages) }
        ensures fault { IfErr result (λ fault.
            request_of origin.queue origin.shape.queue_size (G.mem ram.now) pieces.now ≡
            Err fault) }
        ensures said { OnOk result ((last.new.free ≡ (noted origin.queue (G.mem ram.now) pieces.now
            (record { free = last.old.free; total = last.old.total })).free) ×
            (last.new.total ≡ (noted origin.queue (G.mem ram.now) pieces.now
            (record { free = last.old.free; total = last.old.total })).total)) }
        ensures err { OnErr result (last.new ≡ last.old) }
    {
        self.head = origin.head;
        self.visited = 0;
        read_chain_into(
            origin.queue,
            origin.shape,
            ram,
            pieces,
            last,
            &mut self.pages,
        )
    }

    /// Becomes a chain from this head that names no page.
    pub(crate) fn hold(&mut self, head: u16)
        ensures { self.new ≡ record { head = head; pages = []; visited = 0 } }
    {
        self.head = head;
        self.pages = NamedPages::none();
        self.visited = 0;
    }

    /// The head of its chain.
    pub(crate) fn head(&self) -> u16
        ensures { result ≡ self.now.head }
    {
        self.head
    }

    /// How many pages it names; one that a report names again counts again.
    pub(crate) fn count(&self) -> u32
        ensures { result ≡ length self.now.pages }
    {
        self.pages.count()
    }

    /// The page that it names as number `k`, from 0.
    pub(crate) fn page(&self, k: u32) -> u32
        requires { k < length self.now.pages }
        ensures { slice_get self.now.pages k ≡ Some result }
    {
        self.pages.get(k).unwrap()
    }

    /// The page that it names as number `k`, by its run `run`: the run is looked up anew, and kept
    /// there, where page `k` isn't in it.
    pub(crate) fn page_in(&self, k: u32, run: &mut NamedRun) -> u32
        requires some { k < length self.now.pages }
        requires run { IsRun self.now.pages run.old }
        ensures page { slice_get self.now.pages k ≡ Some result }
        ensures run { IsRun self.now.pages run.new }
    {
        if run.at <= k && k - run.at < run.count {
            return run.first + (k - run.at);
        }
        let next = self.pages.run(k).unwrap();
        *run = next;
        next.first
    }

    /// Whether a page of it isn't visited yet.
    pub(crate) fn is_unvisited(&self) -> bool
        ensures { result ≡ is_unvisited self.now }
    {
        self.visited < self.count()
    }

    /// Counts its next page as visited; answers the page.
    pub(crate) fn visit(&mut self) -> u32
        requires { is_unvisited self.old ≡ true }
        ensures page { slice_get self.old.pages self.old.visited ≡ Some result }
        ensures visited { self.new ≡ record self.old { visited = self.old.visited + 1 } }
    {
        let count = self.count();
        prove!(self.visited < count);
        let page = self.page(self.visited);
        self.visited += 1;
        page
    }
}

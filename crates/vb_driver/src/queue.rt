//! The driver's side of a queue of requests.

ghost use Rattle.std.specs.Prelude.{◌≡◌, ◌<◌, ◌≤◌, ℕ, [], Ok, Err, None, Some, IfOk, IfErr};
ghost use Rattle.std.specs.Prelude.{MatchOption, OnErr, length, min};
ghost use Rattle.std.specs.Prelude.{replicate, sum_by, slice_index_or, ◌*◌, ◌+◌, ◌++◌};
ghost use Rattle.vb_virtio.specs.Limits.{max_outstanding, max_request_pages};
ghost use Rattle.vb_virtio.specs.Layout.{buffers_page};
ghost use Rattle.vb_ring.specs.Layout.{IsSize, IsInside};
ghost use Rattle.vb_ring.specs.Ends.{outstanding, used_answer};
ghost use Rattle.vb_ring.specs.Calls.{TakesUsedBy};
ghost use Rattle.vb_driver.specs.Answers.{HaveRingFrames, IsLargeEnough};
ghost use Rattle.vb_driver.specs.State.{AreRequests, fresh_side, sent_by, pages_named};
ghost use Rattle.vb_driver.specs.Calls.{Posts, after_reap};

use crate::memory::write_numbers;
use arrayvec::ArrayVec;
use std::alloc::{AllocError, Global};
use std::marker::Model;
use vb_chain::Piece;
use vb_ram::{GuestBytes, Shape};
use vb_ring::{DriverRing, RingBroken};
use vb_virtio::layout::{
    DEFLATE_BUFFERS_PAGE, INFLATE_BUFFERS_PAGE, INFLATE_QUEUE, REQUEST_BUFFER_SIZE,
};
use vb_virtio::limits::{MAX_OUTSTANDING, MAX_REQUEST_PAGES, PAGE_SIZE};

/// How many pages a request names at most.
const REQUEST_PAGES: usize = MAX_REQUEST_PAGES as usize;

/// The pages of a request.
pub(crate) type RequestPages = ArrayVec<u32, { REQUEST_PAGES }>;

/// The pages of a request that is out; none where no request is.
#[derive(Drop)]
pub(crate) struct Sent {
    /// Its pages, in the order in which the buffer has them.
    pages: RequestPages,
}

impl Model for Sent {
    ghost use Rattle.std.specs.Prelude.{List, ℕ};

    ghost Value = { List ℕ };

    ghost view = { λ s. s.pages.items };
}

/// Puts more page numbers after the first ones.
pub(crate) fn append(pages: &mut RequestPages, more: &[u32])
    requires { length pages.old.items + length more.now ≤ max_request_pages }
    ensures { pages.new.items ≡ pages.old.items ++ more.now }
{
    let _fits = pages.try_extend_from_slice(more);
}

/// Puts the pages of `source` in place of those of `pages`. Only pages that are there are copied.
fn copy_into(pages: &mut RequestPages, source: &RequestPages)
    ensures { pages.new.items ≡ source.now.items }
{
    pages.clear();
    append(pages, source);
}

impl Sent {
    /// No request.
    fn none() -> Self
        ensures { result ≡ [] }
    {
        Sent {
            pages: ArrayVec::new(),
        }
    }

    /// Keeps the pages of a request that goes out.
    fn keep(&mut self, pages: &RequestPages)
        ensures { self.new ≡ pages.now.items }
    {
        copy_into(&mut self.pages, pages);
    }

    /// Forgets the request.
    fn forget(&mut self)
        ensures { self.new ≡ [] }
    {
        self.pages.clear();
    }

    /// Puts the pages of the request into `pages`, and forgets it.
    fn hand_over(&mut self, pages: &mut RequestPages)
        ensures pages { pages.new.items ≡ self.old }
        ensures forgotten { self.new ≡ [] }
    {
        copy_into(pages, &self.pages);
        self.forget();
    }
}

/// The driver's side of a queue of requests.
#[derive(Drop)]
pub(crate) struct RequestQueue {
    /// Its number.
    number: u32,
    /// The driver's end of the ring.
    ring: DriverRing,
    /// The pages of each request that is out, by head.
    sent: Vec<Sent>,
}

impl Model for RequestQueue {
    ghost use Rattle.vb_driver.specs.State.{RequestSide, AreRequests};

    ghost Value = { RequestSide };

    ghost view = { λ q. record { number = q.number; ring = q.ring; sent = q.sent.items } };

    ghost invariant = { λ q. AreRequests
        (record { number = q.number; ring = q.ring; sent = q.sent.items }) };
}

/// How many pages these requests name.
fn count_named(sent: &[Sent]) -> u32
    requires few { length sent.now ≤ max_outstanding }
    requires short { (i : ℕ) → length (slice_index_or sent.now i []) ≤ max_request_pages }
    ensures value { result ≡ sum_by (λ pages. length pages) sent.now }
    ensures few { result ≤ max_request_pages * length sent.now }
{
    let mut count = 0;
    for request in sent {
        count += request.pages.len() as u32;
    }
    count
}

/// Forgets all requests.
fn forget_all(sent: &mut [Sent])
    ensures { sent.new ≡ replicate (length sent.old) [] }
{
    for k in 0..sent.len() {
        sent[k].forget();
    }
}

/// The first page of the buffers of inflate requests, and of deflate requests.
fn buffers_page(queue: u32) -> u32
    ensures { result ≡ buffers_page queue }
{
    match queue {
        INFLATE_QUEUE => INFLATE_BUFFERS_PAGE,
        _ => DEFLATE_BUFFERS_PAGE,
    }
}

impl RequestQueue {
    /// The queue of this number, of which nothing is out.
    pub(crate) fn new(alloc: Global, queue: u32, shape: Shape) -> Result<Self, AllocError>
        requires { IsSize shape.queue_size }
        ensures { IfOk result (λ side. side ≡ fresh_side queue shape.queue_size) }
    {
        let mut sent = Vec::with_capacity(alloc, MAX_OUTSTANDING as usize)?;
        for _head in 0..MAX_OUTSTANDING {
            sent.push(Sent::none())?;
        }
        Ok(RequestQueue {
            number: queue,
            ring: DriverRing::new(shape.ring_page(queue), shape.queue_size),
            sent,
        })
    }

    /// Begins anew, with nothing out.
    pub(crate) fn renew(&mut self, shape: Shape)
        requires { IsSize shape.queue_size }
        ensures { self.new ≡ fresh_side self.old.number shape.queue_size }
    {
        self.ring = DriverRing::new(shape.ring_page(self.number), shape.queue_size);
        forget_all(&mut self.sent);
    }

    /// How many requests are out.
    pub(crate) fn outstanding(&self) -> u16
        ensures requests { AreRequests self.now }
        ensures value { result ≡ outstanding self.now.ring }
    {
        self.ring.outstanding()
    }

    /// How many pages the requests that are out name.
    pub(crate) fn pages_named(&self) -> u32
        ensures value { result ≡ pages_named self.now }
        ensures few { result ≤ max_outstanding * max_request_pages }
    {
        count_named(&self.sent)
    }

    /// Posts a request for these pages, in a buffer of the queue's own.
    pub(crate) fn post<G: GuestBytes>(&mut self, ram: &mut G, pages: &RequestPages) -> u16
        requires room { outstanding self.old.ring < min self.old.ring.size max_outstanding }
        requires memory { IsLargeEnough (G.mem ram.old) }
        requires backed { HaveRingFrames self.old.ring.size (G.mem ram.old) }
        ensures posts { Posts (G.mem ram.old) (G.mem ram.new)
            self.old self.new (buffers_page self.old.number) pages.now.items result }
        ensures part { G.part ram.new ≡ G.part ram.old }
    {
        let Some(head) = self.ring.next_head() else {
            unreachable!()
        };
        let page = buffers_page(self.number) + u32::from(head / 4);
        let offset = REQUEST_BUFFER_SIZE * u32::from(head % 4);
        write_numbers(ram, page, offset as usize, pages);
        let piece = Piece {
            addr: u64::from(PAGE_SIZE * page + offset),
            len: 4 * pages.len() as u32,
            writable: false,
        };
        let Ok(head) = self.ring.add(ram, &[piece]) else {
            unreachable!()
        };
        self.sent[usize::from(head)].keep(pages);
        head
    }

    /// Takes the next request that the device has used, gives its head, and puts its pages into
    /// `pages`. What they are where no request came back is left open.
    pub(crate) fn take_used<G: GuestBytes>(
        &mut self,
        ram: &G,
        pages: &mut RequestPages,
    ) -> Result<Option<u16>, RingBroken>
        requires { IsInside (G.mem ram.now) self.old.ring.layout }
        ensures requests { AreRequests self.old }
        ensures ring { TakesUsedBy (G.mem ram.now) self.old.ring self.new.ring
            (used_answer (G.mem ram.now) self.old.ring) }
        ensures refused { IfErr result (λ fault.
            used_answer (G.mem ram.now) self.old.ring ≡ Err fault) }
        ensures kept { OnErr result (self.new ≡ self.old) }
        ensures next { IfOk result (λ got. MatchOption got
            ((used_answer (G.mem ram.now) self.old.ring ≡ Ok None) × (self.new ≡ self.old))
            (λ head. (used_answer (G.mem ram.now) self.old.ring ≡ Ok (Some head))
            × (head < max_outstanding)
            × (pages.new.items ≡ sent_by self.old head) × (self.new ≡ after_reap self.old head))) }
    {
        let Some(head) = self.ring.take_used(ram)? else {
            return Ok(None);
        };
        self.sent[usize::from(head)].hand_over(pages);
        Ok(Some(head))
    }
}

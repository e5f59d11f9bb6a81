//! A queue: the device's end of its ring, and the chains that were taken.

ghost use Rattle.std.specs.Prelude.{◌≡◌, ◌<◌, ◌≤◌, ◌+◌, [], ◌++◌, ◌∷◌, All, IfNone, IfOk, OnOk};
ghost use Rattle.std.specs.Prelude.{IfSome, OnErr, Some, IsTrue, true, false, nat_le, nat_lt, not};
ghost use Rattle.std.specs.Prelude.{length};
ghost use Rattle.std.specs.Prelude.{slice_get};
ghost use Rattle.std.specs.Prelude.{remove, is_some, count_by, vec_capacity};
ghost use Rattle.vb_virtio.specs.Queues.{Request};
ghost use Rattle.vb_device.specs.Base.{numbers_of_frames};
ghost use Rattle.vb_device.specs.BaseCalls.{with_lost, flags_after};
ghost use Rattle.vb_device.specs.Calls.{without_frames};
ghost use Rattle.std.specs.Int.{is_power_of_two};
ghost use Rattle.vb_virtio.specs.declared.limits.TheConstants.{MIN_QUEUE_SIZE, MAX_QUEUE_SIZE};
ghost use Rattle.vb_virtio.specs.Limits.{max_outstanding};
ghost use Rattle.vb_virtio.specs.Layout.{reserved_pages};
ghost use Rattle.vb_model.specs.Device.{next_page, visiting};
ghost use Rattle.vb_virtio.specs.FirstRefusal.{refusal_in};
ghost use Rattle.vb_ring.specs.Layout.{layout_of, IsInside, IsBacked};
ghost use Rattle.vb_ring.specs.Ends.{IsDeviceEnd};
ghost use Rattle.vb_ring.specs.Calls.{AddsUsedBy};
ghost use Rattle.vb_device.specs.QueueState.{new_queue, restarted, is_full, TakesNext};
ghost use Rattle.vb_device.specs.QueueState.{taken_refusal, IsTaken};
ghost use Rattle.vb_device.specs.ServedChains.{gone_on};

use crate::Statistics;
use crate::discarding::discard_request;
use crate::flags::note_finish;
use crate::taken::{ChainOrigin, TakenRequest};
use crate::taken_list::{MAX_TAKEN, TakenList};
use std::marker::Model;
use vb_bits::BitSet;
use vb_chain::Chain;
use vb_ram::{Frame, GuestBytes, Ram, Shape};
use vb_request::broken;
use vb_ring::{Layout, Queue};
use vb_virtio::Refusal;
use vb_virtio::layout::STATISTICS_QUEUE;

/// The device's end of a queue.
#[derive(Drop)]
pub(crate) struct DeviceQueue {
    /// Its number.
    number: u32,
    /// The device's end of the ring.
    queue: Queue,
    /// The chains that are taken, oldest first.
    taken: TakenList,
}

impl Model for DeviceQueue {
    ghost use Rattle.std.specs.Prelude.{All};
    ghost use Rattle.vb_device.specs.QueueState.{QueueState, IsTaken};

    ghost Value = { QueueState };

    ghost view = { λ q. record { number = q.number; ring = q.queue; taken = q.taken } };

    ghost invariant = { λ q. All (IsTaken q.queue.size) q.taken };
}

impl DeviceQueue {
    /// The queue of this number in a device of this shape; it isn't ready.
    pub(crate) fn new(number: u32, shape: Shape) -> DeviceQueue
        requires { IsTrue (is_power_of_two shape.queue_size) × (MIN_QUEUE_SIZE ≤ shape.queue_size) ×
            (shape.queue_size ≤ MAX_QUEUE_SIZE) }
        ensures { result ≡ new_queue number shape.queue_size }
    {
        let mut queue = Queue::new(shape.ring_page(number));
        let _sized = queue.set_size(shape.queue_size);
        DeviceQueue {
            number,
            queue,
            taken: TakenList::new(),
        }
    }

    /// Where its ring lies.
    pub(crate) fn layout(&self) -> Layout
        ensures { result ≡ self.now.ring.layout }
    {
        self.queue.layout()
    }

    /// Starts or stops the queue; nothing is taken.
    pub(crate) fn set_ready(&mut self, ready: bool)
        ensures { self.new ≡ restarted ready self.old }
    {
        self.taken.clear();
        self.queue.set_ready(ready);
    }

    /// Whether no chain is taken.
    pub(crate) fn is_idle(&self) -> bool
        ensures { result ≡ not (nat_lt 0 (length self.now.taken)) }
    {
        self.taken.as_slice().is_empty()
    }

    /// Whether as many chains are taken as may be.
    fn is_full(&self) -> bool
        ensures { result ≡ is_full self.now.number self.now }
    {
        let most = if self.number == STATISTICS_QUEUE {
            1
        } else {
            MAX_TAKEN
        };
        self.taken.as_slice().len() >= most
    }

    /// Takes the next chain of this queue: answers its head, or none where no chain is available.
    /// What a buffer of statistics says replaces `last`. Refused with `Busy` where as many chains
    /// are taken as may be, and with `Broken` where the chain breaks a rule; then nothing is
    /// changed. In `chain` it has room to work.
    pub(crate) fn take<G: GuestBytes>(
        &mut self,
        ram: &G,
        chain: &mut Chain,
        last: &mut Statistics,
    ) -> Result<Option<u16>, Refusal>
        requires inside { 0 < length (G.mem ram.now) →
            IsInside (G.mem ram.now) self.old.ring.layout }
        requires idle { length (G.mem ram.now) ≡ 0 → self.old.ring.next_avail ≡ 0 }
        requires ready { self.old.ring.ready ≡ true }
        ensures { TakesNext self.old.number (G.mem ram.now) self.old self.new
            (record { free = last.old.free; total = last.old.total })
            (record { free = last.new.free; total = last.new.total }) result }
    {
        if self.is_full() {
            return Err(Refusal::Busy);
        }
        if ram.pages() == 0 {
            return Ok(None);
        }
        let shape = Shape {
            queue_size: self.queue.size(),
        };
        match self.queue.pop_descriptor_chain_into(ram, chain) {
            Err(fault) => Err(broken(fault)),
            Ok(found) => match found {
                None => Ok(None),
                Some(head) => {
                    let origin = ChainOrigin {
                        head,
                        queue: self.number,
                        shape,
                    };
                    match self.taken.take(origin, ram, chain.pieces(), last) {
                        Ok(()) => Ok(Some(head)),
                        Err(wrong) => {
                            self.queue.go_to_previous_position();
                            Err(broken(wrong))
                        }
                    }
                }
            },
        }
    }

    /// Counts the oldest page that isn't visited yet as visited; answers the page, or none where
    /// every page of every taken request is visited.
    pub(crate) fn visit_next(&mut self) -> Option<u32>
        ensures page { result ≡ next_page self.old.taken }
        ensures none { IfNone result (self.new ≡ self.old) }
        ensures taken { self.new ≡ record self.old { taken = visiting self.old.taken } }
    {
        self.taken.visit_next()
    }

    /// The taken request of this number. Refused with `NotTaken` where there is none, and with
    /// `NotWorked` where its pages are to be visited first and one isn't.
    pub(crate) fn taken(&self, index: u32, visits: bool) -> Result<&TakenRequest, Refusal>
        ensures refused { refusal_in result ≡
            taken_refusal visits (slice_get self.now.taken index) }
        ensures value { IfOk result (λ r. slice_get self.now.taken index ≡ Some r.now) }
        ensures head { IfOk result (λ r. r.now.head < self.now.ring.size) }
        ensures above { IfOk result
            (λ r. All (λ page. reserved_pages self.now.ring.size ≤ page) r.now.pages) }
    {
        let Some(request) = self.taken.as_slice().get(index as usize) else {
            return Err(Refusal::NotTaken);
        };
        if visits && request.is_unvisited() {
            return Err(Refusal::NotWorked);
        }
        Ok(request)
    }

    /// Forgets the taken request of this number; those after it close up.
    pub(crate) fn forget(&mut self, index: u32)
        requires { index < length self.old.taken }
        ensures { self.new ≡ record self.old { taken = remove self.old.taken index } }
    {
        self.taken.forget(index as usize);
    }

    /// Takes the taken request of this number out, and the frames of its pages away where it is one
    /// of inflates or reports; those after it close up. An inflate's pages are ballooned then, a
    /// deflate's are ballooned no more.
    pub(crate) fn take_out(
        &mut self,
        ram: &mut Ram,
        loose: &mut Vec<Frame>,
        ballooned: &mut BitSet,
        index: u32,
    )
        requires inside { index < length self.old.taken }
        requires room { length loose.old.items + count_by is_some ram.old ≤ vec_capacity loose.old }
        ensures taken { self.new ≡ record self.old { taken = remove self.old.taken index } }
        ensures mem { (r : Request) → slice_get self.old.taken index ≡ Some r →
            ram.new ≡ without_frames self.old.number r.pages ram.old }
        ensures loose { (r : Request) → slice_get self.old.taken index ≡ Some r →
            numbers_of_frames loose.new.items ≡
            with_lost self.old.number ram.old r.pages (numbers_of_frames loose.old.items) }
        ensures capacity { vec_capacity loose.new ≡ vec_capacity loose.old }
        ensures ballooned { (r : Request) → slice_get self.old.taken index ≡ Some r →
            ballooned.new ≡ flags_after self.old.number r.pages ballooned.old }
        ensures was { (r : Request) → slice_get self.old.taken index ≡ Some r →
            IsTaken self.old.ring.size r }
    {
        let queue = self.number;
        let Ok(request) = self.taken(index, false) else {
            unreachable!()
        };
        note_finish(ballooned, queue, request);
        discard_request(ram, loose, queue, request);
        self.forget(index);
    }

    /// How many available entries were taken, modulo 65,536.
    pub(crate) fn next_avail(&self) -> u16
        ensures { result ≡ self.now.ring.next_avail }
    {
        self.queue.next_avail()
    }

    /// How many used elements were added, modulo 65,536.
    pub(crate) fn next_used(&self) -> u16
        ensures { result ≡ self.now.ring.next_used }
    {
        self.queue.next_used()
    }

    /// Goes on from these counts, as another hand served the queue, of which none was taken. A
    /// chain that it holds is taken now, and names no page.
    pub(crate) fn go_on(&mut self, next_avail: u16, next_used: u16, held: Option<u16>)
        requires none { self.old.taken ≡ [] }
        requires below { IfSome held (λ head. head < self.old.ring.size) }
        ensures { self.new ≡ gone_on next_avail next_used held self.old }
    {
        if let Some(head) = held {
            self.taken.hold(head);
        }
        let (layout, size) = (self.queue.layout(), self.queue.size());
        self.queue = Queue::resume(layout, size, self.queue.is_ready(), next_avail, next_used);
    }

    /// Adds a chain to the used ring, with length 0.
    pub(crate) fn add_used<G: GuestBytes>(&mut self, ram: &mut G, head: u16)
        requires backed { IsBacked (G.mem ram.old) self.old.ring.layout }
        requires ready { self.old.ring.ready ≡ true }
        requires head { head < self.old.ring.size }
        ensures adds { AddsUsedBy (G.mem ram.old) (G.mem ram.new)
            self.old.ring self.new.ring head 0 }
        ensures number { self.new.number ≡ self.old.number }
        ensures taken { self.new.taken ≡ self.old.taken }
        ensures part { G.part ram.new ≡ G.part ram.old }
    {
        self.queue.add_used(ram, head, 0);
    }
}

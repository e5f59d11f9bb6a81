//! The device's end.

ghost use Rattle.std.specs.Prelude.{◌≡◌, ◌+◌, ◌%◌, ◌<◌, ◌≤◌, ◌↔◌, IsTrue, false};
ghost use Rattle.std.specs.Prelude.{if◌then◌else◌, [], Ok, None, OnErr};
ghost use Rattle.std.specs.Int.{is_power_of_two};
ghost use Rattle.vb_virtio.specs.declared.limits.TheConstants.{MIN_QUEUE_SIZE, MAX_QUEUE_SIZE};
ghost use Rattle.vb_ring.specs.Layout.{layout_of, Fits, IsInside, IsBacked};
ghost use Rattle.vb_ring.specs.Ends.{IsDeviceEnd};
ghost use Rattle.vb_ring.specs.Calls.{PopsBy, popped, AddsUsedBy};

use crate::entries::{next_avail, put_used};
use crate::{Layout, MAX_QUEUE_SIZE, MIN_QUEUE_SIZE};
use std::marker::Model;
use vb_chain::{Chain, ChainFault, walk_into};
use vb_ram::GuestBytes;

/// A chain that was popped: its head, and its pieces.
#[derive(Drop)]
pub struct Taken {
    /// The number of its first descriptor.
    pub head: u16,
    /// The pieces, in order.
    pub chain: Chain,
}

/// The device's end of a split virtqueue.
#[derive(Drop)]
pub struct Queue {
    /// Where its ring lies.
    layout: Layout,
    /// How many descriptors it has.
    size: u16,
    /// Whether it was made ready.
    ready: bool,
    /// How many available entries it took, modulo 65,536.
    next_avail: u16,
    /// How many used elements it added, modulo 65,536.
    next_used: u16,
}

impl Model for Queue {
    ghost use Rattle.vb_ring.specs.Ends.{DeviceEnd, IsDeviceEnd};

    ghost Value = { DeviceEnd };

    ghost view = { λ s. record {
      layout = s.layout;
      size = s.size;
      ready = s.ready;
      next_avail = s.next_avail;
      next_used = s.next_used;
    } };

    ghost invariant = { λ s. IsDeviceEnd (record {
      layout = s.layout;
      size = s.size;
      ready = s.ready;
      next_avail = s.next_avail;
      next_used = s.next_used;
    }) };
}

impl Queue {
    /// A queue from page `page` on that isn't ready, of the greatest size.
    pub fn new(page: u16) -> Queue
        ensures is_end { IsDeviceEnd result }
        ensures value { result ≡ record {
          layout = layout_of page MAX_QUEUE_SIZE;
          size = MAX_QUEUE_SIZE;
          ready = false;
          next_avail = 0;
          next_used = 0;
        } }
    {
        Queue {
            layout: Layout::at(page, MAX_QUEUE_SIZE),
            size: MAX_QUEUE_SIZE,
            ready: false,
            next_avail: 0,
            next_used: 0,
        }
    }

    /// A queue of `size` descriptors that goes on from these counts, its ring lying so: the
    /// device's end as its owner kept it elsewhere.
    pub fn resume(layout: Layout, size: u16, ready: bool, next_avail: u16, next_used: u16) -> Queue
        requires fits { Fits layout size }
        requires page { layout.table < 65536 }
        ensures { result ≡ record {
          layout = layout;
          size = size;
          ready = ready;
          next_avail = next_avail;
          next_used = next_used;
        } }
    {
        Queue {
            layout,
            size,
            ready,
            next_avail,
            next_used,
        }
    }

    /// Where the queue's ring lies.
    pub fn layout(&self) -> Layout
        ensures is_end { IsDeviceEnd self.now }
        ensures value { result ≡ self.now.layout }
    {
        self.layout
    }

    /// How many descriptors it has.
    pub fn size(&self) -> u16
        ensures { result ≡ self.now.size }
    {
        self.size
    }

    /// Whether it was made ready.
    pub fn is_ready(&self) -> bool
        ensures { result ≡ self.now.ready }
    {
        self.ready
    }

    /// How many available entries it took, modulo 65,536.
    pub fn next_avail(&self) -> u16
        ensures { result ≡ self.now.next_avail }
    {
        self.next_avail
    }

    /// How many used elements it added, modulo 65,536.
    pub fn next_used(&self) -> u16
        ensures { result ≡ self.now.next_used }
    {
        self.next_used
    }

    /// Gives the queue a size, and so a layout: true where it is a power of two from 2 to
    /// `MAX_QUEUE_SIZE`, else nothing is changed.
    pub fn set_size(&mut self, size: u16) -> bool
        ensures is_end { IsDeviceEnd self.new }
        ensures answer { IsTrue result ↔ (IsTrue (is_power_of_two size) × (MIN_QUEUE_SIZE ≤ size) ×
            (size ≤ MAX_QUEUE_SIZE)) }
        ensures set { self.new ≡ (if result
            then record self.old { layout = layout_of self.old.layout.table size; size = size }
            else self.old) }
    {
        let fits = size.is_power_of_two() && size >= MIN_QUEUE_SIZE && size <= MAX_QUEUE_SIZE;
        if fits {
            self.layout = Layout::at(self.layout.table as u16, size);
            self.size = size;
        }
        fits
    }

    /// Starts the queue, or stops it. Either way both counts begin at 0 again, as a driver that
    /// starts over has them.
    pub fn set_ready(&mut self, ready: bool)
        ensures { self.new ≡ record self.old { ready = ready; next_avail = 0; next_used = 0 } }
    {
        self.ready = ready;
        self.next_avail = 0;
        self.next_used = 0;
    }

    /// Takes the next chain that the driver has published.
    ///
    /// Each call makes a `Chain` of 4 KiB, zeroes it and moves it to the caller, which takes
    /// several times as long as the pop of a short chain: a caller that pops many chains keeps one,
    /// and calls `pop_descriptor_chain_into`.
    pub fn pop_descriptor_chain<G: GuestBytes>(
        &mut self,
        ram: &G,
    ) -> Result<Option<Taken>, ChainFault>
        requires { IsInside (G.mem ram.now) self.old.layout }
        ensures { PopsBy (G.mem ram.now) self.old self.new result }
    {
        let mut chain = Chain::new();
        match self.pop_descriptor_chain_into(ram, &mut chain)? {
            Some(head) => Ok(Some(Taken { head, chain })),
            None => Ok(None),
        }
    }

    /// Takes the next chain that the driver has published, into a chain that the caller keeps, so
    /// that none is made or moved; answers its head. What the chain held before is gone; where none
    /// is taken, it is left with no piece.
    pub fn pop_descriptor_chain_into<G: GuestBytes>(
        &mut self,
        ram: &G,
        chain: &mut Chain,
    ) -> Result<Option<u16>, ChainFault>
        requires { IsInside (G.mem ram.now) self.old.layout }
        ensures pops { PopsBy (G.mem ram.now) self.old self.new (popped result chain.new) }
        ensures none { result ≡ Ok None → chain.new ≡ [] }
        ensures err { OnErr result (chain.new ≡ []) }
    {
        chain.clear();
        if !self.ready {
            return Ok(None);
        }
        let Some(head) = next_avail(ram, self.layout, self.size, self.next_avail)? else {
            return Ok(None);
        };
        match walk_into(ram, self.layout.table, head, self.size, chain) {
            Ok(()) => {
                self.next_avail = self.next_avail.wrapping_add(1);
                Ok(Some(head))
            }
            Err(fault) => Err(fault),
        }
    }

    /// Goes back by one chain, so that the one that was popped last is next again.
    pub fn go_to_previous_position(&mut self)
        ensures { self.new ≡
            record self.old { next_avail = (self.old.next_avail + 65535) % 65536 } }
    {
        self.next_avail = self.next_avail.wrapping_sub(1);
    }

    /// Adds a chain to the used ring; `len` is how many bytes were written into it.
    pub fn add_used<G: GuestBytes>(&mut self, ram: &mut G, head: u16, len: u32)
        requires backed { IsBacked (G.mem ram.old) self.old.layout }
        requires ready { IsTrue self.old.ready }
        requires head { head < self.old.size }
        ensures adds { AddsUsedBy (G.mem ram.old) (G.mem ram.new) self.old self.new head len }
        ensures part { G.part ram.new ≡ G.part ram.old }
    {
        put_used(ram, self.layout, self.size, self.next_used, head, len);
        self.next_used = self.next_used.wrapping_add(1);
    }
}

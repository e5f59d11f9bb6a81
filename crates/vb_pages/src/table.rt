//! Which blocks there are: of each order, the set of its blocks.

ghost use Rattle.std.specs.Prelude.{◌≡◌, ℕ, ◌+◌, ◌*◌, ◌/◌, ◌%◌, ◌^◌, ◌<◌, ◌≤◌, ◌↔◌, true, max};
ghost use Rattle.std.specs.Prelude.{List, length, replicate, slice_index, slice_set};
ghost use Rattle.std.specs.Prelude.{Some, None, IfOk, IsTrue};
ghost use Rattle.std.specs.Int.{div_ceil};
ghost use Rattle.vb_virtio.specs.Tests.{has_bit};
ghost use Rattle.vb_pages.specs.Table.{order_at, set_of_order, AreBlocks, IsLowestStart};

use crate::block::size_of;
use std::alloc::{AllocError, Global};
use std::marker::Model;
use vb_bits::{BitSet, MAX_BOUND, WORD_BITS};
use vb_virtio::limits::MAX_ORDER;

/// The most pages that there may be: as many as a set has room for.
pub const MAX_PAGES: u32 = MAX_BOUND;

/// Blocks by the page where they start.
#[derive(Drop)]
pub struct Table {
    /// How many pages there are.
    pages: u32,
    /// Of each order, its blocks by their numbers: block b starts at page b * 2^order.
    blocks: Vec<BitSet>,
}

impl Model for Table {
    ghost use Rattle.std.specs.Prelude.{ℕ, List, Option};
    ghost use Rattle.vb_pages.specs.Table.{table_of, AreSetsOf};

    ghost Value = { List (Option ℕ) };

    ghost view = { λ t. table_of t.pages t.blocks.items };

    ghost invariant = { λ t. AreSetsOf t.pages t.blocks.items };
}

impl Table {
    /// A table of `pages` pages, without a block.
    pub fn new(alloc: Global, pages: u32) -> Result<Self, AllocError>
        requires { pages ≤ MAX_PAGES }
        ensures { IfOk result (λ t. t ≡ replicate pages None) }
    {
        let mut blocks = Vec::with_capacity(alloc, MAX_ORDER as usize + 1)?;
        for order in 0..=MAX_ORDER {
            let room = (pages / size_of(order)).max(1);
            blocks.push(BitSet::new(alloc, room)?)?;
        }
        Ok(Table { pages, blocks })
    }

    /// How many pages there are.
    pub fn pages(&self) -> u32
        ensures { result ≡ length self.now }
    {
        self.pages
    }

    /// The blocks of this order by their numbers.
    fn of_order(&self, order: u32) -> &BitSet
        requires { order ≤ MAX_ORDER }
        ensures set { result.now ≡ set_of_order order self.now }
        ensures blocks { AreBlocks self.now }
        ensures small { length self.now ≤ MAX_PAGES }
    {
        &self.blocks[order as usize]
    }

    /// Whether a block of this order starts at the page.
    pub fn is_listed(&self, page: u32, order: u32) -> bool
        requires { order ≤ MAX_ORDER }
        ensures { IsTrue result ↔ (order_at self.now page ≡ Some order) }
    {
        let blocks = self.of_order(order);
        let size = size_of(order);
        page % size == 0 && blocks.contains(page / size)
    }

    /// The lowest start, from a page on, of a block of this order.
    pub fn first_from(&self, order: u32, from: u32) -> Option<u32>
        requires { order ≤ MAX_ORDER }
        ensures { IsLowestStart self.now order from result }
    {
        let blocks = self.of_order(order);
        let size = size_of(order);
        match blocks.first_from(from.div_ceil(size)) {
            Some(block) => Some(block * size),
            None => None,
        }
    }

    /// The blocks of this order as bits: bit b of word w is 1 exactly if a block starts at page
    /// (64 w + b) * 2^order.
    pub fn bits(&self, order: u32) -> &[u64]
        requires { order ≤ MAX_ORDER }
        ensures words { length result.now
            ≡ max 1 (div_ceil (length self.now / 2 ^ order) WORD_BITS) }
        ensures bits { (w b : ℕ) → b < WORD_BITS → (has_bit (slice_index result.now w) b ≡ true) ↔
            (order_at self.now ((WORD_BITS * w + b) * 2 ^ order) ≡ Some order) }
    {
        self.of_order(order).words()
    }

    /// Puts a block in.
    pub fn add(&mut self, start: u32, order: u32)
        requires order { order ≤ MAX_ORDER }
        requires aligned { start % 2 ^ order ≡ 0 }
        requires fits { start + 2 ^ order ≤ length self.old }
        requires empty { order_at self.old start ≡ None }
        ensures { self.new ≡ slice_set self.old start (Some order) }
    {
        self.blocks[order as usize].insert(start / size_of(order));
    }

    /// Takes a block out.
    pub fn remove(&mut self, start: u32, order: u32)
        requires order { order ≤ MAX_ORDER }
        requires there { order_at self.old start ≡ Some order }
        ensures { self.new ≡ slice_set self.old start None }
    {
        self.blocks[order as usize].remove(start / size_of(order));
    }

    /// Takes all blocks out.
    pub fn clear(&mut self)
        ensures { self.new ≡ replicate (length self.old) None }
    {
        for set in self.blocks.iter_mut() {
            set.clear();
        }
    }
}

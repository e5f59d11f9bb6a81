//! The buddy areas: a set of pages, kept as its maximal blocks.

ghost use Rattle.std.specs.Prelude.{◌≡◌, ℕ, ◌+◌, ◌%◌, ◌^◌, ◌<◌, ◌≤◌, List, length, false};
ghost use Rattle.std.specs.Prelude.{IfOk, MatchOption, count_by, Some, None};
ghost use Rattle.vb_model.specs.Pages.{pages_of};
ghost use Rattle.vb_pages.specs.Areas.{has, with_pages, without_pages, unreserved, block_at};
ghost use Rattle.vb_pages.specs.Areas.{IsBlock, IsMaximal, LiesOutside, TakesBlock, IsLowestFrom};
ghost use Rattle.vb_pages.specs.Areas.{AreBlockBits};
ghost use Rattle.vb_pages.specs.Tiles.{IsBuddy, HasRoom, IsTiled, set_of, IsLowestListed};

use crate::block::{FreeBlock, size_of};
use crate::table::{MAX_PAGES, Table};
use std::alloc::{AllocError, Global};
use std::marker::Model;
use vb_virtio::limits::MAX_ORDER;

/// Where the other half of the next larger block starts.
fn buddy_of(start: u32, order: u32) -> u32
    requires order { order ≤ MAX_ORDER }
    requires aligned { start % 2 ^ order ≡ 0 }
    requires small { start ≤ MAX_PAGES }
    ensures { IsBuddy start order result }
{
    let size = size_of(order);
    if start % (2 * size) == 0 {
        start + size
    } else {
        start - size
    }
}

/// Puts a block in, merged with its buddy as often as that is there.
fn put_block(table: &mut Table, start: u32, order: u32)
    requires tiled { IsTiled table.old }
    requires room { HasRoom table.old start order }
    ensures tiled { IsTiled table.new }
    ensures set { set_of table.new
        ≡ with_pages (pages_of (block_at start order)) (set_of table.old) }
{
    let buddy = buddy_of(start, order);
    if order < MAX_ORDER && table.is_listed(buddy, order) {
        table.remove(buddy, order);
        put_block(table, start.min(buddy), order + 1);
    } else {
        table.add(start, order);
    }
}

/// Puts the rest of a block in, of which a smaller block at its start was taken.
fn put_rest(table: &mut Table, start: u32, whole: u32, taken: u32)
    requires tiled { IsTiled table.old }
    requires room { HasRoom table.old start whole }
    requires smaller { taken ≤ whole }
    ensures tiled { IsTiled table.new }
    ensures set { set_of table.new
        ≡ without_pages (pages_of (block_at start taken))
        (with_pages (pages_of (block_at start whole)) (set_of table.old)) }
{
    if taken < whole {
        let half = whole - 1;
        table.add(start + size_of(half), half);
        put_rest(table, start, half, taken);
    }
}

/// Takes the block out that a request of this order gets.
fn take_block(table: &mut Table, order: u32) -> Option<u32>
    requires tiled { IsTiled table.old }
    requires order { order ≤ MAX_ORDER }
    ensures tiled { IsTiled table.new }
    ensures taken { TakesBlock (set_of table.old) order result (set_of table.new) }
{
    for larger in order..=MAX_ORDER {
        if let Some(start) = table.first_from(larger, 0) {
            table.remove(start, larger);
            put_rest(table, start, larger, order);
            return Some(start);
        }
    }
    None
}

/// The lowest block of at least this order that starts at or after a page.
fn lowest_from(table: &Table, order: u32, from: u32) -> Option<FreeBlock>
    ensures { IsLowestListed table.now order from result }
{
    let mut best: Option<FreeBlock> = None;
    for larger in order..=MAX_ORDER {
        if let Some(start) = table.first_from(larger, from) {
            let is_lower = match best {
                Some(block) => start < block.start,
                None => true,
            };
            if is_lower {
                best = Some(FreeBlock {
                    start,
                    order: larger,
                });
            }
        }
    }
    best
}

/// The order of the largest block that starts at one page and ends at or before another.
fn largest_order(start: u32, end: u32) -> u32
    requires { start < end }
    ensures bounded { result ≤ MAX_ORDER }
    ensures aligned { start % 2 ^ result ≡ 0 }
    ensures fits { start + 2 ^ result ≤ end }
    ensures largest { result < MAX_ORDER → start % 2 ^ (result + 1) ≡ 0 →
        end < start + 2 ^ (result + 1) }
{
    for order in 0..MAX_ORDER {
        let size = size_of(order + 1);
        if start % size != 0 || end - start < size {
            return order;
        }
    }
    MAX_ORDER
}

/// The areas, as a set of pages.
#[derive(Drop)]
pub struct Areas {
    /// The maximal blocks.
    table: Table,
    /// How many pages they have.
    count: u32,
}

impl Model for Areas {
    ghost use Rattle.std.specs.Prelude.{◌≡◌, List, Bool, count_by};
    ghost use Rattle.vb_pages.specs.Tiles.{set_of, IsTiled};

    ghost Value = { List Bool };

    ghost view = { λ a. set_of a.table };

    ghost invariant = { λ a. IsTiled a.table × (a.count ≡ count_by (λ f. f) (set_of a.table)) };
}

impl Areas {
    /// All of `pages` pages but the reserved ones, which are the first ones.
    pub fn new(alloc: Global, pages: u32, reserved: u32) -> Result<Self, AllocError>
        requires { pages ≤ MAX_PAGES }
        ensures { IfOk result (λ a. a ≡ unreserved pages reserved) }
    {
        let mut areas = Areas {
            table: Table::new(alloc, pages)?,
            count: 0,
        };
        areas.fill(pages, reserved);
        Ok(areas)
    }

    /// Puts all pages in but the reserved ones, as the largest blocks.
    fn fill(&mut self, pages: u32, reserved: u32)
        requires pages { pages ≡ length self.old }
        requires small { pages ≤ MAX_PAGES }
        requires empty { (page : ℕ) → has self.old page ≡ false }
        ensures { self.new ≡ unreserved pages reserved }
    {
        let mut page = reserved;
        while page < pages {
            let order = largest_order(page, pages);
            self.give(page, order);
            page += size_of(order);
        }
    }

    /// How many pages there are.
    pub fn count(&self) -> u32
        ensures { result ≡ count_by (λ f. f) self.now }
    {
        self.count
    }

    /// The maximal blocks of this order as bits.
    pub fn bits(&self, order: u32) -> &[u64]
        requires { order ≤ MAX_ORDER }
        ensures { AreBlockBits self.now order result.now }
    {
        self.table.bits(order)
    }

    /// Takes what a request of this order gets.
    pub fn take(&mut self, order: u32) -> Option<u32>
        requires { order ≤ MAX_ORDER }
        ensures { TakesBlock self.old order result self.new }
    {
        let start = take_block(&mut self.table, order)?;
        self.count -= size_of(order);
        Some(start)
    }

    /// Puts a block back.
    pub fn give(&mut self, start: u32, order: u32)
        requires block { IsBlock (block_at start order) }
        requires inside { start + 2 ^ order ≤ length self.old }
        requires outside { LiesOutside self.old (block_at start order) }
        ensures { self.new ≡ with_pages (pages_of (block_at start order)) self.old }
    {
        self.count += size_of(order);
        put_block(&mut self.table, start, order);
    }

    /// Takes the lowest maximal block of at least this order that starts at or after a page.
    pub fn isolate(&mut self, order: u32, from: u32) -> Option<FreeBlock>
        ensures { MatchOption result
            (((start larger : ℕ) → order ≤ larger → from ≤ start →
            IsMaximal self.old (block_at start larger) → ⊥) × (self.new ≡ self.old))
            (λ b. IsLowestFrom self.old order from (block_at b.start b.order) ×
            (self.new ≡ without_pages (pages_of (block_at b.start b.order)) self.old)) }
    {
        let block = lowest_from(&self.table, order, from)?;
        self.table.remove(block.start, block.order);
        self.count -= size_of(block.order);
        Some(block)
    }

    /// Puts all pages back in but the reserved ones.
    pub fn renew(&mut self, reserved: u32)
        requires { length self.old ≤ MAX_PAGES }
        ensures { self.new ≡ unreserved (length self.old) reserved }
    {
        self.table.clear();
        self.count = 0;
        let pages = self.table.pages();
        self.fill(pages, reserved);
    }
}

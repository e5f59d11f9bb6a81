//! Held blocks, by the page where they start.

ghost use Rattle.std.specs.Prelude.{◌≡◌, ◌+◌, ◌^◌, ◌≤◌, [], false, true, IfOk};
ghost use Rattle.std.specs.List.{list_any};
ghost use Rattle.vb_model.specs.Pages.{covers, is_same_block};
ghost use Rattle.vb_model.specs.Driver.{with_block, without_block};
ghost use Rattle.vb_pages.specs.Areas.{block_at, IsBlock};

use crate::block::size_of;
use crate::table::{MAX_PAGES, Table};
use std::alloc::{AllocError, Global};
use std::marker::Model;
use vb_virtio::limits::MAX_ORDER;

/// The held blocks.
#[derive(Drop)]
pub struct Held {
    /// The held blocks.
    table: Table,
}

impl Model for Held {
    ghost use Rattle.std.specs.Prelude.{length};
    ghost use Rattle.vb_pages.specs.Table.{AreBlocks};
    ghost use Rattle.vb_pages.specs.Held.{HeldBlocks, blocks_of};

    ghost Value = { HeldBlocks };

    ghost view = { λ h. record { pages = length h.table; blocks = blocks_of h.table } };

    ghost invariant = { λ h. AreBlocks h.table };
}

impl Held {
    /// No held blocks among `pages` pages.
    pub fn new(alloc: Global, pages: u32) -> Result<Self, AllocError>
        requires { pages ≤ MAX_PAGES }
        ensures { IfOk result (λ h. h ≡ record { pages = pages; blocks = [] }) }
    {
        Ok(Held {
            table: Table::new(alloc, pages)?,
        })
    }

    /// Whether just this block is held.
    pub fn holds(&self, start: u32, order: u32) -> bool
        requires { order ≤ MAX_ORDER }
        ensures { result ≡ list_any (λ h. is_same_block h (block_at start order)) self.now.blocks }
    {
        self.table.is_listed(start, order)
    }

    /// Whether the page lies in a held block.
    pub fn covers(&self, page: u32) -> bool
        ensures { result ≡ list_any (covers page) self.now.blocks }
    {
        for order in 0..=MAX_ORDER {
            let start = page - page % size_of(order);
            if self.table.is_listed(start, order) {
                return true;
            }
        }
        false
    }

    /// A block is held from now on.
    pub fn add(&mut self, start: u32, order: u32)
        requires block { IsBlock (block_at start order) }
        requires fits { start + 2 ^ order ≤ self.old.pages }
        requires outside { list_any (covers start) self.old.blocks ≡ false }
        ensures { self.new ≡
            record self.old { blocks = with_block (block_at start order) self.old.blocks } }
    {
        self.table.add(start, order);
    }

    /// A block is no longer held.
    pub fn remove(&mut self, start: u32, order: u32)
        requires { list_any (λ h. is_same_block h (block_at start order)) self.old.blocks ≡ true }
        ensures block { IsBlock (block_at start order) }
        ensures removed { self.new ≡
            record self.old { blocks = without_block (block_at start order) self.old.blocks } }
    {
        self.table.remove(start, order);
    }

    /// No block is held.
    pub fn clear(&mut self)
        ensures { self.new ≡ record self.old { blocks = [] } }
    {
        self.table.clear();
    }
}

//! Runs of pages and the pages of blocks, moved to a place.

ghost use Rattle.std.specs.Prelude.{◌≡◌, ◌≤◌, ◌<◌, ◌+◌, ◌-◌, ◌^◌, ◌||◌, ℕ, true, length, All};
ghost use Rattle.std.specs.List.{range_with_len};
ghost use Rattle.vb_bits.specs.Sets.{has};
ghost use Rattle.vb_virtio.specs.Tests.{is_in};
ghost use Rattle.vb_model.specs.Pages.{placed, place_of, pages_of, pages_of_all};
ghost use Rattle.vb_virtio.specs.Limits.{max_order, max_outstanding};
ghost use Rattle.vb_driver.specs.Answers.{block_at};
ghost use Rattle.vb_report.specs.Blocks.{blocks_of};
ghost use Rattle.vb_driver.specs.State.{IsAreaBlock};
ghost use Rattle.vb_driver.specs.Places.{number_of};

use crate::places::{PlaceTable, is_in_set, number_of};
use vb_model::Place;
use vb_pages::FreeBlock;

/// How many pages a block of the order has.
fn size_of(order: u32) -> u32
    requires { order ≤ max_order }
    ensures size { result ≡ 2 ^ order }
    ensures small { result ≤ 2 ^ max_order }
{
    1 << order
}

/// How many pages the blocks of a report have.
pub(crate) fn count_pages(blocks: &[FreeBlock]) -> u32
    requires orders { All IsAreaBlock (blocks_of blocks.now) }
    requires few { length blocks.now ≤ max_outstanding }
    ensures { result ≡ length (pages_of_all (blocks_of blocks.now)) }
{
    let mut pages = 0;
    for block in blocks {
        pages += size_of(block.order);
    }
    pages
}

/// The first page from `start` on, and before `end`, that isn't at this place, else `end`.
fn end_of_run(places: &[Place], start: u32, end: u32, place: Place) -> u32
    requires order { start ≤ end }
    requires inside { end ≤ length places.now }
    ensures from { start ≤ result }
    ensures bound { result ≤ end }
    ensures same { (page : ℕ) → start ≤ page → page < result → place_of places.now page ≡ place }
{
    for page in start..end {
        if places[page as usize] != place {
            return page;
        }
    }
    end
}

/// Puts a place into a table for the pages from `start` on and before `end`.
fn put_all(places: &mut [Place], start: u32, end: u32, place: Place)
    requires order { start ≤ end }
    requires inside { end ≤ length places.old }
    ensures { places.new ≡ placed (range_with_len start (end - start)) place places.old }
{
    for page in start..end {
        places[page as usize] = place;
    }
}

impl PlaceTable {
    /// Moves these pages to a place.
    pub(crate) fn set_all(&mut self, pages: &[u32], place: Place)
        requires { (page : ℕ) → is_in page pages.now ≡ true → page < length self.old }
        ensures { self.new ≡ placed pages.now place self.old }
    {
        for page in pages {
            self.set(*page, place);
        }
    }

    /// Moves the pages of a run to a place: from this page on those that are where it is, and none
    /// from `end` on. Answers where the run ends.
    fn move_run(&mut self, start: u32, end: u32, place: Place) -> u32
        requires some { start < end }
        requires inside { end ≤ length self.old }
        ensures further { start < result }
        ensures bound { result ≤ end }
        ensures moved { self.new ≡
            placed (range_with_len start (result - start)) place self.old }
    {
        let old = self.places[start as usize];
        if is_in_set(old) || is_in_set(place) {
            self.set(start, place);
            return start + 1;
        }
        let next = end_of_run(&self.places, start + 1, end, old);
        let count = next - start;
        self.counts[number_of(old)] -= count;
        self.counts[number_of(place)] += count;
        put_all(&mut self.places, start, next, place);
        next
    }

    /// Moves the pages from `start` on and before `end` to a place.
    pub(super) fn set_range(&mut self, start: u32, end: u32, place: Place)
        requires order { start ≤ end }
        requires inside { end ≤ length self.old }
        ensures { self.new ≡ placed (range_with_len start (end - start)) place self.old }
    {
        let mut page = start;
        while page < end {
            page = self.move_run(page, end, place);
        }
    }

    /// Moves the pages of a block to a place.
    pub(crate) fn set_block(&mut self, start: u32, order: u32, place: Place)
        requires order { order ≤ max_order }
        requires inside { start + 2 ^ order ≤ length self.old }
        ensures { self.new ≡ placed (pages_of (block_at start order)) place self.old }
    {
        // A no-op read: it gives the prover the table's invariant, as its number of pages.
        let _places = &self.places;
        self.set_range(start, start + size_of(order), place);
    }

    /// Moves the pages of these blocks to a place.
    pub(crate) fn set_blocks(&mut self, blocks: &[FreeBlock], place: Place)
        requires orders { All IsAreaBlock (blocks_of blocks.now) }
        requires inside { (page : ℕ) → is_in page (pages_of_all (blocks_of blocks.now)) ≡ true
            → page < length self.old }
        ensures { self.new ≡ placed (pages_of_all (blocks_of blocks.now)) place self.old }
    {
        for block in blocks {
            self.set_block(block.start, block.order, place);
        }
    }
}

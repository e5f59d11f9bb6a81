//! Blocks that leave the page allocator for a report, and come back after it.

ghost use Rattle.std.specs.Prelude.{◌≡◌, ℕ, ◌<◌, ◌≤◌, ◌&&◌, ◌||◌, not, Bool, [], length, map};
ghost use Rattle.std.specs.Prelude.{IsTrue, All};
ghost use Rattle.vb_virtio.specs.Limits.{max_outstanding};
ghost use Rattle.vb_virtio.specs.Tests.{is_in};
ghost use Rattle.vb_model.specs.Pages.{pages_of_all, reported, maximal_blocks};
ghost use Rattle.vb_virtio.specs.Tests.{AllDistinct};
ghost use Rattle.vb_pages.specs.declared.table.TheConstants.{MAX_PAGES};
ghost use Rattle.vb_pages.specs.FreePages.{drained};
ghost use Rattle.vb_pages.specs.PageState.{page_count, reserved_count, is_free_page};
ghost use Rattle.vb_pages.specs.PageState.{HasRoomIn};
ghost use Rattle.vb_report.specs.Blocks.{block_of, blocks_of, is_covered, blocks_to_report};
ghost use Rattle.vb_report.specs.Blocks.{without_blocks, with_blocks, HasOrder, HaveRoom};

use arrayvec::ArrayVec;
use vb_pages::{FreeBlock, Pages};
use vb_virtio::limits;

/// The blocks that one report names at most (profile).
pub const MAX_BLOCKS: usize = limits::MAX_OUTSTANDING as usize;

/// The blocks of a report, by rising start.
pub type Blocks = ArrayVec<FreeBlock, MAX_BLOCKS>;

/// Takes up to `room` blocks, each the lowest from the end of the one before it on, where all lists
/// are drained.
fn take_blocks(pages: &mut Pages, from: u32, room: u32) -> Blocks
    requires room { room ≤ max_outstanding }
    requires drained { drained pages.old.free ≡ pages.old.free }
    requires small { page_count pages.old ≤ MAX_PAGES }
    ensures chosen { (test : ℕ → Bool) → ((page : ℕ) → test page ≡ is_free_page pages.old page) →
        blocks_of result.items ≡ reported room from (maximal_blocks (page_count pages.old) test) }
    ensures taken { pages.new ≡ without_blocks result.items pages.old }
    ensures room { All (λ b. HasRoomIn pages.new (block_of b)) result.items }
{
    let mut blocks = Blocks::new();
    let mut next = from;
    for _count in 0..room {
        match pages.isolate(limits::MIN_REPORTED_ORDER, next) {
            Some(block) => {
                next = block.start + (1 << block.order);
                blocks.push(block);
            }
            None => return blocks,
        }
    }
    blocks
}

/// Takes the blocks of a report: all processors' lists are drained, and the first `room` maximal
/// free blocks (at most 16) leave the areas that have an order of at least 4 and start at page
/// `from` or after it, by rising start; fewer where there are fewer. No allocation gets a page of
/// them until they are given back.
pub fn choose(pages: &mut Pages, from: u32, room: u32) -> Blocks
    requires { room ≤ max_outstanding }
    // Which blocks, and in which order.
    ensures chosen { blocks_of result.items ≡ blocks_to_report pages.old from room }
    ensures count { length result.items ≤ room }

    // They leave the areas; but for that, and for the lists, nothing is changed.
    ensures taken { pages.new ≡ without_blocks result.items pages.old }
    ensures left { (page : ℕ) → is_free_page pages.new page ≡
        (is_free_page pages.old page && not (is_covered page result.items)) }
    ensures held { pages.new.held ≡ pages.old.held }
    ensures lists { pages.new.free.lists ≡ map (λ list. []) pages.old.free.lists }

    // Each of their pages is named once, and was free: it is there and isn't reserved.
    ensures distinct { AllDistinct (pages_of_all (blocks_of result.items)) }
    ensures pages { (page : ℕ) → IsTrue (is_in page (pages_of_all (blocks_of result.items))) →
        IsTrue (is_free_page pages.old page) × (reserved_count pages.old ≤ page) ×
        (page < page_count pages.old) }

    // They may be encoded, and be given back.
    ensures orders { All HasOrder result.items }
    ensures room { HaveRoom pages.new result.items }
{
    // A report of no block drains the lists as well.
    pages.drain();
    take_blocks(pages, from, room)
}

/// Gives blocks back to the areas that were taken from them, as by `choose`: none of their pages is
/// reserved, free or held, and none lies in two of the blocks.
pub fn give_all(pages: &mut Pages, blocks: &[FreeBlock])
    requires { HaveRoom pages.old blocks.now }
    ensures given { pages.new ≡ with_blocks blocks.now pages.old }
    ensures gained { (page : ℕ) → is_free_page pages.new page ≡
        (is_free_page pages.old page || is_covered page blocks.now) }
    ensures held { pages.new.held ≡ pages.old.held }
{
    for block in blocks {
        pages.give_block(block.start, block.order);
    }
}

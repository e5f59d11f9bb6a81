//! The guest's page areas, as the driver uses them.

ghost use Rattle.std.specs.Prelude.{◌≡◌, ◌<◌, ◌≤◌, ◌∷◌, [], ℕ, false, true, Ok, Err, IfOk};
ghost use Rattle.std.specs.Prelude.{OnOk, OnErr, IsTrue, length, not, nat_lt, nat_le};
ghost use Rattle.std.specs.Prelude.{count_by, slice_set, if◌then◌else◌, map, All, List};
ghost use Rattle.std.specs.List.{list_all};
ghost use Rattle.vb_virtio.specs.Tests.{is_in, pages_where};
ghost use Rattle.vb_model.specs.declared.places.Place.{Place};
ghost use Rattle.vb_model.specs.Pages.{pages_of, pages_of_all, place_of, is_free, is_reporting};
ghost use Rattle.vb_model.specs.Pages.{reported, maximal_free_blocks};
ghost use Rattle.vb_virtio.specs.Tests.{AllDistinct};
ghost use Rattle.vb_model.specs.Driver.{with_block, without_block};
ghost use Rattle.vb_virtio.specs.Limits.{max_order, max_outstanding, max_request_pages};
ghost use Rattle.vb_virtio.specs.Tests.{times};
ghost use Rattle.vb_virtio.specs.FirstRefusal.{◌⇒◌, first_refusal};
ghost use Rattle.vb_virtio.specs.declared.refusals.Refusal.TheVariants.{BadOrder, BadCpu, NoPages};
ghost use Rattle.vb_virtio.specs.declared.refusals.Refusal.TheVariants.{NotHeld};
ghost use Rattle.vb_pages.specs.PageState.{IsGuestSize, cpu_count, page_count, is_held_block};
ghost use Rattle.vb_pages.specs.PageState.{new_page_state, reserved_count};
ghost use Rattle.vb_pages.specs.PageState.{freed, with_free_block};
ghost use Rattle.vb_pages.specs.PageState.{TakesFree};
ghost use Rattle.vb_driver.specs.Answers.{refusal_in, block_at};
ghost use Rattle.vb_driver.specs.Areas.{AreApart, Becomes, Allots, flags_of, has_block, all_given};
ghost use Rattle.vb_driver.specs.Areas.{areas_with, areas_without};
ghost use Rattle.vb_report.specs.Blocks.{blocks_of};
ghost use Rattle.vb_driver.specs.State.{IsAreaBlock};
ghost use Rattle.vb_driver.specs.Areas.{is_free_at, is_covered, is_free_block, refusal_of};
ghost use Rattle.vb_driver.specs.Places.{marked};

use crate::places::{PlaceTable, is_reporting};
use crate::queue::RequestPages;
use std::alloc::{AllocError, Global};
use std::marker::Model;
use vb_model::Place;
use vb_pages::{FreeBlock, PageFault, Pages};
use vb_report::{Blocks, reports_name_free_places};
use vb_virtio::Refusal;

/// The page areas of a guest, with the lists of the processors and the blocks that allocations
/// hold. What the driver needs beside them is which pages are free, wherever they are.
#[derive(Drop)]
pub(crate) struct Allocator {
    /// The allocator.
    pages: Pages,
}

impl Model for Allocator {
    ghost use Rattle.vb_pages.specs.PageState.{PageState};

    ghost Value = { PageState };

    ghost view = { λ a. a.pages };
}

/// How the driver refuses what the allocator refuses.
fn refusal_of(fault: PageFault) -> Refusal
    ensures { result ≡ refusal_of fault }
{
    match fault {
        PageFault::BadOrder => Refusal::BadOrder,
        PageFault::BadCpu => Refusal::BadCpu,
        PageFault::NoPages => Refusal::NoPages,
        PageFault::NotHeld => Refusal::NotHeld,
    }
}

impl Allocator {
    /// The areas of a guest as it is plugged in, of whose pages the first `reserved` are reserved.
    pub(crate) fn new(
        alloc: Global,
        pages: u32,
        processors: u32,
        reserved: u32,
    ) -> Result<Self, AllocError>
        requires { IsGuestSize pages processors }
        ensures { IfOk result (λ areas. areas ≡ new_page_state pages processors reserved) }
    {
        Ok(Allocator {
            pages: Pages::new(alloc, pages, processors, reserved)?,
        })
    }

    /// All pages are free again but the reserved ones, and no block is held.
    pub(crate) fn renew(&mut self)
        ensures { self.new ≡ new_page_state
            (page_count self.old) (cpu_count self.old) (reserved_count self.old) }
    {
        self.pages.renew();
    }

    /// Allocates a block.
    pub(crate) fn alloc(&mut self, cpu: u32, order: u32) -> Result<u32, Refusal>
        ensures refusal { refusal_in result ≡ first_refusal (
            (nat_lt max_order order ⇒ BadOrder)
            ∷ (nat_le (cpu_count self.old) cpu ⇒ BadCpu)
            ∷ (not (has_block self.old order) ⇒ NoPages)
            ∷ []) }
        ensures refused { OnErr result
            (Becomes self.old self.new (flags_of self.old.free) self.old.held) }
        ensures free { IfOk result (λ start.
            IsTrue (is_free_block (flags_of self.old.free) (block_at start order))) }
        ensures state { IfOk result (λ start. Becomes self.old self.new
            (marked (pages_of (block_at start order)) false (flags_of self.old.free))
            (with_block (block_at start order) self.old.held)) }
        ensures areas { Allots self.old cpu order result self.new }
    {
        // A free page is one of the guest's pages.
        self.pages.pages_are_apart();
        match self.pages.alloc(cpu, order) {
            Ok(start) => Ok(start),
            Err(fault) => Err(refusal_of(fault)),
        }
    }

    /// Frees a block that an allocation holds.
    pub(crate) fn free(&mut self, cpu: u32, start: u32, order: u32) -> Result<(), Refusal>
        ensures refusal { refusal_in result ≡ first_refusal (
            (nat_lt max_order order ⇒ BadOrder)
            ∷ (nat_le (cpu_count self.old) cpu ⇒ BadCpu)
            ∷ (not (is_held_block self.old (block_at start order)) ⇒ NotHeld)
            ∷ []) }
        ensures refused { OnErr result (self.new ≡ self.old) }
        ensures state { OnOk result (Becomes self.old self.new
            (marked (pages_of (block_at start order)) true (flags_of self.old.free))
            (without_block (block_at start order) self.old.held)) }
        ensures areas { OnOk result (self.new ≡ freed cpu (block_at start order) self.old) }
        ensures apart { AreApart self.new }
    {
        let freed = self.pages.free(cpu, start, order);
        // No page is both free and in a held block.
        self.pages.pages_are_apart();
        match freed {
            Ok(()) => Ok(()),
            Err(fault) => Err(refusal_of(fault)),
        }
    }

    /// Takes `count` single free pages, and puts them in place of those that `taken` has; the lists
    /// of all processors are drained first.
    pub(crate) fn take_free(&mut self, count: u32, taken: &mut RequestPages)
        requires few { count ≤ max_request_pages }
        requires free { count ≤ count_by (λ f. f) (flags_of self.old.free) }
        ensures count { length taken.new.items ≡ count }
        ensures free { IsTrue (list_all (is_free_at (flags_of self.old.free)) taken.new.items) }
        ensures distinct { AllDistinct taken.new.items }
        ensures state { Becomes self.old self.new
            (marked taken.new.items false (flags_of self.old.free)) self.old.held }
        ensures areas { TakesFree self.old taken.new.items self.new }
    {
        // A free page is one of the guest's pages.
        self.pages.pages_are_apart();
        taken.clear();
        self.pages.take_free(count, taken);
    }

    /// Gives a page back that was taken.
    fn give_free(&mut self, page: u32)
        requires unreserved { reserved_count self.old ≤ page }
        requires inside { page < length (flags_of self.old.free) }
        requires taken { is_free_at (flags_of self.old.free) page ≡ false }
        requires uncovered { is_covered page self.old.held ≡ false }
        ensures state { Becomes self.old self.new
            (slice_set (flags_of self.old.free) page true) self.old.held }
        ensures areas { self.new ≡ with_free_block (block_at page 0) self.old }
    {
        self.pages.give_free(page);
    }

    /// Gives these pages back, which were taken and of which none is twice.
    pub(crate) fn give_all(&mut self, pages: &[u32])
        requires unreserved { (page : ℕ) → is_in page pages.now ≡ true
            → reserved_count self.old ≤ page }
        requires inside { (page : ℕ) → is_in page pages.now ≡ true
            → page < length (flags_of self.old.free) }
        requires taken { (page : ℕ) → is_in page pages.now ≡ true
            → is_free_at (flags_of self.old.free) page ≡ false }
        requires uncovered { (page : ℕ) → is_in page pages.now ≡ true
            → is_covered page self.old.held ≡ false }
        requires once { (page : ℕ) → times page pages.now ≤ 1 }
        ensures state { Becomes self.old self.new
            (marked pages.now true (flags_of self.old.free)) self.old.held }
        ensures areas { self.new ≡ all_given pages.now self.old }
    {
        for page in pages {
            self.give_free(*page);
        }
    }

    /// Takes the blocks of a report: the first maximal free ones of order 4 or more from a page on,
    /// at most `room`. The lists of all processors are drained first, where there is no such block
    /// too.
    pub(crate) fn choose(&mut self, from: u32, room: u32) -> Blocks
        requires { room ≤ max_outstanding }
        ensures chosen { (places : List Place) → flags_of self.old.free ≡ map is_free places
            → blocks_of result.items ≡ reported room from (maximal_free_blocks places) }
        ensures count { length result.items ≤ room }
        ensures blocks { All IsAreaBlock (blocks_of result.items) }
        ensures free { (page : ℕ) → is_in page (pages_of_all (blocks_of result.items)) ≡ true
            → is_free_at (flags_of self.old.free) page ≡ true }
        ensures distinct { AllDistinct (pages_of_all (blocks_of result.items)) }
        ensures state { Becomes self.old self.new
            (marked (pages_of_all (blocks_of result.items)) false (flags_of self.old.free))
            self.old.held }
        ensures areas { self.new ≡ record self.old {
          free = areas_without (pages_of_all (blocks_of result.items)) self.old.free;
        } }
    {
        // A free page is one of the guest's pages.
        self.pages.pages_are_apart();
        reports_name_free_places();
        vb_report::choose(&mut self.pages, from, room)
    }

    /// Gives blocks back that were taken, no two of which share a page.
    pub(crate) fn give_blocks(&mut self, blocks: &[FreeBlock])
        requires blocks { All IsAreaBlock (blocks_of blocks.now) }
        requires unreserved { (page : ℕ) → is_in page (pages_of_all (blocks_of blocks.now)) ≡ true
            → reserved_count self.old ≤ page }
        requires inside { (page : ℕ) → is_in page (pages_of_all (blocks_of blocks.now)) ≡ true
            → page < length (flags_of self.old.free) }
        requires taken { (page : ℕ) → is_in page (pages_of_all (blocks_of blocks.now)) ≡ true
            → is_free_at (flags_of self.old.free) page ≡ false }
        requires uncovered { (page : ℕ) → is_in page (pages_of_all (blocks_of blocks.now)) ≡ true
            → is_covered page self.old.held ≡ false }
        requires once { (page : ℕ) → times page (pages_of_all (blocks_of blocks.now)) ≤ 1 }
        ensures state { Becomes self.old self.new
            (marked (pages_of_all (blocks_of blocks.now)) true (flags_of self.old.free))
            self.old.held }
        ensures areas { self.new ≡ record self.old {
          free = areas_with (pages_of_all (blocks_of blocks.now)) self.old.free;
        } }
    {
        // A free page is one of the guest's pages.
        self.pages.pages_are_apart();
        vb_report::give_all(&mut self.pages, blocks);
    }

    /// Gives a page back if it is reported to the host.
    fn give_if_reported(&mut self, page: u32, place: Place)
        requires unreserved { is_reporting place ≡ true → reserved_count self.old ≤ page }
        requires inside { page < length (flags_of self.old.free) }
        requires taken { is_reporting place ≡ true
            → is_free_at (flags_of self.old.free) page ≡ false }
        requires uncovered { is_reporting place ≡ true → is_covered page self.old.held ≡ false }
        ensures state { Becomes self.old self.new
            (marked (if is_reporting place then page ∷ [] else []) true (flags_of self.old.free))
            self.old.held }
        ensures areas { self.new ≡ record self.old {
          free = areas_with (if is_reporting place then page ∷ [] else []) self.old.free;
        } }
    {
        if is_reporting(place) {
            self.give_free(page);
        }
    }

    /// Gives all pages back that are reported to the host.
    pub(crate) fn give_reported(&mut self, places: &PlaceTable)
        requires table { length places.now ≡ length (flags_of self.old.free) }
        requires unreserved { (page : ℕ) → is_reporting (place_of places.now page) ≡ true
            → reserved_count self.old ≤ page }
        requires taken { (page : ℕ) → is_reporting (place_of places.now page) ≡ true
            → is_free_at (flags_of self.old.free) page ≡ false }
        requires uncovered { (page : ℕ) → is_reporting (place_of places.now page) ≡ true
            → is_covered page self.old.held ≡ false }
        ensures state { Becomes self.old self.new
            (marked (pages_where is_reporting places.now) true (flags_of self.old.free))
            self.old.held }
        ensures areas { self.new ≡ record self.old {
          free = areas_with (pages_where is_reporting places.now) self.old.free;
        } }
    {
        if places.count(Place::Reporting) == 0 {
            return;
        }
        for page in 0..places.pages() {
            self.give_if_reported(page, places.place(page));
        }
    }
}

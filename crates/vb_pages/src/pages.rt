//! The calls of the page allocator.

ghost use Rattle.std.specs.Prelude.{◌≡◌, ℕ, ◌+◌, ◌<◌, ◌≤◌, ◌↔◌, ◌⊎◌, ◌==◌, ◌&&◌, ◌||◌, not};
ghost use Rattle.std.specs.Prelude.{[], length, map, Ok, Err, IfOk, OnOk, OnErr};
ghost use Rattle.std.specs.Prelude.{IfSome, IsTrue, count_by, false};
ghost use Rattle.vb_virtio.specs.Tests.{is_in, one_if};
ghost use Rattle.vb_model.specs.Pages.{covers};
ghost use Rattle.vb_model.specs.Driver.{with_block};
ghost use Rattle.vb_pages.specs.Areas.{block_at, IsBlock, AreBlockBits};
ghost use Rattle.vb_pages.specs.FreePages.{free_count, drained};
ghost use Rattle.vb_pages.specs.PageState.{PageState, page_count, cpu_count, is_free_page};
ghost use Rattle.vb_pages.specs.PageState.{reserved_count};
ghost use Rattle.vb_pages.specs.PageState.{is_held_page, is_held_block};
ghost use Rattle.vb_pages.specs.PageState.{new_page_state, IsWhollyFree, AllocatesBlock, freed};
ghost use Rattle.vb_pages.specs.PageState.{TakesFree, with_free_block, Isolates, IsApart};
ghost use Rattle.vb_pages.specs.PageState.{IsGuestSize, HasRoomIn};

use crate::free::{FreePages, REQUEST_PAGES};
use crate::held::Held;
use crate::{FreeBlock, MAX_PAGES, PageFault};
use arrayvec::ArrayVec;
use std::alloc::{AllocError, Global};
use std::marker::Model;
use vb_virtio::limits::{MAX_ORDER, MAX_REQUEST_PAGES};

/// The pages of a guest: free ones in the buddy areas and in a list for each processor, and held
/// blocks.
#[derive(Drop)]
pub struct Pages {
    /// The free pages.
    free: FreePages,
    /// The held blocks.
    held: Held,
}

impl Model for Pages {
    ghost use Rattle.vb_pages.specs.PageState.{PageState, IsKept};

    ghost Value = { PageState };

    ghost view = { λ p. record { free = p.free; held = p.held.blocks } };

    ghost invariant = { λ p. IsKept p.free p.held };
}

impl Pages {
    /// Pages for a guest of `pages`, at most 262,144, and of `cpus` processors, at most 4. The
    /// first `reserved` ones are never free; all others are. All memory is taken here, and an
    /// allocation failure is the only refusal.
    pub fn new(alloc: Global, pages: u32, cpus: u32, reserved: u32) -> Result<Self, AllocError>
        requires { IsGuestSize pages cpus }
        ensures { IfOk result (λ p. p ≡ new_page_state pages cpus reserved) }
    {
        Ok(Pages {
            free: FreePages::new(alloc, pages, cpus, reserved)?,
            held: Held::new(alloc, pages)?,
        })
    }

    /// Allocates 2^order pages on a processor, and answers where they start: BadOrder over order 9,
    /// BadCpu where there is no such processor, NoPages where no aligned block of the order is
    /// wholly free.
    pub fn alloc(&mut self, cpu: u32, order: u32) -> Result<u32, PageFault>
        // The refusals, in the order in which they are tested.
        ensures bad_order { (result ≡ Err PageFault.BadOrder) ↔ (MAX_ORDER < order) }
        ensures bad_cpu { (result ≡ Err PageFault.BadCpu) ↔
            ((order ≤ MAX_ORDER) × (cpu_count self.old ≤ cpu)) }
        ensures never { result ≡ Err PageFault.NotHeld → ⊥ }
        ensures unchanged { (MAX_ORDER < order) ⊎ (cpu_count self.old ≤ cpu) → self.new ≡ self.old }

        // Just what the rules give.
        ensures allocates { order ≤ MAX_ORDER → cpu < cpu_count self.old →
            AllocatesBlock self.old cpu order result self.new }

        // A block that is handed out was wholly free, and is held from now on.
        ensures was_free { IfOk result (λ start. IsBlock (block_at start order) ×
            IsWhollyFree self.old (block_at start order)) }
        ensures held { IfOk result (λ start. self.new.held ≡
            with_block (block_at start order) self.old.held) }
        ensures left { IfOk result (λ start. (page : ℕ) → is_free_page self.new page
            ≡ (is_free_page self.old page && not (covers page (block_at start order)))) }

        // No aligned block of the order was wholly free; every page is free or held as before.
        ensures none { result ≡ Err PageFault.NoPages → (start : ℕ) →
            IsBlock (block_at start order) → IsWhollyFree self.old (block_at start order) → ⊥ }
        ensures same { result ≡ Err PageFault.NoPages →
            ((page : ℕ) → is_free_page self.new page ≡ is_free_page self.old page) ×
            (self.new.held ≡ self.old.held) ×
            (self.new.free.lists ≡ map (λ list. []) self.old.free.lists) }
    {
        if order > MAX_ORDER {
            return Err(PageFault::BadOrder);
        }
        if cpu as usize >= self.free.cpus() {
            return Err(PageFault::BadCpu);
        }
        let Some(start) = self.free.take(cpu, order) else {
            return Err(PageFault::NoPages);
        };
        self.held.add(start, order);
        Ok(start)
    }

    /// Gives an allocation back: BadOrder over order 9, BadCpu where there is no such processor,
    /// NotHeld where just that block isn't held.
    pub fn free(&mut self, cpu: u32, start: u32, order: u32) -> Result<(), PageFault>
        // The refusals, in the order in which they are tested.
        ensures bad_order { (result ≡ Err PageFault.BadOrder) ↔ (MAX_ORDER < order) }
        ensures bad_cpu { (result ≡ Err PageFault.BadCpu) ↔
            ((order ≤ MAX_ORDER) × (cpu_count self.old ≤ cpu)) }
        ensures not_held { (result ≡ Err PageFault.NotHeld) ↔
            ((order ≤ MAX_ORDER) × (cpu < cpu_count self.old) ×
            (is_held_block self.old (block_at start order) ≡ false)) }
        ensures never { result ≡ Err PageFault.NoPages → ⊥ }
        ensures unchanged { OnErr result (self.new ≡ self.old) }

        // Just what the rules give.
        ensures freed { OnOk result (self.new ≡ freed cpu (block_at start order) self.old) }

        // The block is free from now on, and no longer held.
        ensures gained { OnOk result ((page : ℕ) → is_free_page self.new page
            ≡ (is_free_page self.old page || covers page (block_at start order))) }
    {
        if order > MAX_ORDER {
            return Err(PageFault::BadOrder);
        }
        if cpu as usize >= self.free.cpus() {
            return Err(PageFault::BadCpu);
        }
        if !self.held.holds(start, order) {
            return Err(PageFault::NotHeld);
        }
        self.held.remove(start, order);
        self.free.give(cpu, start, order);
        Ok(())
    }

    /// Whether the page lies in an allocation.
    pub fn held(&self, page: u32) -> bool
        ensures { result ≡ is_held_page self.now page }
    {
        self.held.covers(page)
    }

    /// Takes `count` single free pages, one after the other, once all lists were drained.
    pub fn take_free(&mut self, count: u32, out: &mut ArrayVec<u32, { REQUEST_PAGES }>)
        requires most { count ≤ MAX_REQUEST_PAGES }
        requires empty { out.old.items ≡ [] }
        requires enough { count ≤ free_count self.old.free }
        ensures taken { TakesFree self.old out.new.items self.new }
        ensures count { length out.new.items ≡ count }
        ensures room { (page : ℕ) → IsTrue (is_in page out.new.items) →
            HasRoomIn self.new (block_at page 0) }
        ensures left { (page : ℕ) →
            one_if (is_free_page self.new page) + count_by (λ p. p == page) out.new.items
            ≡ one_if (is_free_page self.old page) }
    {
        self.free.take_pages(count, out);
    }

    /// Puts a page back that was taken.
    pub fn give_free(&mut self, page: u32)
        requires { HasRoomIn self.old (block_at page 0) }
        ensures given { self.new ≡ with_free_block (block_at page 0) self.old }
        ensures gained { (p : ℕ) → is_free_page self.new p ≡
            (is_free_page self.old p || covers p (block_at page 0)) }
    {
        self.free.give_block(page, 0);
    }

    /// Puts a block back that was taken.
    pub fn give_block(&mut self, start: u32, order: u32)
        requires { HasRoomIn self.old (block_at start order) }
        ensures given { self.new ≡ with_free_block (block_at start order) self.old }
        ensures gained { (page : ℕ) → is_free_page self.new page ≡
            (is_free_page self.old page || covers page (block_at start order)) }
    {
        self.free.give_block(start, order);
    }

    /// Puts the pages of all processors' lists back into the areas, where they merge.
    pub fn drain(&mut self)
        ensures drained { self.new ≡ record self.old { free = drained self.old.free } }
        ensures same { (page : ℕ) → is_free_page self.new page ≡ is_free_page self.old page }
        ensures small { page_count self.old ≤ MAX_PAGES }
    {
        self.free.drain();
    }

    /// Takes the lowest maximal free block of at least this order that starts at or after a page,
    /// once all lists were drained.
    pub fn isolate(&mut self, order: u32, from: u32) -> Option<FreeBlock>
        ensures isolated { Isolates self.old order from result self.new }
        ensures room { IfSome result (λ b. HasRoomIn self.new (block_at b.start b.order)) }
        ensures left { IfSome result (λ b. (page : ℕ) → is_free_page self.new page
            ≡ (is_free_page self.old page && not (covers page (block_at b.start b.order)))) }
    {
        self.free.isolate(order, from)
    }

    /// How many pages are free, in the areas and in the lists.
    pub fn free_count(&self) -> u32
        ensures { result ≡ free_count self.now.free }
    {
        self.free.count()
    }

    /// The blocks of this order in the areas, which are the maximal free ones there, as bits: bit b
    /// of word w is 1 exactly if one starts at page (64 w + b) * 2^order. The words are the fewest
    /// that hold a bit for each block that the pages have room for, and at least one; further bits
    /// are 0. Takes no memory.
    pub fn bits(&self, order: u32) -> &[u64]
        requires { order ≤ MAX_ORDER }
        ensures { AreBlockBits self.now.free.areas order result.now }
    {
        self.free.bits(order)
    }

    /// Makes all pages free again but the reserved ones.
    pub fn renew(&mut self)
        ensures { self.new ≡
            new_page_state (page_count self.old) (cpu_count self.old) (reserved_count self.old) }
    {
        self.free.renew();
        self.held.clear();
    }

    /// A page is free at most once, or held at most once, and only if it isn't reserved.
    pub fn pages_are_apart(&self)
        ensures { IsApart self.now }
    {
        let _ = &self.held;
    }
}

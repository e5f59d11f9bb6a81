//! Free pages: the areas, and a list for each processor.

ghost use Rattle.std.specs.Prelude.{◌≡◌, ℕ, ◌+◌, ◌<◌, ◌≤◌, [], length};
ghost use Rattle.std.specs.Prelude.{map, ◌==◌, replicate, MatchOption, IfOk};
ghost use Rattle.std.specs.Prelude.{count_by, nat_lt};
ghost use Rattle.std.specs.List.{flat_map};
ghost use Rattle.vb_virtio.specs.Tests.{one_if};
ghost use Rattle.vb_model.specs.Pages.{pages_of};
ghost use Rattle.vb_pages.specs.Areas.{has, with_pages, without_pages, unreserved, block_at};
ghost use Rattle.vb_pages.specs.Areas.{IsMaximal, IsLowestFrom};
ghost use Rattle.vb_pages.specs.Areas.{AreBlockBits};
ghost use Rattle.vb_pages.specs.FreePages.{FreePages as Free, free_count, drained};
ghost use Rattle.vb_pages.specs.FreePages.{TakesPages, Tries, Serves, given_back, IsSoundFree};
ghost use Rattle.vb_pages.specs.FreePages.{HasRoomFor};

use crate::FreeBlock;
use crate::areas::Areas;
use crate::lists::PageList;
use crate::table::MAX_PAGES;
use arrayvec::ArrayVec;
use std::alloc::{AllocError, Global};
use std::marker::Model;
use vb_virtio::limits::{MAX_ORDER, MAX_PROCESSORS, MAX_REQUEST_PAGES};

/// Pages that one request names, as a capacity.
pub(crate) const REQUEST_PAGES: usize = MAX_REQUEST_PAGES as usize;

/// Puts the pages of all lists back into the areas.
fn drain_lists(areas: &mut Areas, lists: &mut [PageList])
    requires { (page : ℕ) →
        one_if (has areas.old page) + count_by (λ p. p == page)
        (flat_map (λ list. list) lists.old) ≤ one_if (nat_lt page (length areas.old)) }
    ensures areas { areas.new ≡ with_pages (flat_map (λ list. list) lists.old) areas.old }
    ensures count { count_by (λ f. f) areas.new ≡
        count_by (λ f. f) areas.old + length (flat_map (λ list. list) lists.old) }
    ensures lists { lists.new ≡ map (λ list. []) lists.old }
{
    for list in lists.iter_mut() {
        list.drain(areas);
    }
}

/// Takes `count` single pages, one after the other.
fn take_singles(areas: &mut Areas, count: u32, out: &mut ArrayVec<u32, { REQUEST_PAGES }>)
    requires most { count ≤ MAX_REQUEST_PAGES }
    requires empty { out.old.items ≡ [] }
    requires enough { count ≤ count_by (λ f. f) areas.old }
    ensures taken { TakesPages areas.old out.new.items areas.new }
    ensures count { length out.new.items ≡ count }
{
    for _count in 0..count {
        match areas.take(0) {
            Some(page) => out.push(page),
            None => unreachable!(),
        }
    }
}

/// The free pages.
#[derive(Drop)]
pub struct FreePages {
    /// The areas.
    areas: Areas,
    /// The list of each processor.
    lists: Vec<PageList>,
    /// How many of the first pages are never free.
    reserved: u32,
}

impl Model for FreePages {
    ghost use Rattle.vb_pages.specs.FreePages.{FreePages as Free, IsSoundFree};

    ghost Value = { Free };

    ghost view = { λ f. record {
      areas = f.areas;
      lists = f.lists.items;
      reserved = f.reserved;
    } };

    ghost invariant = { λ f. IsSoundFree (record {
      areas = f.areas;
      lists = f.lists.items;
      reserved = f.reserved;
    }) };
}

impl FreePages {
    /// All of `pages` pages but the reserved ones, with an empty list for each processor.
    pub fn new(alloc: Global, pages: u32, cpus: u32, reserved: u32) -> Result<Self, AllocError>
        requires pages { pages ≤ MAX_PAGES }
        requires cpus { cpus ≤ MAX_PROCESSORS }
        ensures { IfOk result (λ f. f ≡ record {
          areas = unreserved pages reserved;
          lists = replicate cpus [];
          reserved = reserved;
        }) }
    {
        let areas = Areas::new(alloc, pages, reserved)?;
        let mut lists = Vec::with_capacity(alloc, cpus as usize)?;
        for _cpu in 0..cpus {
            lists.push(PageList::new())?;
        }
        Ok(FreePages {
            areas,
            lists,
            reserved,
        })
    }

    /// How many processors there are.
    pub fn cpus(&self) -> usize
        ensures { result ≡ length self.now.lists }
    {
        self.lists.len()
    }

    /// The maximal blocks of this order in the areas as bits.
    pub fn bits(&self, order: u32) -> &[u64]
        requires { order ≤ MAX_ORDER }
        ensures { AreBlockBits self.now.areas order result.now }
    {
        self.areas.bits(order)
    }

    /// Puts all lists back into the areas.
    pub fn drain(&mut self)
        ensures sound { IsSoundFree self.old }
        ensures drained { self.new ≡ drained self.old }
        ensures count { count_by (λ f. f) self.new.areas ≡ free_count self.old }
    {
        drain_lists(&mut self.areas, &mut self.lists);
    }

    /// Takes a block as a request gets it, without draining.
    fn take_once(&mut self, cpu: u32, order: u32) -> Option<u32>
        requires cpu { cpu < length self.old.lists }
        requires order { order ≤ MAX_ORDER }
        ensures sound { IsSoundFree self.old }
        ensures tries { Tries self.old cpu order result self.new }
    {
        if order > 0 {
            return self.areas.take(order);
        }
        self.lists[cpu as usize].take(&mut self.areas)
    }

    /// Takes a block as a request gets it.
    pub fn take(&mut self, cpu: u32, order: u32) -> Option<u32>
        requires cpu { cpu < length self.old.lists }
        requires order { order ≤ MAX_ORDER }
        ensures sound { IsSoundFree self.old }
        ensures serves { Serves self.old cpu order result self.new }
    {
        if let Some(start) = self.take_once(cpu, order) {
            return Some(start);
        }
        self.drain();
        self.take_once(cpu, order)
    }

    /// Puts a block back.
    pub fn give(&mut self, cpu: u32, start: u32, order: u32)
        requires cpu { cpu < length self.old.lists }
        requires room { HasRoomFor self.old start order }
        ensures sound { IsSoundFree self.old }
        ensures given { self.new ≡ given_back cpu start order self.old }
    {
        if order > 0 {
            self.areas.give(start, order);
            return;
        }
        let list = &mut self.lists[cpu as usize];
        list.push(start);
        if list.is_full() {
            list.split_front().drain(&mut self.areas);
        }
    }

    /// Puts a block back into the areas.
    pub fn give_block(&mut self, start: u32, order: u32)
        requires { HasRoomFor self.old start order }
        ensures sound { IsSoundFree self.old }
        ensures given { self.new ≡ record self.old {
          areas = with_pages (pages_of (block_at start order)) self.old.areas;
        } }
    {
        self.areas.give(start, order);
    }

    /// Takes `count` single pages, one after the other, after all lists were drained.
    pub fn take_pages(&mut self, count: u32, out: &mut ArrayVec<u32, { REQUEST_PAGES }>)
        requires most { count ≤ MAX_REQUEST_PAGES }
        requires empty { out.old.items ≡ [] }
        requires enough { count ≤ free_count self.old }
        ensures sound { IsSoundFree self.old }
        ensures taken { TakesPages (drained self.old).areas out.new.items self.new.areas }
        ensures count { length out.new.items ≡ count }
        ensures lists { self.new.lists ≡ (drained self.old).lists }
        ensures reserved { self.new.reserved ≡ self.old.reserved }
    {
        self.drain();
        take_singles(&mut self.areas, count, out);
    }

    /// Takes the lowest maximal block of at least this order that starts at or after a page, after
    /// all lists were drained.
    pub fn isolate(&mut self, order: u32, from: u32) -> Option<FreeBlock>
        ensures sound { IsSoundFree self.old }
        ensures isolated { MatchOption result
            (((start larger : ℕ) → order ≤ larger → from ≤ start →
            IsMaximal (drained self.old).areas (block_at start larger) → ⊥) ×
            (self.new ≡ drained self.old))
            (λ b. IsLowestFrom (drained self.old).areas order from (block_at b.start b.order)
            × (self.new ≡ record (drained self.old) {
              areas = without_pages (pages_of (block_at b.start b.order)) (drained self.old).areas;
            })) }
    {
        self.drain();
        self.areas.isolate(order, from)
    }

    /// How many pages there are.
    pub fn count(&self) -> u32
        ensures { result ≡ free_count self.now }
    {
        let mut count = self.areas.count();
        for list in &self.lists {
            count += list.len();
        }
        count
    }

    /// Puts all pages back but the reserved ones.
    pub fn renew(&mut self)
        ensures { self.new ≡ record self.old {
          areas = unreserved (length self.old.areas) self.old.reserved;
          lists = map (λ list. []) self.old.lists;
        } }
    {
        self.areas.renew(self.reserved);
        for list in self.lists.iter_mut() {
            list.clear();
        }
    }
}

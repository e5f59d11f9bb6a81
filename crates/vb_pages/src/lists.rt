//! A processor's list of single pages.

ghost use Rattle.std.specs.Prelude.{◌≡◌, ℕ, ◌+◌, ◌<◌, ◌≤◌, ◌==◌, List, [], ◌∷◌, ◌++◌, length};
ghost use Rattle.std.specs.Prelude.{take, drop, MatchOption, count_by, nat_lt};
ghost use Rattle.vb_virtio.specs.Tests.{one_if};
ghost use Rattle.vb_pages.specs.Areas.{has, with_pages};
ghost use Rattle.vb_pages.specs.FreePages.{Refills, TakesSingle};

use crate::areas::Areas;
use arrayvec::ArrayVec;
use std::marker::Model;

/// How many pages a list may have between two calls, and one more.
pub const LIST_SIZE: usize = 16;

/// How many pages a refill takes, and how many a full list sends back.
pub const BATCH: usize = 8;

/// Single free pages: what was put in last comes out first.
#[derive(Drop)]
pub struct PageList {
    /// The pages, in the order in which they were put in.
    pages: ArrayVec<u32, { LIST_SIZE }>,
}

impl Model for PageList {
    ghost use Rattle.std.specs.Prelude.{ℕ, List};

    ghost Value = { List ℕ };

    ghost view = { λ l. l.pages.items };
}

impl PageList {
    pub fn new() -> Self
        ensures { result ≡ [] }
    {
        PageList {
            pages: ArrayVec::new(),
        }
    }

    pub fn is_empty(&self) -> bool
        ensures { result ≡ (length self.now == 0) }
    {
        self.pages.is_empty()
    }

    pub fn is_full(&self) -> bool
        ensures { result ≡ (length self.now == LIST_SIZE) }
    {
        self.pages.len() == LIST_SIZE
    }

    pub fn len(&self) -> u32
        ensures fits { length self.now ≤ LIST_SIZE }
        ensures len { result ≡ length self.now }
    {
        self.pages.len() as u32
    }

    /// Puts a page in.
    pub fn push(&mut self, page: u32)
        requires { length self.old < LIST_SIZE }
        ensures { self.new ≡ self.old ++ page ∷ [] }
    {
        self.pages.push(page);
    }

    /// Takes the page out that was put in last.
    pub fn pop(&mut self) -> Option<u32>
        ensures { MatchOption result
            ((self.old ≡ []) × (self.new ≡ self.old))
            (λ page. self.old ≡ self.new ++ page ∷ []) }
    {
        self.pages.pop()
    }

    /// Takes all pages out.
    pub fn clear(&mut self)
        ensures { self.new ≡ [] }
    {
        self.pages.clear();
    }

    /// Takes the pages out that were put in first.
    pub fn split_front(&mut self) -> PageList
        requires { BATCH ≤ length self.old }
        ensures front { result ≡ take BATCH self.old }
        ensures rest { self.new ≡ drop BATCH self.old }
    {
        let mut front = PageList::new();
        for _count in 0..BATCH {
            front.push(self.pages.remove(0));
        }
        front
    }

    /// Takes single pages from the areas, which come out of this empty list in rising order.
    pub fn refill(&mut self, areas: &mut Areas)
        requires { self.old ≡ [] }
        ensures { Refills areas.old self.new areas.new }
    {
        for _count in 0..BATCH {
            if let Some(page) = areas.take(0) {
                self.push(page);
            }
        }
        self.pages.sort_unstable();
        self.pages.reverse();
    }

    /// Takes the page out that was put in last, of an empty list after a refill.
    pub fn take(&mut self, areas: &mut Areas) -> Option<u32>
        ensures { TakesSingle areas.old self.old result areas.new self.new }
    {
        if self.is_empty() {
            self.refill(areas);
        }
        self.pop()
    }

    /// Puts all pages back into the areas.
    pub fn drain(&mut self, areas: &mut Areas)
        requires { (page : ℕ) → one_if (has areas.old page) + count_by (λ p. p == page) self.old ≤
            one_if (nat_lt page (length areas.old)) }
        ensures areas { areas.new ≡ with_pages self.old areas.old }
        ensures count { count_by (λ f. f) areas.new ≡
            count_by (λ f. f) areas.old + length self.old }
        ensures empty { self.new ≡ [] }
    {
        if let Some(page) = self.pop() {
            areas.give(page, 0);
            self.drain(areas);
        }
    }
}

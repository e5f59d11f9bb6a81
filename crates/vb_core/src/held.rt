//! The chains that a device holds: taken, and not given back until they are asked for.

ghost use Rattle.std.specs.Prelude.{◌≡◌, ◌+◌};
ghost use Rattle.vb_core.specs.Held.{nothing_held, held_of, held_pages, with_held, held_without};

use crate::Kind;

/// What a device holds: of each kind's queue at most one chain.
#[repr(C)]
#[derive(Clone, Copy, Debug)]
pub struct Held {
    /// 1 more than the head of the buffer of statistics that was taken, and waits until it is asked
    /// for; 0 where none does.
    pub statistics: u32,
    /// 1 more than the head of the deflate that waits until it is granted; none: 0.
    pub deflate: u32,
    /// How many pages that deflate names; 0 where none is held.
    pub pages: u32,
}

impl Held {
    /// Nothing is held.
    pub const NOTHING: Held = Held {
        statistics: 0,
        deflate: 0,
        pages: 0,
    };

    /// 1 more than the head of the chain that is held of a kind's queue; 0 where none is.
    pub fn of(&self, kind: Kind) -> u32
        ensures { result ≡ held_of kind self.now }
    {
        match kind {
            Kind::Statistics => self.statistics,
            Kind::Deflate => self.deflate,
            Kind::Inflate | Kind::Hint | Kind::Report => 0,
        }
    }

    /// How many pages the chain names that is held of a kind's queue: none, but a deflate's.
    pub fn pages_of(&self, kind: Kind) -> u32
        ensures { result ≡ held_pages kind self.now }
    {
        match kind {
            Kind::Deflate => self.pages,
            Kind::Inflate | Kind::Statistics | Kind::Hint | Kind::Report => 0,
        }
    }

    /// What is held once this is held of a kind's queue.
    fn set(&mut self, kind: Kind, held: u32, pages: u32)
        ensures { self.new ≡ with_held kind held pages self.old }
    {
        match kind {
            Kind::Statistics => self.statistics = held,
            Kind::Deflate => {
                self.deflate = held;
                self.pages = pages;
            }
            Kind::Inflate | Kind::Hint | Kind::Report => {}
        }
    }

    /// Holds the chain of this head of a kind's queue, which names `pages` pages, in place of what
    /// was held of it; chains of inflates, hints and reports aren't held.
    pub fn hold(&mut self, kind: Kind, head: u16, pages: u32)
        ensures { self.new ≡ with_held kind (head + 1) pages self.old }
    {
        self.set(kind, u32::from(head) + 1, pages);
    }

    /// Holds nothing of a kind's queue any longer.
    pub fn forget(&mut self, kind: Kind)
        ensures { self.new ≡ held_without kind self.old }
    {
        self.set(kind, 0, 0);
    }
}

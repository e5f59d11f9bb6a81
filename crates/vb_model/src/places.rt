//! Where the pages of a guest are.

ghost use Rattle.std.specs.Prelude.{◌≡◌, IfOk};

use std::alloc::{AllocError, Global};
use std::marker::Model;

/// Where a page of a guest is (profile). Each page has one place.
#[derive(Clone, Copy, Debug, PartialEq, Eq)]
pub enum Place {
    /// The page holds rings or buffers.
    Reserved,
    /// The page can be handed out.
    Free,
    /// An allocation holds it.
    Used,
    /// An inflate request that wasn't reaped yet names it.
    Giving,
    /// The host has it.
    Lent,
    /// A deflate request that wasn't reaped yet names it.
    Taking,
    /// The page was offered to the host or lent when the device was reset.
    Stranded,
    /// A report that wasn't reaped yet names it.
    Reporting,
}

/// How many pages each place has, the reserved ones aside.
#[derive(Clone, Copy, Debug, PartialEq, Eq)]
pub struct PlaceCounts {
    pub free: u32,
    pub used: u32,
    pub giving: u32,
    pub lent: u32,
    pub taking: u32,
    pub stranded: u32,
    pub reporting: u32,
}

/// A run of neighbouring pages, by its first and its last.
#[derive(Clone, Copy, Debug, PartialEq, Eq)]
pub struct PageRun {
    pub first: u32,
    pub last: u32,
}

/// A list of runs. A contract sees the list.
#[derive(Drop)]
pub struct PageRuns {
    items: Vec<PageRun>,
}

impl Model for PageRuns {
    ghost use Rattle.std.specs.Prelude.{List};
    ghost use Rattle.vb_model.specs.declared.places.PageRun.{PageRun};

    ghost Value = { List PageRun };

    ghost view = { λ runs. runs.items.items };
}

impl PageRuns {
    /// The list of these runs.
    pub fn new(items: Vec<PageRun>) -> PageRuns
        ensures { result ≡ items.items }
    {
        PageRuns { items }
    }

    /// The runs, to read.
    pub fn as_slice(&self) -> &[PageRun]
        ensures { result.now ≡ self.now }
    {
        &self.items
    }
    /// A copy of the list. Refused on an allocation failure alone.
    pub fn copy(&self, alloc: Global) -> Result<PageRuns, AllocError>
        ensures { IfOk result (λ copy. copy ≡ self.now) }
    {
        let mut items = Vec::new(alloc);
        items.extend_from_slice(&self.items)?;
        Ok(PageRuns { items })
    }
}

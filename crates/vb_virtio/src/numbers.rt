//! A list of numbers that takes no memory.

ghost use Rattle.std.specs.Prelude.{◌≡◌, IfOk};

use crate::limits::MAX_GUESTS;
use arrayvec::ArrayVec;
use std::alloc::AllocError;
use std::marker::Model;

/// As many numbers as there may be guests.
const GUESTS: usize = MAX_GUESTS as usize;

/// A number for each guest, at most eight: it is in place and takes no memory. A contract sees the
/// list.
#[derive(Drop)]
pub struct Numbers {
    items: ArrayVec<u32, GUESTS>,
}

impl Model for Numbers {
    ghost use Rattle.std.specs.Prelude.{List, ℕ};

    ghost Value = { List ℕ };

    ghost view = { λ numbers. numbers.items.items };
}

impl Numbers {
    /// Makes numbers of a list.
    pub fn new(items: ArrayVec<u32, GUESTS>) -> Numbers
        ensures { result ≡ items.items }
    {
        Numbers { items }
    }

    /// The numbers, to read.
    pub fn as_slice(&self) -> &[u32]
        ensures { result.now ≡ self.now }
    {
        &self.items
    }

    /// A copy of the numbers. Refused on an allocation failure alone.
    pub fn copy(&self) -> Result<Numbers, AllocError>
        ensures { IfOk result (λ copy. copy ≡ self.now) }
    {
        Ok(Numbers {
            items: self.items.clone()?,
        })
    }
}

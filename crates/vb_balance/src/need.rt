//! What guests have and can spare, and what they are asked to give.

ghost use Rattle.std.specs.Prelude.{◌≡◌, ◌-◌, ◌^◌, min};

use arrayvec::ArrayVec;
use std::marker::Model;
use vb_virtio::Numbers;
use vb_virtio::limits::MAX_GUESTS;

/// Guests that share a host, at most, as a capacity.
pub(crate) const GUESTS: usize = MAX_GUESTS as usize;

/// What a guest has, and what it can spare, in pages.
#[derive(Clone, Copy, Debug, Default, PartialEq, Eq)]
pub struct GuestNeed {
    /// Its pages.
    pub pages: u32,
    /// How many of them it can give.
    pub spare: u32,
}

impl Model for GuestNeed {
    ghost use Rattle.vb_virtio.specs.Targets.{Need};

    ghost Value = { Need };

    ghost view = { λ n. record { pages = n.pages; spare = n.spare } };

    ghost inverse = { λ n. record { pages = n.pages; spare = n.spare } };
}

/// A target for each guest, in pages, in the order of the needs.
#[derive(Drop)]
pub struct Targets {
    /// How many pages each gives.
    pub(crate) pages: ArrayVec<u32, GUESTS>,
}

impl Model for Targets {
    ghost use Rattle.std.specs.Prelude.{List, ℕ};

    ghost Value = { List ℕ };

    ghost view = { λ t. t.pages.items };
}

impl Targets {
    /// The targets, in the order of the needs.
    pub fn as_slice(&self) -> &[u32]
        ensures { result.now ≡ self.now }
    {
        self.pages.as_slice()
    }

    /// The targets as a reply has them.
    pub fn into_numbers(self) -> Numbers
        ensures { result ≡ self }
    {
        Numbers::new(self.pages)
    }
}

/// The guests cannot spare enough.
#[derive(Clone, Copy, Debug, PartialEq, Eq)]
pub struct Short {
    /// How many pages stay missing if all give what they can; at most `u64::MAX` is told.
    pub missing: u64,
}

impl Short {
    /// Short by n pages.
    pub(crate) fn by(missing: u128) -> Short
        ensures { result ≡ record { missing = min missing (2 ^ 64 - 1) } }
    {
        let most = u128::from(u64::MAX);
        Short {
            missing: missing.min(most) as u64,
        }
    }
}

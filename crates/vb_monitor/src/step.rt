//! What is to be done next, and what a notice remembers until it was done.

ghost use Rattle.std.specs.Prelude.{◌≡◌, ◌+◌, nat_le};
ghost use Rattle.vb_monitor.specs.declared.room.TheConstants.{MAX_BYTES};

use crate::{Cut, MAX_BYTES, Spot, UsedSpots};
use vb_core::{Denial, Named, UsedEntry};

/// How far the walk along a chain is.
#[derive(Clone, Copy, Debug)]
pub struct Walk {
    /// The number of the chain's first descriptor.
    pub head: u16,
    /// How many pieces are in the room for them.
    pub count: u16,
    /// One of them is the device's to write.
    pub writing: bool,
    /// The number of the first descriptor of the row that is copied.
    pub first: u16,
    /// How many descriptors are copied after it.
    pub further: u16,
}

/// A place in the pieces of a chain: what is before it was copied.
#[derive(Clone, Copy, Debug)]
pub struct Place {
    /// The number of the chain's first descriptor.
    pub head: u16,
    /// How many pieces it has.
    pub count: u16,
    /// The number of a piece.
    pub piece: usize,
    /// How many bytes of this piece were copied.
    pub done: u32,
}

/// What was named, and how far it is discarded.
#[derive(Clone, Copy, Debug)]
pub struct Discarding {
    /// How far the chain was copied.
    pub place: Place,
    /// What was named is a portion of the chain, of which more is copied then.
    pub further: bool,
    /// How many runs were named.
    pub runs: u32,
    /// The number of the run that is discarded.
    pub run: usize,
    /// The number of the region after the one in which it is.
    pub from: usize,
}

/// Whether `length` bytes have room after the first `into` ones.
#[inline(always)]
pub(crate) fn has_room(into: usize, length: u32) -> bool
    ensures { result ≡ nat_le (into + length) MAX_BYTES }
{
    into <= MAX_BYTES && length as usize <= MAX_BYTES - into
}

impl Discarding {
    /// The first `runs` runs are to be discarded, all of them.
    pub fn first(place: Place, further: bool, runs: u32) -> Discarding
        ensures { result ≡ record {
          place = place;
          further = further;
          runs = runs;
          run = 0;
          from = 0;
        } }
    {
        Discarding {
            place,
            further,
            runs,
            run: 0,
            from: 0,
        }
    }
}

/// What is to be done next. Each is given an answer, which is the word that was read, or anything.
#[derive(Clone, Copy, Debug)]
pub enum Phase {
    /// The word there is to be read: the available index.
    AwaitsIndex {
        at: Spot,
    },
    /// After an acquire fence the word there is to be read: the entry.
    AwaitsEntry {
        at: Spot,
    },
    /// The bytes of a row of descriptors are to be copied from there to the front of the bytes, 16
    /// of each.
    AwaitsDescriptor {
        at: Spot,
        walk: Walk,
    },
    /// `length` bytes are to be copied from there after the first `into` ones, which were copied:
    /// the part of a piece before this place.
    AwaitsPart {
        at: Spot,
        place: Place,
        into: usize,
        length: u32,
    },
    /// The monitor is to be told the pages of the first runs; more is copied of their chain then
    /// (`further`), or not.
    TellsPages {
        place: Place,
        named: Named,
        further: bool,
    },
    /// The VMM is to be told the first `count` figures.
    TellsFigures {
        head: u16,
        count: u32,
    },
    /// The VMM is to be told the id of hints that was read.
    TellsId {
        head: u16,
        id: u32,
    },
    /// As many pages were named as a notice may without a pause; more is copied of their chain once
    /// the caller goes on.
    Paused {
        place: Place,
    },
    /// The bytes there are to be discarded.
    Discards {
        cut: Cut,
        discarding: Discarding,
    },
    /// The two numbers of a used element are to be written, and after a release fence its index.
    GivesBack {
        spots: UsedSpots,
        entry: UsedEntry,
    },
    /// After a full fence the word there is to be read: the driver's flags.
    AwaitsFlags {
        at: Spot,
        why: Option<Denial>,
        more: bool,
    },
    /// Nothing: the outcome is this, with the tally.
    Ended {
        why: Option<Denial>,
        interrupt: bool,
        more: bool,
    },
}

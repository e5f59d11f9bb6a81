//! The rule over the words, and what each step tells.

ghost use Rattle.std.specs.Prelude.{◌++◌};
ghost use Rattle.vb_shared.specs.Rule.{Kept, view_of};
ghost use Rattle.vb_shared.specs.Steps.{opening_view, claimed, returned, met, no_view};
ghost use Rattle.vb_shared.specs.Steps.{first_of, rest_of};

use atomic_table::{Join, Play, Split, TableRule};
use std::collections::LinkedList;

/// A pass: its tag and its frames. No value of it is made.
pub struct Holding {
    /// Which guest's it is.
    pub tag: u32,
    /// The numbers of the frames that it holds.
    pub held: LinkedList<u32>,
}

/// The passes that a seat represents. No value of it is made.
pub struct View {
    /// One usually; none where the seat is spent.
    pub holdings: LinkedList<Holding>,
}

/// How many words there are, and how many passes.
#[derive(Clone, Copy)]
pub struct Size {
    /// Frames, a word each.
    pub frames: u32,
    /// Guests, a pass each.
    pub guests: u32,
}

/// A word is tag + 1 exactly where the pass with that tag holds the word's frame.
pub struct Frames;

impl TableRule<(), View, Size> for Frames {
    ghost holds = { Kept };

    ghost first = { λ size. opening_view size.guests };
}

/// A try at a word.
pub(crate) struct Claims;

impl Play<(), View> for Claims {
    ghost then = { claimed };
}

/// A put-back of a word.
pub(crate) struct Returns;

impl Play<(), View> for Returns {
    ghost then = { returned };
}

/// A look for two passes.
pub(crate) struct Meets;

impl Play<(), View> for Meets {
    ghost then = { met };
}

/// All passes go.
pub(crate) struct All;

impl Split<View> for All {
    ghost left = { λ v. no_view };

    ghost right = { λ v. v };
}

/// The first pass goes.
pub(crate) struct First;

impl Split<View> for First {
    ghost left = { λ v. view_of (rest_of v.holdings) };

    ghost right = { λ v. view_of (first_of v.holdings) };
}

/// The first pass stays.
pub(crate) struct Rest;

impl Split<View> for Rest {
    ghost left = { λ v. view_of (first_of v.holdings) };

    ghost right = { λ v. view_of (rest_of v.holdings) };
}

/// The passes of two seats.
pub(crate) struct Both;

impl Join<View> for Both {
    ghost both = { λ v w. view_of (v.holdings ++ w.holdings) };

    ghost spent = { no_view };
}

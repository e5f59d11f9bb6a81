//! The list of the parts that are discarded at once.

ghost use Rattle.std.specs.Prelude.{◌≡◌, ◌≤◌, ◌++◌, ◌∷◌, Some, take};
ghost use Rattle.vb_monitor.specs.declared.cuts.NextCut.{NextCut};
ghost use Rattle.vb_monitor.specs.declared.orders.TheConstants.{MAX_CUTS};
ghost use Rattle.vb_monitor.specs.Machine.{cuts_after};
ghost use Rattle.vb_monitor.specs.Orders.{cuts_left};

use crate::cuts::{NextCut, cut_after};
use crate::orders::MAX_CUTS;
use crate::{Cut, Region};
use vb_core::Run;

/// Parts that were put into a list.
#[derive(Clone, Copy, Debug)]
pub struct Filled {
    /// How many there are.
    pub count: u32,
    /// The part for which there was no room.
    pub left: Option<NextCut>,
}

/// Puts a part and those after it to the front of the list, as many as have room.
#[tactic(auto, using(crate::proofs::OrderLemmas::one_more))]
#[inline(always)]
pub fn fill(regions: &[Region], runs: &[Run], first: &NextCut, cuts: &mut [Cut; MAX_CUTS]) -> Filled
    ensures few { result.count ≤ MAX_CUTS }
    ensures full { (x : NextCut) → result.left ≡ Some x → result.count ≡ MAX_CUTS }
    ensures parts { first.now.cut ∷ cuts_after first.now.from first.now.run regions.now runs.now ≡
        take result.count cuts.new ++ cuts_left regions.now runs.now result.left }
{
    let mut found = *first;
    for number in 0..MAX_CUTS {
        cuts[number] = found.cut;
        match cut_after(regions, runs, found.run, found.from) {
            None => {
                return Filled {
                    count: number as u32 + 1,
                    left: None,
                };
            }
            Some(next) => found = next,
        }
    }
    Filled {
        count: MAX_CUTS as u32,
        left: Some(found),
    }
}

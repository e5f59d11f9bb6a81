//! Sharing out what is missing.

ghost use Rattle.std.specs.Prelude.{◌≡◌, ℕ, ◌*◌, ◌<◌, ◌≤◌, List, length, min};
ghost use Rattle.std.specs.Prelude.{MatchOption, MatchResult};
ghost use Rattle.vb_virtio.specs.Targets.{Need, AreTargets, missing, shortage};
ghost use Rattle.vb_balance.specs.Levels.{spared_from, AreGiven};

use crate::levels::{level_for, missing, spared, spared_above};
use crate::need::GUESTS;
use crate::{GuestNeed, Short, Targets};
use arrayvec::ArrayVec;
use vb_virtio::limits::MAX_GUESTS;

/// What a guest gives that can spare this much: all of it above the level, nothing below, and at
/// the level no more than is left.
fn asked(spare: u32, level: u32, left: u128) -> u32
    ensures above { level < spare → result ≡ spare }
    ensures below { spare < level → result ≡ 0 }
    ensures at_it { spare ≡ level → result ≡ min level left }
{
    if spare > level {
        spare
    } else if spare < level {
        0
    } else {
        u128::from(level).min(left) as u32
    }
}

/// Sets the targets by the level, with this much for those at the level; answers what is left of
/// it.
fn give(needs: &[GuestNeed], level: u32, rest: u128, targets: &mut [u32]) -> u128
    requires { length targets.old ≡ length needs.now }
    ensures { AreGiven needs.now level rest (length needs.now) targets.new result }
{
    let mut left = rest;
    for i in 0..needs.len() {
        let need = &needs[i];
        let pages = asked(need.spare, level, left);
        targets[i] = pages;
        if need.spare == level {
            left -= u128::from(pages);
        }
    }
    left
}

/// Sets targets where the guests can spare as much as they lack.
fn set_targets(needs: &[GuestNeed], lack: u128, targets: &mut [u32])
    requires one_each { length targets.old ≡ length needs.now }
    requires enough { lack ≤ spared_from needs.now 0 }
    ensures { (frames : ℕ) → lack ≡ missing needs.now frames →
        AreTargets needs.now frames targets.new }
{
    let level = level_for(needs, lack);
    let rest = lack - spared_above(needs, level);
    give(needs, level, rest, targets);
}

/// Sets targets, or answers how many pages stay missing if all give what they can.
fn share(needs: &[GuestNeed], frames: u32, targets: &mut [u32]) -> Option<u128>
    requires { length targets.old ≡ length needs.now }
    ensures { MatchOption result
        ((shortage needs.now frames ≡ 0) × AreTargets needs.now frames targets.new)
        (λ short. (0 < short) × (short ≡ shortage needs.now frames) ×
        (short ≤ 4294967295 * length needs.now) × (targets.new ≡ targets.old)) }
{
    let lack = missing(needs, frames);
    let spare = spared(needs);
    if lack > spare {
        return Some(lack - spare);
    }
    set_targets(needs, lack, targets);
    None
}

/// Targets for the guests with these needs, in rising guest number, so that this many frames
/// suffice: the pages that are missing are given by the guests of most spare first, and of these by
/// the lowest number first, by each at most its spare. Short where all spare pages together are too
/// few, with what stays missing then. There are at most 8 needs.
pub fn targets(needs: &[GuestNeed], frames: u32) -> Result<Targets, Short>
    requires { length needs.now ≤ MAX_GUESTS }
    ensures answer { MatchResult result
        (λ targets. (shortage needs.now frames ≡ 0) × AreTargets needs.now frames targets)
        (λ short. (0 < shortage needs.now frames) × (short.missing ≡ shortage needs.now frames)) }
{
    let mut pages: ArrayVec<u32, GUESTS> = ArrayVec::new();
    for _need in needs {
        pages.push(0);
    }
    match share(needs, frames, pages.as_mut_slice()) {
        None => Ok(Targets { pages }),
        Some(short) => Err(Short::by(short)),
    }
}

/// There is one answer: two lists of targets for the same needs and frames are the same.
pub fn targets_are_unique()
    ensures { (needs : List Need) (frames : ℕ) (one other : List ℕ) → AreTargets needs frames one →
        AreTargets needs frames other → one ≡ other }
{}

//! What guests have, can spare and lack together, and the level above which each gives all it can.

ghost use Rattle.std.specs.Prelude.{◌≡◌, ℕ, ◌+◌, ◌*◌, ◌<◌, ◌≤◌, length};
ghost use Rattle.vb_virtio.specs.Targets.{missing, spare_at};
ghost use Rattle.vb_balance.specs.Levels.{spare_from, spared_from, IsLevel};

use crate::GuestNeed;

/// How many pages more than frames there are.
pub(crate) fn missing(needs: &[GuestNeed], frames: u32) -> u128
    ensures value { result ≡ missing needs.now frames }
    ensures small { result ≤ 4294967295 * length needs.now }
{
    let mut pages: u128 = 0;
    for need in needs {
        pages += u128::from(need.pages);
    }
    pages.saturating_sub(u128::from(frames))
}

/// What a guest can spare, if it is above the level; else nothing.
fn spare_above(need: &GuestNeed, level: u32) -> u32
    ensures value { result ≡ spare_from (level + 1) need.now }
    ensures small { result ≤ 4294967295 }
{
    if need.spare > level { need.spare } else { 0 }
}

/// How many pages those guests can spare together that can each spare more than the level.
pub(crate) fn spared_above(needs: &[GuestNeed], level: u32) -> u128
    ensures { result ≡ spared_from needs.now (level + 1) }
{
    let mut pages: u128 = 0;
    for need in needs {
        pages += u128::from(spare_above(need, level));
    }
    pages
}

/// How many pages the guests can spare together.
pub(crate) fn spared(needs: &[GuestNeed]) -> u128
    ensures { result ≡ spared_from needs.now 0 }
{
    spared_above(needs, 0)
}

/// The most that a guest can spare.
fn most_spare(needs: &[GuestNeed]) -> u32
    ensures { (i : ℕ) → i < length needs.now → spare_at needs.now i ≤ result }
{
    let mut most = 0;
    for need in needs {
        most = need.spare.max(most);
    }
    most
}

/// The level above which each guest gives all that it can, where this much is missing.
pub(crate) fn level_for(needs: &[GuestNeed], lack: u128) -> u32
    requires { lack ≤ spared_from needs.now 0 }
    ensures { IsLevel needs.now lack result }
{
    let mut low = 0;
    let mut high = most_spare(needs);
    while low < high {
        let middle = low + (high - low) / 2;
        if spared_above(needs, middle) <= lack {
            high = middle;
        } else {
            low = middle + 1;
        }
    }
    low
}

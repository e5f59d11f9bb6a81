//! The parts of runs of pages, each within one region.

ghost use Rattle.std.specs.Prelude.{◌≡◌, ◌+◌, ◌<◌, ◌∷◌, [], true, drop, length, MatchOption};
ghost use Rattle.vb_monitor.specs.Regions.{cut_of, meets, cuts_from, cuts_of};
ghost use Rattle.vb_monitor.specs.Machine.{cuts_after};
ghost use Rattle.vb_monitor.specs.Left.{parts_left};
ghost use Rattle.vb_monitor.specs.declared.room.TheConstants.{MAX_RUNS};
ghost use Rattle.std.specs.Prelude.{◌≤◌, IfSome, ◌-◌, ◌*◌};

use crate::Region;
use crate::orders::MAX_CUTS;
use crate::regions::PAGE_BYTES;
use vb_core::Run;

/// Bytes of a run's pages that lie in one region.
#[repr(C)]
#[derive(Clone, Copy, Debug, PartialEq, Eq)]
pub struct Cut {
    /// The number of the region.
    pub region: usize,
    /// Where the bytes begin in the region.
    pub offset: u64,
    /// Where the bytes begin in the region's file.
    pub in_file: u64,
    /// How many bytes they are: whole pages.
    pub length: u64,
}

/// Whether a region has pages of a run.
#[inline(always)]
fn meets(region: &Region, run: Run) -> bool
    ensures { result ≡ meets region.now run }
{
    let run_end = PAGE_BYTES * (u64::from(run.first) + u64::from(run.count));
    if run_end <= region.guest || !region.is_possible() {
        return false;
    }
    let first = (region.guest / PAGE_BYTES).max(u64::from(run.first));
    let past = u64::from(run.first) + u64::from(run.count);
    let end = ((region.guest + region.length) / PAGE_BYTES).min(past);
    first < end
}

/// The bytes of a run's pages in a region that has some.
#[inline(always)]
fn cut_of(number: usize, region: &Region, run: Run) -> Cut
    requires { meets region.now run ≡ true }
    ensures { result ≡ cut_of number region.now run }
{
    let first = (region.guest / PAGE_BYTES).max(u64::from(run.first));
    let past = u64::from(run.first) + u64::from(run.count);
    let end = ((region.guest + region.length) / PAGE_BYTES).min(past);
    let offset = PAGE_BYTES * first - region.guest;
    Cut {
        region: number,
        offset,
        in_file: region.in_file + offset,
        length: PAGE_BYTES * (end - first),
    }
}

/// The next part of a run in the regions from this number on.
#[tactic(auto, using(crate::proofs::RegionLemmas::cut_steps))]
#[inline(always)]
pub(crate) fn next_cut(regions: &[Region], from: usize, run: Run) -> Option<Cut>
    ensures { MatchOption result (cuts_from from (drop from regions.now) run ≡ [])
        (λ cut. (cut.region < length regions.now) × (from ≤ cut.region) ×
        (cuts_from from (drop from regions.now) run ≡
        cut ∷ cuts_from (cut.region + 1) (drop (cut.region + 1) regions.now) run)) }
{
    for number in from..regions.len() {
        let region = &regions[number];
        if meets(region, run) {
            return Some(cut_of(number, region, run));
        }
    }
    None
}

/// A part of one of some runs.
#[derive(Clone, Copy, Debug)]
pub struct NextCut {
    /// The number of the run.
    pub run: usize,
    /// Its part in the first region that has one.
    pub cut: Cut,
    /// The number of the region after the one in which the part is.
    pub from: usize,
}

/// The first part of the runs from this number on.
#[tactic(auto, using(crate::proofs::RegionLemmas::run_steps))]
#[inline(always)]
pub(crate) fn first_cut(regions: &[Region], runs: &[Run], from: usize) -> Option<NextCut>
    ensures parts { MatchOption result (cuts_of regions.now (drop from runs.now) ≡ [])
        (λ x. cuts_of regions.now (drop from runs.now) ≡
        x.cut ∷ cuts_after x.from x.run regions.now runs.now) }
    ensures within { IfSome result (λ x. (from ≤ x.run) × (x.run < length runs.now) ×
        (1 ≤ x.from) × (x.from ≤ length regions.now)) }
{
    for run in from..runs.len() {
        if let Some(cut) = next_cut(regions, 0, runs[run]) {
            let from = cut.region + 1;
            return Some(NextCut { run, cut, from });
        }
    }
    None
}

/// The first part after those of a run in the regions below this number.
#[inline(always)]
pub(crate) fn cut_after(
    regions: &[Region],
    runs: &[Run],
    run: usize,
    from: usize,
) -> Option<NextCut>
    ensures parts { MatchOption result (cuts_after from run regions.now runs.now ≡ [])
        (λ x. cuts_after from run regions.now runs.now ≡
        x.cut ∷ cuts_after x.from x.run regions.now runs.now) }
    ensures fewer { length runs.now ≤ MAX_RUNS → IfSome result (λ x.
        parts_left (length regions.now) x.run x.from < parts_left (length regions.now) run from) }
{
    if run >= runs.len() {
        return None;
    }
    match next_cut(regions, from, runs[run]) {
        None => first_cut(regions, runs, run + 1),
        Some(cut) => {
            let from = cut.region + 1;
            Some(NextCut { run, cut, from })
        }
    }
}

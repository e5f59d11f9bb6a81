//! Pages as runs of neighbours.

ghost use Rattle.std.specs.Prelude.{◌≡◌, ℕ, ◌+◌, ◌<◌, ◌≤◌, ◌==◌, ◌++◌, ◌∷◌, [], true, false, List};
ghost use Rattle.std.specs.Prelude.{Some, length, take};
ghost use Rattle.vb_core.specs.Runs.{Tell, one_page};
ghost use Rattle.vb_core.specs.RunEnds.{AreEndsOf, AreEnds};

/// Pages whose numbers rise by one.
#[repr(C)]
#[derive(Clone, Copy, Debug, PartialEq, Eq)]
pub struct Run {
    /// The first of them.
    pub first: u32,
    /// How many they are.
    pub count: u32,
}

impl Run {
    /// No pages.
    pub const NONE: Run = Run { first: 0, count: 0 };
}

/// The pages that join the last one of some runs.
#[derive(Clone, Copy, Debug)]
pub(crate) struct Ends {
    /// The page that follows it. Past all pages where there is no run.
    behind: u64,
    /// The page right before it. Past all pages where there is none.
    before: u64,
}

impl Ends {
    /// Those of no runs.
    pub(crate) const NONE: Ends = Ends {
        behind: u64::MAX,
        before: u64::MAX,
    };

    /// Those of runs whose last one is one page.
    #[inline(always)]
    fn of_page(page: u32) -> Ends
        ensures { AreEndsOf result (one_page page) }
    {
        let number = u64::from(page);
        Ends {
            behind: number + 1,
            before: number.wrapping_sub(1),
        }
    }
}

/// Takes a page into the last of the first `used` runs, where it joins that one; says whether.
#[inline(always)]
fn join_last(runs: &mut [Run], used: usize, ends: &mut Ends, page: u32) -> bool
    requires room { used ≤ length runs.old }
    requires ends { AreEnds ends.old used runs.old }
    ensures joined { result ≡ true → (ns : List ℕ) → length ns < 4294967295 →
        Tell (take used runs.old) ns →
        Tell (take used runs.new) (ns ++ page ∷ []) × AreEnds ends.new used runs.new }
    ensures apart { result ≡ false → (ns : List ℕ) → Tell (take used runs.old) ns →
        Tell (take used runs.old ++ one_page page ∷ []) (ns ++ page ∷ []) }
    ensures same { result ≡ false → runs.new ≡ runs.old }
{
    let number = u64::from(page);
    if ends.behind == number {
        let last = &mut runs[used - 1];
        last.count = last.count.wrapping_add(1);
        ends.behind += 1;
        return true;
    }
    if ends.before == number {
        let last = &mut runs[used - 1];
        *last = Run {
            first: page,
            count: last.count.wrapping_add(1),
        };
        ends.before = number.wrapping_sub(1);
        return true;
    }
    false
}

/// Puts a page after those of the first `used` runs: into the last of them where it joins that one,
/// and else into a run of its own. Answers how many runs are used then.
#[inline(always)]
pub(crate) fn add_page(runs: &mut [Run], used: usize, ends: &mut Ends, page: u32) -> usize
    requires room { used < length runs.old }
    requires ends { AreEnds ends.old used runs.old }
    ensures told { (ns : List ℕ) → length ns < 4294967295 → Tell (take used runs.old) ns →
        Tell (take result runs.new) (ns ++ page ∷ []) × AreEnds ends.new result runs.new }
    ensures few { result ≤ used + 1 }
{
    if join_last(runs, used, ends, page) {
        return used;
    }
    runs[used] = Run {
        first: page,
        count: 1,
    };
    *ends = Ends::of_page(page);
    used + 1
}

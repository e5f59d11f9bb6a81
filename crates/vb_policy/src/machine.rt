//! How much guests may hold on a machine that has other work as well.

ghost use Rattle.std.specs.Prelude.{◌≡◌};
ghost use Rattle.vb_policy.specs.Following.{budget_after, lowest, possible, wanted};

/// A machine whose guests' budget follows what its other work leaves. All are pages.
#[repr(C)]
#[derive(Clone, Copy, Debug, Default, PartialEq, Eq)]
pub struct Machine {
    /// The budget so far.
    pub budget: u32,
    /// The most that the budget may be.
    pub most: u32,
    /// The least that it may be, where the most isn't below that.
    pub least: u32,
    /// What is to stay available to all else.
    pub keep: u32,
    /// What the guests hold.
    pub held: u32,
    /// What is available.
    pub available: u32,
    /// The most by which the budget rises at once.
    pub step: u32,
    /// Unless 0, the machine's own work waits for memory.
    pub pressed: u32,
}

impl Machine {
    /// The least that the budget may be.
    fn lowest(&self) -> u32
        ensures { result ≡ lowest self.now }
    {
        self.least.min(self.most)
    }

    /// What guests may hold so that enough stays available; less than the budget while the
    /// machine's own work waits.
    fn possible(&self) -> u64
        ensures { result ≡ possible self.now }
    {
        let both = u64::from(self.held) + u64::from(self.available);
        let left = both.saturating_sub(u64::from(self.keep));
        if self.pressed > 0 {
            left.min(u64::from(self.budget.saturating_sub(self.step)))
        } else {
            left
        }
    }

    /// That, within the bounds.
    fn wanted(&self) -> u32
        ensures { result ≡ wanted self.now }
    {
        self.possible().min(u64::from(self.most)) as u32
    }

    /// The budget from now on.
    pub fn budget_after(&self) -> u32
        ensures { result ≡ budget_after self.now }
    {
        let wanted = self.wanted();
        let next = self.budget.saturating_add(self.step);
        let budget = if wanted < self.budget || wanted == self.most {
            wanted.min(next)
        } else if next <= wanted {
            next
        } else {
            self.budget
        };
        budget.max(self.lowest())
    }
}

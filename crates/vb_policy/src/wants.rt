//! What a guest that waits takes in the end.

ghost use Rattle.std.specs.Prelude.{◌≡◌};
ghost use Rattle.vb_policy.specs.Needs.{uses, wants};

use crate::{Budget, Figures};

impl Figures {
    /// What it has in the end where it may: its memory but for what it can give by its own word,
    /// and no more than its most pages.
    fn uses(&self, budget: &Budget) -> u32
        ensures { result ≡ uses budget.now self.now }
    {
        let can = self.tells(false, budget.floor, self.available);
        self.pages.saturating_sub(can).min(self.most)
    }

    /// What a guest that waits takes in the end beyond what is lent to it: at least what it asks
    /// for.
    pub fn wants(&self, budget: &Budget) -> u32
        ensures { result ≡ wants budget.now self.now }
    {
        if self.waits() {
            self.asked.max(self.uses(budget).saturating_sub(self.lent))
        } else {
            0
        }
    }
}

//! The least budget with which all that wait proceed.

ghost use Rattle.std.specs.Prelude.{◌≡◌, ◌*◌, ◌≤◌, length};
ghost use Rattle.vb_host.specs.Least.{LeastBudgetSuffices, LessDoesNot, final_loan, least_budget};

use crate::Seat;

impl Seat {
    /// What is lent to it in the end: with what it waits for, or once it has done what is wanted
    /// of it.
    #[tactic(auto, using(crate::proofs::Proceeding::final_loans))]
    fn final_loan(&self) -> u64
        ensures value { result ≡ final_loan self.now }
        ensures small { result ≤ 8589934590 }
    {
        if self.waits() {
            self.lent_then()
        } else if self.is_uncounted() {
            self.lent()
        } else {
            self.lent_but(self.wanted.max(self.reclaimed()))
        }
    }
}

/// The least budget with which all that wait proceed, once those that don't have done what is
/// wanted of them.
pub fn least_budget(seats: &[Seat]) -> u128
    ensures value { result ≡ least_budget seats.now }
    ensures small { result ≤ 8589934590 * length seats.now }
{
    let mut pages: u128 = 0;
    for seat in seats {
        pages += u128::from(seat.final_loan());
    }
    pages
}

/// With that budget nobody that waits now waits after a round; with one page less somebody does.
pub fn the_least_budget_suffices()
    ensures suffices { LeastBudgetSuffices }
    ensures least { LessDoesNot }
{}

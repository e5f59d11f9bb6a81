//! The lowest pages of a place that is kept as a set.

ghost use Rattle.std.specs.Prelude.{◌≡◌, ◌≤◌, ◌+◌, ◌-◌, length, take};
ghost use Rattle.vb_bits.specs.Sets.{has};
ghost use Rattle.vb_virtio.specs.Tests.{pages_where};
ghost use Rattle.vb_model.specs.Pages.{placed, is_lent, is_stranded};
ghost use Rattle.vb_model.specs.declared.places.Place.TheVariants.{Taking};
ghost use Rattle.vb_virtio.specs.Limits.{max_request_pages};
ghost use Rattle.vb_virtio.specs.declared.limits.TheConstants.{MAX_GUEST_PAGES};
ghost use Rattle.vb_driver.specs.Places.{AreLentBits};

use crate::places::PlaceTable;
use crate::queue::RequestPages;
use vb_bits::BitSet;
use vb_model::Place;

/// Puts the lowest pages of a set, at most `most`, in place of those that `lowest` has.
fn lowest_in(set: &BitSet, most: u32, lowest: &mut RequestPages)
    requires few { most ≤ max_request_pages }
    requires small { length set.now ≤ MAX_GUEST_PAGES }
    ensures { lowest.new.items ≡ take most (pages_where (λ b. b) set.now) }
{
    lowest.clear();
    let mut from = 0;
    for _found in 0..most {
        match set.first_from(from) {
            Some(page) => {
                lowest.push(page);
                from = page + 1;
            }
            None => return,
        }
    }
}

impl PlaceTable {
    /// Puts the lowest lent pages, at most `most`, in place of those that `pages` has.
    pub(crate) fn lowest_lent(&self, most: u32, pages: &mut RequestPages)
        requires { most ≤ max_request_pages }
        ensures { pages.new.items ≡ take most (pages_where is_lent self.now) }
    {
        lowest_in(&self.lent, most, pages);
    }

    /// Moves `most` of the lowest lent pages to where pages are that were requested back, and puts
    /// them in place of those that `pages` has.
    pub(crate) fn take_lowest_lent(&mut self, most: u32, pages: &mut RequestPages)
        requires { most ≤ max_request_pages }
        ensures pages { pages.new.items ≡ take most (pages_where is_lent self.old) }
        ensures moved { self.new
            ≡ placed (take most (pages_where is_lent self.old)) Taking self.old }
    {
        self.lowest_lent(most, pages);
        self.set_all(pages, Place::Taking);
    }

    /// Puts the lowest stranded pages, at most `most`, in place of those that `pages` has.
    pub(crate) fn lowest_stranded(&self, most: u32, pages: &mut RequestPages)
        requires { most ≤ max_request_pages }
        ensures { pages.new.items ≡ take most (pages_where is_stranded self.now) }
    {
        lowest_in(&self.stranded, most, pages);
    }

    /// The lent pages as bits.
    pub(crate) fn lent_bits(&self) -> &[u64]
        ensures { AreLentBits self.now result.now }
    {
        self.lent.words()
    }
}

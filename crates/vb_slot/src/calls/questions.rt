//! The questions about a guest.

ghost use Rattle.std.specs.Prelude.{◌≡◌, ◌≤◌, length, count_by, IfOk};
ghost use Rattle.vb_model.specs.declared.replies.Reply.TheVariants.{Places, Backing};
ghost use Rattle.vb_model.specs.Balance.{spare};
ghost use Rattle.vb_model.specs.Queries.{is_place, runs};
ghost use Rattle.vb_virtio.specs.Tests.{pages_where};
ghost use Rattle.vb_driver.specs.Calls.{AreCountsOf};
ghost use Rattle.vb_guest.specs.Replies.{runs_reply, balloon_reply, statistics_reply};
ghost use Rattle.vb_slot.specs.Slots.{claims_of, memory_of, part_of, driver_of, HasGuest};
ghost use Rattle.vb_slot.specs.Slots.{OfItsGuest, SlotAnswers};

use crate::slot::Slot;
use std::alloc::{AllocError, Global};
use vb_device::{Device, Statistics};
use vb_guest::MAX_CLAIMS;
use vb_model::{BalloonState, Claim, PageRuns, Place, PlaceCounts, Query};

impl Slot {
    /// How many pages the guest has.
    pub fn pages(&self) -> u32
        ensures answer { OfItsGuest mem part self.now (λ g. result ≡ g.config.pages) }
        ensures exact { result ≡ length (memory_of mem self.now) }
    {
        vb_guest::pages(&self.device)
    }

    /// How many pages the guest can spare (profile): those that are ballooned, and those that its
    /// last statistics call free above the floor, in pages; at most all unreserved ones.
    pub fn spare(&self, floor: u32) -> u32
        requires { HasGuest mem part self.now }
        ensures { OfItsGuest mem part self.now (λ g. result ≡ spare floor g) }
    {
        vb_guest::spare(&self.driver, &self.device, floor)
    }

    /// What the claims of the last call were answered, in order; none where it made none. A call
    /// makes `MAX_CLAIMS` at the most.
    pub fn claimed(&self) -> &[Claim]
        ensures claims { result.now ≡ claims_of self.now }
        ensures few { length result.now ≤ MAX_CLAIMS }
    {
        self.claims.as_slice()
    }

    /// How many pages each place has.
    pub fn places(&self) -> PlaceCounts
        ensures answer { SlotAnswers mem part self.now (Query.Places) (Places result) }
        ensures counts { AreCountsOf result (driver_of self.now).places }
    {
        vb_guest::places(&self.driver)
    }

    /// Which pages are at a place, as runs by rising page. An allocation failure is the only
    /// refusal.
    pub fn pages_at(&self, alloc: Global, place: Place) -> Result<PageRuns, AllocError>
        ensures answer { SlotAnswers mem part self.now (Query.PagesAt place) (runs_reply result) }
        ensures exact { IfOk result
            (λ found. found ≡ runs (pages_where (is_place place) (driver_of self.now).places)) }
    {
        vb_guest::pages_at(alloc, &self.driver, place)
    }

    /// Which pages the device holds to be ballooned, as runs by rising page. An allocation failure
    /// is the only refusal.
    pub fn pages_ballooned(&self, alloc: Global) -> Result<PageRuns, AllocError>
        requires { HasGuest mem part self.now }
        ensures answer { SlotAnswers mem part self.now (Query.PagesBallooned) (runs_reply result) }
    {
        vb_guest::pages_ballooned(alloc, &self.device)
    }

    /// The count of ballooned pages, the configuration's two numbers (VIRTIO 1.1, 5.5.4) and the
    /// status.
    pub fn balloon(&self) -> BalloonState
        ensures answer { SlotAnswers mem part self.now (Query.Balloon) (balloon_reply result) }
        ensures ballooned { result.ballooned
            ≡ count_by (λ flag. flag) (part_of part self.now).ballooned }
        ensures actual { result.actual ≡ (driver_of self.now).actual }
        ensures target { result.target ≡ (part_of part self.now).target }
        ensures status { result.status ≡ (part_of part self.now).status }
    {
        vb_guest::balloon(&self.driver, &self.device)
    }

    /// What the last buffer of statistics that the device read said, in bytes (VIRTIO 1.1,
    /// 5.5.6.4).
    pub fn statistics(&self) -> Statistics
        ensures answer { SlotAnswers mem part self.now (Query.Memory) (statistics_reply result) }
        ensures free { result.free ≡ (part_of part self.now).last.free }
        ensures total { result.total ≡ (part_of part self.now).last.total }
    {
        vb_guest::statistics(&self.device)
    }

    /// The number of the frame that backs a page; none where it has none, or isn't there.
    pub fn backing(&self, page: u32) -> Option<u32>
        ensures answer { SlotAnswers mem part self.now (Query.Backing page) (Backing result) }
    {
        self.device.backing(page)
    }
}

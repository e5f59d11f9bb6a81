//! The interface that a thread runner needs from a guest.

ghost use Rattle.std.specs.Prelude.{◌≡◌, ◌≤◌, length};
ghost use Rattle.vb_model.specs.Balance.{spare};
ghost use Rattle.vb_model.specs.Guest.{frame_of};
ghost use Rattle.vb_slot.specs.Alone.{StepsTo, AreBehind};

use std::alloc::Global;
use vb_guest::MAX_CLAIMS;
use vb_model::{Call, Claim, Reply};

/// A guest by itself, with the frames of its own device: the interface that a thread runner needs
/// from a guest.
pub trait GuestSlot: Drop {
    ghost use Rattle.std.specs.Prelude.{ℕ, List};
    ghost use Rattle.vb_model.specs.declared.calls.Claim.{Claim};
    ghost use Rattle.vb_model.specs.Guest.{Guest};

    /// The slot represents this guest.
    ghost stands: { Self → Guest → Type 0 };

    /// The numbers of its device's own frames that are out.
    ghost own: { Self → List ℕ };

    /// What the claims of the last call were answered, in order.
    ghost claimed: { Self → List Claim };

    /// Answers a call on the guest.
    fn call(&mut self, alloc: Global, call: &Call) -> Reply
        requires stands { (g : Guest) × stands self.old g }
        ensures step { (g : Guest) → stands self.old g
            → StepsTo (stands self.new) (claimed self.new) g call.now result }
        ensures frames { (g : Guest) → stands self.new g → AreBehind (own self.new) g };

    /// What the claims of the last call were answered, in order; none where it made none. A call
    /// makes `MAX_CLAIMS` at the most.
    fn claims(&self) -> &[Claim]
        ensures claims { result.now ≡ claimed self.now }
        ensures few { length result.now ≤ MAX_CLAIMS };

    /// How many pages the guest has.
    fn pages(&self) -> u32
        ensures pages { (g : Guest) → stands self.now g → result ≡ g.config.pages }
        ensures frames { (g : Guest) → stands self.now g → length g.frames ≡ result };

    /// How many pages the guest can spare (profile): those that are ballooned, and those that its
    /// last statistics call free above the floor, in pages; at most all unreserved ones.
    fn spare(&self, floor: u32) -> u32
        requires { (g : Guest) × stands self.now g }
        ensures { (g : Guest) → stands self.now g → result ≡ spare floor g };

    /// The number of the frame that backs a page; none where it has none, or isn't there.
    fn backing(&self, page: u32) -> Option<u32>
        ensures { (g : Guest) → stands self.now g → result ≡ frame_of g.frames page };
}

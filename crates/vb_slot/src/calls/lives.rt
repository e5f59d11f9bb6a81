//! A guest's life begins anew, or ends.

ghost use Rattle.std.specs.Prelude.{◌≡◌, None, [], length, replicate, true};
ghost use Rattle.vb_driver.specs.State.{fresh_driver};
ghost use Rattle.vb_guest.specs.Exact.{IsReset, KeepsFrames};
ghost use Rattle.vb_guest.specs.Promises.{EachRestarts};
ghost use Rattle.vb_guest.specs.Steps.{AllReturn};
ghost use Rattle.vb_slot.specs.Slots.{supply_at, claims_of, is_empty, moment_of, memory_of};
ghost use Rattle.vb_slot.specs.Slots.{part_of, driver_of, HasGuestOut, OfItsGuest};

use crate::slot::{Slot, forget};
use vb_frames::FrameKeeper;

impl Slot {
    /// A new life of the guest begins (profile): the device is reset, every frame of the guest goes
    /// back to where it came from, and all unreserved pages are free. The target stays.
    pub fn restart<K: FrameKeeper>(&mut self, keeper: &mut K)
        requires { HasGuestOut mem part self.old (K.out keeper.old) }
        ensures life { EachRestarts (moment_of mem part self.old (K.out keeper.old))
            (moment_of mem part self.new (K.out keeper.new)) }
        ensures claimed { claims_of self.new ≡ [] }
        ensures mem { memory_of mem self.new
            ≡ replicate (length (memory_of mem self.old)) None }
        ensures part { IsReset (part_of part self.old) (part_of part self.new) }
        ensures driver { driver_of self.new ≡ fresh_driver (driver_of self.old).pages
            (driver_of self.old).queue_size (driver_of self.old).processors }
        ensures quiet { KeepsFrames (memory_of mem self.old) (memory_of mem self.new)
            → keeper.new ≡ keeper.old }
        ensures unasked { (part_of part self.old).keeps ≡ true → keeper.new ≡ keeper.old }
    {
        forget(&mut self.claims);
        vb_guest::restart(&mut self.driver, &mut self.device, keeper);
    }

    /// The guest's life ends, as it is unplugged: the device is reset, its target kept, and every
    /// frame of the guest goes back to where it came from, in whatever order. A slot is emptied
    /// before it is dropped: a frame of the keeper's that a dropped slot still has never comes
    /// back, and the device, with the frames of its own, goes with the slot.
    pub fn empty<K: FrameKeeper>(&mut self, keeper: &mut K)
        requires { HasGuestOut mem part self.old (K.out keeper.old) }
        ensures empty { is_empty mem part self.new }
        ensures returned { OfItsGuest mem part self.old
            (λ g. AllReturn (supply_at part self.old (K.out keeper.old))
            (supply_at part self.new (K.out keeper.new)) g) }
        ensures claimed { claims_of self.new ≡ [] }
        ensures mem { memory_of mem self.new
            ≡ replicate (length (memory_of mem self.old)) None }
        ensures part { IsReset (part_of part self.old) (part_of part self.new) }
        ensures driver { driver_of self.new ≡ driver_of self.old }
        ensures quiet { KeepsFrames (memory_of mem self.old) (memory_of mem self.new)
            → keeper.new ≡ keeper.old }
        ensures unasked { (part_of part self.old).keeps ≡ true → keeper.new ≡ keeper.old }
    {
        forget(&mut self.claims);
        vb_guest::empty(&mut self.device, keeper);
    }
}

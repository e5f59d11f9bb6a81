//! Queues of a balloon that start at an index over regions, and stop; and what is held of them,
//! which is forgotten with them.

ghost use Rattle.std.specs.Prelude.{◌≡◌, not, ◌==◌};
ghost use Rattle.vb_core.specs.Held.{held_of, held_without};
ghost use Rattle.vb_monitor.specs.Queues.{StartsBy, StopsBy};

use crate::placing::lies;
use crate::{Balloon, Region};
use vb_core::{Denial, Kind, QueueStart};

impl Balloon {
    /// Forgets the chain that is held of a kind's queue: it isn't given back. Whether one was held.
    pub fn forget_held(&mut self, kind: Kind) -> bool
        ensures value { result ≡ not (held_of kind self.old.held == 0) }
        ensures left { self.new ≡ record self.old { held = held_without kind self.old.held } }
    {
        let held = self.held.of(kind) != 0;
        self.held.forget(kind);
        held
    }

    /// Starts a kind's queue at an index over these regions, in place of what it was before. No
    /// chain of it is taken then; so what is held of it is forgotten.
    ///
    /// Refused as by `Device::start`, and then `Misplaced` where a part of the queue lies in a
    /// hole. Then nothing is changed.
    pub fn start(&mut self, regions: &[Region], kind: Kind, at: &QueueStart) -> Result<(), Denial>
        ensures { StartsBy kind regions.now at.now self.old self.new result }
    {
        let mut device = self.device;
        device.start(kind, at)?;
        if !lies(regions, &at.ring()) {
            return Err(Denial::Misplaced);
        }
        self.device = device;
        self.held.forget(kind);
        Ok(())
    }

    /// Stops a kind's queue, and answers the index at which it was, as `Device::stop`: where it
    /// starts there, a chain that was held is again. What is held of it is forgotten.
    ///
    /// Refused with `Misplaced` where the queue has no place; then nothing is changed.
    pub fn stop(&mut self, kind: Kind) -> Result<u16, Denial>
        ensures { StopsBy kind self.old self.new result }
    {
        let next = self.device.stop(kind)?;
        self.held.forget(kind);
        Ok(next)
    }
}

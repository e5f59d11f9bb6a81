//! Guests that tell a gate what they do under their locks.

ghost use Rattle.std.specs.Prelude.{All};

use std::alloc::{AllocError, Global};
use vb_model::{Call, Claim, Reply};
use vb_ram::Config;
use vb_run::{Gate, OpenGate, add_port};
use vb_slot::{GuestPort, GuestSlot};

/// A gate that is told what guests do.
pub(super) trait Watch: Gate {
    /// The guest begins a call.
    fn called(&self, alloc: Global, guest: u32, call: &Call);

    /// The guest ends its call.
    fn replied(&self, alloc: Global, guest: u32, reply: &Reply);

    /// The guest was asked how many pages it can spare.
    fn looked(&self, guest: u32, spare: u32);

    /// A page of the guest has this frame, which was asked for once its threads had ended.
    fn backed(&self, guest: u32, frame: u32);
}

impl Watch for OpenGate {
    fn called(&self, _alloc: Global, _guest: u32, _call: &Call) {}

    fn replied(&self, _alloc: Global, _guest: u32, _reply: &Reply) {}

    fn looked(&self, _guest: u32, _spare: u32) {}

    fn backed(&self, _guest: u32, _frame: u32) {}
}

/// A guest that tells what it does.
#[derive(Drop)]
pub(super) struct Watched<'a, S: GuestSlot, G: Watch> {
    slot: S,
    /// Its number.
    guest: u32,
    gate: &'a G,
}

impl<S: GuestSlot, G: Watch> GuestSlot for Watched<'_, S, G> {
    ghost stands = { λ w. S.stands w.slot };

    ghost own = { λ w. S.own w.slot };

    ghost claimed = { λ w. S.claimed w.slot };

    fn call(&mut self, alloc: Global, call: &Call) -> Reply {
        self.gate.called(alloc, self.guest, call);
        let reply = self.slot.call(alloc, call);
        self.gate.replied(alloc, self.guest, &reply);
        reply
    }

    fn claims(&self) -> &[Claim] {
        self.slot.claims()
    }

    fn pages(&self) -> u32 {
        self.slot.pages()
    }

    fn spare(&self, floor: u32) -> u32 {
        let spare = self.slot.spare(floor);
        self.gate.looked(self.guest, spare);
        spare
    }

    fn backing(&self, page: u32) -> Option<u32> {
        let backing = self.slot.backing(page);
        if let Some(frame) = backing {
            self.gate.backed(self.guest, frame);
        }
        backing
    }
}

/// A device whose guest tells what it does.
#[derive(Drop)]
pub(super) struct WatchedPort<'a, P: GuestPort, G: Watch> {
    port: P,
    /// The guest's number.
    guest: u32,
    gate: &'a G,
}

impl<'a, P: GuestPort, G: Watch> GuestPort for WatchedPort<'a, P, G> {
    type Slot = Watched<'a, P::Slot, G>;

    ghost waits = { λ w. P.waits w.port };

    ghost pace = { λ w. P.pace w.port };

    fn is_paced(&self) -> bool {
        self.port.is_paced()
    }

    fn plug(self, alloc: Global, config: Config) -> Result<Watched<'a, P::Slot, G>, AllocError> {
        let WatchedPort { port, guest, gate } = self;
        let slot = port.plug(alloc, config)?;
        Ok(Watched { slot, guest, gate })
    }
}

/// Adds a port after others, whose guest tells the gate what it does. Refused on an allocation
/// failure alone.
pub(super) fn add_watched<'a, P: GuestPort, G: Watch>(
    ports: &mut Vec<WatchedPort<'a, P, G>>,
    port: P,
    gate: &'a G,
) -> Result<(), AllocError>
    requires ports { All (λ w. P.waits w.port) ports.old.items }
    requires port { P.waits port }
    ensures { All (λ w. P.waits w.port) ports.new.items }
{
    let guest = u32::try_from(ports.len()).unwrap_or(u32::MAX);
    add_port(ports, WatchedPort { port, guest, gate })
}

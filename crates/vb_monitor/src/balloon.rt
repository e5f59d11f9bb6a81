//! All that a balloon is between notices.

ghost use Rattle.std.specs.Prelude.{◌≡◌, Some, None, Ok, Err};
ghost use Rattle.vb_status.specs.declared.bits.StatusFault.{StatusFault};
ghost use Rattle.vb_core.specs.Statuses.{status_denial};
ghost use Rattle.vb_monitor.specs.declared.balloon.Balloon.{Balloon};
ghost use Rattle.vb_monitor.specs.Balloons.{may_look, held_chain, held_after, after_status};
ghost use Rattle.vb_monitor.specs.Balloons.{becomes_ready, may_tell};

use crate::{HeldChain, Outcome};
use vb_core::{Device, Held, Kind};
use vb_status::StatusFault;

/// The bit of the status by which a driver says that it is ready (VIRTIO 1.1, 2.1).
const DRIVER_OK: u8 = 4;

/// A device, and the chains that it holds: plain data, so that a copy of it saves the balloon.
#[repr(C)]
#[derive(Clone, Copy, Debug)]
pub struct Balloon {
    pub device: Device,
    /// The chains that were taken, and wait until they are asked for.
    pub held: Held,
}

/// Whether the driver may be told of a change of configuration, or of used buffers: DRIVER_OK is
/// set (VIRTIO 1.1, 2.1.2).
pub fn may_tell(device: &Device) -> bool
    ensures { result ≡ may_tell device.now }
{
    device.status & DRIVER_OK != 0
}

impl Balloon {
    /// The chain that is held of a kind's queue, if one is; its head is no descriptor's where what
    /// is held is no such number.
    pub fn held_chain(&self, kind: Kind) -> Option<HeldChain>
        ensures { result ≡ held_chain kind self.now.held }
    {
        let held = self.held.of(kind);
        if held == 0 {
            return None;
        }
        Some(HeldChain {
            head: (held - 1).min(65_535) as u16,
            pages: self.held.pages_of(kind),
        })
    }

    /// Whether a notice of this kind's queue may begin: not while a chain of it is held.
    pub fn may_look(&self, kind: Kind) -> bool
        ensures { result ≡ may_look kind self.now }
    {
        self.held.of(kind) == 0
    }

    /// Notes what a notice of this kind's queue came to: the chain that it gave back is held no
    /// longer, and the one that it took and didn't give back is.
    pub fn note(&mut self, kind: Kind, outcome: &Outcome)
        ensures { self.new ≡ record self.old { held = held_after kind outcome.now self.old } }
    {
        if outcome.tally.given {
            self.held.forget(kind);
            return;
        }
        if let Some(taken) = outcome.tally.held {
            if self.held.of(kind) == 0 {
                self.held.hold(kind, taken.head, taken.pages);
            }
        }
    }

    /// The driver writes the status: whether each queue is to be looked at now, since DRIVER_OK was
    /// set (a driver may have filled a queue before). A reset forgets what is held, which is its
    /// guest's again.
    ///
    /// Refused as by `Device::write_status`, and then nothing is changed.
    pub fn write_status(&mut self, write: u8) -> Result<bool, StatusFault>
        ensures denied { (why : StatusFault) → status_denial write self.old.device ≡ Some why →
            (result ≡ Err why) × (self.new ≡ self.old) }
        ensures accepted { status_denial write self.old.device ≡ None →
            (result ≡ Ok (becomes_ready write self.old)) ×
            (self.new ≡ after_status write self.old) }
    {
        let before = self.device.status;
        match self.device.write_status(write) {
            Err(why) => Err(why),
            Ok(()) => {
                if write == 0 {
                    self.held = Held::NOTHING;
                }
                Ok(before & DRIVER_OK == 0 && write & DRIVER_OK != 0)
            }
        }
    }
}

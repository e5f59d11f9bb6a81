//! The status register and the negotiation of features (VIRTIO 1.1, 2.1, 2.2 and 3.1.1).

ghost use Rattle.std.specs.Prelude.{◌≡◌, Some, None, Ok, Err};
ghost use Rattle.vb_status.specs.declared.bits.StatusFault.{StatusFault};
ghost use Rattle.vb_core.specs.Statuses.{lacks_must_tell, status_denial, reset};
ghost use Rattle.vb_core.specs.Statuses.{after_write, negotiate_denial};

use crate::Device;
use crate::hints::STOP;
use crate::settings::without_later;
use bitflags::Flags;
use vb_status::{Features, Status, StatusFault, negotiate, write_status};

impl Device {
    /// Whether a write adds FEATURES_OK without the MUST_TELL_HOST that the settings ask for.
    fn lacks_must_tell(&self, write: u8) -> bool
        ensures { result ≡ lacks_must_tell write self.now }
    {
        let written = Status::from_bits_retain(write);
        let status = Status::from_bits_retain(self.status);
        let adds = written.contains(Status::FEATURES_OK) && !status.contains(Status::FEATURES_OK);
        let tells = Features::from_bits_retain(self.features).must_tell_host();
        self.settings.needs_must_tell() && adds && !tells
    }

    /// What a write of the status is refused for.
    fn status_denial(&self, write: u8) -> Option<StatusFault>
        ensures { result ≡ status_denial write self.now }
    {
        let status = Status::from_bits_retain(self.status);
        let features = Features::from_bits_retain(self.features);
        match write_status(status, features, Status::from_bits_retain(write)) {
            Err(fault) => Some(fault),
            Ok(_) => {
                if self.lacks_must_tell(write) {
                    Some(StatusFault::MustTellHostMissing)
                } else {
                    None
                }
            }
        }
    }

    /// Forgets what the driver did and said (VIRTIO 1.1, 2.1): settings and target stay, and the
    /// ids of rounds go on, so that a late one opens none.
    fn reset(&mut self)
        ensures { self.new ≡ reset self.old }
    {
        let target = self.target;
        let mut round = self.round;
        round.show(STOP);
        *self = Device::new(self.settings);
        self.target = target;
        self.round = round;
    }

    /// The driver writes the status register. A write of 0 resets: features, `actual`, `poison_val`
    /// and all places are gone, and no round of hints is shown.
    ///
    /// Refused, tested in this order, and then nothing is changed: `ClearsBit`; `OutOfOrder`;
    /// where FEATURES_OK is added, `VersionMissing`, and then `MustTellHostMissing` where the
    /// settings ask for it.
    pub fn write_status(&mut self, write: u8) -> Result<(), StatusFault>
        ensures denied { (why : StatusFault) → status_denial write self.old ≡ Some why →
            (result ≡ Err why) × (self.new ≡ self.old) }
        ensures accepted { status_denial write self.old ≡ None →
            (result ≡ Ok tt) × (self.new ≡ after_write write self.old) }
    {
        if let Some(why) = self.status_denial(write) {
            return Err(why);
        }
        if write == 0 {
            self.reset();
        } else {
            self.status = write;
        }
        Ok(())
    }

    /// What these features are refused for.
    fn negotiate_denial(&self, wanted: u64) -> Option<StatusFault>
        ensures { result ≡ negotiate_denial wanted self.now }
    {
        let features = Features::from_bits_retain(wanted);
        let others = Features::from_bits_retain(without_later(wanted));
        match negotiate(Status::from_bits_retain(self.status), others) {
            Err(fault) => Some(fault),
            Ok(_) => {
                if Features::from_bits_retain(self.settings.offered).contains(features) {
                    None
                } else {
                    Some(StatusFault::FeatureNotOffered)
                }
            }
        }
    }

    /// The driver writes its features, once or more often: the last write counts.
    ///
    /// Refused, and then nothing is changed: `OutOfOrder` unless ACKNOWLEDGE and DRIVER alone are
    /// set, and then `FeatureNotOffered` where the settings don't offer one of them.
    pub fn negotiate(&mut self, wanted: u64) -> Result<(), StatusFault>
        ensures denied { (why : StatusFault) → negotiate_denial wanted self.old ≡ Some why →
            (result ≡ Err why) × (self.new ≡ self.old) }
        ensures accepted { negotiate_denial wanted self.old ≡ None →
            (result ≡ Ok tt) × (self.new ≡ record self.old { features = wanted }) }
    {
        if let Some(why) = self.negotiate_denial(wanted) {
            return Err(why);
        }
        self.features = wanted;
        Ok(())
    }
}

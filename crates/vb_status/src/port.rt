//! What a driver sees of its device.

ghost use Rattle.std.specs.Prelude.{◌≡◌, OnOk, OnErr};
ghost use Rattle.vb_virtio.specs.Status.{status_refusal, negotiate_refusal};
ghost use Rattle.vb_status.specs.After.{after_status};
ghost use Rattle.vb_status.specs.Answers.{answered_refusal};
ghost use Rattle.vb_status.specs.Bits.{status_bits, feature_bits};

use crate::{Features, Status, StatusFault};
use vb_ram::GuestBytes;

/// What a driver sees of its device: guest memory, the status, the features and the configuration
/// (VIRTIO 1.1, 2.1 to 2.3 and 5.5.4). No call changes memory.
pub trait Port: GuestBytes {
    /// How far the device is initialised.
    fn status(&self) -> Status
        ensures { status_bits result ≡ (Self.part self.now).status };

    /// Writes the status. A write of 0 resets the device, one that adds DRIVER_OK makes its queues
    /// ready at index 0; refused for ClearsBit, OutOfOrder, VersionMissing.
    fn write_status(&mut self, write: Status) -> Result<(), StatusFault>
        ensures answer { answered_refusal result ≡
            status_refusal (Self.part self.old).status (Self.part self.old).features
            (status_bits write) }
        ensures ok { OnOk result (Self.part self.new ≡
            after_status (status_bits write) (Self.part self.old)) }
        ensures err { OnErr result (Self.part self.new ≡ Self.part self.old) }
        ensures mem { Self.mem self.new ≡ Self.mem self.old };

    /// Accepts these features in place of those that were negotiated before; refused for OutOfOrder
    /// (the status isn't ACKNOWLEDGE and DRIVER alone), FeatureNotOffered.
    fn negotiate(&mut self, wanted: Features) -> Result<(), StatusFault>
        ensures answer { answered_refusal result ≡
            negotiate_refusal (Self.part self.old).status (feature_bits wanted) }
        ensures ok { OnOk result (Self.part self.new
            ≡ record (Self.part self.old) { features = feature_bits wanted }) }
        ensures err { OnErr result (Self.part self.new ≡ Self.part self.old) }
        ensures mem { Self.mem self.new ≡ Self.mem self.old };

    /// How many pages the host wants in the balloon (`num_pages`).
    fn target(&self) -> u32
        ensures { result ≡ (Self.part self.now).target };

    /// Tells the host how many pages the driver has in the balloon (`actual`).
    fn set_actual(&mut self, pages: u32)
        ensures part { Self.part self.new ≡ record (Self.part self.old) { actual = pages } }
        ensures mem { Self.mem self.new ≡ Self.mem self.old };
}

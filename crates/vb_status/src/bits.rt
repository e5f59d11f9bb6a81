//! The bits of a status and of a set of features, and why a write of them is refused.

ghost use Rattle.std.specs.Prelude.{⊤, ◌∷◌, [], codes};

use bitflags::{Flag, Flags, bitflag_items};
use thiserror::Error;
use vb_virtio::negotiation::OFFERED_FEATURES;

/// A device's status, a register of 8 bits: how far its driver has initialised it
/// (VIRTIO 1.1, 2.1).
#[derive(Clone, Copy, Debug, PartialEq, Eq)]
pub struct Status(u8);

bitflag_items! {
    impl Status: u8 {
        const ACKNOWLEDGE = 1;
        const DRIVER = 2;
        const DRIVER_OK = 4;
        const FEATURES_OK = 8;
        const DEVICE_NEEDS_RESET = 64;
        const FAILED = 128;
    }
}

impl Status {
    /// One of the two bits that the standard leaves unused.
    pub(crate) const UNUSED_16: Status = Status(16);

    /// The other one.
    pub(crate) const UNUSED_32: Status = Status(32);
}

impl Flags for Status {
    type Bits = u8;

    ghost exact = { ⊤ };

    ghost table = { (codes "ACKNOWLEDGE", 1) ∷ (codes "DRIVER", 2) ∷ (codes "DRIVER_OK", 4) ∷
        (codes "FEATURES_OK", 8) ∷ (codes "DEVICE_NEEDS_RESET", 64) ∷ (codes "FAILED", 128) ∷ [] };

    ghost set_of = { λ s. s.0 };

    fn flags<'a>() -> &'a [Flag<Status>] {
        Status::FLAGS
    }

    fn bits(&self) -> u8 {
        self.0
    }

    fn from_bits_retain(bits: u8) -> Status {
        Status(bits)
    }
}

/// Feature bits of a balloon device (VIRTIO 1.1, 5.5.3 and 6); REPORTING is the profile's.
#[derive(Clone, Copy, Debug, PartialEq, Eq)]
pub struct Features(u64);

bitflag_items! {
    impl Features: u64 {
        const MUST_TELL_HOST = 1;
        const STATS_VQ = 2;
        const DEFLATE_ON_OOM = 4;
        const REPORTING = 32;
        const VERSION_1 = 0x1_0000_0000;
    }
}

impl Features {
    /// What the device offers: all five.
    pub const OFFERED: Features = Features(OFFERED_FEATURES);

    ghost use Rattle.std.specs.Prelude.{◌≡◌};
    ghost use Rattle.vb_virtio.specs.Features.{must_tell_host, stats_vq, deflate_on_oom, reporting};
    ghost use Rattle.vb_virtio.specs.Features.{version_1};
    ghost use Rattle.vb_status.specs.Bits.{feature_bits};

    /// Whether a page that is given up is used again only after the host was told.
    pub fn must_tell_host(self) -> bool
        ensures { result ≡ must_tell_host (feature_bits self) }
    {
        self.contains(Features::MUST_TELL_HOST)
    }

    /// Whether there is a statistics queue.
    pub fn stats_vq(self) -> bool
        ensures { result ≡ stats_vq (feature_bits self) }
    {
        self.contains(Features::STATS_VQ)
    }

    /// Whether the driver may take pages back when the guest runs out of memory.
    pub fn deflate_on_oom(self) -> bool
        ensures { result ≡ deflate_on_oom (feature_bits self) }
    {
        self.contains(Features::DEFLATE_ON_OOM)
    }

    /// Whether there is a queue for reports of free blocks (profile).
    pub fn reporting(self) -> bool
        ensures { result ≡ reporting (feature_bits self) }
    {
        self.contains(Features::REPORTING)
    }

    /// Whether the device and its driver keep to VIRTIO 1.
    pub fn version_1(self) -> bool
        ensures { result ≡ version_1 (feature_bits self) }
    {
        self.contains(Features::VERSION_1)
    }
}

impl Flags for Features {
    type Bits = u64;

    ghost exact = { ⊤ };

    ghost table = { (codes "MUST_TELL_HOST", 1) ∷ (codes "STATS_VQ", 2) ∷
        (codes "DEFLATE_ON_OOM", 4) ∷ (codes "REPORTING", 32) ∷ (codes "VERSION_1", 0x100000000)
        ∷ [] };

    ghost set_of = { λ s. s.0 };

    fn flags<'a>() -> &'a [Flag<Features>] {
        Features::FLAGS
    }

    fn bits(&self) -> u64 {
        self.0
    }

    fn from_bits_retain(bits: u64) -> Features {
        Features(bits)
    }
}

/// Why a write of the status, or a set of features, is refused. Nothing is changed then.
#[derive(Clone, Copy, Debug, PartialEq, Eq, Error)]
pub enum StatusFault {
    /// A bit that is set is missing in the write.
    #[error("the write clears a bit of the status")]
    ClearsBit = 1,
    /// The steps ACKNOWLEDGE, DRIVER, FEATURES_OK and DRIVER_OK are taken one at a time and in this
    /// order.
    #[error("the write leaves the order of the steps")]
    OutOfOrder = 2,
    /// A feature is wanted that the device doesn't offer.
    #[error("the device lacks a feature that is wanted")]
    FeatureNotOffered = 3,
    /// FEATURES_OK is written, but MUST_TELL_HOST wasn't negotiated. A device for a monitor may ask
    /// for it; `write_status` and a `Port` accept such a write.
    #[error("MUST_TELL_HOST isn't negotiated")]
    MustTellHostMissing = 4,
    /// FEATURES_OK is written, but VERSION_1 wasn't negotiated (VIRTIO 1.1, 6.1).
    #[error("VERSION_1 isn't negotiated")]
    VersionMissing = 5,
}

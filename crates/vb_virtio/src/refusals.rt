//! Why a call is refused.

/// Why an event was refused.
#[derive(Clone, Copy, Debug, PartialEq, Eq)]
pub enum Refusal {
    /// No guest has the number.
    NoGuest,
    /// A guest of this configuration can't be.
    BadConfig,
    /// As many guests are plugged in as may be.
    TooMany,
    /// No spare device is left.
    NoDevice,
    /// The order is above the largest.
    BadOrder,
    /// The guest has no such processor.
    BadCpu,
    /// No block of the order is wholly free.
    NoPages,
    /// The page isn't used, or no allocation of just that block is held.
    NotHeld,
    /// The device isn't initialised, or its driver has given up.
    NotReady,
    /// As many requests are outstanding as may be.
    QueueFull,
    /// A deflate request is outstanding, and MUST_TELL_HOST wasn't negotiated.
    DeflatePending,
    /// There is no page to move.
    Nothing,
    /// The used ring holds what no device would write.
    RingBroken,
    /// The feature wasn't negotiated.
    NoFeature,
    /// The device was initialised and not reset since.
    AlreadyUp,
    /// A feature is wanted that the device doesn't offer.
    FeatureNotOffered,
    /// VERSION_1 isn't among the negotiated features.
    VersionMissing,
    /// A status bit that is set is missing from the write.
    ClearsBit,
    /// A status bit, or the negotiation of features, isn't next in order.
    OutOfOrder,
    /// There is no queue of this number, or its feature wasn't negotiated.
    NoQueue,
    /// The device has found a fault and waits for a reset.
    NeedsReset,
    /// As many chains of the queue are taken as may be.
    Busy,
    /// The chain breaks the rule of this number, from 1 to 10.
    Broken { rule: u32 },
    /// No taken chain has the index, or the statistics buffer isn't taken.
    NotTaken,
    /// Some page of the request wasn't visited yet.
    NotWorked,
    /// The page isn't ballooned.
    NotBallooned,
    /// The bytes don't lie in one page of the guest's memory.
    OutOfRam,
    /// No frame is left.
    NoFrame,
    /// There was no memory.
    NoMemory,
    /// The guests can't spare `missing` of the pages that the host lacks.
    Short { missing: u64 },
}

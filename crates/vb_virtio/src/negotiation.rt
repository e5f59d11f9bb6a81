//! What an initialisation agrees on, and the statuses at which it ends (VIRTIO 1.1, 2.1 and 3.1.1).

/// The features that a device offers, and that a driver asks for unless it is told others, a bit
/// each (VIRTIO 1.1, 5.5.3 and 6): MUST_TELL_HOST, STATS_VQ, DEFLATE_ON_OOM, page reporting
/// (profile) and VERSION_1.
pub const OFFERED_FEATURES: u64 = 0x1_0000_0027;

/// The device is ready: ACKNOWLEDGE, DRIVER, FEATURES_OK and DRIVER_OK are set.
pub const READY_STATUS: u8 = 15;

/// The driver gave up since its features were refused: ACKNOWLEDGE, DRIVER and FAILED are set.
pub const FAILED_STATUS: u8 = 131;

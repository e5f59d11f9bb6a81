//! What a device keeps of the statistics that it read.

/// The last statistics that a device read, in bytes (VIRTIO 1.1, 5.5.6.4); each may be missing.
#[derive(Clone, Copy, Debug, PartialEq, Eq)]
pub struct LastStatistics {
    /// Memory that is free.
    pub free: Option<u64>,
    /// All memory.
    pub total: Option<u64>,
}

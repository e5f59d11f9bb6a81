//! The two ends of a split virtqueue in guest memory (VIRTIO 1.1, 2.6): the driver publishes chains
//! of descriptors and takes back the used ones, the device pops them and adds them to the used
//! ring.
#![tactic(auto)]

mod device;
mod driver;
mod entries;
mod format;
mod laws;
mod layout;
mod owners;

pub use device::{Queue, Taken};
pub use driver::{DriverRing, Full, RingBroken};
pub use format::{
    AVAIL_ALIGNMENT, AVAIL_ENTRY_SIZE, RING_HEADER_SIZE, RING_INDEX_AT, RING_META_SIZE,
    RING_WORD_SIZE, TABLE_ALIGNMENT, USED_ALIGNMENT, USED_ELEMENT_SIZE, USED_FIELD_SIZE,
    USED_LENGTH_AT,
};
pub use laws::{
    an_added_chain_is_read_back, chains_that_are_out_stay, other_pages_leave_a_ring_alone,
    single_heads_stay_low, zeroed_pages_show_nothing,
};
pub use layout::{Layout, MAX_QUEUE_SIZE, MIN_QUEUE_SIZE, RingArea};

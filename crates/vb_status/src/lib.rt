//! A balloon device's status and features, and the port through which a driver reaches it:
//! VIRTIO 1.1, sections 2.1, 2.2, 3.1.1 and 5.5.
#![tactic(auto)]

mod bits;
mod laws;
mod memory;
mod port;
mod rules;

pub use bits::{Features, Status, StatusFault};
pub use laws::{
    an_initialisation_is_refused_for_its_features_alone, features_ok_has_its_feature,
    one_way_leads_to_ready,
};
pub use memory::MemoryPort;
pub use port::Port;
pub use rules::{negotiate, write_status};

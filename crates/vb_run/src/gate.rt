//! What a run calls round its calls.

use vb_model::{Actor, Reply};

/// Called by the threads of a run: it may hold them up, and note what they do. Numbers of calls
/// count from 0 and stay at their greatest value.
pub trait Gate: Sync {
    /// Before a processor's call, under its guest's lock.
    fn inside(&self, guest: u32, cpu: u32, call: u64);

    /// Before an actor's call, or a round of the balancer, with no lock. A worker's calls that find
    /// nothing to do, and the one after them that does, count as one.
    fn before(&self, actor: Actor, number: u64);

    /// After an actor's call with its reply, or a round of the balancer with the guests' targets or
    /// `Short`, with no lock.
    fn after(&self, actor: Actor, reply: &Reply);
}

/// A gate that holds nobody up.
#[derive(Clone, Copy, Debug, Default)]
pub struct OpenGate;

impl Gate for OpenGate {
    fn inside(&self, _guest: u32, _cpu: u32, _call: u64) {}

    fn before(&self, _actor: Actor, _number: u64) {}

    fn after(&self, _actor: Actor, _reply: &Reply) {}
}

//! What a guest's history has: each call with its actor, what its claims were given and its reply,
//! and each look of the balancer.

ghost use Rattle.std.specs.Prelude.{◌≡◌};
ghost use Rattle.vb_run.specs.Entries.{entry_of};

use std::marker::Model;
use vb_model::{Actor, Call, Claim, Reply};

/// What was done to a guest under its lock.
#[derive(Drop)]
pub enum Step {
    /// An actor's call, what the guest's claims of frames were answered by its device, in order,
    /// and the reply.
    Called {
        actor: Actor,
        call: Call,
        claims: Vec<Claim>,
        reply: Reply,
    },
    /// The balancer saw how many pages the guest can spare above a floor.
    Looked {
        floor: u32,
        spare: u32,
    },
}

/// An entry of a guest's history. A contract sees that of the definitions.
#[derive(Drop)]
pub struct Entry {
    step: Step,
}

impl Model for Entry {
    ghost use Rattle.vb_model.specs.GuestRun.{Entry};
    ghost use Rattle.vb_run.specs.Entries.{entry_of};

    ghost Value = { Entry };

    ghost view = { λ e. entry_of e.step };
}

impl Entry {
    /// The entry of this step.
    pub fn new(step: Step) -> Entry
        ensures { result ≡ entry_of step }
    {
        Entry { step }
    }

    /// What was done.
    pub fn step(&self) -> &Step
        ensures { entry_of result.now ≡ self.now }
    {
        &self.step
    }
}

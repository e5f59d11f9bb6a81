//! What a run answers.

ghost use Rattle.std.specs.Prelude.{◌≡◌, IfOk};
ghost use Rattle.vb_run.specs.Notes.{replies_in};
ghost use Rattle.vb_run.specs.Reports.{history_in};

use crate::entry::Entry;
use crate::note::{Note, entry_of, reply_by};
use crate::plan::GuestPlan;
use crate::round::Round;
use std::alloc::{AllocError, Global};
use thiserror::Error;
use vb_model::Reply;

/// What was done to a guest.
#[derive(Drop)]
pub struct GuestReport {
    /// All that was done, in the order in which it was done under the guest's lock.
    pub history: Vec<Note>,
    /// The numbers of the frames that back the guest's pages at the end, by rising page.
    pub frames: Vec<u32>,
}

impl GuestReport {
    /// A copy of the history with its calls, of the guest of this number and plan. Refused on an
    /// allocation failure alone.
    #[tactic(auto, using(crate::proofs::Lists::map_more))]
    pub fn entries(
        &self,
        alloc: Global,
        guest: u32,
        plan: &GuestPlan,
    ) -> Result<Vec<Entry>, AllocError>
        ensures { IfOk result (λ entries. entries.items ≡ history_in guest plan.now self.now) }
    {
        let mut entries = Vec::new(alloc);
        for note in &self.history {
            entries.push(entry_of(alloc, guest, plan.scripts.as_slice(), note)?)?;
        }
        Ok(entries)
    }

    /// A copy of the replies to a processor's script. Refused on an allocation failure alone.
    #[tactic(auto, using(crate::proofs::Gathered::reply_some, crate::proofs::Gathered::reply_none))]
    pub fn replies(&self, alloc: Global, cpu: u32) -> Result<Vec<Reply>, AllocError>
        ensures { IfOk result (λ replies. replies.items ≡ replies_in cpu self.now.history.items) }
    {
        let mut replies = Vec::new(alloc);
        for note in &self.history {
            if let Some(reply) = reply_by(alloc, note, cpu)? {
                replies.push(reply)?;
            }
        }
        Ok(replies)
    }
}

/// What a run did.
#[derive(Drop)]
pub struct Report {
    /// A report for each guest of the plan.
    pub guests: Vec<GuestReport>,
    /// The balancer's rounds, in order.
    pub rounds: Vec<Round>,
}

/// Why there is no report.
#[derive(Clone, Copy, Debug, PartialEq, Eq, Error)]
pub enum RunFault {
    /// A growth was refused, or a thread couldn't be made.
    #[error("memory")]
    Memory = 1,
    /// The plan can't be run: it has no guest or over eight, or not a port for each; or one of its
    /// guests is beyond the limits, or hasn't a script for each processor; or one of its scripts is
    /// over `MAX_SCRIPT_CALLS` calls, or has a call that may not be there.
    #[error("bad plan")]
    BadPlan = 2,
    /// Two guests have one frame, which ports of two tables of frames bring about; or what the
    /// locks kept isn't the plan's or the rounds', which no test met.
    #[error("audit")]
    Audit = 3,
}

/// Why the threads' work gives no report.
#[derive(Clone, Copy, Debug, PartialEq, Eq)]
pub(crate) enum Stop {
    Memory,
    Audit,
}

impl From<AllocError> for Stop {
    ghost use Rattle.std.specs.Prelude.{◌≡◌};
    ghost use Rattle.vb_run.specs.declared.report.Stop.TheVariants.{Memory};

    ghost from_gives = { λ _ r. r ≡ Memory };

    fn from(_refused: AllocError) -> Stop {
        Stop::Memory
    }
}

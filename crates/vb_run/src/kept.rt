//! What a guest's lock keeps.

ghost use Rattle.std.specs.Prelude.{◌≡◌, ◌<◌, ◌≤◌, ℕ, true, false, List, [], ◌∷◌, ◌++◌};
ghost use Rattle.std.specs.Prelude.{◌↔◌, IfOk, OnOk, Err, Some};
ghost use Rattle.std.specs.Prelude.{MatchOption};
ghost use Rattle.vb_model.specs.declared.calls.Actor.TheVariants.{Balancer};
ghost use Rattle.vb_model.specs.declared.calls.Call.TheVariants.{SetTarget};
ghost use Rattle.vb_model.specs.Guest.{Guest, fresh};
ghost use Rattle.vb_virtio.specs.Limits.{is_config};
ghost use Rattle.vb_model.specs.GuestRun.{Looked};
ghost use Rattle.vb_model.specs.declared.calls.Claim.{Claim as AnyClaim};
ghost use Rattle.vb_model.specs.declared.replies.Reply.{Reply as AnyReply};
ghost use Rattle.vb_run.specs.Paces.{is_deferred};
ghost use Rattle.vb_run.specs.Past.{Past, IsKept, IsSame, AreBegun, HasEnded, Notes};
ghost use Rattle.vb_run.specs.Past.{NotesNext, just_started};
ghost use Rattle.vb_run.specs.Plans.{config_of};
ghost use Rattle.vb_run.specs.Reports.{IsGuestReport, IsPlanned, frames_behind};

mod serving;

use crate::audit::{expected_of, has_made};
use crate::note::{Caller, Note};
use crate::pace::Pace;
use crate::plan::GuestPlan;
use crate::report::{GuestReport, Stop};
use crate::room::{claims_in, make_room, room_for};
use crate::round::Round;
use crate::script::{Script, all_ended, are_of};
use crate::served::SERVICES;
use std::alloc::{AllocError, Global};
use std::convert::AsSlice;
use std::marker::Model;
use std::sync::Wait;
use vb_balance::GuestNeed;
use vb_model::{Call, Claim, Reply};
use vb_ram::Config;
use vb_slot::GuestSlot;
use vb_virtio::negotiation::OFFERED_FEATURES;

/// Which guest of a run one is.
#[derive(Clone, Copy)]
pub(crate) struct GuestOfRun {
    /// Its number.
    pub number: u32,
    /// The pace of its device.
    pub pace: Pace,
    /// The free pages that a balance leaves to it.
    pub floor: u32,
}

/// A guest with its history, and the scripts of its processors.
#[derive(Drop)]
pub(crate) struct Kept<S: GuestSlot, L: AsSlice<Call> + Drop> {
    guest: u32,
    sizes: Config,
    pace: Pace,
    slot: S,
    history: Vec<Note>,
    /// Where the claims of the next call are noted.
    room: Vec<Claim>,
    scripts: Vec<Script<L>>,
    /// The worker's calls that are known to find nothing to do.
    quiet: [bool; SERVICES],
    /// A growth was refused while threads ran.
    short: bool,
}

impl<S: GuestSlot, L: AsSlice<Call> + Drop> Model for Kept<S, L> {
    ghost use Rattle.vb_run.specs.Notes.{history_of};
    ghost use Rattle.vb_run.specs.Paces.{is_deferred};
    ghost use Rattle.vb_run.specs.Past.{Past, IsKept, scripts_in};

    ghost Value = { Past };

    ghost view = { λ k. record {
      guest = k.guest;
      sizes = k.sizes;
      paced = is_deferred k.pace;
      history = history_of k.guest (scripts_in k.scripts.items) k.history.items;
      scripts = k.scripts.items;
      quiet = k.quiet;
      short = k.short;
    } };

    ghost invariant = { λ k. IsKept (S.stands k.slot) (S.own k.slot) (record {
      guest = k.guest;
      sizes = k.sizes;
      paced = is_deferred k.pace;
      history = history_of k.guest (scripts_in k.scripts.items) k.history.items;
      scripts = k.scripts.items;
      quiet = k.quiet;
      short = k.short;
    }) };
}

impl<S: GuestSlot, L: AsSlice<Call> + Drop> Kept<S, L> {
    /// Starts a guest that was just plugged in, on a device of this pace.
    pub fn start(
        alloc: Global,
        guest: u32,
        sizes: Config,
        pace: Pace,
        slot: S,
        scripts: Vec<Script<L>>,
    ) -> Result<Kept<S, L>, AllocError>
        requires config { is_config sizes.pages sizes.queue_size sizes.processors ≡ true }
        requires fresh { S.stands slot (fresh (config_of sizes (is_deferred pace)) 0) }
        requires begun { AreBegun scripts.items }
        ensures { IfOk result (λ kept. (claims : List AnyClaim) × (reply : AnyReply)
            × (kept ≡ just_started guest sizes (is_deferred pace) scripts.items claims reply)) }
    {
        let mut slot = slot;
        let mut history = Vec::new(alloc);
        history.reserve(room_for(scripts.as_slice()))?;
        let mut room = Vec::new(alloc);
        make_room(&mut room)?;
        let call = Call::Init {
            features: OFFERED_FEATURES,
        };
        let reply = slot.call(alloc, &call);
        let claims = claims_in(alloc, &slot, &mut room);
        history.push_reserved(Note::Called {
            caller: Caller::Starter,
            claims,
            reply,
        });
        Ok(Kept {
            guest,
            sizes,
            pace,
            slot,
            history,
            room,
            scripts,
            quiet: [false; SERVICES],
            short: false,
        })
    }

    /// Some growth was refused.
    pub fn mark_short(&mut self)
        ensures { self.new ≡ record self.old { short = true } }
    {
        self.short = true;
    }

    /// Makes the next call of a processor's script; none where no call is left. Refused on an
    /// allocation failure alone: then either nothing was done, or the call was made and noted and
    /// only its reply isn't given here.
    pub fn next(&mut self, alloc: Global, cpu: u32) -> Result<Option<Reply>, AllocError>
        ensures noted { IfOk result (λ answer. MatchOption answer
            (HasEnded cpu self.old × (self.new ≡ self.old))
            (λ reply. NotesNext cpu reply self.old self.new)) }
    {
        let Some(script) = self.scripts.get(cpu as usize) else {
            return Ok(None);
        };
        let Some(call) = script.next() else {
            return Ok(None);
        };
        let caller = Caller::Processor {
            cpu,
            place: script.place(),
        };
        self.history.reserve(1)?;
        make_room(&mut self.room)?;
        let reply = self.slot.call(alloc, call);
        let claims = claims_in(alloc, &self.slot, &mut self.room);
        let answer = reply.copy(alloc);
        self.history.push_reserved(Note::Called {
            caller,
            claims,
            reply,
        });
        self.quiet = [false; SERVICES];
        self.scripts[cpu as usize].advance();
        answer.map(Some)
    }

    /// Sets the guest's target, as the balancer.
    pub fn set_target(&mut self, alloc: Global, pages: u32) -> Result<(), AllocError>
        ensures same { IsSame self.old self.new }
        ensures noted { OnOk result (Notes Balancer (SetTarget pages) self.old self.new) }
    {
        self.history.reserve(1)?;
        make_room(&mut self.room)?;
        let call = Call::SetTarget { pages };
        let reply = self.slot.call(alloc, &call);
        let claims = claims_in(alloc, &self.slot, &mut self.room);
        self.history.push_reserved(Note::Called {
            caller: Caller::Balancer { pages },
            claims,
            reply,
        });
        self.quiet = [false; SERVICES];
        Ok(())
    }

    /// Sees how many pages the guest has and can spare above the floor, as the balancer.
    pub fn look(&mut self, floor: u32) -> Result<GuestNeed, AllocError>
        ensures same { IsSame self.old self.new }
        ensures pages { IfOk result (λ need. need.pages ≡ self.old.sizes.pages) }
        ensures noted { IfOk result (λ need. self.new
            ≡ record self.old { history = self.old.history ++ Looked floor need.spare ∷ [] }) }
    {
        self.history.reserve(1)?;
        let spare = self.slot.spare(floor);
        self.history.push_reserved(Note::Looked { floor, spare });
        Ok(GuestNeed {
            pages: self.sizes.pages,
            spare,
        })
    }

    /// Whether it is the guest of this number and size, on a device of this pace.
    fn is_guest(&self, of: GuestOfRun, sizes: Config) -> bool
        ensures { (result ≡ true) ↔ ((self.now.guest ≡ of.number)
            × (self.now.paced ≡ is_deferred of.pace) × (self.now.sizes ≡ sizes)) }
    {
        self.guest == of.number && self.pace == of.pace && self.sizes == sizes
    }

    /// Whether this is kept of the plan's guest, and the balancer's entries are those of these
    /// rounds. Refused on an allocation failure alone.
    fn is_planned(
        &self,
        alloc: Global,
        of: GuestOfRun,
        plan: &GuestPlan,
        rounds: &[Round],
    ) -> Result<bool, AllocError>
        ensures { IfOk result (λ is. (is ≡ true)
            ↔ IsPlanned of.floor of.number plan.now (is_deferred of.pace) rounds.now self.now) }
    {
        if !self.is_guest(of, plan.config) {
            return Ok(false);
        }
        if !are_of(self.scripts.as_slice(), plan.scripts.as_slice()) {
            return Ok(false);
        }
        let expected = expected_of(alloc, of.floor, of.number, rounds)?;
        Ok(has_made(of.number, self.history.as_slice(), expected.as_slice()))
    }

    /// Ends the run of a guest: its report, if what its lock kept is the plan's and the rounds', or
    /// else `Audit`. Where memory was refused, now or while threads ran, `Memory`.
    pub fn close<R: Wait>(
        self,
        rt: &R,
        alloc: Global,
        of: GuestOfRun,
        plan: &GuestPlan,
        rounds: &[Round],
    ) -> Result<GuestReport, Stop>
        ensures report { IfOk result
            (IsGuestReport of.floor of.number plan.now (is_deferred of.pace) rounds.now) }
        ensures whole { IfOk result (λ _. self.short ≡ false) }
        ensures audit { result ≡ Err Stop.Audit → (self.short ≡ false)
            × (IsPlanned of.floor of.number plan.now (is_deferred of.pace) rounds.now self → ⊥) }
    {
        let mut kept = self;
        kept.drain(rt, alloc)?;
        if kept.short || !all_ended(kept.scripts.as_slice()) {
            return Err(Stop::Memory);
        }
        if !kept.is_planned(alloc, of, plan, rounds)? {
            return Err(Stop::Audit);
        }
        let frames = frames_of(alloc, &kept.slot)?;
        let Kept { history, .. } = kept;
        Ok(GuestReport { history, frames })
    }
}

/// The numbers of the frames that back the slot's pages, by rising page.
#[tactic(auto, using(crate::proofs::Gathered::frames_some, crate::proofs::Gathered::frames_none))]
fn frames_of<S: GuestSlot>(alloc: Global, slot: &S) -> Result<Vec<u32>, AllocError>
    ensures { IfOk result (λ frames. (g : Guest) → S.stands slot.now g
        → frames.items ≡ frames_behind g) }
{
    let mut frames = Vec::new(alloc);
    for page in 0..slot.pages() {
        if let Some(frame) = slot.backing(page) {
            frames.push(frame)?;
        }
    }
    Ok(frames)
}

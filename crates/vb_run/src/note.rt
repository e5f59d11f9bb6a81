//! A guest's history as it is kept: of a processor's call only its place in the script.

ghost use Rattle.std.specs.Prelude.{◌≡◌, List, [], IfOk, map};
ghost use Rattle.vb_model.specs.GuestRun.{Called};
ghost use Rattle.vb_run.specs.declared.note.Caller.TheVariants.{Processor as ByProcessor};
ghost use Rattle.vb_run.specs.declared.note.Caller.TheVariants.{Worker as ByWorker};
ghost use Rattle.vb_run.specs.Notes.{actor_in, call_in, noted_entry, reply_in};

use crate::entry::{Entry, Step};
use crate::served::{SERVICES, service};
use std::alloc::{AllocError, Global};
use vb_model::{Actor, Call, Claim, Reply};
use vb_virtio::negotiation::OFFERED_FEATURES;

/// Who made a call, and what tells which one it was.
#[derive(Clone, Copy, Debug, PartialEq, Eq)]
pub enum Caller {
    /// The starter of guests: the initialisation, with the features that a driver accepts by
    /// default.
    Starter,
    /// A processor: the call at this place of its script, from 0 on.
    Processor { cpu: u32, place: usize },
    /// The worker: its service of this number, from 0 on.
    Worker { service: usize },
    /// The balancer: a target of `pages` pages.
    Balancer { pages: u32 },
}

/// What was done to a guest under its lock, as its history keeps it.
#[derive(Drop)]
pub enum Note {
    /// A call, what the guest's claims of frames were answered by its device, in order, and the
    /// reply.
    Called {
        caller: Caller,
        claims: Vec<Claim>,
        reply: Reply,
    },
    /// The balancer saw how many pages the guest can spare above a floor.
    Looked {
        floor: u32,
        spare: u32,
    },
}

/// The call at a place of a processor's script.
fn call_at(alloc: Global, scripts: &[Vec<Call>], cpu: u32, place: usize) -> Result<Call, AllocError>
    ensures { IfOk result (λ call. call ≡ call_in (map (λ calls. calls.items) scripts.now)
        (ByProcessor cpu place)) }
{
    let Some(calls) = scripts.get(cpu as usize) else {
        return Ok(Call::Work);
    };
    match calls.get(place) {
        Some(call) => call.copy(alloc),
        None => Ok(Call::Work),
    }
}

/// The worker's call of this number, if there is one.
fn service_at(number: usize) -> Call
    ensures { result ≡ call_in [] (ByWorker number) }
{
    if number < SERVICES {
        service(number)
    } else {
        Call::Work
    }
}

/// A copy of the call that this caller made at a guest with these scripts.
fn call_of(alloc: Global, scripts: &[Vec<Call>], caller: Caller) -> Result<Call, AllocError>
    ensures { IfOk result
        (λ call. call ≡ call_in (map (λ calls. calls.items) scripts.now) caller) }
{
    match caller {
        Caller::Starter => Ok(Call::Init {
            features: OFFERED_FEATURES,
        }),
        Caller::Processor { cpu, place } => call_at(alloc, scripts, cpu, place),
        Caller::Worker { service } => Ok(service_at(service)),
        Caller::Balancer { pages } => Ok(Call::SetTarget { pages }),
    }
}

/// The actor that this caller is at a guest.
fn actor_of(guest: u32, caller: Caller) -> Actor
    ensures { result ≡ actor_in guest caller }
{
    match caller {
        Caller::Starter => Actor::Starter,
        Caller::Processor { cpu, .. } => Actor::Processor { guest, cpu },
        Caller::Worker { .. } => Actor::Worker { guest },
        Caller::Balancer { .. } => Actor::Balancer,
    }
}

/// A copy of what was called.
fn called(
    alloc: Global,
    guest: u32,
    scripts: &[Vec<Call>],
    caller: Caller,
    claims: &[Claim],
    reply: &Reply,
) -> Result<Entry, AllocError>
    ensures { IfOk result (λ entry. entry ≡ Called (actor_in guest caller)
        (call_in (map (λ calls. calls.items) scripts.now) caller) claims.now reply.now) }
{
    let mut copied = Vec::new(alloc);
    copied.extend_from_slice(claims)?;
    Ok(Entry::new(Step::Called {
        actor: actor_of(guest, caller),
        call: call_of(alloc, scripts, caller)?,
        claims: copied,
        reply: reply.copy(alloc)?,
    }))
}

/// A copy of the entry that a note of this guest represents, whose processors have these scripts.
pub(crate) fn entry_of(
    alloc: Global,
    guest: u32,
    scripts: &[Vec<Call>],
    note: &Note,
) -> Result<Entry, AllocError>
    ensures { IfOk result (λ entry. entry
        ≡ noted_entry guest (map (λ calls. calls.items) scripts.now) note.now) }
{
    match note {
        Note::Called {
            caller,
            claims,
            reply,
        } => called(alloc, guest, scripts, *caller, claims.as_slice(), reply),
        Note::Looked { floor, spare } => Ok(Entry::new(Step::Looked {
            floor: *floor,
            spare: *spare,
        })),
    }
}

/// A copy of the reply that the note has, if it is a call of this processor.
pub(crate) fn reply_by(alloc: Global, note: &Note, cpu: u32) -> Result<Option<Reply>, AllocError>
    ensures { IfOk result (λ reply. reply ≡ reply_in cpu note.now) }
{
    match note {
        Note::Called {
            caller: Caller::Processor { cpu: own, .. },
            reply,
            ..
        } if cpu == *own => Ok(Some(reply.copy(alloc)?)),
        _ => Ok(None),
    }
}

//! What is compared and gathered once all threads of a run have ended.

ghost use Rattle.std.specs.Prelude.{◌≡◌, ◌↔◌, ◌≤◌, ◌<◌, true, length, IfOk, OnOk, []};
ghost use Rattle.std.specs.Prelude.{Some, slice_get, map, All, ◌++◌};
ghost use Rattle.std.specs.Prelude.{slice_index_or, drop};
ghost use Rattle.vb_model.specs.declared.calls.Actor.TheVariants.{Balancer};
ghost use Rattle.vb_virtio.specs.Targets.{spare_at};
ghost use Rattle.vb_run.specs.Entries.{is_same, entries_by, actor_of};
ghost use Rattle.vb_run.specs.Notes.{history_of, noted_entry};
ghost use Rattle.vb_run.specs.Reports.{IsRound};
ghost use Rattle.vb_run.specs.Rounds.{is_of_round, round_entries, target_entries};
ghost use Rattle.std.specs.List.{list_all};

use crate::entry::{Entry, Step};
use crate::note::{Caller, Note};
use crate::plan::{GuestPlan, Plan};
use crate::round::Round;
use std::alloc::{AllocError, Global};
use vb_balance::GuestNeed;
use vb_model::{Actor, Call, Reply};

/// Whether the note is the balancer's.
fn is_balancers(guest: u32, note: &Note) -> bool
    ensures { result ≡ is_same Balancer (actor_of (noted_entry guest [] note.now)) }
{
    match note {
        Note::Called { caller, .. } => matches!(caller, Caller::Balancer { .. }),
        Note::Looked { .. } => true,
    }
}

/// How many pages the guest of this number could spare.
fn spare_of(needs: &[GuestNeed], guest: usize) -> u32
    ensures { result ≡ spare_at needs.now guest }
{
    if guest < needs.len() {
        let need = needs[guest];
        need.spare
    } else {
        0
    }
}

fn number_at(numbers: &[u32], place: usize) -> u32
    ensures { result ≡ slice_index_or numbers.now place 0 }
{
    if place < numbers.len() {
        numbers[place]
    } else {
        0
    }
}

/// The entry of a target that an answer sets, if it sets any.
fn push_target(
    alloc: Global,
    entries: &mut Vec<Entry>,
    guest: u32,
    answer: &Reply,
) -> Result<(), AllocError>
    ensures { OnOk result
        (entries.new.items ≡ entries.old.items ++ target_entries guest answer.now) }
{
    if let Reply::Targets { pages } = answer {
        entries.push(Entry::new(Step::Called {
            actor: Actor::Balancer,
            call: Call::SetTarget {
                pages: number_at(pages.as_slice(), guest as usize),
            },
            claims: Vec::new(alloc),
            reply: Reply::Done,
        }))?;
    }
    Ok(())
}

/// The entries that the rounds make at a guest.
#[tactic(auto, using(crate::proofs::Gathered::rounds_next))]
pub(crate) fn expected_of(
    alloc: Global,
    floor: u32,
    guest: u32,
    rounds: &[Round],
) -> Result<Vec<Entry>, AllocError>
    ensures { IfOk result (λ entries. entries.items ≡ round_entries floor guest rounds.now) }
{
    let mut entries = Vec::new(alloc);
    for round in rounds {
        entries.push(Entry::new(Step::Looked {
            floor,
            spare: spare_of(round.needs(), guest as usize),
        }))?;
        push_target(alloc, &mut entries, guest, round.answer())?;
    }
    Ok(entries)
}

/// Whether both record the same look, or the same target that was set without a claim.
fn is_same_entry(guest: u32, note: &Note, other: &Entry) -> bool
    ensures { (result ≡ true) ↔ ((noted_entry guest [] note.now ≡ other.now)
        × (is_of_round (noted_entry guest [] note.now) ≡ true)) }
{
    match (note, other.step()) {
        (Note::Looked { floor: a, spare: b }, Step::Looked { floor: c, spare: d }) => a == c
            && b == d,
        (
            Note::Called {
                caller: Caller::Balancer { pages: a },
                claims: b,
                reply: Reply::Done,
            },
            Step::Called {
                actor: Actor::Balancer,
                call: Call::SetTarget { pages: c },
                claims: d,
                reply: Reply::Done,
            },
        ) => a == c && b.is_empty() && d.is_empty(),
        _ => false,
    }
}

/// Whether this note is at a place of the expected entries, and is one of a round.
fn is_at(guest: u32, expected: &[Entry], place: usize, note: &Note) -> bool
    ensures { (result ≡ true)
        ↔ ((slice_get expected.now place ≡ Some (noted_entry guest [] note.now))
        × (is_of_round (noted_entry guest [] note.now) ≡ true)) }
{
    place < expected.len() && is_same_entry(guest, note, &expected[place])
}

/// Whether these are the balancer's entries, and each of them one of a round.
#[tactic(auto, using(crate::proofs::Gathered::entries_none))]
pub(crate) fn has_made(guest: u32, history: &[Note], expected: &[Entry]) -> bool
    ensures { (result ≡ true)
        ↔ ((entries_by Balancer (history_of guest [] history.now) ≡ expected.now)
        × (list_all is_of_round expected.now ≡ true)) }
{
    let mut place = 0;
    for note in history {
        if !is_balancers(guest, note) {
            continue;
        }
        if !is_at(guest, expected, place, note) {
            return false;
        }
        place += 1;
    }
    place == expected.len()
}

/// Whether the round is one over all guests of the plan.
fn is_round(plan: &Plan, round: &Round) -> bool
    ensures { (result ≡ true) ↔ IsRound plan.now round.now }
{
    let _ = round.answer();
    round.frames() == plan.frames && are_sizes(round.needs(), plan.guests.as_slice())
}

/// Whether these are the guests' numbers of pages.
fn are_sizes(needs: &[GuestNeed], guests: &[GuestPlan]) -> bool
    ensures { (result ≡ true)
        ↔ (map (λ n. n.pages) needs.now ≡ map (λ g. g.config.pages) guests.now) }
{
    if needs.len() != guests.len() {
        return false;
    }
    for place in 0..needs.len() {
        let need = needs[place];
        if need.pages != guests[place].config.pages {
            return false;
        }
    }
    true
}

/// Whether each of the rounds is one of the plan.
#[tactic(auto, using(crate::proofs::Lists::all_next, crate::proofs::Lists::all_whole))]
pub(crate) fn are_rounds(plan: &Plan, rounds: &[Round]) -> bool
    ensures { (result ≡ true) ↔ All (IsRound plan.now) rounds.now }
{
    for round in rounds {
        if !is_round(plan, round) {
            return false;
        }
    }
    true
}

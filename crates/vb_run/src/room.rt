//! Room that is made before it is needed: for a history, and for the claims of a guest's next call.

ghost use Rattle.std.specs.Prelude.{◌≡◌, ◌≤◌, ◌<◌, [], OnOk, vec_capacity};

use crate::script::Script;
use std::alloc::{AllocError, Global};
use std::convert::AsSlice;
use std::mem;
use vb_guest::MAX_CLAIMS;
use vb_model::{Call, Claim};
use vb_slot::GuestSlot;

/// Entries that have room however short the scripts are.
const FEW_ENTRIES: usize = 64;

/// How many calls the scripts have.
fn count_calls<L: AsSlice<Call> + Drop>(scripts: &[Script<L>]) -> usize {
    let mut count: usize = 0;
    for script in scripts {
        count = count.saturating_add(script.len());
    }
    count
}

/// How many entries have room from the start where these are the scripts: one for each call, and as
/// many again for the worker and the balancer, since a history that grows is copied while its guest
/// waits, and room that isn't used takes no memory.
pub(crate) fn room_for<L: AsSlice<Call> + Drop>(scripts: &[Script<L>]) -> usize
    ensures { 1 ≤ result }
{
    count_calls(scripts)
        .saturating_mul(2)
        .saturating_add(FEW_ENTRIES)
}

/// Makes an empty room for the claims of a call.
pub(crate) fn make_room(room: &mut Vec<Claim>) -> Result<(), AllocError>
    ensures empty { OnOk result (room.new.items ≡ []) }
    ensures room { OnOk result (MAX_CLAIMS ≤ vec_capacity room.new) }
{
    room.clear();
    room.reserve(MAX_CLAIMS)
}

/// What the slot's last call was answered for its claims. These take the room, if there are any.
pub(crate) fn claims_in<S: GuestSlot>(alloc: Global, slot: &S, room: &mut Vec<Claim>) -> Vec<Claim>
    requires empty { room.old.items ≡ [] }
    requires room { MAX_CLAIMS ≤ vec_capacity room.old }
    ensures { result.items ≡ S.claimed slot.now }
{
    let claims = slot.claims();
    if claims.is_empty() {
        return Vec::new(alloc);
    }
    let mut taken = mem::replace(room, Vec::new(alloc));
    for claim in claims {
        taken.push_reserved(*claim);
    }
    taken
}

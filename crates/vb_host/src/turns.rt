//! Whose turn it is, as the host decides.

ghost use Rattle.std.specs.Prelude.{◌≡◌, map};
ghost use Rattle.vb_host.specs.Lending.{each_at, next_turn, preferring_at};
ghost use Rattle.vb_host.specs.Seats.{deferring, preferring};

use crate::Seat;
use crate::line::next_turn;

/// No guest is preferred.
fn prefer_none(seats: &mut [Seat])
    ensures { seats.new ≡ map (preferring 0) seats.old }
{
    for guest in 0..seats.len() {
        set_preferred(seats, guest, 0);
    }
}

/// A guest is preferred from now on, or it isn't.
#[tactic(auto, using(crate::proofs::Places::at_places))]
fn set_preferred(seats: &mut [Seat], guest: usize, preferred: u32)
    ensures { seats.new ≡ each_at guest (preferring preferred) seats.old }
{
    if guest < seats.len() {
        seats[guest].prefer(preferred);
    }
}

/// Of all guests just this one is preferred from now on.
pub(crate) fn prefer(seats: &mut [Seat], guest: usize)
    ensures { seats.new ≡ preferring_at guest seats.old }
{
    prefer_none(seats);
    set_preferred(seats, guest, 1);
}

/// A guest that waits in a reset or to come lets others pass.
#[tactic(auto, using(crate::proofs::Places::at_places))]
pub(crate) fn defer(seats: &mut [Seat], guest: usize)
    ensures { seats.new ≡ each_at guest (deferring (next_turn seats.old)) seats.old }
{
    let turn = next_turn(seats);
    if guest < seats.len() {
        seats[guest].defer(turn);
    }
}

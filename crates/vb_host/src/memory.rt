//! Memory that is added to a guest.

ghost use Rattle.std.specs.Prelude.{◌≡◌, ◌+◌, ◌<◌, ◌^◌, length, nat_lt};
ghost use Rattle.vb_host.specs.Lending.{each_at, may_join_at, joined_at, pages_at, value_at};
ghost use Rattle.vb_host.specs.Seats.{apart, grown};

use crate::Seat;

/// A place has this seat from now on.
#[tactic(auto, using(crate::proofs::Places::at_places))]
pub(crate) fn seat_at(seats: &mut [Seat], guest: usize, seat: Seat)
    ensures { seats.new ≡ each_at guest (λ _. seat) seats.old }
{
    if guest < seats.len() {
        seats[guest] = seat;
    }
}

/// The pages of a guest.
fn pages_of(seats: &[Seat], guest: usize) -> u32
    requires { guest < length seats.now }
    ensures { result ≡ pages_at seats.now guest }
{
    seats[guest].pages
}

/// The pages of a guest that stay in its balloon, or are outside.
fn apart_of(seats: &[Seat], guest: usize) -> u64
    requires { guest < length seats.now }
    ensures { result ≡ value_at apart seats.now guest }
{
    seats[guest].apart()
}

/// Whether two guests have fewer than 2^32 pages together.
fn are_few(seats: &[Seat], guest: usize, added: usize) -> bool
    requires place { guest < length seats.now }
    requires from { added < length seats.now }
    ensures { result ≡ nat_lt (pages_at seats.now guest + pages_at seats.now added) 4294967296 }
{
    let one = u64::from(pages_of(seats, guest));
    let other = u64::from(pages_of(seats, added));
    one + other < 4294967296
}

/// Whether the memory at a place may join a guest.
fn may_join(seats: &[Seat], guest: usize, added: usize) -> bool
    ensures { result ≡ may_join_at seats.now guest added }
{
    if guest >= seats.len() {
        return false;
    }
    if added >= seats.len() {
        return false;
    }
    if guest == added {
        return false;
    }
    if apart_of(seats, added) > 0 {
        return false;
    }
    are_few(seats, guest, added)
}

/// This many pages join a guest.
fn grow(seats: &mut [Seat], guest: usize, pages: u32)
    requires place { guest < length seats.old }
    requires few { pages_at seats.old guest + pages < 2 ^ 32 }
    ensures { seats.new ≡ each_at guest (grown pages) seats.old }
{
    seats[guest].grow(pages);
}

/// The memory at a place joins a guest, where it may.
pub(crate) fn join(seats: &mut [Seat], guest: usize, added: usize)
    ensures { seats.new ≡ joined_at guest added seats.old }
{
    if may_join(seats, guest, added) {
        let pages = pages_of(seats, added);
        grow(seats, guest, pages);
        seat_at(seats, added, Seat::newcomer(0));
    }
}

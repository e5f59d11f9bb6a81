//! What is lent to all guests, and who is granted next.

ghost use Rattle.std.specs.Prelude.{◌≡◌, ℕ, ◌+◌, ◌-◌, ◌*◌, ◌<◌, ◌≤◌, length, map, nat_le};
ghost use Rattle.std.specs.Prelude.{MatchOption, Some, None};
ghost use Rattle.vb_host.specs.Lending.{owed, shown_owed, waited, last_turn, next_turn, held_at};
ghost use Rattle.vb_host.specs.Lending.{is_first};
ghost use Rattle.vb_host.specs.Lending.{value_at};
ghost use Rattle.std.specs.List.{list_all};
ghost use Rattle.vb_host.specs.Line.{IsFirst, FirstBelow, lined};
ghost use Rattle.vb_host.specs.Seats.{asked, is_done};

use crate::Seat;

/// How many frames are lent to all guests together.
pub fn owed(seats: &[Seat]) -> u128
    ensures value { result ≡ owed seats.now }
    ensures small { result ≤ 8589934590 * length seats.now }
{
    let mut pages: u128 = 0;
    for seat in seats {
        pages += u128::from(seat.lent());
    }
    pages
}

/// How many frames those are, as far as 64 bits show it.
pub fn shown_owed(seats: &[Seat]) -> u64
    ensures { result ≡ shown_owed seats.now }
{
    owed(seats).min(u128::from(u64::MAX)) as u64
}

/// How many frames those are, with what all that wait would be lent beyond them.
pub fn claimed(seats: &[Seat]) -> u128
    ensures value { result ≡ owed seats.now + waited seats.now }
    ensures small { result ≤ 12884901885 * length seats.now }
{
    let mut pages: u128 = 0;
    for seat in seats {
        pages += u128::from(seat.lent()) + u128::from(seat.asked());
    }
    pages
}

/// How many frames of the budget are left beside those that are claimed.
pub(crate) fn left_beside(frames: u32, claimed: u128) -> u32
    ensures { result ≡ frames - claimed }
{
    let all = u128::from(frames);
    if claimed < all {
        (all - claimed) as u32
    } else {
        0
    }
}

/// How many frames of the budget no guest has and no guest waits for.
pub fn room(frames: u32, seats: &[Seat]) -> u32
    ensures { result ≡ frames - (owed seats.now + waited seats.now) }
{
    left_beside(frames, claimed(seats))
}

/// The latest turn.
fn last_turn(seats: &[Seat]) -> u64
    ensures { result ≡ last_turn seats.now }
{
    let mut last = 0;
    for seat in seats {
        if seat.turn > last {
            last = seat.turn;
        }
    }
    last
}

/// The turn of a guest that waits from now on.
pub(crate) fn next_turn(seats: &[Seat]) -> u64
    ensures { result ≡ next_turn seats.now }
{
    last_turn(seats).saturating_add(1)
}

/// Which of two guests waits before the other, in a line or a later one: the first so far, or the
/// one at a place.
fn earlier(seats: &[Seat], line: u32, first: Option<usize>, place: usize) -> Option<usize>
    requires place { place < length seats.now }
    requires first { FirstBelow (map (lined line) seats.now) place first }
    ensures { FirstBelow (map (lined line) seats.now) (place + 1) result }
{
    let seat = &seats[place];
    if seat.held_from(line) == 0 {
        return first;
    }
    match first {
        None => Some(place),
        Some(other) => {
            let before = seats[other].rank();
            let own = seat.rank();
            if own < before {
                Some(place)
            } else {
                Some(other)
            }
        }
    }
}

/// The place of the guest that waits first in a line or a later one; none where no guest waits
/// there.
pub(crate) fn first_from(seats: &[Seat], line: u32) -> Option<usize>
    ensures { MatchOption result ((n : ℕ) → held_at (map (lined line) seats.now) n ≡ 0)
        (λ n. (n < length seats.now) × IsFirst (map (lined line) seats.now) n) }
{
    let mut first = None;
    for place in 0..seats.len() {
        first = earlier(seats, line, first, place);
    }
    first
}

/// The place of a guest that waits first; none where no guest waits.
pub fn first_in_line(seats: &[Seat]) -> Option<usize>
    ensures { MatchOption result ((n : ℕ) → held_at seats.now n ≡ 0)
        (λ n. (n < length seats.now) × IsFirst seats.now n) }
{
    first_from(seats, 0)
}

/// Whether a guest waits, and no other before it.
pub(crate) fn is_first(seats: &[Seat], guest: usize) -> bool
    ensures { result ≡ is_first seats.now guest }
{
    match first_in_line(seats) {
        Some(first) => first == guest,
        None => false,
    }
}

/// What is lent to all guests together, with what a guest asks for.
fn owed_with(seats: &[Seat], guest: usize) -> u128
    requires { guest < length seats.now }
    ensures value { result ≡ owed seats.now + value_at asked seats.now guest }
{
    owed(seats) + u128::from(seats[guest].asked())
}

/// Whether there is room for what a guest asks for.
pub(crate) fn has_room(frames: u32, seats: &[Seat], guest: usize) -> bool
    requires { guest < length seats.now }
    ensures { result ≡ nat_le (owed seats.now + value_at asked seats.now guest) frames }
{
    owed_with(seats, guest) <= u128::from(frames)
}

/// Whether there is room for what a guest asks for, with the overdraft.
pub(crate) fn overdraft_has_room(frames: u32, overdraft: u32, seats: &[Seat], guest: usize) -> bool
    requires { guest < length seats.now }
    ensures { result ≡
        nat_le (owed seats.now + value_at asked seats.now guest) (frames + overdraft) }
{
    owed_with(seats, guest) <= u128::from(frames) + u128::from(overdraft)
}

/// Whether each guest waits, or has in its balloon what its target says.
pub(crate) fn is_done_all(seats: &[Seat]) -> bool
    ensures { result ≡ list_all is_done seats.now }
{
    for seat in seats {
        if !seat.is_done() {
            return false;
        }
    }
    true
}

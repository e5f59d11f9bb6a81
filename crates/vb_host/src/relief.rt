//! How a host whose guests wait for each other is helped.

ghost use Rattle.std.specs.Prelude.{◌≡◌, ◌≤◌, ◌-◌, ◌*◌, length};
ghost use Rattle.vb_host.specs.Lending.{Lending, turn_at, test_at};
ghost use Rattle.vb_host.specs.Relief.{alone, count, deferral, first_from, overdraft_relief};
ghost use Rattle.vb_host.specs.Relief.{is_due_to_defer, is_just_preferred, place_of, due_relief};
ghost use Rattle.vb_host.specs.Relief.{stands_still, stood, turn_of};
ghost use Rattle.vb_host.specs.Relief.{DefersForAnother, FirstIsNoted, HeadIsNoted, MovesAreNoted};
ghost use Rattle.vb_host.specs.Relief.{NobodyIsHurried, OverdrawsIfPossible, PrefersTheFirst};
ghost use Rattle.vb_host.specs.Seats.{is_preferred, may_defer};

use crate::lending::may_overdraw;
use crate::line::{first_from, shown_owed};
use crate::{Event, Seat};

/// How many milliseconds nothing moves on a host that stands still.
const STANDS: u64 = 1000;

/// Since when a host stands still, from one look to the next; zeros before the first.
#[repr(C)]
#[derive(Clone, Copy, Debug, Default, PartialEq, Eq)]
pub struct Stand {
    /// 1 more than the place of the guest that waits first; 0 where none does.
    pub first: u64,
    /// How many frames are lent to all guests together; 2^64 - 1 where it is more.
    pub lent: u64,
    /// Since when both are so, in milliseconds.
    pub since: u64,
    /// 1 more than the place of the guest that waits first of those that wait in a reset or to
    /// come; 0 where none does. Its turn.
    pub head: u64,
    pub turn: u64,
    /// Since when both are so, in milliseconds.
    pub head_since: u64,
}

/// What a host is as it looks.
#[repr(C)]
#[derive(Clone, Copy, Debug, Default, PartialEq, Eq)]
pub struct Look {
    /// The time, in milliseconds.
    pub time: u64,
    /// How many pages its guests can't give of those that are missing; 0 on a host that isn't
    /// short.
    pub missing: u64,
    /// For how many seconds the first that waits in a reset or to come keeps others waiting.
    pub patience: u32,
    /// Whether a guest of an earlier lender hasn't reported yet: 0 where none is awaited.
    pub awaits: u32,
}

/// 1 more than the place of the guest that waits first in a line or a later one; 0 where none
/// does.
fn first_number(seats: &[Seat], line: u32) -> u64
    ensures { result ≡ first_from line seats.now }
{
    match first_from(seats, line) {
        Some(place) => place as u64 + 1,
        None => 0,
    }
}

/// The turn of the guest with a number; 0 where there is none.
#[tactic(auto, using(crate::proofs::Places::at_values))]
fn turn_of(seats: &[Seat], number: u64) -> u64
    ensures { result ≡ turn_of number seats.now }
{
    if number == 0 || number > seats.len() as u64 {
        return 0;
    }
    seats[(number - 1) as usize].turn
}

/// How many guests are preferred.
fn preferred_count(seats: &[Seat]) -> u128
    ensures value { result ≡ count is_preferred seats.now }
    ensures small { result ≤ length seats.now }
{
    let mut count: u128 = 0;
    for seat in seats {
        count += u128::from(seat.is_preferred());
    }
    count
}

/// How many guests wait in a reset or to come.
fn lined_count(seats: &[Seat]) -> u128
    ensures value { result ≡ count may_defer seats.now }
    ensures small { result ≤ length seats.now }
{
    let mut count: u128 = 0;
    for seat in seats {
        count += u128::from(seat.may_defer());
    }
    count
}

/// Whether the guest with a number is there, and preferred.
#[tactic(auto, using(crate::proofs::Places::at_places))]
fn is_preferred(seats: &[Seat], number: u64) -> bool
    ensures { result ≡ test_at is_preferred seats.now (number - 1) }
{
    let place = number.saturating_sub(1);
    place < seats.len() as u64 && seats[place as usize].is_preferred()
}

/// Whether just the guest with a number is preferred; none where it is 0.
fn is_just_preferred(seats: &[Seat], number: u64) -> bool
    ensures { result ≡ is_just_preferred number seats.now }
{
    if number > 0 {
        preferred_count(seats) == 1 && is_preferred(seats, number)
    } else {
        preferred_count(seats) == 0
    }
}

/// The place of a number; of 0 one that no guest is at.
fn place_of(seats: &[Seat], number: u64) -> usize
    ensures { result ≡ place_of number seats.now }
{
    if number > 0 {
        (number - 1) as usize
    } else {
        seats.len()
    }
}

impl Stand {
    /// Since when the host stands still.
    pub fn noted(&self, seats: &[Seat], now: u64) -> Stand
        ensures { result ≡ stood now self.now seats.now }
    {
        let (first, lent) = (first_number(seats, 0), shown_owed(seats));
        let head = first_number(seats, 1);
        let turn = turn_of(seats, head);
        let stood = self.first == first && self.lent == lent;
        let headed = self.head == head && self.turn == turn;
        Stand {
            first,
            lent,
            since: if stood { self.since } else { now },
            head,
            turn,
            head_since: if headed { self.head_since } else { now },
        }
    }
}

impl Look {
    /// Whether the host is at rest, and all its guests have reported to this lender.
    fn stands_still(&self, stand: &Stand) -> bool
        ensures { result ≡ stands_still self.now stand.now }
    {
        let until = u128::from(stand.since) + u128::from(STANDS);
        self.awaits == 0 && until <= u128::from(self.time)
    }

    /// The number of the guest that is to proceed alone; 0 where none is.
    fn alone(&self, stand: &Stand) -> u64
        ensures { result ≡ alone self.now stand.now }
    {
        if self.missing > 0 { stand.first } else { 0 }
    }

    /// Whether the guest that waits first of those that restart or come has waited for long enough,
    /// and another waits after it.
    fn is_due_to_defer(&self, stand: &Stand, seats: &[Seat]) -> bool
        ensures { result ≡ is_due_to_defer self.now stand.now seats.now }
    {
        let until = u128::from(stand.head_since) + 1000 * u128::from(self.patience);
        self.awaits == 0
            && stand.head > 0
            && until <= u128::from(self.time)
            && lined_count(seats) > 1
    }
}

/// How the first that waits lets others pass: once it is preferred no longer.
fn deferral(stand: &Stand, seats: &[Seat]) -> Event
    ensures { result ≡ deferral stand.now seats.now }
{
    if is_preferred(seats, stand.head) {
        Event::Prefers { guest: seats.len() }
    } else {
        Event::Defers {
            guest: stand.head.saturating_sub(1) as usize,
        }
    }
}

/// What lends the first that waits from the overdraft, where that is possible.
fn overdrawn(frames: u32, overdraft: u32, seats: &[Seat], first: u64) -> Option<Event>
    ensures { result ≡ overdraft_relief first
        (record { frames = frames; overdraft = overdraft; seats = seats.now }) }
{
    let guest = first.saturating_sub(1) as usize;
    if first > 0 && may_overdraw(frames, overdraft, seats, guest) {
        Some(Event::Overdraws { guest })
    } else {
        None
    }
}

/// The event by which the host is helped now, to be followed by a step and another look; none where
/// none is due.
pub fn due_relief(
    frames: u32,
    overdraft: u32,
    seats: &[Seat],
    stand: &Stand,
    look: &Look,
) -> Option<Event>
    ensures { result ≡ due_relief look.now stand.now
        (record { frames = frames; overdraft = overdraft; seats = seats.now }) }
{
    if look.is_due_to_defer(stand, seats) {
        return Some(deferral(stand, seats));
    }
    if !look.stands_still(stand) {
        return None;
    }
    let alone = look.alone(stand);
    if !is_just_preferred(seats, alone) {
        let guest = place_of(seats, alone);
        return Some(Event::Prefers { guest });
    }
    overdrawn(frames, overdraft, seats, stand.first)
}

/// A host is helped once it stands still, or its patience is over; who proceeds alone, or is lent
/// from the overdraft, waits first; and who lets others pass has waited for long enough.
pub fn only_a_standstill_is_relieved()
    ensures hurry { NobodyIsHurried }
    ensures first { FirstIsNoted }
    ensures head { HeadIsNoted }
    ensures moves { MovesAreNoted }
    ensures alone { PrefersTheFirst }
    ensures overdraft { OverdrawsIfPossible }
    ensures passing { DefersForAnother }
{}

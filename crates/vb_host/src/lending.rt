//! What happens to a lender, and its one step.

ghost use Rattle.std.specs.Prelude.{◌≡◌, ℕ, ◌+◌, ◌<◌, length, map, false};
ghost use Rattle.vb_host.specs.Lending.{Lending, each_at, next_turn, may_grant, may_overdraw};
ghost use Rattle.vb_host.specs.Lending.{owed, waited};
ghost use Rattle.vb_host.specs.Lending.{happens, value_at, all_targeted, test_at};
ghost use Rattle.vb_host.specs.Line.{IsStep, ByGrants, GrantsNone};
ghost use Rattle.vb_host.specs.Seats.{covers, granted_waiting, granting, heard, retargeted};
ghost use Rattle.vb_host.specs.Seats.{room_after, uncounting};
ghost use Rattle.vb_host.specs.declared.event.Event.TheVariants.{Grants, Overdraws, Targets};

use crate::line::{
    claimed, first_in_line, has_room, is_done_all, is_first, left_beside, next_turn,
    overdraft_has_room, owed, room,
};
use crate::memory::{join, seat_at};
use crate::turns::{defer, prefer};
use crate::{Event, Report, Seat};

/// Whether a guest's deflate may be granted.
fn may_grant(frames: u32, seats: &[Seat], guest: usize) -> bool
    ensures { (overdraft : ℕ) → result ≡
        may_grant (record { frames = frames; overdraft = overdraft; seats = seats.now }) guest }
{
    if guest >= seats.len() {
        return false;
    }
    if seats[guest].covers() {
        return true;
    }
    is_first(seats, guest) && has_room(frames, seats, guest)
}

/// Whether a guest's deflate may be granted from the overdraft.
pub(crate) fn may_overdraw(frames: u32, overdraft: u32, seats: &[Seat], guest: usize) -> bool
    ensures { result ≡
        may_overdraw (record { frames = frames; overdraft = overdraft; seats = seats.now }) guest }
{
    if guest >= seats.len() {
        return false;
    }
    is_first(seats, guest)
        && is_done_all(seats)
        && overdraft_has_room(frames, overdraft, seats, guest)
}

/// Grants a guest's deflate.
fn let_go(seats: &mut [Seat], guest: usize)
    requires { guest < length seats.old }
    ensures { seats.new ≡ each_at guest granting seats.old }
{
    seats[guest].grant();
}

/// Grants a guest's deflate, where that is allowed.
fn grant(frames: u32, seats: &mut [Seat], guest: usize)
    ensures { (overdraft : ℕ) →
        record { frames = frames; overdraft = overdraft; seats = seats.new } ≡
        happens (record { frames = frames; overdraft = overdraft; seats = seats.old })
        (Grants guest) }
{
    if may_grant(frames, seats, guest) {
        let_go(seats, guest);
    }
}

/// Grants a guest's deflate from the overdraft, where that is allowed.
fn overdraw(frames: u32, overdraft: u32, seats: &mut [Seat], guest: usize)
    ensures { record { frames = frames; overdraft = overdraft; seats = seats.new } ≡
        happens (record { frames = frames; overdraft = overdraft; seats = seats.old })
        (Overdraws guest) }
{
    if may_overdraw(frames, overdraft, seats, guest) {
        let_go(seats, guest);
    }
}

/// The turn of a guest that has reported: only one with a deflate that waits needs the next one.
fn turn_by(seats: &[Seat], report: &Report) -> u64
    ensures { 0 < report.now.held → result ≡ next_turn seats.now }
{
    if report.held > 0 { next_turn(seats) } else { 0 }
}

/// A guest's process has reported.
#[tactic(auto, using(crate::proofs::Places::at_places))]
fn hear(seats: &mut [Seat], guest: usize, report: &Report)
    ensures { seats.new ≡ each_at guest (heard (next_turn seats.old) report.now) seats.old }
{
    let turn = turn_by(seats, report);
    if guest < seats.len() {
        seats[guest].hear(report, turn);
    }
}

/// This many pages of a guest are wanted in its balloon.
#[tactic(auto, using(crate::proofs::Places::at_places))]
fn want(seats: &mut [Seat], guest: usize, pages: u32)
    ensures { seats.new ≡ each_at guest (λ s. record s { wanted = pages }) seats.old }
{
    if guest < seats.len() {
        seats[guest].want(pages);
    }
}

/// A guest has the target from now on that is possible.
#[tactic(auto, using(crate::proofs::Places::at_places))]
fn target(frames: u32, seats: &mut [Seat], guest: usize)
    ensures { (overdraft : ℕ) →
        record { frames = frames; overdraft = overdraft; seats = seats.new } ≡
        happens (record { frames = frames; overdraft = overdraft; seats = seats.old })
        (Targets guest) }
{
    let room = room(frames, seats);
    if guest < seats.len() {
        retarget(seats, guest, room);
    }
}

/// A guest has the target from now on that is possible with this room. Returns the room that is
/// left.
fn retarget(seats: &mut [Seat], guest: usize, room: u32) -> u32
    requires { guest < length seats.old }
    ensures seats { seats.new ≡ each_at guest (retargeted room) seats.old }
    ensures left { result ≡ value_at (room_after room) seats.old guest }
{
    seats[guest].retarget(room)
}

/// Each guest has the target from now on that is possible with this room.
fn target_all(room: u32, seats: &mut [Seat])
    ensures { seats.new ≡ all_targeted room seats.old }
{
    let mut left = room;
    for guest in 0..seats.len() {
        left = retarget(seats, guest, left);
    }
}

/// A guest's balloon counts no longer.
#[tactic(auto, using(crate::proofs::Places::at_places))]
fn uncount(seats: &mut [Seat], guest: usize)
    ensures { seats.new ≡ each_at guest uncounting seats.old }
{
    if guest < seats.len() {
        seats[guest].uncount();
    }
}

/// One event, and nothing after it. `frames` is the budget, and `overdraft` how many frames beyond
/// it `Overdraws` may lend. Any numbers may be passed; an event that doesn't fit changes nothing.
pub fn happen(frames: &mut u32, overdraft: u32, seats: &mut [Seat], event: &Event)
    ensures { record { frames = frames.new; overdraft = overdraft; seats = seats.new } ≡
        happens (record { frames = frames.old; overdraft = overdraft; seats = seats.old })
        event.now }
{
    match *event {
        Event::Hears { guest, report } => hear(seats, guest, &report),
        Event::Grants { guest } => grant(*frames, seats, guest),
        Event::Overdraws { guest } => overdraw(*frames, overdraft, seats, guest),
        Event::Wants { guest, pages } => want(seats, guest, pages),
        Event::Targets { guest } => target(*frames, seats, guest),
        Event::Arrives {
            guest,
            pages,
            ballooned,
        } => seat_at(seats, guest, Seat::starting(pages, ballooned)),
        Event::Joins { guest, added } => join(seats, guest, added),
        Event::TakesOver {
            guest,
            pages,
            report,
        } => {
            let turn = next_turn(seats);
            seat_at(seats, guest, Seat::take_over(pages, &report, turn));
        }
        Event::Uncounts { guest } => uncount(seats, guest),
        Event::Budget { frames: more } => *frames = more,
        Event::Prefers { guest } => prefer(seats, guest),
        Event::Defers { guest } => defer(seats, guest),
    }
}

/// Grants each deflate that takes just what is lent already, from the lowest place.
fn grant_covered(frames: u32, seats: &mut [Seat])
    ensures grants { (overdraft : ℕ) →
        ByGrants (record { frames = frames; overdraft = overdraft; seats = seats.old })
        (record { frames = frames; overdraft = overdraft; seats = seats.new }) }
    ensures none { (n : ℕ) → test_at covers seats.new n ≡ false }
{
    for guest in 0..seats.len() {
        if seats[guest].covers() {
            let_go(seats, guest);
        }
    }
}

/// Grants who waits first, one after another, as long as there is room.
fn grant_in_turn(frames: u32, seats: &mut [Seat])
    requires { (n : ℕ) → test_at covers seats.old n ≡ false }
    ensures grants { (overdraft : ℕ) →
        ByGrants (record { frames = frames; overdraft = overdraft; seats = seats.old })
        (record { frames = frames; overdraft = overdraft; seats = seats.new }) }
    ensures none { (overdraft : ℕ) →
        GrantsNone (record { frames = frames; overdraft = overdraft; seats = seats.new }) }
{
    let mut lent = owed(seats);
    while let Some(guest) = first_in_line(seats) {
        lent += u128::from(seats[guest].asked());
        if lent > u128::from(frames) {
            return;
        }
        let_go(seats, guest);
    }
}

/// Grants a guest's deflate, if one waits.
fn grant_waiting_at(seats: &mut [Seat], guest: usize)
    requires { guest < length seats.old }
    ensures { seats.new ≡ each_at guest granted_waiting seats.old }
{
    seats[guest].grant_waiting();
}

/// Grants each deflate that waits.
fn grant_each(seats: &mut [Seat])
    ensures { seats.new ≡ map granted_waiting seats.old }
{
    for guest in 0..seats.len() {
        grant_waiting_at(seats, guest);
    }
}

/// Grants until no guest can be granted. `claimed` frames are lent, or would be to all that wait:
/// where there are as many, all are granted.
fn grant_all(frames: u32, seats: &mut [Seat], claimed: u128)
    requires { claimed ≡ owed seats.old + waited seats.old }
    ensures grants { (overdraft : ℕ) →
        ByGrants (record { frames = frames; overdraft = overdraft; seats = seats.old })
        (record { frames = frames; overdraft = overdraft; seats = seats.new }) }
    ensures none { (overdraft : ℕ) →
        GrantsNone (record { frames = frames; overdraft = overdraft; seats = seats.new }) }
{
    grant_covered(frames, seats);
    if claimed <= u128::from(frames) {
        grant_each(seats);
    } else {
        grant_in_turn(frames, seats);
    }
}

/// One step: an event (as `happen`), all grants that are possible then, and the target of each
/// guest. Each one's seat has its last grant and its target; `due_grant` and `due_target` say what
/// to send. It takes time linear in the guests, and as much again for each grant where not all that
/// wait have room.
pub fn step(frames: &mut u32, overdraft: u32, seats: &mut [Seat], event: &Event)
    ensures { IsStep (record { frames = frames.old; overdraft = overdraft; seats = seats.old })
        event.now (record { frames = frames.new; overdraft = overdraft; seats = seats.new }) }
{
    happen(frames, overdraft, seats, event);
    let claimed = claimed(seats);
    grant_all(*frames, seats, claimed);
    target_all(left_beside(*frames, claimed), seats);
}

//! A host's lender as one step: seats, events as plain numbers, and what a seat says.

ghost use Rattle.std.specs.Prelude.{◌≡◌, ◌≢◌, ◌-◌, ◌≤◌, ◌^◌, min};
ghost use Rattle.vb_virtio.specs.Tests.{one_if};
ghost use Rattle.vb_host.specs.Least.{least_budget};
ghost use Rattle.vb_host.specs.Lending.{room, shown_owed};
ghost use Rattle.vb_host.specs.Messages.{followed, noted, reading};
ghost use Rattle.vb_host.specs.Paces.{pace_of};
ghost use Rattle.vb_host.specs.Relief.{due_relief, stood};
ghost use Rattle.vb_host.specs.Seats.{asked, due_grant, due_target, lent, waits};
ghost use Rattle.vb_c.specs.Seats.{event_of, lending_of, relief_of, FirstFor, HappensFor, StepsFor};

use vb_host::{
    Aim, Event, Exchange, Look, Message, Pace, Reading, Report, Seat, Stand, due_relief,
    first_in_line, happen, least_budget, room, shown_owed, step,
};
use vb_monitor::{BAD_ARGUMENT, OK};

/// Which layout seats, reports and events have, as vb_host.h has it in VB_HOST_VERSION: another
/// number for each change of that.
const HOST_VERSION: u32 = 2;

/// A guest's process has reported.
const HEARS: u32 = 1;

/// A guest's deflate is granted.
const GRANTS: u32 = 2;

/// A guest's deflate is granted from the overdraft.
const OVERDRAWS: u32 = 3;

/// Pages are wanted in a guest's balloon.
const WANTS: u32 = 4;

/// A guest has the target that is possible.
const TARGETS: u32 = 5;

/// A guest arrives at a place.
const ARRIVES: u32 = 6;

/// The memory at a place joins a guest.
const JOINS: u32 = 7;

/// A guest sends its first report to a later lender.
const TAKES_OVER: u32 = 8;

/// A guest's balloon counts no longer.
const UNCOUNTS: u32 = 9;

/// The budget is set.
const BUDGET: u32 = 10;

/// Of all guests just one is preferred.
const PREFERS: u32 = 11;

/// A guest that waits lets others pass.
const DEFERS: u32 = 12;

/// How many frames a host has to lend, and how many beyond them.
#[repr(C)]
#[derive(Clone, Copy, Debug)]
pub struct VbHost {
    pub frames: u32,
    pub overdraft: u32,
}

/// What may happen to a lender, by its kind.
#[repr(C)]
#[derive(Clone, Copy, Debug)]
pub struct VbHostEvent {
    pub kind: u32,
    pub guest: usize,
    pub added: usize,
    pub pages: u32,
    pub ballooned: u32,
    pub frames: u32,
    pub report: Report,
}

impl VbHostEvent {
    /// The event of its kind, if that is one.
    pub(crate) fn event(&self) -> Option<Event>
        ensures { result ≡ event_of self.now }
    {
        let (guest, pages, report) = (self.guest, self.pages, self.report);
        Some(match self.kind {
            HEARS => Event::Hears { guest, report },
            GRANTS => Event::Grants { guest },
            OVERDRAWS => Event::Overdraws { guest },
            WANTS => Event::Wants { guest, pages },
            TARGETS => Event::Targets { guest },
            ARRIVES => Event::Arrives {
                guest,
                pages,
                ballooned: self.ballooned,
            },
            JOINS => Event::Joins {
                guest,
                added: self.added,
            },
            TAKES_OVER => Event::TakesOver {
                guest,
                pages,
                report,
            },
            UNCOUNTS => Event::Uncounts { guest },
            BUDGET => Event::Budget {
                frames: self.frames,
            },
            PREFERS => Event::Prefers { guest },
            DEFERS => Event::Defers { guest },
            _ => return None,
        })
    }
}

/// The event by which a host is helped that stands still; of kind 0 where none is due.
#[repr(C)]
#[derive(Clone, Copy, Debug)]
pub struct VbRelief {
    pub kind: u32,
    pub guest: usize,
}

/// Which layout seats, reports and events have.
#[unsafe(no_mangle)]
pub extern "C" fn vb_host_version() -> u32
    ensures { result ≡ HOST_VERSION }
{
    HOST_VERSION
}

/// One step of a host's lender.
#[unsafe(no_mangle)]
pub extern "C" fn vb_host_step(host: &mut VbHost, seats: &mut [Seat], event: &VbHostEvent) -> u32
    ensures { StepsFor host.old host.new seats.old seats.new event.now result }
{
    match event.event() {
        Some(event) => {
            step(&mut host.frames, host.overdraft, seats, &event);
            OK
        }
        None => BAD_ARGUMENT,
    }
}

/// What happens, before the next step: nobody is granted by it, and no target follows.
#[unsafe(no_mangle)]
pub extern "C" fn vb_host_happen(host: &mut VbHost, seats: &mut [Seat], event: &VbHostEvent) -> u32
    ensures { HappensFor host.old host.new seats.old seats.new event.now result }
{
    match event.event() {
        Some(event) => {
            happen(&mut host.frames, host.overdraft, seats, &event);
            OK
        }
        None => BAD_ARGUMENT,
    }
}

/// What is lent to a guest.
#[unsafe(no_mangle)]
pub extern "C" fn vb_seat_lent(seat: &Seat) -> u64
    ensures { result ≡ lent seat.now }
{
    seat.lent()
}

/// What a grant would lend to a guest beyond that.
#[unsafe(no_mangle)]
pub extern "C" fn vb_seat_asked(seat: &Seat) -> u32
    ensures { result ≡ asked seat.now }
{
    seat.asked()
}

/// Whether a deflate of a guest waits.
#[unsafe(no_mangle)]
pub extern "C" fn vb_seat_waits(seat: &Seat) -> u32
    ensures { result ≡ one_if (waits seat.now) }
{
    u32::from(seat.waits())
}

/// Whether two seats say the same.
#[unsafe(no_mangle)]
pub extern "C" fn vb_seat_same(seat: &Seat, other: &Seat) -> u32
    ensures one { result ≡ 1 → seat.now ≡ other.now }
    ensures none { result ≡ 0 → seat.now ≢ other.now }
    ensures number { result ≤ 1 }
{
    u32::from(seat.is_same(other))
}

/// Whether a guest's process is to be sent its target.
#[unsafe(no_mangle)]
pub extern "C" fn vb_seat_due_target(seat: &Seat, report: &Report) -> u32
    ensures { result ≡ one_if (due_target report.now seat.now) }
{
    u32::from(seat.due_target(report))
}

/// Whether a guest's process is to be sent the grant of the deflate that it holds back.
#[unsafe(no_mangle)]
pub extern "C" fn vb_seat_due_grant(seat: &Seat, report: &Report) -> u32
    ensures { result ≡ one_if (due_grant report.now seat.now) }
{
    u32::from(seat.due_grant(report))
}

/// What a message of a guest's process says, at this time.
#[unsafe(no_mangle)]
pub extern "C" fn vb_seat_read(
    seat: &Seat,
    exchange: &Exchange,
    message: &Message,
    now: u64,
) -> Reading
    ensures { result ≡ reading now exchange.now message.now seat.now }
{
    seat.read(exchange, message, now)
}

/// The report by which a guest that isn't strict is taken over.
#[unsafe(no_mangle)]
pub extern "C" fn vb_seat_follow(seat: &Seat, message: &Message, pages: u32, target: u32) -> Report
    ensures { result ≡ followed message.now seat.now pages target }
{
    seat.follow(message, pages, target)
}

/// What is noted of a message of a guest's process that comes at this time.
#[unsafe(no_mangle)]
pub extern "C" fn vb_seat_note(
    seat: &Seat,
    exchange: &Exchange,
    message: &Message,
    now: u64,
) -> Exchange
    ensures { result ≡ noted now exchange.now message.now seat.now }
{
    seat.noted(exchange, message, now)
}

/// How a guest's target follows what was decided.
#[unsafe(no_mangle)]
pub extern "C" fn vb_seat_pace(seat: &Seat, aim: &Aim) -> Pace
    ensures { result ≡ pace_of aim.now seat.now }
{
    seat.pace(aim)
}

/// What is lent to all guests together.
#[unsafe(no_mangle)]
pub extern "C" fn vb_host_owed(seats: &[Seat]) -> u64
    ensures { result ≡ shown_owed seats.now }
{
    shown_owed(seats)
}

/// The least budget with which all that wait proceed, once those that don't have done what is
/// wanted of them.
#[unsafe(no_mangle)]
pub extern "C" fn vb_host_least_budget(seats: &[Seat]) -> u64
    ensures { result ≡ min (least_budget seats.now) (2 ^ 64 - 1) }
{
    let most = u128::from(u64::MAX);
    least_budget(seats).min(most) as u64
}

/// The frames that are neither lent nor waited for.
#[unsafe(no_mangle)]
pub extern "C" fn vb_host_room(host: &VbHost, seats: &[Seat]) -> u32
    ensures { result ≡ room (lending_of host.now seats.now) }
{
    room(host.frames, seats)
}

/// The place of the guest that waits first.
#[unsafe(no_mangle)]
pub extern "C" fn vb_host_first(seats: &[Seat]) -> usize
    ensures { FirstFor seats.now result }
{
    match first_in_line(seats) {
        Some(guest) => guest,
        None => usize::MAX,
    }
}

/// Since when a host stands still.
#[unsafe(no_mangle)]
pub extern "C" fn vb_host_stand(seats: &[Seat], stand: &Stand, now: u64) -> Stand
    ensures { result ≡ stood now stand.now seats.now }
{
    stand.noted(seats, now)
}

/// What a host that stands still is to do next.
#[unsafe(no_mangle)]
pub extern "C" fn vb_host_relief(
    host: &VbHost,
    seats: &[Seat],
    stand: &Stand,
    look: &Look,
) -> VbRelief
    ensures { result ≡
        relief_of (due_relief look.now stand.now (lending_of host.now seats.now)) }
{
    let (kind, guest) = match due_relief(host.frames, host.overdraft, seats, stand, look) {
        Some(Event::Prefers { guest }) => (PREFERS, guest),
        Some(Event::Overdraws { guest }) => (OVERDRAWS, guest),
        Some(Event::Defers { guest }) => (DEFERS, guest),
        _ => (0, 0),
    };
    VbRelief { kind, guest }
}

//! Laws over the runs of a host.

ghost use Rattle.vb_room.specs.Beside.{AskingFirstSuffices};
ghost use Rattle.vb_room.specs.Counts.{CallsCountSo};
ghost use Rattle.vb_room.specs.Room.{BalloonsAreBare, NoneLacksAFrame};
ghost use Rattle.vb_room.specs.Tie.{EventsLeaveSeats, SeatEventsLeaveSeats, SeatsSuffice};

/// In each state of a run no ballooned page of an honest guest that tells the host has a frame.
pub fn balloons_are_bare()
    ensures bare { BalloonsAreBare }
{}

/// In a state of a run in which all guests may hold no more frames than there are, no call of a
/// guest is refused for lack of a frame; but for an honest guest's scribble, which makes it a
/// rogue.
pub fn no_guest_lacks_a_frame()
    ensures none { NoneLacksAFrame }
{}

/// Nor is one where the seats of the host's lender are those of its guests, and what is lent
/// together is no more than its frames.
pub fn seats_suffice()
    ensures suffice { SeatsSuffice }
{}

/// The seats stay those of the guests while no guest comes, none has fewer ballooned pages and none
/// holds more frames; and whatever happens to the lender, but for what comes, goes or gets another
/// memory, and for reports.
pub fn seats_stay()
    ensures events { EventsLeaveSeats }
    ensures seats { SeatEventsLeaveSeats }
{}

/// In a run each call of a guest leaves as many pages that count as ballooned as before, but for
/// what the table of calls says: a finished inflate puts its pages in, and a finished deflate, a
/// reset and a scribble take pages out.
pub fn calls_count_so()
    ensures so { CallsCountSo }
{}

/// Over every list of events of a host that asks its lender first, and holds guests with a limit to
/// that, in each state: what is lent together is no more than the host's frames, each guest has its
/// seat, and no call is refused for lack of a frame: of a guest without a limit none but a
/// scribble, and none at all of a guest of which nothing is reclaimed.
pub fn no_guest_within_its_loan_lacks_a_frame()
    ensures covered { AskingFirstSuffices }
{}

//! What a process's message is to the lender's step: a report, and numbers of pages.

ghost use Rattle.std.specs.Prelude.{◌≡◌};
ghost use Rattle.vb_host.specs.Messages.{another, beyond, followed, following_number};
ghost use Rattle.vb_host.specs.Messages.{joins, kept_outside, lingers};
ghost use Rattle.vb_host.specs.Messages.{plain_report, read_target, reading, received_number};
ghost use Rattle.vb_host.specs.Messages.{removed_by, report_of, returned, roomy, said_outside};
ghost use Rattle.vb_host.specs.Messages.{shown_ballooned, taken, taken_away, wants_beyond};

use crate::{Exchange, Message, Report, Seat};

/// The milliseconds for which a driver whose reads aren't seen may obey an earlier target than the
/// one that its process has received.
const LINGERS: u64 = 3000;

/// What a lender learns by a message: the report that its step takes, and numbers of pages.
#[repr(C)]
#[derive(Clone, Copy, Debug, Default, PartialEq, Eq)]
pub struct Reading {
    pub report: Report,
    /// The pages that its guest has taken unasked.
    pub taken: u32,
    /// The pages that were outside of its slots, are in slots again, and join its memory.
    pub joins: u32,
    /// The pages of its memory that nobody granted.
    pub ungranted: u32,
    /// The pages that it waits for beyond those of its memory, and those that return to it.
    pub brings: u32,
    /// The pages that it waits for once those that join are of its memory.
    pub wants: u32,
    /// Of those that it is to have room for, the pages that its guest comes without.
    pub without: u32,
    /// Whether its guest starts without pages that count in its balloon: 1, or 0.
    pub small: u32,
    /// Whether it waits in a reset that takes nothing: 1, or 0.
    pub resets: u32,
}

/// Another number than this one.
fn another(number: u64) -> u64
    ensures { result ≡ another number }
{
    if number > 0 { number - 1 } else { 1 }
}

impl Exchange {
    /// Whether a driver whose reads aren't seen may obey an earlier target yet.
    fn lingers(&self, now: u64) -> bool
        ensures { result ≡ lingers now self.now }
    {
        self.received == 0 || now.saturating_sub(self.received) < LINGERS
    }
}

impl Seat {
    /// The pages of its memory that have room.
    pub(crate) fn roomy(&self) -> u32
        ensures { result ≡ roomy self.now }
    {
        if self.is_let_in() { self.pages } else { 0 }
    }

    /// The target that its driver has read last, or another one than its last, where it may obey
    /// an earlier one yet.
    fn read_target(&self, exchange: &Exchange, message: &Message, now: u64) -> u32
        ensures { result ≡ read_target now exchange.now message.now self.now }
    {
        if message.read > 0 {
            message.read - 1
        } else if exchange.lingers(now) {
            another(u64::from(self.target)) as u32
        } else {
            self.target
        }
    }

    /// The number of its last target, where its process has received that; else another one.
    fn received_number(&self, exchange: &Exchange, message: &Message) -> u64
        ensures { result ≡ received_number exchange.now message.now self.now }
    {
        if self.is_received(exchange, message) {
            self.target_number
        } else {
            another(self.target_number)
        }
    }

    /// The pages that were outside of its slots, and are in slots again.
    fn returned(&self, message: &Message) -> u32
        ensures { result ≡ returned message.now self.now }
    {
        let more = message.pages.saturating_sub(self.pages);
        more.min(self.outside.saturating_sub(message.outside))
    }

    /// The pages that stay outside of the slots of a guest whose balloon doesn't count.
    fn kept_outside(&self, message: &Message) -> u32
        ensures { result ≡ kept_outside message.now self.now }
    {
        if !self.is_uncounted() {
            return 0;
        }
        let returned = self.returned(message);
        let within = u64::from(self.pages) + u64::from(returned);
        let beyond = u64::from(message.files).saturating_sub(within);
        u64::from(self.outside.saturating_sub(returned)).min(beyond) as u32
    }

    /// The pages that are outside of its slots by a message.
    fn said_outside(&self, message: &Message) -> u32
        ensures { result ≡ said_outside message.now self.now }
    {
        message.outside.max(self.kept_outside(message))
    }

    /// The pages in its balloon by a message.
    fn shown_ballooned(&self, message: &Message) -> u32
        ensures { result ≡ shown_ballooned message.now self.now }
    {
        if message.comes() {
            self.ballooned
        } else {
            message.ballooned
        }
    }

    /// The pages that were taken away from its memory since its last report.
    fn taken_away(&self, message: &Message) -> u32
        ensures { result ≡ taken_away message.now self.now }
    {
        if message.waits_for_room() {
            0
        } else {
            self.pages.saturating_sub(message.pages)
        }
    }

    /// How many were taken away from it so far.
    fn removed_by(&self, message: &Message) -> u64
        ensures { result ≡ removed_by message.now self.now }
    {
        self.removed
            .saturating_add(u64::from(self.taken_away(message)))
    }

    /// A message as a report, with all that it says to be outside.
    fn plain_report(&self, exchange: &Exchange, message: &Message, now: u64) -> Report
        ensures { result ≡ plain_report now exchange.now message.now self.now }
    {
        let ask = self.ask(exchange, message);
        Report {
            ballooned: self.shown_ballooned(message),
            target: message.target,
            read_target: self.read_target(exchange, message, now),
            held: self.asked_pages(ask, message),
            line: ask.line().number(),
            outside: self.said_outside(message),
            target_number: self.received_number(exchange, message),
            deflates: exchange.asks,
            removed: self.removed_by(message),
        }
    }

    /// A message as the step takes it: with no more outside than may be.
    fn report(&self, exchange: &Exchange, message: &Message, now: u64) -> Report
        ensures { result ≡ report_of now exchange.now message.now self.now }
    {
        let mut report = self.plain_report(exchange, message, now);
        report.outside = self.believed_outside(&report);
        report
    }

    /// The pages that a strict guest has taken unasked.
    fn taken(&self, exchange: &Exchange, message: &Message, now: u64) -> u32
        ensures { result ≡ taken now exchange.now message.now self.now }
    {
        if message.is_strict() {
            self.taken_unasked(&self.plain_report(exchange, message, now))
        } else {
            0
        }
    }

    /// The pages that return to its memory.
    fn joins(&self, exchange: &Exchange, message: &Message, now: u64) -> u32
        ensures { result ≡ joins now exchange.now message.now self.now }
    {
        if self.taken(exchange, message, now) > 0 {
            0
        } else {
            self.returned(message)
        }
    }

    /// How many more these pages are than those of its memory that have room, with some more.
    fn beyond(&self, pages: u32, more: u32) -> u32
        ensures { result ≡ beyond self.now more pages }
    {
        let within = u64::from(self.roomy()) + u64::from(more);
        u64::from(pages).saturating_sub(within) as u32
    }

    /// The pages that it waits for, but for those of its memory that have room, and some more.
    fn wants_beyond(&self, message: &Message, more: u32) -> u32
        ensures { result ≡ wants_beyond message.now self.now more }
    {
        if message.waits_for_room() {
            self.beyond(message.wanted, more)
        } else {
            0
        }
    }

    /// The number of a target that it has from now on.
    fn following_number(&self, target: u32) -> u64
        ensures { result ≡ following_number self.now target }
    {
        if self.target == target {
            self.target_number
        } else {
            self.target_number.saturating_add(1)
        }
    }

    /// The report by which a guest that isn't strict is taken over with these pages of its memory,
    /// and this target.
    pub fn follow(&self, message: &Message, pages: u32, target: u32) -> Report
        ensures { result ≡ followed message.now self.now pages target }
    {
        let fewer = self.pages.saturating_sub(pages);
        let most = u64::from(self.outside) + u64::from(fewer);
        Report {
            ballooned: if self.is_uncounted() {
                0
            } else {
                message.ballooned
            },
            target,
            read_target: target,
            held: 0,
            line: 0,
            outside: u64::from(self.said_outside(message)).min(most) as u32,
            target_number: self.following_number(target),
            deflates: 1,
            removed: 0,
        }
    }

    /// What a message says of this guest at this time, in milliseconds.
    pub fn read(&self, exchange: &Exchange, message: &Message, now: u64) -> Reading
        ensures { result ≡ reading now exchange.now message.now self.now }
    {
        let returned = self.returned(message);
        let joins = self.joins(exchange, message, now);
        Reading {
            report: self.report(exchange, message, now),
            taken: self.taken(exchange, message, now),
            joins,
            ungranted: self.beyond(message.pages, returned),
            brings: self.wants_beyond(message, returned),
            wants: self.wants_beyond(message, joins),
            without: message.comes_without(message.wanted),
            small: u32::from(self.starts_small(message)),
            resets: u32::from(self.resets_at_once(message)),
        }
    }
}

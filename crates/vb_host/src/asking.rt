//! What a guest's process asks for by a message, and what is noted of that.

ghost use Rattle.std.specs.Prelude.{◌≡◌};
ghost use Rattle.vb_host.specs.Messages.{ask_of, asked_line, asked_pages, asking, has_granted};
ghost use Rattle.vb_host.specs.Messages.{is_new_ask, is_let_in, is_received, needs_reset};
ghost use Rattle.vb_host.specs.Messages.{needs_room, noted, own_number, received_since};
ghost use Rattle.vb_host.specs.Messages.{reset_pages, resets_at_once, starts_small};
ghost use Rattle.vb_host.specs.Exchanges.{GrantsStay, MessagesAreSnapshots, NewAsksCount};
ghost use Rattle.vb_host.specs.Exchanges.{ReadsRaise};

use crate::{Ask, Exchange, Message, Seat, WaitingLine};

impl Ask {
    /// The process's own number of it.
    fn own_number(self, message: &Message) -> u32
        ensures { result ≡ own_number self message.now }
    {
        match self {
            Ask::Nothing => 0,
            Ask::Room => message.wait,
            Ask::Reset => message.wait,
            Ask::Deflate => message.deflate,
        }
    }

    /// The line in which it waits.
    pub(crate) fn line(self) -> WaitingLine
        ensures { result ≡ asked_line self }
    {
        match self {
            Ask::Nothing => WaitingLine::Deflates,
            Ask::Room => WaitingLine::Arrivals,
            Ask::Reset => WaitingLine::Resets,
            Ask::Deflate => WaitingLine::Deflates,
        }
    }
}

impl Seat {
    /// Whether it was let in.
    pub(crate) fn is_let_in(&self) -> bool
        ensures { result ≡ is_let_in self.now }
    {
        self.granted > 0
    }

    /// Whether it starts without pages that count in its balloon.
    pub(crate) fn starts_small(&self, message: &Message) -> bool
        ensures { result ≡ starts_small message.now self.now }
    {
        (message.comes() && self.is_let_in() && self.ballooned > 0) || message.has_started_small()
    }

    /// The pages that its reset takes.
    fn reset_pages(&self, message: &Message) -> u32
        ensures { result ≡ reset_pages message.now self.now }
    {
        message
            .ballooned
            .saturating_sub(message.starts_without(self.pages))
    }

    /// Whether its process waits in a reset that takes nothing.
    pub(crate) fn resets_at_once(&self, message: &Message) -> bool
        ensures { result ≡ resets_at_once message.now self.now }
    {
        message.waits_for_reset() && self.reset_pages(message) == 0
    }

    /// Whether the deflate that its process holds back is what that asked for last, and was
    /// granted.
    fn has_granted(&self, exchange: &Exchange, message: &Message) -> bool
        ensures { result ≡ has_granted exchange.now message.now self.now }
    {
        message.held > 0
            && exchange.ask == Ask::Deflate.number()
            && exchange.asked == message.deflate
            && exchange.asks == self.granted
    }

    /// Whether its process waits in a reset that takes any page.
    fn needs_reset(&self, message: &Message) -> bool
        ensures { result ≡ needs_reset message.now self.now }
    {
        message.waits_for_reset() && self.reset_pages(message) > 0
    }

    /// Whether its process waits to be let in.
    fn needs_room(&self, message: &Message) -> bool
        ensures { result ≡ needs_room message.now self.now }
    {
        message.waits_for_room() && !self.is_let_in()
    }

    /// What its process asks for.
    pub(crate) fn ask(&self, exchange: &Exchange, message: &Message) -> Ask
        ensures { result ≡ ask_of exchange.now message.now self.now }
    {
        if self.has_granted(exchange, message) {
            Ask::Deflate
        } else if self.needs_reset(message) {
            Ask::Reset
        } else if self.needs_room(message) {
            Ask::Room
        } else if message.held > 0 {
            Ask::Deflate
        } else {
            Ask::Nothing
        }
    }

    /// The pages that it asks for.
    pub(crate) fn asked_pages(&self, ask: Ask, message: &Message) -> u32
        ensures { result ≡ asked_pages ask message.now self.now }
    {
        match ask {
            Ask::Nothing => 0,
            Ask::Room => self.pages.saturating_sub(message.comes_without(self.pages)),
            Ask::Reset => self.reset_pages(message),
            Ask::Deflate => message.held,
        }
    }

    /// Whether its process asks for something else than before.
    fn is_new_ask(&self, exchange: &Exchange, message: &Message) -> bool
        ensures { result ≡ is_new_ask exchange.now message.now self.now }
    {
        let ask = self.ask(exchange, message);
        let number = ask.number();
        let is_same = exchange.ask == number && exchange.asked == ask.own_number(message);
        number != Ask::Nothing.number() && !is_same
    }

    /// What is noted of what a message asks for.
    fn asking(&self, exchange: &Exchange, message: &Message) -> Exchange
        ensures { result ≡ asking exchange.now message.now self.now }
    {
        let mut noted = *exchange;
        if self.is_new_ask(exchange, message) {
            let ask = self.ask(exchange, message);
            noted.ask = ask.number();
            noted.asked = ask.own_number(message);
            noted.asks = exchange.asks.saturating_add(1);
        }
        noted
    }

    /// Whether its process is known to have received its last target.
    pub(crate) fn is_received(&self, exchange: &Exchange, message: &Message) -> bool
        ensures { result ≡ is_received exchange.now message.now self.now }
    {
        exchange.sent == self.target_number
            && exchange.sent_by <= exchange.obeyed
            && message.target == self.target
    }

    /// Since when its process is known to have received its last target.
    fn received_since(&self, exchange: &Exchange, message: &Message, now: u64) -> u64
        ensures { result ≡ received_since now exchange.now message.now self.now }
    {
        if !self.is_received(exchange, message) {
            0
        } else if exchange.received == 0 {
            now
        } else {
            exchange.received
        }
    }

    /// What is noted of a message that comes at this time, in milliseconds: an ask that is another
    /// than before has the next number.
    pub fn noted(&self, exchange: &Exchange, message: &Message, now: u64) -> Exchange
        ensures { result ≡ noted now exchange.now message.now self.now }
    {
        let mut noted = self.asking(exchange, message);
        noted.received = self.received_since(exchange, message, now);
        noted
    }
}

/// A granted deflate stays what a process asks for as long as that holds it; another ask has
/// another number; the least target rises by what the driver has read alone; and a strict guest's
/// message is read as what the system's process reports.
pub fn messages_are_read()
    ensures grants { GrantsStay }
    ensures asks { NewAsksCount }
    ensures reads { ReadsRaise }
    ensures snapshots { MessagesAreSnapshots }
{}

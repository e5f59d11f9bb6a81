//! Rounds of free page hints (VIRTIO 1.2, 5.5.6.6): the host begins one, and the driver sends its
//! id, and then free pages. It may take each back at any time, by writing to it.

ghost use Rattle.std.specs.Prelude.{◌≡◌, ℕ, true, Some, None, Ok, Err};
ghost use Rattle.vb_core.specs.declared.device.Denial.{Denial};
ghost use Rattle.vb_core.specs.declared.kinds.Kind.TheVariants.{Hint};
ghost use Rattle.vb_core.specs.Devices.{queue_denial};
ghost use Rattle.vb_core.specs.Hints.{is_id, next_id, no_round, is_open, begun, showing, heard};

use crate::{Denial, Device, Kind};

/// What `free_page_hint_cmd_id` shows where no round is on: the driver hints nothing, and may keep
/// what it hinted.
pub const STOP: u32 = 0;

/// What it shows once a round ended: the driver takes its pages back.
pub const DONE: u32 = 1;

/// The first id that a round may have.
pub(crate) const FIRST_ID: u32 = 2;

/// A device's round of hints.
#[repr(C)]
#[derive(Clone, Copy, Debug)]
pub struct Round {
    /// What `free_page_hint_cmd_id` shows: the round's id, `STOP` or `DONE`.
    pub shown: u32,
    /// The id of the round that began last; 0 where none has.
    pub last: u32,
    /// Unless 0, the round's id was read since it began, and nothing ended the round.
    pub opened: u8,
}

/// Whether it is the id of a round, and neither `STOP` nor `DONE`.
pub(crate) fn is_id(id: u32) -> bool
    ensures { result ≡ is_id id }
{
    id >= FIRST_ID
}

/// The id of the round after one of this id.
fn next_id(last: u32) -> u32
    ensures { result ≡ next_id last }
{
    match last.checked_add(1) {
        Some(next) => next.max(FIRST_ID),
        None => FIRST_ID,
    }
}

impl Round {
    /// No round has begun.
    pub const NONE: Round = Round {
        shown: STOP,
        last: 0,
        opened: 0,
    };

    /// Whether its id was read since it began, and nothing ended it: pages that are hinted now are
    /// of this round.
    pub fn is_open(&self) -> bool
        ensures { result ≡ is_open self.now }
    {
        self.opened != 0 && is_id(self.shown)
    }

    /// Shows `STOP` or `DONE`.
    pub(crate) fn show(&mut self, word: u32)
        ensures { self.new ≡ showing word self.old }
    {
        self.shown = word;
        self.opened = 0;
    }

    /// Takes an id on that was read.
    fn hear(&mut self, id: u32)
        ensures { self.new ≡ heard id self.old }
    {
        self.opened = u8::from(is_id(self.shown) && id == self.shown);
    }
}

impl Device {
    /// Begins a round of hints, and answers its id, which the configuration shows; the VMM tells
    /// the driver by an interrupt of the configuration. It isn't the id of the round before, which
    /// this one takes the place of, and ids go round after 2^32 - 2 rounds.
    ///
    /// Refused as `queue_denial` refuses the queue of hints, and then nothing is changed:
    /// `BadArgument` where the settings are none that a device may have, `NotReady`, `NeedsReset`,
    /// `NoQueue` without FREE_PAGE_HINT, `Misplaced`.
    pub fn begin_round(&mut self) -> Result<u32, Denial>
        ensures denied { (why : Denial) → queue_denial Hint self.old ≡ Some why →
            (result ≡ Err why) × (self.new ≡ self.old) }
        ensures begun { queue_denial Hint self.old ≡ None →
            (result ≡ Ok (next_id self.old.round.last)) ×
            (self.new ≡ record self.old {
              round = begun (next_id self.old.round.last) self.old.round;
            }) }
    {
        if let Some(why) = self.queue_denial(Kind::Hint) {
            return Err(why);
        }
        let id = next_id(self.round.last);
        self.round = Round {
            shown: id,
            last: id,
            opened: 0,
        };
        Ok(id)
    }

    /// Stops a round, at any time: the configuration shows `STOP`. The driver hints nothing more,
    /// and may keep what it hinted until a round ends by `DONE`.
    pub fn stop_round(&mut self)
        ensures { self.new ≡ record self.old { round = showing STOP self.old.round } }
    {
        self.round.show(STOP);
    }

    /// Ends a round, at any time: the configuration shows `DONE`, and the driver takes its pages
    /// back once it reads that.
    pub fn end_round(&mut self)
        ensures { self.new ≡ record self.old { round = showing DONE self.old.round } }
    {
        self.round.show(DONE);
    }

    /// An id was read from the queue of hints: that of the round which the configuration shows
    /// opens it, and any other one, as the driver's own `STOP`, closes it.
    pub fn hear_id(&mut self, id: u32)
        ensures { self.new ≡ record self.old { round = heard id self.old.round } }
    {
        self.round.hear(id);
    }
}

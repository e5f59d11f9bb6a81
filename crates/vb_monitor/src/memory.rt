//! Memory that a notice goes over.

ghost use Rattle.vb_monitor.specs.Accesses.{Access, ReadWord, CopyBytes, Acquire, Release, Full};
ghost use Rattle.vb_monitor.specs.Accesses.{TellPages, TellFigures, TellId, Pause, Discard};
ghost use Rattle.vb_monitor.specs.Accesses.{WriteNumber};
ghost use Rattle.vb_monitor.specs.Accesses.{WriteWord};

use crate::{Cut, Spot};
use vb_core::{Kind, Named, Run, Statistic};

/// Memory that a notice goes over, and the caller's hooks. An implementation says by `goes` which
/// memory an access, with its answer, may make of which. A running guest may write its memory at
/// any moment, so of its memory the answers are open: two reads of one spot may differ. Each spot
/// lies within one of the monitor's regions.
pub trait LiveMemory {
    ghost goes: { Self → Access → Self → Type 0 };

    /// Reads a word of 16 bits, by one access.
    fn word(&mut self, at: Spot) -> u16
        ensures { goes self.old (ReadWord at result) self.new };

    /// Copies the bytes from a place on, each read once.
    fn copy(&mut self, at: Spot, out: &mut [u8])
        ensures { goes self.old (CopyBytes at out.new) self.new };

    /// What was read before stays before what is read after.
    fn acquire(&mut self)
        ensures { goes self.old Acquire self.new };

    /// What was written before stays before what is written after.
    fn release(&mut self)
        ensures { goes self.old Release self.new };

    /// All that was done before stays before all that is done after.
    fn full(&mut self)
        ensures { goes self.old Full self.new };

    /// These pages were given up (inflates), are requested back (deflates), or are free (reports
    /// and hints). `named` says how many pages the runs have together, and how many of the
    /// request's numbers were skipped, or of a hint's pages that came outside their round.
    fn tell_pages(&mut self, kind: Kind, runs: &[Run], named: Named)
        ensures { goes self.old (TellPages kind runs.now named) self.new };

    /// The guest told these figures.
    fn tell_figures(&mut self, figures: &[Statistic])
        ensures { goes self.old (TellFigures figures.now) self.new };

    /// The guest told this id of hints: the VMM knows then whether a round of its own is open.
    fn tell_id(&mut self, id: u32)
        ensures { goes self.old (TellId id) self.new };

    /// As many pages were named as may be without a pause: the caller may do other work before it
    /// goes on.
    fn pause(&mut self)
        ensures { goes self.old Pause self.new };

    /// Gives pages back to the machine, where it can.
    fn discard(&mut self, cut: Cut)
        ensures { goes self.old (Discard cut) self.new };

    /// Writes a number of 32 bits.
    fn write_number(&mut self, at: Spot, number: u32)
        ensures { goes self.old (WriteNumber at number) self.new };

    /// Writes a word of 16 bits, by one access.
    fn write_word(&mut self, at: Spot, word: u16)
        ensures { goes self.old (WriteWord at word) self.new };
}

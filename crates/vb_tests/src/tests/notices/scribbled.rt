//! A memory whose bytes change as they are read.

ghost use Rattle.std.specs.Prelude.{◌≡◌, ◌++◌, ◌∷◌, []};

use std::alloc::Global;
use std::process::Abort;
use vb_core::{Kind, Named, Run, Statistic};
use vb_monitor::{Cut, LiveMemory, Spot};

/// How many bytes such a memory has.
pub(super) const MEMORY: usize = 0x800;

/// An access as tests compare it: a word with its answer, how many bytes were copied, how many runs
/// with how many pages, or figures, were told, what was discarded, and what was written.
#[derive(Clone, Copy, PartialEq, Eq)]
pub(super) enum Row {
    Word(Spot, u16),
    Bytes(Spot, usize),
    Acquire,
    Release,
    Full,
    Pages(usize, u32),
    Figures(usize),
    Id(u32),
    Paused,
    Discarded(Cut),
    Number(Spot, u32),
    Written(Spot, u16),
}

/// What was asked, with its answer.
#[derive(Drop)]
pub(super) enum Entry {
    Word {
        at: Spot,
        answer: u16,
    },
    Bytes {
        at: Spot,
        bytes: Vec<u8>,
    },
    AcquireFence,
    ReleaseFence,
    FullFence,
    Pages {
        kind: Kind,
        runs: Vec<Run>,
        named: Named,
    },
    Figures {
        figures: Vec<Statistic>,
    },
    Id {
        id: u32,
    },
    Paused,
    Discarded {
        cut: Cut,
    },
    NumberWritten {
        at: Spot,
        number: u32,
    },
    WordWritten {
        at: Spot,
        word: u16,
    },
}

impl Entry {
    /// It as a row.
    pub(super) fn row(&self) -> Row {
        match self {
            Entry::Word { at, answer } => Row::Word(*at, *answer),
            Entry::Bytes { at, bytes } => Row::Bytes(*at, bytes.len()),
            Entry::AcquireFence => Row::Acquire,
            Entry::ReleaseFence => Row::Release,
            Entry::FullFence => Row::Full,
            Entry::Pages { runs, named, .. } => Row::Pages(runs.len(), named.pages),
            Entry::Figures { figures } => Row::Figures(figures.len()),
            Entry::Id { id } => Row::Id(*id),
            Entry::Paused => Row::Paused,
            Entry::Discarded { cut } => Row::Discarded(*cut),
            Entry::NumberWritten { at, number } => Row::Number(*at, *number),
            Entry::WordWritten { at, word } => Row::Written(*at, *word),
        }
    }
}

/// Memory that scribbles over each byte as soon as it was read: a second read answers another one.
#[derive(Drop)]
pub(super) struct Scribbled<'r, R: Abort> {
    pub(super) rt: &'r R,
    pub(super) alloc: Global,
    pub(super) bytes: [u8; MEMORY],
    pub(super) turn: u8,
    pub(super) trace: Vec<Entry>,
}

impl<R: Abort> Scribbled<'_, R> {
    /// Reads a byte of the first region, and changes it.
    fn take_byte(&mut self, at: u64) -> u8
        ensures { self.new.trace ≡ self.old.trace }
    {
        if at >= MEMORY as u64 {
            return 0;
        }
        let place = at as usize;
        let byte = self.bytes[place];
        self.turn = self.turn.wrapping_add(1);
        self.bytes[place] = byte.wrapping_add(self.turn);
        byte
    }

    /// Reads bytes, and changes them.
    fn take_bytes(&mut self, at: u64, out: &mut [u8])
        ensures { self.new.trace ≡ self.old.trace }
    {
        for k in 0..out.len() {
            out[k] = self.take_byte(at.wrapping_add(k as u64));
        }
    }

    /// Writes an entry after the trace.
    fn note(&mut self, entry: Entry)
        ensures { self.new.trace.items ≡ self.old.trace.items ++ entry ∷ [] }
    {
        self.trace.push(entry).expect(self.rt, "memory");
    }
}

impl<R: Abort> LiveMemory for Scribbled<'_, R> {
    ghost use Rattle.std.specs.Prelude.{map};
    ghost use Rattle.vb_tests.specs.declared.tests.notices.scribbled.Entry.{Entry};
    ghost use Rattle.vb_tests.specs.declared.tests.notices.scribbled.Entry.TheVariants.{
      Word,
      Bytes,
      AcquireFence,
      ReleaseFence,
      FullFence,
      Pages,
      Figures,
      Id,
      Paused,
      Discarded,
      NumberWritten,
      WordWritten,
    };
    ghost use Rattle.vb_monitor.specs.Accesses.{ReadWord, CopyBytes, Acquire, Release, Full};
    ghost use Rattle.vb_monitor.specs.Accesses.{TellPages, TellFigures, TellId, Pause, Discard};
    ghost use Rattle.vb_monitor.specs.Accesses.{WriteNumber, WriteWord};
    ghost use Rattle.std.specs.Prelude.{List};
    ghost use Rattle.vb_monitor.specs.Accesses.{Access};

    ghost goes = { λ old access new.
        (λ (log : List Entry → List Access).
        log new.trace.items ≡ log old.trace.items ++ access ∷ [])
        (map (elim [
          | Word at answer ↦ ReadWord at answer
          | Bytes at bytes ↦ CopyBytes at bytes.items
          | AcquireFence ↦ Acquire
          | ReleaseFence ↦ Release
          | FullFence ↦ Full
          | Pages kind runs named ↦ TellPages kind runs.items named
          | Figures figures ↦ TellFigures figures.items
          | Id id ↦ TellId id
          | Paused ↦ Pause
          | Discarded cut ↦ Discard cut
          | NumberWritten at number ↦ WriteNumber at number
          | WordWritten at word ↦ WriteWord at word
        ])) };

    fn word(&mut self, at: Spot) -> u16 {
        let low = self.take_byte(at.offset);
        let high = self.take_byte(at.offset.wrapping_add(1));
        let answer = u16::from_le_bytes([low, high]);
        self.note(Entry::Word { at, answer });
        answer
    }

    fn copy(&mut self, at: Spot, out: &mut [u8]) {
        self.take_bytes(at.offset, out);
        let bytes = out.to_vec(self.alloc).expect(self.rt, "memory");
        self.note(Entry::Bytes { at, bytes });
    }

    fn acquire(&mut self) {
        self.note(Entry::AcquireFence);
    }

    fn release(&mut self) {
        self.note(Entry::ReleaseFence);
    }

    fn full(&mut self) {
        self.note(Entry::FullFence);
    }

    fn tell_pages(&mut self, kind: Kind, runs: &[Run], named: Named) {
        let runs = runs.to_vec(self.alloc).expect(self.rt, "memory");
        self.note(Entry::Pages { kind, runs, named });
    }

    fn tell_figures(&mut self, figures: &[Statistic]) {
        let figures = figures.to_vec(self.alloc).expect(self.rt, "memory");
        self.note(Entry::Figures { figures });
    }

    fn tell_id(&mut self, id: u32) {
        self.note(Entry::Id { id });
    }

    fn pause(&mut self) {
        self.note(Entry::Paused);
    }

    fn discard(&mut self, cut: Cut) {
        self.note(Entry::Discarded { cut });
    }

    fn write_number(&mut self, at: Spot, number: u32) {
        self.note(Entry::NumberWritten { at, number });
    }

    fn write_word(&mut self, at: Spot, word: u16) {
        self.note(Entry::WordWritten { at, word });
    }
}

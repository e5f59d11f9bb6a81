//! Where a notice is, as plain numbers that stay where they are.

ghost use Rattle.std.specs.Prelude.{◌≡◌};
ghost use Rattle.vb_monitor.specs.Machine.{outcome_at, is_ended, is_discarding, may_go_on};
ghost use Rattle.vb_monitor.specs.Steps.{phase_of, tally_of, walk_of, place_of};
ghost use Rattle.vb_monitor.specs.Steps.{discarding_of, part_of, phase_at};

use crate::answers::why_of;
use crate::codes::{CUT, DESCRIPTOR, ENDED, ENTRY, FIGURES, FLAGS, ID, INDEX, PAGES, PART, PAUSE};
use crate::rows::row_bytes;
use crate::step::has_room;
use crate::{
    Cut, Discarding, HeldChain, MAX_BYTES, Outcome, Phase, Place, Spot, Tally, UsedSpots, Walk,
};
use vb_chain::DESCRIPTOR_SIZE;
use vb_core::{Named, UsedEntry};

/// Where a notice is: what is to be done next, and what is remembered until it was done. Any
/// numbers are one: a monitor keeps them, and may have lost them.
#[repr(C)]
#[derive(Clone, Copy, Debug)]
pub struct Progress {
    /// Where a word is read, or bytes are copied from, or a part begins that is discarded.
    pub at: Spot,
    /// How many bytes are copied, and after how many others; or how many runs or figures there are.
    pub length: u32,
    pub into: u32,
    /// Which descriptor or run is next, and how many descriptors or which region after it.
    pub number: usize,
    pub from: usize,
    /// How far a chain's pieces were copied: the number of a piece, and how many of its bytes.
    pub piece: usize,
    pub done: u32,
    /// Of a part that is discarded.
    pub in_file: u64,
    pub cut_length: u64,
    /// What the notice came to.
    pub code: u32,
    pub rule: u32,
    pub interrupt: u32,
    pub configuration: u32,
    pub more: u32,
    /// What was served, and may be yet.
    pub chains_left: u32,
    pub pages_left: u32,
    /// How many pages may be named from the begin on, and from a pause on.
    pub most_pages: u32,
    /// The most page numbers of a request, and how many pages of one were told.
    pub longest: u32,
    pub told: u32,
    /// The chain: its head, and how many pieces are known.
    pub head: u16,
    pub count: u16,
    pub taken_head: u16,
    pub given: u8,
    pub taken: u8,
    pub flag: u8,
    pub phase: u8,
    pub keeps: u8,
    pub published: u16,
    pub taken_pages: u32,
    /// What is told of pages.
    pub named: Named,
    /// What is written of a used chain, and where.
    pub spots: UsedSpots,
    pub entry: UsedEntry,
}

impl Progress {
    /// Nothing was done, and nothing is to be.
    pub const NOTHING: Progress = Progress {
        at: Spot::FIRST,
        length: 0,
        into: 0,
        number: 0,
        from: 0,
        piece: 0,
        done: 0,
        in_file: 0,
        cut_length: 0,
        code: 0,
        rule: 0,
        interrupt: 0,
        configuration: 0,
        more: 0,
        chains_left: 0,
        pages_left: 0,
        most_pages: 0,
        longest: 0,
        told: 0,
        head: 0,
        count: 0,
        taken_head: 0,
        given: 0,
        taken: 0,
        flag: 0,
        phase: ENDED,
        keeps: 0,
        published: 0,
        taken_pages: 0,
        named: Named {
            runs: 0,
            pages: 0,
            skipped: 0,
        },
        spots: UsedSpots {
            id: Spot::FIRST,
            length: Spot::FIRST,
            index: Spot::FIRST,
        },
        entry: UsedEntry {
            element_at: 0,
            index_at: 0,
            id: 0,
            length: 0,
            index: 0,
        },
    };

    /// The chain that is held, or was and is asked for.
    #[inline(always)]
    pub(crate) fn held(&self) -> Option<HeldChain>
        ensures { result ≡ (tally_of self.now).held }
    {
        if self.taken == 0 {
            return None;
        }
        Some(HeldChain {
            head: self.taken_head,
            pages: self.taken_pages,
        })
    }

    /// Whether a chain was given back.
    #[inline(always)]
    pub(crate) fn is_given(&self) -> bool
        ensures { result ≡ (tally_of self.now).given }
    {
        self.given != 0
    }

    /// Whether no page is discarded.
    #[inline(always)]
    pub(crate) fn keeps(&self) -> bool
        ensures { result ≡ (tally_of self.now).keeps }
    {
        self.keeps != 0
    }

    /// What was served, and may be yet.
    #[inline(always)]
    pub fn tally(&self) -> Tally
        ensures { result ≡ tally_of self.now }
    {
        Tally {
            chains: self.chains_left,
            pages: self.pages_left,
            most_pages: self.most_pages,
            keeps: self.keeps(),
            given: self.is_given(),
            held: self.held(),
            published: self.published,
            longest: self.longest,
            told: self.told,
        }
    }

    /// How far the walk along a chain is.
    #[inline(always)]
    fn walk(&self) -> Walk
        ensures { result ≡ walk_of self.now }
    {
        Walk {
            head: self.head,
            count: self.count,
            writing: self.flag != 0,
            first: self.number.min(usize::from(u16::MAX)) as u16,
            further: self.from.min(MAX_BYTES / DESCRIPTOR_SIZE - 1) as u16,
        }
    }

    /// How far a chain's pieces were copied.
    #[inline(always)]
    fn place(&self) -> Place
        ensures { result ≡ place_of self.now }
    {
        Place {
            head: self.head,
            count: self.count,
            piece: self.piece,
            done: self.done,
        }
    }

    /// How far what was named is discarded.
    #[inline(always)]
    fn discarding(&self) -> Discarding
        ensures { result ≡ discarding_of self.now }
    {
        Discarding {
            place: self.place(),
            further: self.flag != 0,
            runs: self.length,
            run: self.number,
            from: self.from,
        }
    }

    /// The next part that is discarded.
    #[inline(always)]
    fn part(&self) -> Cut
        ensures { result ≡ part_of self.now }
    {
        Cut {
            region: self.at.region,
            offset: self.at.offset,
            in_file: self.in_file,
            length: self.cut_length,
        }
    }

    /// What is to be done next.
    #[inline(always)]
    pub fn phase(&self) -> Phase
        ensures { result ≡ phase_of self.now }
    {
        self.numbered()
    }

    /// What is to be done next, by its number.
    #[inline(always)]
    fn numbered(&self) -> Phase
        ensures { result ≡ phase_at self.now.phase self.now }
    {
        let at = self.at;
        match self.phase {
            ENDED => Phase::Ended {
                why: why_of(self.code, self.rule),
                interrupt: self.interrupt != 0,
                more: self.more != 0,
            },
            INDEX => Phase::AwaitsIndex { at },
            ENTRY => Phase::AwaitsEntry { at },
            DESCRIPTOR => Phase::AwaitsDescriptor {
                at,
                walk: self.walk(),
            },
            PART => Phase::AwaitsPart {
                at,
                place: self.place(),
                into: self.into as usize,
                length: self.length,
            },
            FLAGS => Phase::AwaitsFlags {
                at,
                why: why_of(self.code, self.rule),
                more: self.more != 0,
            },
            CUT => Phase::Discards {
                cut: self.part(),
                discarding: self.discarding(),
            },
            PAGES => Phase::TellsPages {
                place: self.place(),
                named: self.named,
                further: self.flag != 0,
            },
            ID => Phase::TellsId {
                head: self.head,
                id: self.length,
            },
            PAUSE => Phase::Paused {
                place: self.place(),
            },
            FIGURES => Phase::TellsFigures {
                head: self.head,
                count: self.length,
            },
            _ => Phase::GivesBack {
                spots: self.spots,
                entry: self.entry,
            },
        }
    }

    /// Whether it goes on by an answer or after a pause, has parts to discard, or has ended; and
    /// what is copied has room.
    #[inline(always)]
    pub fn may_go_on(&self) -> bool
        ensures { result ≡ may_go_on (phase_of self.now) }
    {
        match self.phase() {
            Phase::AwaitsPart { into, length, .. } => has_room(into, length),
            Phase::AwaitsDescriptor { walk, .. } => row_bytes(&walk) <= MAX_BYTES,
            Phase::AwaitsIndex { .. }
            | Phase::AwaitsEntry { .. }
            | Phase::AwaitsFlags { .. }
            | Phase::Paused { .. }
            | Phase::Discards { .. }
            | Phase::Ended { .. } => true,
            Phase::TellsPages { .. }
            | Phase::TellsFigures { .. }
            | Phase::TellsId { .. }
            | Phase::GivesBack { .. } => false,
        }
    }

    /// Whether a part is to be discarded next.
    #[inline(always)]
    pub fn is_discarding(&self) -> bool
        ensures { result ≡ is_discarding (phase_of self.now) }
    {
        matches!(self.phase(), Phase::Discards { .. })
    }

    /// Whether nothing more is to be done.
    #[inline(always)]
    pub fn is_ended(&self) -> bool
        ensures { result ≡ is_ended (phase_of self.now) }
    {
        matches!(self.phase(), Phase::Ended { .. })
    }

    /// What the notice came to, if it has ended.
    #[inline(always)]
    pub fn outcome(&self) -> Option<Outcome>
        ensures { result ≡ outcome_at (phase_of self.now) (tally_of self.now) }
    {
        match self.phase() {
            Phase::Ended {
                why,
                interrupt,
                more,
            } => Some(Outcome {
                tally: self.tally(),
                why,
                interrupt,
                more,
            }),
            _ => None,
        }
    }
}

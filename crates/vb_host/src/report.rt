//! What a guest's process reports, and in which line it waits.

ghost use Rattle.std.specs.Prelude.{◌≡◌};
ghost use Rattle.vb_host.specs.Seats.{line_of, line_number};

/// In which of three lines a guest waits. Those of an earlier line come before all of a later one,
/// and those of one line in order of their turns.
#[repr(u8)]
#[derive(Clone, Copy, Debug, Default, PartialEq, Eq)]
pub enum WaitingLine {
    /// Of deflates: a guest that waits in a deflate gives no pages, and others may wait for those.
    #[default]
    Deflates,
    /// Of resets, as of a guest that boots again.
    Resets,
    /// Of newcomers, and of memory that is added.
    Arrivals,
}

impl WaitingLine {
    /// The line of this number: 0 is that of deflates, 1 that of resets, and any other that of
    /// newcomers.
    pub fn of(number: u32) -> WaitingLine
        ensures { result ≡ line_of number }
    {
        if number == 0 {
            WaitingLine::Deflates
        } else if number == 1 {
            WaitingLine::Resets
        } else {
            WaitingLine::Arrivals
        }
    }

    /// How many lines come before it.
    pub(crate) fn number(self) -> u32
        ensures { result ≡ line_number self }
    {
        match self {
            WaitingLine::Deflates => 0,
            WaitingLine::Resets => 1,
            WaitingLine::Arrivals => 2,
        }
    }
}

/// What a guest's process reports: what it is at that moment. Any numbers may come.
#[repr(C)]
#[derive(Clone, Copy, Debug, Default, PartialEq, Eq)]
pub struct Report {
    /// The pages in its balloon, without those that couldn't be discarded.
    pub ballooned: u32,
    /// The last target that it has received, in pages.
    pub target: u32,
    /// The target that its driver has read last, in pages; where its reads aren't seen, one that it
    /// may have read.
    pub read_target: u32,
    /// The pages of the deflate that it holds back; 0 where it holds none.
    pub held: u32,
    /// The number of the line in which that deflate waits (`WaitingLine::of`).
    pub line: u32,
    /// The pages that have frames outside of its memory slots: of memory that was taken away.
    pub outside: u32,
    /// The number of the last target that it has received.
    pub target_number: u64,
    /// How many deflates it has held back, this one included: the number of this one.
    pub deflates: u64,
    /// How many pages were taken away from its memory so far.
    pub removed: u64,
}

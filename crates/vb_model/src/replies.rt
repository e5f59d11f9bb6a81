//! What events are answered.

ghost use Rattle.std.specs.Prelude.{◌≡◌, IfOk};

use crate::calls::Bytes;
use crate::places::{PageRuns, PlaceCounts};
use std::alloc::{AllocError, Global};
use vb_virtio::{LastStatistics, Numbers, Refusal};

/// What a device and its driver say of the balloon.
#[derive(Clone, Copy, Debug, PartialEq, Eq)]
pub struct BalloonState {
    /// How many pages the device holds to be ballooned.
    pub ballooned: u32,
    /// How many pages the driver says it gave (VIRTIO 1.1, 5.5.4).
    pub actual: u32,
    /// How many the host wants: `num_pages` (VIRTIO 1.1, 5.5.4).
    pub target: u32,
    /// The device's status (VIRTIO 1.1, 2.1).
    pub status: u8,
}

/// What an event is answered.
#[derive(Drop)]
pub enum Reply {
    /// The new guest's number.
    Plugged { guest: usize },
    /// The event was done.
    Done,
    /// The driver is initialised.
    Ready,
    /// The first page of the block that was handed out.
    Page { start: u32 },
    /// What was read.
    ReadBytes { bytes: Bytes },
    /// The request's head, and how many pages it names.
    Posted { head: u32, pages: u32 },
    /// The statistics buffer was filled and made available.
    Filled,
    /// No request was used, or the statistics buffer wasn't.
    NotUsed,
    /// The used request's head, and how many pages it named.
    Reaped { head: u32, pages: u32 },
    /// The head of the chain that was taken.
    Taken { head: u32 },
    /// No chain is available.
    Empty,
    /// The page that was visited, and whether it had a frame.
    Worked { page: u32, freed: bool },
    /// There is no page to visit.
    Idle,
    /// The head of the chain that was used.
    Finished { head: u32 },
    /// How many chains of a queue were served, and which rule, from 1 to 10, the next one breaks,
    /// if it breaks one.
    Served { chains: u32, broken: Option<u32> },
    /// The page was swept; whether it had a frame.
    Swept { freed: bool },
    /// The statistics buffer was used.
    Asked,
    /// The new targets, by rising number of guest.
    Targets { pages: Numbers },
    /// How many pages each place has.
    Places { counts: PlaceCounts },
    /// Pages as maximal rising runs.
    Pages { runs: PageRuns },
    /// The count of ballooned pages, the configuration's two numbers, and the status.
    Balloon { state: BalloonState },
    /// The last statistics, in bytes, as far as they are known.
    Statistics { last: LastStatistics },
    /// The page's frame, if it has one.
    Backing { frame: Option<u32> },
    /// How many frames are in use, and how many are not.
    Frames { used: u32, free: u32 },
    /// The event was refused.
    Refused(Refusal),
}

impl Reply {
    /// A copy of the reply. Refused on an allocation failure alone.
    pub fn copy(&self, alloc: Global) -> Result<Reply, AllocError>
        ensures { IfOk result (λ copy. copy ≡ self.now) }
    {
        Ok(match self {
            Reply::Plugged { guest } => Reply::Plugged { guest: *guest },
            Reply::Done => Reply::Done,
            Reply::Ready => Reply::Ready,
            Reply::Page { start } => Reply::Page { start: *start },
            Reply::ReadBytes { bytes } => Reply::ReadBytes {
                bytes: bytes.copy(alloc)?,
            },
            Reply::Posted { head, pages } => Reply::Posted {
                head: *head,
                pages: *pages,
            },
            Reply::Filled => Reply::Filled,
            Reply::NotUsed => Reply::NotUsed,
            Reply::Reaped { head, pages } => Reply::Reaped {
                head: *head,
                pages: *pages,
            },
            Reply::Taken { head } => Reply::Taken { head: *head },
            Reply::Empty => Reply::Empty,
            Reply::Worked { page, freed } => Reply::Worked {
                page: *page,
                freed: *freed,
            },
            Reply::Idle => Reply::Idle,
            Reply::Finished { head } => Reply::Finished { head: *head },
            Reply::Served { chains, broken } => Reply::Served {
                chains: *chains,
                broken: *broken,
            },
            Reply::Swept { freed } => Reply::Swept { freed: *freed },
            Reply::Asked => Reply::Asked,
            Reply::Targets { pages } => Reply::Targets {
                pages: pages.copy()?,
            },
            Reply::Places { counts } => Reply::Places { counts: *counts },
            Reply::Pages { runs } => Reply::Pages {
                runs: runs.copy(alloc)?,
            },
            Reply::Balloon { state } => Reply::Balloon { state: *state },
            Reply::Statistics { last } => Reply::Statistics { last: *last },
            Reply::Backing { frame } => Reply::Backing { frame: *frame },
            Reply::Frames { used, free } => Reply::Frames {
                used: *used,
                free: *free,
            },
            Reply::Refused(refusal) => Reply::Refused(*refusal),
        })
    }
}

//! What may be asked of a guest and of the world.

ghost use Rattle.std.specs.Prelude.{◌≡◌, ◌↔◌, true, IfOk};

use crate::places::Place;
use std::alloc::{AllocError, Global};
use std::marker::Model;

/// Bytes that a call writes or a reply brings. A contract sees the list.
#[derive(Drop)]
pub struct Bytes {
    items: Vec<u8>,
}

impl Model for Bytes {
    ghost use Rattle.std.specs.Prelude.{List, ℕ};

    ghost Value = { List ℕ };

    ghost view = { λ bytes. bytes.items.items };
}

impl PartialEq for Bytes {
    ghost use Rattle.std.specs.Cmp.{partial_equiv_from_equiv};
    ghost use Rattle.std.specs.Cmp.Lexicographic.{pointwise};
    ghost use Rattle.std.specs.Prelude.{nat_eq};
    ghost use Rattle.std.proofs.lemmas.Cmp.{nat_list_eq_equiv};

    ghost eq = { pointwise nat_eq };

    ghost laws = { partial_equiv_from_equiv nat_list_eq_equiv };

    fn eq(&self, other: &Bytes) -> bool {
        self.items == other.items
    }
}

impl Bytes {
    /// Makes bytes of a list.
    pub fn new(items: Vec<u8>) -> Bytes
        ensures { result ≡ items.items }
    {
        Bytes { items }
    }

    /// The bytes, to read.
    pub fn as_slice(&self) -> &[u8]
        ensures { result.now ≡ self.now }
    {
        &self.items
    }

    /// A copy of the bytes. Refused on an allocation failure alone.
    pub fn copy(&self, alloc: Global) -> Result<Bytes, AllocError>
        ensures { IfOk result (λ copy. copy ≡ self.now) }
    {
        let mut items = Vec::new(alloc);
        items.extend_from_slice(&self.items)?;
        Ok(Bytes { items })
    }
}

/// A call on one guest: by what runs in it, by its balloon driver, or by its device. Pages, orders,
/// queues and processors are numbers from 0 on, and `at` is a place in a page, in bytes from its
/// start; any number may be passed.
#[derive(Drop, PartialEq)]
pub enum Call {
    /// The driver initialises the device and asks for these features (VIRTIO 1.1, 3.1.1).
    Init { features: u64 },
    /// The driver resets the device (VIRTIO 1.1, 2.1).
    Reset,
    /// A processor asks for a block of 2^order pages (Gorman, chapter 6).
    Alloc { cpu: u32, order: u32 },
    /// A processor gives back a block that it or another one was handed.
    Free { cpu: u32, start: u32, order: u32 },
    /// Bytes of a used page are read.
    Read { page: u32, at: u32, len: u32 },
    /// Bytes of a used page are written.
    Write { page: u32, at: u32, bytes: Bytes },
    /// Bytes of any page are written: the guest is rogue from then on (profile).
    Scribble { page: u32, at: u32, bytes: Bytes },
    /// The driver offers at most `pages` pages to the host (VIRTIO 1.1, 5.5.6).
    Inflate { pages: u32 },
    /// The driver asks for at most `pages` pages back, as far as the target allows.
    Deflate { pages: u32 },
    /// The driver asks for at most `pages` pages back, for any target (VIRTIO 1.1, 5.5.6, with
    /// DEFLATE_ON_OOM).
    Oom { pages: u32 },
    /// The driver reports free blocks from a page on (profile).
    Report { from: u32 },
    /// The driver fills the statistics buffer (VIRTIO 1.1, 5.5.6.3).
    Stats,
    /// The driver takes the next used request of a queue (VIRTIO 1.1, 2.6.14).
    Reap { queue: u32 },
    /// The device takes the next request of a queue (VIRTIO 1.1, 2.6).
    Take { queue: u32 },
    /// The device visits one page of a request (profile).
    Work,
    /// The device uses a taken request, by its index among those of the queue.
    Finish { queue: u32, index: u32 },
    /// The device serves a queue: it takes each chain that is available, visits its pages and uses
    /// it, before the next one (profile).
    Serve { queue: u32 },
    /// The host discards what it still has of a ballooned page (profile).
    Sweep { page: u32 },
    /// The device asks for statistics (VIRTIO 1.1, 5.5.6.3).
    Ask,
    /// The host sets how many pages it wants, the configuration's num_pages (VIRTIO 1.1, 5.5.4).
    SetTarget { pages: u32 },
}

impl Call {
    /// Whether another call is the same one.
    pub fn is_same(&self, other: &Call) -> bool
        ensures { (result ≡ true) ↔ (self.now ≡ other.now) }
    {
        self == other
    }

    /// A copy of the call. Refused on an allocation failure alone.
    pub fn copy(&self, alloc: Global) -> Result<Call, AllocError>
        ensures { IfOk result (λ copy. copy ≡ self.now) }
    {
        Ok(match self {
            Call::Init { features } => Call::Init {
                features: *features,
            },
            Call::Reset => Call::Reset,
            Call::Alloc { cpu, order } => Call::Alloc {
                cpu: *cpu,
                order: *order,
            },
            Call::Free { cpu, start, order } => Call::Free {
                cpu: *cpu,
                start: *start,
                order: *order,
            },
            Call::Read { page, at, len } => Call::Read {
                page: *page,
                at: *at,
                len: *len,
            },
            Call::Write { page, at, bytes } => Call::Write {
                page: *page,
                at: *at,
                bytes: bytes.copy(alloc)?,
            },
            Call::Scribble { page, at, bytes } => Call::Scribble {
                page: *page,
                at: *at,
                bytes: bytes.copy(alloc)?,
            },
            Call::Inflate { pages } => Call::Inflate { pages: *pages },
            Call::Deflate { pages } => Call::Deflate { pages: *pages },
            Call::Oom { pages } => Call::Oom { pages: *pages },
            Call::Report { from } => Call::Report { from: *from },
            Call::Stats => Call::Stats,
            Call::Reap { queue } => Call::Reap { queue: *queue },
            Call::Take { queue } => Call::Take { queue: *queue },
            Call::Work => Call::Work,
            Call::Finish { queue, index } => Call::Finish {
                queue: *queue,
                index: *index,
            },
            Call::Serve { queue } => Call::Serve { queue: *queue },
            Call::Sweep { page } => Call::Sweep { page: *page },
            Call::Ask => Call::Ask,
            Call::SetTarget { pages } => Call::SetTarget { pages: *pages },
        })
    }
}

/// A question about one guest, which changes nothing.
#[derive(Clone, Copy, Debug, PartialEq, Eq)]
pub enum Query {
    /// How many pages each place has.
    Places,
    /// Which pages are at a place.
    PagesAt(Place),
    /// Which pages the device holds to be ballooned.
    PagesBallooned,
    /// The count of ballooned pages, the configuration, and the status.
    Balloon,
    /// The last statistics.
    Memory,
    /// Which frame backs a page.
    Backing { page: u32 },
}

/// How large a guest is to be; any numbers may be passed.
#[derive(Clone, Copy, Debug, PartialEq, Eq)]
pub struct GuestSize {
    /// Pages of memory.
    pub pages: u32,
    /// Descriptors of each queue.
    pub queue_size: u32,
    /// Processors, each with a list of free pages.
    pub processors: u32,
}

/// What may happen to the world: one line of a script.
#[derive(Drop)]
pub enum Event {
    /// A guest of this configuration is plugged in, with the first spare device.
    Plug { size: GuestSize },
    /// A guest goes, and its frames with it.
    Unplug { guest: u32 },
    /// A guest begins a new life.
    Restart { guest: u32 },
    /// A call on a guest.
    Guest { guest: u32, call: Call },
    /// A question about a guest.
    Query { guest: u32, query: Query },
    /// All guests get targets, so that no guest is asked for pages below this floor of free memory.
    Balance { floor: u32 },
    /// How many frames are in use.
    Frames,
}

/// What a call's claim of a frame was answered. Where nothing was claimed, as in the unused places
/// of a list, that is `GaveNoFrame`.
#[derive(Clone, Copy, Debug, Default, PartialEq, Eq)]
pub enum Claim {
    /// The frame of this number.
    Gave(u32),
    /// No frame is left.
    #[default]
    GaveNoFrame,
    /// There was no memory for the frame's bytes.
    GaveNoMemory,
}

/// Who makes a guest's calls where guests run on threads.
#[derive(Clone, Copy, Debug, PartialEq, Eq)]
pub enum Actor {
    /// What starts the guest.
    Starter,
    /// One of a guest's processors.
    Processor { guest: u32, cpu: u32 },
    /// What does the device's work for a guest.
    Worker { guest: u32 },
    /// What sets all targets.
    Balancer,
}

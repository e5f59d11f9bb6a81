//! In what order a driver writes to its device and to memory.

use super::{ALL, Answer, DONE, Line, Sight, Step, YES, expect};
use bitflags::Flags;
use vb_ram::{GuestBytes, RamFault};
use vb_status::{Features, MemoryPort, Port, Status, StatusFault};

/// What a driver does to its port.
#[derive(Clone, Copy, PartialEq)]
pub(super) enum Deed {
    /// It writes the status.
    Status(u8),
    /// It makes a page zeros.
    Clear(u32),
    /// It writes to a part of a page.
    Write(u32, Part),
}

/// A part of a page with a ring of 8 descriptors, or with buffers.
#[derive(Clone, Copy, PartialEq)]
pub(super) enum Part {
    Descriptors,
    /// The available ring's flags or entries.
    Available,
    /// The available ring's index.
    AvailableIndex,
    Buffers,
}

fn part_of(page: u32, offset: usize) -> Part {
    if page > 3 {
        Part::Buffers
    } else if offset < 128 {
        Part::Descriptors
    } else if offset == 130 {
        Part::AvailableIndex
    } else {
        Part::Available
    }
}

/// Deeds that are waited for, in order; the same one may come several times in a row.
#[derive(Drop)]
pub(super) struct Awaited {
    deeds: &'static [Deed],
    /// How many of them were the last ones done.
    met: usize,
}

impl Awaited {
    pub(super) fn for_deeds(deeds: &'static [Deed]) -> Awaited {
        Awaited { deeds, met: 0 }
    }

    pub(super) fn are_met(&self) -> bool {
        self.met == self.deeds.len()
    }

    fn note(&mut self, deed: Deed) {
        let met = self.met;
        if met < self.deeds.len() && self.deeds[met] == deed {
            self.met = met + 1;
        } else if met == 0 || met > self.deeds.len() || self.deeds[met - 1] != deed {
            self.met = 0;
        }
    }
}

/// A port in memory, and what is waited for there.
#[derive(Drop)]
pub(super) struct Recorder {
    pub(super) port: MemoryPort,
    pub(super) awaited: Awaited,
}

impl Recorder {
    /// Nothing is waited for.
    pub(super) fn new(port: MemoryPort) -> Recorder {
        let awaited = Awaited::for_deeds(&[]);
        Recorder { port, awaited }
    }
}

impl GuestBytes for Recorder {
    ghost mem = { λ r. ⟦<MemoryPort as GuestBytes>⟧.mem r.port };

    ghost part = { λ r. ⟦<MemoryPort as GuestBytes>⟧.part r.port };

    fn pages(&self) -> u32 {
        self.port.pages()
    }

    fn has_frame(&self, page: u32) -> bool {
        self.port.has_frame(page)
    }

    fn read(&self, page: u32, offset: usize, out: &mut [u8]) -> Result<(), RamFault> {
        self.port.read(page, offset, out)
    }

    fn write(&mut self, page: u32, offset: usize, bytes: &[u8]) -> Result<(), RamFault> {
        self.awaited.note(Deed::Write(page, part_of(page, offset)));
        self.port.write(page, offset, bytes)
    }

    fn clear_page(&mut self, page: u32) -> Result<(), RamFault> {
        self.awaited.note(Deed::Clear(page));
        self.port.clear_page(page)
    }
}

impl Port for Recorder {
    fn status(&self) -> Status {
        self.port.status()
    }

    fn write_status(&mut self, write: Status) -> Result<(), StatusFault> {
        self.awaited.note(Deed::Status(write.bits()));
        self.port.write_status(write)
    }

    fn negotiate(&mut self, wanted: Features) -> Result<(), StatusFault> {
        self.port.negotiate(wanted)
    }

    fn target(&self) -> u32 {
        self.port.target()
    }

    fn set_actual(&mut self, pages: u32) {
        self.port.set_actual(pages);
    }
}

/// The four rings' pages are zeroed after the features are agreed on, and the statistics buffer is
/// filled and posted, before DRIVER_OK (VIRTIO 1.1, 3.1.1 and 5.5.6.3).
const INIT_DEEDS: &'static [Deed] = &[
    Deed::Status(11),
    Deed::Clear(0),
    Deed::Clear(1),
    Deed::Clear(2),
    Deed::Clear(3),
    Deed::Write(12, Part::Buffers),
    Deed::Write(2, Part::Descriptors),
    Deed::Write(2, Part::Available),
    Deed::Write(2, Part::AvailableIndex),
    Deed::Status(15),
];

/// A buffer is filled, its descriptor is written, its head is put into the available ring, and the
/// index is written last (VIRTIO 1.1, 2.6.13).
const INFLATE_DEEDS: &'static [Deed] = &[
    Deed::Write(4, Part::Buffers),
    Deed::Write(0, Part::Descriptors),
    Deed::Write(0, Part::Available),
    Deed::Write(0, Part::AvailableIndex),
];

/// A report's descriptors are written, then its head, then the index; it has no buffer of its own.
const REPORT_DEEDS: &'static [Deed] = &[
    Deed::Write(3, Part::Descriptors),
    Deed::Write(3, Part::Available),
    Deed::Write(3, Part::AvailableIndex),
];

static ORDER: [Line; 10] = [
    (Step::SetTarget(4), DONE),
    (Step::Await(INIT_DEEDS), DONE),
    (Step::Init(ALL), DONE),
    (Step::See(Sight::Deeds), YES),
    (Step::Await(INFLATE_DEEDS), DONE),
    (Step::Inflate(4), Ok(Answer::Posted(0, 4))),
    (Step::See(Sight::Deeds), YES),
    (Step::Await(REPORT_DEEDS), DONE),
    (Step::Report(0), Ok(Answer::Posted(0, 32))),
    (Step::See(Sight::Deeds), YES),
];

#[test]
fn writes_in_the_standards_order(rt: HostRuntime) {
    expect(&rt, rt.alloc(), 13, &ORDER);
}

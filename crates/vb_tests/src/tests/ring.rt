//! What no clause says: the layout and the bytes as the standard has them.

mod order;

use std::alloc::Global;
use std::process::Abort;
use vb_chain::{ChainFault, Piece};
use vb_ram::{Frame, GuestBytes, Ram, RamFault};
use vb_ring::{DriverRing, Full, Layout, Queue, RingArea, RingBroken, Taken};

/// A request of four page numbers.
const REQUEST: Piece = Piece {
    addr: 0x4000,
    len: 16,
    writable: false,
};

/// A request of one page number.
const ONE_NUMBER: Piece = Piece {
    addr: 0x4000,
    len: 4,
    writable: false,
};

/// The first statistics buffer.
const STATISTICS: Piece = Piece {
    addr: 0xc000,
    len: 20,
    writable: false,
};

const FIRST_BLOCK: Piece = Piece {
    addr: 0x1_0000,
    len: 0x1_0000,
    writable: true,
};

const SECOND_BLOCK: Piece = Piece {
    addr: 0x2_0000,
    len: 0x2_0000,
    writable: true,
};

const ONE: Piece = Piece {
    addr: 0x4000,
    len: 1,
    writable: false,
};

const TWO: Piece = Piece {
    addr: 0x5000,
    len: 2,
    writable: false,
};

const THREE: Piece = Piece {
    addr: 0x6000,
    len: 3,
    writable: true,
};

const FOUR: Piece = Piece {
    addr: 0x7000,
    len: 4,
    writable: true,
};

/// A call on the two ends of a ring.
enum Step {
    NextHead,
    Add(&'static [Piece]),
    Outstanding,
    TakeUsed,
    Pop,
    /// A pop that is answered by how many pieces the chain has.
    PopPieces,
    AddUsed(u16),
    /// 16 bytes of the ring are read, from this one on.
    Bytes(u16),
}

/// What a call answers.
#[derive(Clone, Copy, PartialEq)]
enum Answer {
    Done,
    Nothing,
    Head(u16),
    Count(u16),
    Bytes([u8; 16]),
    Full(Full),
    Fault(ChainFault),
    Broken(RingBroken),
}

/// 64 pages, the first four with frames.
fn memory(alloc: Global) -> Result<Ram, RamFault> {
    let mut ram = Ram::new(alloc, 64)?;
    for page in 0..4 {
        let _ = ram.supply(page, Frame::fresh(alloc, page)?);
    }
    Ok(ram)
}

fn ready_queue(page: u16, size: u16) -> Queue {
    let mut queue = Queue::new(page);
    let _sized = queue.set_size(size);
    queue.set_ready(true);
    queue
}

/// A driver and a device, with the memory that they share.
#[derive(Drop)]
struct Ends {
    ram: Ram,
    ring: DriverRing,
    queue: Queue,
}

impl Ends {
    fn add(&mut self, pieces: &[Piece]) -> Answer {
        let layout = self.ring.layout();
        let is_backed = self.ram.backing(layout.table).is_some()
            && self.ram.backing(layout.avail.page).is_some()
            && self.ram.backing(layout.used.page).is_some();
        if !is_backed || pieces.is_empty() {
            return Answer::Nothing;
        }
        match self.ring.add(&mut self.ram, pieces) {
            Ok(head) => Answer::Head(head),
            Err(full) => Answer::Full(full),
        }
    }

    fn take_used(&mut self) -> Answer {
        let layout = self.ring.layout();
        let pages = self.ram.pages();
        if layout.table >= pages || layout.avail.page >= pages || layout.used.page >= pages {
            return Answer::Nothing;
        }
        match self.ring.take_used(&self.ram) {
            Ok(Some(head)) => Answer::Head(head),
            Ok(None) => Answer::Nothing,
            Err(broken) => Answer::Broken(broken),
        }
    }

    fn pop(&mut self) -> Answer {
        match pop(&mut self.queue, &self.ram) {
            Ok(Some(taken)) => Answer::Head(taken.head),
            Ok(None) => Answer::Nothing,
            Err(fault) => Answer::Fault(fault),
        }
    }

    fn pop_pieces(&mut self) -> Answer {
        match pop(&mut self.queue, &self.ram) {
            Ok(Some(taken)) => Answer::Count(taken.chain.pieces().len() as u16),
            Ok(None) => Answer::Nothing,
            Err(fault) => Answer::Fault(fault),
        }
    }

    fn add_used(&mut self, head: u16) -> Answer {
        let layout = self.queue.layout();
        let is_backed = self.ram.backing(layout.table).is_some()
            && self.ram.backing(layout.avail.page).is_some()
            && self.ram.backing(layout.used.page).is_some();
        if !is_backed || !self.queue.is_ready() || head >= self.queue.size() {
            return Answer::Nothing;
        }
        self.queue.add_used(&mut self.ram, head, 0);
        Answer::Done
    }

    fn bytes(&self, from: u16) -> Answer {
        let page = self
            .ring
            .layout()
            .table
            .wrapping_add(u32::from(from / 4096));
        let mut bytes = [9; 16];
        let _ = self.ram.read(page, usize::from(from % 4096), &mut bytes);
        Answer::Bytes(bytes)
    }

    fn answer_of(&mut self, step: &Step) -> Answer {
        match step {
            Step::NextHead => match self.ring.next_head() {
                Some(head) => Answer::Head(head),
                None => Answer::Nothing,
            },
            Step::Add(pieces) => self.add(pieces),
            Step::Outstanding => Answer::Count(self.ring.outstanding()),
            Step::TakeUsed => self.take_used(),
            Step::Pop => self.pop(),
            Step::PopPieces => self.pop_pieces(),
            Step::AddUsed(head) => self.add_used(*head),
            Step::Bytes(from) => self.bytes(*from),
        }
    }

    /// The ends answer each of these lines.
    fn expect(&mut self, rt: &impl Abort, lines: &[(Step, Answer)]) {
        for (at, (step, expected)) in lines.iter().enumerate() {
            assert!(rt; self.answer_of(step) == *expected, "line {at}");
        }
    }
}

/// The ends of a ring of `size` descriptors, which begins with this page.
fn both_ends(rt: &impl Abort, alloc: Global, page: u16, size: u16) -> Ends {
    assert!(rt; 2 <= size && size <= 256 && 65_536 % u32::from(size) == 0);
    Ends {
        ram: memory(alloc).expect(rt, "no memory"),
        ring: DriverRing::new(page, size),
        queue: ready_queue(page, size),
    }
}

/// The ends of a ring of 8 descriptors in this page answer each of these lines.
fn expect_of_eight(rt: &impl Abort, alloc: Global, page: u16, lines: &[(Step, Answer)]) {
    both_ends(rt, alloc, page, 8).expect(rt, lines);
}

/// The ends of a ring of 256 descriptors in pages 0 and 1 answer each of these lines.
fn expect_of_256(rt: &impl Abort, alloc: Global, lines: &[(Step, Answer)]) {
    both_ends(rt, alloc, 0, 256).expect(rt, lines);
}

/// The next chain that the device pops; none where the ring isn't inside memory.
fn pop(queue: &mut Queue, ram: &Ram) -> Result<Option<Taken>, ChainFault> {
    let layout = queue.layout();
    let pages = ram.pages();
    if layout.table >= pages || layout.avail.page >= pages || layout.used.page >= pages {
        return Ok(None);
    }
    queue.pop_descriptor_chain(ram)
}

/// Sizes of queues: at which bytes of the ring the available and the used ring begin, and where the
/// used ring ends.
static LAYOUTS: [(u16, u64, u64, u64); 5] = [
    (2, 32, 44, 66),
    (8, 128, 152, 222),
    (16, 256, 296, 430),
    (128, 2048, 2312, 3342),
    (256, 4096, 4616, 6670),
];

/// At which byte of a ring from page 0 on a part of it begins.
fn byte_of(area: &RingArea) -> u64 {
    4096 * u64::from(area.page) + u64::from(area.offset)
}

/// Where the rings of a queue of this size lie, and where the used ring ends; none where no queue
/// has this size.
fn offsets(size: u16) -> Option<(u64, u64, u64)> {
    if size < 2 || size > 256 || 65_536 % u32::from(size) != 0 {
        return None;
    }
    let layout = Layout::of(size);
    let used = byte_of(&layout.used);
    Some((
        byte_of(&layout.avail),
        used,
        used.wrapping_add(6 + 8 * u64::from(size)),
    ))
}

#[test]
fn layouts(rt: HostRuntime) {
    for (size, avail, used, end) in &LAYOUTS {
        assert!(rt; offsets(*size) == Some((*avail, *used, *end)), "{size}");
    }
}

/// First pages of rings and their sizes: page and offset of the available and of the used ring.
static PLACES: [(u16, u16, (u32, u16), (u32, u16)); 6] = [
    (3, 8, (3, 128), (3, 152)),
    (3, 128, (3, 2048), (3, 2312)),
    (0, 256, (1, 0), (1, 520)),
    (16, 256, (17, 0), (17, 520)),
    (22, 256, (23, 0), (23, 520)),
    (65_534, 256, (65_535, 0), (65_535, 520)),
];

/// Where the rings of a queue of this size lie that begins with this page; none where no queue has
/// this size.
fn places_of(page: u16, size: u16) -> Option<((u32, u16), (u32, u16))> {
    if size < 2 || size > 256 || 65_536 % u32::from(size) != 0 {
        return None;
    }
    let Layout { avail, used, .. } = Layout::at(page, size);
    Some(((avail.page, avail.offset), (used.page, used.offset)))
}

#[test]
fn places(rt: HostRuntime) {
    for (page, size, avail, used) in &PLACES {
        assert!(rt;
            places_of(*page, *size) == Some((*avail, *used)),
            "{page} {size}"
        );
    }
}

#[test]
fn rings_and_faults_that_differ_are_told_apart(rt: HostRuntime) {
    assert!(rt; Layout::at(3, 8) != Layout::of(8) && Layout::at(0, 16) != Layout::of(8));
    assert!(rt; Layout::at(0, 8) == Layout::of(8));
    assert!(rt; RingBroken::IndexAhead != RingBroken::NotOutstanding);
}

/// Numbers of descriptors, whether a queue may have n, and how many it has then. It begins with
/// 256.
static SIZES: [(u16, bool, u16); 19] = [
    (0, false, 256),
    (2, true, 2),
    (4, true, 4),
    (8, true, 8),
    (16, true, 16),
    (32, true, 32),
    (64, true, 64),
    (128, true, 128),
    (256, true, 256),
    (0, false, 256),
    (1, false, 256),
    (3, false, 256),
    (6, false, 256),
    (100, false, 256),
    (255, false, 256),
    (257, false, 256),
    (512, false, 256),
    (32_768, false, 256),
    (65_535, false, 256),
];

#[test]
fn sizes(rt: HostRuntime) {
    let mut queue = Queue::new(0);
    for (size, is_set, after) in &SIZES {
        let was_set = queue.set_size(*size);
        assert!(rt; was_set == *is_set && queue.size() == *after, "{size}");
    }
}

/// An inflate of four pages.
static INFLATE: [(Step, Answer); 6] = [
    (Step::Add(&[REQUEST]), Answer::Head(0)),
    (
        Step::Bytes(0),
        Answer::Bytes([0, 0x40, 0, 0, 0, 0, 0, 0, 0x10, 0, 0, 0, 0, 0, 0, 0]),
    ),
    (
        Step::Bytes(128),
        Answer::Bytes([0, 0, 1, 0, 0, 0, 0, 0, 0, 0, 0, 0, 0, 0, 0, 0]),
    ),
    (Step::Pop, Answer::Head(0)),
    (Step::AddUsed(0), Answer::Done),
    (
        Step::Bytes(152),
        Answer::Bytes([0, 0, 1, 0, 0, 0, 0, 0, 0, 0, 0, 0, 0, 0, 0, 0]),
    ),
];

/// An inflate's calls with 256 descriptors: both rings are in the second page.
static INFLATE_OF_256: [(Step, Answer); 6] = [
    (Step::Add(&[REQUEST]), Answer::Head(0)),
    (
        Step::Bytes(0),
        Answer::Bytes([0, 0x40, 0, 0, 0, 0, 0, 0, 0x10, 0, 0, 0, 0, 0, 0, 0]),
    ),
    (
        Step::Bytes(4096),
        Answer::Bytes([0, 0, 1, 0, 0, 0, 0, 0, 0, 0, 0, 0, 0, 0, 0, 0]),
    ),
    (Step::Pop, Answer::Head(0)),
    (Step::AddUsed(0), Answer::Done),
    (
        Step::Bytes(4616),
        Answer::Bytes([0, 0, 1, 0, 0, 0, 0, 0, 0, 0, 0, 0, 0, 0, 0, 0]),
    ),
];

/// The first statistics buffer.
static BUFFER: [(Step, Answer); 2] = [
    (Step::Add(&[STATISTICS]), Answer::Head(0)),
    (
        Step::Bytes(0),
        Answer::Bytes([0, 0xc0, 0, 0, 0, 0, 0, 0, 0x14, 0, 0, 0, 0, 0, 0, 0]),
    ),
];

/// A report of two blocks.
static REPORT: [(Step, Answer); 3] = [
    (Step::Add(&[FIRST_BLOCK, SECOND_BLOCK]), Answer::Head(0)),
    (
        Step::Bytes(0),
        Answer::Bytes([0, 0, 1, 0, 0, 0, 0, 0, 0, 0, 1, 0, 3, 0, 1, 0]),
    ),
    (
        Step::Bytes(16),
        Answer::Bytes([0, 0, 2, 0, 0, 0, 0, 0, 0, 0, 2, 0, 2, 0, 0, 0]),
    ),
];

#[test]
fn bytes_of_a_ring(rt: HostRuntime) {
    expect_of_eight(&rt, rt.alloc(), 0, &INFLATE);
    expect_of_256(&rt, rt.alloc(), &INFLATE_OF_256);
    expect_of_eight(&rt, rt.alloc(), 2, &BUFFER);
    expect_of_eight(&rt, rt.alloc(), 3, &REPORT);
}

static IN_ANY_ORDER: [(Step, Answer); 27] = [
    (Step::NextHead, Answer::Head(0)),
    (Step::Add(&[ONE, TWO, THREE]), Answer::Head(0)),
    (Step::Add(&[ONE, TWO, THREE]), Answer::Head(3)),
    (
        Step::Add(&[ONE, TWO, THREE]),
        Answer::Full(Full::TooFewFree),
    ),
    (Step::Add(&[FOUR]), Answer::Head(6)),
    (Step::Outstanding, Answer::Count(3)),
    (Step::TakeUsed, Answer::Nothing),
    (Step::Pop, Answer::Head(0)),
    (Step::Pop, Answer::Head(3)),
    (Step::Pop, Answer::Head(6)),
    (Step::Pop, Answer::Nothing),
    (Step::AddUsed(3), Answer::Done),
    (Step::AddUsed(6), Answer::Done),
    (Step::AddUsed(0), Answer::Done),
    (Step::TakeUsed, Answer::Head(3)),
    (Step::TakeUsed, Answer::Head(6)),
    (Step::TakeUsed, Answer::Head(0)),
    (Step::Outstanding, Answer::Count(0)),
    (Step::NextHead, Answer::Head(0)),
    // An index further ahead than there are chains, and an id that is no head of one.
    (Step::AddUsed(0), Answer::Done),
    (Step::TakeUsed, Answer::Broken(RingBroken::IndexAhead)),
    (Step::Add(&[ONE, TWO, THREE]), Answer::Head(0)),
    (Step::TakeUsed, Answer::Head(0)),
    (Step::Add(&[ONE, TWO, THREE]), Answer::Head(0)),
    (Step::AddUsed(1), Answer::Done),
    (Step::TakeUsed, Answer::Broken(RingBroken::NotOutstanding)),
    (Step::Outstanding, Answer::Count(1)),
];

#[test]
fn several_descriptors_in_any_order(rt: HostRuntime) {
    expect_of_eight(&rt, rt.alloc(), 1, &IN_ANY_ORDER);
}

/// A chain of more pieces than the largest ring has descriptors is refused, and one of as many goes
/// out and comes back.
static WHOLE_RING: [(Step, Answer); 14] = [
    (Step::Add(&[TWO; 257]), Answer::Full(Full::TooFewFree)),
    (Step::Outstanding, Answer::Count(0)),
    (Step::Add(&[TWO; 256]), Answer::Head(0)),
    (Step::NextHead, Answer::Nothing),
    (Step::Add(&[ONE]), Answer::Full(Full::TooFewFree)),
    (Step::Outstanding, Answer::Count(1)),
    (
        Step::Bytes(0),
        Answer::Bytes([0, 0x50, 0, 0, 0, 0, 0, 0, 2, 0, 0, 0, 1, 0, 1, 0]),
    ),
    (
        Step::Bytes(4080),
        Answer::Bytes([0, 0x50, 0, 0, 0, 0, 0, 0, 2, 0, 0, 0, 0, 0, 0, 0]),
    ),
    (Step::PopPieces, Answer::Count(256)),
    (Step::PopPieces, Answer::Nothing),
    (Step::AddUsed(0), Answer::Done),
    (Step::TakeUsed, Answer::Head(0)),
    (Step::Outstanding, Answer::Count(0)),
    (Step::NextHead, Answer::Head(0)),
];

#[test]
fn all_descriptors_are_one_chain(rt: HostRuntime) {
    expect_of_256(&rt, rt.alloc(), &WHOLE_RING);
}

static ROUND: [(Step, Answer); 4] = [
    (Step::Add(&[ONE_NUMBER]), Answer::Head(0)),
    (Step::Pop, Answer::Head(0)),
    (Step::AddUsed(0), Answer::Done),
    (Step::TakeUsed, Answer::Head(0)),
];

/// The available ring and the used ring of two descriptors after 65,540 rounds.
static BOTH_INDICES: [(Step, Answer); 1] = [(
    Step::Bytes(34),
    Answer::Bytes([4, 0, 0, 0, 0, 0, 0, 0, 0, 0, 0, 0, 4, 0, 0, 0]),
)];

/// Those of 256 descriptors.
static BOTH_INDICES_OF_256: [(Step, Answer); 2] = [
    (
        Step::Bytes(4096),
        Answer::Bytes([0, 0, 4, 0, 0, 0, 0, 0, 0, 0, 0, 0, 0, 0, 0, 0]),
    ),
    (
        Step::Bytes(4616),
        Answer::Bytes([0, 0, 4, 0, 0, 0, 0, 0, 0, 0, 0, 0, 0, 0, 0, 0]),
    ),
];

/// The ends of a ring of `size` descriptors answer these lines after 65,540 rounds.
fn expect_after_rounds(rt: &impl Abort, alloc: Global, size: u16, lines: &[(Step, Answer)]) {
    let mut ends = both_ends(rt, alloc, 0, size);
    for _round in 0..65_540 {
        ends.expect(rt, &ROUND);
    }
    ends.expect(rt, lines);
}

#[test]
fn indices_wrap(rt: HostRuntime) {
    expect_after_rounds(&rt, rt.alloc(), 2, &BOTH_INDICES);
    expect_after_rounds(&rt, rt.alloc(), 256, &BOTH_INDICES_OF_256);
}

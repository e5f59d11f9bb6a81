//! Values from the formats, and the first fault on the way.

use std::alloc::Global;
use std::process::Abort;
use std::test::Fail;
use vb_chain::{
    ChainFault, Descriptor, Piece, read_descriptor, walk, write_chain, write_descriptor,
};
use vb_ram::{Frame, GuestBytes, Ram, RamFault};

/// A call on memory of 64 pages, with a table of 8 descriptors in page 0, or of 256.
enum Step {
    /// The descriptor of this number gets an address, a length, flags and a next one.
    Put(u16, u64, u32, u16, u16),
    /// Each of 256 descriptors goes on to the one after it; the last gets flags and a next one.
    PutRow(u16, u16),
    /// A chain of two pieces is written on descriptors 0 and 1.
    PutChain(Piece, Piece),
    /// 16 bytes of page 0 are read.
    Bytes(usize),
    Read(u16),
    /// The walk from a head.
    Walk(u16),
    /// The walk from a head in the table of 256.
    WalkAll(u16),
    /// The walk from descriptor 3, which gets an address, a length, flags and a next one.
    Lone(u64, u32, u16, u16),
}

/// What a call answers.
#[derive(Clone, Copy, PartialEq)]
enum Answer {
    Done,
    /// The page or the descriptor isn't there.
    Nothing,
    Bytes([u8; 16]),
    Descriptor(Descriptor),
    /// How many pieces a chain has, and the first and the last of them.
    Chain(usize, Option<Piece>, Option<Piece>),
    Fault(ChainFault),
}

/// Memory of 64 pages, page 0 with a frame.
fn memory(alloc: Global) -> Result<Ram, RamFault> {
    let mut ram = Ram::new(alloc, 64)?;
    let _ = ram.supply(0, Frame::fresh(alloc, 0)?);
    Ok(ram)
}

fn put(ram: &mut Ram, index: u16, descriptor: Descriptor) -> Answer {
    if ram.pages() != 64 || ram.backing(0).is_none() || index >= 256 {
        return Answer::Nothing;
    }
    write_descriptor(ram, 0, index, descriptor);
    Answer::Done
}

fn put_row(ram: &mut Ram, flags: u16, next: u16) -> Answer {
    for index in 0..255 {
        let _ = put(ram, index, descriptor_of(0x4000, 16, 1, index + 1));
    }
    put(ram, 255, descriptor_of(0x4000, 16, flags, next))
}

fn put_chain(ram: &mut Ram, pieces: &[Piece; 2]) -> Answer {
    if ram.pages() != 64 || ram.backing(0).is_none() {
        return Answer::Nothing;
    }
    write_chain(ram, 0, 8, &[0, 1], pieces);
    Answer::Done
}

fn bytes(ram: &Ram, offset: usize) -> Answer {
    let mut bytes = [1; 16];
    let _ = ram.read(0, offset, &mut bytes);
    Answer::Bytes(bytes)
}

fn read(ram: &Ram, index: u16) -> Answer {
    if ram.pages() != 64 || index >= 8 {
        return Answer::Nothing;
    }
    Answer::Descriptor(read_descriptor(ram, 0, index))
}

/// The walk from a head, in a table of at most 256 descriptors.
fn walk_from(ram: &Ram, head: u16, size: u16) -> Answer {
    if ram.pages() != 64 || size > 256 {
        return Answer::Nothing;
    }
    match walk(ram, 0, head, size) {
        Ok(chain) => {
            let pieces = chain.pieces();
            Answer::Chain(
                pieces.len(),
                pieces.first().copied(),
                pieces.last().copied(),
            )
        }
        Err(fault) => Answer::Fault(fault),
    }
}

fn walk_alone(ram: &mut Ram, descriptor: Descriptor) -> Answer {
    let _ = put(ram, 3, descriptor);
    match walk_from(ram, 3, 8) {
        Answer::Chain(1, _, _) => Answer::Done,
        other => other,
    }
}

fn descriptor_of(addr: u64, len: u32, flags: u16, next: u16) -> Descriptor {
    Descriptor {
        addr,
        len,
        flags,
        next,
    }
}

fn answer_of(ram: &mut Ram, step: &Step) -> Answer {
    match step {
        Step::Put(index, addr, len, flags, next) => {
            put(ram, *index, descriptor_of(*addr, *len, *flags, *next))
        }
        Step::Lone(addr, len, flags, next) => {
            walk_alone(ram, descriptor_of(*addr, *len, *flags, *next))
        }
        Step::PutRow(flags, next) => put_row(ram, *flags, *next),
        Step::PutChain(first, second) => put_chain(ram, &[*first, *second]),
        Step::Bytes(offset) => bytes(ram, *offset),
        Step::Read(index) => read(ram, *index),
        Step::Walk(head) => walk_from(ram, *head, 8),
        Step::WalkAll(head) => walk_from(ram, *head, 256),
    }
}

/// Fresh memory answers each of these lines.
fn expect(rt: &impl Abort, alloc: Global, lines: &[(Step, Answer)]) -> Result<(), Fail> {
    let mut ram = memory(alloc)?;
    for (at, (step, expected)) in lines.iter().enumerate() {
        assert!(rt; answer_of(&mut ram, step) == *expected, "line {at}");
    }
    Ok(())
}

static BYTES: [(Step, Answer); 5] = [
    (Step::Put(0, 0x4000, 16, 0, 0), Answer::Done),
    (Step::Put(1, 0x1_0000, 0x1_0000, 3, 1), Answer::Done),
    (
        Step::Bytes(0),
        Answer::Bytes(*b"\x00\x40\x00\x00\x00\x00\x00\x00\x10\x00\x00\x00\x00\x00\x00\x00"),
    ),
    (
        Step::Bytes(16),
        Answer::Bytes(*b"\x00\x00\x01\x00\x00\x00\x00\x00\x00\x00\x01\x00\x03\x00\x01\x00"),
    ),
    (
        Step::Read(0),
        Answer::Descriptor(Descriptor {
            addr: 0x4000,
            len: 16,
            flags: 0,
            next: 0,
        }),
    ),
];

#[test]
fn descriptors_have_their_bytes(rt: HostRuntime) -> Result<(), Fail> {
    expect(&rt, rt.alloc(), &BYTES)
}

const FIRST_BLOCK: Piece = Piece {
    addr: 0x1_0000,
    len: 0x1_0000,
    writable: true,
};

const SECOND_BLOCK: Piece = Piece {
    addr: 0x2_0000,
    len: 0x2_0000,
    writable: true,
};

static WRITTEN_CHAIN: [(Step, Answer); 4] = [
    (Step::PutChain(FIRST_BLOCK, SECOND_BLOCK), Answer::Done),
    (
        Step::Bytes(0),
        Answer::Bytes(*b"\x00\x00\x01\x00\x00\x00\x00\x00\x00\x00\x01\x00\x03\x00\x01\x00"),
    ),
    (
        Step::Bytes(16),
        Answer::Bytes(*b"\x00\x00\x02\x00\x00\x00\x00\x00\x00\x00\x02\x00\x02\x00\x00\x00"),
    ),
    (
        Step::Walk(0),
        Answer::Chain(2, Some(FIRST_BLOCK), Some(SECOND_BLOCK)),
    ),
];

#[test]
fn a_written_chain_has_its_bytes(rt: HostRuntime) -> Result<(), Fail> {
    expect(&rt, rt.alloc(), &WRITTEN_CHAIN)
}

/// 16 bytes of page 4, to be read.
const BUFFER: Piece = Piece {
    addr: 0x4000,
    len: 16,
    writable: false,
};

/// Pieces, and whether each is that buffer: the others differ from it in one field.
static PIECES: [(Piece, bool); 4] = [
    (BUFFER, true),
    (
        Piece {
            addr: 0x5000,
            len: 16,
            writable: false,
        },
        false,
    ),
    (
        Piece {
            addr: 0x4000,
            len: 8,
            writable: false,
        },
        false,
    ),
    (
        Piece {
            addr: 0x4000,
            len: 16,
            writable: true,
        },
        false,
    ),
];

#[test]
fn pieces_that_differ_are_told_apart(rt: HostRuntime) {
    for (at, (piece, same)) in PIECES.iter().enumerate() {
        assert!(rt; (*piece == BUFFER) == *same, "{at}");
    }
    let none = Piece::default();
    assert!(rt; none.addr == 0 && none.len == 0 && !none.writable);
}

static LONG_CHAINS: [(Step, Answer); 13] = [
    (Step::Put(0, 0x4000, 16, 1, 1), Answer::Done),
    (Step::Put(1, 0x4000, 16, 1, 2), Answer::Done),
    (Step::Put(2, 0x4000, 16, 1, 3), Answer::Done),
    (Step::Put(3, 0x4000, 16, 1, 4), Answer::Done),
    (Step::Put(4, 0x4000, 16, 1, 5), Answer::Done),
    (Step::Put(5, 0x4000, 16, 1, 6), Answer::Done),
    (Step::Put(6, 0x4000, 16, 1, 7), Answer::Done),
    (Step::Put(7, 0x4000, 16, 0, 0), Answer::Done),
    (Step::Walk(0), Answer::Chain(8, Some(BUFFER), Some(BUFFER))),
    (Step::Put(7, 0x4000, 16, 1, 0), Answer::Done),
    (Step::Walk(0), Answer::Fault(ChainFault::TooLong)),
    (Step::Put(7, 0x4000, 16, 1, 8), Answer::Done),
    (Step::Walk(0), Answer::Fault(ChainFault::BadNext)),
];

#[test]
fn eight_descriptors_are_a_chain_and_nine_are_not(rt: HostRuntime) -> Result<(), Fail> {
    expect(&rt, rt.alloc(), &LONG_CHAINS)
}

static WHOLE_TABLE: [(Step, Answer); 9] = [
    (Step::PutRow(0, 0), Answer::Done),
    (
        Step::WalkAll(0),
        Answer::Chain(256, Some(BUFFER), Some(BUFFER)),
    ),
    (
        Step::WalkAll(255),
        Answer::Chain(1, Some(BUFFER), Some(BUFFER)),
    ),
    (Step::WalkAll(256), Answer::Fault(ChainFault::BadHead)),
    (Step::Walk(0), Answer::Fault(ChainFault::BadNext)),
    (Step::PutRow(1, 0), Answer::Done),
    (Step::WalkAll(0), Answer::Fault(ChainFault::TooLong)),
    (Step::PutRow(1, 256), Answer::Done),
    (Step::WalkAll(0), Answer::Fault(ChainFault::BadNext)),
];

#[test]
fn a_whole_page_of_descriptors_is_a_chain(rt: HostRuntime) -> Result<(), Fail> {
    expect(&rt, rt.alloc(), &WHOLE_TABLE)
}

static FAULTS: [(Step, Answer); 15] = [
    (Step::Walk(8), Answer::Fault(ChainFault::BadHead)),
    (Step::Walk(65_535), Answer::Fault(ChainFault::BadHead)),
    // Indirect before all else at a descriptor.
    (Step::Put(0, 0x4000, 16, 3, 3), Answer::Done),
    (Step::Put(3, u64::MAX, 2, 5, 8), Answer::Done),
    (Step::Walk(0), Answer::Fault(ChainFault::Indirect)),
    (Step::Put(3, u64::MAX, 2, 1, 8), Answer::Done),
    (Step::Walk(0), Answer::Fault(ChainFault::OutOfRam)),
    (Step::Put(3, 0x4000, 2, 1, 8), Answer::Done),
    (Step::Walk(0), Answer::Fault(ChainFault::WrongDirection)),
    // The same one at the head, where none came before.
    (Step::Walk(3), Answer::Fault(ChainFault::BadNext)),
    (Step::Put(3, 0x4000, 2, 1, 3), Answer::Done),
    (Step::Walk(3), Answer::Fault(ChainFault::TooLong)),
    // An earlier descriptor's fault before a later one's.
    (Step::Put(0, 0x4000, 16, 1, 9), Answer::Done),
    (Step::Walk(0), Answer::Fault(ChainFault::BadNext)),
    (Step::Walk(3), Answer::Fault(ChainFault::TooLong)),
];

#[test]
fn the_first_fault_is_told(rt: HostRuntime) -> Result<(), Fail> {
    expect(&rt, rt.alloc(), &FAULTS)
}

static ENDS: [(Step, Answer); 8] = [
    (Step::Lone(0x3_fffc, 4, 0, 0), Answer::Done),
    (Step::Lone(0x4_0000, 0, 0, 0), Answer::Done),
    (
        Step::Lone(0x4_0000, 4, 0, 0),
        Answer::Fault(ChainFault::OutOfRam),
    ),
    (
        Step::Lone(0x3_fffd, 4, 0, 0),
        Answer::Fault(ChainFault::OutOfRam),
    ),
    (
        Step::Lone(0x4_0001, 0, 0, 0),
        Answer::Fault(ChainFault::OutOfRam),
    ),
    (
        Step::Lone(0xffff_ffff_ffff_fffc, 4, 0, 0),
        Answer::Fault(ChainFault::OutOfRam),
    ),
    (
        Step::Lone(u64::MAX, u32::MAX, 0, 0),
        Answer::Fault(ChainFault::OutOfRam),
    ),
    (
        Step::Lone(0, u32::MAX, 0, 0),
        Answer::Fault(ChainFault::OutOfRam),
    ),
];

#[test]
fn a_buffer_ends_within_memory(rt: HostRuntime) -> Result<(), Fail> {
    expect(&rt, rt.alloc(), &ENDS)
}

static FLAGS: [(Step, Answer); 4] = [
    (Step::Lone(0x4000, 16, 0xfff8, 0xffff), Answer::Done),
    (Step::Lone(0x4000, 16, 0xfffa, 0xffff), Answer::Done),
    (
        Step::Lone(0x4000, 16, 0xfff9, 0xffff),
        Answer::Fault(ChainFault::BadNext),
    ),
    (
        Step::Lone(0x4000, 16, 0xfffc, 0),
        Answer::Fault(ChainFault::Indirect),
    ),
];

#[test]
fn other_flags_and_a_next_without_next_are_ignored(rt: HostRuntime) -> Result<(), Fail> {
    expect(&rt, rt.alloc(), &FLAGS)
}

static FAULT_NUMBERS: [(ChainFault, u8); 10] = [
    (ChainFault::BadHead, 1),
    (ChainFault::BadNext, 2),
    (ChainFault::TooLong, 3),
    (ChainFault::Indirect, 4),
    (ChainFault::WrongDirection, 5),
    (ChainFault::OutOfRam, 6),
    (ChainFault::IndexJump, 7),
    (ChainFault::BadLength, 8),
    (ChainFault::BadPage, 9),
    (ChainFault::ReservedPage, 10),
];

/// Each has its number, and the first one equals itself alone.
#[test]
fn faults_have_their_numbers(rt: HostRuntime) {
    for (fault, number) in &FAULT_NUMBERS {
        assert!(rt; *fault as u8 == *number, "{number}");
        assert!(rt;
            (*fault == ChainFault::BadHead) == (*number == 1),
            "{number}"
        );
    }
}

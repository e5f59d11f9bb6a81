//! Chains of pieces over a guest's bytes, and what they say.

ghost use Rattle.std.specs.Prelude.{◌≡◌, ◌+◌, ◌*◌, ◌^◌, ◌≤◌, nat_le, true, All, length};
ghost use Rattle.vb_virtio.specs.Limits.{page_size};

use Part::{Read, Write};
use arrayvec::ArrayVec;
use std::alloc::Global;
use std::process::Abort;
use vb_chain::{ChainFault, Piece};
use vb_ram::{Frame, GuestBytes, Ram};
use vb_request::{NamedPages, Statistics, read_report, read_request, read_statistics};

/// A piece of guest memory, by its address and its length.
#[derive(Clone, Copy)]
enum Part {
    /// The device reads it.
    Read(u64, u32),
    /// The device writes it.
    Write(u64, u32),
}

/// Pages 17, 20, 17 and 63, the reserved page 15, page 64 that isn't there, page 15 again, and a
/// number above 2^24.
const NUMBERS: [u8; 32] = [
    17, 0, 0, 0, 20, 0, 0, 0, 17, 0, 0, 0, 63, 0, 0, 0, 15, 0, 0, 0, 64, 0, 0, 0, 15, 0, 0, 0, 16,
    0, 0, 1,
];

/// Tag 4 with value 196,608, and tag 5 with value 262,144.
const FREE_AND_TOTAL: [u8; 20] = [4, 0, 0, 0, 3, 0, 0, 0, 0, 0, 5, 0, 0, 0, 4, 0, 0, 0, 0, 0];

/// Tag 9 with value 1, tag 4 with value 4096, and tag 4 with value 8192.
const FREE_TWICE: [u8; 30] = [
    9, 0, 1, 0, 0, 0, 0, 0, 0, 0, 4, 0, 0, 16, 0, 0, 0, 0, 0, 0, 4, 0, 0, 32, 0, 0, 0, 0, 0, 0,
];

/// Tag 5 with the largest value, and tag 260 with value 1.
const LARGE_TOTAL: [u8; 20] = [
    5, 0, 255, 255, 255, 255, 255, 255, 255, 255, 4, 1, 1, 0, 0, 0, 0, 0, 0, 0,
];

/// What is in memory: a page, an offset and the bytes there. Page 30 is at a page's end, and pages
/// 31 and 32 at the start of the next one. All else is 0.
static WRITTEN: [(u32, usize, &'static [u8]); 6] = [
    (4, 0, &NUMBERS),
    (4, 4092, &[30, 0, 0, 0]),
    (5, 0, &[31, 0, 0, 0, 32, 0, 0, 0]),
    (12, 0, &FREE_AND_TOTAL),
    (12, 100, &FREE_TWICE),
    (12, 200, &LARGE_TOTAL),
];

fn supply(ram: &mut Ram, alloc: Global, page: u32) -> bool {
    match Frame::fresh(alloc, page) {
        Ok(frame) => ram.supply(page, frame).is_ok(),
        Err(_) => false,
    }
}

/// A memory of 64 pages in which these bytes are; other pages have no frame.
fn memory(rt: &impl Abort, alloc: Global) -> Ram {
    let Ok(mut ram) = Ram::new(alloc, 64) else {
        rt.abort()
    };
    for page in [4, 5, 12] {
        assert!(rt; supply(&mut ram, alloc, page));
    }
    for (page, offset, bytes) in &WRITTEN {
        assert!(rt; ram.write(*page, *offset, bytes).is_ok());
    }
    ram
}

fn pieces_of(parts: &[Part]) -> ArrayVec<Piece, 256> {
    let mut pieces = ArrayVec::new();
    for part in parts {
        let (addr, len, writable) = match part {
            Read(addr, len) => (*addr, *len, false),
            Write(addr, len) => (*addr, *len, true),
        };
        let _fits = pieces.try_push(Piece {
            addr,
            len,
            writable,
        });
    }
    pieces
}

/// Whether a piece ends where memory does, or before.
fn is_inside(end: u64, piece: &Piece) -> bool
    ensures { result ≡ nat_le (piece.now.addr + piece.now.len) end }
{
    let len = u64::from(piece.len);
    len <= end && piece.addr <= end - len
}

/// Whether all pieces lie in memory.
fn are_inside(ram: &Ram, pieces: &[Piece]) -> bool
    ensures inside { result ≡ true →
        All (λ piece. piece.addr + piece.len ≤ page_size * length ram.now) pieces.now }
    ensures low { result ≡ true →
        All (λ piece. piece.addr + piece.len ≤ page_size * 2 ^ 32) pieces.now }
{
    let end = u64::from(ram.pages()) * 4096;
    pieces.iter().all(|piece| is_inside(end, piece))
}

fn lists(pages: &NamedPages, wanted: &[u32]) -> bool {
    let count = pages.count();
    for k in 0..count {
        if pages.get(k) != wanted.get(k as usize).copied() {
            return false;
        }
    }
    count as usize == wanted.len() && pages.get(count).is_none()
}

/// Whether a request of these parts, to a guest with `reserved` reserved pages, is answered so.
fn asks(
    ram: &Ram,
    reserved: u32,
    parts: &[Part],
    wanted: &Result<&'static [u32], ChainFault>,
) -> bool {
    let pieces = pieces_of(parts);
    if !are_inside(ram, &pieces) {
        return false;
    }
    match (read_request(ram, &pieces, reserved), wanted) {
        (Ok(pages), Ok(wanted)) => lists(&pages, wanted),
        (Err(fault), Err(wanted)) => fault == *wanted,
        _ => false,
    }
}

/// Reserved pages, a request's parts, and the answer.
static REQUESTS: [(u32, &'static [Part], Result<&'static [u32], ChainFault>); 33] = [
    (16, &[Read(0x4000, 4)], Ok(&[17])),
    // A page that is named twice counts once.
    (16, &[Read(0x4000, 16)], Ok(&[17, 20, 63])),
    (16, &[Read(0x4004, 8)], Ok(&[20, 17])),
    // Numbers that are cut by pieces, pieces of no bytes, and a piece over a page's end.
    (16, &[Read(0x4000, 3), Read(0x4003, 5)], Ok(&[17, 20])),
    (
        16,
        &[Read(0x4000, 0), Read(0x4004, 4), Read(0x9000, 0)],
        Ok(&[20]),
    ),
    (16, &[Read(0x4ffc, 8)], Ok(&[30, 31])),
    (16, &[Read(0x400c, 4), Read(0x4ffc, 8)], Ok(&[63, 30, 31])),
    // The first number that is wrong.
    (16, &[Read(0x4010, 4)], Err(ChainFault::ReservedPage)),
    (16, &[Read(0x4014, 4)], Err(ChainFault::BadPage)),
    (16, &[Read(0x4010, 8)], Err(ChainFault::ReservedPage)),
    (16, &[Read(0x4014, 8)], Err(ChainFault::BadPage)),
    (16, &[Read(0x400c, 8)], Err(ChainFault::ReservedPage)),
    (16, &[Read(0x401c, 4)], Err(ChainFault::BadPage)),
    // An unbacked page reads as zeros.
    (16, &[Read(0x6000, 4)], Err(ChainFault::ReservedPage)),
    (16, &[Read(0x6000, 1024)], Err(ChainFault::ReservedPage)),
    // Lengths.
    (16, &[Read(0x6000, 1028)], Err(ChainFault::BadLength)),
    (
        16,
        &[Read(0x4000, 1020), Read(0x4000, 8)],
        Err(ChainFault::BadLength),
    ),
    (
        16,
        &[Read(0, 0x4_0000), Read(0, 0x4_0000)],
        Err(ChainFault::BadLength),
    ),
    (16, &[Read(0x4000, 0)], Err(ChainFault::BadLength)),
    (16, &[Read(0x4000, 6)], Err(ChainFault::BadLength)),
    (16, &[Read(0x4000, 1)], Err(ChainFault::BadLength)),
    (16, &[], Err(ChainFault::BadLength)),
    // Directions come before lengths, and these before numbers.
    (16, &[Write(0x4000, 4)], Err(ChainFault::WrongDirection)),
    (16, &[Write(0x4000, 6)], Err(ChainFault::WrongDirection)),
    (
        16,
        &[Read(0x4000, 4), Write(0x9000, 0)],
        Err(ChainFault::WrongDirection),
    ),
    (16, &[Read(0x4010, 6)], Err(ChainFault::BadLength)),
    // With 32 reserved pages: page 17, 31, 63, 31 before 32, and page 64 that isn't there.
    (32, &[Read(0x4000, 4)], Err(ChainFault::ReservedPage)),
    (32, &[Read(0x5000, 4)], Err(ChainFault::ReservedPage)),
    (16, &[Read(0x5000, 4)], Ok(&[31])),
    (32, &[Read(0x400c, 4)], Ok(&[63])),
    (32, &[Read(0x5004, 4)], Ok(&[32])),
    (32, &[Read(0x5000, 8)], Err(ChainFault::ReservedPage)),
    (32, &[Read(0x4014, 4)], Err(ChainFault::BadPage)),
];

#[test]
fn requests_name_pages(rt: HostRuntime) {
    let ram = memory(&rt, rt.alloc());
    for (at, (reserved, parts, wanted)) in REQUESTS.iter().enumerate() {
        assert!(rt; asks(&ram, *reserved, parts, wanted), "line {at}");
    }
}

/// 65 pieces of 66,076,420 bytes: 2^32 + 4 bytes in all, of which a length of 32 bits would say 4.
static OVER_32_BITS: [Part; 65] = [Read(0, 66_076_420); 65];

#[test]
fn lengths_are_added_up_beyond_32_bits(rt: HostRuntime) {
    let Ok(ram) = Ram::new(rt.alloc(), 16_384) else {
        rt.abort()
    };
    assert!(rt; asks(&ram, 16, &OVER_32_BITS, &Err(ChainFault::BadLength)));
}

fn says(ram: &Ram, parts: &[Part], wanted: &Result<Statistics, ChainFault>) -> bool {
    let pieces = pieces_of(parts);
    are_inside(ram, &pieces) && read_statistics(ram, &pieces) == *wanted
}

/// Buffers, and the free and the total memory that they say.
static BUFFERS: [(&'static [Part], Option<u64>, Option<u64>); 7] = [
    (&[Read(0xc000, 20)], Some(196_608), Some(262_144)),
    (
        &[Read(0xc000, 11), Read(0xc00b, 9)],
        Some(196_608),
        Some(262_144),
    ),
    (&[Read(0xc000, 10)], Some(196_608), None),
    // The last one of a tag counts, and other tags are skipped.
    (&[Read(0xc064, 30)], Some(8192), None),
    (&[Read(0xc0c8, 20)], None, Some(u64::MAX)),
    (&[Read(0xc000, 1020)], Some(8192), Some(u64::MAX)),
    // An empty buffer says nothing.
    (&[Read(0xc000, 0)], None, None),
];

static WRONG_BUFFERS: [(&'static [Part], ChainFault); 7] = [
    (&[Read(0xc000, 15)], ChainFault::BadLength),
    (&[Read(0xc000, 1)], ChainFault::BadLength),
    (&[Read(0xc000, 1030)], ChainFault::BadLength),
    (
        &[Read(0xc000, 1020), Read(0xc000, 10)],
        ChainFault::BadLength,
    ),
    (&[Write(0xc000, 20)], ChainFault::WrongDirection),
    (
        &[Read(0xc000, 20), Write(0xd000, 0)],
        ChainFault::WrongDirection,
    ),
    (&[Write(0xc000, 15)], ChainFault::WrongDirection),
];

#[test]
fn buffers_say_figures(rt: HostRuntime) {
    let ram = memory(&rt, rt.alloc());
    for (at, (parts, free, total)) in BUFFERS.iter().enumerate() {
        let wanted = Statistics {
            free: *free,
            total: *total,
        };
        assert!(rt; says(&ram, parts, &Ok(wanted)), "line {at}");
    }
}

#[test]
fn wrong_buffers_are_refused(rt: HostRuntime) {
    let ram = memory(&rt, rt.alloc());
    for (at, (parts, fault)) in WRONG_BUFFERS.iter().enumerate() {
        assert!(rt; says(&ram, parts, &Err(*fault)), "line {at}");
    }
}

/// Whether a report of these parts is answered so.
fn offers(
    ram: &Ram,
    reserved: u32,
    parts: &[Part],
    wanted: &Result<&'static [u32], ChainFault>,
) -> bool {
    let pieces = pieces_of(parts);
    if !are_inside(ram, &pieces) {
        return false;
    }
    match (read_report(&pieces, reserved), wanted) {
        (Ok(pages), Ok(wanted)) => lists(&pages, wanted),
        (Err(fault), Err(wanted)) => fault == *wanted,
        _ => false,
    }
}

/// Reserved pages, a report's parts, and the answer.
static REPORTS: [(u32, &'static [Part], Result<&'static [u32], ChainFault>); 25] = [
    (16, &[Write(0x1_0000, 0x1000)], Ok(&[16])),
    (
        16,
        &[Write(0x1_0000, 0x2000), Write(0x2_0000, 0x3000)],
        Ok(&[16, 17, 32, 33, 34]),
    ),
    (
        16,
        &[Write(0x3_f000, 0x1000), Write(0x1_0000, 0x1000)],
        Ok(&[63, 16]),
    ),
    // A page that is named again is offered again.
    (
        16,
        &[Write(0x1_0000, 0x2000), Write(0x1_1000, 0x1000)],
        Ok(&[16, 17, 17]),
    ),
    (16, &[Write(0x1_0000, 0x1000); 32], Ok(&[16; 32])),
    (
        16,
        &[Write(0x1_0000, 0x1000); 33],
        Err(ChainFault::BadLength),
    ),
    (16, &[Write(0x1_0000, 0)], Err(ChainFault::BadLength)),
    (16, &[Write(0x1_0000, 1)], Err(ChainFault::BadLength)),
    (16, &[Write(0x1_0000, 0x1001)], Err(ChainFault::BadLength)),
    (
        16,
        &[Write(0x1_0000, 0x1000), Write(0x1_2000, 0x800)],
        Err(ChainFault::BadLength),
    ),
    // The first piece that is wrong.
    (16, &[Write(0x1_0800, 0x1000)], Err(ChainFault::BadPage)),
    (16, &[Write(0x1_0001, 0x1000)], Err(ChainFault::BadPage)),
    (16, &[Write(0xf000, 0x1000)], Err(ChainFault::ReservedPage)),
    (16, &[Write(0xf000, 0x2000)], Err(ChainFault::ReservedPage)),
    (16, &[Write(0xf800, 0x1000)], Err(ChainFault::BadPage)),
    (
        16,
        &[Write(0xf000, 0x1000), Write(0x1_0800, 0x1000)],
        Err(ChainFault::ReservedPage),
    ),
    (
        16,
        &[Write(0x1_0000, 0x1000), Write(0x1_0800, 0x1000)],
        Err(ChainFault::BadPage),
    ),
    // Directions come before lengths, and these before pages.
    (
        16,
        &[Read(0x1_0000, 0x1000)],
        Err(ChainFault::WrongDirection),
    ),
    (
        16,
        &[Write(0x1_0000, 0x1000), Read(0x1_1000, 0x1000)],
        Err(ChainFault::WrongDirection),
    ),
    (
        16,
        &[Read(0x1_0000, 0); 33],
        Err(ChainFault::WrongDirection),
    ),
    (
        16,
        &[Write(0xf000, 0x1000), Write(0x1_0000, 5)],
        Err(ChainFault::BadLength),
    ),
    // With 32 reserved pages.
    (
        32,
        &[Write(0x1_f000, 0x1000)],
        Err(ChainFault::ReservedPage),
    ),
    (16, &[Write(0x1_f000, 0x1000)], Ok(&[31])),
    (32, &[Write(0x2_0000, 0x1000)], Ok(&[32])),
    (
        32,
        &[Write(0x2_0000, 0x1000), Write(0x1_0000, 0x1000)],
        Err(ChainFault::ReservedPage),
    ),
];

#[test]
fn reports_name_pages(rt: HostRuntime) {
    let ram = memory(&rt, rt.alloc());
    for (at, (reserved, parts, wanted)) in REPORTS.iter().enumerate() {
        assert!(rt; offers(&ram, *reserved, parts, wanted), "line {at}");
    }
}

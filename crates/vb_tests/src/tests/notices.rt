//! Notices, served over a memory whose bytes change as they are read.

mod scribbled;

use scribbled::{Entry, MEMORY, Row, Scribbled};
use std::alloc::Global;
use std::process::Abort;
use vb_core::{Device, Kind, Settings, Virtqueue};
use vb_monitor::{Budget, Cut, Outcome, Region, Room, Spot, serve};

/// A guest of 32 pages.
const SETTINGS: Settings = Settings {
    memory_end: 0x2_0000,
    offered: 0x1_0000_003f,
    reserved_pages: 0,
    needs_must_tell: 0,
    skips_bad_pages: 0,
    holds_deflates: 0,
    discards_hints: 0,
};

/// Its first 21 pages, and the others.
const REGIONS: [Region; 2] = [
    Region {
        guest: 0,
        length: 0x1_5000,
        in_file: 0,
    },
    Region {
        guest: 0x1_5000,
        length: 0xb000,
        in_file: 0x10_0000,
    },
];

/// A ring of eight descriptors.
const RING: Virtqueue = Virtqueue {
    table: 0,
    avail: 0x100,
    used: 0x200,
    size: 8,
    next_avail: 0,
    next_used: 0,
};

/// Places in the first region: the ring's words, the table and its descriptor 3, the request's two
/// pieces, and the used element.
const FLAGS: Spot = Spot {
    region: 0,
    offset: 0x100,
};

const INDEX: Spot = Spot {
    region: 0,
    offset: 0x102,
};

const ENTRY: Spot = Spot {
    region: 0,
    offset: 0x104,
};

const TABLE: Spot = Spot {
    region: 0,
    offset: 0,
};

const THIRD: Spot = Spot {
    region: 0,
    offset: 0x30,
};

const REQUEST: Spot = Spot {
    region: 0,
    offset: 0x400,
};

const ITS_REST: Spot = Spot {
    region: 0,
    offset: 0x408,
};

const USED_INDEX: Spot = Spot {
    region: 0,
    offset: 0x202,
};

const USED_ID: Spot = Spot {
    region: 0,
    offset: 0x204,
};

const USED_LENGTH: Spot = Spot {
    region: 0,
    offset: 0x208,
};

/// Page 20 in the first region, pages 21 and 22 in the second, and page 5.
const PAGE_20: Cut = Cut {
    region: 0,
    offset: 0x1_4000,
    in_file: 0x1_4000,
    length: 0x1000,
};

const PAGES_21_AND_22: Cut = Cut {
    region: 1,
    offset: 0,
    in_file: 0x10_0000,
    length: 0x2000,
};

const PAGE_5: Cut = Cut {
    region: 0,
    offset: 0x5000,
    in_file: 0x5000,
    length: 0x1000,
};

/// The bytes of the long request's first portion, and those of its second one.
const PORTION: Spot = Spot {
    region: 0,
    offset: 0x3000,
};

const ITS_NEXT: Spot = Spot {
    region: 0,
    offset: 0x3400,
};

/// Which chain is there: that of `put_request`, of `put_long_request`, of `put_id`, or of
/// `put_free`.
#[derive(Clone, Copy)]
enum Request {
    Short,
    Long,
    Id,
    Free,
}

/// A notice of a request: what it is, which request it is of, how many chains it may serve, after
/// how many pages it begins no other, whether it keeps all pages, what its driver poisons free
/// pages with, whether an interrupt is wanted and more is available at its end, and its accesses.
struct Case {
    name: &'static str,
    request: Request,
    kind: Kind,
    chains: u32,
    pages: u32,
    keeps: bool,
    poison: u32,
    interrupt: bool,
    more: bool,
    accesses: &'static [Row],
}

static CASES: [Case; 10] = [
    Case {
        name: "an inflate",
        request: Request::Short,
        kind: Kind::Inflate,
        chains: 8,
        pages: 256,
        keeps: false,
        poison: 0,
        interrupt: true,
        more: false,
        accesses: &[
            Row::Word(INDEX, 1),
            Row::Acquire,
            Row::Word(ENTRY, 0),
            Row::Bytes(TABLE, 16),
            Row::Bytes(THIRD, 80),
            Row::Bytes(REQUEST, 8),
            Row::Bytes(ITS_REST, 8),
            Row::Pages(2, 4),
            Row::Discarded(PAGE_20),
            Row::Discarded(PAGES_21_AND_22),
            Row::Discarded(PAGE_5),
            Row::Number(USED_ID, 0),
            Row::Number(USED_LENGTH, 0),
            Row::Release,
            Row::Written(USED_INDEX, 1),
            Row::Full,
            Row::Word(FLAGS, 0),
        ],
    },
    Case {
        name: "an inflate whose pages are kept",
        request: Request::Short,
        kind: Kind::Inflate,
        chains: 8,
        pages: 256,
        keeps: true,
        poison: 0,
        interrupt: true,
        more: false,
        accesses: &[
            Row::Word(INDEX, 1),
            Row::Acquire,
            Row::Word(ENTRY, 0),
            Row::Bytes(TABLE, 16),
            Row::Bytes(THIRD, 80),
            Row::Bytes(REQUEST, 8),
            Row::Bytes(ITS_REST, 8),
            Row::Pages(2, 4),
            Row::Number(USED_ID, 0),
            Row::Number(USED_LENGTH, 0),
            Row::Release,
            Row::Written(USED_INDEX, 1),
            Row::Full,
            Row::Word(FLAGS, 0),
        ],
    },
    Case {
        name: "a deflate, which discards nothing",
        request: Request::Short,
        kind: Kind::Deflate,
        chains: 8,
        pages: 256,
        keeps: false,
        poison: 0,
        interrupt: true,
        more: false,
        accesses: &[
            Row::Word(INDEX, 1),
            Row::Acquire,
            Row::Word(ENTRY, 0),
            Row::Bytes(TABLE, 16),
            Row::Bytes(THIRD, 80),
            Row::Bytes(REQUEST, 8),
            Row::Bytes(ITS_REST, 8),
            Row::Pages(2, 4),
            Row::Number(USED_ID, 0),
            Row::Number(USED_LENGTH, 0),
            Row::Release,
            Row::Written(USED_INDEX, 1),
            Row::Full,
            Row::Word(FLAGS, 0),
        ],
    },
    Case {
        name: "an inflate of 257 numbers, a pause after 256, whose pages are kept",
        request: Request::Long,
        kind: Kind::Inflate,
        chains: 8,
        pages: 256,
        keeps: true,
        poison: 0,
        interrupt: true,
        more: false,
        accesses: &[
            Row::Word(INDEX, 1),
            Row::Acquire,
            Row::Word(ENTRY, 0),
            Row::Bytes(TABLE, 16),
            Row::Bytes(PORTION, 1024),
            Row::Pages(256, 256),
            Row::Paused,
            Row::Bytes(ITS_NEXT, 4),
            Row::Pages(1, 1),
            Row::Number(USED_ID, 0),
            Row::Number(USED_LENGTH, 0),
            Row::Release,
            Row::Written(USED_INDEX, 1),
            Row::Full,
            Row::Word(FLAGS, 0),
        ],
    },
    Case {
        name: "an id of hints",
        request: Request::Id,
        kind: Kind::Hint,
        chains: 8,
        pages: 256,
        keeps: false,
        poison: 0,
        interrupt: true,
        more: false,
        accesses: &[
            Row::Word(INDEX, 1),
            Row::Acquire,
            Row::Word(ENTRY, 0),
            Row::Bytes(TABLE, 16),
            Row::Bytes(REQUEST, 4),
            Row::Id(0x0403_0201),
            Row::Number(USED_ID, 0),
            Row::Number(USED_LENGTH, 0),
            Row::Release,
            Row::Written(USED_INDEX, 1),
            Row::Full,
            Row::Word(FLAGS, 0),
        ],
    },
    Case {
        name: "a report",
        request: Request::Free,
        kind: Kind::Report,
        chains: 8,
        pages: 256,
        keeps: false,
        poison: 0,
        interrupt: true,
        more: false,
        accesses: &[
            Row::Word(INDEX, 1),
            Row::Acquire,
            Row::Word(ENTRY, 0),
            Row::Bytes(TABLE, 16),
            Row::Pages(1, 1),
            Row::Discarded(PAGE_5),
            Row::Number(USED_ID, 0),
            Row::Number(USED_LENGTH, 0),
            Row::Release,
            Row::Written(USED_INDEX, 1),
            Row::Full,
            Row::Word(FLAGS, 0),
        ],
    },
    Case {
        name: "a report of pages that are poisoned, which are kept",
        request: Request::Free,
        kind: Kind::Report,
        chains: 8,
        pages: 256,
        keeps: false,
        poison: 1,
        interrupt: true,
        more: false,
        accesses: &[
            Row::Word(INDEX, 1),
            Row::Acquire,
            Row::Word(ENTRY, 0),
            Row::Bytes(TABLE, 16),
            Row::Pages(1, 1),
            Row::Number(USED_ID, 0),
            Row::Number(USED_LENGTH, 0),
            Row::Release,
            Row::Written(USED_INDEX, 1),
            Row::Full,
            Row::Word(FLAGS, 0),
        ],
    },
    Case {
        name: "a hint while no round is open, which isn't named",
        request: Request::Free,
        kind: Kind::Hint,
        chains: 8,
        pages: 256,
        keeps: false,
        poison: 0,
        interrupt: true,
        more: false,
        accesses: &[
            Row::Word(INDEX, 1),
            Row::Acquire,
            Row::Word(ENTRY, 0),
            Row::Bytes(TABLE, 16),
            Row::Pages(0, 0),
            Row::Number(USED_ID, 0),
            Row::Number(USED_LENGTH, 0),
            Row::Release,
            Row::Written(USED_INDEX, 1),
            Row::Full,
            Row::Word(FLAGS, 0),
        ],
    },
    Case {
        name: "a budget of no chain, after which more is there",
        request: Request::Short,
        kind: Kind::Inflate,
        chains: 0,
        pages: 256,
        keeps: false,
        poison: 0,
        interrupt: false,
        more: true,
        accesses: &[Row::Word(INDEX, 1)],
    },
    Case {
        name: "a budget of no page, after which more is there",
        request: Request::Short,
        kind: Kind::Inflate,
        chains: 8,
        pages: 0,
        keeps: false,
        poison: 0,
        interrupt: false,
        more: true,
        accesses: &[Row::Word(INDEX, 1)],
    },
];

/// One available entry, a chain of two descriptors with 8 bytes each, from 0x400 on, and a request
/// of the pages 20, 21, 22 and 5.
fn put_request(bytes: &mut [u8]) {
    if bytes.len() < MEMORY {
        return;
    }
    bytes[1] = 4;
    bytes[8] = 8;
    bytes[12] = 1;
    bytes[14] = 3;
    bytes[0x30] = 8;
    bytes[0x31] = 4;
    bytes[0x38] = 8;
    bytes[0x102] = 1;
    bytes[0x400] = 20;
    bytes[0x404] = 21;
    bytes[0x408] = 22;
    bytes[0x40c] = 5;
}

/// One available entry, a chain of one descriptor with 1,028 bytes, from 0x3000 on: each of its
/// numbers is 0.
fn put_long_request(bytes: &mut [u8]) {
    if bytes.len() < MEMORY {
        return;
    }
    bytes[1] = 0x30;
    bytes[8] = 4;
    bytes[9] = 4;
    bytes[0x102] = 1;
}

/// One available entry, a chain of one descriptor with 4 bytes, from 0x400 on: an id of hints.
fn put_id(bytes: &mut [u8]) {
    if bytes.len() < MEMORY {
        return;
    }
    bytes[1] = 4;
    bytes[8] = 4;
    bytes[0x102] = 1;
    bytes[0x400] = 1;
    bytes[0x401] = 2;
    bytes[0x402] = 3;
    bytes[0x403] = 4;
}

/// One available entry, a chain of one descriptor that the device may write: page 5 is free.
fn put_free(bytes: &mut [u8]) {
    if bytes.len() < MEMORY {
        return;
    }
    bytes[1] = 0x50;
    bytes[9] = 0x10;
    bytes[12] = 2;
    bytes[0x102] = 1;
}

/// Serves the request that the case has, as the case has it.
fn serve_request<R: Abort>(memory: &mut Scribbled<R>, case: &Case) -> Outcome {
    let mut device = Device::new(SETTINGS);
    device.features = SETTINGS.offered;
    device.status = 15;
    device.inflate = RING;
    device.deflate = RING;
    device.hint = RING;
    device.report = RING;
    device.poison = case.poison;
    match case.request {
        Request::Short => put_request(&mut memory.bytes),
        Request::Long => put_long_request(&mut memory.bytes),
        Request::Id => put_id(&mut memory.bytes),
        Request::Free => put_free(&mut memory.bytes),
    }
    let mut room = Room::EMPTY;
    serve(
        memory,
        &mut device,
        &REGIONS,
        case.kind,
        Budget {
            chains: case.chains,
            pages: case.pages,
            keeps: case.keeps,
            longest: 257,
        },
        &mut room,
    )
}

/// Whether a notice ended so.
fn is_end(outcome: Outcome, interrupt: bool, more: bool) -> bool {
    outcome.why.is_none() && outcome.interrupt == interrupt && outcome.more == more
}

/// The first access that is another one, or the number of accesses where there are more or fewer.
fn first_other(trace: &[Entry], rows: &[Row]) -> Option<usize> {
    for at in 0..trace.len().min(rows.len()) {
        if trace[at].row() != rows[at] {
            return Some(at);
        }
    }
    if trace.len() == rows.len() {
        None
    } else {
        Some(trace.len())
    }
}

/// A notice ends as the case has it, by just its accesses.
fn expect<R: Abort>(rt: &R, alloc: Global, case: &Case) {
    let mut memory = Scribbled {
        rt,
        alloc,
        bytes: [0; MEMORY],
        turn: 0,
        trace: Vec::new(alloc),
    };
    let outcome = serve_request(&mut memory, case);
    let name = case.name;
    assert!(rt;
        is_end(outcome, case.interrupt, case.more),
        "{name}: its end"
    );
    if let Some(at) = first_other(&memory.trace, case.accesses) {
        assert!(rt; false, "{name}: access {at}");
    }
}

#[test]
fn notices_make_just_their_accesses(rt: HostRuntime) {
    for case in &CASES {
        expect(&rt, rt.alloc(), case);
    }
}

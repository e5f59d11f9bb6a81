//! What no clause says: requests from outside, and each call once.

mod ballooned;
mod rounds;
mod states;

use bitflags::Flags;
use std::process::Abort;
use vb_chain::ChainFault;
use vb_core::{Denial, Device, Kind, Run, Settings, Statistic, Virtqueue};
use vb_status::Features;

/// A guest of 512 MiB, and all features.
const SETTINGS: Settings = Settings {
    memory_end: 0x2000_0000,
    offered: 0x1_0000_0027,
    reserved_pages: 0,
    needs_must_tell: 0,
    skips_bad_pages: 0,
    holds_deflates: 0,
    discards_hints: 0,
};

/// A ring of eight descriptors.
const SMALL: Virtqueue = Virtqueue {
    table: 0x1000,
    avail: 0x1080,
    used: 0x10a0,
    size: 8,
    next_avail: 65_535,
    next_used: 65_535,
};

/// One whose table is aligned to half a descriptor.
const TABLE_AT_HALF: Virtqueue = Virtqueue {
    table: 0x1008,
    ..SMALL
};

/// One whose table begins where the guest's memory ends.
const TABLE_AT_THE_END: Virtqueue = Virtqueue {
    table: 0x2000_0000,
    ..SMALL
};

/// A device whose driver is ready, with this ring of one queue.
fn ready(settings: Settings, kind: Kind, ring: Virtqueue) -> Device {
    let mut device = Device::new(settings);
    device.features = settings.offered;
    device.status = 15;
    match kind {
        Kind::Inflate => device.inflate = ring,
        Kind::Deflate => device.deflate = ring,
        Kind::Statistics => device.statistics = ring,
        Kind::Hint => device.hint = ring,
        Kind::Report => device.report = ring,
    }
    device
}

/// Puts bytes at an offset, as far as there is room.
fn put(bytes: &mut [u8], at: u32, word: &[u8]) {
    for (k, byte) in word.iter().enumerate() {
        let place = at as usize + k;
        if place < bytes.len() {
            bytes[place] = *byte;
        }
    }
}

/// A request, and the runs that it names: two at the most.
struct Request {
    /// Its four numbers.
    numbers: [u32; 4],
    /// Whether wrong numbers are skipped.
    skips: u8,
    /// The first pages of the runs.
    firsts: [u32; 2],
    /// How many pages each run has; where there is none, 0.
    counts: [u32; 2],
    /// How many numbers are skipped, or the rule that is broken.
    answer: Result<u32, ChainFault>,
}

/// Memory ends at page 131,072, and page 0 is reserved. The first two are the beginnings of real
/// requests.
static REQUESTS: [Request; 9] = [
    Request {
        numbers: [49_995, 49_994, 49_993, 49_992],
        skips: 0,
        firsts: [49_992, 0],
        counts: [4, 0],
        answer: Ok(0),
    },
    Request {
        numbers: [45_605, 45_606, 45_607, 45_608],
        skips: 0,
        firsts: [45_605, 0],
        counts: [4, 0],
        answer: Ok(0),
    },
    Request {
        numbers: [20, 21, 19, 131_071],
        skips: 0,
        firsts: [19, 131_071],
        counts: [3, 1],
        answer: Ok(0),
    },
    Request {
        numbers: [20, 20, 21, 19],
        skips: 0,
        firsts: [20, 19],
        counts: [1, 3],
        answer: Ok(0),
    },
    Request {
        numbers: [20, 22, 21, 23],
        skips: 0,
        firsts: [20, 21],
        counts: [1, 3],
        answer: Ok(0),
    },
    Request {
        numbers: [20, 131_072, 0, 21],
        skips: 0,
        firsts: [0, 0],
        counts: [0, 0],
        answer: Err(ChainFault::BadPage),
    },
    Request {
        numbers: [20, 0, 131_072, 21],
        skips: 0,
        firsts: [0, 0],
        counts: [0, 0],
        answer: Err(ChainFault::ReservedPage),
    },
    Request {
        numbers: [20, 131_072, 0, 21],
        skips: 1,
        firsts: [20, 0],
        counts: [2, 0],
        answer: Ok(2),
    },
    Request {
        numbers: [4_294_967_295, 0, 131_072, 131_073],
        skips: 1,
        firsts: [0, 0],
        counts: [0, 0],
        answer: Ok(4),
    },
];

/// Whether these are the runs of a request.
fn runs_are(request: &Request, used: u32, runs: &[Run; 4]) -> bool {
    for k in 0..2 {
        let count = request.counts[k];
        if count > 0 && (runs[k].first != request.firsts[k] || runs[k].count != count) {
            return false;
        }
    }
    let first = u32::from(request.counts[0] > 0);
    let second = u32::from(request.counts[1] > 0);
    used == first + second
}

/// The bytes of four numbers.
fn bytes_of(numbers: &[u32; 4]) -> [u8; 16] {
    let mut bytes = [0; 16];
    let mut at: u32 = 0;
    for number in numbers {
        put(&mut bytes, at, &number.to_le_bytes());
        at = at.wrapping_add(4);
    }
    bytes
}

/// Whether a request is answered so.
fn is_named_so(request: &Request) -> bool {
    let settings = Settings {
        reserved_pages: 1,
        skips_bad_pages: request.skips,
        ..SETTINGS
    };
    let mut device = ready(settings, Kind::Inflate, SMALL);
    let mut runs = [Run::NONE; 4];
    match device.name_numbers(Kind::Inflate, &bytes_of(&request.numbers), &mut runs) {
        Ok(named) => {
            let before = device.inflate.next_avail;
            device.take_request(Kind::Inflate);
            before == 65_535
                && request.answer == Ok(named.skipped)
                && runs_are(request, named.runs, &runs)
                && device.inflate.next_avail == 0
        }
        Err(Denial::Broken(fault)) => {
            request.answer == Err(fault)
                && device.inflate.next_avail == 65_535
                && device.status == 79
        }
        Err(_) => false,
    }
}

/// The number of the first request that is answered otherwise.
fn first_other_request() -> Option<usize> {
    for (k, request) in REQUESTS.iter().enumerate() {
        if !is_named_so(request) {
            return Some(k);
        }
    }
    None
}

#[test]
fn requests_name_runs(rt: HostRuntime) {
    assert!(rt; first_other_request().is_none());
}

/// Features, the number of a queue, and its kind.
static KINDS: [(u64, u32, Option<Kind>); 16] = [
    (0x1_0000_0000, 1, Some(Kind::Deflate)),
    (0x1_0000_0000, 2, None),
    (0x1_0000_0002, 2, Some(Kind::Statistics)),
    (0x1_0000_0020, 2, Some(Kind::Report)),
    (0x1_0000_0022, 2, Some(Kind::Statistics)),
    (0x1_0000_0022, 3, Some(Kind::Report)),
    (0x1_0000_0022, 4, None),
    (0x1_0000_0008, 2, Some(Kind::Hint)),
    (0x1_0000_0008, 3, None),
    (0x1_0000_0028, 2, Some(Kind::Hint)),
    (0x1_0000_0028, 3, Some(Kind::Report)),
    (0x1_0000_0028, 4, None),
    (0x1_0000_000a, 3, Some(Kind::Hint)),
    (0x1_0000_002a, 3, Some(Kind::Hint)),
    (0x1_0000_002a, 4, Some(Kind::Report)),
    (0x1_0000_002a, 5, None),
];

/// The number of the first row that is answered otherwise.
fn first_other_kind() -> Option<usize> {
    for (k, (features, number, kind)) in KINDS.iter().enumerate() {
        if Kind::of_number(Features::from_bits_retain(*features), *number) != *kind {
            return Some(k);
        }
    }
    None
}

#[test]
fn queues_have_no_gaps(rt: HostRuntime) {
    assert!(rt; first_other_kind().is_none());
}

#[test]
fn a_used_entry_wraps(rt: HostRuntime) {
    let mut device = ready(SETTINGS, Kind::Inflate, SMALL);
    match device.use_chain(Kind::Inflate, 7) {
        Ok(entry) => {
            assert!(rt; entry.element_at == 0x10a0 + 4 + 56);
            assert!(rt; entry.index_at == 0x10a2);
            assert!(rt; entry.id == 7 && entry.length == 0 && entry.index == 0);
        }
        Err(_) => assert!(rt; false),
    }
}

/// A ring, a head of which a chain is used, and where its element goes, or what refuses it: the
/// last head, and the one after it; a table that is aligned to half a descriptor, or past memory.
static USES: [(Virtqueue, u32, Result<u64, Denial>); 4] = [
    (SMALL, 7, Ok(0x10dc)),
    (SMALL, 8, Err(Denial::BadArgument)),
    (TABLE_AT_HALF, 7, Err(Denial::Misplaced)),
    (TABLE_AT_THE_END, 7, Err(Denial::Misplaced)),
];

/// Where the element of a used chain goes.
fn element_at(ring: Virtqueue, head: u32) -> Result<u64, Denial> {
    match ready(SETTINGS, Kind::Inflate, ring).use_chain(Kind::Inflate, head) {
        Ok(entry) => Ok(entry.element_at),
        Err(denial) => Err(denial),
    }
}

/// The number of the first use with another reply.
fn first_other_use() -> Option<usize> {
    for (k, (ring, head, answer)) in USES.iter().enumerate() {
        if element_at(*ring, *head) != *answer {
            return Some(k);
        }
    }
    None
}

#[test]
fn chains_are_used_where_their_ring_has_its_place(rt: HostRuntime) {
    assert!(rt; first_other_use().is_none());
}

/// Steps of a driver: the status, or else features, and the number of the fault.
static STEPS: [(Result<u8, u64>, u32); 9] = [
    (Ok(1), 0),
    (Ok(2), 1),
    (Ok(7), 2),
    (Ok(3), 0),
    (Err(0x1_0000_0040), 3),
    (Err(0x1_0000_0022), 0),
    (Err(0x1_0000_0023), 0),
    (Ok(11), 0),
    (Err(0x1_0000_0023), 2),
];

/// The number of the fault that a step meets.
fn step(device: &mut Device, step: Result<u8, u64>) -> u32 {
    let answer = match step {
        Ok(status) => device.write_status(status),
        Err(features) => device.negotiate(features),
    };
    match answer {
        Ok(()) => 0,
        Err(denial) => denial as u32,
    }
}

/// The number of the first step that meets another fault.
fn first_other_step(device: &mut Device) -> Option<usize> {
    for (k, (done, fault)) in STEPS.iter().enumerate() {
        if step(device, *done) != *fault {
            return Some(k);
        }
    }
    None
}

#[test]
fn drivers_negotiate_again(rt: HostRuntime) {
    let mut device = Device::new(SETTINGS);
    assert!(rt; first_other_step(&mut device).is_none());
    assert!(rt; device.features == 0x1_0000_0023 && device.status == 11);
}

#[test]
fn must_tell_is_asked_for(rt: HostRuntime) {
    let settings = Settings {
        needs_must_tell: 1,
        ..SETTINGS
    };
    let mut device = Device::new(settings);
    device.status = 3;
    device.features = 0x1_0000_0002;
    assert!(rt; step(&mut device, Ok(11)) == 4);
    device.features = 0x1_0000_0003;
    assert!(rt; step(&mut device, Ok(11)) == 0);
}

#[test]
fn the_configuration_is_two_words(rt: HostRuntime) {
    let mut device = Device::new(SETTINGS);
    device.set_target(0x0102_0304);
    let written = device.write_config(2, &[9, 9, 5, 6, 7, 8, 9]);
    assert!(rt; written.is_ok());
    let mut bytes = [9; 7];
    device.read_config(3, &mut bytes);
    assert!(rt; bytes == [1, 5, 6, 7, 8, 0, 0]);
    let refused = device.write_config(5, &[5, 6, 7, 8]);
    assert!(rt; refused.is_err());
}

#[test]
fn figures_are_told_in_order(rt: HostRuntime) {
    let mut device = ready(SETTINGS, Kind::Statistics, SMALL);
    let bytes: [u8; 20] = [9, 0, 1, 2, 0, 0, 0, 0, 0, 0, 4, 0, 0, 0, 0, 0, 0, 0, 0, 1];
    let mut figures = [Statistic { tag: 0, value: 0 }; 2];
    match device.statistics(&bytes, &mut figures) {
        Ok(count) => {
            assert!(rt; count == 2);
            assert!(rt; figures[0].tag == 9 && figures[0].value == 0x201);
            assert!(rt; figures[1].tag == 4 && figures[1].value == 0x0100_0000_0000_0000);
        }
        Err(_) => assert!(rt; false),
    }
}

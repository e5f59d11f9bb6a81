//! Two devices read the same bytes of a driver: one serves by its own calls, the other by notices.

ghost use Rattle.vb_device.specs.Calls.{IsUnused};

use bitflags::Flags;
use std::alloc::Global;
use std::process::Abort;
use vb_device::{Device, ImmediateDevice, Statistics};
use vb_ram::{Config, Frame, GuestBytes};
use vb_served::Notices;
use vb_status::{Features, Port, Status};
use vb_virtio::Refusal;

/// What is answered to a serve.
type Answer = Result<Option<u16>, Refusal>;

/// The guest's pages, and the descriptors of each of its queues.
const CONFIG: Config = Config {
    pages: 64,
    queue_size: 8,
    processors: 1,
};

/// Backs a page with the frame of its number.
fn supply(device: &mut ImmediateDevice, alloc: Global, page: u32) -> bool {
    match Frame::fresh(alloc, page) {
        Ok(frame) => device.supply(page, frame).is_ok(),
        Err(_) => false,
    }
}

/// Gives a device a guest whose first 24 pages have frames.
fn attach(device: &mut ImmediateDevice, alloc: Global) -> bool
    requires { IsUnused device.old.mem device.old.part }
{
    if !CONFIG.is_within_limits() || device.attach(alloc, CONFIG).is_err() {
        return false;
    }
    for page in 0..24 {
        if !supply(device, alloc, page) {
            return false;
        }
    }
    true
}

fn write_status(device: &mut ImmediateDevice, bits: u8) -> bool {
    device.write_status(Status::from_bits_retain(bits)).is_ok()
}

/// The driver comes through the initialisation with all features.
fn start(device: &mut ImmediateDevice) -> bool {
    write_status(device, 1)
        && write_status(device, 3)
        && device
            .negotiate(Features::from_bits_retain(0x1_0000_0027))
            .is_ok()
        && write_status(device, 11)
        && write_status(device, 15)
}

/// Bytes that a driver writes: to a page, from an offset on.
type Written = (u32, usize, &'static [u8]);

fn write_all(device: &mut ImmediateDevice, all: &[Written]) -> bool {
    for (page, offset, bytes) in all {
        if device.write(*page, *offset, bytes).is_err() {
            return false;
        }
    }
    true
}

/// Hands the loose frames back; says how many they were.
fn hand_back(device: &mut ImmediateDevice) -> u32 {
    for handed in 0..64 {
        if device.hand_back().is_none() {
            return handed;
        }
    }
    64
}

/// The device serves by its own calls. No frame may be loose before.
fn serve(device: &mut ImmediateDevice, queue: u32) -> Option<Answer> {
    if device.hand_back().is_some() || !device.has_ring(queue) {
        return None;
    }
    Some(device.serve(queue))
}

/// The device serves by notices. No frame may be loose before.
fn serve_by(device: &mut ImmediateDevice, notices: &mut Notices, queue: u32) -> Option<Answer> {
    if device.hand_back().is_some() || !device.has_ring(queue) {
        return None;
    }
    Some(device.serve_by(notices, queue))
}

/// Whether the same can be seen of both.
fn are_alike(one: &ImmediateDevice, other: &ImmediateDevice) -> bool {
    for page in 0..64 {
        let mut bytes = [0; 256];
        let mut others = [0; 256];
        let _ = one.read(page, 0, &mut bytes);
        let _ = other.read(page, 0, &mut others);
        if one.backing(page) != other.backing(page)
            || one.ballooned(page) != other.ballooned(page)
            || bytes != others
        {
            return false;
        }
    }
    let Statistics { free, total } = one.stats();
    let known = other.stats();
    free == known.free
        && total == known.total
        && one.status().bits() == other.status().bits()
        && one.ballooned_count() == other.ballooned_count()
}

/// What is shown, what the driver writes once both devices are ready, which queue is served then,
/// what is answered to each serve and how many frames are loose after it.
type Scenario = (
    &'static str,
    &'static [Written],
    u32,
    &'static [(Answer, u32)],
);

/// The number of the first serve after which the two differ, or aren't as the scenario has it.
fn first_wrong(alloc: Global, scenario: &Scenario) -> Option<usize> {
    let (_, written, queue, answers) = scenario;
    let mut one = ImmediateDevice::new(alloc);
    let mut other = ImmediateDevice::new(alloc);
    let mut notices = Notices::new(alloc);
    if !attach(&mut one, alloc)
        || !attach(&mut other, alloc)
        || !start(&mut one)
        || !start(&mut other)
        || !write_all(&mut one, written)
        || !write_all(&mut other, written)
    {
        return Some(0);
    }
    for (at, (answer, loose)) in answers.iter().enumerate() {
        if serve(&mut one, *queue) != Some(*answer)
            || serve_by(&mut other, &mut notices, *queue) != Some(*answer)
            || !are_alike(&one, &other)
            || hand_back(&mut one) != *loose
            || hand_back(&mut other) != *loose
        {
            return Some(at);
        }
    }
    None
}

/// Two requests of a page each in the buffers page 4, and the numbers that they name.
const REQUESTS: [u8; 32] = [
    0, 0x40, 0, 0, 0, 0, 0, 0, 4, 0, 0, 0, 0, 0, 0, 0, //
    4, 0x40, 0, 0, 0, 0, 0, 0, 4, 0, 0, 0, 0, 0, 0, 0,
];

const NUMBERS: [u8; 8] = [20, 0, 0, 0, 40, 0, 0, 0];

/// Two entries are available, of heads 0 and 1.
const TWO: [u8; 8] = [0, 0, 2, 0, 0, 0, 1, 0];

/// One entry is available, of head 0.
const ONE: [u8; 6] = [0, 0, 1, 0, 0, 0];

/// A buffer of statistics of 20 bytes in page 12: free and total memory.
const BUFFER: [u8; 16] = [0, 0xc0, 0, 0, 0, 0, 0, 0, 20, 0, 0, 0, 0, 0, 0, 0];

const FIGURES: [u8; 20] = [4, 0, 0, 0, 3, 0, 0, 0, 0, 0, 5, 0, 0, 0, 4, 0, 0, 0, 0, 0];

/// A report of page 22.
const REPORT: [u8; 16] = [0, 0x60, 1, 0, 0, 0, 0, 0, 0, 0x10, 0, 0, 2, 0, 0, 0];

/// A request that the device may write.
const WRITABLE: [u8; 16] = [0, 0x40, 0, 0, 0, 0, 0, 0, 4, 0, 0, 0, 2, 0, 0, 0];

static SCENARIOS: [Scenario; 5] = [
    (
        "two inflates, of which one names a page with a frame",
        &[(4, 0, &NUMBERS), (0, 0, &REQUESTS), (0, 128, &TWO)],
        0,
        &[(Ok(Some(0)), 1), (Ok(Some(1)), 0), (Ok(None), 0)],
    ),
    (
        "two deflates",
        &[(4, 0, &NUMBERS), (1, 0, &REQUESTS), (1, 128, &TWO)],
        1,
        &[(Ok(Some(0)), 0), (Ok(Some(1)), 0), (Ok(None), 0)],
    ),
    (
        "a buffer of statistics is held",
        &[(12, 0, &FIGURES), (2, 0, &BUFFER), (2, 128, &ONE)],
        2,
        &[(Ok(Some(0)), 0), (Err(Refusal::Busy), 0)],
    ),
    (
        "a report",
        &[(3, 0, &REPORT), (3, 128, &ONE)],
        4,
        &[(Ok(Some(0)), 1), (Ok(None), 0)],
    ),
    (
        "a broken rule",
        &[(0, 0, &WRITABLE), (0, 128, &ONE)],
        0,
        &[
            (Err(Refusal::Broken { rule: 5 }), 0),
            (Err(Refusal::NeedsReset), 0),
        ],
    ),
];

#[test]
fn notices_serve_as_the_device_does(rt: HostRuntime) {
    for scenario in &SCENARIOS {
        if let Some(at) = first_wrong(rt.alloc(), scenario) {
            let name = scenario.0;
            assert!(&rt; false, "{name}: serve {at}");
        }
    }
}

//! A notice of the monitor serves the chains of a device's queue.

ghost use Rattle.std.specs.Prelude.{◌≡◌, ◌+◌, ◌*◌, ◌<◌, ◌^◌, [], true, length, None};
ghost use Rattle.std.specs.Int.{w16, from_le_bytes};
ghost use Rattle.vb_virtio.specs.Layout.{ring_page};
ghost use Rattle.vb_virtio.specs.Limits.{page_size};
ghost use Rattle.vb_virtio.specs.Queues.{has_chains};
ghost use Rattle.vb_status.specs.Bits.{status_bits, feature_bits};
ghost use Rattle.vb_ring.specs.Layout.{IsBacked, IsSize, layout_of};
ghost use Rattle.vb_request.specs.Refusals.{take_refusal_by};
ghost use Rattle.vb_request.specs.Request.{bytes_from};
ghost use Rattle.vb_core.specs.Devices.{ring_of};
ghost use Rattle.vb_core.specs.Kinds.{queue_of};
ghost use Rattle.vb_monitor.specs.Notices.{entry_offset};
ghost use Rattle.vb_served.specs.Alike.{address_of};
ghost use Rattle.vb_served.specs.One.{ServesNext};
ghost use Rattle.vb_served.specs.Registers.{device_for, ring_for};
ghost use Rattle.vb_served.specs.Tied.{ServesKind, answer_of, held_by};

use crate::reading::PAGE_BYTES;
use crate::{LooseRam, serve_one};
use bitflags::Flags;
use std::alloc::Global;
use std::mem;
use vb_bits::BitSet;
use vb_core::{Denial, Device, Kind, Round, Settings, Virtqueue};
use vb_device::{OpenQueue, QueueRegisters, ServedChain, ServesChains};
use vb_monitor::{Outcome, Room};
use vb_ram::{Frame, GuestBytes, Ram, Shape};
use vb_request::{Statistics, broken};
use vb_ring::{AVAIL_ENTRY_SIZE, Layout, RING_HEADER_SIZE, RingArea};
use vb_virtio::Refusal;
use vb_virtio::layout::{DEFLATE_QUEUE, INFLATE_QUEUE, STATISTICS_QUEUE};
use vb_virtio::negotiation::OFFERED_FEATURES;

/// The kind of the queue of this number.
fn kind_of(queue: u32) -> Kind
    requires { has_chains queue ≡ true }
    ensures { queue_of result ≡ queue }
{
    match queue {
        INFLATE_QUEUE => Kind::Inflate,
        DEFLATE_QUEUE => Kind::Deflate,
        STATISTICS_QUEUE => Kind::Statistics,
        _ => Kind::Report,
    }
}

/// The address of an area's first byte.
fn address_of(area: RingArea) -> u64
    ensures { result ≡ address_of area }
{
    PAGE_BYTES * u64::from(area.page) + u64::from(area.offset)
}

/// The ring of a queue, as a device of plain data has it.
fn ring_for(registers: QueueRegisters, queue: u32) -> Virtqueue
    requires { IsSize registers.queue_size }
    ensures { result ≡ ring_for registers queue }
{
    let size = registers.queue_size;
    let shape = Shape { queue_size: size };
    let layout = Layout::at(shape.ring_page(queue), size);
    Virtqueue {
        table: PAGE_BYTES * u64::from(layout.table),
        avail: address_of(layout.avail),
        used: address_of(layout.used),
        size,
        next_avail: registers.next_avail,
        next_used: registers.next_used,
    }
}

/// The device of plain data that has these registers.
fn device_for(registers: QueueRegisters, queue: u32, pages: u32) -> Device
    requires { IsSize registers.queue_size }
    ensures { result ≡ device_for registers queue pages }
{
    let ring = ring_for(registers, queue);
    let shape = Shape {
        queue_size: registers.queue_size,
    };
    Device {
        settings: Settings {
            memory_end: PAGE_BYTES * u64::from(pages),
            offered: OFFERED_FEATURES,
            reserved_pages: shape.reserved_pages(),
            needs_must_tell: 0,
            skips_bad_pages: 0,
            holds_deflates: 0,
            discards_hints: 0,
        },
        features: registers.features.bits(),
        target: 0,
        actual: 0,
        inflate: ring,
        deflate: ring,
        statistics: ring,
        hint: ring,
        report: ring,
        poison: 0,
        round: Round::NONE,
        status: registers.status.bits(),
    }
}

/// The head of the next entry.
fn head_of(memory: &LooseRam, ring: Virtqueue) -> u16
    requires size { IsSize ring.size }
    requires low { ring.avail < 2 ^ 63 }
    ensures { result ≡ from_le_bytes w16
        (bytes_from memory.now.mem (ring.avail + entry_offset ring) 2) }
{
    let entry = RING_HEADER_SIZE + AVAIL_ENTRY_SIZE * u64::from(ring.next_avail % ring.size);
    let mut bytes = [0; 2];
    memory.read(ring.avail + entry, &mut bytes);
    u16::from_le_bytes(bytes)
}

/// What the device answers where a notice ended so.
fn answer_of(why: Option<Denial>, before: u16, now: u16, head: u16) -> Result<Option<u16>, Refusal>
    ensures { result ≡ answer_of why before now head }
{
    match why {
        Some(Denial::Broken(fault)) => Err(broken(fault)),
        Some(_) => Err(Refusal::NotReady),
        None => {
            if now == before {
                Ok(None)
            } else {
                Ok(Some(head))
            }
        }
    }
}

/// The buffer that is held where a kind's chain was answered so.
fn held_by(kind: Kind, answer: Result<Option<u16>, Refusal>) -> Option<u16>
    ensures { result ≡ held_by kind answer }
{
    match kind {
        Kind::Statistics => match answer {
            Ok(head) => head,
            Err(_) => None,
        },
        Kind::Inflate | Kind::Deflate | Kind::Hint | Kind::Report => None,
    }
}

/// Serves one chain, in room of its own.
fn serve_in_room(memory: &mut LooseRam, device: &mut Device, kind: Kind) -> Outcome
    requires end { device.old.settings.memory_end ≡ page_size * length memory.old.mem }
    requires holds { device.old.settings.holds_deflates ≡ 0 }
    ensures { ServesNext kind device.old device.new result memory.old memory.new }
{
    let mut room = Room::EMPTY;
    serve_one(memory, device, kind, &mut room)
}

/// A number of 16 bits.
fn short(number: u16) -> u16
    ensures is { result ≡ number }
    ensures few { result < 65536 }
{
    number
}

/// A number of 32 bits.
fn long(number: u32) -> u32
    ensures is { result ≡ number }
    ensures few { result < 4294967296 }
{
    number
}

/// Serves the next chain of a queue over memory, by how far its device is there.
fn serve_over(memory: &mut LooseRam, registers: QueueRegisters, queue: u32) -> ServedChain
    requires known { has_chains queue ≡ true }
    requires size { IsSize registers.queue_size }
    requires backed { IsBacked memory.old.mem (layout_of (ring_page registers.queue_size queue)
        registers.queue_size) }
    requires none { memory.old.loose ≡ [] }
    requires open_so { take_refusal_by queue (status_bits registers.status)
        (feature_bits registers.features) ≡ None }
    ensures served { ServesKind registers queue memory.old memory.new result }
{
    // Asked for the proof: that numbers have 16 and 32 bits is a clause of these calls alone.
    let _avail = short(registers.next_avail);
    let _used = short(registers.next_used);
    let pages = long(memory.pages());
    let kind = kind_of(queue);
    let mut device = device_for(registers, queue, pages);
    let head = head_of(memory, device.ring(kind));
    let outcome = serve_in_room(memory, &mut device, kind);
    let ring = device.ring(kind);
    let answer = answer_of(outcome.why, registers.next_avail, ring.next_avail, head);
    ServedChain {
        next_avail: ring.next_avail,
        next_used: ring.next_used,
        held: held_by(kind, answer),
        answer,
    }
}

/// A notice of the monitor, in place of a device's own calls.
#[derive(Drop)]
pub struct Notices {
    /// For the empty values that take a lent memory's place.
    alloc: Global,
}

impl Notices {
    /// Notices that take no room of their own but on the stack.
    pub fn new(alloc: Global) -> Notices {
        Notices { alloc }
    }
}

impl ServesChains for Notices {
    fn serve_chain(
        &mut self,
        ram: &mut Ram,
        loose: &mut Vec<Frame>,
        ballooned: &mut BitSet,
        last: &mut Statistics,
        queue: OpenQueue,
    ) -> ServedChain {
        let mut memory = LooseRam::new(
            mem::replace(ram, Ram::empty(self.alloc)),
            mem::replace(loose, Vec::new(self.alloc)),
            mem::replace(ballooned, BitSet::empty(self.alloc)),
            *last,
        );
        let served = serve_over(&mut memory, queue.registers, queue.number);
        let (pages, frames, flags, figures) = memory.into_parts();
        *ram = pages;
        *loose = frames;
        *ballooned = flags;
        *last = figures;
        served
    }
}

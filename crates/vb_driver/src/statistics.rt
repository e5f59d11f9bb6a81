//! The driver's side of the queue of statistics (VIRTIO 1.1, 5.5.6.3).

ghost use Rattle.std.specs.Prelude.{◌≡◌, ◌≤◌, ◌*◌, ◌++◌, Ok, Err, None, Some, IfErr, IfOk};
ghost use Rattle.std.specs.Prelude.{MatchBool, OnErr, true, IsSome, drop, length};
ghost use Rattle.byteorder.specs.Endian.{little_bytes};
ghost use Rattle.vb_virtio.specs.Limits.{page_size};
ghost use Rattle.vb_virtio.specs.declared.layout.TheConstants.{STATISTICS_PAGE, STATISTIC_SIZE};
ghost use Rattle.vb_virtio.specs.Features.{stats_vq};
ghost use Rattle.vb_virtio.specs.declared.layout.TheConstants.{FREE_MEMORY_TAG, TOTAL_MEMORY_TAG};
ghost use Rattle.vb_ram.specs.Pages.{Covers, SameBut, frame_at};
ghost use Rattle.vb_ring.specs.Layout.{IsSize};
ghost use Rattle.vb_ring.specs.Ends.{outstanding, used_answer};
ghost use Rattle.vb_ring.specs.Calls.{TakesUsedBy};
ghost use Rattle.vb_driver.specs.Coding.{IsStatistic, SameButPages};
ghost use Rattle.vb_driver.specs.Answers.{HaveRingFrames, IsLargeEnough, is_up};
ghost use Rattle.vb_driver.specs.State.{IsDriver, IsStatisticsQueue, fresh_statistics, figures_of};
ghost use Rattle.vb_driver.specs.State.{free_count};
ghost use Rattle.vb_virtio.specs.declared.limits.TheConstants.{MAX_GUEST_PAGES};
ghost use Rattle.vb_driver.specs.Calls.{PostsBuffer, FirstBuffer, FillsBy, emptied};

use crate::Driver;
use crate::reaping::give_up;
use crate::requests::is_up;
use byteorder::{ByteOrder, LittleEndian};
use std::marker::Model;
use vb_chain::Piece;
use vb_model::Place;
use vb_ram::{GuestBytes, Shape};
use vb_ring::{DriverRing, RingBroken};
use vb_status::Port;
use vb_virtio::Refusal;
use vb_virtio::layout::{
    FREE_MEMORY_TAG, STATISTIC_SIZE, STATISTICS_PAGE, STATISTICS_QUEUE, TOTAL_MEMORY_TAG,
};
use vb_virtio::limits::PAGE_SIZE;

/// Bytes of a statistic.
const ENTRY_BYTES: usize = STATISTIC_SIZE as usize;

/// Bytes of the buffer, which has two statistics.
const BUFFER_BYTES: usize = 2 * ENTRY_BYTES;

/// The bytes of `pages` pages.
fn bytes_of(pages: u32) -> u64
    ensures { result ≡ pages * page_size }
{
    u64::from(pages) * u64::from(PAGE_SIZE)
}

/// Puts a statistic at the start of these bytes: its tag, and then its value.
fn put_statistic(bytes: &mut [u8], tag: u16, value: u64)
    requires { STATISTIC_SIZE ≤ length bytes.old }
    ensures { bytes.new
        ≡ little_bytes 2 tag ++ (little_bytes 8 value ++ drop STATISTIC_SIZE bytes.old) }
{
    LittleEndian::write_u16(bytes, tag);
    LittleEndian::write_u64(&mut bytes[2..], value);
}

/// The bytes of a buffer with these figures.
fn buffer_of(free: u64, total: u64) -> [u8; BUFFER_BYTES]
    ensures { result ≡ little_bytes 2 FREE_MEMORY_TAG ++ (little_bytes 8 free
        ++ (little_bytes 2 TOTAL_MEMORY_TAG ++ little_bytes 8 total)) }
{
    let mut bytes = [0; BUFFER_BYTES];
    put_statistic(&mut bytes, FREE_MEMORY_TAG, free);
    put_statistic(&mut bytes[ENTRY_BYTES..], TOTAL_MEMORY_TAG, total);
    bytes
}

/// Writes the figures into the buffer, in bytes: memory that is free, and all memory (VIRTIO 1.1,
/// 5.5.6.4).
fn write_figures<G: GuestBytes>(ram: &mut G, free: u64, total: u64)
    requires covers { Covers (G.mem ram.old) STATISTICS_PAGE 0 (2 * STATISTIC_SIZE) }
    requires backed { IsSome (frame_at (G.mem ram.old) STATISTICS_PAGE) }
    ensures free { IsStatistic (G.mem ram.new) 0 FREE_MEMORY_TAG free }
    ensures total { IsStatistic (G.mem ram.new) STATISTIC_SIZE TOTAL_MEMORY_TAG total }
    ensures rest { SameBut (G.mem ram.old) (G.mem ram.new) STATISTICS_PAGE 0 (2 * STATISTIC_SIZE) }
    ensures part { G.part ram.new ≡ G.part ram.old }
{
    let _ = ram.write(STATISTICS_PAGE, 0, &buffer_of(free, total));
}

/// The driver's side of the queue of statistics, of which one buffer is out at the most.
#[derive(Drop)]
pub(crate) struct StatisticsQueue {
    /// The driver's end of the ring.
    ring: DriverRing,
}

impl Model for StatisticsQueue {
    ghost use Rattle.vb_ring.specs.Ends.{DriverEnd};

    ghost Value = { DriverEnd };

    ghost view = { λ q. q.ring };
}

impl StatisticsQueue {
    /// A queue of which nothing is out.
    pub(crate) fn new(shape: Shape) -> Self
        requires { IsSize shape.queue_size }
        ensures { result ≡ fresh_statistics shape.queue_size }
    {
        StatisticsQueue {
            ring: DriverRing::new(shape.ring_page(STATISTICS_QUEUE), shape.queue_size),
        }
    }

    /// Begins anew, with nothing out.
    pub(crate) fn renew(&mut self, shape: Shape)
        requires { IsSize shape.queue_size }
        ensures { self.new ≡ fresh_statistics shape.queue_size }
    {
        self.ring = DriverRing::new(shape.ring_page(STATISTICS_QUEUE), shape.queue_size);
    }

    /// Fills the buffer with these figures, in bytes, and posts it; it mustn't be out.
    pub(crate) fn post<G: GuestBytes>(&mut self, ram: &mut G, free: u64, total: u64)
        requires queue { IsStatisticsQueue self.old self.old.size }
        requires size { IsSize self.old.size }
        requires none { outstanding self.old ≡ 0 }
        requires memory { IsLargeEnough (G.mem ram.old) }
        requires backed { HaveRingFrames self.old.size (G.mem ram.old) }
        ensures posts { PostsBuffer (G.mem ram.old) (G.mem ram.new)
            self.old self.new (record { free = free; total = total }) }
        ensures queue { IsStatisticsQueue self.new self.old.size }
        ensures part { G.part ram.new ≡ G.part ram.old }
    {
        write_figures(ram, free, total);
        let piece = Piece {
            addr: u64::from(PAGE_SIZE * STATISTICS_PAGE),
            len: BUFFER_BYTES as u32,
            writable: false,
        };
        let Ok(_) = self.ring.add(ram, &[piece]) else {
            unreachable!()
        };
    }

    /// Takes the buffer back where the device has used it, and tells so.
    pub(crate) fn take_used<G: GuestBytes>(&mut self, ram: &G) -> Result<bool, RingBroken>
        requires queue { IsStatisticsQueue self.old self.old.size }
        requires size { IsSize self.old.size }
        requires memory { IsLargeEnough (G.mem ram.now) }
        ensures refused { IfErr result (λ fault. used_answer (G.mem ram.now) self.old ≡ Err fault) }
        ensures kept { OnErr result (self.new ≡ self.old) }
        ensures next { IfOk result (λ used. MatchBool used
            ((used_answer (G.mem ram.now) self.old ≡ Ok (Some 0))
            × TakesUsedBy (G.mem ram.now) self.old self.new (Ok (Some 0))
            × (self.new ≡ emptied self.old) × (outstanding self.new ≡ 0)
            × IsStatisticsQueue self.new self.old.size)
            ((used_answer (G.mem ram.now) self.old ≡ Ok None) × (self.new ≡ self.old))) }
    {
        let used = self.ring.take_used(ram)?;
        Ok(used.is_some())
    }
}

impl Driver {
    /// How many pages are free.
    fn free_pages(&self) -> u32
        ensures value { result ≡ free_count self.now }
        ensures few { result ≤ MAX_GUEST_PAGES }
    {
        self.places.count(Place::Free)
    }

    /// Fills the statistics buffer with the figures of now, and posts it.
    pub(crate) fn fill<P: Port>(&mut self, port: &mut P)
        requires none { outstanding self.old.statistics ≡ 0 }
        requires memory { IsLargeEnough (P.mem port.old) }
        requires backed { HaveRingFrames self.old.queue_size (P.mem port.old) }
        ensures posts { PostsBuffer (P.mem port.old) (P.mem port.new)
            self.old.statistics self.new.statistics (figures_of self.old) }
        ensures state { self.new ≡ record self.old { statistics = self.new.statistics } }
        ensures part { P.part port.new ≡ P.part port.old }
    {
        let free = self.free_pages();
        let total = self.config.pages;
        self.statistics.post(port, bytes_of(free), bytes_of(total));
    }

    /// Fills and posts the first statistics buffer, where a queue of statistics was agreed on.
    pub(crate) fn fill_first<P: Port>(&mut self, port: &mut P)
        requires fresh { self.old.statistics ≡ fresh_statistics self.old.queue_size }
        requires memory { IsLargeEnough (P.mem port.old) }
        requires backed { HaveRingFrames self.old.queue_size (P.mem port.old) }
        ensures driver { IsDriver self.old }
        ensures buffer { FirstBuffer (stats_vq self.old.features)
            (P.mem port.old) (P.mem port.new) self.old self.new }
        ensures state { self.new ≡ record self.old { statistics = self.new.statistics } }
        ensures rest { SameButPages (P.mem port.old) (P.mem port.new)
            (fresh_statistics self.old.queue_size).layout STATISTICS_PAGE }
        ensures part { P.part port.new ≡ P.part port.old }
    {
        if self.features.stats_vq() {
            self.fill(port);
        }
    }

    /// Fills the statistics buffer anew where the device has used it (VIRTIO 1.1, 5.5.6.3), and
    /// tells so: with the bytes of all free pages and of all pages, as they are now. It goes out
    /// first with the initialisation.
    ///
    /// Refused for `NotReady`, `NoFeature` (STATS_VQ wasn't accepted), `RingBroken` (the used ring
    /// says what no device may say: the driver gives up, by FAILED in the status); nothing else is
    /// changed then.
    pub fn stats<P: Port>(&mut self, port: &mut P) -> Result<bool, Refusal>
        requires memory { IsLargeEnough (P.mem port.old) }
        requires backed { is_up (P.part port.old).status ≡ true
            → HaveRingFrames self.old.queue_size (P.mem port.old) }
        ensures { FillsBy (P.mem port.old) (P.mem port.new) (P.part port.old) (P.part port.new)
            self.old self.new result }
    {
        // A no-op read: it gives the prover the type's invariant on the path of a refusal.
        let _places = &self.places;
        if !is_up(port) {
            return Err(Refusal::NotReady);
        }
        if !self.features.stats_vq() {
            return Err(Refusal::NoFeature);
        }
        match self.statistics.take_used(port) {
            Ok(true) => {
                self.fill(port);
                Ok(true)
            }
            Ok(false) => Ok(false),
            Err(_) => {
                give_up(port);
                Err(Refusal::RingBroken)
            }
        }
    }
}

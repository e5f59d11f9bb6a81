//! The balloon driver, and the pages of the guest's own.

ghost use Rattle.std.specs.Prelude.{◌≡◌, ◌<◌, ◌≤◌, true, length, IfOk};
ghost use Rattle.vb_virtio.specs.declared.limits.TheConstants.{MAX_GUEST_PAGES};
ghost use Rattle.vb_virtio.specs.Limits.{is_config};
ghost use Rattle.vb_model.specs.Pages.{all_free, place_of, is_used};
ghost use Rattle.vb_pages.specs.PageState.{IsGuestSize, new_page_state};
ghost use Rattle.vb_ring.specs.Layout.{IsSize};
ghost use Rattle.vb_driver.specs.Places.{AreLentBits};
ghost use Rattle.vb_driver.specs.State.{IsDriver, fresh_driver, fresh_side, given_away};
ghost use Rattle.vb_driver.specs.Calls.{AllocatesBy, FreesBy, AreCountsOf};

use crate::areas::Allocator;
use crate::places::PlaceTable;
use crate::queue::{RequestPages, RequestQueue};
use crate::reports::ReportQueue;
use crate::statistics::StatisticsQueue;
use arrayvec::ArrayVec;
use bitflags::Flags;
use std::alloc::{AllocError, Global};
use std::marker::Model;
use vb_model::{Place, PlaceCounts};
use vb_ram::{Config, Shape};
use vb_status::Features;
use vb_virtio::Refusal;
use vb_virtio::layout::{DEFLATE_QUEUE, INFLATE_QUEUE};

/// The balloon driver of a guest (VIRTIO 1.1, 5.5.6).
#[derive(Drop)]
pub struct Driver {
    /// How large the guest is.
    pub(crate) config: Config,
    /// Where each page is.
    pub(crate) places: PlaceTable,
    /// The free pages and the held blocks.
    pub(crate) areas: Allocator,
    /// The inflate requests that are out.
    pub(crate) inflate: RequestQueue,
    /// The deflate requests that are out.
    pub(crate) deflate: RequestQueue,
    /// The statistics buffer.
    pub(crate) statistics: StatisticsQueue,
    /// The report that is out.
    pub(crate) report: ReportQueue,
    /// The features that were accepted last.
    pub(crate) features: Features,
    /// How many pages the device was told last.
    pub(crate) actual: u32,
    /// Room for the pages of the request that is posted or taken back.
    pub(crate) named: RequestPages,
    /// Room for the free pages that an inflate request names after the stranded ones.
    pub(crate) others: RequestPages,
}

impl Model for Driver {
    ghost use Rattle.vb_status.specs.Bits.{feature_bits};
    ghost use Rattle.vb_driver.specs.State.{DriverState, IsDriver};

    ghost Value = { DriverState };

    ghost view = { λ d. record {
      pages = d.config.pages;
      queue_size = d.config.queue_size;
      processors = d.config.processors;
      places = d.places;
      held = d.areas.held;
      areas = d.areas.free;
      inflate = d.inflate;
      deflate = d.deflate;
      statistics = d.statistics;
      report = d.report;
      features = feature_bits d.features;
      actual = d.actual;
    } };

    ghost invariant = { λ d. IsDriver (record {
      pages = d.config.pages;
      queue_size = d.config.queue_size;
      processors = d.config.processors;
      places = d.places;
      held = d.areas.held;
      areas = d.areas.free;
      inflate = d.inflate;
      deflate = d.deflate;
      statistics = d.statistics;
      report = d.report;
      features = feature_bits d.features;
      actual = d.actual;
    }) };
}

/// Where the pages of a guest are as it is plugged in, and its page areas; the first `reserved`
/// pages are reserved.
fn new_pages(
    alloc: Global,
    pages: u32,
    processors: u32,
    reserved: u32,
) -> Result<(PlaceTable, Allocator), AllocError>
    requires size { IsGuestSize pages processors }
    requires some { 0 < pages }
    requires most { pages ≤ MAX_GUEST_PAGES }
    ensures places { IfOk result (λ new. new.0 ≡ all_free reserved pages) }
    ensures areas { IfOk result (λ new. new.1 ≡ new_page_state pages processors reserved) }
{
    let places = PlaceTable::new(alloc, pages, reserved)?;
    let areas = Allocator::new(alloc, pages, processors, reserved)?;
    Ok((places, areas))
}

/// The queues of inflates and deflates, of which nothing is out, each with a ring of its own.
fn new_queues(alloc: Global, shape: Shape) -> Result<(RequestQueue, RequestQueue), AllocError>
    requires { IsSize shape.queue_size }
    ensures inflate { IfOk result (λ new. new.0 ≡ fresh_side 0 shape.queue_size) }
    ensures deflate { IfOk result (λ new. new.1 ≡ fresh_side 1 shape.queue_size) }
{
    let inflate = RequestQueue::new(alloc, INFLATE_QUEUE, shape)?;
    let deflate = RequestQueue::new(alloc, DEFLATE_QUEUE, shape)?;
    Ok((inflate, deflate))
}

impl Driver {
    /// The driver of a guest as it is plugged in: all unreserved pages are free, nothing is out.
    /// All memory that a driver needs is taken here; no other call takes any.
    pub fn new(alloc: Global, config: Config) -> Result<Driver, AllocError>
        requires { is_config config.pages config.queue_size config.processors ≡ true }
        ensures { IfOk result (λ driver.
            driver ≡ fresh_driver config.pages config.queue_size config.processors) }
    {
        let shape = config.shape();
        let reserved = shape.reserved_pages();
        let (places, areas) = new_pages(alloc, config.pages, config.processors, reserved)?;
        let (inflate, deflate) = new_queues(alloc, shape)?;
        Ok(Driver {
            config,
            places,
            areas,
            inflate,
            deflate,
            statistics: StatisticsQueue::new(shape),
            report: ReportQueue::new(shape),
            features: Features::empty(),
            actual: 0,
            named: ArrayVec::new(),
            others: ArrayVec::new(),
        })
    }

    /// Where the guest's rings and buffers are.
    pub fn shape(&self) -> Shape
        ensures { result ≡ record { queue_size = self.now.queue_size } }
    {
        self.config.shape()
    }

    /// Where a page is; one past the end of memory counts as reserved.
    pub fn place(&self, page: u32) -> Place
        ensures { result ≡ place_of self.now.places page }
    {
        self.places.place(page)
    }

    /// Where each page is, by page. Takes no memory.
    pub fn places_by_page(&self) -> &[Place]
        ensures places { result.now ≡ self.now.places }
        ensures few { length result.now ≤ MAX_GUEST_PAGES }
    {
        self.places.as_slice()
    }

    /// How many pages each place has.
    pub fn places(&self) -> PlaceCounts
        ensures counts { AreCountsOf result self.now.places }
        ensures driver { IsDriver self.now }
    {
        PlaceCounts {
            free: self.places.count(Place::Free),
            used: self.places.count(Place::Used),
            giving: self.places.count(Place::Giving),
            lent: self.places.count(Place::Lent),
            taking: self.places.count(Place::Taking),
            stranded: self.places.count(Place::Stranded),
            reporting: self.places.count(Place::Reporting),
        }
    }

    /// How many pages the driver told the device last: the lent ones, and those that deflate
    /// requests name (`actual`, VIRTIO 1.1, 5.5.4); none before the first request came back. While
    /// requests come and go it is their number at any time.
    pub fn actual(&self) -> u32
        ensures { result ≡ self.now.actual }
    {
        self.actual
    }

    /// The lent pages as bits: bit b of word w is 1 exactly if page 64 w + b is lent. The words are
    /// the fewest that hold a bit for each page, and at least one; further bits are 0. Takes no
    /// memory.
    pub fn lent_bits(&self) -> &[u64]
        ensures { AreLentBits self.now.places result.now }
    {
        self.places.lent_bits()
    }

    /// How many pages count as given to the host: those lent, and those that deflate requests name.
    pub(crate) fn given_away(&self) -> u32
        ensures { result ≡ given_away self.now }
    {
        self.places.count(Place::Lent) + self.deflate.pages_named()
    }

    /// Whether an allocation holds the page.
    pub fn held(&self, page: u32) -> bool
        ensures { result ≡ is_used (place_of self.now.places page) }
    {
        matches!(self.places.place(page), Place::Used)
    }

    /// Allocates a block of 2^order pages for a processor, and gives its first page.
    ///
    /// A single page is the one that was put last into the processor's list, which is refilled
    /// first where it is empty; a larger block comes from the page areas.
    ///
    /// Refused for `BadOrder` (over 9), `BadCpu` (no such processor); then nothing is changed.
    /// Refused for `NoPages` (no block of the order is wholly free); then the lists of all
    /// processors are drained into the areas, and no page changes its place.
    pub fn alloc(&mut self, cpu: u32, order: u32) -> Result<u32, Refusal>
        ensures { AllocatesBy self.old self.new cpu order result }
    {
        match self.areas.alloc(cpu, order) {
            Ok(start) => {
                self.places.set_block(start, order, Place::Used);
                Ok(start)
            }
            Err(refusal) => Err(refusal),
        }
    }

    /// Frees a block that an allocation holds: a single page into the processor's list, of which
    /// eight go back to the page areas where it has sixteen then, a larger block into the areas.
    ///
    /// Refused for `BadOrder`, `BadCpu`, `NotHeld` (no allocation of just this block is held); then
    /// nothing is changed.
    pub fn free(&mut self, cpu: u32, start: u32, order: u32) -> Result<(), Refusal>
        ensures { FreesBy self.old self.new cpu start order result }
    {
        match self.areas.free(cpu, start, order) {
            Ok(()) => {
                self.places.set_block(start, order, Place::Free);
                Ok(())
            }
            Err(refusal) => Err(refusal),
        }
    }
}

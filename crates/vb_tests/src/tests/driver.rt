//! A driver's calls over guest memory without a device. A line of a table is a step and its answer;
//! what a device would write into a ring is a step too.

ghost use Rattle.std.specs.Prelude.{◌≡◌, true};
ghost use Rattle.vb_virtio.specs.Limits.{is_config};
ghost use Rattle.vb_virtio.specs.Status.{is_up};

mod blocks;
mod lent;
mod lives;
mod order_of_writes;
mod random_rings;
mod reports;
mod requests;
mod sizes;
mod statistics;
mod untold;

use bitflags::Flags;
use order_of_writes::{Awaited, Deed, Recorder};
use std::alloc::Global;
use std::process::Abort;
use vb_driver::{Driver, Posted, Reaped};
use vb_model::{Place, PlaceCounts};
use vb_ram::{Config, Frame, GuestBytes, Ram};
use vb_status::{Features, MemoryPort, Port, Status};
use vb_virtio::Refusal;

/// What is done with a guest.
#[derive(Clone, Copy)]
enum Step {
    /// A processor allocates a block of an order.
    Alloc(u32, u32),
    /// A processor frees the block at a page, of an order.
    Free(u32, u32, u32),
    /// The driver starts with these features.
    Init(u64),
    Reset,
    Restart,
    Inflate(u32),
    Deflate(u32),
    Oom(u32),
    /// Free blocks are reported from a page on.
    Report(u32),
    /// A used request of a queue is taken back.
    Reap(u32),
    /// The statistics buffer is filled anew, where it was used.
    Stats,
    /// The host sets its target.
    SetTarget(u32),
    /// The device has used a request of a queue: its head, and how many it has used by then.
    Use(u32, u8, u8),
    /// Bytes that aren't zeros are written at both ends of a page.
    Soil(u32),
    /// From here on these deeds are waited for.
    Await(&'static [Deed]),
    See(Sight),
}

/// What can be seen of a guest.
#[derive(Clone, Copy)]
enum Sight {
    /// Whether n pages are free and m used, and none is on its way or with the host.
    Counts(u32, u32),
    /// Whether the pages from the first on, up to the second, are all at a place.
    At(Place, u32, u32),
    /// Whether an allocation holds the page.
    Held(u32),
    /// How many pages the driver has in the balloon.
    Actual,
    /// How many pages the device was told of.
    Told,
    Status,
    Features,
    /// Whether a page has these bytes from an offset on.
    Shows(u32, usize, [u8; 16]),
    /// Whether a page has zeros at both ends.
    Blank(u32),
    /// Whether the deeds that are waited for were the last ones.
    Deeds,
}

/// What a step is answered.
#[derive(Clone, Copy, PartialEq)]
enum Answer {
    Done,
    Page(u32),
    /// A request's head, and how many pages it names.
    Posted(u16, u32),
    /// The head of a request that was taken back, and how many pages it names.
    Reaped(u16, u32),
    NoneUsed,
    Is(bool),
    Number(u64),
}

type Line = (Step, Result<Answer, Refusal>);

const DONE: Result<Answer, Refusal> = Ok(Answer::Done);

const YES: Result<Answer, Refusal> = Ok(Answer::Is(true));

const NO: Result<Answer, Refusal> = Ok(Answer::Is(false));

/// All that a device offers.
const ALL: u64 = 0x1_0000_0027;

/// An available ring with one entry, for head 0.
const AVAILABLE: [u8; 16] = [0, 0, 1, 0, 0, 0, 0, 0, 0, 0, 0, 0, 0, 0, 0, 0];

/// Where the last 16 bytes of a page begin.
const LAST_BYTES: usize = 4080;

/// Backs a page with a frame.
fn supply(rt: &impl Abort, alloc: Global, ram: &mut Ram, page: u32) {
    let Ok(frame) = Frame::fresh(alloc, page) else {
        rt.abort()
    };
    assert!(rt; ram.supply(page, frame).is_ok());
}

/// Pages from the first on, up to the second, which have frames.
type Run = (u32, u32);

/// Backs pages with frames.
fn supply_run(rt: &impl Abort, alloc: Global, ram: &mut Ram, run: Run) {
    for page in run.0..run.1 {
        supply(rt, alloc, ram, page);
    }
}

/// Guest memory of `pages` pages, of which these have frames.
fn port_of(rt: &impl Abort, alloc: Global, pages: u32, backed: &[Run]) -> MemoryPort {
    let Ok(mut ram) = Ram::new(alloc, pages) else {
        rt.abort()
    };
    for run in backed {
        supply_run(rt, alloc, &mut ram, *run);
    }
    MemoryPort::new(ram)
}

/// A guest of `pages` pages, with queues of 8 descriptors and one processor.
fn small_queues(pages: u32) -> Config
    ensures { result ≡ record { pages = pages; queue_size = 8; processors = 1 } }
{
    Config {
        pages,
        queue_size: 8,
        processors: 1,
    }
}

/// The driver of a guest of this size.
fn driver_of(rt: &impl Abort, alloc: Global, config: Config) -> Driver
    requires { is_config config.pages config.queue_size config.processors ≡ true }
{
    let Ok(driver) = Driver::new(alloc, config) else {
        rt.abort()
    };
    driver
}

/// Whether the device is initialised, and neither it nor its driver has failed.
fn is_up<P: Port>(port: &P) -> bool
    ensures { result ≡ is_up (P.part port.now).status }
{
    let status = port.status();
    status.contains(Status::DRIVER_OK)
        && !(status.contains(Status::DEVICE_NEEDS_RESET) || status.contains(Status::FAILED))
}

/// A call that posts a request.
#[derive(Clone, Copy)]
enum Request {
    Inflate,
    Deflate,
    Oom,
    Report,
}

/// A driver, and the port through which it reaches its device.
#[derive(Drop)]
struct Guest {
    driver: Driver,
    port: Recorder,
}

/// What a new guest goes through.
#[derive(Clone, Copy)]
enum Table {
    Lines(&'static [Line]),
    /// How many words the lent pages have, and what is done with the guest.
    Lent(usize, &'static [lent::Line]),
    /// Used rings of random bytes of this queue.
    Rings(u32),
}

impl Guest {
    /// A guest of this size, of whose pages these have frames.
    fn new(rt: &impl Abort, alloc: Global, config: Config, backed: &[Run]) -> Guest
        requires { is_config config.pages config.queue_size config.processors ≡ true }
    {
        let driver = driver_of(rt, alloc, config);
        let port = Recorder::new(port_of(rt, alloc, config.pages, backed));
        Guest { driver, port }
    }

    fn are_counts(&self, free: u32, used: u32) -> bool {
        let wanted = PlaceCounts {
            free,
            used,
            giving: 0,
            lent: 0,
            taking: 0,
            stranded: 0,
            reporting: 0,
        };
        self.driver.places() == wanted
    }

    fn are_at(&self, place: Place, first: u32, end: u32) -> bool {
        for page in first..end {
            if self.driver.place(page) != place {
                return false;
            }
        }
        true
    }

    fn shows(&self, page: u32, offset: usize, bytes: [u8; 16]) -> bool {
        let mut found = [0xff; 16];
        self.port.read(page, offset, &mut found).is_ok() && found == bytes
    }

    fn is_blank(&self, page: u32) -> bool {
        self.shows(page, 0, [0; 16]) && self.shows(page, LAST_BYTES, [0; 16])
    }

    fn soil(&mut self, page: u32) {
        let _ = self.port.write(page, 0, &[0xff; 16]);
        let _ = self.port.write(page, LAST_BYTES, &[0xff; 16]);
    }

    fn see(&self, sight: Sight) -> Answer {
        match sight {
            Sight::Counts(free, used) => Answer::Is(self.are_counts(free, used)),
            Sight::At(place, first, end) => Answer::Is(self.are_at(place, first, end)),
            Sight::Held(page) => Answer::Is(self.driver.held(page)),
            Sight::Actual => Answer::Number(u64::from(self.driver.actual())),
            Sight::Told => Answer::Number(u64::from(self.port.port.actual())),
            Sight::Status => Answer::Number(u64::from(self.port.status().bits())),
            Sight::Features => Answer::Number(self.port.port.features().bits()),
            Sight::Shows(page, offset, bytes) => Answer::Is(self.shows(page, offset, bytes)),
            Sight::Blank(page) => Answer::Is(self.is_blank(page)),
            Sight::Deeds => Answer::Is(self.port.awaited.are_met()),
        }
    }

    /// Posts a request for `pages` pages, or a report from a page on; a device that is up needs
    /// frames for its rings and buffers.
    fn post(&mut self, request: Request, pages: u32) -> Result<Answer, Refusal> {
        if self.port.pages() < 64 || is_up(&self.port) && !self.driver.has_frames(&self.port) {
            return Err(Refusal::OutOfRam);
        }
        let Posted { head, pages } = match request {
            Request::Inflate => self.driver.inflate(&mut self.port, pages)?,
            Request::Deflate => self.driver.deflate(&mut self.port, pages)?,
            Request::Oom => self.driver.oom(&mut self.port, pages)?,
            Request::Report => self.driver.report(&mut self.port, pages)?,
        };
        Ok(Answer::Posted(head, pages))
    }

    fn reap(&mut self, queue: u32) -> Result<Answer, Refusal> {
        if self.port.pages() < 64 {
            return Err(Refusal::OutOfRam);
        }
        match self.driver.reap(&mut self.port, queue)? {
            Some(Reaped { head, pages }) => Ok(Answer::Reaped(head, pages)),
            None => Ok(Answer::NoneUsed),
        }
    }

    fn stats(&mut self) -> Result<Answer, Refusal> {
        if self.port.pages() < 64 || is_up(&self.port) && !self.driver.has_frames(&self.port) {
            return Err(Refusal::OutOfRam);
        }
        Ok(Answer::Is(self.driver.stats(&mut self.port)?))
    }

    fn init(&mut self, features: u64) -> Result<(), Refusal> {
        if self.port.pages() < 64 {
            return Err(Refusal::OutOfRam);
        }
        self.driver
            .init(&mut self.port, Features::from_bits_retain(features))
    }

    /// Writes what a device would: the used ring has its index at its third byte, and then an
    /// element of 8 bytes for each request, which begins with the head.
    fn use_at(&mut self, page: u32, ring: u16, head: u8, used: u8) {
        let ring = usize::from(ring);
        let element = ring + 4 + 8 * usize::from(used.saturating_sub(1));
        let _ = self.port.write(page, element, &[head, 0, 0, 0, 0, 0, 0, 0]);
        let _ = self.port.write(page, ring + 2, &[used, 0]);
    }

    /// Uses a request as a device would, of a queue that has 8 or 256 descriptors.
    fn use_request(&mut self, queue: u32, head: u8, used: u8) {
        let number = if queue == 4 { 3 } else { queue.min(2) };
        if self.driver.shape().queue_size == 256 {
            self.use_at(17 + 2 * number, 520, head, used);
        } else {
            self.use_at(number, 152, head, used);
        }
    }

    fn answer(&mut self, step: Step) -> Result<Answer, Refusal> {
        match step {
            Step::Alloc(cpu, order) => return Ok(Answer::Page(self.driver.alloc(cpu, order)?)),
            Step::Free(cpu, start, order) => self.driver.free(cpu, start, order)?,
            Step::Init(features) => self.init(features)?,
            Step::Reset => self.driver.reset(&mut self.port),
            Step::Restart => self.driver.restart(&mut self.port),
            Step::Inflate(pages) => return self.post(Request::Inflate, pages),
            Step::Deflate(pages) => return self.post(Request::Deflate, pages),
            Step::Oom(pages) => return self.post(Request::Oom, pages),
            Step::Report(from) => return self.post(Request::Report, from),
            Step::Reap(queue) => return self.reap(queue),
            Step::Stats => return self.stats(),
            Step::SetTarget(pages) => self.port.port.set_target(pages),
            Step::Use(queue, head, used) => self.use_request(queue, head, used),
            Step::Soil(page) => self.soil(page),
            Step::Await(deeds) => self.port.awaited = Awaited::for_deeds(deeds),
            Step::See(sight) => return Ok(self.see(sight)),
        }
        Ok(Answer::Done)
    }

    /// The number of the first line that is answered otherwise.
    fn first_wrong_line(&mut self, lines: &[Line]) -> Option<usize> {
        for at in 0..lines.len() {
            if self.answer(lines[at].0) != lines[at].1 {
                return Some(at);
            }
        }
        None
    }

    fn first_wrong(&mut self, table: Table) -> Option<usize> {
        match table {
            Table::Lines(lines) => self.first_wrong_line(lines),
            Table::Lent(words, lines) => lent::first_wrong(self, words, lines),
            Table::Rings(queue) => random_rings::first_wrong(self, queue),
        }
    }
}

/// The number of the first line of a table that a new guest of this size, of whose pages these have
/// frames, answers otherwise. It alone owns a guest: that is dear to prove.
fn first_wrong(
    rt: &impl Abort,
    alloc: Global,
    config: Config,
    backed: &[Run],
    table: Table,
) -> Option<usize>
    requires { is_config config.pages config.queue_size config.processors ≡ true }
{
    let mut guest = Guest::new(rt, alloc, config, backed);
    guest.first_wrong(table)
}

/// Expects that a new guest of 64 pages, of which the first `backed` have frames, answers each line
/// so.
fn expect(rt: &impl Abort, alloc: Global, backed: u32, lines: &'static [Line]) {
    let wrong = first_wrong(
        rt,
        alloc,
        small_queues(64),
        &[(0, backed)],
        Table::Lines(lines),
    );
    assert_eq!(rt; wrong, None);
}

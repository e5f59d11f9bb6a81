//! Requests on devices of both paces: the tests write what a driver would, and call what a host
//! does.

ghost use Rattle.vb_device.specs.Calls.{IsUnused};

mod attaching;
mod bytes;
mod faults;
mod paced;
mod requests;
mod served;
mod serving;
mod statistics_and_reports;
mod untold;

use bitflags::Flags;
use std::alloc::Global;
use std::process::Abort;
use vb_device::{BalloonDevice, Claimed, Device, Pace, Statistics, Worked};
use vb_ram::{Config, Frame, GuestBytes, Shape};
use vb_status::{Features, Port, Status};
use vb_virtio::Refusal;

/// What a host and a driver do with a device.
#[derive(Clone, Copy)]
enum Step {
    /// The driver comes through the initialisation, after a reset, with all features.
    Start,
    /// The driver comes through the initialisation with just these features.
    StartWith(u64),
    /// The driver writes the status.
    WriteStatus(u8),
    /// Bytes are written to a page, from an offset on.
    Write(u32, usize, &'static [u8]),
    /// In a new life the driver writes descriptors and an available ring of a queue, and the
    /// queue's first chain is taken.
    TakeChain(u32, &'static [u8], [u8; 6]),
    Take(u32),
    /// The statistics buffer is given back.
    Ask,
    /// A page is visited. No frame may be loose before.
    Work,
    /// The pages from the first up to the end are visited in turn, and none has a frame.
    WorkBare(u32, u32),
    /// The chain of a queue that was taken as this number is finished. No frame may be loose
    /// before.
    Finish(u32, u32),
    /// The next chain of a queue is served. No frame may be loose before.
    Serve(u32),
    /// A page is backed by the frame of this number.
    Supply(u32, u32),
    HandBack,
    /// The frame of a page is swept away. No frame may be loose before.
    Sweep(u32),
    Claim,
    SetTarget(u32),
    /// The guest's life ends. No frame may be loose before.
    Detach,
    See(Sight),
}

/// What can be seen of a device and its guest.
#[derive(Clone, Copy)]
enum Sight {
    Status,
    /// Twelve bytes of a page.
    Bytes(u32, usize),
    Stats,
    Backing(u32),
    /// Whether all pages from the first to the last are ballooned, and no others.
    AreBallooned(u32, u32),
    BalloonedCount,
    Target,
    /// Whether no page has a frame.
    AreBare,
    /// Whether the device keeps frames of its own.
    Keeps,
}

/// What is answered.
#[derive(Clone, Copy, PartialEq)]
enum Answer {
    Done,
    Refused(Refusal),
    /// The rule that a chain or the available ring breaks.
    Broken(u32),
    Is(bool),
    Status(u8),
    Count(u32),
    Bytes([u8; 12]),
    /// The head of a chain; none where there is none.
    Head(Option<u16>),
    /// A page that was visited, and whether it had a frame.
    Worked(u32, bool),
    Idle,
    /// The number of a frame; none where there is none.
    Frame(Option<u32>),
    AskHost,
    Stats(Option<u64>, Option<u64>),
}

fn done(is_done: bool) -> Answer {
    if is_done {
        Answer::Done
    } else {
        Answer::Is(false)
    }
}

/// The host, and the driver too, of one device.
#[derive(Drop)]
struct Host<P: Pace> {
    device: BalloonDevice<P>,
    /// Where the driver's rings are.
    shape: Shape,
}

/// Gives a device a guest of `pages` pages, whose rings and buffers have the frames of their pages'
/// numbers; says whether it has them.
fn attach<P: Pace>(
    device: &mut BalloonDevice<P>,
    alloc: Global,
    pages: u32,
    queue_size: u16,
) -> bool
    requires { IsUnused device.old.mem device.old.part }
{
    let config = Config {
        pages,
        queue_size,
        processors: 1,
    };
    config.is_within_limits()
        && device.attach(alloc, config).is_ok()
        && supply_first(device, alloc, config.shape())
}

/// Backs each page of rings and buffers with the frame of its number.
fn supply_first<P: Pace>(device: &mut BalloonDevice<P>, alloc: Global, shape: Shape) -> bool {
    for page in 0..32 {
        if shape.is_start_page(page) && !supply(device, alloc, page, page) {
            return false;
        }
    }
    true
}

/// Backs a page with a frame.
fn supply<P: Pace>(device: &mut BalloonDevice<P>, alloc: Global, page: u32, number: u32) -> bool {
    match Frame::fresh(alloc, number) {
        Ok(frame) => device.supply(page, frame).is_ok(),
        Err(_) => false,
    }
}

impl<P: Pace> Host<P> {
    fn read(&self, page: u32, offset: usize) -> [u8; 12] {
        let mut bytes = [9; 12];
        let _ = self.device.read(page, offset, &mut bytes);
        bytes
    }

    fn take(&mut self, queue: u32) -> Answer {
        match self.device.take(queue) {
            Ok(head) => Answer::Head(head),
            Err(Refusal::Broken { rule }) => Answer::Broken(rule),
            Err(refusal) => Answer::Refused(refusal),
        }
    }

    fn work(&mut self) -> Answer {
        if self.device.hand_back().is_some() {
            return Answer::Is(false);
        }
        match self.device.work() {
            Ok(Some(Worked { page, freed })) => Answer::Worked(page, freed),
            Ok(None) => Answer::Idle,
            Err(refusal) => Answer::Refused(refusal),
        }
    }

    fn finish(&mut self, queue: u32, index: u32) -> Answer {
        if self.device.hand_back().is_some() || !self.device.has_ring(queue) {
            return Answer::Is(false);
        }
        match self.device.finish(queue, index) {
            Ok(head) => Answer::Head(Some(head)),
            Err(refusal) => Answer::Refused(refusal),
        }
    }

    fn serve(&mut self, queue: u32) -> Answer {
        if self.device.hand_back().is_some() || !self.device.has_ring(queue) {
            return Answer::Is(false);
        }
        match self.device.serve(queue) {
            Ok(head) => Answer::Head(head),
            Err(Refusal::Broken { rule }) => Answer::Broken(rule),
            Err(refusal) => Answer::Refused(refusal),
        }
    }

    fn ask(&mut self) -> Answer {
        if !self.device.has_ring(2) {
            return Answer::Is(false);
        }
        match self.device.ask_stats() {
            Ok(()) => Answer::Done,
            Err(refusal) => Answer::Refused(refusal),
        }
    }

    fn stats(&self) -> Answer {
        let Statistics { free, total } = self.device.stats();
        Answer::Stats(free, total)
    }

    fn work_bare(&mut self, first: u32, end: u32) -> bool {
        for page in first..end {
            if self.work() != Answer::Worked(page, false) {
                return false;
            }
        }
        true
    }

    fn sweep(&mut self, page: u32) -> Answer {
        if self.device.hand_back().is_some() {
            return Answer::Is(false);
        }
        match self.device.sweep(page) {
            Ok(had) => Answer::Is(had),
            Err(refusal) => Answer::Refused(refusal),
        }
    }

    fn hand_back(&mut self) -> Answer {
        match self.device.hand_back() {
            Some(frame) => Answer::Frame(Some(frame.number())),
            None => Answer::Frame(None),
        }
    }

    fn set_target(&mut self, pages: u32) -> Answer {
        self.device.set_target(pages);
        Answer::Done
    }

    fn detach(&mut self) -> Answer {
        if self.device.hand_back().is_some() {
            return Answer::Is(false);
        }
        self.device.detach();
        Answer::Done
    }

    fn are_bare(&self) -> bool {
        for page in 0..self.device.pages() {
            if self.device.backing(page).is_some() {
                return false;
            }
        }
        true
    }

    fn claim(&mut self) -> Answer {
        match self.device.claim() {
            Claimed::AskHost => Answer::AskHost,
            _ => Answer::Is(false),
        }
    }

    fn are_ballooned(&self, first: u32, last: u32) -> bool {
        for page in 0..64 {
            if self.device.ballooned(page) != (first <= page && page <= last) {
                return false;
            }
        }
        true
    }

    fn write_status(&mut self, bits: u8) -> bool {
        self.device
            .write_status(Status::from_bits_retain(bits))
            .is_ok()
    }

    fn start(&mut self) -> bool {
        self.start_with(0x1_0000_0027)
    }

    fn start_with(&mut self, features: u64) -> bool {
        self.write_status(0)
            && self.write_status(1)
            && self.write_status(3)
            && self
                .device
                .negotiate(Features::from_bits_retain(features))
                .is_ok()
            && self.write_status(11)
            && self.write_status(15)
    }

    fn take_chain(&mut self, queue: u32, descriptors: &[u8], available: &[u8; 6]) -> Answer {
        let page = u32::from(self.shape.ring_page(queue));
        let table = 16 * u32::from(self.shape.queue_size);
        let _ = self.start();
        let _ = self.device.write(page, 0, descriptors);
        let _ = self
            .device
            .write(page + table / 4096, (table % 4096) as usize, available);
        self.take(queue)
    }

    fn see(&self, sight: Sight) -> Answer {
        match sight {
            Sight::Status => Answer::Status(self.device.status().bits()),
            Sight::Bytes(page, offset) => Answer::Bytes(self.read(page, offset)),
            Sight::Stats => self.stats(),
            Sight::Backing(page) => Answer::Frame(self.device.backing(page)),
            Sight::AreBallooned(first, last) => done(self.are_ballooned(first, last)),
            Sight::BalloonedCount => Answer::Count(self.device.ballooned_count()),
            Sight::Target => Answer::Count(self.device.target()),
            Sight::AreBare => done(self.are_bare()),
            Sight::Keeps => Answer::Is(self.device.keeps()),
        }
    }

    fn answer_of(&mut self, alloc: Global, step: &Step) -> Answer {
        match step {
            Step::Start => done(self.start()),
            Step::StartWith(features) => done(self.start_with(*features)),
            Step::WriteStatus(bits) => done(self.write_status(*bits)),
            Step::Write(page, offset, bytes) => {
                done(self.device.write(*page, *offset, bytes).is_ok())
            }
            Step::TakeChain(queue, descriptors, available) => {
                self.take_chain(*queue, descriptors, available)
            }
            Step::Take(queue) => self.take(*queue),
            Step::Ask => self.ask(),
            Step::Work => self.work(),
            Step::WorkBare(first, end) => done(self.work_bare(*first, *end)),
            Step::Finish(queue, index) => self.finish(*queue, *index),
            Step::Serve(queue) => self.serve(*queue),
            Step::Supply(page, number) => done(supply(&mut self.device, alloc, *page, *number)),
            Step::HandBack => self.hand_back(),
            Step::Sweep(page) => self.sweep(*page),
            Step::Claim => self.claim(),
            Step::SetTarget(pages) => self.set_target(*pages),
            Step::Detach => self.detach(),
            Step::See(sight) => self.see(*sight),
        }
    }

    /// The number of the first of these lines that the device answers otherwise.
    fn first_wrong(&mut self, alloc: Global, lines: &[(Step, Answer)]) -> Option<usize> {
        for (at, (step, expected)) in lines.iter().enumerate() {
            if self.answer_of(alloc, step) != *expected {
                return Some(at);
            }
        }
        None
    }

    /// The number of the first table with a line that the device answers otherwise, and of that
    /// line; the first line where the device has no guest.
    fn first_wrong_table(
        &mut self,
        alloc: Global,
        is_attached: bool,
        tables: &[&'static [(Step, Answer)]],
    ) -> Option<(usize, usize)> {
        if !is_attached {
            return Some((0, 0));
        }
        for (table, lines) in tables.iter().enumerate() {
            if let Some(at) = self.first_wrong(alloc, lines) {
                return Some((table, at));
            }
        }
        None
    }
}

/// What is shown, how many pages a guest has and how many descriptors each queue, and what its
/// device answers to each line of each table.
type Scenario = (&'static str, u32, u16, &'static [&'static [(Step, Answer)]]);

/// The first table and line of a scenario that a new device answers otherwise. It alone owns a
/// device: that is dear to prove.
fn first_wrong<P: Pace>(alloc: Global, scenario: &Scenario) -> Option<(usize, usize)> {
    let (_, pages, queue_size, tables) = scenario;
    let mut device = BalloonDevice::<P>::of_pace(alloc);
    let is_attached = attach(&mut device, alloc, *pages, *queue_size);
    let shape = Shape {
        queue_size: *queue_size,
    };
    let mut host = Host { device, shape };
    host.first_wrong_table(alloc, is_attached, tables)
}

/// A device of this pace answers as the scenario has it.
fn expect<P: Pace>(rt: &impl Abort, alloc: Global, scenario: &Scenario) {
    if let Some((table, at)) = first_wrong::<P>(alloc, scenario) {
        let name = scenario.0;
        assert!(rt; false, "{name}: line {at} of table {table}");
    }
}

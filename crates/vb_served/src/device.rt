//! A device whose `serve` is a notice.

ghost use Rattle.std.specs.Prelude.{◌≡◌, [], false};
ghost use Rattle.vb_device.specs.Base.{fresh_device};
ghost use Rattle.vb_device.specs.Calls.{IsUnused};

use crate::Notices;
use std::alloc::{AllocError, Global};
use std::marker::Model;
use vb_device::{Claimed, Device, ImmediateDevice, Statistics, Worked};
use vb_ram::{Config, Frame, GuestBytes, RamFault, SupplyRefused};
use vb_status::{Features, Port, Status, StatusFault};
use vb_virtio::Refusal;

/// An immediate device whose `serve` is a notice over the guest memory that it owns. All its other
/// calls are the immediate device's.
#[derive(Drop)]
pub struct NoticedDevice {
    inner: ImmediateDevice,
    notices: Notices,
}

impl Model for NoticedDevice {
    ghost use Rattle.vb_device.specs.State.{DeviceState};

    ghost Value = { DeviceState };

    ghost view = { λ s. s.inner };
}

impl NoticedDevice {
    /// A device that no guest has yet.
    pub fn new(alloc: Global) -> NoticedDevice
        ensures new { result ≡ fresh_device false }
        ensures unused { IsUnused result.mem result.part }
        ensures paced { result.part.paced ≡ false }
        ensures keeps { result.part.keeps ≡ false }
        ensures own { result.part.own ≡ [] }
    {
        NoticedDevice {
            inner: ImmediateDevice::new(alloc),
            notices: Notices::new(alloc),
        }
    }
}

impl GuestBytes for NoticedDevice {
    ghost mem = { λ d. d.mem };

    ghost part = { λ d. d.part };

    fn pages(&self) -> u32 {
        self.inner.pages()
    }

    fn has_frame(&self, page: u32) -> bool {
        self.inner.has_frame(page)
    }

    fn read(&self, page: u32, offset: usize, out: &mut [u8]) -> Result<(), RamFault> {
        self.inner.read(page, offset, out)
    }

    fn write(&mut self, page: u32, offset: usize, bytes: &[u8]) -> Result<(), RamFault> {
        self.inner.write(page, offset, bytes)
    }

    fn clear_page(&mut self, page: u32) -> Result<(), RamFault> {
        self.inner.clear_page(page)
    }
}

impl Port for NoticedDevice {
    fn status(&self) -> Status {
        self.inner.status()
    }

    fn write_status(&mut self, write: Status) -> Result<(), StatusFault> {
        self.inner.write_status(write)
    }

    fn negotiate(&mut self, wanted: Features) -> Result<(), StatusFault> {
        self.inner.negotiate(wanted)
    }

    fn target(&self) -> u32 {
        self.inner.target()
    }

    fn set_actual(&mut self, pages: u32) {
        self.inner.set_actual(pages);
    }
}

impl Device for NoticedDevice {
    ghost answers = { λ _ _. false };

    fn attach(&mut self, alloc: Global, config: Config) -> Result<(), AllocError> {
        self.inner.attach(alloc, config)
    }

    fn supply(&mut self, page: u32, frame: Frame) -> Result<(), SupplyRefused> {
        self.inner.supply(page, frame)
    }

    fn backing(&self, page: u32) -> Option<u32> {
        self.inner.backing(page)
    }

    fn paced(&self) -> bool {
        self.inner.paced()
    }

    fn keeps(&self) -> bool {
        self.inner.keeps()
    }

    fn set_target(&mut self, pages: u32) {
        self.inner.set_target(pages);
    }

    fn take(&mut self, queue: u32) -> Result<Option<u16>, Refusal> {
        self.inner.take(queue)
    }

    fn work(&mut self) -> Result<Option<Worked>, Refusal> {
        self.inner.work()
    }

    fn finish(&mut self, queue: u32, index: u32) -> Result<u16, Refusal> {
        self.inner.finish(queue, index)
    }

    fn serve(&mut self, queue: u32) -> Result<Option<u16>, Refusal> {
        self.inner.serve_by(&mut self.notices, queue)
    }

    fn sweep(&mut self, page: u32) -> Result<bool, Refusal> {
        self.inner.sweep(page)
    }

    fn ask_stats(&mut self) -> Result<(), Refusal> {
        self.inner.ask_stats()
    }

    fn stats(&self) -> Statistics {
        self.inner.stats()
    }

    fn ballooned(&self, page: u32) -> bool {
        self.inner.ballooned(page)
    }

    fn ballooned_count(&self) -> u32 {
        self.inner.ballooned_count()
    }

    fn detach(&mut self) {
        self.inner.detach();
    }

    fn pop_loose(&mut self) -> Option<Frame> {
        self.inner.pop_loose()
    }

    fn claim(&mut self) -> Claimed {
        self.inner.claim()
    }

    fn put_back(&mut self, frame: Frame) -> Option<Frame> {
        self.inner.put_back(frame)
    }
}

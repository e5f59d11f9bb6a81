//! A device's box, as the driver and the calls here are given it.

ghost use Rattle.std.specs.Prelude.{◌≡◌};

use std::alloc::{AllocError, Global};
use vb_device::{Claimed, Device, Statistics, Worked};
use vb_ram::{Config, Frame, GuestBytes, RamFault, SupplyRefused};
use vb_status::{Features, Port, Status, StatusFault};
use vb_virtio::Refusal;

/// A boxed device, which every call is forwarded to.
#[derive(Drop)]
pub(crate) struct BoxedDevice {
    pub(crate) device: Box<dyn Device + Send>,
}

impl GuestBytes for BoxedDevice {
    ghost mem = { λ w. (Device-box w.device).GuestBytes.mem w.device.value };

    ghost part = { λ w. (Device-box w.device).GuestBytes.part w.device.value };

    fn pages(&self) -> u32 {
        self.device.pages()
    }

    fn has_frame(&self, page: u32) -> bool {
        self.device.has_frame(page)
    }

    fn read(&self, page: u32, offset: usize, out: &mut [u8]) -> Result<(), RamFault> {
        self.device.read(page, offset, out)
    }

    fn write(&mut self, page: u32, offset: usize, bytes: &[u8]) -> Result<(), RamFault> {
        self.device.write(page, offset, bytes)
    }

    fn clear_page(&mut self, page: u32) -> Result<(), RamFault> {
        self.device.clear_page(page)
    }
}

impl Port for BoxedDevice {
    fn status(&self) -> Status {
        self.device.status()
    }

    fn write_status(&mut self, write: Status) -> Result<(), StatusFault> {
        self.device.write_status(write)
    }

    fn negotiate(&mut self, wanted: Features) -> Result<(), StatusFault> {
        self.device.negotiate(wanted)
    }

    fn target(&self) -> u32 {
        self.device.target()
    }

    fn set_actual(&mut self, pages: u32) {
        self.device.set_actual(pages);
    }
}

impl Device for BoxedDevice {
    ghost answers = { λ w. (Device-box w.device).Device.answers w.device.value };

    fn attach(&mut self, alloc: Global, config: Config) -> Result<(), AllocError> {
        self.device.attach(alloc, config)
    }

    fn supply(&mut self, page: u32, frame: Frame) -> Result<(), SupplyRefused> {
        self.device.supply(page, frame)
    }

    fn backing(&self, page: u32) -> Option<u32> {
        self.device.backing(page)
    }

    fn paced(&self) -> bool {
        self.device.paced()
    }

    fn keeps(&self) -> bool {
        self.device.keeps()
    }

    fn set_target(&mut self, pages: u32) {
        self.device.set_target(pages);
    }

    fn take(&mut self, queue: u32) -> Result<Option<u16>, Refusal> {
        self.device.take(queue)
    }

    fn work(&mut self) -> Result<Option<Worked>, Refusal> {
        self.device.work()
    }

    fn finish(&mut self, queue: u32, index: u32) -> Result<u16, Refusal> {
        self.device.finish(queue, index)
    }

    fn serve(&mut self, queue: u32) -> Result<Option<u16>, Refusal> {
        self.device.serve(queue)
    }

    fn sweep(&mut self, page: u32) -> Result<bool, Refusal> {
        self.device.sweep(page)
    }

    fn ask_stats(&mut self) -> Result<(), Refusal> {
        self.device.ask_stats()
    }

    fn stats(&self) -> Statistics {
        self.device.stats()
    }

    fn ballooned(&self, page: u32) -> bool {
        self.device.ballooned(page)
    }

    fn ballooned_count(&self) -> u32 {
        self.device.ballooned_count()
    }

    fn detach(&mut self) {
        self.device.detach();
    }

    fn pop_loose(&mut self) -> Option<Frame> {
        self.device.pop_loose()
    }

    fn claim(&mut self) -> Claimed {
        self.device.claim()
    }

    fn put_back(&mut self, frame: Frame) -> Option<Frame> {
        self.device.put_back(frame)
    }
}

//! A device round a device, with a pass of its own.

ghost use Rattle.std.specs.Prelude.{◌≡◌, true};
ghost use Rattle.vb_device.specs.Calls.{Claims, IsAnswered};
ghost use Rattle.vb_shared.specs.Leases.{AnswersAs};

use crate::FramePass;
use std::alloc::{AllocError, Global};
use vb_device::{Claimed, Device, Statistics, Worked};
use vb_ram::{Config, Frame, GuestBytes, RamFault, SupplyRefused};
use vb_status::{Features, Port, Status, StatusFault};
use vb_virtio::Refusal;

/// A device that gives its guest the frames that its pass claims, and is the device that it wraps
/// in all else. Its drop gives every frame back.
pub struct Leased<D: Device> {
    /// The device that does the work.
    device: D,
    /// What claims frames for it.
    pass: FramePass,
}

impl<D: Device> Leased<D> {
    /// The device, with the frames of this pass as its own.
    pub fn new(device: D, pass: FramePass) -> Leased<D>
        ensures mem { (⟦<Leased<D> as GuestBytes>⟧.mem result) ≡ D.mem device }
        ensures part { (⟦<Leased<D> as GuestBytes>⟧.part result) ≡
            record (D.part device) { keeps = true; own = pass.held } }
    {
        Leased { device, pass }
    }
}

impl<D: Device> Drop for Leased<D> {
    fn drop(self) {
        let Leased { device, mut pass } = self;
        pass.give_back_all();
        drop(device);
    }
}

impl<D: Device> GuestBytes for Leased<D> {
    ghost mem = { λ l. D.mem l.device };

    ghost part = { λ l. record (D.part l.device) { keeps = true; own = l.pass.held } };

    fn pages(&self) -> u32 {
        self.device.pages()
    }

    fn has_frame(&self, page: u32) -> bool {
        self.device.has_frame(page)
    }

    fn read(&self, page: u32, offset: usize, out: &mut [u8]) -> Result<(), RamFault> {
        self.device.read(page, offset, out)
    }

    fn write(&mut self, page: u32, offset: usize, bytes: &[u8]) -> Result<(), RamFault> {
        self.device.write(page, offset, bytes)
    }

    fn clear_page(&mut self, page: u32) -> Result<(), RamFault> {
        self.device.clear_page(page)
    }
}

impl<D: Device> Port for Leased<D> {
    fn status(&self) -> Status {
        self.device.status()
    }

    fn write_status(&mut self, write: Status) -> Result<(), StatusFault> {
        self.device.write_status(write)
    }

    fn negotiate(&mut self, wanted: Features) -> Result<(), StatusFault> {
        self.device.negotiate(wanted)
    }

    fn target(&self) -> u32 {
        self.device.target()
    }

    fn set_actual(&mut self, pages: u32) {
        self.device.set_actual(pages);
    }
}

impl<D: Device> Device for Leased<D> {
    ghost answers = { λ _ _. true };

    fn attach(&mut self, alloc: Global, config: Config) -> Result<(), AllocError> {
        self.device.attach(alloc, config)
    }

    fn supply(&mut self, page: u32, frame: Frame) -> Result<(), SupplyRefused> {
        self.device.supply(page, frame)
    }

    fn backing(&self, page: u32) -> Option<u32> {
        self.device.backing(page)
    }

    fn paced(&self) -> bool {
        self.device.paced()
    }

    fn keeps(&self) -> bool {
        true
    }

    fn set_target(&mut self, pages: u32) {
        self.device.set_target(pages);
    }

    fn take(&mut self, queue: u32) -> Result<Option<u16>, Refusal> {
        self.device.take(queue)
    }

    fn work(&mut self) -> Result<Option<Worked>, Refusal> {
        self.device.work()
    }

    fn finish(&mut self, queue: u32, index: u32) -> Result<u16, Refusal> {
        self.device.finish(queue, index)
    }

    fn serve(&mut self, queue: u32) -> Result<Option<u16>, Refusal> {
        self.device.serve(queue)
    }

    fn sweep(&mut self, page: u32) -> Result<bool, Refusal> {
        self.device.sweep(page)
    }

    fn ask_stats(&mut self) -> Result<(), Refusal> {
        self.device.ask_stats()
    }

    fn stats(&self) -> Statistics {
        self.device.stats()
    }

    fn ballooned(&self, page: u32) -> bool {
        self.device.ballooned(page)
    }

    fn ballooned_count(&self) -> u32 {
        self.device.ballooned_count()
    }

    fn detach(&mut self) {
        self.device.detach();
    }

    fn pop_loose(&mut self) -> Option<Frame> {
        self.device.pop_loose()
    }

    #[tactic(auto, using(crate::proofs::Lists::without_added))]
    fn claim(&mut self) -> Claimed
        ensures frame { Claims (⟦<Leased<D> as GuestBytes>⟧.part self.old)
            (⟦<Leased<D> as GuestBytes>⟧.part self.new) result }
        ensures answered { IsAnswered (⟦<Leased<D> as Device>⟧.answers self.old) result }
        ensures mem { (⟦<Leased<D> as GuestBytes>⟧.mem self.new) ≡
            ⟦<Leased<D> as GuestBytes>⟧.mem self.old }
        ensures found { AnswersAs self.new.pass.found result }
    {
        let Some(number) = self.pass.claim() else {
            return Claimed::NoFrame;
        };
        match Frame::fresh(self.pass.alloc(), number) {
            Ok(frame) => Claimed::Gave(frame),
            Err(_) => {
                self.pass.put_back(number);
                Claimed::NoMemory
            }
        }
    }

    #[tactic(auto, using(crate::proofs::Lists::without_none))]
    fn put_back(&mut self, frame: Frame) -> Option<Frame> {
        if self.pass.put_back(frame.number()) {
            None
        } else {
            Some(frame)
        }
    }
}

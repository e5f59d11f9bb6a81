//! Balloon devices of both paces (profile).

mod chains;
mod memory;
mod served;
mod status;

ghost use Rattle.std.specs.Prelude.{◌≡◌, [], true, false};
ghost use Rattle.std.specs.Prelude.{vec_capacity};
ghost use Rattle.vb_virtio.specs.declared.limits.TheConstants.{MAX_QUEUE_SIZE};
ghost use Rattle.vb_device.specs.Base.{IsPlain, fresh_device};
ghost use Rattle.vb_device.specs.Calls.{IsUnused};

use crate::discarding::discard_memory;
use crate::pace::{Immediate, Pace, Paced};
use crate::queue::DeviceQueue;
use crate::queues::{index_of, new_queues};
use crate::{Claimed, Device, Statistics, Worked};
use bitflags::Flags;
use chains::note_fault;
use std::alloc::{AllocError, Global};
use std::marker::{Model, PhantomData};
use vb_bits::BitSet;
use vb_chain::Chain;
use vb_ram::{Config, Frame, Ram, Shape, SupplyRefused};
use vb_status::{Features, Status};
use vb_virtio::layout::STATISTICS_QUEUE;
use vb_virtio::{Refusal, limits};

/// A device that discards an inflate's pages when it finishes the request.
pub type ImmediateDevice = BalloonDevice<Immediate>;

/// A device that visits an inflate's pages one by one, and discards each, before it finishes the
/// request.
pub type PacedDevice = BalloonDevice<Paced>;

/// A balloon device that has no frames of its own. It is paced or not: the paces differ in `paced`,
/// in `work`, and in what `finish` is refused for.
#[derive(Drop)]
pub struct BalloonDevice<P: Pace> {
    /// The memory of its guest; that of a device with no guest has no pages.
    ram: Ram,
    /// The status that the driver sees.
    status: Status,
    /// The features that the driver negotiated.
    features: Features,
    /// How many pages the host wants in the balloon (`num_pages`).
    target: u32,
    /// How many the driver says are there (`actual`).
    actual: u32,
    /// The pages that are ballooned.
    ballooned: BitSet,
    /// How many descriptors each queue has.
    queue_size: u16,
    /// The queues, those of inflates, deflates, statistics and reports.
    queues: [DeviceQueue; 4],
    /// What the last buffer of statistics said.
    last: Statistics,
    /// Frames that were taken from pages and not handed back yet.
    loose: Vec<Frame>,
    /// Room for the chain that is taken next.
    chain: Chain,
    /// Its pace.
    pace: PhantomData<P>,
}

impl<P: Pace> Model for BalloonDevice<P> {
    ghost use Rattle.std.specs.Prelude.{◌≡◌, vec_capacity, length};
    ghost use Rattle.vb_status.specs.Bits.{status_bits, feature_bits};
    ghost use Rattle.vb_device.specs.State.{DeviceState};
    ghost use Rattle.vb_device.specs.Base.{base_part, IsBase};

    ghost Value = { DeviceState };

    ghost view = { λ s. record {
      mem = s.ram;
      part = base_part (status_bits s.status) (feature_bits s.features)
          s.target s.actual s.queue_size s.queues
          (record { free = s.last.free; total = s.last.total }) s.loose.items
          s.ballooned P.IS_PACED;
    } };

    ghost invariant = { λ s.
        IsBase s.ram (status_bits s.status) s.queue_size s.queues (vec_capacity s.loose)
        × (length s.ballooned ≡ length s.ram) };
}

impl<P: Pace> BalloonDevice<P> {
    /// A device of this pace that no guest has yet.
    pub fn of_pace(alloc: Global) -> Self
        ensures new { result ≡ fresh_device P.IS_PACED }
        ensures unused { IsUnused result.mem result.part }
        ensures paced { result.part.paced ≡ P.IS_PACED }
        ensures keeps { result.part.keeps ≡ false }
        ensures own { result.part.own ≡ [] }
    {
        let shape = Shape {
            queue_size: limits::MAX_QUEUE_SIZE as u16,
        };
        BalloonDevice {
            ram: Ram::empty(alloc),
            status: Status::empty(),
            features: Features::empty(),
            target: 0,
            actual: 0,
            ballooned: BitSet::empty(alloc),
            queue_size: shape.queue_size,
            queues: new_queues(shape),
            last: Statistics::NONE,
            loose: Vec::new(alloc),
            chain: Chain::new(),
            pace: PhantomData,
        }
    }

    /// The device has no frames of its own.
    fn is_plain(&self)
        ensures { IsPlain self.now.part }
    {
        let _ = &self.status;
    }
}

impl ImmediateDevice {
    /// An immediate device that no guest has yet.
    pub fn new(alloc: Global) -> ImmediateDevice
        ensures new { result ≡ fresh_device false }
        ensures unused { IsUnused result.mem result.part }
        ensures paced { result.part.paced ≡ false }
        ensures keeps { result.part.keeps ≡ false }
        ensures own { result.part.own ≡ [] }
    {
        BalloonDevice::of_pace(alloc)
    }
}

impl PacedDevice {
    /// A paced device that no guest has yet.
    pub fn new(alloc: Global) -> PacedDevice
        ensures new { result ≡ fresh_device true }
        ensures unused { IsUnused result.mem result.part }
        ensures paced { result.part.paced ≡ true }
        ensures keeps { result.part.keeps ≡ false }
        ensures own { result.part.own ≡ [] }
    {
        BalloonDevice::of_pace(alloc)
    }
}

impl<P: Pace> Device for BalloonDevice<P> {
    ghost answers = { λ _ _. false };

    fn attach(&mut self, alloc: Global, config: Config) -> Result<(), AllocError> {
        let ballooned = BitSet::new(alloc, config.pages)?;
        let Ok(ram) = Ram::new(alloc, config.pages) else {
            return Err(AllocError);
        };
        let mut loose = Vec::new(alloc);
        loose.reserve(config.pages as usize)?;
        self.reset();
        self.ram = ram;
        self.ballooned = ballooned;
        self.loose = loose;
        self.target = 0;
        self.queue_size = config.queue_size;
        self.queues = new_queues(config.shape());
        Ok(())
    }

    fn supply(&mut self, page: u32, frame: Frame) -> Result<(), SupplyRefused> {
        self.ram.supply(page, frame)
    }

    fn backing(&self, page: u32) -> Option<u32> {
        self.ram.backing(page)
    }

    fn paced(&self) -> bool {
        // A no-op read: it gives the prover the device's view by its fields.
        let _ = &self.status;
        P::IS_PACED
    }

    fn keeps(&self) -> bool {
        self.is_plain();
        false
    }

    fn set_target(&mut self, pages: u32) {
        self.target = pages;
    }

    fn take(&mut self, queue: u32) -> Result<Option<u16>, Refusal> {
        if let Some(why) = self.take_refusal(queue) {
            return Err(why);
        }
        let place = index_of(queue);
        let taken = self.queues[place].take(&self.ram, &mut self.chain, &mut self.last);
        note_fault(&mut self.status, &taken);
        taken
    }

    fn work(&mut self) -> Result<Option<Worked>, Refusal> {
        if let Some(why) = self.readiness_refusal() {
            return Err(why);
        }
        if self.paced() {
            Ok(self.visit_next())
        } else {
            Ok(None)
        }
    }

    fn finish(&mut self, queue: u32, index: u32) -> Result<u16, Refusal> {
        let visits = self.paced();
        let head = self.settle(queue, index, visits)?;
        self.use_chain(queue, head);
        Ok(head)
    }

    fn serve(&mut self, queue: u32) -> Result<Option<u16>, Refusal> {
        if let Some(why) = self.serve_refusal(queue) {
            return Err(why);
        }
        match self.take(queue) {
            Err(why) => Err(why),
            Ok(None) => Ok(None),
            Ok(Some(head)) => {
                self.use_first(queue);
                Ok(Some(head))
            }
        }
    }

    fn sweep(&mut self, page: u32) -> Result<bool, Refusal> {
        if let Some(why) = self.readiness_refusal() {
            return Err(why);
        }
        if !self.features.must_tell_host() {
            return Err(Refusal::NoFeature);
        }
        if !self.ballooned.contains(page) {
            return Err(Refusal::NotBallooned);
        }
        Ok(self.discard(page))
    }

    fn ask_stats(&mut self) -> Result<(), Refusal> {
        let head = self.take_buffer()?;
        self.use_chain(STATISTICS_QUEUE, head);
        Ok(())
    }

    fn stats(&self) -> Statistics {
        self.last
    }

    fn ballooned(&self, page: u32) -> bool {
        self.ballooned.contains(page)
    }

    fn ballooned_count(&self) -> u32 {
        self.ballooned.len()
    }

    fn detach(&mut self) {
        self.reset();
        discard_memory(&mut self.ram, &mut self.loose);
    }

    fn pop_loose(&mut self) -> Option<Frame> {
        self.loose.pop()
    }

    fn claim(&mut self) -> Claimed {
        self.is_plain();
        Claimed::AskHost
    }

    fn put_back(&mut self, frame: Frame) -> Option<Frame> {
        self.is_plain();
        Some(frame)
    }
}

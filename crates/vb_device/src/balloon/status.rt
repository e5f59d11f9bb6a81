//! What a device's status and features refuse, and the driver's registers.

ghost use Rattle.std.specs.Prelude.{◌≡◌};
ghost use Rattle.vb_status.specs.After.{part_after_reset};
ghost use Rattle.vb_request.specs.Refusals.{readiness_refusal, take_refusal_by};
ghost use Rattle.vb_device.specs.BaseCalls.{queue_refusal};

use crate::Statistics;
use crate::balloon::BalloonDevice;
use crate::pace::Pace;
use crate::queues::set_all_ready;
use bitflags::Flags;
use vb_status::{Features, Port, Status, StatusFault, negotiate, write_status};
use vb_virtio::Refusal;
use vb_virtio::layout::{DEFLATE_QUEUE, INFLATE_QUEUE, REPORT_QUEUE};

impl<P: Pace> BalloonDevice<P> {
    /// `NotReady` where the driver isn't done with the initialisation or has given up, and
    /// `NeedsReset` after a fault.
    pub(super) fn readiness_refusal(&self) -> Option<Refusal>
        ensures { result ≡ readiness_refusal self.now.part.status }
    {
        vb_request::readiness_refusal(self.status)
    }

    /// `NoQueue` where no chain is finished on a queue of this number, or what the status alone
    /// refuses a call for.
    pub(super) fn queue_refusal(&self, queue: u32) -> Option<Refusal>
        ensures { result ≡ queue_refusal queue self.now.part.status }
    {
        if queue != INFLATE_QUEUE && queue != DEFLATE_QUEUE && queue != REPORT_QUEUE {
            return Some(Refusal::NoQueue);
        }
        self.readiness_refusal()
    }

    /// What a take is refused for by the queue's number, the status and the features.
    pub(super) fn take_refusal(&self, queue: u32) -> Option<Refusal>
        ensures { result ≡
            take_refusal_by queue self.now.part.status self.now.part.features }
    {
        vb_request::take_refusal(queue, self.status, self.features)
    }

    /// Forgets what the driver did and said; the target stays.
    pub(super) fn reset(&mut self)
        ensures mem { self.new.mem ≡ self.old.mem }
        ensures part { self.new.part ≡ part_after_reset self.old.part }
    {
        self.status = Status::empty();
        self.features = Features::empty();
        self.actual = 0;
        self.ballooned.clear();
        self.last = Statistics::NONE;
        set_all_ready(&mut self.queues, false);
    }
}

impl<P: Pace> Port for BalloonDevice<P> {
    fn status(&self) -> Status {
        self.status
    }

    fn write_status(&mut self, write: Status) -> Result<(), StatusFault> {
        let status = write_status(self.status, self.features, write)?;
        if write.is_empty() {
            self.reset();
            return Ok(());
        }
        let starts = write.contains(Status::DRIVER_OK) && !self.status.contains(Status::DRIVER_OK);
        self.status = status;
        if starts {
            set_all_ready(&mut self.queues, true);
        }
        Ok(())
    }

    fn negotiate(&mut self, wanted: Features) -> Result<(), StatusFault> {
        self.features = negotiate(self.status, wanted)?;
        Ok(())
    }

    fn target(&self) -> u32 {
        self.target
    }

    fn set_actual(&mut self, pages: u32) {
        self.actual = pages;
    }
}

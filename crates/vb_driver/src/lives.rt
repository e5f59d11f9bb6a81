//! A guest's driver starts, and starts over (VIRTIO 1.1, 2.1 and 3.1.1).

ghost use Rattle.std.specs.Prelude.{◌≡◌, ◌<◌, ℕ, true};
ghost use Rattle.vb_virtio.specs.Limits.{page_size};
ghost use Rattle.vb_virtio.specs.Layout.{is_ring_page};
ghost use Rattle.vb_virtio.specs.Features.{stats_vq};
ghost use Rattle.vb_ram.specs.Pages.{byte_at};
ghost use Rattle.vb_status.specs.After.{part_after_reset, with_new_queues};
ghost use Rattle.vb_status.specs.Answers.{refusal_of_fault};
ghost use Rattle.vb_status.specs.Bits.{feature_bits};
ghost use Rattle.vb_driver.specs.Answers.{HaveRingFrames, IsLargeEnough, has_frames};
ghost use Rattle.vb_driver.specs.State.{IsDriver, fresh_driver, fresh_statistics};
ghost use Rattle.vb_driver.specs.Calls.{IsNewRing, FirstBuffer, InitsBy, NegotiatesBy, ResetsBy};
ghost use Rattle.vb_driver.specs.Calls.{with_nothing_out};

use crate::Driver;
use crate::memory::{all_backed, zero_rings};
use crate::reaping::give_up;
use bitflags::Flags;
use vb_ram::GuestBytes;
use vb_status::{Features, Port, Status, StatusFault};
use vb_virtio::Refusal;

/// A refusal in the words of the driver's calls.
fn refusal_of(fault: StatusFault) -> Refusal
    ensures { result ≡ refusal_of_fault fault }
{
    match fault {
        StatusFault::ClearsBit => Refusal::ClearsBit,
        StatusFault::OutOfOrder => Refusal::OutOfOrder,
        StatusFault::FeatureNotOffered => Refusal::FeatureNotOffered,
        StatusFault::MustTellHostMissing => Refusal::NoFeature,
        StatusFault::VersionMissing => Refusal::VersionMissing,
    }
}

/// Resets the device, and tells it that a driver has found it and knows what it is.
fn begin<P: Port>(port: &mut P)
    ensures part { P.part port.new ≡ record (part_after_reset (P.part port.old)) { status = 3 } }
    ensures mem { P.mem port.new ≡ P.mem port.old }
{
    let _ = port.write_status(Status::empty());
    let _ = port.write_status(Status::ACKNOWLEDGE);
    let _ = port.write_status(Status::ACKNOWLEDGE.union(Status::DRIVER));
}

impl Driver {
    /// Resets the device, so that nothing is out and no page counts as given to the host, and then
    /// agrees with it on the features, or gives up.
    fn negotiate<P: Port>(&mut self, port: &mut P, wanted: Features) -> Result<(), Refusal>
        ensures { NegotiatesBy (P.mem port.old) (P.mem port.new) (P.part port.old) (P.part port.new)
            self.old self.new (feature_bits wanted) result }
    {
        begin(port);
        self.renew();
        self.features = Features::empty();
        self.actual = 0;
        if port.negotiate(wanted).is_err() {
            give_up(port);
            return Err(Refusal::FeatureNotOffered);
        }
        self.features = wanted;
        let agreed = port.status().union(Status::FEATURES_OK);
        if let Err(fault) = port.write_status(agreed) {
            give_up(port);
            return Err(refusal_of(fault));
        }
        Ok(())
    }

    /// Begins all queues anew, with nothing out.
    fn renew(&mut self)
        ensures driver { IsDriver self.old }
        ensures state { self.new ≡ with_nothing_out self.old }
    {
        let shape = self.config.shape();
        self.inflate.renew(shape);
        self.deflate.renew(shape);
        self.statistics.renew(shape);
        self.report.renew(shape);
    }

    /// Posts the first statistics buffer, where the rings lie in pages of zeros and nothing is out,
    /// and tells the device that the queues are ready.
    fn start<P: Port>(&mut self, port: &mut P)
        requires status { (P.part port.old).status ≡ 11 }
        requires memory { IsLargeEnough (P.mem port.old) }
        requires backed { HaveRingFrames self.old.queue_size (P.mem port.old) }
        requires new { self.old ≡ with_nothing_out self.old }
        requires zeros { (page offset : ℕ) → is_ring_page self.old.queue_size page ≡ true
            → offset < page_size
            → byte_at (P.mem port.old) page offset ≡ 0 }
        ensures part { P.part port.new
            ≡ record (with_new_queues (P.part port.old)) { status = 15 } }
        ensures driver { self.new ≡ record self.old { statistics = self.new.statistics } }
        ensures inflate { IsNewRing (P.mem port.new) self.new.inflate.ring }
        ensures deflate { IsNewRing (P.mem port.new) self.new.deflate.ring }
        ensures report { IsNewRing (P.mem port.new) self.new.report.ring }
        ensures statistics { IsNewRing (P.mem port.old) (fresh_statistics self.old.queue_size) }
        ensures buffer { FirstBuffer (stats_vq self.old.features)
            (P.mem port.old) (P.mem port.new) self.old self.new }
    {
        self.fill_first(port);
        let ready = port.status().union(Status::DRIVER_OK);
        let _ = port.write_status(ready);
    }

    /// Whether all pages of rings and buffers have frames: `init` wants it, and of a device that is
    /// up so do the calls that post.
    pub fn has_frames<G: GuestBytes>(&self, memory: &G) -> bool
        ensures value { result ≡ has_frames self.now.queue_size (G.mem memory.now) }
        ensures backed { result ≡ true → HaveRingFrames self.now.queue_size (G.mem memory.now) }
    {
        all_backed(memory, self.config.shape())
    }

    /// Initialises the device with these features (VIRTIO 1.1, 3.1.1 and 5.5.5): the rings' pages
    /// are zeroed, and nothing is out from then on but the statistics buffer, where STATS_VQ is
    /// among them. The driver can be initialised again only once the device was reset.
    ///
    /// Refused for `AlreadyUp` (the status isn't 0), `NoFrame` (one of the pages of the rings and
    /// buffers has no frame); then nothing is changed. Refused for `FeatureNotOffered`
    /// and `VersionMissing` (VERSION_1 is needed): the driver gives up then, by FAILED in the
    /// status, nothing is out any more, and no page counts as given to the host.
    pub fn init<P: Port>(&mut self, port: &mut P, wanted: Features) -> Result<(), Refusal>
        requires memory { IsLargeEnough (P.mem port.old) }
        ensures { InitsBy (P.mem port.old) (P.mem port.new) (P.part port.old) (P.part port.new)
            self.old self.new (feature_bits wanted) result }
    {
        // A no-op read: it gives the prover the type's invariant on the path of a refusal.
        let _places = &self.places;
        if !port.status().is_empty() {
            return Err(Refusal::AlreadyUp);
        }
        let shape = self.config.shape();
        if !all_backed(port, shape) {
            return Err(Refusal::NoFrame);
        }
        self.negotiate(port, wanted)?;
        zero_rings(port, shape);
        self.start(port);
        Ok(())
    }

    /// Resets the device: nothing is out any more and no feature is accepted. Pages that were lent,
    /// or named by a request, are stranded: the host may have them, and they are offered first once
    /// the device is initialised again.
    pub fn reset<P: Port>(&mut self, port: &mut P)
        ensures { ResetsBy (P.mem port.old) (P.mem port.new) (P.part port.old) (P.part port.new)
            self.old self.new }
    {
        let _ = port.write_status(Status::empty());
        self.renew();
        self.areas.give_reported(&self.places);
        self.places.strand();
        self.features = Features::empty();
        self.actual = 0;
    }

    /// Begins a new life (profile): resets the device, and all is as when the guest was plugged in.
    /// Every unreserved page is free, in the page areas, and no allocation is held.
    pub fn restart<P: Port>(&mut self, port: &mut P)
        ensures memory { P.mem port.new ≡ P.mem port.old }
        ensures part { P.part port.new ≡ part_after_reset (P.part port.old) }
        ensures driver { self.new
            ≡ fresh_driver self.old.pages self.old.queue_size self.old.processors }
    {
        self.reset(port);
        self.places.renew(self.config.shape().reserved_pages());
        self.areas.renew();
    }
}

//! What a host sees of a device.

ghost use Rattle.std.specs.Prelude.{◌≡◌, ◌≤◌, ◌<◌, ℕ, Bool, [], true, false, None, IsSome, IsOk};
ghost use Rattle.std.specs.Prelude.{OnOk, OnErr, length, replicate, count_by};
ghost use Rattle.vb_model.specs.declared.calls.Claim.{Claim};
ghost use Rattle.vb_virtio.specs.declared.layout.TheConstants.{STATISTICS_QUEUE};
ghost use Rattle.vb_model.specs.Guest.{is_ballooned};
ghost use Rattle.vb_virtio.specs.Limits.{is_config};
ghost use Rattle.vb_virtio.specs.Status.{contains, driver_ok};
ghost use Rattle.vb_ram.specs.Pages.{frame_at, Supplied, IsWhole};
ghost use Rattle.vb_ring.specs.Layout.{IsBacked};
ghost use Rattle.vb_device.specs.Queues.{queue_layout};
ghost use Rattle.vb_device.specs.Calls.{IsUnused, attached, TakesBy, WorksBy, FinishesBy};
ghost use Rattle.vb_device.specs.Calls.{AsksBy, ServesBy, SweepsBy, DetachesBy, PopsLoose};
ghost use Rattle.vb_device.specs.Calls.{HandsBack, Claims};
ghost use Rattle.vb_device.specs.Calls.{IsAnswered, PutsBack};

use crate::{Claimed, Statistics, Worked};
use std::alloc::{AllocError, Global};
use vb_ram::{Config, Frame, RamFault, SupplyRefused};
use vb_status::Port;
use vb_virtio::Refusal;

/// A balloon device with the memory of its guest (VIRTIO 1.1, 5.5). What a driver sees of it is its
/// `Port`; the calls here are the host's.
///
/// A guest's life on it begins with `attach` and ends with `detach`. A frame that a call takes from
/// a page is loose in the device until `hand_back` gives it out or takes it back.
/// Only `attach` takes memory, and `claim` of a device that has frames of its own.
pub trait Device: Port + Drop {
    /// Whether the device, as it is, may answer the claim of a frame of its own so.
    ghost answers: { Self → Claim → Bool };

    /// Gives an unused device a guest of this size: memory with no frame, and nothing initialised.
    /// Refused on an allocation failure alone; then nothing is changed.
    fn attach(&mut self, alloc: Global, config: Config) -> Result<(), AllocError>
        requires unused { IsUnused (Self.mem self.old) (Self.part self.old) }
        requires config { is_config config.pages config.queue_size config.processors ≡ true }
        ensures mem { OnOk result (Self.mem self.new ≡ replicate config.pages None) }
        ensures part { OnOk result (Self.part self.new ≡ attached config (Self.part self.old)) }
        ensures err { OnErr result (Self.mem self.new ≡ Self.mem self.old ×
            (Self.part self.new ≡ Self.part self.old)) };

    /// Backs a page with a frame, and fills it with zeros: what the frame held is gone.
    ///
    /// Refused with `OutOfRam` where there is no such page, then with `AlreadyBacked` where the
    /// page has a frame. A refused call gives the frame back as it was, and changes nothing.
    fn supply(&mut self, page: u32, frame: Frame) -> Result<(), SupplyRefused>
        ensures answers { page < length (Self.mem self.old) →
            frame_at (Self.mem self.old) page ≡ None → IsOk result }
        ensures out_of_ram { length (Self.mem self.old) ≤ page →
            result ≡ Err (record { fault = RamFault.OutOfRam; frame = frame }) }
        ensures already_backed { page < length (Self.mem self.old) →
            IsSome (frame_at (Self.mem self.old) page) →
            result ≡ Err (record { fault = RamFault.AlreadyBacked; frame = frame }) }
        ensures ok { OnOk result
            (Supplied (Self.mem self.old) (Self.mem self.new) page frame.number) }
        ensures err { OnErr result (Self.mem self.new ≡ Self.mem self.old) }
        ensures part { Self.part self.new ≡ Self.part self.old };

    /// The number of the frame that backs a page; none where the page has no frame or there is no
    /// such page.
    fn backing(&self, page: u32) -> Option<u32>
        ensures frame { result ≡ frame_at (Self.mem self.now) page }
        ensures whole { IsWhole (Self.mem self.now) };

    /// Whether the device visits the pages of an inflate or a report one by one before it finishes
    /// the request (profile).
    fn paced(&self) -> bool
        ensures { result ≡ (Self.part self.now).paced };

    /// Whether the device has frames of its own (profile). No call changes it, and one that has
    /// none has given none out.
    fn keeps(&self) -> bool
        ensures flag { result ≡ (Self.part self.now).keeps }
        ensures none { result ≡ false → (Self.part self.now).own ≡ [] };

    /// Sets how many pages the host wants in the balloon (`num_pages`).
    fn set_target(&mut self, pages: u32)
        ensures part { Self.part self.new ≡ record (Self.part self.old) { target = pages } }
        ensures mem { Self.mem self.new ≡ Self.mem self.old };

    /// Takes the next chain that the driver has made available on a queue; answers its head, or
    /// none where no chain is available. Of a request (queue 0 or 1) or a report (4) it remembers
    /// the pages, of a buffer of statistics (2) what it says.
    ///
    /// Refused with `NoQueue`, `NotReady`, `NeedsReset`, `NoQueue` where the queue's feature wasn't
    /// accepted, and `Busy` where 16 chains of the queue, or one of queue 2, are taken, tested in
    /// this order; then with `Broken` where the bytes that the driver wrote break a rule:
    /// DEVICE_NEEDS_RESET is set then. Nothing else is changed by a refusal.
    fn take(&mut self, queue: u32) -> Result<Option<u16>, Refusal>
        ensures { TakesBy queue (Self.mem self.old) (Self.mem self.new)
            (Self.part self.old) (Self.part self.new) result };

    /// Visits the next page of the requests that are taken, where the device is paced (profile):
    /// the oldest request's first, and of a request its pages in their order. Takes the page's
    /// frame away, if it has one. None where every page of every taken request is visited, and
    /// always where the device is immediate.
    ///
    /// Refused with `NotReady` and `NeedsReset`, tested in this order. A refusal changes nothing.
    fn work(&mut self) -> Result<Option<Worked>, Refusal>
        requires { (Self.part self.old).loose ≡ [] }
        ensures { WorksBy (Self.mem self.old) (Self.mem self.new)
            (Self.part self.old) (Self.part self.new) result };

    /// Uses the taken chain of this number, from 0, on a queue; answers its head. An inflate's
    /// pages lose the frames that they still have and become ballooned, a deflate's stop being
    /// ballooned.
    ///
    /// Refused with `NoQueue`, `NotReady`, `NeedsReset`, `NotTaken` where there is no such chain,
    /// and `NotWorked` where a paced device hasn't visited all its pages, tested in this order. A
    /// refusal changes nothing.
    fn finish(&mut self, queue: u32, index: u32) -> Result<u16, Refusal>
        requires backed { contains (Self.part self.old).status driver_ok ≡ true →
            IsBacked (Self.mem self.old) (queue_layout queue (Self.part self.old)) }
        requires none { (Self.part self.old).loose ≡ [] }
        ensures { FinishesBy queue index (Self.mem self.old) (Self.mem self.new)
            (Self.part self.old) (Self.part self.new) result };

    /// Serves the next chain that the driver has made available on a queue: takes it, visits each
    /// of its pages, whatever the device's pace, and uses it; answers its head, or none where no
    /// chain is available. A buffer of statistics (2) is taken alone, and stays taken.
    ///
    /// Refused with `NoQueue`, `NotReady`, `NeedsReset`, `NoQueue` where the queue's feature wasn't
    /// accepted, and `Busy` where any chain of the queue is taken, tested in this order; then with
    /// `Broken` as a take is: DEVICE_NEEDS_RESET is set then. Nothing else is changed by a refusal.
    fn serve(&mut self, queue: u32) -> Result<Option<u16>, Refusal>
        requires backed { contains (Self.part self.old).status driver_ok ≡ true →
            IsBacked (Self.mem self.old) (queue_layout queue (Self.part self.old)) }
        requires none { (Self.part self.old).loose ≡ [] }
        ensures { ServesBy queue (Self.mem self.old) (Self.mem self.new)
            (Self.part self.old) (Self.part self.new) result };

    /// Takes the frame of a ballooned page away; answers whether it had one.
    ///
    /// Refused with `NotReady`, `NeedsReset`, `NoFeature` where MUST_TELL_HOST wasn't negotiated (a
    /// driver may use a page again then before the device knows), and `NotBallooned`, tested in
    /// this order; a refusal changes nothing.
    fn sweep(&mut self, page: u32) -> Result<bool, Refusal>
        requires { (Self.part self.old).loose ≡ [] }
        ensures { SweepsBy page (Self.mem self.old) (Self.mem self.new)
            (Self.part self.old) (Self.part self.new) result };

    /// Uses the statistics buffer that was taken, so that the driver fills it anew (VIRTIO 1.1,
    /// 5.5.6.3). Refused with `NotReady`, `NeedsReset`, and `NotTaken` where none is taken, tested
    /// in this order; a refusal changes nothing.
    fn ask_stats(&mut self) -> Result<(), Refusal>
        requires backed { contains (Self.part self.old).status driver_ok ≡ true →
            IsBacked (Self.mem self.old) (queue_layout STATISTICS_QUEUE (Self.part self.old)) }
        ensures { AsksBy (Self.mem self.old) (Self.mem self.new)
            (Self.part self.old) (Self.part self.new) result };

    /// What the last buffer of statistics said, each figure in bytes.
    fn stats(&self) -> Statistics
        ensures free { result.free ≡ (Self.part self.now).last.free }
        ensures total { result.total ≡ (Self.part self.now).last.total };

    /// Whether the page is ballooned.
    fn ballooned(&self, page: u32) -> bool
        ensures { result ≡ is_ballooned (Self.part self.now).ballooned page };

    /// How many pages are ballooned.
    fn ballooned_count(&self) -> u32
        ensures { result ≡ count_by (λ flag. flag) (Self.part self.now).ballooned };

    /// Ends the guest's life on the device: it is reset (VIRTIO 1.1, 2.1), its target kept, and the
    /// frames of all pages are taken away, to be handed back. No frame may be loose before.
    fn detach(&mut self)
        requires { (Self.part self.old).loose ≡ [] }
        ensures { DetachesBy (Self.mem self.old) (Self.mem self.new)
            (Self.part self.old) (Self.part self.new) };

    /// Gives out one of the loose frames, the device's own or another's, in whatever order; none
    /// exactly where no frame is loose.
    fn pop_loose(&mut self) -> Option<Frame>
        ensures frame { PopsLoose (Self.part self.old) (Self.part self.new) result }
        ensures mem { Self.mem self.new ≡ Self.mem self.old };

    /// Gives out one of the loose frames that aren't the device's own, in whatever order; those of
    /// its own that it meets it takes back. None exactly where no loose frame is another's: then it
    /// has taken all of them back.
    fn hand_back(&mut self) -> Option<Frame>
        ensures frame { HandsBack (Self.part self.old) (Self.part self.new) result }
        ensures mem { Self.mem self.new ≡ Self.mem self.old }
    {
        while let Some(frame) = self.pop_loose() {
            if let Some(other) = self.put_back(frame) {
                return Some(other);
            }
        }
        None
    }

    /// Claims a frame of the device's own for a page of its guest. A refused claim leaves the same
    /// frames out.
    fn claim(&mut self) -> Claimed
        ensures frame { Claims (Self.part self.old) (Self.part self.new) result }
        ensures answered { IsAnswered (answers self.old) result }
        ensures mem { Self.mem self.new ≡ Self.mem self.old };

    /// Takes a frame back that the device gave out of its own; any other comes back to the caller.
    fn put_back(&mut self, frame: Frame) -> Option<Frame>
        ensures frame { PutsBack (Self.part self.old) (Self.part self.new) frame result }
        ensures mem { Self.mem self.new ≡ Self.mem self.old };
}

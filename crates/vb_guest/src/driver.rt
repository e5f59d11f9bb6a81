//! What a guest's balloon driver does with its pages and with its device.

ghost use Rattle.vb_ram.specs.Pages.{Pages};
ghost use Rattle.vb_ram.specs.Part.{Part};
ghost use Rattle.vb_driver.specs.Calls.{AllocatesBy, FreesBy, InflatesBy, DeflatesBy};
ghost use Rattle.vb_driver.specs.Calls.{DeflatesOnOomBy, ReportsBy, FillsBy, ReapsBy};
ghost use Rattle.vb_guest.specs.Promises.{EachStepsAlone, SomeGuest};
ghost use Rattle.vb_guest.specs.Replies.{done_reply, page_reply, posted_reply, reaped_reply};
ghost use Rattle.vb_guest.specs.Replies.{filled_reply};

use vb_device::Device;
use vb_driver::{Driver, Posted, Reaped};
use vb_model::Call;
use vb_virtio::Refusal;

/// A processor asks for a block of 2^order pages (Gorman, chapter 6); answers its first page, which
/// is the one that the processor's list or the page areas give by their rule. Refused with
/// `BadOrder`, `BadCpu` and `NoPages`, tested in this order.
pub fn alloc(driver: &mut Driver, cpu: u32, order: u32) -> Result<u32, Refusal>
    ensures step { (mem : Pages) (part : Part) → EachStepsAlone mem mem part part driver.old
        driver.new (Call.Alloc cpu order)
        (page_reply result) }
    ensures exact { AllocatesBy driver.old driver.new cpu order result }
{
    driver.alloc(cpu, order)
}

/// A processor gives a block back that an allocation answered (Gorman, chapter 6). Refused with
/// `BadOrder`, `BadCpu` and `NotHeld`, tested in this order.
pub fn free(driver: &mut Driver, cpu: u32, start: u32, order: u32) -> Result<(), Refusal>
    ensures step { (mem : Pages) (part : Part) → EachStepsAlone mem mem part part driver.old
        driver.new (Call.Free cpu start order)
        (done_reply result) }
    ensures exact { FreesBy driver.old driver.new cpu start order result }
{
    driver.free(cpu, start, order)
}

/// The driver offers up to this many pages to the host (VIRTIO 1.1, 5.5.6). Refused with
/// `NotReady`, `QueueFull`, without MUST_TELL_HOST `DeflatePending` while a deflate request is out,
/// and `Nothing`, tested in this order.
pub fn inflate<D: Device>(
    driver: &mut Driver,
    device: &mut D,
    pages: u32,
) -> Result<Posted, Refusal>
    requires { SomeGuest (D.mem device.old) (D.part device.old) driver.old }
    ensures step { EachStepsAlone (D.mem device.old) (D.mem device.new) (D.part device.old)
        (D.part device.new) driver.old driver.new (Call.Inflate pages) (posted_reply result) }
    ensures exact { InflatesBy (D.mem device.old) (D.mem device.new)
        (D.part device.old) (D.part device.new) driver.old driver.new pages result }
{
    driver.inflate(device, pages)
}

/// The driver asks for up to this many pages back, as far as the target allows (VIRTIO 1.1, 5.5.6).
/// Refused with `NotReady`, `QueueFull` and `Nothing`, tested in this order.
pub fn deflate<D: Device>(
    driver: &mut Driver,
    device: &mut D,
    pages: u32,
) -> Result<Posted, Refusal>
    requires { SomeGuest (D.mem device.old) (D.part device.old) driver.old }
    ensures step { EachStepsAlone (D.mem device.old) (D.mem device.new) (D.part device.old)
        (D.part device.new) driver.old driver.new (Call.Deflate pages) (posted_reply result) }
    ensures exact { DeflatesBy (D.mem device.old) (D.mem device.new)
        (D.part device.old) (D.part device.new) driver.old driver.new pages result }
{
    driver.deflate(device, pages)
}

/// The driver asks for up to this many pages back, whatever the target (VIRTIO 1.1, 5.5.6, with
/// DEFLATE_ON_OOM). Refused with `NotReady`, `NoFeature`, `QueueFull` and `Nothing`, tested in this
/// order.
pub fn oom<D: Device>(driver: &mut Driver, device: &mut D, pages: u32) -> Result<Posted, Refusal>
    requires { SomeGuest (D.mem device.old) (D.part device.old) driver.old }
    ensures step { EachStepsAlone (D.mem device.old) (D.mem device.new) (D.part device.old)
        (D.part device.new) driver.old driver.new (Call.Oom pages) (posted_reply result) }
    ensures exact { DeflatesOnOomBy (D.mem device.old) (D.mem device.new)
        (D.part device.old) (D.part device.new) driver.old driver.new pages result }
{
    driver.oom(device, pages)
}

/// The driver reports its first free blocks of order 4 or more, from this page on, to the host
/// (profile). Refused with `NotReady`, `NoFeature`, `QueueFull` and `Nothing`, tested in this
/// order.
pub fn report<D: Device>(driver: &mut Driver, device: &mut D, from: u32) -> Result<Posted, Refusal>
    requires { SomeGuest (D.mem device.old) (D.part device.old) driver.old }
    ensures step { EachStepsAlone (D.mem device.old) (D.mem device.new) (D.part device.old)
        (D.part device.new) driver.old driver.new (Call.Report from) (posted_reply result) }
    ensures exact { ReportsBy (D.mem device.old) (D.mem device.new)
        (D.part device.old) (D.part device.new) driver.old driver.new from result }
{
    driver.report(device, from)
}

/// The driver fills the statistics buffer anew where the device has used it, and answers whether it
/// has (VIRTIO 1.1, 5.5.6.3). Refused with `NotReady` and `NoFeature`, then with `RingBroken` where
/// the used ring of a rogue guest says what no device says: the driver gives up then, by FAILED in
/// the status. Tested in this order.
pub fn stats<D: Device>(driver: &mut Driver, device: &mut D) -> Result<bool, Refusal>
    requires { SomeGuest (D.mem device.old) (D.part device.old) driver.old }
    ensures step { EachStepsAlone (D.mem device.old) (D.mem device.new) (D.part device.old)
        (D.part device.new) driver.old driver.new Call.Stats
        (filled_reply result) }
    ensures exact { FillsBy (D.mem device.old) (D.mem device.new)
        (D.part device.old) (D.part device.new) driver.old driver.new result }
{
    driver.stats(device)
}

/// The driver takes the next used request of a queue (VIRTIO 1.1, 2.6.14); answers none where none
/// is new. Refused with `NoQueue`, `NotReady` and, on the queue of reports, `NoFeature`, then with
/// `RingBroken` where the used ring of a rogue guest says what no device says: the driver gives up
/// then, by FAILED in the status. Tested in this order.
pub fn reap<D: Device>(
    driver: &mut Driver,
    device: &mut D,
    queue: u32,
) -> Result<Option<Reaped>, Refusal>
    requires { SomeGuest (D.mem device.old) (D.part device.old) driver.old }
    ensures step { EachStepsAlone (D.mem device.old) (D.mem device.new) (D.part device.old)
        (D.part device.new) driver.old driver.new (Call.Reap queue) (reaped_reply result) }
    ensures exact { ReapsBy (D.mem device.old) (D.mem device.new)
        (D.part device.old) (D.part device.new) driver.old driver.new queue result }
{
    driver.reap(device, queue)
}

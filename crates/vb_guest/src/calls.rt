//! Calls on a guest and questions about it, told apart by their names.

ghost use Rattle.std.specs.Prelude.{◌≡◌};
ghost use Rattle.vb_guest.specs.Dispatch.{CallsBy, LeavesAlone};
ghost use Rattle.vb_guest.specs.Promises.{EachAnswers, EachSteps, SomeGuest, SomeGuestOut, moment};

use crate::device::{ask, finish, set_target, sweep, take, work};
use crate::driver::{deflate, free, inflate, oom, reap, report, stats};
use crate::frames::Claims;
use crate::lives::{init, reset};
use crate::memory::{read, scribble, write};
use crate::queries::{balloon, pages_at, pages_ballooned, places, statistics};
use crate::replies::{
    asked_reply, balloon_reply, bytes_reply, done_reply, filled_reply, finished_reply, page_reply,
    posted_reply, ready_reply, reaped_reply, runs_reply, served_reply, statistics_reply,
    swept_reply, taken_reply, worked_reply,
};
use crate::serving::serve;
use std::alloc::Global;
use vb_device::Device;
use vb_driver::Driver;
use vb_frames::FrameKeeper;
use vb_model::{Call, Query, Reply};

/// Answers a call on the guest that the driver and the device represent, which is a step of that
/// guest. Frames that its pages gain are claimed from the device, where it keeps frames of its own,
/// else from the keeper, and those that they lose go back there. Notes what the claims were
/// answered.
pub fn call<D: Device, K: FrameKeeper>(
    alloc: Global,
    driver: &mut Driver,
    device: &mut D,
    keeper: &mut K,
    claims: &mut Claims,
    call: &Call,
) -> Reply
    requires stands { SomeGuestOut (D.mem device.old) (D.part device.old) driver.old
        (K.out keeper.old) }
    ensures step { EachSteps K.answers
        (moment (D.mem device.old) (D.part device.old) driver.old (K.out keeper.old))
        (moment (D.mem device.new) (D.part device.new) driver.new (K.out keeper.new))
        claims.new.items call.now result }
    ensures exact { CallsBy K.answers
        (moment (D.mem device.old) (D.part device.old) driver.old (K.out keeper.old))
        (moment (D.mem device.new) (D.part device.new) driver.new (K.out keeper.new))
        claims.new.items call.now result }
    ensures quiet { LeavesAlone (keeper.new ≡ keeper.old) (D.part device.old).keeps
        (D.mem device.old) (D.mem device.new) claims.new.items }
{
    claims.clear();
    match call {
        Call::Init { features } => ready_reply(init(driver, device, keeper, claims, *features)),
        Call::Alloc { cpu, order } => page_reply(crate::driver::alloc(driver, *cpu, *order)),
        Call::Free { cpu, start, order } => done_reply(free(driver, *cpu, *start, *order)),
        Call::Read { page, at, len } => {
            bytes_reply(read(alloc, driver, device, *page, *at, *len))
        }
        Call::Write { page, at, bytes } => done_reply(write(
            driver, device, keeper, claims, *page, *at, bytes,
        )),
        Call::Inflate { pages } => posted_reply(inflate(driver, device, *pages)),
        Call::Deflate { pages } => posted_reply(deflate(driver, device, *pages)),
        Call::Oom { pages } => posted_reply(oom(driver, device, *pages)),
        Call::Report { from } => posted_reply(report(driver, device, *from)),
        Call::Stats => filled_reply(stats(driver, device)),
        Call::Reap { queue } => reaped_reply(reap(driver, device, *queue)),
        Call::Take { queue } => taken_reply(take(device, *queue)),
        Call::Work => worked_reply(work(device, keeper)),
        Call::Finish { queue, index } => finished_reply(finish(device, keeper, *queue, *index)),
        Call::Serve { queue } => served_reply(serve(device, keeper, *queue)),
        Call::Sweep { page } => swept_reply(sweep(device, keeper, *page)),
        Call::Ask => asked_reply(ask(device)),
        Call::Reset => {
            reset(driver, device);
            Reply::Done
        }
        Call::SetTarget { pages } => {
            set_target(device, *pages);
            Reply::Done
        }
        Call::Scribble { page, at, bytes } => done_reply(scribble(
            device, keeper, claims, *page, *at, bytes,
        )),
    }
}

/// Answers a question about the guest that the driver and the device represent.
pub fn query<D: Device>(alloc: Global, driver: &Driver, device: &D, query: &Query) -> Reply
    requires stands { SomeGuest (D.mem device.now) (D.part device.now) driver.now }
    ensures answer { EachAnswers (D.mem device.now) (D.part device.now) driver.now query.now
        result }
{
    match query {
        Query::Places => Reply::Places {
            counts: places(driver),
        },
        Query::PagesAt(place) => runs_reply(pages_at(alloc, driver, *place)),
        Query::PagesBallooned => runs_reply(pages_ballooned(alloc, device)),
        Query::Balloon => balloon_reply(balloon(driver, device)),
        Query::Memory => statistics_reply(statistics(device)),
        Query::Backing { page } => Reply::Backing {
            frame: device.backing(*page),
        },
    }
}

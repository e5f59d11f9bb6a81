//! A balloon over regions: its start, its places, its status, and its going on elsewhere.

ghost use Rattle.std.specs.Prelude.{◌≡◌};
ghost use Rattle.vb_virtio.specs.Tests.{one_if};
ghost use Rattle.vb_monitor.specs.Balloons.{may_tell};
ghost use Rattle.vb_c.specs.Codes.{kind_of_code};
ghost use Rattle.vb_c.specs.Places.{StartsOver, MapsAnew, PlacesOverFor, SetsStatus, RestoresOver};
ghost use Rattle.vb_c.specs.Places.{code_of_restore};

use crate::kinds::kind_of_code;
use crate::registers::{code_in, number_in};
use crate::saving::code_of_state;
use vb_core::{Device, Settings};
use vb_monitor::{
    BAD_ARGUMENT, Balloon, MISPLACED, NO_QUEUE, OK, QueuePlace, Region, RestoreDenial, may_tell,
};

/// Each queue is to be looked at.
const LOOK: u32 = 1;

/// The set of ballooned pages is empty now.
const EMPTY: u32 = 2;

/// The code of an answer that has nothing but why a balloon isn't restored.
fn code_of_restore(answer: Result<(), RestoreDenial>) -> u32
    ensures { result ≡ code_of_restore answer }
{
    match answer {
        Ok(()) => OK,
        Err(RestoreDenial::State(why)) => code_of_state(why),
        Err(RestoreDenial::Elsewhere) => MISPLACED,
    }
}

/// Makes a balloon over regions, which waits for its driver.
#[unsafe(no_mangle)]
pub extern "C" fn vb_new_over(balloon: &mut Balloon, settings: Settings, regions: &[Region]) -> u32
    ensures { StartsOver settings regions.now balloon.old balloon.new result }
{
    match Balloon::over(settings, regions) {
        None => BAD_ARGUMENT,
        Some(made) => {
            *balloon = made;
            OK
        }
    }
}

/// These regions are guest memory from now on.
#[unsafe(no_mangle)]
pub extern "C" fn vb_set_regions(balloon: &mut Balloon, regions: &[Region]) -> u32
    ensures { MapsAnew regions.now balloon.old balloon.new result }
{
    if balloon.set_regions(regions) {
        OK
    } else {
        BAD_ARGUMENT
    }
}

/// Gives a queue its place over regions.
#[unsafe(no_mangle)]
pub extern "C" fn vb_place_over(
    balloon: &mut Balloon,
    regions: &[Region],
    kind: u32,
    at: QueuePlace,
) -> u32
    ensures { PlacesOverFor (kind_of_code kind) regions.now at.table at.avail at.used
        at.size balloon.old balloon.new result }
{
    match kind_of_code(kind) {
        None => NO_QUEUE,
        Some(kind) => code_in(balloon.place(regions, kind, at)),
    }
}

/// The driver writes the status register.
#[unsafe(no_mangle)]
pub extern "C" fn vb_set_status(balloon: &mut Balloon, status: u8, then: &mut u32) -> u32
    ensures { SetsStatus status balloon.old balloon.new then.new result }
{
    match balloon.write_status(status) {
        Err(why) => {
            *then = 0;
            number_in(Err(why))
        }
        Ok(is_ready) => {
            *then = u32::from(is_ready) * LOOK + u32::from(status == 0) * EMPTY;
            0
        }
    }
}

/// Makes the balloon that of the bytes, over regions.
#[unsafe(no_mangle)]
pub extern "C" fn vb_restore_over(balloon: &mut Balloon, regions: &[Region], bytes: &[u8]) -> u32
    ensures { RestoresOver regions.now bytes.now balloon.old balloon.new result }
{
    code_of_restore(balloon.restore(regions, bytes))
}

/// Whether the driver may be told of a change of configuration.
#[unsafe(no_mangle)]
pub extern "C" fn vb_may_tell(device: &Device) -> u32
    ensures { result ≡ one_if (may_tell device.now) }
{
    u32::from(may_tell(device))
}

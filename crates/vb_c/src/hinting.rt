//! Rounds of free page hints.

ghost use Rattle.std.specs.Prelude.{◌≡◌};
ghost use Rattle.vb_virtio.specs.Tests.{one_if};
ghost use Rattle.vb_core.specs.declared.hints.TheConstants.{STOP, DONE};
ghost use Rattle.vb_core.specs.Hints.{is_open, showing};
ghost use Rattle.vb_c.specs.Hinting.{BeginsRound};

use vb_core::Device;
use vb_monitor::{OK, code_of};

/// Begins a round of hints, and says its id.
#[unsafe(no_mangle)]
pub extern "C" fn vb_begin_hints(device: &mut Device, id: &mut u32) -> u32
    ensures { BeginsRound device.old device.new id.new result }
{
    match device.begin_round() {
        Ok(begun) => {
            *id = begun;
            OK
        }
        Err(why) => {
            *id = 0;
            code_of(why)
        }
    }
}

/// Stops a round of hints.
#[unsafe(no_mangle)]
pub extern "C" fn vb_stop_hints(device: &mut Device)
    ensures { device.new ≡ record device.old { round = showing STOP device.old.round } }
{
    device.stop_round();
}

/// Ends a round of hints: the driver takes its pages back.
#[unsafe(no_mangle)]
pub extern "C" fn vb_end_hints(device: &mut Device)
    ensures { device.new ≡ record device.old { round = showing DONE device.old.round } }
{
    device.end_round();
}

/// Whether the round's id was read since it began, and nothing ended the round.
#[unsafe(no_mangle)]
pub extern "C" fn vb_hints_open(device: &Device) -> u32
    ensures { result ≡ one_if (is_open device.now.round) }
{
    u32::from(device.round.is_open())
}

//! A device that is saved and restored, and the version of the library.

ghost use Rattle.std.specs.Prelude.{◌≡◌};
ghost use Rattle.vb_c.specs.Saving.{code_of_state, Saves, Restores};

use vb_core::{Device, Held, Saved, StateDenial};
use vb_monitor::{BAD_LENGTH, BAD_SUM, IMPOSSIBLE, NOT_A_STATE, OK, OTHER_VERSION};

/// The version of the library: 65,536 times the first number, 256 times the second, and the third.
/// `tools/list-codes --write` has it of the file VERSION.
const VERSION: u32 = 0x00_0400;

/// The code of a denial.
pub(crate) fn code_of_state(denial: StateDenial) -> u32
    ensures { result ≡ code_of_state denial }
{
    match denial {
        StateDenial::BadLength => BAD_LENGTH,
        StateDenial::NotAState => NOT_A_STATE,
        StateDenial::OtherVersion => OTHER_VERSION,
        StateDenial::BadSum => BAD_SUM,
        StateDenial::Impossible => IMPOSSIBLE,
    }
}

/// The version of the library.
#[unsafe(no_mangle)]
pub extern "C" fn vb_version() -> u32
    ensures { result ≡ VERSION }
{
    VERSION
}

/// Puts the bytes of a saved device into the front of the caller's array.
#[unsafe(no_mangle)]
pub extern "C" fn vb_save(device: &Device, held: Held, out: &mut [u8]) -> u32
    ensures { Saves (record { device = device.now; held = held }) out.old out.new result }
{
    let saved = Saved {
        device: *device,
        held,
    };
    match saved.save(out) {
        Ok(()) => OK,
        Err(why) => code_of_state(why),
    }
}

/// Makes the device that of the bytes.
#[unsafe(no_mangle)]
pub extern "C" fn vb_restore(device: &mut Device, held: &mut Held, bytes: &[u8]) -> u32
    ensures { Restores bytes.now device.old device.new held.old held.new result }
{
    match Saved::restore(bytes) {
        Ok(saved) => {
            *device = saved.device;
            *held = saved.held;
            OK
        }
        Err(why) => code_of_state(why),
    }
}

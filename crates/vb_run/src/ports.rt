//! The ports of a plan: devices that wait for the guests.

ghost use Rattle.std.specs.Prelude.{◌≡◌, ◌++◌, ◌∷◌, [], ◌<◌, All};
ghost use Rattle.std.specs.Prelude.{IsOk, OnOk, OnErr, vec_len, vec_capacity};

use std::alloc::AllocError;
use vb_slot::GuestPort;

/// Adds a port after others, of devices that no guest has yet. Refused on an allocation failure
/// alone, which there isn't where the list has room; then the port is gone, and the others stay.
pub fn add_port<P: GuestPort>(ports: &mut Vec<P>, port: P) -> Result<(), AllocError>
    requires ports { All P.waits ports.old.items }
    requires port { P.waits port }
    ensures ports { All P.waits ports.new.items }
    ensures added { OnOk result (ports.new.items ≡ ports.old.items ++ port ∷ []) }
    ensures kept { OnErr result (ports.new.items ≡ ports.old.items) }
    ensures room { vec_len ports.old < vec_capacity ports.old → IsOk result }
{
    ports.push(port)?;
    Ok(())
}

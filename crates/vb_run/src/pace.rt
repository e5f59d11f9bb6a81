//! When a device serves requests.

ghost use Rattle.std.specs.Prelude.{◌≡◌};
ghost use Rattle.vb_run.specs.Paces.{is_deferred};

use vb_slot::GuestPort;

/// When a guest's device serves requests.
#[derive(Clone, Copy, Debug, PartialEq, Eq)]
pub enum Pace {
    /// All pages of a request at once, as it finishes the request.
    Immediate,
    /// One page after another, before it finishes the request.
    Deferred,
}

/// The pace of the device at a port.
pub(crate) fn pace_of<P: GuestPort>(port: &P) -> Pace
    ensures { is_deferred result ≡ P.pace port.now }
{
    if port.is_paced() {
        Pace::Deferred
    } else {
        Pace::Immediate
    }
}

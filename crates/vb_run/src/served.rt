//! The calls of a guest's worker, by which it serves as its device.

ghost use Rattle.std.specs.Prelude.{◌≡◌, ◌<◌, ℕ, Some, slice_get, length, IfSome, IfNone, true};
ghost use Rattle.std.specs.Prelude.{false};
ghost use Rattle.std.specs.Prelude.{slice_index_or};
ghost use Rattle.vb_model.specs.declared.calls.Call.TheVariants.{Take, Finish};
ghost use Rattle.vb_run.specs.Services.{services, found_nothing};

use vb_model::{Call, Reply};
use vb_virtio::layout::{DEFLATE_QUEUE, INFLATE_QUEUE, REPORT_QUEUE, STATISTICS_QUEUE};

/// How many calls a worker makes until it has looked for everything that there may be to do.
pub(crate) const SERVICES: usize = 9;

/// The call that a worker made last.
#[derive(Drop)]
pub(crate) struct Served {
    /// Its number.
    pub number: usize,
    pub reply: Reply,
}

/// The call that takes what was made available on a queue.
fn take_from(queue: u32) -> Call
    ensures { result ≡ Take queue }
{
    Call::Take { queue }
}

/// The call that finishes the first chain that was taken from a queue.
fn finish_first(queue: u32) -> Call
    ensures { result ≡ Finish queue 0 }
{
    Call::Finish { queue, index: 0 }
}

/// The worker's call of this number.
pub(crate) fn service(number: usize) -> Call
    requires { number < SERVICES }
    ensures { slice_get services number ≡ Some result }
{
    match number {
        0 => take_from(INFLATE_QUEUE),
        1 => take_from(DEFLATE_QUEUE),
        2 => take_from(STATISTICS_QUEUE),
        3 => take_from(REPORT_QUEUE),
        4 => Call::Work,
        5 => finish_first(INFLATE_QUEUE),
        6 => finish_first(DEFLATE_QUEUE),
        7 => finish_first(REPORT_QUEUE),
        _ => Call::Ask,
    }
}

/// Whether a worker's call with this reply changed nothing.
pub(crate) fn found_nothing(reply: &Reply) -> bool
    ensures { result ≡ found_nothing reply.now }
{
    matches!(reply, Reply::Empty | Reply::Idle | Reply::Refused(_))
}

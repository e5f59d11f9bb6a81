//! The set of ballooned pages, after a request.

ghost use Rattle.std.specs.Prelude.{◌≡◌};
ghost use Rattle.vb_device.specs.BaseCalls.{flags_after};
ghost use Rattle.vb_device.specs.Discards.{flagged};

use crate::taken::TakenRequest;
use vb_bits::BitSet;
use vb_virtio::layout::{INFLATE_QUEUE, REPORT_QUEUE};

/// Puts the pages of a request into the set or takes them out.
fn set_all(ballooned: &mut BitSet, request: &TakenRequest, member: bool)
    ensures { ballooned.new ≡ flagged request.now.pages member ballooned.old }
{
    for k in 0..request.count() {
        ballooned.set(request.page(k), member);
    }
}

/// The set after a request of this queue is finished: an inflate's pages are put in, a deflate's
/// are taken out, and a report changes none.
pub(crate) fn note_finish(ballooned: &mut BitSet, queue: u32, request: &TakenRequest)
    ensures { ballooned.new ≡ flags_after queue request.now.pages ballooned.old }
{
    if queue != REPORT_QUEUE {
        set_all(ballooned, request, queue == INFLATE_QUEUE);
    }
}

//! The four queues of a device, as one list: which is which, and what changes all of them.

ghost use Rattle.std.specs.Prelude.{◌≡◌, ◌==◌, ◌<◌, ◌≤◌, true, false, map, IsTrue};
ghost use Rattle.std.specs.Int.{is_power_of_two};
ghost use Rattle.vb_virtio.specs.declared.limits.TheConstants.{MIN_QUEUE_SIZE, MAX_QUEUE_SIZE};
ghost use Rattle.vb_virtio.specs.Queues.{has_chains};
ghost use Rattle.vb_device.specs.Base.{index_of, new_queues};
ghost use Rattle.vb_device.specs.QueueState.{restarted};

use crate::queue::DeviceQueue;
use vb_ram::Shape;
use vb_virtio::layout::{DEFLATE_QUEUE, INFLATE_QUEUE, REPORT_QUEUE, STATISTICS_QUEUE};

/// Where the queue of inflates is among a device's four.
pub(crate) const INFLATES: usize = 0;

/// Where that of deflates does.
const DEFLATES: usize = 1;

/// Where that of statistics does.
pub(crate) const STATISTICS: usize = 2;

/// Where that of reports does.
pub(crate) const REPORTS: usize = 3;

/// Where the queue of this number is.
pub(crate) fn index_of(queue: u32) -> usize
    requires { has_chains queue ≡ true }
    ensures place { result ≡ index_of queue }
    ensures small { result < 4 }
{
    if queue == REPORT_QUEUE {
        REPORTS
    } else {
        queue as usize
    }
}

/// The queues of this shape, of which none is ready.
pub(crate) fn new_queues(shape: Shape) -> [DeviceQueue; 4]
    requires { IsTrue (is_power_of_two shape.queue_size) × (MIN_QUEUE_SIZE ≤ shape.queue_size) ×
        (shape.queue_size ≤ MAX_QUEUE_SIZE) }
    ensures { result ≡ new_queues shape.queue_size }
{
    [
        DeviceQueue::new(INFLATE_QUEUE, shape),
        DeviceQueue::new(DEFLATE_QUEUE, shape),
        DeviceQueue::new(STATISTICS_QUEUE, shape),
        DeviceQueue::new(REPORT_QUEUE, shape),
    ]
}

/// Starts or stops each queue; nothing is taken.
pub(crate) fn set_all_ready(queues: &mut [DeviceQueue; 4], ready: bool)
    ensures { queues.new ≡ map (restarted ready) queues.old }
{
    queues[INFLATES].set_ready(ready);
    queues[DEFLATES].set_ready(ready);
    queues[STATISTICS].set_ready(ready);
    queues[REPORTS].set_ready(ready);
}

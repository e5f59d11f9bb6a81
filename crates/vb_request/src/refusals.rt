//! What a device refuses by its status, its features and the rules of chains alone.

ghost use Rattle.std.specs.Prelude.{◌≡◌};
ghost use Rattle.vb_virtio.specs.declared.refusals.Refusal.TheVariants.{Broken};
ghost use Rattle.vb_virtio.specs.Status.{is_not_ready, has_fault};
ghost use Rattle.vb_virtio.specs.Queues.{lacks_feature};
ghost use Rattle.vb_status.specs.Bits.{status_bits, feature_bits};
ghost use Rattle.vb_request.specs.Refusals.{rule_of, readiness_refusal, take_refusal_by};

use bitflags::Flags;
use vb_chain::ChainFault;
use vb_status::{Features, Status};
use vb_virtio::Refusal;
use vb_virtio::layout::{REPORT_QUEUE, STATISTICS_QUEUE};

/// The number of the rule that a fault breaks, from 1 to 10.
pub fn rule_of(fault: ChainFault) -> u32
    ensures { result ≡ rule_of fault }
{
    fault as u32
}

/// The answer to a chain with a fault: `Broken`, with the number of the rule.
pub fn broken(fault: ChainFault) -> Refusal
    ensures { result ≡ Broken (rule_of fault) }
{
    Refusal::Broken {
        rule: rule_of(fault),
    }
}

/// Whether the driver isn't done with the initialisation, or has given up (VIRTIO 1.1, 2.1).
pub fn is_not_ready(status: Status) -> bool
    ensures { result ≡ is_not_ready (status_bits status) }
{
    !status.contains(Status::DRIVER_OK) || status.contains(Status::FAILED)
}

/// Whether a rule was broken before (VIRTIO 1.1, 2.1.2).
pub fn has_fault(status: Status) -> bool
    ensures { result ≡ has_fault (status_bits status) }
{
    status.contains(Status::DEVICE_NEEDS_RESET)
}

/// What the status alone refuses a call for: `NotReady` where the driver isn't done with the
/// initialisation or has given up, and then `NeedsReset` after a broken rule (VIRTIO 1.1, 2.1).
pub fn readiness_refusal(status: Status) -> Option<Refusal>
    ensures { result ≡ readiness_refusal (status_bits status) }
{
    if is_not_ready(status) {
        Some(Refusal::NotReady)
    } else if has_fault(status) {
        Some(Refusal::NeedsReset)
    } else {
        None
    }
}

/// Whether the queue of this number, which is 4 for reports, depends on a feature that the driver
/// didn't accept: STATS_VQ that of statistics, and REPORTING that of reports.
pub fn lacks_feature(queue: u32, features: Features) -> bool
    ensures { result ≡ lacks_feature (feature_bits features) queue }
{
    queue == STATISTICS_QUEUE && !features.stats_vq()
        || queue == REPORT_QUEUE && !features.reporting()
}

/// What a take from the queue of this number, which is 4 for reports, is refused for, tested in
/// this order: `NoQueue` where there is no such queue; `NotReady` and `NeedsReset` by the status;
/// `NoQueue` where the queue lacks its feature.
pub fn take_refusal(queue: u32, status: Status, features: Features) -> Option<Refusal>
    ensures { result ≡ take_refusal_by queue (status_bits status) (feature_bits features) }
{
    if queue > STATISTICS_QUEUE && queue != REPORT_QUEUE {
        return Some(Refusal::NoQueue);
    }
    if let Some(why) = readiness_refusal(status) {
        return Some(why);
    }
    if lacks_feature(queue, features) {
        return Some(Refusal::NoQueue);
    }
    None
}

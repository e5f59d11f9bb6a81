//! Which writes of the status and which features are accepted.

ghost use Rattle.std.specs.Prelude.{◌≡◌, IfOk};
ghost use Rattle.vb_virtio.specs.Features.{version_1};
ghost use Rattle.vb_virtio.specs.FirstRefusal.{first_refusal};
ghost use Rattle.vb_virtio.specs.Status.{status_refusal, negotiate_refusal, needed_causes, adds};
ghost use Rattle.vb_virtio.specs.Status.{adds_any, adds_more, skips, is_broken, is_out_of_order};
ghost use Rattle.vb_virtio.specs.Status.{steps, not_for_drivers};
ghost use Rattle.vb_status.specs.Answers.{answered_refusal};
ghost use Rattle.vb_status.specs.Bits.{status_bits, feature_bits};

use crate::{Features, Status, StatusFault};
use bitflags::Flags;

/// The status at which features are negotiated.
const NEGOTIATING: u8 = 3;

fn adds(status: Status, write: Status, bit: Status) -> bool
    ensures { result ≡ adds (status_bits status) (status_bits write) (status_bits bit) }
{
    write.contains(bit) && !status.contains(bit)
}

fn adds_a_step(status: Status, write: Status) -> bool
    ensures { result ≡ adds_any (status_bits status) (status_bits write) steps }
{
    adds(status, write, Status::ACKNOWLEDGE)
        || adds(status, write, Status::DRIVER)
        || adds(status, write, Status::FEATURES_OK)
        || adds(status, write, Status::DRIVER_OK)
}

fn adds_two_steps(status: Status, write: Status) -> bool
    ensures { result ≡ adds_more (status_bits status) (status_bits write) steps }
{
    let steps = u32::from(adds(status, write, Status::ACKNOWLEDGE))
        + u32::from(adds(status, write, Status::DRIVER))
        + u32::from(adds(status, write, Status::FEATURES_OK))
        + u32::from(adds(status, write, Status::DRIVER_OK));
    steps > 1
}

fn skips_a_step(status: Status, write: Status) -> bool
    ensures { result ≡ skips (status_bits status) (status_bits write) }
{
    adds(status, write, Status::DRIVER) && !status.contains(Status::ACKNOWLEDGE)
        || adds(status, write, Status::FEATURES_OK) && !status.contains(Status::DRIVER)
        || adds(status, write, Status::DRIVER_OK) && !status.contains(Status::FEATURES_OK)
}

fn adds_for_the_device(status: Status, write: Status) -> bool
    ensures { result ≡ adds_any (status_bits status) (status_bits write) not_for_drivers }
{
    adds(status, write, Status::UNUSED_16)
        || adds(status, write, Status::UNUSED_32)
        || adds(status, write, Status::DEVICE_NEEDS_RESET)
}

fn is_broken(status: Status) -> bool
    ensures { result ≡ is_broken (status_bits status) }
{
    status.contains(Status::DEVICE_NEEDS_RESET) || status.contains(Status::FAILED)
}

fn is_out_of_order(status: Status, write: Status) -> bool
    ensures { result ≡ is_out_of_order (status_bits status) (status_bits write) }
{
    let steps = adds_a_step(status, write);
    adds_two_steps(status, write)
        || skips_a_step(status, write)
        || adds_for_the_device(status, write)
        || adds(status, write, Status::FAILED) && steps
        || steps && is_broken(status)
}

/// The status after a write that is accepted, where these features were negotiated: 1 ClearsBit,
/// 2 OutOfOrder, 5 VersionMissing, tested in this order.
pub fn write_status(
    status: Status,
    negotiated: Features,
    write: Status,
) -> Result<Status, StatusFault>
    ensures answer { answered_refusal result ≡
        status_refusal (status_bits status) (feature_bits negotiated) (status_bits write) }
    ensures ok { IfOk result (λ new. status_bits new ≡ status_bits write) }
{
    if write.is_empty() {
        return Ok(write);
    }
    if !write.contains(status) {
        return Err(StatusFault::ClearsBit);
    }
    if is_out_of_order(status, write) {
        return Err(StatusFault::OutOfOrder);
    }
    if adds(status, write, Status::FEATURES_OK) {
        check_features(negotiated)?;
    }
    Ok(write)
}

/// Tests the feature that FEATURES_OK asks for.
fn check_features(negotiated: Features) -> Result<(), StatusFault>
    ensures { answered_refusal result ≡ first_refusal (needed_causes (feature_bits negotiated)) }
{
    if !negotiated.version_1() {
        return Err(StatusFault::VersionMissing);
    }
    Ok(())
}

/// The features that are accepted at this status: 2 OutOfOrder unless ACKNOWLEDGE and DRIVER alone
/// are set, 3 FeatureNotOffered.
pub fn negotiate(status: Status, wanted: Features) -> Result<Features, StatusFault>
    ensures answer { answered_refusal result ≡
        negotiate_refusal (status_bits status) (feature_bits wanted) }
    ensures ok { IfOk result (λ new. feature_bits new ≡ feature_bits wanted) }
{
    if status.bits() != NEGOTIATING {
        return Err(StatusFault::OutOfOrder);
    }
    if !Features::OFFERED.contains(wanted) {
        return Err(StatusFault::FeatureNotOffered);
    }
    Ok(wanted)
}

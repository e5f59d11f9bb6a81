//! Saved devices whose bytes were changed, with the checksum that they have then.

use super::{SETTINGS, put};
use vb_core::{Device, Held, SAVED_LENGTH, Saved, StateDenial};

/// Where the status is.
const STATUS_AT: usize = 58;

/// Where the checksum is.
const SUM_AT: usize = 232;

/// FNV-1a with 64 bits.
fn sum_of(bytes: &[u8]) -> u64 {
    let mut sum: u64 = 0xcbf2_9ce4_8422_2325;
    for byte in bytes {
        sum = (sum ^ u64::from(*byte)).wrapping_mul(0x0000_0100_0000_01b3);
    }
    sum
}

/// The bytes of a new device.
fn new_device() -> [u8; SAVED_LENGTH] {
    let saved = Saved {
        device: Device::new(SETTINGS),
        held: Held::NOTHING,
    };
    let mut bytes = [0; SAVED_LENGTH];
    let _saved = saved.save(&mut bytes);
    bytes
}

/// The status of a new device that is restored with this one.
fn restored_with(status: u8) -> Result<u8, StateDenial> {
    let mut bytes = new_device();
    bytes[STATUS_AT] = status;
    let sum = sum_of(bytes.get(..SUM_AT).unwrap_or(&[]));
    put(&mut bytes, SUM_AT as u32, &sum.to_le_bytes());
    match Saved::restore(&bytes) {
        Ok(saved) => Ok(saved.device.status),
        Err(denial) => Err(denial),
    }
}

/// Statuses, and whether calls lead to a new device with them: DRIVER comes after ACKNOWLEDGE, and
/// no step is bit 4.
static STATUSES: [(u8, Result<u8, StateDenial>); 4] = [
    (1, Ok(1)),
    (2, Err(StateDenial::Impossible)),
    (3, Ok(3)),
    (19, Err(StateDenial::Impossible)),
];

/// The number of the first status that is restored otherwise.
fn first_other_status() -> Option<usize> {
    for (k, (status, answer)) in STATUSES.iter().enumerate() {
        if restored_with(*status) != *answer {
            return Some(k);
        }
    }
    None
}

#[test]
fn a_state_to_which_no_calls_lead_is_refused(rt: HostRuntime) {
    assert!(rt; first_other_status().is_none());
}

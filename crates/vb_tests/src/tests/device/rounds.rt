//! Rounds of hints, call by call (VIRTIO 1.2, 5.5.6.6).

use super::{SETTINGS, SMALL, ready};
use vb_core::{Denial, Device, Kind, Settings};

/// A guest of 512 MiB, with hints.
const HINTING: Settings = Settings {
    offered: 0x1_0000_002f,
    ..SETTINGS
};

/// What comes to a round: of the host, and an id that was read.
#[derive(Clone, Copy)]
enum Call {
    Begin,
    Stop,
    End,
    Id(u32),
}

/// Each call, what the configuration shows then, and whether the round is open: an id before any
/// round, another one, its own, twice, the driver's stop; a late one; a stale one; after a stop.
static CALLS: [(Call, u32, bool); 18] = [
    (Call::Id(2), 0, false),
    (Call::Begin, 2, false),
    (Call::Id(3), 2, false),
    (Call::Id(2), 2, true),
    (Call::Id(2), 2, true),
    (Call::Id(0), 2, false),
    (Call::Id(2), 2, true),
    (Call::Begin, 3, false),
    (Call::Id(2), 3, false),
    (Call::Id(3), 3, true),
    (Call::End, 1, false),
    (Call::Id(3), 1, false),
    (Call::Id(1), 1, false),
    (Call::Begin, 4, false),
    (Call::Id(4), 4, true),
    (Call::Stop, 0, false),
    (Call::Id(4), 0, false),
    (Call::Id(0), 0, false),
];

/// Makes a call; says whether it is refused.
fn make_call(device: &mut Device, call: Call) -> bool {
    match call {
        Call::Begin => return device.begin_round().is_err(),
        Call::Stop => device.stop_round(),
        Call::End => device.end_round(),
        Call::Id(id) => device.hear_id(id),
    }
    false
}

/// What the configuration shows of the round.
fn shown(device: &Device) -> u32 {
    let mut bytes = [9; 4];
    device.read_config(8, &mut bytes);
    u32::from_le_bytes(bytes)
}

/// The number of the first call after which something else is there.
fn first_other_call(device: &mut Device) -> Option<usize> {
    for (k, (made, id, open)) in CALLS.iter().enumerate() {
        let refused = make_call(device, *made);
        if refused || shown(device) != *id || device.round.is_open() != *open {
            return Some(k);
        }
    }
    None
}

#[test]
fn rounds_open_by_their_own_id(rt: HostRuntime) {
    let mut device = ready(HINTING, Kind::Hint, SMALL);
    assert!(rt; first_other_call(&mut device).is_none());
}

#[test]
fn ids_go_on_over_a_reset(rt: HostRuntime) {
    let mut device = ready(HINTING, Kind::Hint, SMALL);
    assert!(rt; device.begin_round() == Ok(2));
    device.hear_id(2);
    assert!(rt; device.write_status(0).is_ok());
    assert!(rt; shown(&device) == 0 && !device.round.is_open());
    assert!(rt; device.begin_round() == Err(Denial::NotReady));
    let mut again = ready(HINTING, Kind::Hint, SMALL);
    again.round = device.round;
    assert!(rt; again.begin_round() == Ok(3));
}

#[test]
fn ids_go_round(rt: HostRuntime) {
    let mut device = ready(HINTING, Kind::Hint, SMALL);
    device.round.last = 0xffff_fffe;
    assert!(rt; device.begin_round() == Ok(0xffff_ffff));
    assert!(rt; device.begin_round() == Ok(2));
}

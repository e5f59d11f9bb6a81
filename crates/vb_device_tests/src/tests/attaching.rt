//! A device before it has a guest, and one that is taken away.

use super::requests::INFLATE;
use super::{Answer, Host, Scenario, Sight, Step, expect};
use vb_device::{BalloonDevice, Immediate};
use vb_ram::Shape;
use vb_virtio::Refusal;

const NOT_ATTACHED: &'static [(Step, Answer)] = &[
    (Step::Take(0), Answer::Refused(Refusal::NotReady)),
    (Step::Start, Answer::Done),
    (Step::Take(0), Answer::Head(None)),
    (Step::Claim, Answer::AskHost),
    (Step::See(Sight::Keeps), Answer::Is(false)),
];

#[test]
fn a_device_that_is_not_attached(rt: HostRuntime) {
    let mut host = Host::<Immediate> {
        device: BalloonDevice::of_pace(rt.alloc()),
        shape: Shape { queue_size: 256 },
    };
    assert!(rt; host.first_wrong(rt.alloc(), NOT_ATTACHED).is_none());
}

/// Pages 17 to 20 are ballooned, pages 17 and 63 have frames, and one more inflate is taken.
const BEFORE_DETACHING: &'static [(Step, Answer)] = &[
    (Step::SetTarget(4), Answer::Done),
    (Step::Supply(17, 40), Answer::Done),
    (Step::Supply(63, 41), Answer::Done),
    (Step::Write(0, 130, &[2]), Answer::Done),
    (Step::Take(0), Answer::Head(Some(0))),
    (Step::See(Sight::BalloonedCount), Answer::Count(4)),
    (Step::See(Sight::Status), Answer::Status(15)),
];

/// The device is reset, its target stays, and no page has a frame.
const DETACHED: &'static [(Step, Answer)] = &[
    (Step::Detach, Answer::Done),
    (Step::See(Sight::Status), Answer::Status(0)),
    (Step::See(Sight::BalloonedCount), Answer::Count(0)),
    (Step::See(Sight::AreBallooned(64, 64)), Answer::Done),
    (Step::See(Sight::Target), Answer::Count(4)),
    (Step::See(Sight::AreBare), Answer::Done),
    (Step::Take(0), Answer::Refused(Refusal::NotReady)),
];

/// The frames of pages 63, 17 and 12 to 0, each once, and no others.
const ALL_FRAMES: &'static [(Step, Answer)] = &[
    (Step::HandBack, Answer::Frame(Some(41))),
    (Step::HandBack, Answer::Frame(Some(40))),
    (Step::HandBack, Answer::Frame(Some(12))),
    (Step::HandBack, Answer::Frame(Some(11))),
    (Step::HandBack, Answer::Frame(Some(10))),
    (Step::HandBack, Answer::Frame(Some(9))),
    (Step::HandBack, Answer::Frame(Some(8))),
    (Step::HandBack, Answer::Frame(Some(7))),
    (Step::HandBack, Answer::Frame(Some(6))),
    (Step::HandBack, Answer::Frame(Some(5))),
    (Step::HandBack, Answer::Frame(Some(4))),
    (Step::HandBack, Answer::Frame(Some(3))),
    (Step::HandBack, Answer::Frame(Some(2))),
    (Step::HandBack, Answer::Frame(Some(1))),
    (Step::HandBack, Answer::Frame(Some(0))),
    (Step::HandBack, Answer::Frame(None)),
];

const NOTHING_LEFT: &'static [(Step, Answer)] = &[
    (Step::Detach, Answer::Done),
    (Step::HandBack, Answer::Frame(None)),
    (Step::See(Sight::Status), Answer::Status(0)),
    (Step::See(Sight::Target), Answer::Count(4)),
];

static DETACHES: Scenario = (
    "a detached device gives all frames up",
    64,
    8,
    &[
        INFLATE,
        BEFORE_DETACHING,
        DETACHED,
        ALL_FRAMES,
        NOTHING_LEFT,
    ],
);

#[test]
fn a_detached_device_gives_all_frames_up(rt: HostRuntime) {
    expect::<Immediate>(&rt, rt.alloc(), &DETACHES);
}

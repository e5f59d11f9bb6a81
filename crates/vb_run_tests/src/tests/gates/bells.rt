//! Each ring is followed by a pass, and no pass begins before a ring. A worker's calls under one
//! lock have one number. Its first pass takes the buffer of statistics that its guest's start left,
//! then asks by it, then finds nothing to do. The scripts leave it nothing more, so each other pass
//! has one number.

use super::{FIRST, NO_BALANCE, Row, SECOND, WORKER};
use crate::tests::holds::{Comes, Hold, Place};
use crate::tests::plans::{Guests, Line, SMALL};
use vb_ram::Config;
use vb_run::Bells;

/// The number of the worker's last calls in its first pass.
const LAST_OF_FIRST: u64 = 2;

/// That of its calls in its second pass.
const SECOND_PASS: u64 = 3;

/// That of those in its third pass.
const THIRD_PASS: u64 = 4;

/// A guest whose processor reads a page again and again that it doesn't hold.
const ONE_GUEST: Guests = Guests {
    count: 1,
    config: SMALL,
    scripts: &[&[Line::Read(16)]],
    rounds: 4,
};

pub(super) static ROWS: [Row; 4] = [
    // The first call rings inside the first pass, and the second one inside the second pass: each
    // time another pass begins.
    Row {
        name: "rings inside passes",
        guests: ONE_GUEST,
        frames: 64,
        balances: NO_BALANCE,
        bells: Bells::Plain,
        holds: &[
            Hold {
                name: "a ring inside the first pass",
                at: Place::Before(WORKER, LAST_OF_FIRST),
                until: Place::Before(FIRST, 1),
                comes: Comes::Somebody,
            },
            Hold {
                name: "a second pass, to its calls",
                at: Place::Before(FIRST, 1),
                until: Place::Before(WORKER, SECOND_PASS),
                comes: Comes::Somebody,
            },
            Hold {
                name: "a ring inside the second pass",
                at: Place::Before(WORKER, SECOND_PASS),
                until: Place::Before(FIRST, 2),
                comes: Comes::Somebody,
            },
            Hold {
                name: "a third pass",
                at: Place::Before(FIRST, 2),
                until: Place::Before(WORKER, THIRD_PASS),
                comes: Comes::Somebody,
            },
        ],
    },
    // 256 calls ring inside the first pass, which is more than a byte counts, and one more inside
    // the second one.
    Row {
        name: "over 255 rings",
        guests: Guests {
            rounds: 258,
            ..ONE_GUEST
        },
        frames: 64,
        balances: NO_BALANCE,
        bells: Bells::Plain,
        holds: &[
            Hold {
                name: "256 rings inside the first pass",
                at: Place::Before(WORKER, LAST_OF_FIRST),
                until: Place::Before(FIRST, 256),
                comes: Comes::Somebody,
            },
            Hold {
                name: "a second pass after 256 rings, to its calls",
                at: Place::Before(FIRST, 256),
                until: Place::Before(WORKER, SECOND_PASS),
                comes: Comes::Somebody,
            },
            Hold {
                name: "one more ring inside the second pass",
                at: Place::Before(WORKER, SECOND_PASS),
                until: Place::Before(FIRST, 257),
                comes: Comes::Somebody,
            },
            Hold {
                name: "a third pass after 257 rings",
                at: Place::Before(FIRST, 257),
                until: Place::Before(WORKER, THIRD_PASS),
                comes: Comes::Somebody,
            },
        ],
    },
    // The worker has a while for a second pass before the first call, and one inside of it.
    Row {
        name: "a ring after its call",
        guests: ONE_GUEST,
        frames: 64,
        balances: NO_BALANCE,
        bells: Bells::Plain,
        holds: &[
            Hold {
                name: "a first pass, to its last calls",
                at: Place::Before(FIRST, 0),
                until: Place::Before(WORKER, LAST_OF_FIRST),
                comes: Comes::Somebody,
            },
            Hold {
                name: "a second pass before the first call",
                at: Place::Before(FIRST, 0),
                until: Place::Before(WORKER, SECOND_PASS),
                comes: Comes::Nobody,
            },
            Hold {
                name: "a second pass inside the first call",
                at: Place::Inside(FIRST, 0),
                until: Place::Before(WORKER, SECOND_PASS),
                comes: Comes::Nobody,
            },
        ],
    },
    // Processor 0 has ended before processor 1 begins: the worker goes on, and waits for a ring.
    Row {
        name: "an empty and a long script",
        guests: Guests {
            count: 1,
            config: Config {
                processors: 2,
                ..SMALL
            },
            scripts: &[&[], &[Line::Read(16)]],
            rounds: 25,
        },
        frames: 64,
        balances: NO_BALANCE,
        bells: Bells::Plain,
        holds: &[
            Hold {
                name: "a first pass, to its last calls",
                at: Place::Before(SECOND, 0),
                until: Place::Before(WORKER, LAST_OF_FIRST),
                comes: Comes::Somebody,
            },
            Hold {
                name: "a last pass, before processor 1",
                at: Place::Before(SECOND, 0),
                until: Place::Before(WORKER, SECOND_PASS),
                comes: Comes::Nobody,
            },
            Hold {
                name: "a second pass after a ring of processor 1",
                at: Place::Before(SECOND, 1),
                until: Place::Before(WORKER, SECOND_PASS),
                comes: Comes::Somebody,
            },
        ],
    },
];

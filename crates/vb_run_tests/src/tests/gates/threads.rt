//! Each guest, each processor, each worker and the balancer has a thread of its own.

use super::{
    FIRST, NO_BALANCE, ONE_BALANCE, OTHER_FIRST, OTHER_WORKER, Row, SECOND, TWO_GUESTS,
    TWO_PROCESSORS, WORKER,
};
use crate::tests::holds::{Answer, Comes, Hold, Place};
use vb_run::Bells;

pub(super) static ROWS: [Row; 5] = [
    // Guest 0 stays inside its first call until guest 1 is inside its own, which it may not be
    // before.
    Row {
        name: "two guests",
        guests: TWO_GUESTS,
        frames: 64,
        balances: NO_BALANCE,
        bells: Bells::Plain,
        holds: &[
            Hold {
                name: "guest 1 inside, while guest 0 is",
                at: Place::Inside(FIRST, 0),
                until: Place::Inside(OTHER_FIRST, 0),
                comes: Comes::Somebody,
            },
            Hold {
                name: "guest 0 inside",
                at: Place::Before(OTHER_FIRST, 0),
                until: Place::Inside(FIRST, 0),
                comes: Comes::Somebody,
            },
        ],
    },
    // Processor 0 waits for processor 1 of its guest, and worker 0 for worker 1.
    Row {
        name: "the first after the second",
        guests: TWO_PROCESSORS,
        frames: 64,
        balances: NO_BALANCE,
        bells: Bells::Plain,
        holds: &[
            Hold {
                name: "an answer of processor 1",
                at: Place::Before(FIRST, 0),
                until: Place::Behind(SECOND, Answer::Any),
                comes: Comes::Somebody,
            },
            Hold {
                name: "an answer of worker 1",
                at: Place::Before(WORKER, 0),
                until: Place::Behind(OTHER_WORKER, Answer::Any),
                comes: Comes::Somebody,
            },
        ],
    },
    // The same with the roles exchanged.
    Row {
        name: "the second after the first",
        guests: TWO_PROCESSORS,
        frames: 64,
        balances: NO_BALANCE,
        bells: Bells::Plain,
        holds: &[
            Hold {
                name: "an answer of processor 0",
                at: Place::Before(SECOND, 0),
                until: Place::Behind(FIRST, Answer::Any),
                comes: Comes::Somebody,
            },
            Hold {
                name: "an answer of worker 0",
                at: Place::Before(OTHER_WORKER, 0),
                until: Place::Behind(WORKER, Answer::Any),
                comes: Comes::Somebody,
            },
        ],
    },
    // Worker 0 stays in its first call until worker 1 is in one, which it may not be before.
    Row {
        name: "two workers",
        guests: TWO_PROCESSORS,
        frames: 64,
        balances: NO_BALANCE,
        bells: Bells::Late,
        holds: &[
            Hold {
                name: "worker 1 in a call, while worker 0 is",
                at: Place::Serving(0),
                until: Place::Serving(1),
                comes: Comes::Somebody,
            },
            Hold {
                name: "worker 0 in a call",
                at: Place::Before(OTHER_WORKER, 0),
                until: Place::Serving(0),
                comes: Comes::Somebody,
            },
        ],
    },
    // The balancer looks at guest 0 until guest 1 is inside a call and its worker in one.
    Row {
        name: "a look beside a guest",
        guests: TWO_PROCESSORS,
        frames: 64,
        balances: ONE_BALANCE,
        bells: Bells::Double,
        holds: &[
            Hold {
                name: "guest 1 inside, while the balancer looks at guest 0",
                at: Place::Looking(0),
                until: Place::Inside(OTHER_FIRST, 0),
                comes: Comes::Somebody,
            },
            Hold {
                name: "worker 1 in a call, while the balancer looks at guest 0",
                at: Place::Looking(0),
                until: Place::Serving(1),
                comes: Comes::Somebody,
            },
            Hold {
                name: "a look, before guest 1",
                at: Place::Before(OTHER_FIRST, 0),
                until: Place::Looking(0),
                comes: Comes::Somebody,
            },
            Hold {
                name: "a look, before worker 1",
                at: Place::Before(OTHER_WORKER, 0),
                until: Place::Looking(0),
                comes: Comes::Somebody,
            },
        ],
    },
];

//! Each guest has a lock, under which a processor comes inside, and nothing else of the gate is
//! called; a worker has no pass without a bell.

use super::{
    FIRST, NO_BALANCE, ONE_BALANCE, OTHER_FIRST, OTHER_SECOND, Row, SECOND, TWO_GUESTS,
    TWO_PROCESSORS, WORKER,
};
use crate::tests::holds::{Answer, Comes, Hold, Place};
use crate::tests::plans::Guests;
use vb_model::Actor;
use vb_run::Bells;

pub(super) static ROWS: [Row; 3] = [
    // While a processor is inside, neither the other one nor the worker nor the balancer is at
    // its guest.
    Row {
        name: "alone inside",
        guests: TWO_PROCESSORS,
        frames: 64,
        balances: ONE_BALANCE,
        bells: Bells::Plain,
        holds: &[
            Hold {
                name: "processor 1 beside processor 0",
                at: Place::Inside(FIRST, 0),
                until: Place::Inside(SECOND, 0),
                comes: Comes::Nobody,
            },
            Hold {
                name: "the worker beside processor 0",
                at: Place::Inside(FIRST, 0),
                until: Place::Serving(0),
                comes: Comes::Nobody,
            },
            Hold {
                name: "the balancer beside processor 0",
                at: Place::Inside(FIRST, 0),
                until: Place::Looking(0),
                comes: Comes::Nobody,
            },
            Hold {
                name: "processor 0 inside, before processor 1",
                at: Place::Before(SECOND, 0),
                until: Place::Inside(FIRST, 0),
                comes: Comes::Somebody,
            },
            Hold {
                name: "processor 0 inside, before the worker",
                at: Place::Before(WORKER, 0),
                until: Place::Inside(FIRST, 0),
                comes: Comes::Somebody,
            },
            Hold {
                name: "processor 0 inside, before the balancer",
                at: Place::Before(Actor::Balancer, 0),
                until: Place::Inside(FIRST, 0),
                comes: Comes::Somebody,
            },
        ],
    },
    // The gate is called without the lock: an actor that waits there keeps nobody from its guest.
    Row {
        name: "without the lock",
        guests: Guests {
            rounds: 4,
            ..TWO_PROCESSORS
        },
        frames: 64,
        balances: ONE_BALANCE,
        bells: Bells::Plain,
        holds: &[
            Hold {
                name: "processor 1 inside, while processor 0 is before its call",
                at: Place::Before(FIRST, 0),
                until: Place::Inside(SECOND, 0),
                comes: Comes::Somebody,
            },
            Hold {
                name: "processor 0 before its call",
                at: Place::Before(SECOND, 0),
                until: Place::Before(FIRST, 0),
                comes: Comes::Somebody,
            },
            Hold {
                name: "processor 1 inside, while processor 0 is after its call",
                at: Place::Behind(FIRST, Answer::Any),
                until: Place::Inside(SECOND, 1),
                comes: Comes::Somebody,
            },
            Hold {
                name: "processor 0 after its call",
                at: Place::Before(SECOND, 1),
                until: Place::Behind(FIRST, Answer::Any),
                comes: Comes::Somebody,
            },
            Hold {
                name: "processor 0 inside, while the worker is before its call",
                at: Place::Before(WORKER, 0),
                until: Place::Inside(FIRST, 1),
                comes: Comes::Somebody,
            },
            Hold {
                name: "the worker before its call",
                at: Place::Before(FIRST, 1),
                until: Place::Before(WORKER, 0),
                comes: Comes::Somebody,
            },
            Hold {
                name: "processor 1 inside, while the worker is after its call",
                at: Place::Behind(WORKER, Answer::Any),
                until: Place::Inside(SECOND, 2),
                comes: Comes::Somebody,
            },
            Hold {
                name: "the worker after its call",
                at: Place::Before(SECOND, 2),
                until: Place::Behind(WORKER, Answer::Any),
                comes: Comes::Somebody,
            },
            Hold {
                name: "guest 0 inside, while the balancer is before its round",
                at: Place::Before(Actor::Balancer, 0),
                until: Place::Inside(FIRST, 2),
                comes: Comes::Somebody,
            },
            Hold {
                name: "guest 1 inside, while the balancer is before its round",
                at: Place::Before(Actor::Balancer, 0),
                until: Place::Inside(OTHER_FIRST, 2),
                comes: Comes::Somebody,
            },
            Hold {
                name: "the balancer before its round, at guest 0",
                at: Place::Before(FIRST, 2),
                until: Place::Before(Actor::Balancer, 0),
                comes: Comes::Somebody,
            },
            Hold {
                name: "the balancer before its round, at guest 1",
                at: Place::Before(OTHER_FIRST, 2),
                until: Place::Before(Actor::Balancer, 0),
                comes: Comes::Somebody,
            },
            Hold {
                name: "guest 0 inside, while the balancer is after its round",
                at: Place::Behind(Actor::Balancer, Answer::Any),
                until: Place::Inside(SECOND, 3),
                comes: Comes::Somebody,
            },
            Hold {
                name: "guest 1 inside, while the balancer is after its round",
                at: Place::Behind(Actor::Balancer, Answer::Any),
                until: Place::Inside(OTHER_SECOND, 3),
                comes: Comes::Somebody,
            },
            Hold {
                name: "the balancer after its round, at guest 0",
                at: Place::Before(SECOND, 3),
                until: Place::Behind(Actor::Balancer, Answer::Any),
                comes: Comes::Somebody,
            },
            Hold {
                name: "the balancer after its round, at guest 1",
                at: Place::Before(OTHER_SECOND, 3),
                until: Place::Behind(Actor::Balancer, Answer::Any),
                comes: Comes::Somebody,
            },
        ],
    },
    // Guest 0's worker has a while in which nobody rings.
    Row {
        name: "dropped bells",
        guests: TWO_GUESTS,
        frames: 64,
        balances: NO_BALANCE,
        bells: Bells::Drop,
        holds: &[Hold {
            name: "a while between two calls",
            at: Place::Before(FIRST, 1),
            until: Place::Nowhere,
            comes: Comes::Nobody,
        }],
    },
];

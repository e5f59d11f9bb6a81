//! Queues of a balloon over regions that start at an index and stop, and what is held of them.

ghost use Rattle.std.specs.Prelude.{◌≡◌};
ghost use Rattle.vb_c.specs.Codes.{kind_of_code};
ghost use Rattle.vb_c.specs.Queues.{StartsFor, StopsFor, ForgetsFor, SaysHeld};
ghost use Rattle.vb_c.specs.Queues.{code_of_stop, next_of};

use crate::kinds::kind_of_code;
use crate::registers::code_in;
use vb_core::{Denial, QueueStart};
use vb_monitor::{Balloon, NO_QUEUE, NOTHING, OK, Region, code_of};

/// The code of a stop's answer.
fn code_of_stop(answer: Result<u16, Denial>) -> u32
    ensures { result ≡ code_of_stop answer }
{
    match answer {
        Ok(_) => OK,
        Err(why) => code_of(why),
    }
}

/// The index that a stop's answer says; 0 where it is refused.
fn next_of(answer: Result<u16, Denial>) -> u16
    ensures { result ≡ next_of answer }
{
    answer.unwrap_or(0)
}

/// Starts a queue at an index, over regions.
#[unsafe(no_mangle)]
pub extern "C" fn vb_start_queue(
    balloon: &mut Balloon,
    regions: &[Region],
    kind: u32,
    at: QueueStart,
) -> u32
    ensures { StartsFor (kind_of_code kind) regions.now at balloon.old balloon.new result }
{
    match kind_of_code(kind) {
        None => NO_QUEUE,
        Some(kind) => code_in(balloon.start(regions, kind, &at)),
    }
}

/// Stops a queue, and says at which index it was.
#[unsafe(no_mangle)]
pub extern "C" fn vb_stop_queue(balloon: &mut Balloon, kind: u32, next: &mut u16) -> u32
    ensures { StopsFor (kind_of_code kind) balloon.old balloon.new next.new result }
{
    match kind_of_code(kind) {
        None => {
            *next = 0;
            NO_QUEUE
        }
        Some(kind) => {
            let answer = balloon.stop(kind);
            *next = next_of(answer);
            code_of_stop(answer)
        }
    }
}

/// Forgets the chain that is held of a queue.
#[unsafe(no_mangle)]
pub extern "C" fn vb_forget_held(balloon: &mut Balloon, kind: u32) -> u32
    ensures { ForgetsFor (kind_of_code kind) balloon.old balloon.new result }
{
    match kind_of_code(kind) {
        None => NO_QUEUE,
        Some(kind) => {
            if balloon.forget_held(kind) {
                OK
            } else {
                NOTHING
            }
        }
    }
}

/// Whether a chain is held of a queue, and how many pages it names.
#[unsafe(no_mangle)]
pub extern "C" fn vb_held(balloon: &Balloon, kind: u32, pages: &mut u32) -> u32
    ensures { SaysHeld (kind_of_code kind) balloon.now pages.new result }
{
    *pages = 0;
    match kind_of_code(kind) {
        None => NO_QUEUE,
        Some(kind) => match balloon.held_chain(kind) {
            None => NOTHING,
            Some(held) => {
                *pages = held.pages;
                OK
            }
        },
    }
}

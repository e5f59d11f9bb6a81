//! The codes that the exports answer, and the numbers by which a notice remembers a denial.

ghost use Rattle.std.specs.Prelude.{◌≡◌};
ghost use Rattle.vb_monitor.specs.Codes.{code_of, rule_in, fault_of, why_of, why_code, end_rule};

use crate::rules::{
    BAD_HEAD, BAD_LENGTH as WRONG_LENGTH, BAD_NEXT, BAD_PAGE, INDEX_JUMP, INDIRECT, OUT_OF_RAM,
    RESERVED_PAGE, TOO_LONG, WRONG_DIRECTION,
};
use vb_chain::ChainFault;
use vb_core::Denial;
use vb_request::rule_of;

/// What was asked for is done.
pub const OK: u32 = 0;

/// No chain is available.
pub const NOTHING: u32 = 1;

/// The guest's bytes break a rule (`rule`); DEVICE_NEEDS_RESET is set now.
pub const BROKEN: u32 = 2;

/// DRIVER_OK isn't set (vb_start_queue: FEATURES_OK isn't), or FAILED is.
pub const NOT_READY: u32 = 3;

/// A rule was broken before.
pub const NEEDS_RESET: u32 = 4;

/// No queue of that kind, or not with the negotiated features.
pub const NO_QUEUE: u32 = 5;

/// The queue has no place.
pub const MISPLACED: u32 = 6;

/// An argument out of range (settings, regions, a page), or too little room.
pub const BAD_ARGUMENT: u32 = 7;

/// The guests can't spare enough (`vb_policy_decide`).
pub const SHORT: u32 = 8;

/// Of a saved state: more or fewer bytes than it has (`vb_save`: less room).
pub const BAD_LENGTH: u32 = 9;

/// The bytes don't begin as a saved state does.
pub const NOT_A_STATE: u32 = 10;

/// Of the format of saved states.
pub const OTHER_VERSION: u32 = 11;

/// The bytes aren't those that were saved.
pub const BAD_SUM: u32 = 12;

/// No calls lead to a device like that.
pub const IMPOSSIBLE: u32 = 13;

/// Amid the notice its device was reset, or its queue moved or used.
pub const STALE: u32 = 14;

/// The code of a denial.
pub fn code_of(denial: Denial) -> u32
    ensures { result ≡ code_of denial }
{
    match denial {
        Denial::NoQueue => NO_QUEUE,
        Denial::BadArgument => BAD_ARGUMENT,
        Denial::NotReady => NOT_READY,
        Denial::NeedsReset => NEEDS_RESET,
        Denial::Misplaced => MISPLACED,
        Denial::Broken(_) => BROKEN,
    }
}

/// The rule that is broken; 0 for any other denial.
pub fn rule_in(denial: Denial) -> u32
    ensures { result ≡ rule_in denial }
{
    match denial {
        Denial::Broken(fault) => rule_of(fault),
        _ => 0,
    }
}

/// The rule of this number.
fn fault_of(rule: u32) -> Option<ChainFault>
    ensures { result ≡ fault_of rule }
{
    match rule {
        BAD_HEAD => Some(ChainFault::BadHead),
        BAD_NEXT => Some(ChainFault::BadNext),
        TOO_LONG => Some(ChainFault::TooLong),
        INDIRECT => Some(ChainFault::Indirect),
        WRONG_DIRECTION => Some(ChainFault::WrongDirection),
        OUT_OF_RAM => Some(ChainFault::OutOfRam),
        INDEX_JUMP => Some(ChainFault::IndexJump),
        WRONG_LENGTH => Some(ChainFault::BadLength),
        BAD_PAGE => Some(ChainFault::BadPage),
        RESERVED_PAGE => Some(ChainFault::ReservedPage),
        _ => None,
    }
}

/// The denial of this code and this rule, if it is one's.
pub(crate) fn why_of(code: u32, rule: u32) -> Option<Denial>
    ensures { result ≡ why_of code rule }
{
    match code {
        BROKEN => match fault_of(rule) {
            Some(fault) => Some(Denial::Broken(fault)),
            None => None,
        },
        NOT_READY => Some(Denial::NotReady),
        NEEDS_RESET => Some(Denial::NeedsReset),
        NO_QUEUE => Some(Denial::NoQueue),
        MISPLACED => Some(Denial::Misplaced),
        BAD_ARGUMENT => Some(Denial::BadArgument),
        _ => None,
    }
}

/// The code of why a chain isn't served; 0 where it is.
pub(crate) fn why_code(why: Option<Denial>) -> u32
    ensures { result ≡ why_code why }
{
    match why {
        Some(why) => code_of(why),
        None => OK,
    }
}

/// The rule that is broken; 0 where none is.
pub fn end_rule(why: Option<Denial>) -> u32
    ensures { result ≡ end_rule why }
{
    match why {
        Some(why) => rule_in(why),
        None => 0,
    }
}

//! The lines of refusals.

ghost use Rattle.std.specs.Prelude.{OnOk};
ghost use Rattle.vb_virtio.specs.declared.refusals.Refusal.TheVariants.{Short};
ghost use Rattle.vb_reply.specs.Held.{Puts};
ghost use Rattle.vb_reply.specs.Replies.{refusal_text};

use crate::held::{Failed, Held, put, put_number, put_with};
use std::io::Write;
use vb_virtio::Refusal;

/// Puts why an event was refused.
pub(crate) fn put_refusal<W: Write>(
    out: &mut W,
    held: &mut Held,
    refusal: Refusal,
) -> Result<(), Failed>
    ensures { OnOk result
        (Puts (W.contents out.old) held.old.text.items (W.contents out.new)
        held.new.text.items (refusal_text refusal)) }
{
    match refusal {
        Refusal::NoGuest => put(out, held, b"no guest"),
        Refusal::BadConfig => put(out, held, b"bad config"),
        Refusal::TooMany => put(out, held, b"too many"),
        Refusal::NoDevice => put(out, held, b"no device"),
        Refusal::BadOrder => put(out, held, b"bad order"),
        Refusal::BadCpu => put(out, held, b"bad cpu"),
        Refusal::NoPages => put(out, held, b"no pages"),
        Refusal::NotHeld => put(out, held, b"not held"),
        Refusal::NotReady => put(out, held, b"not ready"),
        Refusal::QueueFull => put(out, held, b"queue full"),
        Refusal::DeflatePending => put(out, held, b"deflate pending"),
        Refusal::Nothing => put(out, held, b"nothing"),
        Refusal::RingBroken => put(out, held, b"ring broken"),
        Refusal::NoFeature => put(out, held, b"no feature"),
        Refusal::AlreadyUp => put(out, held, b"already up"),
        Refusal::FeatureNotOffered => put(out, held, b"feature not offered"),
        Refusal::VersionMissing => put(out, held, b"version missing"),
        Refusal::ClearsBit => put(out, held, b"clears bit"),
        Refusal::OutOfOrder => put(out, held, b"out of order"),
        Refusal::NoQueue => put(out, held, b"no queue"),
        Refusal::NeedsReset => put(out, held, b"needs reset"),
        Refusal::Busy => put(out, held, b"busy"),
        Refusal::Broken { rule } => put_with(out, held, b"broken C", rule),
        Refusal::NotTaken => put(out, held, b"not taken"),
        Refusal::NotWorked => put(out, held, b"not worked"),
        Refusal::NotBallooned => put(out, held, b"not ballooned"),
        Refusal::OutOfRam => put(out, held, b"out of ram"),
        Refusal::NoFrame => put(out, held, b"no frame"),
        Refusal::NoMemory => put(out, held, b"memory"),
        Refusal::Short { missing } => put_short(out, held, missing),
    }
}

/// Puts how many pages stay missing.
fn put_short<W: Write>(out: &mut W, held: &mut Held, missing: u64) -> Result<(), Failed>
    ensures { OnOk result (Puts (W.contents out.old) held.old.text.items (W.contents out.new)
        held.new.text.items (refusal_text (Short missing))) }
{
    put(out, held, b"short ")?;
    put_number(out, held, missing)
}

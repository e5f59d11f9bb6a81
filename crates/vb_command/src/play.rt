//! Who answers a script's events.

ghost use Rattle.std.specs.Prelude.{◌≡◌, length, IfErr, List, vec_len, OnOk};
ghost use Rattle.std.specs.Io.KnownBytes.{Appends, Keeps};
ghost use Rattle.std.specs.List.{flat_map};
ghost use Rattle.vb_model.specs.declared.replies.Reply.{Reply as AnyReply};
ghost use Rattle.vb_reply.specs.Replies.{line_of};
ghost use Rattle.vb_script.specs.Scripts.{said_by};
ghost use Rattle.vb_script.specs.Texts.{Said};
ghost use Rattle.vb_command.specs.Plays.{IsPlayFault};
ghost use Rattle.vb_command.specs.declared.fault.ProgramFault.TheVariants.{Stream};

use crate::fault::ProgramFault;
use std::alloc::Global;
use std::io::Write;
use vb_model::Reply;
use vb_reply::write_replies;
use vb_script::Script;

/// A host that a script's events happen on.
pub trait Play {
    /// These are replies that this script may get.
    ghost played: { Said → List AnyReply → Type 0 };

    /// Makes the script's host, lets its events happen, and writes the line of what each is
    /// answered to `out`, in order. Fails on an allocation failure before the first event, with
    /// nothing written, or where a write does; then the writer has a first part of the lines.
    fn play<W: Write>(
        &mut self,
        alloc: Global,
        script: &Script,
        out: &mut W,
    ) -> Result<(), ProgramFault>
        ensures ok { OnOk result ((replies : List AnyReply) × played (said_by script.now) replies
            × (length replies ≡ vec_len script.now.events)
            × Appends (W.contents out.old) (W.contents out.new) (flat_map line_of replies)) }
        ensures err { IfErr result (λ fault.
            IsPlayFault fault (Keeps (W.contents out.old) (W.contents out.new))) };
}

/// Writes the line of each reply, in order, for a host that has them all. Fails where a write does;
/// then the writer has a first part of the lines.
pub fn write_lines<W: Write>(out: &mut W, replies: &[Reply]) -> Result<(), ProgramFault>
    ensures ok { OnOk result
        (Appends (W.contents out.old) (W.contents out.new) (flat_map line_of replies.now)) }
    ensures err { IfErr result (λ fault. fault ≡ Stream) }
{
    match write_replies(out, replies) {
        Ok(()) => Ok(()),
        Err(_fault) => Err(ProgramFault::Stream),
    }
}

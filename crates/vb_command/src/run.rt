//! The run of a script, from its bytes to the exit status.

ghost use Rattle.std.specs.Prelude.{◌≡◌, true, IfErr, IfOk, IfSome, OnOk};
ghost use Rattle.std.specs.Io.KnownBytes.{Keeps};
ghost use Rattle.std.specs.Option.{option_map};
ghost use Rattle.vb_script.specs.Scripts.{IfBadLine as IfBadScript, said_by};
ghost use Rattle.vb_script.specs.Texts.{begins_with_host, script_of};
ghost use Rattle.vb_command.specs.Ends.{Ends, IsWithinBound};
ghost use Rattle.vb_command.specs.Faults.{IfBadLine, UnlessStream};
ghost use Rattle.vb_command.specs.Plays.{MayGet, Prints, RunsSafely};
ghost use Rattle.vb_command.specs.declared.fault.ProgramFault.TheVariants.{Memory as NoMemory};
ghost use Rattle.vb_command.specs.declared.fault.ProgramFault.TheVariants.{Stream};

use crate::fault::{ProgramFault, SUCCESS, report};
use crate::host::Host;
use crate::input::read_text;
use crate::play::Play;
use std::alloc::Global;
use std::io::{Read, Write};
use vb_script::{Script, ScriptFault, parse};

/// Reads a script from `input`, makes its host and devices, lets its events happen, and writes a
/// line for each to `output`. Answers the exit status; where it is 1 or 3, `errors` has a line that
/// says why, and `output` nothing.
pub fn run_script<R, O, E>(alloc: Global, input: R, output: &mut O, errors: &mut E) -> u8
where
    R: Read + Drop,
    O: Write,
    E: Write,
    ensures { Ends RunsSafely (R.remaining input) (O.contents output.old) (O.contents output.new)
        (E.contents errors.old) (E.contents errors.new) result }
{
    run_script_on(alloc, &mut Host, input, output, errors)
}

/// Runs a script as `run_script` does, on a host that is passed.
pub fn run_script_on<P, R, O, E>(
    alloc: Global,
    host: &mut P,
    input: R,
    output: &mut O,
    errors: &mut E,
) -> u8
where
    P: Play,
    R: Read + Drop,
    O: Write,
    E: Write,
    ensures { Ends P.played (R.remaining input) (O.contents output.old) (O.contents output.new)
        (E.contents errors.old) (E.contents errors.new) result }
{
    match answer(alloc, host, input, output) {
        Ok(()) => SUCCESS,
        Err(fault) => report(&fault, errors),
    }
}

/// Reads a script, runs it and writes its replies.
fn answer<P: Play, R: Read + Drop, O: Write>(
    alloc: Global,
    host: &mut P,
    input: R,
    output: &mut O,
) -> Result<(), ProgramFault>
    ensures ok { OnOk result (IfSome (R.remaining input) (λ text. IsWithinBound text
        × Prints P.played (script_of text) (O.contents output.old) (O.contents output.new))) }
    ensures bad { IfErr result (λ fault. IfBadLine fault (λ number. IfSome (R.remaining input)
        (λ text. IsWithinBound text × (script_of text ≡ Err number)))) }
    ensures nothing { IfErr result
        (λ fault. UnlessStream fault (Keeps (O.contents output.old) (O.contents output.new))) }
{
    let text = read_text(alloc, input)?;
    play_into(alloc, host, text, output)
}

/// Runs a script and writes its replies to `out`, a line each. Nothing is written where a line of
/// the script is bad, or where there was no memory.
fn play_into<P: Play, W: Write>(
    alloc: Global,
    host: &mut P,
    text: Vec<u8>,
    out: &mut W,
) -> Result<(), ProgramFault>
    ensures ok { OnOk result
        (Prints P.played (script_of text.items) (W.contents out.old) (W.contents out.new)) }
    ensures bad { IfErr result
        (λ fault. IfBadLine fault (λ number. script_of text.items ≡ Err number)) }
    ensures nothing { IfErr result
        (λ fault. UnlessStream fault (Keeps (W.contents out.old) (W.contents out.new))) }
{
    play_text(alloc, host, text, out)?;
    flush(out)
}

/// Plays a text as `play_into` does, without the flush. Nothing happens where a line of the script
/// is bad, and nothing is written where it has none.
fn play_text<P: Play, W: Write>(
    alloc: Global,
    host: &mut P,
    text: Vec<u8>,
    out: &mut W,
) -> Result<(), ProgramFault>
    ensures ok { OnOk result
        (Prints P.played (script_of text.items) (W.contents out.old) (W.contents out.new)) }
    ensures bad { IfErr result
        (λ fault. IfBadLine fault (λ number. script_of text.items ≡ Err number)) }
    ensures nothing { IfErr result
        (λ fault. UnlessStream fault (Keeps (W.contents out.old) (W.contents out.new))) }
    ensures memory { result ≡ Err NoMemory → begins_with_host text.items ≡ true }
{
    match read_script(alloc, text)? {
        None => Ok(()),
        Some(script) => host.play(alloc, &script, out),
    }
}

/// Reads a script from its text, which is let go before anything runs.
fn read_script(alloc: Global, text: Vec<u8>) -> Result<Option<Script>, ScriptFault>
    ensures ok { IfOk result (λ script. script_of text.items ≡ Ok (option_map said_by script)) }
    ensures bad { IfErr result
        (λ fault. IfBadScript fault (λ number. script_of text.items ≡ Err number)) }
    ensures memory { result ≡ Err ScriptFault.Memory → begins_with_host text.items ≡ true }
{
    parse(alloc, text.as_slice())
}

/// Sees that what was written is no longer held anywhere; where that fails the run ends.
fn flush<W: Write>(out: &mut W) -> Result<(), ProgramFault>
    ensures same { Keeps (W.contents out.old) (W.contents out.new) }
    ensures err { IfErr result (λ fault. fault ≡ Stream) }
{
    match out.flush() {
        Ok(()) => Ok(()),
        Err(_fault) => Err(ProgramFault::Stream),
    }
}

//! The text that the program reads.

ghost use Rattle.std.specs.Prelude.{◌≡◌, ◌≤◌, ◌<◌, length, IfErr, IfOk, IfSome, MatchResult};
ghost use Rattle.vb_command.specs.Faults.{IfBadLine};
ghost use Rattle.vb_command.specs.declared.input.TheConstants.{MAX_INPUT};
ghost use Rattle.vb_command.specs.declared.fault.ProgramFault.TheVariants.{Stream};

use crate::fault::ProgramFault;
use std::alloc::Global;
use std::io::Read;

/// Bytes of a script: one more is a fault of input.
pub const MAX_INPUT: u64 = 67_108_864;

/// Reads all of the input, if it isn't too long.
pub fn read_text<R: Read + Drop>(alloc: Global, input: R) -> Result<Vec<u8>, ProgramFault>
    ensures ok { IfOk result
        (λ text. IfSome (R.remaining input) (λ whole. text.items ≡ whole)) }
    ensures few { IfOk result (λ text. length text.items ≤ MAX_INPUT) }
    ensures bad { IfErr result (λ fault. IfBadLine fault (λ number. ⊥)) }
{
    let mut text = Vec::new(alloc);
    input.take(MAX_INPUT + 1).read_to_end(&mut text)?;
    within_bound(text)
}

/// A text, if it isn't too long.
fn within_bound(text: Vec<u8>) -> Result<Vec<u8>, ProgramFault>
    ensures { MatchResult result
        (λ kept. (kept.items ≡ text.items) × (length text.items ≤ MAX_INPUT))
        (λ fault. (fault ≡ Stream) × (MAX_INPUT < length text.items)) }
{
    if text.len() as u64 > MAX_INPUT {
        return Err(ProgramFault::Stream);
    }
    Ok(text)
}

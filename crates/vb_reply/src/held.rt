//! Text that is held back for a writer, which so gets many pieces at once.

ghost use Rattle.std.specs.Prelude.{◌≡◌, ◌++◌, ◌≤◌, [], length, IfSome, OnOk};
ghost use Rattle.std.specs.Fmt.{decimal};
ghost use Rattle.std.specs.Io.KnownBytes.{Appends};
ghost use Rattle.hex.specs.Hex.{encode_lower};
ghost use Rattle.vb_reply.specs.Held.{Puts};
ghost use Rattle.vb_reply.specs.declared.held.TheConstants.{CHUNK};

use arrayvec::ArrayVec;
use std::io;
use std::io::{ErrorKind, Write};

/// Bytes that are held back at most.
const HELD: usize = 8192;

/// Bytes that are made digits of at once.
const CHUNK: usize = 256;

/// Text that is held back for one writer: what comes next goes after it. After the last text
/// `release` has to be called, or what is held is never written.
#[derive(Drop)]
pub struct Held {
    /// What the writer doesn't have yet.
    pub text: ArrayVec<u8, HELD>,
    /// Why a write to the writer failed, once one did.
    pub fault: Option<io::Error>,
}

/// A write to the writer failed, and what is held for it knows why. An `io::Error` is large, and is
/// carried through no call that puts a text.
#[derive(Clone, Copy)]
pub struct Failed;

impl Held {
    /// Nothing is held back yet.
    pub fn new() -> Held
        ensures { result.text.items ≡ [] }
    {
        Held {
            text: ArrayVec::new(),
            fault: None,
        }
    }

    /// Why a write failed, which each call that answers `Failed` has kept here.
    pub fn into_fault(self) -> io::Error
        ensures { IfSome self.fault (λ fault. result ≡ fault) }
    {
        match self.fault {
            Some(fault) => fault,
            None => io::Error::from(ErrorKind::Other),
        }
    }
}

/// Puts a text after what a writer has and what is held for it.
#[inline]
pub fn put<W: Write>(out: &mut W, held: &mut Held, text: &[u8]) -> Result<(), Failed>
    ensures { OnOk result
        (Puts (W.contents out.old) held.old.text.items (W.contents out.new)
        held.new.text.items text.now) }
{
    match held.text.try_extend_from_slice(text) {
        Ok(()) => Ok(()),
        Err(_full) => put_through(out, held, text),
    }
}

/// Writes what is held, and the text after it.
#[cold]
fn put_through<W: Write>(out: &mut W, held: &mut Held, text: &[u8]) -> Result<(), Failed>
    ensures { OnOk result
        (Puts (W.contents out.old) held.old.text.items (W.contents out.new)
        held.new.text.items text.now) }
{
    release(out, held)?;
    write(out, &mut held.fault, text)?;
    Ok(())
}

/// Writes a text, and keeps why that failed.
fn write<W: Write>(out: &mut W, fault: &mut Option<io::Error>, text: &[u8]) -> Result<(), Failed>
    ensures { OnOk result (Appends (W.contents out.old) (W.contents out.new) text.now) }
{
    match out.write_all(text) {
        Ok(()) => Ok(()),
        Err(why) => {
            *fault = Some(why);
            Err(Failed)
        }
    }
}

/// Writes what is held, and holds nothing then. Fails where a write to `out` does; what was written
/// until then is a first part of it.
pub fn release<W: Write>(out: &mut W, held: &mut Held) -> Result<(), Failed>
    ensures written { OnOk result
        (Appends (W.contents out.old) (W.contents out.new) held.old.text.items) }
    ensures empty { OnOk result (held.new.text.items ≡ []) }
{
    write(out, &mut held.fault, held.text.as_slice())?;
    held.text.clear();
    Ok(())
}

/// Puts a number in decimal digits.
#[inline]
pub fn put_number<W: Write>(out: &mut W, held: &mut Held, number: u64) -> Result<(), Failed>
    ensures { OnOk result (Puts (W.contents out.old) held.old.text.items (W.contents out.new)
        held.new.text.items (decimal number)) }
{
    if number < 10 {
        return put(out, held, &[b'0' + number as u8]);
    }
    put_digits_of(out, held, number)
}

/// Puts the digits of any number after what is held.
fn put_digits_of<W: Write>(out: &mut W, held: &mut Held, number: u64) -> Result<(), Failed>
    ensures { OnOk result (Puts (W.contents out.old) held.old.text.items (W.contents out.new)
        held.new.text.items (decimal number)) }
{
    let mut digits = itoa::Buffer::new();
    put(out, held, digits.format(number).as_bytes())
}

/// Puts a number after a text.
#[inline]
pub fn put_with<W: Write>(
    out: &mut W,
    held: &mut Held,
    text: &[u8],
    number: u32,
) -> Result<(), Failed>
    ensures { OnOk result (Puts (W.contents out.old) held.old.text.items (W.contents out.new)
        held.new.text.items (text.now ++ decimal number)) }
{
    put(out, held, text)?;
    put_number(out, held, u64::from(number))
}

/// Puts bytes as hexadecimal digits of lower case, two a byte.
pub fn put_digits<W: Write>(out: &mut W, held: &mut Held, bytes: &[u8]) -> Result<(), Failed>
    ensures { OnOk result (Puts (W.contents out.old) held.old.text.items (W.contents out.new)
        held.new.text.items (encode_lower bytes.now)) }
{
    if bytes.len() <= CHUNK {
        return put_chunk(out, held, bytes);
    }
    let (first, rest) = bytes.split_at(CHUNK);
    put_chunk(out, held, first)?;
    put_digits(out, held, rest)?;
    Ok(())
}

/// Puts at most `CHUNK` bytes as digits, all at once.
fn put_chunk<W: Write>(out: &mut W, held: &mut Held, bytes: &[u8]) -> Result<(), Failed>
    requires { length bytes.now ≤ CHUNK }
    ensures { OnOk result (Puts (W.contents out.old) held.old.text.items (W.contents out.new)
        held.new.text.items (encode_lower bytes.now)) }
{
    let mut digits = [0u8; 2 * CHUNK];
    let text = &mut digits[..2 * bytes.len()];
    let Ok(()) = hex::encode_to_slice(bytes, text) else {
        unreachable!();
    };
    put(out, held, text)
}

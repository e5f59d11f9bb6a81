//! A device that is saved and restored: what is kept of it, and the calls.

ghost use Rattle.std.specs.Prelude.{◌≡◌, ◌≤◌, ◌++◌, true, Some, None, Ok, Err, drop, length};
ghost use Rattle.vb_core.specs.declared.saved.StateDenial.{StateDenial};
ghost use Rattle.vb_core.specs.Format.{FitsSaved, saved_bytes};
ghost use Rattle.vb_core.specs.Saved.{save_denial, is_state, has_version, has_length, has_sum};
ghost use Rattle.vb_core.specs.Saved.{header_denial, read_saved, restored, is_version, length_of};
ghost use Rattle.vb_core.specs.Saved.{is_length};

use crate::format::{
    CHECKSUM_LENGTH, FORMAT_VERSION, HEADER_LENGTH, LENGTH_AT, MAGIC, OLDER_LENGTH, OLDER_VERSION,
    OLDEST_LENGTH, OLDEST_VERSION, SAVED_LENGTH, VERSION_AT, checksum, push_saved,
};
use crate::reading::{state_in, u32_at, u64_at};
use crate::{Device, Held};
use arrayvec::ArrayVec;

/// Why a device isn't saved or restored.
#[derive(Clone, Copy, Debug, PartialEq, Eq)]
pub enum StateDenial {
    /// There are fewer bytes than a saved device has, or more, or its length says otherwise.
    BadLength,
    /// The bytes don't begin as a saved device does.
    NotAState,
    /// The format has another version.
    OtherVersion,
    /// The bytes don't have the checksum that comes after them.
    BadSum,
    /// No calls of a device lead to that state.
    Impossible,
}

/// What is saved of a device.
#[repr(C)]
#[derive(Clone, Copy, Debug)]
pub struct Saved {
    /// The device.
    pub device: Device,
    /// The chains that were taken, and wait until they are asked for.
    pub held: Held,
}

/// Puts bytes into the front.
fn put_front(bytes: &[u8], out: &mut [u8])
    requires count { length bytes.now ≡ SAVED_LENGTH }
    requires room { SAVED_LENGTH ≤ length out.old }
    ensures { out.new ≡ bytes.now ++ drop SAVED_LENGTH out.old }
{
    out[..SAVED_LENGTH].copy_from_slice(bytes);
}

/// Whether bytes begin as a saved device does.
fn is_state(bytes: &[u8]) -> bool
    requires { HEADER_LENGTH ≤ length bytes.now }
    ensures { result ≡ is_state bytes.now }
{
    u64_at(bytes, 0) == MAGIC
}

/// Whether this version is read here.
fn is_version(version: u32) -> bool
    ensures { result ≡ is_version version }
{
    version == FORMAT_VERSION || version == OLDER_VERSION || version == OLDEST_VERSION
}

/// Whether they have a version that is read here.
fn has_version(bytes: &[u8]) -> bool
    requires { HEADER_LENGTH ≤ length bytes.now }
    ensures { result ≡ has_version bytes.now }
{
    is_version(u32_at(bytes, VERSION_AT))
}

/// How many bytes a version has.
fn length_of(version: u32) -> usize
    ensures value { result ≡ length_of version }
    ensures length { is_length result ≡ true }
    ensures few { result ≤ SAVED_LENGTH }
{
    match version {
        OLDEST_VERSION => OLDEST_LENGTH,
        OLDER_VERSION => OLDER_LENGTH,
        _ => SAVED_LENGTH,
    }
}

/// Whether they are as many as a saved device of their version has, and say so.
fn has_length(bytes: &[u8]) -> bool
    requires { HEADER_LENGTH ≤ length bytes.now }
    ensures value { result ≡ has_length bytes.now }
    ensures length { result ≡ true → is_length (length bytes.now) ≡ true }
{
    let length = length_of(u32_at(bytes, VERSION_AT));
    u32_at(bytes, LENGTH_AT) == length as u32 && bytes.len() == length
}

/// Whether their checksum comes after them.
fn has_sum(bytes: &[u8]) -> bool
    requires { is_length (length bytes.now) ≡ true }
    ensures { result ≡ has_sum bytes.now }
{
    let end = bytes.len() - CHECKSUM_LENGTH;
    u64_at(bytes, end) == checksum(&bytes[..end])
}

/// What the header refuses.
fn header_denial(bytes: &[u8]) -> Option<StateDenial>
    ensures value { result ≡ header_denial bytes.now }
    ensures length { result ≡ None → is_length (length bytes.now) ≡ true }
{
    if bytes.len() < HEADER_LENGTH {
        return Some(StateDenial::BadLength);
    }
    if !is_state(bytes) {
        return Some(StateDenial::NotAState);
    }
    if !has_version(bytes) {
        return Some(StateDenial::OtherVersion);
    }
    if !has_length(bytes) {
        return Some(StateDenial::BadLength);
    }
    None
}

/// The device of bytes with a good header, or what refuses them.
fn read_saved(bytes: &[u8]) -> Result<Saved, StateDenial>
    requires { is_length (length bytes.now) ≡ true }
    ensures { result ≡ read_saved bytes.now }
{
    if !has_sum(bytes) {
        return Err(StateDenial::BadSum);
    }
    let saved = state_in(bytes);
    if !saved.is_possible() {
        return Err(StateDenial::Impossible);
    }
    Ok(saved)
}

impl Saved {
    /// What refuses to be put into this much room.
    fn save_denial(&self, room: usize) -> Option<StateDenial>
        ensures value { result ≡ save_denial self.now room }
        ensures room { result ≡ None → SAVED_LENGTH ≤ room }
    {
        if room < SAVED_LENGTH {
            return Some(StateDenial::BadLength);
        }
        if !self.is_possible() {
            return Some(StateDenial::Impossible);
        }
        None
    }

    /// Puts its bytes into the front of `out`: `SAVED_LENGTH` of them, which `Saved::restore`
    /// takes.
    ///
    /// Refused, tested in this order, and then nothing is changed: `BadLength` where there is less
    /// room; `Impossible` where no calls of a device lead to that state.
    pub fn save(&self, out: &mut [u8]) -> Result<(), StateDenial>
        ensures denied { (why : StateDenial) → save_denial self.now (length out.old) ≡ Some why →
            (result ≡ Err why) × (out.new ≡ out.old) }
        ensures saved { save_denial self.now (length out.old) ≡ None →
            (result ≡ Ok tt) × FitsSaved self.now ×
            (out.new ≡ saved_bytes self.now ++ drop SAVED_LENGTH out.old) }
    {
        match self.save_denial(out.len()) {
            Some(why) => Err(why),
            None => {
                let mut bytes = ArrayVec::new();
                push_saved(&mut bytes, self);
                put_front(bytes.as_slice(), out);
                Ok(())
            }
        }
    }

    /// The device of these bytes, which `Saved::save` made, of this version or one of the two
    /// before: devices of both have no hints, and those of the oldest hold no deflates.
    ///
    /// Refused, tested in this order: `BadLength` where they aren't even a header; `NotAState`;
    /// `OtherVersion`; `BadLength`; `BadSum`; `Impossible`.
    pub fn restore(bytes: &[u8]) -> Result<Saved, StateDenial>
        ensures { result ≡ restored bytes.now }
    {
        match header_denial(bytes) {
            Some(why) => Err(why),
            None => read_saved(bytes),
        }
    }
}

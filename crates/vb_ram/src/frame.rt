//! A frame of the host.

ghost use Rattle.std.specs.Prelude.{◌≡◌, ℕ, ◌+◌, ◌<◌, ◌≤◌, IfOk, IfErr, length, slice_index};
ghost use Rattle.std.specs.Prelude.{vec_capacity};
ghost use Rattle.vb_ram.specs.Blank.{shown, HoldsPage};
ghost use Rattle.vb_ram.specs.Put.{PutAt};
ghost use Rattle.vb_virtio.specs.Memory.{zero_page};
ghost use Rattle.vb_virtio.specs.declared.limits.TheConstants.{PAGE_SIZE};

use crate::RamFault;
use std::alloc::Global;
use std::marker::Model;
use vb_virtio::limits;

/// The bytes of a page, and of a frame.
pub const PAGE_SIZE: usize = limits::PAGE_SIZE as usize;

/// A page of zeros.
pub(crate) static ZEROS: [u8; PAGE_SIZE] = [0; PAGE_SIZE];

/// How many zeros are held at the most after the last byte that is written past those that are
/// held, so that writes in rising order don't each add a few.
const ZEROS_AHEAD: usize = 240;

/// A frame of the host: a number, and `PAGE_SIZE` bytes. It can't be cloned, so it
/// has one owner; that no other frame has its number is the duty of its maker.
#[derive(Drop)]
pub struct Frame {
    /// Which of the host's frames it is.
    number: u32,
    /// Its first bytes. Those that aren't held, up to `PAGE_SIZE`, are zeros, so a write takes no
    /// time for what comes after it. There is room for all of them from the start.
    bytes: Vec<u8>,
}

impl Model for Frame {
    ghost use Rattle.std.specs.Prelude.{vec_capacity};
    ghost use Rattle.vb_ram.specs.Blank.{shown, HoldsPage};
    ghost use Rattle.vb_ram.specs.Pages.{Page};

    ghost Value = { Page };

    ghost view = { λ f. record { number = f.number; bytes = shown f.bytes.items } };

    ghost invariant = { λ f. HoldsPage f.bytes.items (vec_capacity f.bytes) };
}

impl Frame {
    /// A frame of this number, of zeros. Refused with `Memory` alone.
    pub fn fresh(alloc: Global, number: u32) -> Result<Frame, RamFault>
        ensures ok { IfOk result (λ frame. frame ≡ record { number = number; bytes = zero_page }) }
        ensures err { IfErr result (λ fault. fault ≡ RamFault.Memory) }
    {
        let bytes = Vec::with_capacity(alloc, PAGE_SIZE)?;
        Ok(Frame { number, bytes })
    }

    /// The frame's number.
    pub fn number(&self) -> u32
        ensures number { result ≡ self.now.number }
        ensures whole { length self.now.bytes ≡ PAGE_SIZE }
    {
        self.number
    }

    /// Reads the bytes from an offset on, as many as `out` has.
    #[inline]
    pub(crate) fn get(&self, offset: usize, out: &mut [u8])
        requires { offset + length out.old ≤ PAGE_SIZE }
        ensures len { length out.new ≡ length out.old }
        ensures read { (k : ℕ) → k < length out.old →
            slice_index out.new k ≡ slice_index self.now.bytes (offset + k) }
    {
        read_bytes(&self.bytes, offset, out);
    }

    /// Makes all bytes zeros: they are forgotten.
    pub(crate) fn clear(&mut self)
        ensures { self.new ≡ record self.old { bytes = zero_page } }
    {
        self.bytes.clear();
    }

    /// Writes bytes from an offset on.
    pub(crate) fn put(&mut self, offset: usize, bytes: &[u8])
        requires { offset + length bytes.now ≤ PAGE_SIZE }
        ensures put { PutAt self.old.bytes self.new.bytes offset bytes.now }
        ensures number { self.new.number ≡ self.old.number }
        ensures len { length self.new.bytes ≡ length self.old.bytes }
        ensures whole { length self.new.bytes ≡ PAGE_SIZE }
    {
        hold(&mut self.bytes, offset + bytes.len());
        put_bytes(&mut self.bytes, offset, bytes);
    }
}

/// Holds the bytes up to an end: where they aren't held, the zeros that they are.
#[inline]
fn hold(held: &mut Vec<u8>, end: usize)
    requires few { end ≤ PAGE_SIZE }
    requires holds { HoldsPage held.old.items (vec_capacity held.old) }
    ensures shown { shown held.new.items ≡ shown held.old.items }
    ensures holds { HoldsPage held.new.items (vec_capacity held.new) }
    ensures enough { end ≤ length held.new.items }
{
    if end > held.len() {
        hold_zeros(held, end);
    }
}

/// Holds the zeros up to an end, and some after it.
#[inline(never)]
fn hold_zeros(held: &mut Vec<u8>, end: usize)
    requires few { end ≤ PAGE_SIZE }
    requires more { length held.old.items ≤ end }
    requires holds { HoldsPage held.old.items (vec_capacity held.old) }
    ensures shown { shown held.new.items ≡ shown held.old.items }
    ensures holds { HoldsPage held.new.items (vec_capacity held.new) }
    ensures enough { end ≤ length held.new.items }
{
    match held.resize((end + ZEROS_AHEAD).min(PAGE_SIZE), 0) {
        Ok(()) => (),
        Err(_) => unreachable!(),
    }
}

/// Reads bytes from an offset on, and zeros after the last one.
#[inline]
fn read_bytes(held: &[u8], offset: usize, out: &mut [u8])
    requires { offset + length out.old ≤ PAGE_SIZE }
    ensures len { length out.new ≡ length out.old }
    ensures read { (k : ℕ) → k < length out.old →
        slice_index out.new k ≡ slice_index held.now (offset + k) }
{
    if offset + out.len() <= held.len() {
        out.copy_from_slice(&held[offset..offset + out.len()]);
    } else if offset >= held.len() {
        out.fill(0);
    } else {
        read_last(&held[offset..], out);
    }
}

/// Reads bytes, and zeros after the last one.
#[inline(never)]
fn read_last(held: &[u8], out: &mut [u8])
    requires { length held.now ≤ length out.old }
    ensures len { length out.new ≡ length out.old }
    ensures read { (k : ℕ) → slice_index out.new k ≡ slice_index held.now k }
{
    out.fill(0);
    out[..held.len()].copy_from_slice(held);
}

/// Writes bytes from an offset on.
#[inline]
fn put_bytes(old: &mut [u8], offset: usize, bytes: &[u8])
    requires { offset + length bytes.now ≤ length old.old }
    ensures put { PutAt old.old old.new offset bytes.now }
    ensures len { length old.new ≡ length old.old }
{
    old[offset..offset + bytes.len()].copy_from_slice(bytes);
}

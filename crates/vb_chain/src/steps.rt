//! The walk along a chain.

ghost use Rattle.std.specs.Prelude.{◌≡◌, ◌+◌, ◌*◌, ◌<◌, ◌≤◌, IfOk, IfErr, IsOk, IsOkAnd};
ghost use Rattle.std.specs.Prelude.{OnOk, OnErr, List, [], length};
ghost use Rattle.vb_ram.specs.Pages.{end_of};
ghost use Rattle.vb_chain.specs.declared.pieces.TheConstants.{MAX_DESCRIPTORS};
ghost use Rattle.vb_chain.specs.Table.{descriptor_at};
ghost use Rattle.vb_chain.specs.Rules.{first_fault};
ghost use Rattle.vb_chain.specs.Chain.{ChainGives, FaultGives};

use crate::{Chain, ChainFault, Descriptor, Piece, read_descriptor};
use vb_ram::GuestBytes;
use vb_virtio::limits;

/// The first rule that a descriptor breaks, after `visited` others, in a table of `size`
/// descriptors and memory that ends at `end`; `writing` says that one that the device writes came
/// before (VIRTIO 1.1, 2.6.5). The rules are tested in the order in which `walk` has them.
pub fn descriptor_fault(
    size: u16,
    end: u64,
    writing: bool,
    visited: u16,
    descriptor: &Descriptor,
) -> Option<ChainFault>
    ensures { result ≡ first_fault size end writing visited descriptor.now }
{
    if descriptor.is_indirect() {
        return Some(ChainFault::Indirect);
    }
    if descriptor.addr > end || u64::from(descriptor.len) > end - descriptor.addr {
        return Some(ChainFault::OutOfRam);
    }
    if writing && !descriptor.is_writable() {
        return Some(ChainFault::WrongDirection);
    }
    if descriptor.has_next() {
        if descriptor.next >= size {
            return Some(ChainFault::BadNext);
        }
        if u32::from(visited) + 1 >= u32::from(size) {
            return Some(ChainFault::TooLong);
        }
    }
    None
}

/// The chain from a head, through the table of `size` descriptors at the start of a page; or the
/// first fault on the way (VIRTIO 1.1, 2.6.5).
///
/// `BadHead` where the head is `size` or more. Then each descriptor is tested in turn, in this
/// order: `Indirect`; `OutOfRam` where `addr + len`, without wrapping, is past the end of memory;
/// `WrongDirection` where it is to be read and one before it is to be written; and where NEXT is
/// set, `BadNext` where `next` is `size` or more, and `TooLong` where it is number `size` of the
/// chain. Other flag bits are ignored, and a length of 0 is accepted (profile).
///
/// Each call makes a `Chain` of 4 KiB, zeroes it and moves it to the caller, which takes several
/// times as long as the walk along a short chain: a caller that reads many chains keeps one, and
/// calls `walk_into`.
pub fn walk<G: GuestBytes>(ram: &G, table: u32, head: u16, size: u16) -> Result<Chain, ChainFault>
    requires table { table < length (G.mem ram.now) }
    requires size { size ≤ MAX_DESCRIPTORS }
    ensures chain { IfOk result (λ chain.
        ChainGives (descriptor_at (G.mem ram.now) table) size (end_of (G.mem ram.now)) head chain) }
    ensures fault { IfErr result (λ f.
        FaultGives (descriptor_at (G.mem ram.now) table) size (end_of (G.mem ram.now)) head f) }
    ensures short { IfOk result (λ chain. (0 < length chain) × (length chain ≤ size)) }
    ensures each_chain { (pieces : List Piece) →
        ChainGives (descriptor_at (G.mem ram.now) table) size (end_of (G.mem ram.now)) head pieces →
        IsOkAnd result (λ got. got ≡ pieces) }
    ensures each_fault { (f : ChainFault) →
        FaultGives (descriptor_at (G.mem ram.now) table) size (end_of (G.mem ram.now)) head f →
        result ≡ Err f }
{
    let mut chain = Chain::new();
    match walk_into(ram, table, head, size, &mut chain) {
        Ok(()) => Ok(chain),
        Err(fault) => Err(fault),
    }
}

/// Walks along a chain as `walk` does, into a chain that the caller keeps, so that none is made or
/// moved. What the chain held before is gone; where the walk ends with a fault, it is left with no
/// piece.
pub fn walk_into<G: GuestBytes>(
    ram: &G,
    table: u32,
    head: u16,
    size: u16,
    chain: &mut Chain,
) -> Result<(), ChainFault>
    requires table { table < length (G.mem ram.now) }
    requires size { size ≤ MAX_DESCRIPTORS }
    ensures chain { OnOk result (ChainGives
        (descriptor_at (G.mem ram.now) table) size (end_of (G.mem ram.now)) head chain.new) }
    ensures fault { IfErr result (λ f.
        FaultGives (descriptor_at (G.mem ram.now) table) size (end_of (G.mem ram.now)) head f) }
    ensures none { OnErr result (chain.new ≡ []) }
    ensures short { OnOk result ((0 < length chain.new) × (length chain.new ≤ size)) }
    ensures each_chain { (pieces : List Piece) →
        ChainGives (descriptor_at (G.mem ram.now) table) size (end_of (G.mem ram.now)) head pieces →
        IsOk result × (chain.new ≡ pieces) }
    ensures each_fault { (f : ChainFault) →
        FaultGives (descriptor_at (G.mem ram.now) table) size (end_of (G.mem ram.now)) head f →
        result ≡ Err f }
{
    chain.clear();
    match follow(ram, table, head, size, chain) {
        Ok(()) => Ok(()),
        Err(fault) => {
            chain.clear();
            Err(fault)
        }
    }
}

/// The walk itself, one descriptor after the other.
fn follow<G: GuestBytes>(
    ram: &G,
    table: u32,
    head: u16,
    size: u16,
    chain: &mut Chain,
) -> Result<(), ChainFault>
    requires table { table < length (G.mem ram.now) }
    requires size { size ≤ MAX_DESCRIPTORS }
    requires empty { chain.old ≡ [] }
    ensures chain { OnOk result (ChainGives
        (descriptor_at (G.mem ram.now) table) size (end_of (G.mem ram.now)) head chain.new) }
    ensures fault { IfErr result (λ f.
        FaultGives (descriptor_at (G.mem ram.now) table) size (end_of (G.mem ram.now)) head f) }
{
    if head >= size {
        return Err(ChainFault::BadHead);
    }
    let end = limits::PAGE_SIZE as u64 * u64::from(ram.pages());
    let mut writing = false;
    let mut index = head;
    for visited in 0..size {
        let descriptor = read_descriptor(ram, table, index);
        if let Some(fault) = descriptor_fault(size, end, writing, visited, &descriptor) {
            return Err(fault);
        }
        let writable = descriptor.is_writable();
        chain.push(Piece {
            addr: descriptor.addr,
            len: descriptor.len,
            writable,
        });
        writing |= writable;
        if !descriptor.has_next() {
            return Ok(());
        }
        index = descriptor.next;
    }
    unreachable!()
}

//! A chain as a driver writes it.

ghost use Rattle.std.specs.Prelude.{◌≡◌, ◌≢◌, ℕ, ◌+◌, ◌*◌, ◌<◌, ◌≤◌, IsSome, length, slice_index};
ghost use Rattle.vb_ram.specs.Pages.{frame_at, end_of, SameBut};
ghost use Rattle.vb_chain.specs.declared.descriptor.TheConstants.{DESCRIPTOR_SIZE};
ghost use Rattle.vb_chain.specs.declared.descriptor.TheConstants.{DESCRIPTORS_IN_A_PAGE};
ghost use Rattle.vb_chain.specs.Table.{descriptor_at};
ghost use Rattle.vb_chain.specs.Written.{flags_of, linked, IsRoute, AreSound};
ghost use Rattle.vb_chain.specs.Chain.{ChainGives};

use crate::{Descriptor, Piece, VIRTQ_DESC_F_NEXT, VIRTQ_DESC_F_WRITE, write_descriptor};
use vb_ram::GuestBytes;

/// The flags of a descriptor that goes on or not, and is the device's to write or to read.
fn flags_of(more: bool, writable: bool) -> u16
    ensures { result ≡ flags_of more writable }
{
    match (more, writable) {
        (true, true) => VIRTQ_DESC_F_NEXT | VIRTQ_DESC_F_WRITE,
        (true, false) => VIRTQ_DESC_F_NEXT,
        (false, true) => VIRTQ_DESC_F_WRITE,
        (false, false) => 0,
    }
}

/// Writes a chain of these pieces: descriptor `path[k]` of the table of `size` descriptors at the
/// start of a page is piece k, and goes on to `path[k + 1]`; the last has no NEXT, and `next` 0
/// (VIRTIO 1.1, 2.6.13.1). All other descriptors are left alone.
pub fn write_chain<G: GuestBytes>(
    ram: &mut G,
    table: u32,
    size: u16,
    path: &[u16],
    pieces: &[Piece],
)
    requires page { table < length (G.mem ram.old) }
    requires backed { IsSome (frame_at (G.mem ram.old) table) }
    requires size { size ≤ DESCRIPTORS_IN_A_PAGE }
    requires pair { length path.now ≡ length pieces.now }
    requires route { IsRoute size path.now }
    ensures put { (k : ℕ) → k < length path.now →
        descriptor_at (G.mem ram.new) table (slice_index path.now k) ≡
        linked path.now pieces.now k }
    ensures others { (i : ℕ) → ((k : ℕ) → k < length path.now → slice_index path.now k ≢ i) →
        descriptor_at (G.mem ram.new) table i ≡ descriptor_at (G.mem ram.old) table i }
    ensures chain { AreSound (end_of (G.mem ram.new)) pieces.now → length path.now ≤ size →
        ChainGives (descriptor_at (G.mem ram.new) table) size (end_of (G.mem ram.new))
        (slice_index path.now 0) pieces.now }
    ensures part { G.part ram.new ≡ G.part ram.old }
    ensures rest { SameBut (G.mem ram.old) (G.mem ram.new) table 0 (DESCRIPTOR_SIZE * size) }
{
    for k in 0..path.len() {
        let piece = pieces[k];
        let next = if k + 1 < path.len() { path[k + 1] } else { 0 };
        let flags = flags_of(k + 1 < path.len(), piece.writable);
        write_descriptor(
            ram,
            table,
            path[k],
            Descriptor {
                addr: piece.addr,
                len: piece.len,
                flags,
                next,
            },
        );
    }
}

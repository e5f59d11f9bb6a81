//! A table of descriptors, at the start of a page.

ghost use Rattle.std.specs.Prelude.{◌≡◌, ◌+◌, ◌*◌, ◌<◌, IsSome, length};
ghost use Rattle.vb_ram.specs.Pages.{frame_at, SameBut};
ghost use Rattle.vb_chain.specs.declared.descriptor.TheConstants.{DESCRIPTOR_SIZE};
ghost use Rattle.vb_chain.specs.declared.descriptor.TheConstants.{DESCRIPTORS_IN_A_PAGE};
ghost use Rattle.vb_chain.specs.Table.{descriptor_at, bytes_of, FitsBytes};

use crate::{DESCRIPTOR_SIZE, Descriptor};
use byteorder::{ByteOrder, LittleEndian};
use vb_ram::GuestBytes;

/// Reads the descriptor of a number, in the table at the start of a page (VIRTIO 1.1, 2.6.5). Its
/// bytes are read at once.
pub fn read_descriptor<G: GuestBytes>(ram: &G, page: u32, index: u16) -> Descriptor
    requires page { page < length (G.mem ram.now) }
    requires index { index < DESCRIPTORS_IN_A_PAGE }
    ensures { result ≡ descriptor_at (G.mem ram.now) page index }
{
    let mut bytes = [0; DESCRIPTOR_SIZE];
    let _ = ram.read(page, DESCRIPTOR_SIZE * usize::from(index), &mut bytes);
    Descriptor {
        addr: LittleEndian::read_u64(&bytes),
        len: LittleEndian::read_u32(&bytes[8..]),
        flags: LittleEndian::read_u16(&bytes[12..]),
        next: LittleEndian::read_u16(&bytes[14..]),
    }
}

/// The bytes of a descriptor with these fields.
fn bytes_of(addr: u64, len: u32, flags: u16, next: u16) -> [u8; DESCRIPTOR_SIZE]
    ensures bytes { result ≡
        bytes_of (record { addr = addr; len = len; flags = flags; next = next }) }
    ensures fits { FitsBytes (record { addr = addr; len = len; flags = flags; next = next }) }
{
    let mut bytes = [0; DESCRIPTOR_SIZE];
    LittleEndian::write_u64(&mut bytes, addr);
    LittleEndian::write_u32(&mut bytes[8..], len);
    LittleEndian::write_u16(&mut bytes[12..], flags);
    LittleEndian::write_u16(&mut bytes[14..], next);
    bytes
}

/// Writes the descriptor of a number, in the table at the start of a page, and nothing else.
pub fn write_descriptor<G: GuestBytes>(ram: &mut G, page: u32, index: u16, descriptor: Descriptor)
    requires page { page < length (G.mem ram.old) }
    requires backed { IsSome (frame_at (G.mem ram.old) page) }
    requires index { index < DESCRIPTORS_IN_A_PAGE }
    ensures part { G.part ram.new ≡ G.part ram.old }
    ensures put { descriptor_at (G.mem ram.new) page index ≡ descriptor }
    ensures rest { SameBut (G.mem ram.old) (G.mem ram.new) page (DESCRIPTOR_SIZE * index)
        (DESCRIPTOR_SIZE * index + DESCRIPTOR_SIZE) }
{
    let bytes = bytes_of(
        descriptor.addr,
        descriptor.len,
        descriptor.flags,
        descriptor.next,
    );
    let _ = ram.write(page, DESCRIPTOR_SIZE * usize::from(index), &bytes);
}

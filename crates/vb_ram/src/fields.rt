//! Numbers in guest memory, lowest byte first (VIRTIO 1.1, 1.4). Their bytes are std's
//! `to_le_bytes` and `from_le_bytes`, whose meaning computes and whose law back and forth std
//! proves.

ghost use Rattle.std.specs.Prelude.{◌≡◌, ◌<◌, IsSome};
ghost use Rattle.vb_ram.specs.Pages.{field, frame_at, Covers, PutField};

use crate::GuestBytes;

/// The number that the 2 bytes from an offset of a page on are, lowest byte first.
pub fn read_u16<G: GuestBytes>(ram: &G, page: u32, offset: usize) -> u16
    requires { Covers (G.mem ram.now) page offset 2 }
    ensures { result ≡ field 2 (G.mem ram.now) page offset }
{
    let mut bytes = [0; 2];
    let _ = ram.read(page, offset, &mut bytes);
    u16::from_le_bytes(bytes)
}

/// Puts a number into the 2 bytes from an offset of a page on, lowest byte first, and changes
/// nothing else.
pub fn write_u16<G: GuestBytes>(ram: &mut G, page: u32, offset: usize, value: u16)
    requires covers { Covers (G.mem ram.old) page offset 2 }
    requires backed { IsSome (frame_at (G.mem ram.old) page) }
    ensures put { PutField 2 (G.mem ram.old) (G.mem ram.new) page offset value }
    ensures part { G.part ram.new ≡ G.part ram.old }
{
    let bytes: [u8; 2] = value.to_le_bytes();
    let _ = ram.write(page, offset, &bytes);
}

/// The number that the 4 bytes from an offset of a page on are, lowest byte first.
pub fn read_u32<G: GuestBytes>(ram: &G, page: u32, offset: usize) -> u32
    requires { Covers (G.mem ram.now) page offset 4 }
    ensures { result ≡ field 4 (G.mem ram.now) page offset }
{
    let mut bytes = [0; 4];
    let _ = ram.read(page, offset, &mut bytes);
    u32::from_le_bytes(bytes)
}

/// Puts a number into the 4 bytes from an offset of a page on, lowest byte first, and changes
/// nothing else.
pub fn write_u32<G: GuestBytes>(ram: &mut G, page: u32, offset: usize, value: u32)
    requires covers { Covers (G.mem ram.old) page offset 4 }
    requires backed { IsSome (frame_at (G.mem ram.old) page) }
    ensures put { PutField 4 (G.mem ram.old) (G.mem ram.new) page offset value }
    ensures part { G.part ram.new ≡ G.part ram.old }
{
    let bytes: [u8; 4] = value.to_le_bytes();
    let _ = ram.write(page, offset, &bytes);
}

/// The number that the 8 bytes from an offset of a page on are, lowest byte first.
pub fn read_u64<G: GuestBytes>(ram: &G, page: u32, offset: usize) -> u64
    requires { Covers (G.mem ram.now) page offset 8 }
    ensures { result ≡ field 8 (G.mem ram.now) page offset }
{
    let mut bytes = [0; 8];
    let _ = ram.read(page, offset, &mut bytes);
    u64::from_le_bytes(bytes)
}

/// Puts a number into the 8 bytes from an offset of a page on, lowest byte first, and changes
/// nothing else.
pub fn write_u64<G: GuestBytes>(ram: &mut G, page: u32, offset: usize, value: u64)
    requires covers { Covers (G.mem ram.old) page offset 8 }
    requires backed { IsSome (frame_at (G.mem ram.old) page) }
    ensures put { PutField 8 (G.mem ram.old) (G.mem ram.new) page offset value }
    ensures part { G.part ram.new ≡ G.part ram.old }
{
    let bytes: [u8; 8] = value.to_le_bytes();
    let _ = ram.write(page, offset, &bytes);
}

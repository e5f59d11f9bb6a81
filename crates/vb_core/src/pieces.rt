//! The pieces of a chain, as plain data.

ghost use Rattle.std.specs.Prelude.{◌≡◌};
ghost use Rattle.vb_core.specs.Pieces.{piece_in};

use vb_chain::Piece;

/// A part of guest memory that a chain gives to the device, as plain data.
#[repr(C)]
#[derive(Clone, Copy, Debug)]
pub struct ChainPiece {
    /// Where it begins in guest memory, in bytes.
    pub address: u64,
    /// Its length in bytes.
    pub length: u32,
    /// 1 where it is the device's to write, and 0 where it is the device's to read.
    pub writable: u8,
}

/// The piece that a buffer says.
pub(crate) fn piece_in(buffer: &ChainPiece) -> Piece
    ensures { result ≡ piece_in buffer.now }
{
    Piece {
        addr: buffer.address,
        len: buffer.length,
        writable: buffer.writable != 0,
    }
}

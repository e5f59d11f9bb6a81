//! What a chain is: pieces of guest memory.

ghost use Rattle.std.specs.Prelude.{◌≡◌, ◌<◌, [], ◌∷◌, ◌++◌, length};
ghost use Rattle.vb_chain.specs.declared.pieces.TheConstants.{MAX_DESCRIPTORS};

use std::marker::Model;
use vb_virtio::limits;

/// The descriptors that a table, and so a chain, has at most (profile).
pub const MAX_DESCRIPTORS: usize = limits::MAX_QUEUE_SIZE as usize;

/// A part of guest memory that a descriptor gives to the device.
#[derive(Clone, Copy, Debug, Default, PartialEq, Eq)]
pub struct Piece {
    /// Where it begins in guest memory, in bytes.
    pub addr: u64,
    /// Its length in bytes.
    pub len: u32,
    /// Whether it is the device's to write; else it is the device's to read.
    pub writable: bool,
}

/// The placeholder where a chain has no piece.
const NO_PIECE: Piece = Piece {
    addr: 0,
    len: 0,
    writable: false,
};

/// A chain: its pieces, in order, never more than a table has descriptors. It has room for all of
/// them, so a caller that reads many chains keeps one and lets it be filled.
#[derive(Drop)]
pub struct Chain {
    /// The pieces, in order; past `len` unused.
    pieces: [Piece; MAX_DESCRIPTORS],
    /// How many there are.
    len: usize,
}

impl Model for Chain {
    ghost use Rattle.std.specs.Prelude.{◌≤◌, List, take};
    ghost use Rattle.vb_chain.specs.declared.pieces.Piece.{Piece};
    ghost use Rattle.vb_chain.specs.declared.pieces.TheConstants.{MAX_DESCRIPTORS};

    ghost Value = { List Piece };

    ghost view = { λ c. take c.len c.pieces };

    ghost invariant = { λ c. c.len ≤ MAX_DESCRIPTORS };
}

impl Chain {
    /// The chain's pieces, in order.
    pub fn pieces(&self) -> &[Piece]
        ensures { result.now ≡ self.now }
    {
        &self.pieces[..self.len]
    }

    /// A chain of no piece yet.
    pub fn new() -> Chain
        ensures { result ≡ [] }
    {
        Chain {
            pieces: [NO_PIECE; MAX_DESCRIPTORS],
            len: 0,
        }
    }

    /// Takes all pieces out.
    pub fn clear(&mut self)
        ensures { self.new ≡ [] }
    {
        self.len = 0;
    }

    /// Puts a piece after the others.
    pub(crate) fn push(&mut self, piece: Piece)
        requires { length self.old < MAX_DESCRIPTORS }
        ensures { self.new ≡ self.old ++ piece ∷ [] }
    {
        self.pieces[self.len] = piece;
        self.len += 1;
    }
}

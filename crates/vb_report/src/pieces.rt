//! What a report says of its blocks: pieces of guest memory, as a chain of descriptors has them.

ghost use Rattle.std.specs.Prelude.{◌≡◌, ◌≤◌, length, All};
ghost use Rattle.vb_virtio.specs.Limits.{max_outstanding};
ghost use Rattle.vb_report.specs.Blocks.{block_of, blocks_of, piece_of, pieces_of, HasOrder};

use crate::MAX_BLOCKS;
use arrayvec::ArrayVec;
use vb_chain::Piece;
use vb_pages::FreeBlock;
use vb_virtio::limits;

/// The pieces of a report, one for each block, in their order.
pub type Pieces = ArrayVec<Piece, MAX_BLOCKS>;

/// The piece that offers a block to the device: its bytes in guest memory, for the device to write.
fn piece_of(block: &FreeBlock) -> Piece
    requires { HasOrder block.now }
    ensures { result ≡ piece_of (block_of block.now) }
{
    Piece {
        addr: u64::from(block.start) * u64::from(limits::PAGE_SIZE),
        len: limits::PAGE_SIZE << block.order,
        writable: true,
    }
}

/// The pieces of a report of at most 16 blocks of orders 0 to 9: one for each block, in their
/// order, from its first byte to its last, for the device to write.
pub fn encode(blocks: &[FreeBlock]) -> Pieces
    requires count { length blocks.now ≤ max_outstanding }
    requires orders { All HasOrder blocks.now }
    ensures { result.items ≡ pieces_of (blocks_of blocks.now) }
{
    let mut pieces = Pieces::new();
    for block in blocks {
        pieces.push(piece_of(block));
    }
    pieces
}

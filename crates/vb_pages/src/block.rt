//! Blocks of pages.

ghost use Rattle.std.specs.Prelude.{◌≡◌, ◌^◌, ◌≤◌};

use vb_virtio::limits::MAX_ORDER;

/// A free block: 2^order pages from a multiple of as many on.
#[derive(Clone, Copy, Debug, Default, PartialEq, Eq)]
pub struct FreeBlock {
    /// Its first page.
    pub start: u32,
    /// Its order, 0 to 9.
    pub order: u32,
}

/// How many pages a block of the order has.
pub fn size_of(order: u32) -> u32
    requires { order ≤ MAX_ORDER }
    ensures size { result ≡ 2 ^ order }
    ensures small { result ≤ 512 }
{
    1 << order
}

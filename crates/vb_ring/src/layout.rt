//! Where the parts of a split virtqueue lie (VIRTIO 1.1, 2.6).

ghost use Rattle.std.specs.Prelude.{◌≡◌};
ghost use Rattle.vb_ring.specs.Layout.{area_at, layout_of, IsSize, Fits};

use crate::format::{AVAIL_ENTRY_SIZE, RING_META_SIZE, USED_ALIGNMENT};
use vb_chain::DESCRIPTOR_SIZE;
use vb_ram::PAGE_SIZE;
use vb_virtio::limits;

/// The fewest descriptors that a queue may have (profile).
pub const MIN_QUEUE_SIZE: u16 = limits::MIN_QUEUE_SIZE as u16;

/// The most descriptors that a queue may have (profile).
pub const MAX_QUEUE_SIZE: u16 = limits::MAX_QUEUE_SIZE as u16;

/// Where a ring begins: a page of guest memory, and an offset in bytes there.
#[derive(Clone, Copy, Debug, PartialEq, Eq)]
pub struct RingArea {
    /// The number of the page.
    pub page: u32,
    /// Bytes from the start of the page.
    pub offset: u16,
}

/// Where the parts of a split virtqueue lie.
#[derive(Clone, Copy, Debug, PartialEq, Eq)]
pub struct Layout {
    /// The page at whose start the descriptor table is.
    pub table: u32,
    /// Where the available ring begins.
    pub avail: RingArea,
    /// Where the used ring begins.
    pub used: RingArea,
}

/// Where byte `byte` of a ring is that begins with page `page`.
fn area_at(page: u16, byte: u16) -> RingArea
    ensures { result ≡ area_at page byte }
{
    let size = PAGE_SIZE as u16;
    RingArea {
        page: u32::from(page) + u32::from(byte / size),
        offset: byte % size,
    }
}

impl Layout {
    /// The layout of a queue of `size` descriptors from page 0 on: the available ring follows the
    /// descriptors (16 bytes each), and the used ring is at the next multiple of 4 after it. A
    /// queue of 256 descriptors takes two pages, and any other lies in one.
    pub fn of(size: u16) -> Layout
        requires { IsSize size }
        ensures value { result ≡ layout_of 0 size }
        ensures fits { Fits result size }
    {
        Layout::at(0, size)
    }

    /// Where the parts of a ring are that begins with page `page`.
    pub fn at(page: u16, size: u16) -> Layout
        requires { IsSize size }
        ensures value { result ≡ layout_of page size }
        ensures fits { Fits result size }
    {
        let avail = DESCRIPTOR_SIZE as u16 * size;
        let entries = AVAIL_ENTRY_SIZE as u16 * size;
        let used = (avail + (RING_META_SIZE as u16 + entries)).next_multiple_of(
            USED_ALIGNMENT as u16,
        );
        Layout {
            table: u32::from(page),
            avail: area_at(page, avail),
            used: area_at(page, used),
        }
    }
}

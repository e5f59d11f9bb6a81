//! Where rings and buffers are in a guest's memory.

ghost use Rattle.std.specs.Prelude.{◌≡◌};
ghost use Rattle.vb_virtio.specs.Layout.{takes_two_pages, reserved_pages, ring_number, ring_page};
ghost use Rattle.vb_virtio.specs.Layout.{is_ring_page, is_start_page};

use vb_virtio::layout::{
    DEFLATE_QUEUE, FIRST_RING_PAGE, FIRST_RING_PAGE_OF_TWO, INFLATE_BUFFERS_PAGE, INFLATE_QUEUE,
    MAX_QUEUE_SIZE_OF_A_PAGE, RESERVED_PAGES, RESERVED_PAGES_OF_TWO, STATISTICS_PAGE,
    STATISTICS_QUEUE,
};

/// Where rings and buffers are in the memory of a guest whose queues have `queue_size` descriptors
/// (profile). Each question about it is asked here.
#[derive(Clone, Copy, Debug, PartialEq, Eq)]
pub struct Shape {
    /// Descriptors of each queue.
    pub queue_size: u16,
}

/// The place of a queue's ring among the four.
fn ring_number(queue: u32) -> u16
    ensures { result ≡ ring_number queue }
{
    match queue {
        INFLATE_QUEUE => 0,
        DEFLATE_QUEUE => 1,
        STATISTICS_QUEUE => 2,
        _ => 3,
    }
}

impl Shape {
    /// Whether each ring takes two pages: its descriptors fill the first.
    fn takes_two_pages(self) -> bool
        ensures { result ≡ takes_two_pages self.queue_size }
    {
        u32::from(self.queue_size) > MAX_QUEUE_SIZE_OF_A_PAGE
    }

    /// How many pages are reserved for rings and buffers: the first ones, which are never free.
    pub fn reserved_pages(self) -> u32
        ensures { result ≡ reserved_pages self.queue_size }
    {
        if self.takes_two_pages() {
            RESERVED_PAGES_OF_TWO
        } else {
            RESERVED_PAGES
        }
    }

    /// The page of a queue's ring, or the first of its two: of queue 0, 1 or 2, and of queue 4 for
    /// any other number.
    pub fn ring_page(self, queue: u32) -> u16
        ensures { result ≡ ring_page self.queue_size queue }
    {
        if self.takes_two_pages() {
            FIRST_RING_PAGE_OF_TWO as u16 + 2 * ring_number(queue)
        } else {
            FIRST_RING_PAGE as u16 + ring_number(queue)
        }
    }

    /// Whether a page belongs to one of the four rings. A driver zeroes these before it starts.
    pub fn is_ring_page(self, page: u32) -> bool
        ensures { result ≡ is_ring_page self.queue_size page }
    {
        if self.takes_two_pages() {
            (FIRST_RING_PAGE_OF_TWO..=FIRST_RING_PAGE_OF_TWO + 7).contains(&page)
        } else {
            (FIRST_RING_PAGE..=FIRST_RING_PAGE + 3).contains(&page)
        }
    }

    /// Whether a page holds rings or buffers, and so has to have a frame before a driver starts.
    pub fn is_start_page(self, page: u32) -> bool
        ensures { result ≡ is_start_page self.queue_size page }
    {
        self.is_ring_page(page) || (INFLATE_BUFFERS_PAGE..=STATISTICS_PAGE).contains(&page)
    }
}

//! Where the queues of a balloon device are in guest memory. The numbers of queues 0 to 2 are those
//! of VIRTIO 1.1, 5.5.2; all pages, and queue 4, are the profile's.

/// The queue of inflate requests.
pub const INFLATE_QUEUE: u32 = 0;

/// The queue of deflate requests.
pub const DEFLATE_QUEUE: u32 = 1;

/// The queue of the statistics buffer.
pub const STATISTICS_QUEUE: u32 = 2;

/// The queue of page reports.
pub const REPORT_QUEUE: u32 = 4;

/// A queue of at most n descriptors has a ring of one page. The ring of a larger one takes two: the
/// descriptors fill the first, and the available and the used ring are in the second.
pub const MAX_QUEUE_SIZE_OF_A_PAGE: u32 = 128;

/// The first of the pages that hold the rings of these four queues, one after the other, where each
/// takes one page, and where each takes two.
pub const FIRST_RING_PAGE: u32 = 0;

pub const FIRST_RING_PAGE_OF_TWO: u32 = 16;

/// Pages at the start of a guest's memory that hold its rings and buffers and are never free, where
/// each ring takes one page, and where each takes two.
pub const RESERVED_PAGES: u32 = 16;

pub const RESERVED_PAGES_OF_TWO: u32 = 32;

/// Bytes of the buffer of one inflate or deflate request: as many little-endian 32-bit page
/// numbers as a request may name.
pub const REQUEST_BUFFER_SIZE: u32 = 1024;

/// The first of the pages that hold the buffers of inflate requests, and of deflate requests: four
/// buffers a page, in the order of their heads.
pub const INFLATE_BUFFERS_PAGE: u32 = 4;

pub const DEFLATE_BUFFERS_PAGE: u32 = 8;

/// The page of the statistics buffer.
pub const STATISTICS_PAGE: u32 = 12;

/// Bytes of a statistic: a tag of 16 bits and a value of 64 (VIRTIO 1.1, 5.5.6.3).
pub const STATISTIC_SIZE: u32 = 10;

/// Bytes of statistics that a device takes in one buffer, at the most.
pub const MAX_STATISTICS_LENGTH: u32 = 1020;

/// The tags of the two statistics that a device looks at, both in bytes: memory that is free, and
/// all memory (VIRTIO 1.1, 5.5.6.4).
pub const FREE_MEMORY_TAG: u16 = 4;

pub const TOTAL_MEMORY_TAG: u16 = 5;

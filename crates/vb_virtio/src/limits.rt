//! The sizes and bounds of hosts, guests and requests (profile), each said here alone.

/// Bytes of a page and of a frame.
pub const PAGE_SIZE: u32 = 4096;

/// The largest order of a block: it has 512 pages (Gorman, chapter 6).
pub const MAX_ORDER: u32 = 9;

/// The least order of a block that page reporting offers.
pub const MIN_REPORTED_ORDER: u32 = 4;

/// Requests that may be outstanding on queue 0 or 1, blocks of a report, and chains of a queue
/// that a device has taken: never more, and on the driver's side never more than the queue's size.
pub const MAX_OUTSTANDING: u32 = 16;

/// Pieces of a chain on the queue of page reports that a device takes, at the most.
pub const MAX_REPORT_PIECES: u32 = 32;

/// Pages that one inflate or deflate request names.
pub const MAX_REQUEST_PAGES: u32 = 256;

/// Guests that are plugged in at a time.
pub const MAX_GUESTS: u32 = 8;

/// Pages of a guest: a multiple of `GUEST_PAGES_STEP` in this range.
pub const MIN_GUEST_PAGES: u32 = 64;

pub const MAX_GUEST_PAGES: u32 = 65_536;

pub const GUEST_PAGES_STEP: u32 = 16;

/// Descriptors of each of a guest's queues: a power of two in this range.
pub const MIN_QUEUE_SIZE: u32 = 2;

pub const MAX_QUEUE_SIZE: u32 = 256;

/// Processors of a guest, at least one.
pub const MAX_PROCESSORS: u32 = 4;

/// Frames of a host, at least one.
pub const MAX_FRAMES: u32 = 65_536;

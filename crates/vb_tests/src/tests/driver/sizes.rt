//! Guests of other sizes: rings over two pages, pages that are no power of two, the most pages.

use super::{ALL, AVAILABLE, Answer, DONE, Line, NO, Run, Sight, Step, Table, YES, first_wrong};
use vb_model::Place;
use vb_ram::Config;
use vb_virtio::Refusal;

/// A guest of n pages, whose queues have m descriptors; which of its pages have frames, and what is
/// done with it.
struct Guest {
    name: &'static str,
    pages: u32,
    queue_size: u16,
    backed: &'static [Run],
    lines: &'static [Line],
}

/// The pages of rings and buffers, where each ring takes one page, and where each takes two.
const ONE_PAGE: &'static [Run] = &[(0, 13)];

const TWO_PAGES: &'static [Run] = &[(4, 13), (16, 24)];

/// Pages 32 to 35, as the buffer of a request has them.
const FOUR: [u8; 16] = [32, 0, 0, 0, 33, 0, 0, 0, 34, 0, 0, 0, 35, 0, 0, 0];

/// The descriptors of these four in the first buffer of inflates, and of deflates.
const INFLATE: [u8; 16] = [0, 0x40, 0, 0, 0, 0, 0, 0, 16, 0, 0, 0, 0, 0, 0, 0];

const DEFLATE: [u8; 16] = [0, 0x80, 0, 0, 0, 0, 0, 0, 16, 0, 0, 0, 0, 0, 0, 0];

/// The descriptor of a block of 32 pages from page 32 on, which the device writes.
const BLOCK: [u8; 16] = [0, 0, 2, 0, 0, 0, 0, 0, 0, 0, 2, 0, 2, 0, 0, 0];

/// Just the rings' pages are zeroed, and no other has to have a frame but those of buffers. The
/// statistics buffer isn't agreed on here.
const ZEROED: &'static [Line] = &[
    (Step::See(Sight::Counts(32, 0)), YES),
    (Step::See(Sight::At(Place::Reserved, 0, 32)), YES),
    (Step::See(Sight::At(Place::Free, 32, 64)), YES),
    (Step::Soil(4), DONE),
    (Step::Soil(12), DONE),
    (Step::Soil(16), DONE),
    (Step::Soil(17), DONE),
    (Step::Soil(18), DONE),
    (Step::Soil(19), DONE),
    (Step::Soil(20), DONE),
    (Step::Soil(21), DONE),
    (Step::Soil(22), DONE),
    (Step::Soil(23), DONE),
    (Step::Init(0x1_0000_0025), DONE),
    (Step::See(Sight::Blank(4)), NO),
    (Step::See(Sight::Blank(12)), NO),
    (Step::See(Sight::Blank(16)), YES),
    (Step::See(Sight::Blank(17)), YES),
    (Step::See(Sight::Blank(18)), YES),
    (Step::See(Sight::Blank(19)), YES),
    (Step::See(Sight::Blank(20)), YES),
    (Step::See(Sight::Blank(21)), YES),
    (Step::See(Sight::Blank(22)), YES),
    (Step::See(Sight::Blank(23)), YES),
];

/// The descriptors are in a ring's first page, and both rings in its second.
const REQUESTS: &'static [Line] = &[
    (Step::SetTarget(4), DONE),
    (Step::Init(ALL), DONE),
    (Step::Inflate(4), Ok(Answer::Posted(0, 4))),
    (Step::See(Sight::Shows(4, 0, FOUR)), YES),
    (Step::See(Sight::Shows(16, 0, INFLATE)), YES),
    (Step::See(Sight::Shows(17, 0, AVAILABLE)), YES),
    (Step::Use(0, 0, 1), DONE),
    (Step::Reap(0), Ok(Answer::Reaped(0, 4))),
    (Step::See(Sight::At(Place::Lent, 32, 36)), YES),
    (Step::SetTarget(0), DONE),
    (Step::Deflate(4), Ok(Answer::Posted(0, 4))),
    (Step::See(Sight::Shows(8, 0, FOUR)), YES),
    (Step::See(Sight::Shows(18, 0, DEFLATE)), YES),
    (Step::See(Sight::Shows(19, 0, AVAILABLE)), YES),
    (Step::Use(1, 0, 1), DONE),
    (Step::Reap(1), Ok(Answer::Reaped(0, 4))),
    (Step::Report(0), Ok(Answer::Posted(0, 32))),
    (Step::See(Sight::Shows(22, 0, BLOCK)), YES),
    (Step::See(Sight::Shows(23, 0, AVAILABLE)), YES),
    (Step::Use(4, 0, 1), DONE),
    (Step::Reap(4), Ok(Answer::Reaped(0, 32))),
    (Step::See(Sight::Counts(32, 0)), YES),
];

/// The statistics buffer of 20 bytes in page 12: 32 of 64 pages are free.
const BUFFER: [u8; 16] = [0, 0xc0, 0, 0, 0, 0, 0, 0, 20, 0, 0, 0, 0, 0, 0, 0];

const FIGURES: [u8; 16] = [4, 0, 0, 0, 2, 0, 0, 0, 0, 0, 5, 0, 0, 0, 4, 0];

/// An available ring with two entries, both for head 0.
const AVAILABLE_TWICE: [u8; 16] = [0, 0, 2, 0, 0, 0, 0, 0, 0, 0, 0, 0, 0, 0, 0, 0];

const STATISTICS: &'static [Line] = &[
    (Step::Init(ALL), DONE),
    (Step::See(Sight::Shows(12, 0, FIGURES)), YES),
    (Step::See(Sight::Shows(20, 0, BUFFER)), YES),
    (Step::See(Sight::Shows(21, 0, AVAILABLE)), YES),
    (Step::Use(2, 0, 1), DONE),
    (Step::Stats, Ok(Answer::Is(true))),
    (Step::See(Sight::Shows(21, 0, AVAILABLE_TWICE)), YES),
    (Step::Stats, Ok(Answer::Is(false))),
];

/// However many descriptors a queue has, 16 requests of it are out at the most.
const FULL: &'static [Line] = &[
    (Step::SetTarget(17), DONE),
    (Step::Init(ALL), DONE),
    (Step::Inflate(1), Ok(Answer::Posted(0, 1))),
    (Step::Inflate(1), Ok(Answer::Posted(1, 1))),
    (Step::Inflate(1), Ok(Answer::Posted(2, 1))),
    (Step::Inflate(1), Ok(Answer::Posted(3, 1))),
    (Step::Inflate(1), Ok(Answer::Posted(4, 1))),
    (Step::Inflate(1), Ok(Answer::Posted(5, 1))),
    (Step::Inflate(1), Ok(Answer::Posted(6, 1))),
    (Step::Inflate(1), Ok(Answer::Posted(7, 1))),
    (Step::Inflate(1), Ok(Answer::Posted(8, 1))),
    (Step::Inflate(1), Ok(Answer::Posted(9, 1))),
    (Step::Inflate(1), Ok(Answer::Posted(10, 1))),
    (Step::Inflate(1), Ok(Answer::Posted(11, 1))),
    (Step::Inflate(1), Ok(Answer::Posted(12, 1))),
    (Step::Inflate(1), Ok(Answer::Posted(13, 1))),
    (Step::Inflate(1), Ok(Answer::Posted(14, 1))),
    (Step::Inflate(1), Ok(Answer::Posted(15, 1))),
    (Step::Inflate(1), Err(Refusal::QueueFull)),
    // The last of them names page 47, from the last of the buffers.
    (
        Step::See(Sight::Shows(7, 3072, [47, 0, 0, 0, 0, 0, 0, 0, 0, 0, 0, 0, 0, 0, 0, 0])),
        YES,
    ),
];

const NO_FRAME: &'static [Line] = &[
    (Step::Init(ALL), Err(Refusal::NoFrame)),
    (Step::See(Sight::Status), Ok(Answer::Number(0))),
];

/// A ring of 128 descriptors fills half a page, and the available ring follows.
const HALF_A_PAGE: &'static [Line] = &[
    (Step::SetTarget(4), DONE),
    (Step::Init(ALL), DONE),
    (Step::Inflate(4), Ok(Answer::Posted(0, 4))),
    (Step::See(Sight::Shows(0, 0, INFLATE)), YES),
    (Step::See(Sight::Shows(0, 2048, AVAILABLE)), YES),
];

/// Blocks lie wholly below the last page.
const EIGHTY: &'static [Line] = &[
    (Step::See(Sight::Counts(64, 0)), YES),
    (Step::See(Sight::At(Place::Reserved, 0, 16)), YES),
    (Step::See(Sight::At(Place::Free, 16, 80)), YES),
    (Step::Alloc(0, 6), Err(Refusal::NoPages)),
    (Step::Alloc(0, 5), Ok(Answer::Page(32))),
    (Step::Alloc(0, 4), Ok(Answer::Page(16))),
    (Step::Alloc(0, 4), Ok(Answer::Page(64))),
    (Step::Alloc(0, 0), Err(Refusal::NoPages)),
    (Step::Restart, DONE),
    (Step::See(Sight::Counts(64, 0)), YES),
];

const EIGHTY_OF_TWO: &'static [Line] = &[
    (Step::See(Sight::Counts(48, 0)), YES),
    (Step::See(Sight::At(Place::Reserved, 0, 32)), YES),
    (Step::See(Sight::At(Place::Free, 32, 80)), YES),
    (Step::SetTarget(80), DONE),
    (Step::Init(ALL), DONE),
    (Step::Inflate(256), Ok(Answer::Posted(0, 48))),
    (Step::Use(0, 0, 1), DONE),
    (Step::Reap(0), Ok(Answer::Reaped(0, 48))),
    (Step::See(Sight::At(Place::Lent, 32, 80)), YES),
    (Step::Restart, DONE),
    (Step::See(Sight::At(Place::Reserved, 0, 32)), YES),
    (Step::See(Sight::At(Place::Free, 32, 80)), YES),
    (Step::Alloc(0, 4), Ok(Answer::Page(64))),
    (Step::Alloc(0, 5), Ok(Answer::Page(32))),
    (Step::Alloc(0, 0), Err(Refusal::NoPages)),
];

/// 65,520 pages are free of 65,536, which have 268,435,456 bytes.
const MOST_FIGURES: [u8; 16] = [4, 0, 0, 0, 0xff, 0x0f, 0, 0, 0, 0, 5, 0, 0, 0, 0, 0x10];

const MOST: &'static [Line] = &[
    (Step::See(Sight::Counts(65_520, 0)), YES),
    (Step::See(Sight::At(Place::Free, 16, 65_536)), YES),
    (Step::SetTarget(65_536), DONE),
    (Step::Init(ALL), DONE),
    (Step::See(Sight::Shows(12, 0, MOST_FIGURES)), YES),
    (Step::Alloc(0, 9), Ok(Answer::Page(512))),
    (Step::Inflate(256), Ok(Answer::Posted(0, 256))),
    (Step::Use(0, 0, 1), DONE),
    (Step::Reap(0), Ok(Answer::Reaped(0, 256))),
    (Step::See(Sight::Told), Ok(Answer::Number(256))),
    (Step::Restart, DONE),
    (Step::See(Sight::At(Place::Free, 16, 65_536)), YES),
];

const MOST_OF_TWO: &'static [Line] = &[
    (Step::See(Sight::Counts(65_504, 0)), YES),
    (Step::See(Sight::At(Place::Free, 32, 65_536)), YES),
    (Step::Init(ALL), DONE),
    (Step::Alloc(0, 9), Ok(Answer::Page(512))),
];

static GUESTS: [Guest; 14] = [
    Guest {
        name: "zeroed pages",
        pages: 64,
        queue_size: 256,
        backed: TWO_PAGES,
        lines: ZEROED,
    },
    Guest {
        name: "requests",
        pages: 64,
        queue_size: 256,
        backed: TWO_PAGES,
        lines: REQUESTS,
    },
    Guest {
        name: "statistics",
        pages: 64,
        queue_size: 256,
        backed: TWO_PAGES,
        lines: STATISTICS,
    },
    Guest {
        name: "a full queue",
        pages: 64,
        queue_size: 256,
        backed: TWO_PAGES,
        lines: FULL,
    },
    Guest {
        name: "no rings",
        pages: 64,
        queue_size: 256,
        backed: ONE_PAGE,
        lines: NO_FRAME,
    },
    Guest {
        name: "no first ring page",
        pages: 64,
        queue_size: 256,
        backed: &[(4, 13), (17, 24)],
        lines: NO_FRAME,
    },
    Guest {
        name: "no last ring page",
        pages: 64,
        queue_size: 256,
        backed: &[(4, 13), (16, 23)],
        lines: NO_FRAME,
    },
    Guest {
        name: "no first buffer page",
        pages: 64,
        queue_size: 256,
        backed: &[(5, 13), (16, 24)],
        lines: NO_FRAME,
    },
    Guest {
        name: "no statistics page",
        pages: 64,
        queue_size: 256,
        backed: &[(4, 12), (16, 24)],
        lines: NO_FRAME,
    },
    Guest {
        name: "128 descriptors",
        pages: 64,
        queue_size: 128,
        backed: ONE_PAGE,
        lines: HALF_A_PAGE,
    },
    Guest {
        name: "80 pages",
        pages: 80,
        queue_size: 8,
        backed: ONE_PAGE,
        lines: EIGHTY,
    },
    Guest {
        name: "80 pages, large queues",
        pages: 80,
        queue_size: 256,
        backed: TWO_PAGES,
        lines: EIGHTY_OF_TWO,
    },
    Guest {
        name: "the most pages",
        pages: 65_536,
        queue_size: 8,
        backed: ONE_PAGE,
        lines: MOST,
    },
    Guest {
        name: "the most pages, large queues",
        pages: 65_536,
        queue_size: 256,
        backed: TWO_PAGES,
        lines: MOST_OF_TWO,
    },
];

#[test]
fn guests_of_other_sizes_answer_so(rt: HostRuntime) {
    for guest in &GUESTS {
        let config = Config {
            pages: guest.pages,
            queue_size: guest.queue_size,
            processors: 1,
        };
        assert!(rt; config.is_within_limits());
        let lines = Table::Lines(guest.lines);
        let wrong = first_wrong(&rt, rt.alloc(), config, guest.backed, lines);
        assert_eq!(rt; wrong, None, "{}", guest.name);
    }
}

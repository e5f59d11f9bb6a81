//! Calls on one set of four words, one after the other, and what they answer.

use std::process::Abort;
use vb_core::{Denial, Kind, Run, count_ballooned, is_ballooned, mark};

/// A call, and what it answers.
struct Row {
    /// Whose chain named the pages.
    kind: Kind,
    /// First pages and counts of its two runs.
    runs: [[u32; 2]; 2],
    /// How many pages changed, or why nothing did.
    answer: Result<u64, Denial>,
    /// The set afterwards.
    set: [u64; 4],
}

/// Every bit of a word.
const ALL: u64 = 0xffff_ffff_ffff_ffff;

/// Pages 0 to 255 have bits.
static ROWS: [Row; 14] = [
    Row {
        kind: Kind::Inflate,
        runs: [[3, 1], [5, 2]],
        answer: Ok(3),
        set: [0x68, 0, 0, 0],
    },
    // Pages 5 and 6 are there, and page 4 is named twice.
    Row {
        kind: Kind::Inflate,
        runs: [[4, 3], [4, 1]],
        answer: Ok(1),
        set: [0x78, 0, 0, 0],
    },
    // Over the end of a word.
    Row {
        kind: Kind::Inflate,
        runs: [[62, 4], [255, 1]],
        answer: Ok(5),
        set: [0xc000_0000_0000_0078, 3, 0, 0x8000_0000_0000_0000],
    },
    // Just a word; no page.
    Row {
        kind: Kind::Inflate,
        runs: [[128, 64], [9, 0]],
        answer: Ok(64),
        set: [0xc000_0000_0000_0078, 3, ALL, 0x8000_0000_0000_0000],
    },
    // No page after the end is no page.
    Row {
        kind: Kind::Deflate,
        runs: [[4_294_967_295, 0], [9, 1]],
        answer: Ok(0),
        set: [0xc000_0000_0000_0078, 3, ALL, 0x8000_0000_0000_0000],
    },
    // A page past the end, after one that isn't.
    Row {
        kind: Kind::Inflate,
        runs: [[9, 1], [256, 1]],
        answer: Err(Denial::BadArgument),
        set: [0xc000_0000_0000_0078, 3, ALL, 0x8000_0000_0000_0000],
    },
    Row {
        kind: Kind::Deflate,
        runs: [[3, 1], [255, 2]],
        answer: Err(Denial::BadArgument),
        set: [0xc000_0000_0000_0078, 3, ALL, 0x8000_0000_0000_0000],
    },
    Row {
        kind: Kind::Deflate,
        runs: [[4_294_967_295, 4_294_967_295], [3, 1]],
        answer: Err(Denial::BadArgument),
        set: [0xc000_0000_0000_0078, 3, ALL, 0x8000_0000_0000_0000],
    },
    // What isn't a request, whatever its pages are.
    Row {
        kind: Kind::Report,
        runs: [[9, 1], [256, 1]],
        answer: Err(Denial::NoQueue),
        set: [0xc000_0000_0000_0078, 3, ALL, 0x8000_0000_0000_0000],
    },
    Row {
        kind: Kind::Statistics,
        runs: [[9, 1], [10, 1]],
        answer: Err(Denial::NoQueue),
        set: [0xc000_0000_0000_0078, 3, ALL, 0x8000_0000_0000_0000],
    },
    // Pages 3, 4 and 65 are there, page 2 isn't.
    Row {
        kind: Kind::Deflate,
        runs: [[2, 3], [65, 1]],
        answer: Ok(3),
        set: [0xc000_0000_0000_0060, 1, ALL, 0x8000_0000_0000_0000],
    },
    // Pages 131 to 192, of which the last isn't there; some are named twice.
    Row {
        kind: Kind::Deflate,
        runs: [[140, 53], [131, 20]],
        answer: Ok(61),
        set: [0xc000_0000_0000_0060, 1, 7, 0x8000_0000_0000_0000],
    },
    // Each page, of which 9 are there.
    Row {
        kind: Kind::Inflate,
        runs: [[0, 256], [17, 200]],
        answer: Ok(247),
        set: [ALL, ALL, ALL, ALL],
    },
    Row {
        kind: Kind::Deflate,
        runs: [[0, 255], [1, 255]],
        answer: Ok(256),
        set: [0, 0, 0, 0],
    },
];

/// The runs of a row.
fn runs_of(row: &Row) -> [Run; 2] {
    let [one, other] = row.runs;
    [
        Run {
            first: one[0],
            count: one[1],
        },
        Run {
            first: other[0],
            count: other[1],
        },
    ]
}

/// The number of the first row that is answered otherwise.
fn first_other_row(set: &mut [u64; 4]) -> Option<usize> {
    for (k, row) in ROWS.iter().enumerate() {
        if mark(row.kind, &runs_of(row), set) != row.answer || *set != row.set {
            return Some(k);
        }
    }
    None
}

#[test]
fn requests_mark_the_set(rt: HostRuntime) {
    let mut set = [0; 4];
    assert!(rt; first_other_row(&mut set).is_none());
}

/// Pages 6, 63, 64 and 191.
static SET: [u64; 3] = [0x8000_0000_0000_0040, 1, 0x8000_0000_0000_0000];

/// A page, and whether it is in that set.
static PAGES: [(u32, bool); 10] = [
    (0, false),
    (6, true),
    (7, false),
    (63, true),
    (64, true),
    (65, false),
    (190, false),
    (191, true),
    (192, false),
    (4_294_967_295, false),
];

/// The number of the first page that is answered otherwise.
fn first_other_page() -> Option<usize> {
    for (k, (page, inside)) in PAGES.iter().enumerate() {
        if is_ballooned(&SET, *page) != *inside {
            return Some(k);
        }
    }
    None
}

#[test]
fn pages_are_found_and_counted(rt: HostRuntime) {
    assert!(rt; first_other_page().is_none());
    assert!(rt; count_ballooned(&SET) == 4);
    assert!(rt; count_ballooned(&[]) == 0);
}

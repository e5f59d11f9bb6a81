//! The lent pages as bits, after each of a table of calls: the words that the rules give, worked
//! out by hand, and of each page just what `place` tells of it.

ghost use Rattle.std.specs.Prelude.{◌≡◌, true};
ghost use Rattle.vb_virtio.specs.Limits.{is_config};

use super::{ALL, Answer, Guest, Request, Table, small_queues};
use std::alloc::Global;
use std::process::Abort;
use vb_driver::Driver;
use vb_model::Place;
use vb_status::Port;
use vb_virtio::Refusal;

/// What is done with a guest.
#[derive(Clone, Copy)]
pub(super) enum Step {
    /// The driver starts, and the host sets its target.
    Init(u32),
    SetTarget(u32),
    Inflate(u32),
    Deflate(u32),
    /// The device has used the request with head 0 of a queue, and n of the queue by then, and the
    /// driver takes it back.
    Reap(u32, u8),
    /// n blocks of an order are allocated.
    Hold(u32, u32),
    Reset,
    Restart,
}

/// A call, and the words of lent pages that aren't 0 after it.
pub(super) type Line = (Step, &'static [(usize, u64)]);

const ALL_ONES: u64 = 0xffff_ffff_ffff_ffff;

/// Those of pages 16 to 63.
const ALL_UNRESERVED: u64 = 0xffff_ffff_ffff_0000;

const LAST_BIT: u64 = 0x8000_0000_0000_0000;

const ALL_BUT_THE_LAST: u64 = 0x7fff_ffff_ffff_ffff;

/// The word that is wanted.
fn word_of(wanted: &[(usize, u64)], at: usize) -> u64 {
    for word in wanted {
        if word.0 == at {
            return word.1;
        }
    }
    0
}

/// Whether the words are those that are wanted, and 0 elsewhere.
fn are_words(words: &[u64], wanted: &[(usize, u64)]) -> bool {
    for at in 0..words.len() {
        if words[at] != word_of(wanted, at) {
            return false;
        }
    }
    true
}

/// Whether the bits are those of the pages from this one on.
fn are_bits(driver: &Driver, first: u32, word: u64) -> bool {
    for bit in 0..64 {
        let lent = driver.place(first.wrapping_add(bit)) == Place::Lent;
        if (word >> bit) % 2 != u64::from(lent) {
            return false;
        }
    }
    true
}

/// Whether each bit tells whether its page is lent.
fn are_places(driver: &Driver) -> bool {
    let mut first: u32 = 0;
    for word in driver.lent_bits() {
        if !are_bits(driver, first, *word) {
            return false;
        }
        first = first.wrapping_add(64);
    }
    true
}

/// Whether just these words of lent pages aren't 0.
fn shows(driver: &Driver, wanted: &[(usize, u64)]) -> bool {
    are_words(driver.lent_bits(), wanted) && are_places(driver)
}

/// The device has used the request with head 0, and the driver takes one back.
fn reap(guest: &mut Guest, queue: u32, used: u8) -> Result<Answer, Refusal> {
    guest.use_request(queue, 0, used);
    match guest.reap(queue)? {
        Answer::NoneUsed => Err(Refusal::Nothing),
        reaped => Ok(reaped),
    }
}

fn hold(driver: &mut Driver, order: u32, blocks: u32) -> Result<(), Refusal> {
    for _block in 0..blocks {
        let _start = driver.alloc(0, order)?;
    }
    Ok(())
}

fn call(guest: &mut Guest, step: Step) -> Result<(), Refusal> {
    match step {
        Step::Init(target) => {
            guest.port.port.set_target(target);
            guest.init(ALL)?;
        }
        Step::SetTarget(target) => guest.port.port.set_target(target),
        Step::Inflate(pages) => {
            let _posted = guest.post(Request::Inflate, pages)?;
        }
        Step::Deflate(pages) => {
            let _posted = guest.post(Request::Deflate, pages)?;
        }
        Step::Reap(queue, used) => {
            let _reaped = reap(guest, queue, used)?;
        }
        Step::Hold(order, blocks) => hold(&mut guest.driver, order, blocks)?,
        Step::Reset => guest.driver.reset(&mut guest.port),
        Step::Restart => guest.driver.restart(&mut guest.port),
    }
    Ok(())
}

/// The number of the first line that is refused, or after which other pages are lent; 0 where the
/// lent pages have another number of words.
pub(super) fn first_wrong(guest: &mut Guest, words: usize, lines: &[Line]) -> Option<usize> {
    if guest.driver.lent_bits().len() != words {
        return Some(0);
    }
    for at in 0..lines.len() {
        if call(guest, lines[at].0).is_err() || !shows(&guest.driver, lines[at].1) {
            return Some(at);
        }
    }
    None
}

/// Expects that a guest of n pages has m words, and after each line those that it says.
fn expect(rt: &impl Abort, alloc: Global, pages: u32, words: usize, lines: &'static [Line])
    requires { is_config pages 8 1 ≡ true }
{
    let table = Table::Lent(words, lines);
    let wrong = super::first_wrong(rt, alloc, small_queues(pages), &[(0, 16)], table);
    assert_eq!(rt; wrong, None);
}

static ONE_WORD: [Line; 24] = [
    (Step::Init(40), &[]),
    (Step::Inflate(4), &[]),
    (Step::Reap(0, 1), &[(0, 0x000f_0000)]),
    (Step::Inflate(32), &[(0, 0x000f_0000)]),
    (Step::Reap(0, 2), &[(0, 0x000f_ffff_ffff_0000)]),
    (Step::SetTarget(30), &[(0, 0x000f_ffff_ffff_0000)]),
    (Step::Deflate(3), &[(0, 0x000f_ffff_fff8_0000)]),
    (Step::Reap(1, 1), &[(0, 0x000f_ffff_fff8_0000)]),
    (Step::SetTarget(64), &[(0, 0x000f_ffff_fff8_0000)]),
    // Page 18 is a block of its own, and 16 the first page of two.
    (Step::Inflate(2), &[(0, 0x000f_ffff_fff8_0000)]),
    (Step::Reap(0, 3), &[(0, 0x000f_ffff_fffd_0000)]),
    (Step::SetTarget(0), &[(0, 0x000f_ffff_fffd_0000)]),
    (Step::Deflate(1), &[(0, 0x000f_ffff_fffc_0000)]),
    (Step::Reset, &[]),
    (Step::Init(10), &[]),
    // Stranded pages go first, and page 17 is free.
    (Step::Inflate(3), &[]),
    (Step::Reap(0, 1), &[(0, 0x000d_0000)]),
    (Step::Reset, &[]),
    (Step::Init(10), &[]),
    (Step::Inflate(1), &[]),
    (Step::Restart, &[]),
    (Step::Init(1), &[]),
    (Step::Inflate(5), &[]),
    (Step::Reap(0, 1), &[(0, 0x0001_0000)]),
];

#[test]
fn has_one_word_of_lent_pages(rt: HostRuntime) {
    expect(&rt, rt.alloc(), 64, 1, &ONE_WORD);
}

static TWO_WORDS: [Line; 23] = [
    (Step::Init(112), &[]),
    (Step::Inflate(8), &[]),
    (Step::Reap(0, 1), &[(0, 0x00ff_0000)]),
    (Step::Inflate(256), &[(0, 0x00ff_0000)]),
    (Step::Reap(0, 2), &[(0, ALL_UNRESERVED), (1, ALL_ONES)]),
    (Step::SetTarget(0), &[(0, ALL_UNRESERVED), (1, ALL_ONES)]),
    // Pages 16 to 65, then 66 to 126, then the last one.
    (Step::Deflate(50), &[(1, 0xffff_ffff_ffff_fffc)]),
    (Step::Reap(1, 1), &[(1, 0xffff_ffff_ffff_fffc)]),
    (Step::Deflate(61), &[(1, LAST_BIT)]),
    (Step::Reap(1, 2), &[(1, LAST_BIT)]),
    (Step::Deflate(1), &[]),
    (Step::Reap(1, 3), &[]),
    // Pages 16 to 31 and 32 to 63 are allocated, and page 64 is lent.
    (Step::Hold(4, 1), &[]),
    (Step::Hold(5, 1), &[]),
    (Step::SetTarget(64), &[]),
    (Step::Inflate(1), &[]),
    (Step::Reap(0, 3), &[(1, 1)]),
    (Step::Reset, &[]),
    (Step::Init(0), &[]),
    (Step::Inflate(1), &[]),
    (Step::Reap(0, 1), &[(1, 1)]),
    (Step::Restart, &[]),
    (Step::Init(0), &[]),
];

#[test]
fn has_two_words_of_lent_pages(rt: HostRuntime) {
    expect(&rt, rt.alloc(), 128, 2, &TWO_WORDS);
}

/// Pages 16 to 271.
const FIRST_PAGES: &[(usize, u64)] = &[
    (0, ALL_UNRESERVED),
    (1, ALL_ONES),
    (2, ALL_ONES),
    (3, ALL_ONES),
    (4, 0xffff),
];

/// Pages 16 to 271, and 15,872 to 16,127.
const FIRST_AND_LATE: &[(usize, u64)] = &[
    (0, ALL_UNRESERVED),
    (1, ALL_ONES),
    (2, ALL_ONES),
    (3, ALL_ONES),
    (4, 0xffff),
    (248, ALL_ONES),
    (249, ALL_ONES),
    (250, ALL_ONES),
    (251, ALL_ONES),
];

/// Pages 15,872 to 16,127.
const LATE_PAGES: &[(usize, u64)] = &[
    (248, ALL_ONES),
    (249, ALL_ONES),
    (250, ALL_ONES),
    (251, ALL_ONES),
];

/// Pages 15,872 to 16,383.
const LAST_PAGES: &[(usize, u64)] = &[
    (248, ALL_ONES),
    (249, ALL_ONES),
    (250, ALL_ONES),
    (251, ALL_ONES),
    (252, ALL_ONES),
    (253, ALL_ONES),
    (254, ALL_ONES),
    (255, ALL_ONES),
];

/// Pages 16,127 to 16,383.
const ONE_MORE: &[(usize, u64)] = &[
    (251, LAST_BIT),
    (252, ALL_ONES),
    (253, ALL_ONES),
    (254, ALL_ONES),
    (255, ALL_ONES),
];

/// Pages 15,872 to 16,126.
const STRANDED_FIRST: &[(usize, u64)] = &[
    (248, ALL_ONES),
    (249, ALL_ONES),
    (250, ALL_ONES),
    (251, ALL_BUT_THE_LAST),
];

/// Pages 15,872 to 16,382.
const STRANDED_THEN: &[(usize, u64)] = &[
    (248, ALL_ONES),
    (249, ALL_ONES),
    (250, ALL_ONES),
    (251, ALL_ONES),
    (252, ALL_ONES),
    (253, ALL_ONES),
    (254, ALL_ONES),
    (255, ALL_BUT_THE_LAST),
];

static MANY_WORDS: [Line; 31] = [
    (Step::Init(16_000), &[]),
    (Step::Inflate(256), &[]),
    (Step::Reap(0, 1), FIRST_PAGES),
    // All that is free is allocated but the last block of 512 pages.
    (Step::Hold(4, 1), FIRST_PAGES),
    (Step::Hold(5, 1), FIRST_PAGES),
    (Step::Hold(6, 1), FIRST_PAGES),
    (Step::Hold(7, 1), FIRST_PAGES),
    (Step::Hold(9, 30), FIRST_PAGES),
    (Step::Inflate(256), FIRST_PAGES),
    (Step::Reap(0, 2), FIRST_AND_LATE),
    (Step::SetTarget(0), FIRST_AND_LATE),
    (Step::Deflate(256), LATE_PAGES),
    (Step::Reap(1, 1), LATE_PAGES),
    (Step::SetTarget(16_000), LATE_PAGES),
    // What came back is allocated, and the second half of the last block is left.
    (Step::Hold(4, 2), LATE_PAGES),
    (Step::Hold(5, 1), LATE_PAGES),
    (Step::Hold(6, 1), LATE_PAGES),
    (Step::Hold(7, 1), LATE_PAGES),
    (Step::Inflate(256), LATE_PAGES),
    (Step::Reap(0, 3), LAST_PAGES),
    (Step::SetTarget(0), LAST_PAGES),
    (Step::Deflate(255), ONE_MORE),
    (Step::Deflate(256), &[(255, LAST_BIT)]),
    (Step::Reset, &[]),
    (Step::Init(0), &[]),
    (Step::Inflate(255), &[]),
    (Step::Reap(0, 1), STRANDED_FIRST),
    (Step::Inflate(257), STRANDED_FIRST),
    (Step::Reap(0, 2), STRANDED_THEN),
    (Step::Restart, &[]),
    (Step::Init(0), &[]),
];

#[test]
fn has_many_words_of_lent_pages(rt: HostRuntime) {
    expect(&rt, rt.alloc(), 16_384, 256, &MANY_WORDS);
}

/// Pages 64 and 96 to 111, of which the last one is the last of all.
const LAST_PART: &[(usize, u64)] = &[(1, 0xffff_0000_0001)];

/// The last word of 112 pages has bits for 48 of them. The smallest free blocks are pages 16 to 31
/// and 96 to 111.
static A_WORD_IN_PART: [Line; 18] = [
    (Step::Init(96), &[]),
    (Step::Inflate(16), &[]),
    (Step::Reap(0, 1), &[(0, 0xffff_0000)]),
    (Step::Inflate(16), &[(0, 0xffff_0000)]),
    (Step::Reap(0, 2), &[(0, 0xffff_0000), (1, 0xffff_0000_0000)]),
    (
        Step::Inflate(33),
        &[(0, 0xffff_0000), (1, 0xffff_0000_0000)],
    ),
    (
        Step::Reap(0, 3),
        &[(0, ALL_UNRESERVED), (1, 0xffff_0000_0001)],
    ),
    (
        Step::SetTarget(0),
        &[(0, ALL_UNRESERVED), (1, 0xffff_0000_0001)],
    ),
    (Step::Deflate(48), LAST_PART),
    (Step::Reap(1, 1), LAST_PART),
    (Step::Deflate(16), &[(1, 0x8000_0000_0000)]),
    (Step::Reap(1, 2), &[(1, 0x8000_0000_0000)]),
    (Step::Reset, &[]),
    (Step::Init(0), &[]),
    (Step::Inflate(1), &[]),
    (Step::Reap(0, 1), &[(1, 0x8000_0000_0000)]),
    (Step::Restart, &[]),
    (Step::Init(0), &[]),
];

#[test]
fn has_a_last_word_in_part(rt: HostRuntime) {
    expect(&rt, rt.alloc(), 112, 2, &A_WORD_IN_PART);
}

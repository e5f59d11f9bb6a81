//! Memory of which the machine has larger pages than 4096 bytes: they are discarded whole, once all
//! their pages of 4096 bytes are given up.

ghost use Rattle.std.specs.Prelude.{◌≡◌, ℕ, ◌+◌, ◌-◌, ◌*◌, ◌/◌, ◌^◌, ◌<◌, ◌≤◌, true, false};
ghost use Rattle.std.specs.Prelude.{MatchOption};
ghost use Rattle.vb_virtio.specs.Limits.{page_size};
ghost use Rattle.vb_core.specs.declared.settings.TheConstants.{MEMORY_LIMIT};
ghost use Rattle.vb_core.specs.Ballooned.{is_ballooned};
ghost use Rattle.vb_monitor.specs.declared.large.TheConstants.{LARGEST_PAGE};
ghost use Rattle.vb_monitor.specs.Large.{is_page_size, is_made_of, is_part_of, may_go, AllGiven};
ghost use Rattle.vb_monitor.specs.Large.{Begins, Stops, RowGoes, NoneGoes, outside, counted};
ghost use Rattle.vb_monitor.specs.Large.{first_of, end_of_part, all_wait, LargeBy};
ghost use Rattle.vb_monitor.specs.declared.regions.TheConstants.{FILE_LIMIT};

use crate::regions::PAGE_BYTES;
use crate::{Cut, Region};
use bitflags::Flags;
use vb_bits::{WORD_BITS, is_in_words, low_ones};
use vb_core::Device;
use vb_status::Features;

/// Pages of 4096 bytes that a word of a set has bits for.
const WORD_PAGES: u64 = WORD_BITS as u64;

/// Bytes of the largest page that a machine has: 1 GiB.
pub const LARGEST_PAGE: u64 = 1 << 30;

/// What of a part is to be discarded where the machine's pages are large.
#[repr(C)]
#[derive(Clone, Copy, Debug, PartialEq, Eq)]
pub struct Large {
    /// Whole large pages; of length 0 where none is to be.
    pub cut: Cut,
    /// How many pages of 4096 bytes of the part aren't among them: they wait for others.
    pub waiting: u64,
}

/// Pages of 4096 bytes in a row, by their numbers.
#[derive(Clone, Copy, Debug)]
struct Span {
    /// The first one.
    first: u64,
    /// The one after the last.
    end: u64,
}

/// Large pages in a row, by their numbers.
#[derive(Clone, Copy, Debug)]
struct Row {
    /// The first one.
    low: u64,
    /// The one after the last.
    high: u64,
}

/// Whether a page and the next 63 are a word of the set in which each bit is 1.
fn is_full(set: &[u64], page: u64) -> bool
    requires { page < 2 ^ 63 }
    ensures { result ≡ true →
        (p : ℕ) → page ≤ p → p < page + 64 → is_ballooned set.now p ≡ true }
{
    if page % WORD_PAGES != 0 {
        return false;
    }
    match set.get((page / WORD_PAGES) as usize) {
        Some(word) => *word == low_ones(WORD_PAGES),
        None => false,
    }
}

/// Whether all pages from one on and before another are in the set.
fn are_in_set(set: &[u64], from: u64, end: u64) -> bool
    requires { end < 2 ^ 62 }
    ensures yes { result ≡ true →
        (p : ℕ) → from ≤ p → p < end → is_ballooned set.now p ≡ true }
    ensures no { result ≡ false →
        ¬ ((p : ℕ) → from ≤ p → p < end → is_ballooned set.now p ≡ true) }
{
    let mut page = from;
    while page < end {
        if page + WORD_PAGES <= end && is_full(set, page) {
            page += WORD_PAGES;
        } else if is_in_words(set, page) {
            page += 1;
        } else {
            return false;
        }
    }
    true
}

/// Whether each page of a large page is one of a span's, or in the set. The span has one of them.
#[tactic(auto, using(crate::proofs::LargeLemmas::given_steps))]
fn is_all_given(set: &[u64], span: Span, small: u64, number: u64) -> bool
    requires number { number < 2 ^ 62 }
    requires below { small * (number + 1) < 2 ^ 62 }
    requires starts { span.first ≤ small * (number + 1) }
    requires stops { small * number ≤ span.end }
    ensures yes { result ≡ true → AllGiven small span.first span.end set.now number }
    ensures no { result ≡ false → ¬ AllGiven small span.first span.end set.now number }
{
    are_in_set(set, small * number, span.first) && are_in_set(set, span.end, small * (number + 1))
}

/// Where the row of the large pages that go begins.
fn low_of(set: &[u64], span: Span, small: u64) -> u64
    requires small { 0 < small }
    requires few { small < 2 ^ 32 }
    requires order { span.first < span.end }
    requires end { span.end < 2 ^ 52 }
    ensures { Begins (AllGiven small span.first span.end set.now (span.first / small))
        (span.first / small) result }
{
    let first = span.first / small;
    if is_all_given(set, span, small, first) {
        first
    } else {
        first + 1
    }
}

/// Where it stops.
fn high_of(set: &[u64], span: Span, small: u64) -> u64
    requires small { 0 < small }
    requires few { small < 2 ^ 32 }
    requires order { span.first < span.end }
    requires end { span.end < 2 ^ 52 }
    ensures { Stops (AllGiven small span.first span.end set.now ((span.end - 1) / small))
        ((span.end - 1) / small) result }
{
    let last = (span.end - 1) / small;
    if is_all_given(set, span, small, last) {
        last + 1
    } else {
        last
    }
}

/// The row of the large pages that go with a span, if any does.
fn row_of(set: &[u64], span: Span, small: u64) -> Option<Row>
    requires small { 0 < small }
    requires few { small < 2 ^ 32 }
    requires end { span.end < 2 ^ 52 }
    ensures { MatchOption result (NoneGoes small span.first span.end set.now)
        (λ row. RowGoes small span.first span.end set.now row.low row.high) }
{
    if span.first >= span.end {
        return None;
    }
    let low = low_of(set, span, small);
    let high = high_of(set, span, small);
    if low < high {
        Some(Row { low, high })
    } else {
        None
    }
}

/// How many pages of a span aren't in a row that it meets.
fn left_of(span: Span, from: u64, further: u64) -> u64
    requires order { span.first ≤ span.end }
    requires row { from ≤ further }
    requires starts { from ≤ span.end }
    requires stops { span.first ≤ further }
    ensures { result ≡ outside span.first span.end from further }
{
    from.saturating_sub(span.first) + span.end.saturating_sub(further)
}

/// What the set says of pages that were given up before: nothing, unless the driver agreed to tell
/// the host before it uses a page again.
fn counted<'a>(device: &Device, set: &'a [u64]) -> &'a [u64]
    ensures { result.now ≡ counted device.now set.now }
{
    if Features::from_bits_retain(device.features).must_tell_host() {
        set
    } else {
        &set[..0]
    }
}

/// Whether a page of the machine may have `size` bytes.
fn is_page_size(size: u64) -> bool
    ensures { result ≡ is_page_size size }
{
    size >= PAGE_BYTES && size <= LARGEST_PAGE && size % PAGE_BYTES == 0 && size.is_power_of_two()
}

/// Whether a region is pages of this size.
fn is_made_of(size: u64, region: &Region) -> bool
    requires { 0 < size }
    ensures { result ≡ is_made_of size region.now }
{
    region.is_possible()
        && region.guest % size == 0
        && region.length % size == 0
        && region.in_file % size == 0
}

/// Whether a part is whole pages of 4096 bytes, within a region.
fn is_part_of(region: &Region, part: &Cut) -> bool
    ensures { result ≡ is_part_of region.now part.now }
{
    part.offset % PAGE_BYTES == 0
        && part.length % PAGE_BYTES == 0
        && part.offset <= region.length
        && part.length <= region.length - part.offset
}

/// Whether anything of a part may go.
fn may_go(size: u64, region: &Region, part: &Cut) -> bool
    ensures value { result ≡ may_go size region.now part.now }
    ensures size { result ≡ true → (page_size ≤ size) × (size ≤ LARGEST_PAGE) }
    ensures limit { result ≡ true → region.now.guest + region.now.length ≤ MEMORY_LIMIT }
    ensures inside { result ≡ true → part.now.offset + part.now.length ≤ region.now.length }
    ensures file { result ≡ true → region.now.in_file ≤ FILE_LIMIT }
{
    is_page_size(size) && is_made_of(size, region) && is_part_of(region, part)
}

/// Nothing goes.
fn all_wait(part: &Cut) -> Large
    ensures { result ≡ all_wait part.now }
{
    Large {
        cut: Cut {
            region: part.region,
            offset: 0,
            in_file: 0,
            length: 0,
        },
        waiting: part.length / PAGE_BYTES,
    }
}

/// The pages of a part.
fn span_of(region: &Region, part: &Cut) -> Span
    requires limit { region.now.guest + region.now.length ≤ MEMORY_LIMIT }
    requires inside { part.now.offset + part.now.length ≤ region.now.length }
    ensures first { result.first ≡ first_of region.now part.now }
    ensures end { result.end ≡ end_of_part region.now part.now }
{
    let begin = region.guest + part.offset;
    Span {
        first: begin / PAGE_BYTES,
        end: (begin + part.length) / PAGE_BYTES,
    }
}

/// The bytes of a row of large pages.
fn bytes_of(region: &Region, part: &Cut, size: u64, row: Row) -> Cut
    requires starts { region.now.guest ≤ size * row.low }
    requires order { size * row.low ≤ size * row.high }
    requires stops { size * row.high ≤ MEMORY_LIMIT }
    requires file { region.now.in_file ≤ FILE_LIMIT }
    ensures region { result.region ≡ part.now.region }
    ensures begins { region.now.guest + result.offset ≡ size * row.low }
    ensures ends { region.now.guest + result.offset + result.length ≡ size * row.high }
    ensures in_file { result.in_file ≡ region.now.in_file + result.offset }
{
    let begin = size * row.low;
    let offset = begin - region.guest;
    Cut {
        region: part.region,
        offset,
        in_file: region.in_file + offset,
        length: size * row.high - begin,
    }
}

/// Of a part that a notice discards, what goes back to a machine whose pages that back this region
/// have `size` bytes: a power of two from 4096 to 1 GiB. Such a page goes once each of its pages of
/// 4096 bytes is given up: it is the part's, or in the set of ballooned pages. The set counts only
/// where the driver agreed to tell the host before it uses a page again (MUST_TELL_HOST: VIRTIO
/// 1.1, 5.5.3).
///
/// The answer is whole large pages in a row, and how many pages of the part aren't among them and
/// wait: all of them, where the region doesn't begin and end at pages of this size, in memory and
/// in its file, or the part isn't whole pages of 4096 bytes of it.
pub fn large_pages(device: &Device, region: &Region, size: u64, part: &Cut, set: &[u64]) -> Large
    ensures { LargeBy size region.now part.now (counted device.now set.now) result }
{
    if !may_go(size, region, part) {
        return all_wait(part);
    }
    let span = span_of(region, part);
    let small = size / PAGE_BYTES;
    match row_of(counted(device, set), span, small) {
        None => all_wait(part),
        Some(row) => Large {
            cut: bytes_of(region, part, size, row),
            waiting: left_of(span, small * row.low, small * row.high),
        },
    }
}

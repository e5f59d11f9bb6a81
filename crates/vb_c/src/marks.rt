//! The set of the pages in the balloon, as words of the caller's, and what it says of large pages.

ghost use Rattle.std.specs.Prelude.{◌≡◌, ◌-◌, ◌^◌, min};
ghost use Rattle.vb_virtio.specs.Tests.{one_if};
ghost use Rattle.vb_core.specs.Ballooned.{is_ballooned, ballooned_count, Loses};
ghost use Rattle.vb_c.specs.Codes.{kind_of_code};
ghost use Rattle.vb_monitor.specs.Large.{LargeBy, counted};
ghost use Rattle.vb_c.specs.Marks.{marked_of, MarksFor};

use crate::kinds::kind_of_code;
use vb_core::{Denial, Device, Run, count_ballooned, is_ballooned, mark, unmark};
use vb_monitor::{Cut, Large, OK, Region, code_of, large_pages};

/// How many pages were put into the set, or taken out of it.
#[repr(C)]
#[derive(Clone, Copy, Debug)]
pub struct VbMarked {
    pub code: u32,
    pub pages: u64,
}

/// The answer of a call that marks pages.
fn marked_of(answer: Result<u64, Denial>) -> VbMarked
    ensures { result ≡ marked_of answer }
{
    match answer {
        Ok(pages) => VbMarked { code: OK, pages },
        Err(why) => VbMarked {
            code: code_of(why),
            pages: 0,
        },
    }
}

/// Puts the pages of an inflate's runs into the set, or takes those of a deflate's out.
#[unsafe(no_mangle)]
pub extern "C" fn vb_mark(kind: u32, runs: &[Run], set: &mut [u64]) -> VbMarked
    ensures { MarksFor (kind_of_code kind) runs.now set.old set.new result }
{
    match kind_of_code(kind) {
        None => marked_of(Err(Denial::NoQueue)),
        Some(kind) => marked_of(mark(kind, runs, set)),
    }
}

/// Takes the pages of one set out of another: how many left it.
#[unsafe(no_mangle)]
pub extern "C" fn vb_unmark(pages: &[u64], set: &mut [u64]) -> u64
    ensures { Loses pages.now set.old set.new result }
{
    unmark(pages, set)
}

/// 1 where the page is in the set, else 0.
#[unsafe(no_mangle)]
pub extern "C" fn vb_is_ballooned(set: &[u64], page: u32) -> u32
    ensures { result ≡ one_if (is_ballooned set.now page) }
{
    u32::from(is_ballooned(set, page))
}

/// How many pages are in the set.
#[unsafe(no_mangle)]
pub extern "C" fn vb_count_ballooned(set: &[u64]) -> u64
    ensures { result ≡ min (ballooned_count set.now) (2 ^ 64 - 1) }
{
    count_ballooned(set)
}

/// Of a part that is given up, what goes back to a machine whose pages are large.
#[unsafe(no_mangle)]
pub extern "C" fn vb_large_pages(
    device: &Device,
    region: &Region,
    page_size: u64,
    part: &Cut,
    set: &[u64],
) -> Large
    ensures { LargeBy page_size region.now part.now (counted device.now set.now) result }
{
    large_pages(device, region, page_size, part, set)
}

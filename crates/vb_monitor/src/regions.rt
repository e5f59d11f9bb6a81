//! Where guest memory is: regions of whole pages, with holes between them.

ghost use Rattle.std.specs.Prelude.{◌≡◌, ◌+◌, ◌≤◌, ◌<◌, ◌^◌};
ghost use Rattle.vb_monitor.specs.Regions.{is_region, holds, spot};

use vb_core::MEMORY_LIMIT;
use vb_virtio::limits::PAGE_SIZE;

/// Bytes of a page.
pub(crate) const PAGE_BYTES: u64 = PAGE_SIZE as u64;

/// Where a region may begin in its file, at most.
pub const FILE_LIMIT: u64 = 1 << 62;

/// A region of guest memory: whole pages in a row. No two of a monitor's overlap; their order is
/// free.
#[repr(C)]
#[derive(Clone, Copy, Debug)]
pub struct Region {
    /// Where it begins in guest memory, in bytes.
    pub guest: u64,
    /// Its length in bytes.
    pub length: u64,
    /// Where it begins in the file that has its bytes, if one does; else 0.
    pub in_file: u64,
}

/// A place in guest memory: a region's number, and an offset in bytes.
#[repr(C)]
#[derive(Clone, Copy, Debug, PartialEq, Eq)]
pub struct Spot {
    pub region: usize,
    pub offset: u64,
}

impl Spot {
    /// The first byte of the first region.
    pub(crate) const FIRST: Spot = Spot {
        region: 0,
        offset: 0,
    };
}

impl Region {
    /// Whether it is whole pages, of guest memory below 2^44, from a place of a file up to 2^62 on.
    /// A region that isn't has no byte of guest memory.
    #[inline(always)]
    pub fn is_possible(&self) -> bool
        ensures { result ≡ is_region self.now }
    {
        self.guest % PAGE_BYTES + self.length % PAGE_BYTES == 0
            && self.guest <= MEMORY_LIMIT
            && self.length <= MEMORY_LIMIT - self.guest
            && self.in_file <= FILE_LIMIT
    }

    /// Whether `length` bytes from an address on lie in the region.
    #[inline(always)]
    pub fn holds(&self, address: u64, length: u64) -> bool
        ensures { result ≡ holds self.now address length }
    {
        self.is_possible()
            && self.guest <= address
            && length <= self.length
            && address - self.guest <= self.length - length
    }
}

/// The place of `length` bytes from an address on, in the first region that has all of them; none
/// where they aren't guest memory.
#[tactic(auto, using(crate::proofs::RegionLemmas::spot_steps))]
pub fn find(regions: &[Region], address: u64, length: u64) -> Option<Spot>
    ensures { result ≡ spot regions.now address length }
{
    for number in 0..regions.len() {
        let region = &regions[number];
        if region.holds(address, length) {
            return Some(Spot {
                region: number,
                offset: address - region.guest,
            });
        }
    }
    None
}

/// The place that `find` answers, for an address that is a sum.
#[tactic(auto, using(crate::proofs::RegionLemmas::spot_far))]
pub(crate) fn find_from(regions: &[Region], base: u64, plus: u64, length: u64) -> Option<Spot>
    ensures { result ≡ spot regions.now (base + plus) length }
{
    match base.checked_add(plus) {
        None => None,
        Some(address) => find(regions, address, length),
    }
}

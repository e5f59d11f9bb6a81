//! The pages that a request names, by its bytes.

ghost use Rattle.std.specs.Prelude.{◌≡◌, ◌≤◌, ◌<◌, ◌/◌, length};
ghost use Rattle.vb_virtio.specs.declared.layout.TheConstants.{REQUEST_BUFFER_SIZE};
ghost use Rattle.vb_request.specs.Request.{numbers_of, number_fault};
ghost use Rattle.vb_core.specs.Devices.{with_one_taken};
ghost use Rattle.vb_core.specs.Name.{is_request, is_length_of_numbers, NamesRuns, NamesNumbersBy};

use crate::runs::{Ends, add_page};
use crate::{Denial, Device, Kind, Run};
use vb_chain::ChainFault;
use vb_request::{number_at, number_fault as fault_of_number};
use vb_virtio::layout::REQUEST_BUFFER_SIZE;

/// What a request names: runs of pages.
#[repr(C)]
#[derive(Clone, Copy, Debug)]
pub struct Named {
    /// How many runs there are.
    pub runs: u32,
    /// How many pages they have together; one that is named again counts again.
    pub pages: u32,
    /// How many numbers were skipped.
    pub skipped: u32,
}

/// Which numbers a request may name.
#[derive(Clone, Copy, Debug)]
struct Limits {
    /// How many of the first pages are reserved.
    reserved: u32,
    /// How many pages memory has.
    count: u32,
    /// Others are skipped.
    skips: bool,
}

/// What is wrong with a page number; validity is one comparison.
#[tactic(auto, using(crate::proofs::NameLemmas::within))]
#[inline(always)]
fn number_fault(limits: Limits, number: u32) -> Option<ChainFault>
    ensures { result ≡ number_fault limits.reserved limits.count number }
{
    let span = limits.count.saturating_sub(limits.reserved);
    if number.wrapping_sub(limits.reserved) < span {
        return None;
    }
    fault_of_number(limits.reserved, limits.count, number)
}

/// The pages that the numbers in these bytes are, as runs in the front of a slice, or what is wrong
/// with the first wrong number where none is skipped.
fn name_runs(limits: Limits, bytes: &[u8], runs: &mut [Run]) -> Result<Named, ChainFault>
    requires few { length bytes.now ≤ REQUEST_BUFFER_SIZE }
    requires room { length bytes.now / 4 ≤ length runs.old }
    ensures { NamesRuns limits.skips limits.reserved limits.count (numbers_of bytes.now)
        runs.new result }
{
    let total = bytes.len() / 4;
    let mut used = 0;
    let mut skipped = 0;
    let mut ends = Ends::NONE;
    for k in 0..total {
        let number = number_at(bytes, k);
        match number_fault(limits, number) {
            None => used = add_page(runs, used, &mut ends, number),
            Some(fault) => {
                if !limits.skips {
                    return Err(fault);
                }
                skipped += 1;
            }
        }
    }
    Ok(Named {
        runs: used as u32,
        pages: total as u32 - skipped,
        skipped,
    })
}

impl Kind {
    /// Whether its chains are requests, which name pages by numbers.
    pub fn is_request(self) -> bool
        ensures { result ≡ is_request self }
    {
        match self {
            Kind::Inflate | Kind::Deflate => true,
            Kind::Statistics | Kind::Hint | Kind::Report => false,
        }
    }
}

/// Whether bytes of this length are numbers that may be named at once: whole ones, and at most as
/// many as `REQUEST_BUFFER_SIZE` has.
fn is_length_of_numbers(len: usize) -> bool
    ensures { result ≡ is_length_of_numbers len }
{
    len <= REQUEST_BUFFER_SIZE as usize && len % 4 == 0
}

impl Device {
    /// The pages that these numbers name, of 4 bytes each, in a row: those of the chain that is
    /// next on the queue of inflates or deflates, or of a part of it (VIRTIO 1.1, 5.5.6). They are
    /// answered as runs in the front of `runs`. A number that follows the last run, or is right
    /// before it, joins it. A page that is named again is there again. The chain isn't taken:
    /// `take_request` takes it, once all its numbers were named.
    ///
    /// Refused, tested in this order: `NoQueue` for a kind that the call isn't for; `BadArgument`
    /// where the bytes are no multiple of 4 or more than `REQUEST_BUFFER_SIZE`, or `runs` has less
    /// room than a quarter of them; `NotReady`; `NeedsReset`; `Misplaced`. Then nothing is changed.
    /// `Broken` where a number is no page of memory or a reserved one, unless the settings skip
    /// such numbers: DEVICE_NEEDS_RESET is set.
    pub fn name_numbers(
        &mut self,
        kind: Kind,
        bytes: &[u8],
        runs: &mut [Run],
    ) -> Result<Named, Denial>
        ensures { NamesNumbersBy kind bytes.now (length runs.old) runs.new
            self.old self.new result }
    {
        let fits = is_length_of_numbers(bytes.len()) && runs.len() >= bytes.len() / 4;
        if let Some(why) = self.call_denial(kind, kind.is_request(), fits) {
            return Err(why);
        }
        let limits = Limits {
            reserved: self.settings.reserved_pages,
            count: self.settings.pages(),
            skips: self.settings.skips_bad_pages(),
        };
        match name_runs(limits, bytes, runs) {
            Ok(named) => Ok(named),
            Err(fault) => {
                self.note_fault();
                Err(Denial::Broken(fault))
            }
        }
    }

    /// Takes the chain that is next on a kind's queue, all of whose numbers `name_numbers` named:
    /// once for each chain, and for none that had a refusal.
    #[inline(always)]
    pub fn take_request(&mut self, kind: Kind)
        ensures { self.new ≡ with_one_taken kind self.old }
    {
        self.count_taken(kind);
    }
}

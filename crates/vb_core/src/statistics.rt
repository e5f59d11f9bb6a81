//! What a guest says of its memory, in a private copy of the buffer's bytes.

ghost use Rattle.std.specs.Prelude.{◌≡◌, ℕ, ◌≤◌, ◌<◌, ◌/◌, Some, None, Ok, Err, length};
ghost use Rattle.std.specs.Prelude.{slice_index_or};
ghost use Rattle.vb_core.specs.declared.statistics.Statistic.{Statistic};
ghost use Rattle.vb_core.specs.declared.device.Denial.{Denial};
ghost use Rattle.vb_core.specs.declared.kinds.Kind.TheVariants.{Statistics};
ghost use Rattle.vb_core.specs.Devices.{with_one_taken};
ghost use Rattle.vb_core.specs.Statistics.{AreFigures, statistics_denial};

use crate::{Denial, Device, Kind};
use vb_request::{is_statistics_length, tag_at, value_at};

/// A figure of the guest's (VIRTIO 1.1, 5.5.6.3).
#[repr(C)]
#[derive(Clone, Copy, Debug)]
pub struct Statistic {
    /// What it is of (5.5.6.4); any tag.
    pub tag: u16,
    /// The value.
    pub value: u64,
}

/// Puts the figures of these bytes, 10 bytes each, into the front of a slice.
fn put_figures(bytes: &[u8], figures: &mut [Statistic])
    requires { length bytes.now / 10 ≤ length figures.old }
    ensures { AreFigures bytes.now figures.new }
{
    for k in 0..bytes.len() / 10 {
        figures[k] = Statistic {
            tag: tag_at(bytes, k),
            value: value_at(bytes, k),
        };
    }
}

impl Device {
    /// Takes the buffer that was next on the queue of statistics, whose pieces' bytes are these, in
    /// a row: its figures, in order, in the front of `figures`; answers how many there are.
    ///
    /// Refused, tested in this order, and then nothing is taken: `BadArgument` where a buffer has
    /// no such length, or `figures` has less room than a tenth of it; `NotReady`; `NeedsReset`;
    /// `NoQueue` without STATS_VQ; `Misplaced`.
    pub fn statistics(&mut self, bytes: &[u8], figures: &mut [Statistic]) -> Result<u32, Denial>
        ensures denied { (why : Denial) →
            statistics_denial (length bytes.now) (length figures.old) self.old ≡ Some why →
            (result ≡ Err why) × (self.new ≡ self.old) }
        ensures taken { statistics_denial (length bytes.now) (length figures.old) self.old ≡ None →
            (result ≡ Ok (length bytes.now / 10)) × AreFigures bytes.now figures.new ×
            (self.new ≡ with_one_taken Statistics self.old) }
    {
        let count = bytes.len() / 10;
        let fits = is_statistics_length(bytes.len() as u64) && figures.len() >= count;
        if let Some(why) = self.call_denial(Kind::Statistics, true, fits) {
            return Err(why);
        }
        put_figures(bytes, figures);
        self.count_taken(Kind::Statistics);
        Ok(count as u32)
    }
}

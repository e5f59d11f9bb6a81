//! The kinds of a balloon device's queues.

ghost use Rattle.std.specs.Prelude.{◌≡◌};
ghost use Rattle.vb_core.specs.Kinds.{queue_of, lacks, kind_of};

use crate::settings::has_free_page_hint;
use bitflags::Flags;
use vb_request::lacks_feature;
use vb_status::Features;
use vb_virtio::layout::{DEFLATE_QUEUE, INFLATE_QUEUE, REPORT_QUEUE, STATISTICS_QUEUE};

/// The number of the queue of hints (VIRTIO 1.2, 5.5.2).
const HINT_QUEUE: u32 = 3;

/// What a queue is for (VIRTIO 1.1, 5.5.2), whatever its number is.
#[derive(Clone, Copy, Debug, PartialEq, Eq)]
pub enum Kind {
    /// Pages are given to the host.
    Inflate,
    /// Pages are requested back.
    Deflate,
    /// The guest's figures of its memory.
    Statistics,
    /// Pages that are free in the guest for now.
    Hint,
    /// Pages that are free in the guest.
    Report,
}

impl Kind {
    /// The number of its queue where queues have fixed numbers, which is 4 for reports.
    pub fn queue(self) -> u32
        ensures { result ≡ queue_of self }
    {
        match self {
            Kind::Inflate => INFLATE_QUEUE,
            Kind::Deflate => DEFLATE_QUEUE,
            Kind::Statistics => STATISTICS_QUEUE,
            Kind::Hint => HINT_QUEUE,
            Kind::Report => REPORT_QUEUE,
        }
    }

    /// Whether these features leave its queue out.
    pub(crate) fn is_lacked(self, features: u64) -> bool
        ensures { result ≡ lacks features self }
    {
        match self {
            Kind::Hint => !has_free_page_hint(features),
            Kind::Inflate | Kind::Deflate | Kind::Statistics | Kind::Report => {
                lacks_feature(self.queue(), Features::from_bits_retain(features))
            }
        }
    }

    /// The kind of the queue of this number: a driver numbers queues without gaps, by the features
    /// that it negotiated (VIRTIO 1.1, 5.5.2). None where there is no such queue.
    pub fn of_number(features: Features, number: u32) -> Option<Kind>
        ensures { result ≡ kind_of features.0 number }
    {
        let statistics = features.stats_vq();
        let hints = has_free_page_hint(features.bits());
        let reports = features.reporting();
        match number {
            0 => Some(Kind::Inflate),
            1 => Some(Kind::Deflate),
            2 if statistics => Some(Kind::Statistics),
            2 if hints => Some(Kind::Hint),
            2 if reports => Some(Kind::Report),
            3 if statistics && hints => Some(Kind::Hint),
            3 if reports && (statistics || hints) => Some(Kind::Report),
            4 if statistics && hints && reports => Some(Kind::Report),
            _ => None,
        }
    }
}

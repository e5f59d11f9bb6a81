//! What the figures that a notice tells say of the guest's memory.

ghost use Rattle.std.specs.Prelude.{◌≡◌, ◌==◌, if◌then◌else◌, Some};
ghost use Rattle.vb_virtio.specs.declared.layout.TheConstants.{FREE_MEMORY_TAG, TOTAL_MEMORY_TAG};
ghost use Rattle.vb_served.specs.Store.{last_value};

use vb_core::Statistic;
use vb_request::Statistics;
use vb_virtio::layout::{FREE_MEMORY_TAG, TOTAL_MEMORY_TAG};

/// What is known once a figure was told: its value, where it has the tag.
fn later(found: Option<u64>, figure: Statistic, tag: u16) -> Option<u64>
    ensures { result ≡ (if figure.tag == tag then Some figure.value else found) }
{
    if figure.tag == tag {
        Some(figure.value)
    } else {
        found
    }
}

/// The value of the last figure of a tag, if there is one.
fn last_value(figures: &[Statistic], tag: u16) -> Option<u64>
    ensures { result ≡ last_value tag figures.now }
{
    let mut found = None;
    for k in 0..figures.len() {
        found = later(found, figures[k], tag);
    }
    found
}

/// What the figures say: the last one of each tag counts, and other tags are skipped.
pub(crate) fn last_in(figures: &[Statistic]) -> Statistics
    ensures free { result.free ≡ last_value FREE_MEMORY_TAG figures.now }
    ensures total { result.total ≡ last_value TOTAL_MEMORY_TAG figures.now }
{
    Statistics {
        free: last_value(figures, FREE_MEMORY_TAG),
        total: last_value(figures, TOTAL_MEMORY_TAG),
    }
}

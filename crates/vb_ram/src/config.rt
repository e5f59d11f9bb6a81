//! How large a guest is.

ghost use Rattle.std.specs.Prelude.{◌≡◌, ◌%◌, Option, Some, None, if◌then◌else◌, ◌==◌, ◌&&◌};
ghost use Rattle.vb_virtio.specs.declared.limits.TheConstants.{MIN_GUEST_PAGES, MAX_GUEST_PAGES};
ghost use Rattle.vb_virtio.specs.declared.limits.TheConstants.{MIN_QUEUE_SIZE, MAX_QUEUE_SIZE};
ghost use Rattle.vb_virtio.specs.declared.limits.TheConstants.{GUEST_PAGES_STEP};
ghost use Rattle.vb_virtio.specs.Limits.{is_config, is_between, is_power_of_two};

use crate::Shape;
use vb_virtio::limits::{
    GUEST_PAGES_STEP, MAX_GUEST_PAGES, MAX_PROCESSORS, MAX_QUEUE_SIZE, MIN_GUEST_PAGES,
    MIN_QUEUE_SIZE,
};

/// How large a guest is: plain data, which may be beyond the limits.
#[derive(Clone, Copy, Debug, PartialEq, Eq)]
pub struct Config {
    /// Pages of memory.
    pub pages: u32,
    /// Descriptors of each queue (VIRTIO 1.1, 2.6).
    pub queue_size: u16,
    /// Processors, each with a list of free pages.
    pub processors: u32,
}

impl Config {
    /// A guest of these sizes; none where one of them is beyond its limits.
    pub fn new(pages: u32, queue_size: u32, processors: u32) -> Option<Config>
        ensures { result ≡ (if is_config pages queue_size processors
            then Some (record { pages = pages; queue_size = queue_size; processors = processors })
            else None) }
    {
        if !are_within_limits(pages, queue_size, processors) {
            return None;
        }
        Some(Config {
            pages,
            queue_size: queue_size as u16,
            processors,
        })
    }

    /// Where rings and buffers are in the guest's memory.
    pub fn shape(&self) -> Shape
        ensures { result ≡ record { queue_size = self.now.queue_size } }
    {
        Shape {
            queue_size: self.queue_size,
        }
    }

    /// Whether each size is one that a guest may have: pages a multiple of 16, descriptors a power
    /// of two, and all three within their bounds (profile).
    pub fn is_within_limits(&self) -> bool
        ensures { result ≡ is_config self.now.pages self.now.queue_size self.now.processors }
    {
        are_within_limits(self.pages, u32::from(self.queue_size), self.processors)
    }
}

fn are_within_limits(pages: u32, queue_size: u32, processors: u32) -> bool
    ensures { result ≡ is_config pages queue_size processors }
{
    let pages_fit = are_guest_pages(pages);
    let queue_fits = is_queue_size(queue_size);
    let processors_fit = is_between(processors, 1, MAX_PROCESSORS);
    pages_fit & (queue_fits & processors_fit)
}

fn are_guest_pages(number: u32) -> bool
    ensures { result ≡ (is_between MIN_GUEST_PAGES MAX_GUEST_PAGES number
        && (number % GUEST_PAGES_STEP == 0)) }
{
    is_between(number, MIN_GUEST_PAGES, MAX_GUEST_PAGES) & (number % GUEST_PAGES_STEP == 0)
}

fn is_queue_size(number: u32) -> bool
    ensures { result ≡ (is_between MIN_QUEUE_SIZE MAX_QUEUE_SIZE number && is_power_of_two number) }
{
    is_between(number, MIN_QUEUE_SIZE, MAX_QUEUE_SIZE) & is_power_of_two(number)
}

fn is_between(number: u32, least: u32, most: u32) -> bool
    ensures { result ≡ is_between least most number }
{
    (least..=most).contains(&number)
}

/// Whether the number is a power of two, in the words of the definitions.
fn is_power_of_two(number: u32) -> bool
    ensures { result ≡ is_power_of_two number }
{
    (0..32).any(|exponent| 2u32.pow(exponent) == number)
}

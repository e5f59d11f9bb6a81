//! What a monitor settles for a device.

ghost use Rattle.std.specs.Prelude.{◌≡◌, ◌<◌, ◌^◌, ◌==◌, true};
ghost use Rattle.vb_core.specs.Settings.{are_settings, memory_pages, needs_must_tell, skips};
ghost use Rattle.vb_core.specs.Settings.{discards_hints};
ghost use Rattle.vb_core.specs.Settings.{page_poison, free_page_hint, without_later, holds_chains};
ghost use Rattle.vb_core.specs.Settings.{longest_request};

use crate::Kind;
use bitflags::Flags;
use vb_status::Features;
use vb_virtio::limits::PAGE_SIZE;
use vb_virtio::negotiation::OFFERED_FEATURES;

/// Guest memory ends before this address, so that 32 bits number its pages.
pub const MEMORY_LIMIT: u64 = 1 << 44;

/// How many page numbers each request may have, however small memory is.
pub const LONGEST_REQUEST: u32 = 1 << 20;

/// The feature FREE_PAGE_HINT: the driver hints pages that it keeps free (VIRTIO 1.2, 5.5.3).
pub const FREE_PAGE_HINT: u64 = 8;

/// The feature PAGE_POISON: the driver says in `poison_val` what its free pages hold (VIRTIO 1.2,
/// 5.5.3).
pub const PAGE_POISON: u64 = 16;

/// All features but FREE_PAGE_HINT and PAGE_POISON.
const OTHERS: u64 = !(FREE_PAGE_HINT | PAGE_POISON);

/// The features that a device may offer.
const KNOWN: u64 = OFFERED_FEATURES | FREE_PAGE_HINT | PAGE_POISON;

/// Whether PAGE_POISON is one of these features.
pub(crate) fn has_page_poison(features: u64) -> bool
    ensures { result ≡ page_poison features }
{
    features & PAGE_POISON == PAGE_POISON
}

/// Whether FREE_PAGE_HINT is one of these features.
pub(crate) fn has_free_page_hint(features: u64) -> bool
    ensures { result ≡ free_page_hint features }
{
    features & FREE_PAGE_HINT == FREE_PAGE_HINT
}

/// These features but FREE_PAGE_HINT and PAGE_POISON.
pub(crate) fn without_later(features: u64) -> u64
    ensures { result ≡ without_later features }
{
    features & OTHERS
}

/// What a monitor settles for a device, once.
#[repr(C)]
#[derive(Clone, Copy, Debug)]
pub struct Settings {
    /// Where guest memory ends, in bytes. The last part of a page doesn't count; holes below it are
    /// the monitor's.
    pub memory_end: u64,
    /// The features that the device offers: some of those that it knows, VERSION_1 among them
    /// (VIRTIO 1.1, 5.5.3 and 6). It knows FREE_PAGE_HINT and PAGE_POISON
    /// too (VIRTIO 1.2, 5.5.3).
    pub offered: u64,
    /// How many pages at the start of memory no request may name.
    pub reserved_pages: u32,
    /// Unless 0, FEATURES_OK is refused without MUST_TELL_HOST.
    pub needs_must_tell: u8,
    /// Unless 0, a number that is no page, or a reserved one, is skipped and counted, and breaks no
    /// rule.
    pub skips_bad_pages: u8,
    /// Unless 0, a deflate is held until it is granted: its chain isn't given back before. A driver
    /// waits for that only with MUST_TELL_HOST (VIRTIO 1.1, 5.5.6).
    pub holds_deflates: u8,
    /// Unless 0, pages that are hinted are discarded once they were told, with what the driver
    /// wrote to them since; else they are kept. A driver may write to one before its round ends
    /// (VIRTIO 1.2, 5.5.6.6), as Linux does where its memory runs out.
    pub discards_hints: u8,
}

impl Settings {
    /// Whether a device may have these settings: memory ends below 2^44, and each feature that is
    /// offered is known, VERSION_1 among them.
    pub fn are_possible(&self) -> bool
        ensures value { result ≡ are_settings self.now }
        ensures bounds { result ≡ true → memory_pages self.now < 2 ^ 32 }
    {
        let offered = Features::from_bits_retain(self.offered);
        let known = Features::from_bits_retain(KNOWN);
        self.memory_end < MEMORY_LIMIT && known.contains(offered) && offered.version_1()
    }

    /// How many pages of 4096 bytes memory has.
    pub fn pages(&self) -> u32
        requires { memory_pages self.now < 2 ^ 32 }
        ensures { result ≡ memory_pages self.now }
    {
        (self.memory_end / u64::from(PAGE_SIZE)) as u32
    }

    /// How many page numbers a request of such a memory may have at most: as many as memory has
    /// pages, and `LONGEST_REQUEST` where that is more.
    pub fn longest_request(&self) -> u32
        ensures { result ≡ longest_request self.now }
    {
        let pages = self.memory_end / u64::from(PAGE_SIZE);
        pages
            .max(u64::from(LONGEST_REQUEST))
            .min(u64::from(u32::MAX)) as u32
    }

    /// Whether FEATURES_OK asks for MUST_TELL_HOST.
    pub fn needs_must_tell(&self) -> bool
        ensures { result ≡ needs_must_tell self.now }
    {
        self.needs_must_tell != 0
    }

    /// Whether a number that may not be named is skipped.
    pub fn skips_bad_pages(&self) -> bool
        ensures { result ≡ skips self.now }
    {
        self.skips_bad_pages != 0
    }

    /// Whether pages that are hinted are discarded.
    pub fn discards_hints(&self) -> bool
        ensures { result ≡ discards_hints self.now }
    {
        self.discards_hints != 0
    }

    /// Whether a chain of a kind's queue is held once it was taken, until it is asked for: buffers
    /// of statistics are (VIRTIO 1.1, 5.5.6.3), and deflates where `holds_deflates` says so.
    pub fn holds_chains(&self, kind: Kind) -> bool
        ensures { result ≡ holds_chains kind self.now }
    {
        match kind {
            Kind::Statistics => true,
            Kind::Deflate => self.holds_deflates != 0,
            Kind::Inflate | Kind::Hint | Kind::Report => false,
        }
    }
}

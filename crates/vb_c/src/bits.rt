//! What a notice says is to be done: a bit for each thing, in the order in which they are done.

/// The first `runs` of the room were given up, are requested back, or are free.
pub(crate) const TELL_PAGES: u32 = 1;

/// The first `figures` of the room are what the guest says.
pub(crate) const TELL_FIGURES: u32 = 2;

/// `hint_id` is the id that the driver sent with its hints.
pub(crate) const TELL_ID: u32 = 4;

/// Give the bytes of the first `cuts` of the room back to the machine.
pub(crate) const DISCARD: u32 = 8;

/// Write `id` to `id_at` and `used_length` to `length_at` (32 bits each), then a release fence,
/// then `used_index` to `index_at` (16 bits, by one access).
pub(crate) const GIVE_BACK: u32 = 16;

/// An acquire fence.
pub(crate) const ACQUIRE: u32 = 32;

/// A full fence.
pub(crate) const FULL_FENCE: u32 = 64;

/// Read the word of 16 bits that is `at`, by one access: that is the answer.
pub(crate) const READ: u32 = 128;

/// Copy `length` bytes that are `at` to `bytes + into` of the room, each read once: one or up to 32
/// descriptors of a queue's table (16 bytes each), or bytes of a chain's piece.
pub(crate) const COPY: u32 = 256;

/// Call vb_go_on later, with this notice and its room's `pieces`: its budget of pages is used up
/// amid a chain.
pub(crate) const PAUSE: u32 = 512;

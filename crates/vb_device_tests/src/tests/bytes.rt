//! Descriptors, rings and buffers, as more than one of the tables has them.

/// A request for pages 17 to 20.
pub(super) const NUMBERS: [u8; 16] = [17, 0, 0, 0, 18, 0, 0, 0, 19, 0, 0, 0, 20, 0, 0, 0];

/// A request for pages 32 to 35.
pub(super) const NUMBERS_FROM_32: [u8; 16] = [32, 0, 0, 0, 33, 0, 0, 0, 34, 0, 0, 0, 35, 0, 0, 0];

/// An available ring with one entry, for head 0.
pub(super) const AVAILABLE: [u8; 6] = [0, 0, 1, 0, 0, 0];

/// Available rings with head 8, and with indices 8 and 9.
pub(super) const HEAD_IS_8: [u8; 6] = [0, 0, 1, 0, 8, 0];

pub(super) const NINE_AHEAD: [u8; 6] = [0, 0, 9, 0, 0, 0];

/// The used ring, with the element of head 0 and length 0.
pub(super) const USED: [u8; 12] = [0, 0, 1, 0, 0, 0, 0, 0, 0, 0, 0, 0];

/// Descriptors of them, by address, length, flags and next.
pub(super) const FOUR_BYTES: [u8; 16] = [0, 0x40, 0, 0, 0, 0, 0, 0, 4, 0, 0, 0, 0, 0, 0, 0];

/// A descriptor of 8 bytes there.
pub(super) const EIGHT_BYTES: [u8; 16] = [0, 0x40, 0, 0, 0, 0, 0, 0, 8, 0, 0, 0, 0, 0, 0, 0];

/// A descriptor of 16 bytes at address 0x4000 that the device reads, with no other after it.
pub(super) const SIXTEEN_BYTES: [u8; 16] = [0, 0x40, 0, 0, 0, 0, 0, 0, 16, 0, 0, 0, 0, 0, 0, 0];

pub(super) const WRITABLE: [u8; 16] = [0, 0x40, 0, 0, 0, 0, 0, 0, 4, 0, 0, 0, 2, 0, 0, 0];

/// No bytes at address 0.
pub(super) const EMPTY: [u8; 16] = [0; 16];

/// Page 16 in two pieces.
pub(super) const PAGE_16_TWICE: [u8; 32] = [
    0, 0, 1, 0, 0, 0, 0, 0, 0, 16, 0, 0, 3, 0, 1, 0, 0, 0, 1, 0, 0, 0, 0, 0, 0, 16, 0, 0, 2, 0, 0,
    0,
];

/// Descriptors of 8 bytes at address 0x4000 and 8 bytes at address 0x4008, neither with another
/// after it.
pub(super) const TWO_REQUESTS: [u8; 32] = [
    0, 0x40, 0, 0, 0, 0, 0, 0, 8, 0, 0, 0, 0, 0, 0, 0, 8, 0x40, 0, 0, 0, 0, 0, 0, 8, 0, 0, 0, 0, 0,
    0, 0,
];

//! The room that a notice needs for what it copies and makes of it.

use vb_chain::MAX_DESCRIPTORS;
use vb_core::{ChainPiece, Run, Statistic};
use vb_virtio::layout::{MAX_STATISTICS_LENGTH, REQUEST_BUFFER_SIZE, STATISTIC_SIZE};
use vb_virtio::limits::MAX_REQUEST_PAGES;

/// Pieces that a chain has at most.
pub const MAX_PIECES: usize = MAX_DESCRIPTORS;

/// Bytes that are copied of a chain at most: those of a request.
pub const MAX_BYTES: usize = REQUEST_BUFFER_SIZE as usize;

/// Descriptors that are copied together at most, which are one after the other in a table.
pub const ROW_DESCRIPTORS: usize = 32;

/// Runs that a chain names at most.
pub const MAX_RUNS: usize = MAX_REQUEST_PAGES as usize;

/// Figures that a buffer of statistics has at most.
pub const MAX_FIGURES: usize = (MAX_STATISTICS_LENGTH / STATISTIC_SIZE) as usize;

/// What a notice copies of a chain, and makes of it.
#[repr(C)]
#[derive(Clone, Copy, Debug)]
pub struct Room {
    /// The chain's pieces.
    pub pieces: [ChainPiece; MAX_PIECES],
    /// Their bytes, or those of a row of descriptors.
    pub bytes: [u8; MAX_BYTES],
    /// The runs that they name.
    pub runs: [Run; MAX_RUNS],
    /// The figures that they tell.
    pub figures: [Statistic; MAX_FIGURES],
}

impl Room {
    /// Nothing was copied yet.
    pub const EMPTY: Room = Room {
        pieces: [ChainPiece {
            address: 0,
            length: 0,
            writable: 0,
        }; MAX_PIECES],
        bytes: [0; MAX_BYTES],
        runs: [Run::NONE; MAX_RUNS],
        figures: [Statistic { tag: 0, value: 0 }; MAX_FIGURES],
    };
}

//! The numbers of the rules of a chain, which `ChainFault` says.

use vb_chain::ChainFault;

pub(crate) const BAD_HEAD: u32 = ChainFault::BadHead as u32;

pub(crate) const BAD_NEXT: u32 = ChainFault::BadNext as u32;

pub(crate) const TOO_LONG: u32 = ChainFault::TooLong as u32;

pub(crate) const INDIRECT: u32 = ChainFault::Indirect as u32;

pub(crate) const WRONG_DIRECTION: u32 = ChainFault::WrongDirection as u32;

pub(crate) const OUT_OF_RAM: u32 = ChainFault::OutOfRam as u32;

pub(crate) const INDEX_JUMP: u32 = ChainFault::IndexJump as u32;

pub(crate) const BAD_LENGTH: u32 = ChainFault::BadLength as u32;

pub(crate) const BAD_PAGE: u32 = ChainFault::BadPage as u32;

pub(crate) const RESERVED_PAGE: u32 = ChainFault::ReservedPage as u32;

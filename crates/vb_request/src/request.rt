//! The pages of a request: a chain of the queue of inflates or of deflates.

ghost use Rattle.std.specs.Prelude.{◌≡◌, ◌+◌, ◌*◌, ◌<◌, ◌≤◌, ◌++◌, ◌∷◌, []};
ghost use Rattle.std.specs.Prelude.{if◌then◌else◌, Ok, Err, All, IfOk, IfErr, OnOk, MatchResult};
ghost use Rattle.std.specs.Prelude.{length};
ghost use Rattle.vb_virtio.specs.declared.layout.TheConstants.{REQUEST_BUFFER_SIZE};
ghost use Rattle.vb_virtio.specs.declared.limits.TheConstants.{MAX_QUEUE_SIZE};
ghost use Rattle.vb_virtio.specs.Limits.{page_size, max_request_pages};
ghost use Rattle.vb_virtio.specs.Tests.{is_in};
ghost use Rattle.vb_request.specs.Request.{number_at, numbers_of, number_fault, pages_of_numbers};
ghost use Rattle.vb_request.specs.Request.{is_request_length, request_length, page_request};

use crate::NamedPages;
use crate::buffer::{ChainBytes, gather, has_writable, total_length};
use crate::named::RequestPages;
use vb_chain::{ChainFault, Piece};
use vb_ram::GuestBytes;
use vb_virtio::layout::REQUEST_BUFFER_SIZE;

/// Whether a request may have `total` bytes: some, at most 1024, and a multiple of 4.
pub fn is_request_length(total: u64) -> bool
    ensures { result ≡ is_request_length total }
{
    total > 0 && total <= u64::from(REQUEST_BUFFER_SIZE) && total % 4 == 0
}

/// How many bytes a chain of these pieces has together on the queue of inflates or of deflates
/// (VIRTIO 1.1, 5.5.6): from 4 to 1024.
///
/// Refused, tested in this order:
///
/// - `WrongDirection` where a piece is the device's to write;
/// - `BadLength` where the pieces have no byte together, more than 1024, or no multiple of 4.
pub fn request_length(pieces: &[Piece]) -> Result<u32, ChainFault>
    requires { length pieces.now ≤ MAX_QUEUE_SIZE }
    ensures { result ≡ request_length pieces.now }
{
    if has_writable(pieces) {
        return Err(ChainFault::WrongDirection);
    }
    let total = total_length(pieces);
    if !is_request_length(total) {
        return Err(ChainFault::BadLength);
    }
    Ok(total as u32)
}

/// Number `k` of these bytes, from 0: four bytes each, little-endian (VIRTIO 1.1, 5.5.6).
pub fn number_at(bytes: &[u8], k: usize) -> u32
    requires { 4 * k + 4 ≤ length bytes.now }
    ensures { result ≡ number_at bytes.now k }
{
    let mut word = [0; 4];
    word.copy_from_slice(&bytes[4 * k..4 * k + 4]);
    u32::from_le_bytes(word)
}

/// What is wrong with a page number, where memory has `count` pages, of which the first `reserved`
/// are reserved: `BadPage` where there is no such page, and then `ReservedPage`.
pub fn number_fault(reserved: u32, count: u32, number: u32) -> Option<ChainFault>
    ensures { result ≡ number_fault reserved count number }
{
    if number >= count {
        Some(ChainFault::BadPage)
    } else if number < reserved {
        Some(ChainFault::ReservedPage)
    } else {
        None
    }
}

/// Whether the page is among these.
fn is_named(pages: &[u32], number: u32) -> bool
    ensures { result ≡ is_in number pages.now }
{
    pages.contains(&number)
}

/// Puts a page after the others, unless it is there.
fn add_once(pages: &mut RequestPages, number: u32)
    requires { length pages.old.items < max_request_pages }
    ensures { pages.new.items ≡
        (if is_in number pages.old.items then pages.old.items else pages.old.items ++ number ∷ []) }
{
    if !is_named(pages, number) {
        pages.push(number);
    }
}

/// Puts the pages that the numbers in these bytes are, each once, into a list; or finds what is
/// wrong with the first wrong one, and leaves open what the list has. What it held before is gone.
fn list_pages(
    reserved: u32,
    count: u32,
    bytes: &[u8],
    pages: &mut RequestPages,
) -> Result<(), ChainFault>
    requires { length bytes.now ≤ REQUEST_BUFFER_SIZE }
    ensures pages { OnOk result
        (pages_of_numbers reserved count (numbers_of bytes.now) ≡ Ok pages.new.items) }
    ensures fault { IfErr result (λ fault.
        pages_of_numbers reserved count (numbers_of bytes.now) ≡ Err fault) }
{
    pages.clear();
    for k in 0..bytes.len() / 4 {
        let number = number_at(bytes, k);
        if let Some(fault) = number_fault(reserved, count, number) {
            return Err(fault);
        }
        add_once(pages, number);
    }
    Ok(())
}

/// Puts the numbers that a chain of these pieces lists into a list, each once, or finds what is
/// wrong with it, and leaves open what the list has. What it held before is gone.
pub(crate) fn page_request<G: GuestBytes>(
    ram: &G,
    pieces: &[Piece],
    reserved: u32,
    pages: &mut RequestPages,
) -> Result<(), ChainFault>
    requires inside { All
        (λ piece. piece.addr + piece.len ≤ page_size * length (G.mem ram.now)) pieces.now }
    requires few { length pieces.now ≤ MAX_QUEUE_SIZE }
    ensures pages { OnOk result
        (page_request (G.mem ram.now) pieces.now reserved ≡ Ok pages.new.items) }
    ensures fault { IfErr result (λ fault.
        page_request (G.mem ram.now) pieces.now reserved ≡ Err fault) }
{
    let count = ram.pages();
    match request_length(pieces) {
        Err(fault) => Err(fault),
        Ok(_) => {
            let mut bytes = ChainBytes::new();
            gather(ram, pieces, &mut bytes);
            list_pages(reserved, count, bytes.as_slice(), pages)
        }
    }
}

/// The pages that a chain of these pieces names on the queue of inflates or of deflates, each once,
/// in the order in which they first are there: little-endian numbers of 32 bits (VIRTIO 1.1,
/// 5.5.6), at most 256. The guest's first `reserved` pages are reserved.
///
/// The pieces lie in the guest's memory and are no more than a queue has descriptors, as those of a
/// chain do that `vb_chain::walk` gives. Refused, tested in this order:
///
/// - `WrongDirection` where a piece is the device's to write;
/// - `BadLength` where the pieces have no byte together, more than 1024, or no multiple of 4;
/// - for the first number that is wrong, `BadPage` where the guest has no such page, and
///   `ReservedPage` where the page is reserved.
///
/// What it answers is moved to the caller, some times 1 KiB: a caller that reads many requests
/// keeps room for their pages, and calls `read_request_into`.
pub fn read_request<G: GuestBytes>(
    ram: &G,
    pieces: &[Piece],
    reserved: u32,
) -> Result<NamedPages, ChainFault>
    requires inside { All
        (λ piece. piece.addr + piece.len ≤ page_size * length (G.mem ram.now)) pieces.now }
    requires few { length pieces.now ≤ MAX_QUEUE_SIZE }
    ensures pages { MatchResult result
        (λ pages. page_request (G.mem ram.now) pieces.now reserved ≡ Ok pages)
        (λ fault. page_request (G.mem ram.now) pieces.now reserved ≡ Err fault) }
    ensures above { IfOk result (λ pages. All (λ page. reserved ≤ page) pages) }
{
    let mut named = NamedPages::none();
    match read_request_into(ram, pieces, reserved, &mut named) {
        Ok(()) => Ok(named),
        Err(fault) => Err(fault),
    }
}

/// Reads a request as `read_request` does, into room that the caller keeps. What the room named
/// before is gone; where the chain is refused, what it names is left open.
pub fn read_request_into<G: GuestBytes>(
    ram: &G,
    pieces: &[Piece],
    reserved: u32,
    named: &mut NamedPages,
) -> Result<(), ChainFault>
    requires inside { All
        (λ piece. piece.addr + piece.len ≤ page_size * length (G.mem ram.now)) pieces.now }
    requires few { length pieces.now ≤ MAX_QUEUE_SIZE }
    ensures pages { OnOk result
        (page_request (G.mem ram.now) pieces.now reserved ≡ Ok named.new) }
    ensures fault { IfErr result (λ fault.
        page_request (G.mem ram.now) pieces.now reserved ≡ Err fault) }
    ensures above { OnOk result (All (λ page. reserved ≤ page) named.new) }
{
    named.list_request(ram, pieces, reserved)
}

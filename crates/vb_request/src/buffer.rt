//! The bytes of a chain that the device reads.

ghost use Rattle.std.specs.Prelude.{◌≡◌, ◌+◌, ◌*◌, ◌/◌, ◌%◌, ◌^◌, ◌<◌, ◌≤◌, ◌++◌, [], All, length};
ghost use Rattle.std.specs.List.{list_any};
ghost use Rattle.vb_virtio.specs.declared.layout.TheConstants.{REQUEST_BUFFER_SIZE};
ghost use Rattle.vb_virtio.specs.declared.limits.TheConstants.{MAX_QUEUE_SIZE};
ghost use Rattle.vb_virtio.specs.Limits.{page_size};
ghost use Rattle.vb_request.specs.Request.{bytes_from, bytes_of, total_length};

use std::marker::Model;
use vb_chain::Piece;
use vb_ram::GuestBytes;
use vb_virtio::layout::REQUEST_BUFFER_SIZE;
use vb_virtio::limits::PAGE_SIZE;

/// Bytes of a page.
const PAGE_BYTES: u64 = PAGE_SIZE as u64;

/// Bytes of a chain that is read, at most: a buffer of statistics has fewer than a request may
/// have.
const BUFFER_BYTES: usize = REQUEST_BUFFER_SIZE as usize;

/// The bytes of a chain, all its pieces in a row.
#[derive(Drop)]
pub(crate) struct ChainBytes {
    /// The bytes, in order; past `len` unused.
    bytes: [u8; BUFFER_BYTES],
    /// How many there are.
    len: usize,
}

impl Model for ChainBytes {
    ghost use Rattle.std.specs.Prelude.{◌≤◌, ℕ, List, take};
    ghost use Rattle.vb_virtio.specs.declared.layout.TheConstants.{REQUEST_BUFFER_SIZE};

    ghost Value = { List ℕ };

    ghost view = { λ c. take c.len c.bytes };

    ghost invariant = { λ c. c.len ≤ REQUEST_BUFFER_SIZE };
}

/// Reads bytes of one page, from an address on.
fn read_run<G: GuestBytes>(ram: &G, addr: u64, run: &mut [u8])
    requires page { addr / page_size < length (G.mem ram.now) }
    requires inside { addr % page_size + length run.old ≤ page_size }
    requires few { length (G.mem ram.now) < 2 ^ 32 }
    ensures { run.new ≡ bytes_from (G.mem ram.now) addr (length run.old) }
{
    let page = (addr / PAGE_BYTES) as u32;
    let offset = (addr % PAGE_BYTES) as usize;
    let _ = ram.read(page, offset, run);
}

impl ChainBytes {
    /// No bytes.
    #[inline]
    pub(crate) fn new() -> ChainBytes
        ensures { result ≡ [] }
    {
        ChainBytes {
            bytes: [0; BUFFER_BYTES],
            len: 0,
        }
    }

    /// The bytes, in order.
    pub(crate) fn as_slice(&self) -> &[u8]
        ensures bytes { result.now ≡ self.now }
        ensures few { length result.now ≤ REQUEST_BUFFER_SIZE }
    {
        &self.bytes[..self.len]
    }

    /// Reads bytes of one page and puts them after the others.
    fn append_run<G: GuestBytes>(&mut self, ram: &G, addr: u64, len: usize)
        requires inside { addr + len ≤ page_size * length (G.mem ram.now) }
        requires one_page { addr % page_size + len ≤ page_size }
        requires few { length (G.mem ram.now) < 2 ^ 32 }
        requires room { length self.old + len ≤ REQUEST_BUFFER_SIZE }
        ensures { self.new ≡ self.old ++ bytes_from (G.mem ram.now) addr len }
    {
        if len == 0 {
            return;
        }
        let end = self.len + len;
        read_run(ram, addr, &mut self.bytes[self.len..end]);
        self.len = end;
    }

    /// Reads a piece's bytes and puts them after the others: a piece of a chain that is read lies
    /// in one page or in two.
    fn append<G: GuestBytes>(&mut self, ram: &G, addr: u64, len: u32)
        requires inside { addr + len ≤ page_size * length (G.mem ram.now) }
        requires few { length (G.mem ram.now) < 2 ^ 32 }
        requires room { length self.old + len ≤ REQUEST_BUFFER_SIZE }
        ensures { self.new ≡ self.old ++ bytes_from (G.mem ram.now) addr len }
    {
        let to_page_end = (PAGE_BYTES - addr % PAGE_BYTES) as u32;
        let first = len.min(to_page_end);
        self.append_run(ram, addr, first as usize);
        self.append_run(ram, addr + u64::from(first), (len - first) as usize);
    }
}

/// Reads the bytes of all pieces in a row into room that the caller has, so that none of it is
/// moved.
pub(crate) fn gather<G: GuestBytes>(ram: &G, pieces: &[Piece], bytes: &mut ChainBytes)
    requires empty { bytes.old ≡ [] }
    requires inside { All
        (λ piece. piece.addr + piece.len ≤ page_size * length (G.mem ram.now)) pieces.now }
    requires few { length (G.mem ram.now) < 2 ^ 32 }
    requires fits { total_length pieces.now ≤ REQUEST_BUFFER_SIZE }
    ensures { bytes.new ≡ bytes_of (G.mem ram.now) pieces.now }
{
    for piece in pieces {
        bytes.append(ram, piece.addr, piece.len);
    }
}

/// How many bytes the pieces have together.
pub(crate) fn total_length(pieces: &[Piece]) -> u64
    requires { length pieces.now ≤ MAX_QUEUE_SIZE }
    ensures { result ≡ total_length pieces.now }
{
    let mut total: u64 = 0;
    for piece in pieces {
        total += u64::from(piece.len);
    }
    total
}

/// Whether a piece is the device's to write.
pub(crate) fn has_writable(pieces: &[Piece]) -> bool
    ensures { result ≡ list_any (λ piece. piece.writable) pieces.now }
{
    pieces.iter().any(|piece| piece.writable)
}

//! The walk within a row: descriptors that were copied together (VIRTIO 1.1, 2.6.5).

ghost use Rattle.std.specs.Prelude.{◌≡◌, ◌+◌, ◌-◌, ◌*◌, ◌≤◌, ◌<◌, ℕ, List, None, Some, MatchOption};
ghost use Rattle.std.specs.Prelude.{◌||◌, length, take, drop};
ghost use Rattle.vb_chain.specs.Rules.{is_writable};
ghost use Rattle.vb_chain.specs.declared.descriptor.TheConstants.{DESCRIPTOR_SIZE};
ghost use Rattle.vb_core.specs.declared.device.Device.{Device};
ghost use Rattle.vb_core.specs.Devices.{ring_of};
ghost use Rattle.vb_core.specs.Pieces.{pieces_in};
ghost use Rattle.vb_virtio.specs.declared.limits.TheConstants.{MAX_QUEUE_SIZE};
ghost use Rattle.vb_monitor.specs.declared.outcome.Tally.{Tally};
ghost use Rattle.vb_monitor.specs.Accesses.{Access};
ghost use Rattle.vb_monitor.specs.Ends.{Whole};
ghost use Rattle.vb_monitor.specs.Chains.{row_of, in_row, descriptor_of, longest, memory_end};
ghost use Rattle.vb_monitor.specs.Chains.{AfterDescriptor, Follows, chain_fault};
ghost use Rattle.vb_monitor.specs.declared.rows.RowEnd.TheVariants.{Leaves};
ghost use Rattle.vb_monitor.specs.Machine.{serves, row_bytes};
ghost use Rattle.vb_monitor.specs.Rows.{EndsRow};

use crate::Walk;
use crate::pieces::{first_pieces, push_piece};
use crate::room::MAX_PIECES;
use byteorder::{ByteOrder, LittleEndian};
use vb_chain::{ChainFault, DESCRIPTOR_SIZE, Descriptor, descriptor_fault};
use vb_core::ChainPiece;
use vb_virtio::limits::MAX_QUEUE_SIZE;

/// The descriptor of these bytes.
pub(crate) fn descriptor_of(bytes: &[u8]) -> Descriptor
    requires { DESCRIPTOR_SIZE ≤ length bytes.now }
    ensures { result ≡ descriptor_of bytes.now }
{
    Descriptor {
        addr: LittleEndian::read_u64(bytes),
        len: LittleEndian::read_u32(&bytes[8..]),
        flags: LittleEndian::read_u16(&bytes[12..]),
        next: LittleEndian::read_u16(&bytes[14..]),
    }
}

/// The descriptor of the bytes from one on.
fn descriptor_at(bytes: &[u8], into: usize) -> Descriptor
    requires { into + DESCRIPTOR_SIZE ≤ length bytes.now }
    ensures { result ≡ descriptor_of (take DESCRIPTOR_SIZE (drop into bytes.now)) }
{
    let from = &bytes[into..];
    descriptor_of(&from[..DESCRIPTOR_SIZE])
}

/// Whether one of a chain's buffers is the device's to write, of which this descriptor's is one.
fn is_writing(writing: bool, descriptor: &Descriptor) -> bool
    ensures { result ≡ writing || is_writable descriptor.now }
{
    writing || descriptor.is_writable()
}

/// How many descriptors a chain has at most in a table of `size`: as many as the table, and no
/// more than there is room for (`MAX_PIECES`).
pub(crate) fn longest(size: u16) -> u16
    ensures { result ≡ longest size }
{
    size.min(MAX_QUEUE_SIZE as u16)
}

/// The first rule that a descriptor of a table of `size` breaks, after `visited` others of its
/// chain.
pub(crate) fn chain_fault(
    size: u16,
    end: u64,
    writing: bool,
    visited: u16,
    descriptor: &Descriptor,
) -> Option<ChainFault>
    ensures { result ≡ chain_fault size end writing visited descriptor.now }
{
    if let Some(fault) = descriptor_fault(size, end, writing, visited, descriptor) {
        return Some(fault);
    }
    if descriptor.has_next() && u32::from(visited) + 1 >= u32::from(longest(size)) {
        return Some(ChainFault::TooLong);
    }
    None
}

/// How many bytes are copied of the row that a walk waits for.
pub(crate) fn row_bytes(walk: &Walk) -> usize
    ensures { result ≡ row_bytes walk.now }
{
    DESCRIPTOR_SIZE * (usize::from(walk.further) + 1)
}

/// Where the bytes of a descriptor are in a row, if the row has it.
fn place_in_row(first: u16, row: &[u8], number: u16) -> Option<usize>
    ensures place { MatchOption result (in_row (row_of first row.now) number ≡ None)
        (λ into. in_row (row_of first row.now) number ≡
        Some (take DESCRIPTOR_SIZE (drop into row.now))) }
    ensures within { (into : ℕ) → result ≡ Some into → into + DESCRIPTOR_SIZE ≤ length row.now }
{
    if number < first {
        return None;
    }
    let into = DESCRIPTOR_SIZE * usize::from(number - first);
    if into + DESCRIPTOR_SIZE > row.len() {
        return None;
    }
    Some(into)
}

/// How the walk within a row ends.
#[derive(Clone, Copy, Debug)]
pub(crate) enum RowEnd {
    /// A descriptor breaks this rule.
    Broken(ChainFault),
    /// The chain's last descriptor was there.
    Last,
    /// The next one is of this number, and isn't there.
    Leaves(u16),
}

/// How far the walk within a row goes.
#[derive(Clone, Copy, Debug)]
pub(crate) struct RowWalk {
    /// How many pieces are in the room for them.
    pub(crate) count: u16,
    /// One of them is the device's to write.
    pub(crate) writing: bool,
    /// How it ends.
    pub(crate) end: RowEnd,
}

/// Walks along a chain, from a row's first descriptor on, for as long as the row has the next one;
/// the pieces join the others.
#[inline(always)]
pub(crate) fn walk_row(
    size: u16,
    end: u64,
    walk: Walk,
    row: &[u8],
    pieces: &mut [ChainPiece; MAX_PIECES],
) -> RowWalk
    requires row { DESCRIPTOR_SIZE ≤ length row.now }
    ensures goes { (w : Whole) (d : Device) (tally : Tally) (log : List Access) →
        (ring_of w.kind d).size ≡ size → memory_end d ≡ end →
        EndsRow result.end w d tally
        (Follows (longest size - (result.count + 1)) w d tally (serves w tally d walk.head))
        (serves w tally d walk.head) result.writing (pieces_in (take result.count pieces.new)) log →
        AfterDescriptor w d tally
        (Follows (longest size - (walk.count + 1)) w d tally (serves w tally d walk.head)
        (row_of walk.first row.now)) (serves w tally d walk.head) walk.writing
        (pieces_in (take walk.count pieces.old)) (take DESCRIPTOR_SIZE row.now) log }
    ensures further { (number : ℕ) → result.end ≡ Leaves number →
        (MAX_QUEUE_SIZE - result.count) + 1 ≤ MAX_QUEUE_SIZE - walk.count }
{
    let visited = first_pieces(pieces, walk.count).len();
    if visited >= usize::from(longest(size)) {
        return RowWalk {
            count: walk.count,
            writing: walk.writing,
            end: RowEnd::Broken(ChainFault::TooLong),
        };
    }
    let mut count = walk.count;
    let mut writing = walk.writing;
    let mut into = 0;
    loop {
        let descriptor = descriptor_at(row, into);
        if let Some(fault) = chain_fault(size, end, writing, count, &descriptor) {
            return RowWalk {
                count,
                writing,
                end: RowEnd::Broken(fault),
            };
        }
        push_piece(pieces, count, &descriptor);
        count += 1;
        writing = is_writing(writing, &descriptor);
        if !descriptor.has_next() {
            return RowWalk {
                count,
                writing,
                end: RowEnd::Last,
            };
        }
        match place_in_row(walk.first, row, descriptor.next) {
            None => {
                return RowWalk {
                    count,
                    writing,
                    end: RowEnd::Leaves(descriptor.next),
                };
            }
            Some(place) => into = place,
        }
    }
}

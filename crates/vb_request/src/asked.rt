//! What a chain of each queue asks.

ghost use Rattle.std.specs.Prelude.{◌≡◌, ◌≤◌, ◌+◌, ◌*◌, All, IfErr, OnOk, OnErr, Ok, Err, length};
ghost use Rattle.vb_virtio.specs.declared.limits.TheConstants.{MAX_QUEUE_SIZE};
ghost use Rattle.vb_virtio.specs.Limits.{page_size};
ghost use Rattle.vb_virtio.specs.Layout.{reserved_pages};
ghost use Rattle.vb_request.specs.Asked.{request_of, noted};

use crate::{NamedPages, Statistics, read_report_into, read_request_into, read_statistics};
use vb_chain::{ChainFault, Piece};
use vb_ram::{GuestBytes, Shape};
use vb_virtio::layout::{REPORT_QUEUE, STATISTICS_QUEUE};

/// Puts the pages that a chain of these pieces names on the queue of this number, which is 4 for
/// reports, of a guest of this shape, into room that the caller keeps; or finds the first rule that
/// it breaks there. A buffer of statistics names none, and what it says replaces `last`; at a
/// broken rule `last` stays, and it is left open what the room names.
///
/// The pieces lie in the guest's memory and are no more than a queue has descriptors, as those of a
/// chain do that `vb_chain::walk` gives.
pub fn read_chain_into<G: GuestBytes>(
    queue: u32,
    shape: Shape,
    ram: &G,
    pieces: &[Piece],
    last: &mut Statistics,
    named: &mut NamedPages,
) -> Result<(), ChainFault>
    requires inside { All
        (λ piece. piece.addr + piece.len ≤ page_size * length (G.mem ram.now)) pieces.now }
    requires few { length pieces.now ≤ MAX_QUEUE_SIZE }
    ensures pages { OnOk result
        (request_of queue shape.queue_size (G.mem ram.now) pieces.now ≡ Ok named.new) }
    ensures fault { IfErr result (λ fault.
        request_of queue shape.queue_size (G.mem ram.now) pieces.now ≡ Err fault) }
    ensures said { OnOk result ((last.new.free ≡ (noted queue (G.mem ram.now) pieces.now
        (record { free = last.old.free; total = last.old.total })).free) ×
        (last.new.total ≡ (noted queue (G.mem ram.now) pieces.now
        (record { free = last.old.free; total = last.old.total })).total)) }
    ensures above { OnOk result
        (All (λ page. reserved_pages shape.queue_size ≤ page) named.new) }
    ensures err { OnErr result (last.new ≡ last.old) }
{
    // A no-op call: its clause tells the prover that memory has fewer than 2^32 pages.
    let _few = ram.pages();
    match queue {
        STATISTICS_QUEUE => {
            *last = read_statistics(ram, pieces)?;
            named.clear();
            Ok(())
        }
        REPORT_QUEUE => read_report_into(pieces, shape.reserved_pages(), named),
        _ => read_request_into(ram, pieces, shape.reserved_pages(), named),
    }
}

//! Laws about the definitions. Each is the contract of a function that does nothing.

ghost use Rattle.std.specs.Prelude.{◌≡◌, ℕ, ◌<◌, ◌≤◌, List, [], Some, None, Ok, slice_index_or};
ghost use Rattle.vb_virtio.specs.declared.limits.TheConstants.{PAGE_SIZE};
ghost use Rattle.vb_ram.specs.Pages.{Pages, byte_at, page_at};
ghost use Rattle.vb_chain.specs.declared.pieces.Piece.{Piece};
ghost use Rattle.vb_chain.specs.Table.{descriptor_at};
ghost use Rattle.vb_chain.specs.Chain.{ChainGives};
ghost use Rattle.vb_chain.specs.Written.{AreSound};
ghost use Rattle.vb_ring.specs.declared.layout.Layout.{Layout};
ghost use Rattle.vb_ring.specs.Layout.{IsSize, Fits};
ghost use Rattle.vb_ring.specs.Ends.{DriverEnd, next_head, outstanding, fresh_end, AreSingle};
ghost use Rattle.vb_ring.specs.Meaning.{UsedElem, Shows, Tracks};
ghost use Rattle.vb_ring.specs.Calls.{AddsBy};

/// What an add wrote is a chain from the head that it answered, with the very pieces that were
/// added, if these lie in memory and no readable one comes after a writable one.
pub fn an_added_chain_is_read_back()
    ensures { (old new : Pages) (r1 r2 : DriverEnd) (pieces : List Piece) (h end : ℕ) →
        AddsBy old new r1 r2 pieces (Ok h) → AreSound end pieces →
        ChainGives (descriptor_at new r1.layout.table) r1.size end h pieces }
{}

/// An add leaves every descriptor alone that belongs to a chain which is out.
pub fn chains_that_are_out_stay()
    ensures { (old new : Pages) (r1 r2 : DriverEnd) (pieces : List Piece) (h i j : ℕ) →
        AddsBy old new r1 r2 pieces (Ok h) → i < r1.size → slice_index_or r1.owner i None ≡ Some j →
        descriptor_at new r1.layout.table i ≡ descriptor_at old r1.layout.table i }
{}

/// Zeroed pages show two empty lists, and a fresh driver's end tracks them.
pub fn zeroed_pages_show_nothing()
    ensures { (mem : Pages) (l : Layout) (q : ℕ) → Fits l q →
        ((k : ℕ) → k < PAGE_SIZE → byte_at mem l.avail.page k ≡ 0) →
        ((k : ℕ) → k < PAGE_SIZE → byte_at mem l.used.page k ≡ 0) →
        Shows mem l q [] [] × Tracks mem (fresh_end l q) [] [] 0 }
{}

/// A ring whose pages stay shows what it showed: calls on other queues and writes to buffers leave
/// it alone.
pub fn other_pages_leave_a_ring_alone()
    ensures { (old new : Pages) (l : Layout) (q : ℕ) (heads : List ℕ) (elems : List UsedElem) →
        IsSize q → page_at new l.table ≡ page_at old l.table →
        page_at new l.avail.page ≡ page_at old l.avail.page →
        page_at new l.used.page ≡ page_at old l.used.page → Shows old l q heads elems →
        Shows new l q heads elems }
{}

/// Where the chains that are out have one descriptor each, the next head is at most their number.
pub fn single_heads_stay_low()
    ensures { (r : DriverEnd) (h : ℕ) → AreSingle r → next_head r ≡ Some h → h ≤ outstanding r }
{}

//! What a device's answers come to, in the words of memory.

ghost use Rattle.std.specs.Prelude.{◌≡◌, ℕ, ◌+◌, ◌*◌, false, List, Result, Ok, Err, IsOkAnd};
ghost use Rattle.std.specs.Prelude.{length, take, map};
ghost use Rattle.vb_virtio.specs.Limits.{page_size};
ghost use Rattle.vb_virtio.specs.Tests.{is_in};
ghost use Rattle.vb_virtio.specs.Tests.{AllDistinct};
ghost use Rattle.vb_ram.specs.Pages.{Pages};
ghost use Rattle.vb_chain.specs.declared.pieces.Piece.{Piece};
ghost use Rattle.vb_chain.specs.declared.fault.ChainFault.{ChainFault};
ghost use Rattle.vb_ring.specs.declared.layout.Layout.{Layout};
ghost use Rattle.vb_ring.specs.Entries.{used_place, used_index};
ghost use Rattle.vb_request.specs.Request.{numbers_of, bytes_of, request_length, page_request};
ghost use Rattle.vb_request.specs.Report.{pages_of_pieces};
ghost use Rattle.vb_core.specs.declared.ring.Virtqueue.{Virtqueue};
ghost use Rattle.vb_core.specs.declared.runs.Run.{Run};
ghost use Rattle.vb_core.specs.declared.name.Named.{Named};
ghost use Rattle.vb_core.specs.Runs.{pages_of_runs, Tell};
ghost use Rattle.vb_core.specs.Name.{NamesRuns};
ghost use Rattle.vb_core.specs.Report.{run_of};
ghost use Rattle.vb_core.specs.Rings.{used_entry};

/// Where the bytes are those of a request's pieces in memory, and no number is skipped, what is
/// named is what a request names there: its first fault; or runs of just its pages, which they tell
/// in the request's order where no number is in it twice.
pub fn runs_are_the_pages_of_the_request()
    ensures fault { (mem : Pages) (pieces : List Piece) (reserved total : ℕ) (runs : List Run)
        (result : Result Named ChainFault) (fault : ChainFault) →
        request_length pieces ≡ Ok total →
        NamesRuns false reserved (length mem) (numbers_of (bytes_of mem pieces)) runs result →
        page_request mem pieces reserved ≡ Err fault → result ≡ Err fault }
    ensures members { (mem : Pages) (pieces : List Piece) (reserved total : ℕ) (runs : List Run)
        (result : Result Named ChainFault) (pages : List ℕ) →
        request_length pieces ≡ Ok total →
        NamesRuns false reserved (length mem) (numbers_of (bytes_of mem pieces)) runs result →
        page_request mem pieces reserved ≡ Ok pages →
        IsOkAnd result (λ named. (p : ℕ) →
        is_in p (pages_of_runs (take named.runs runs)) ≡ is_in p pages) }
    ensures once { (mem : Pages) (pieces : List Piece) (reserved total : ℕ) (runs : List Run)
        (result : Result Named ChainFault) (pages : List ℕ) →
        request_length pieces ≡ Ok total →
        NamesRuns false reserved (length mem) (numbers_of (bytes_of mem pieces)) runs result →
        page_request mem pieces reserved ≡ Ok pages →
        AllDistinct (numbers_of (bytes_of mem pieces)) →
        IsOkAnd result (λ named. Tell (take named.runs runs) pages) }
{}

/// Just one list of runs tells given numbers: a number that follows the last run, or is right
/// before it, joins it, and any other begins one.
pub fn numbers_are_told_by_one_list_of_runs()
    ensures { (runs others : List Run) (ns : List ℕ) → Tell runs ns → Tell others ns →
        runs ≡ others }
{}

/// The runs of a report are its pages, in their order.
pub fn runs_are_the_pages_of_the_report()
    ensures { (pieces : List Piece) →
        pages_of_runs (map run_of pieces) ≡ pages_of_pieces pieces }
{}

/// What is written for a used chain goes to where the ring has its next element and its index.
pub fn a_used_entry_is_the_rings_next()
    ensures element { (r : Virtqueue) (l : Layout) (head : ℕ) →
        page_size * l.used.page + l.used.offset ≡ r.used →
        (used_entry r head).element_at ≡
        page_size * l.used.page + used_place l r.size r.next_used }
    ensures index { (r : Virtqueue) (l : Layout) (head : ℕ) →
        page_size * l.used.page + l.used.offset ≡ r.used →
        (used_entry r head).index_at ≡ page_size * l.used.page + used_index l }
{}

//! Laws of what chains name, each as the contract of a function that does nothing.

ghost use Rattle.std.specs.Prelude.{◌≡◌, ℕ, ◌+◌, ◌*◌, ◌<◌, ◌≤◌, ◌∷◌, [], List, All, Ok, length};
ghost use Rattle.vb_virtio.specs.Limits.{page_size};
ghost use Rattle.vb_ram.specs.Pages.{Pages};
ghost use Rattle.vb_chain.specs.declared.pieces.Piece.{Piece};
ghost use Rattle.vb_request.specs.Request.{page_request};
ghost use Rattle.vb_request.specs.Request.{ArePages};
ghost use Rattle.vb_request.specs.Request.{IsRequestPiece};
ghost use Rattle.vb_request.specs.Report.{report_request};

/// A readable piece whose little-endian numbers of 32 bits are distinct unreserved pages of the
/// guest is a request for these pages (VIRTIO 1.1, 5.5.6).
pub fn a_written_request_is_read()
    ensures { (mem : Pages) (piece : Piece) (page offset reserved : ℕ) (pages : List ℕ) →
        IsRequestPiece mem piece page offset pages → ArePages reserved (length mem) pages →
        page_request mem (piece ∷ []) reserved ≡ Ok pages }
{}

/// Whatever the bytes are, a request that isn't refused names pages of the guest that aren't
/// reserved, each once.
pub fn a_request_names_pages_of_the_guest()
    ensures { (mem : Pages) (pieces : List Piece) (reserved : ℕ) (pages : List ℕ) →
        page_request mem pieces reserved ≡ Ok pages → ArePages reserved (length mem) pages }
{}

/// A report that isn't refused, whose pieces lie in a memory of n pages, names pages of the guest
/// that aren't reserved.
pub fn a_report_names_pages_of_the_guest()
    ensures { (count : ℕ) (pieces : List Piece) (reserved : ℕ) (pages : List ℕ) →
        All (λ piece. piece.addr + piece.len ≤ page_size * count) pieces →
        report_request pieces reserved ≡ Ok pages →
        All (λ page. reserved ≤ page) pages × All (λ page. page < count) pages }
{}

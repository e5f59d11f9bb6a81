//! The numbers of the kinds of queues, whatever the numbers of the queues are.

ghost use Rattle.std.specs.Prelude.{◌≡◌};
ghost use Rattle.vb_c.specs.Codes.{kind_of_code, code_of_kind};

use vb_core::Kind;

/// Pages are given up.
pub(crate) const INFLATE: u32 = 0;

/// Pages are requested back.
pub(crate) const DEFLATE: u32 = 1;

/// The guest says how it uses its memory.
pub(crate) const STATISTICS: u32 = 2;

/// Pages are free in the guest.
pub(crate) const REPORT: u32 = 3;

/// Pages that the guest keeps free are hinted.
pub(crate) const HINT: u32 = 4;

/// The kind of no queue.
pub(crate) const NO_KIND: u32 = 5;

/// The kind of this code, if it is one.
pub(crate) fn kind_of_code(code: u32) -> Option<Kind>
    ensures { result ≡ kind_of_code code }
{
    match code {
        INFLATE => Some(Kind::Inflate),
        DEFLATE => Some(Kind::Deflate),
        STATISTICS => Some(Kind::Statistics),
        REPORT => Some(Kind::Report),
        HINT => Some(Kind::Hint),
        _ => None,
    }
}

/// The code of a kind, or of none.
pub(crate) fn code_of_kind(kind: Option<Kind>) -> u32
    ensures { result ≡ code_of_kind kind }
{
    match kind {
        Some(Kind::Inflate) => INFLATE,
        Some(Kind::Deflate) => DEFLATE,
        Some(Kind::Statistics) => STATISTICS,
        Some(Kind::Report) => REPORT,
        Some(Kind::Hint) => HINT,
        None => NO_KIND,
    }
}

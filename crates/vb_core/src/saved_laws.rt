//! What a saved device comes to: it is restored, and nothing else is.

ghost use Rattle.std.specs.Prelude.{◌≡◌, ℕ, ◌<◌, true, List, Ok, slice_index};
ghost use Rattle.vb_core.specs.declared.saved.Saved.{Saved};
ghost use Rattle.vb_core.specs.Format.{FitsSaved, HoldsNoDeflate, HintsNothing, WasSaved};
ghost use Rattle.vb_core.specs.Format.{saved_bytes, older_bytes, oldest_bytes};
ghost use Rattle.vb_core.specs.Saved.{can_be, restored};

/// The bytes of a device to which calls lead are restored to it.
pub fn what_was_saved_is_restored()
    ensures { (s : Saved) → FitsSaved s → can_be s ≡ true → restored (saved_bytes s) ≡ Ok s }
{}

/// The bytes that an older version had of a device which hints nothing, and to which calls lead,
/// are restored to it: of the oldest version one that holds no deflates, either.
pub fn an_older_state_is_restored()
    ensures older { (s : Saved) → FitsSaved s → HintsNothing s.device → can_be s ≡ true →
        restored (older_bytes s) ≡ Ok s }
    ensures oldest { (s : Saved) → FitsSaved s → HoldsNoDeflate s → HintsNothing s.device →
        can_be s ≡ true → restored (oldest_bytes s) ≡ Ok s }
{}

/// Bytes that are restored are those that are saved of it, or were in one of the two versions
/// before, and calls lead to it.
pub fn only_what_was_saved_is_restored()
    ensures { (bytes : List ℕ) (s : Saved) → ((i : ℕ) → slice_index bytes i < 256) →
        restored bytes ≡ Ok s → WasSaved bytes s × (can_be s ≡ true) }
{}

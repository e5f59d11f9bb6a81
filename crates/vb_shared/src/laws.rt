//! Laws of the table of frames.

ghost use Rattle.std.specs.Prelude.{◌≡◌, ℕ, ◌<◌, List, slice_index, slice_set};
ghost use mathlib.Core.Option.{some};
ghost use lib.ListN.{get_elem?};
ghost use Rattle.vb_shared.specs.declared.rule.Size.{Size};
ghost use Rattle.vb_shared.specs.declared.rule.View.{View};
ghost use Rattle.vb_shared.specs.Rule.{IsKept, FrameRule, StepKind, pass, word_after, held_after};

/// What holds of the words and of the passes between any two steps, in plain words.
#[tactic(auto, using(crate::proofs::Shares::in_words))]
pub fn what_the_rule_says()
    ensures { (size : Size) (words : List ℕ) (views : List View) →
        IsKept size words views → FrameRule size words views }
{}

/// The rule holds for any step that the pass at some seat makes on some word.
pub fn each_kind_of_step_keeps_the_rule()
    ensures { (kind : StepKind) (size : Size) (words : List ℕ) (views : List View)
        (i tag f : ℕ) (held : List ℕ) → f < size.frames → IsKept size words views →
        get_elem? views i ≡ some (pass tag held) →
        IsKept size (slice_set words f (word_after kind tag (slice_index words f)))
        (slice_set views i (pass tag (held_after kind tag (slice_index words f) f held))) }
{}

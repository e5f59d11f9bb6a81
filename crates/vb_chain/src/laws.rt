//! Laws of chains, in the words of the contracts.

ghost use Rattle.std.specs.Prelude.{◌≡◌, ℕ, List};
ghost use Rattle.vb_chain.specs.declared.descriptor.Descriptor.{Descriptor};
ghost use Rattle.vb_chain.specs.declared.pieces.Piece.{Piece};
ghost use Rattle.vb_chain.specs.declared.fault.ChainFault.{ChainFault};
ghost use Rattle.vb_chain.specs.Chain.{ChainGives, FaultGives};

/// From one head of one table there is one chain or one fault, and never both.
pub fn a_head_has_one_answer()
    ensures chain { (d : ℕ → Descriptor) (q end head : ℕ) (one other : List Piece) →
        ChainGives d q end head one → ChainGives d q end head other → one ≡ other }
    ensures fault { (d : ℕ → Descriptor) (q end head : ℕ) (one other : ChainFault) →
        FaultGives d q end head one → FaultGives d q end head other → one ≡ other }
    ensures not_both { (d : ℕ → Descriptor) (q end head : ℕ) (pieces : List Piece)
        (fault : ChainFault) →
        ChainGives d q end head pieces → ¬ (FaultGives d q end head fault) }
{}

//! Laws that proofs above this crate call.
ghost use Rattle.std.specs.Prelude.{◌≡◌, ℕ, List, Some};
ghost use Rattle.std.specs.List.{IsDistinct};
ghost use Rattle.std.specs.Map.{keys_of};
ghost use Rattle.std.specs.Str.{bytes_eq};
ghost use Rattle.iv_sig.specs.declared.fixity.Fixity.{Fixity};
ghost use Rattle.iv_sig.specs.Fixity.{symbol_of};
ghost use Rattle.iv_sig.specs.Signature.{by_symbol};
ghost use Rattle.iv_sig.specs.Table.{look};

/// A law: where no two notations are of one constant, what a symbol writes has that notation; where no two have one
/// symbol, the symbol of a constant's notation writes that constant.
pub fn notations_are_found_both_ways()
    ensures by_symbol { (ns : List (List ℕ × Fixity)) (s n : List ℕ) (f : Fixity) → IsDistinct bytes_eq (keys_of ns) → look (by_symbol ns) s ≡ Some (n, f) → (look ns n ≡ Some f) × (symbol_of f ≡ s) }
    ensures by_constant { (ns : List (List ℕ × Fixity)) (n : List ℕ) (f : Fixity) → IsDistinct bytes_eq (keys_of (by_symbol ns)) → look ns n ≡ Some f → look (by_symbol ns) (symbol_of f) ≡ Some (n, f) }
{}

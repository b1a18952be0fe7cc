//! Laws that proofs above this crate call.

ghost use Rattle.std.specs.Prelude.{◌≡◌, true, false};
ghost use Rattle.iv_text.specs.declared.name.Name.{Name};
ghost use Rattle.iv_term.specs.declared.typ.Typ.{Typ};
ghost use Rattle.iv_subst.specs.TySubst.{TyMap, put_typ, then_put, at, has, composed, occurs};
ghost use Rattle.iv_subst.specs.Laws.{PutsAgree, TypeStays, VariablesStay, VariablesComeFrom, SolvedIsIdempotent, SolvedIsAbsorbed};

/// A law: what is composed of two maps puts the first map's types, and then the second's.
pub fn composition_is_one_after_the_other()
    ensures { (s : TyMap) (r : TyMap) (t : Typ) → put_typ (at (composed s r)) t ≡ put_typ (at r) (put_typ (at s) t) }
{}

/// A law: a map changes nothing in a type where none of its variables stands.
pub fn types_without_its_variables_stay()
    ensures { (s : TyMap) (t : Typ) → ((y : Name) → has s y ≡ true → occurs y t ≡ false) → put_typ (at s) t ≡ t }
{}

/// A law: putting twice is putting once, each type under what is put second.
pub fn putting_twice_is_putting_once()
    ensures { (f : Name → Typ) (g : Name → Typ) (t : Typ) → put_typ g (put_typ f t) ≡ put_typ (then_put f g) t }
{}

/// A law: what is put for the variables that stand in a type decides the result. A type stays exactly where each of its
/// variables does, and a variable of the result comes from what is put for one of them.
pub fn types_put_are_those_of_variables()
    ensures agree { PutsAgree }
    ensures stay { TypeStays }
    ensures each { VariablesStay }
    ensures from { VariablesComeFrom }
{}

/// A law: unification that goes on from an idempotent map comes to an idempotent map, and what comes to the same after
/// the later map comes to the same after the earlier one.
pub fn unification_goes_on()
    ensures idempotent { SolvedIsIdempotent }
    ensures absorbed { SolvedIsAbsorbed }
{}

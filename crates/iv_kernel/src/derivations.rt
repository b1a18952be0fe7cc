//! Derivations by one rule more. Each call shares its premises, and fails where memory runs out.
ghost use Rattle.std.specs.Prelude.{◌≡◌, IfOk, IfErr};
ghost use Rattle.iv_text.specs.declared.want.Want.TheVariants.{Memory};
ghost use Rattle.iv_rules.specs.declared.derivation.Derivation.TheBlock.{Axiom, Assume, Refl};
ghost use Rattle.iv_rules.specs.Derivation.{imp_intr, imp_elim, all_intr, all_elim, eq_sym, eq_trans, comb, abs, eq_intr, eq_elim, conv, inst};

use iv_rules::{Derivation, Instance};
use iv_shared::Shared;
use iv_term::{Term, Typ, both};
use iv_text::{Mem, Name, Text};
use std::alloc::Global;

/// An axiom by its name.
pub(crate) fn axiom(name: &Text, prop: &Term) -> Mem<Derivation>
    ensures ok { IfOk result (λ r. r ≡ Axiom name.now prop.now) }
    ensures memory { IfErr result (λ w. w ≡ Memory) }
{
    let (name, prop) = both(name.copy(), prop.copy())?;
    Ok(Derivation::Axiom(name, prop))
}

/// An assumption.
pub(crate) fn assume(prop: &Term) -> Mem<Derivation>
    ensures ok { IfOk result (λ r. r ≡ Assume prop.now) }
    ensures memory { IfErr result (λ w. w ≡ Memory) }
{
    Ok(Derivation::Assume(prop.copy()?))
}

/// A term that equals itself.
pub(crate) fn refl(value: &Term) -> Mem<Derivation>
    ensures ok { IfOk result (λ r. r ≡ Refl value.now) }
    ensures memory { IfErr result (λ w. w ≡ Memory) }
{
    Ok(Derivation::Refl(value.copy()?))
}

/// A hypothesis that is discharged.
pub(crate) fn imp_intr(prop: &Term, d: &Shared<Derivation>) -> Mem<Derivation>
    ensures ok { IfOk result (λ r. r ≡ imp_intr prop.now d.now) }
    ensures memory { IfErr result (λ w. w ≡ Memory) }
{
    let (prop, d) = both(prop.copy(), shared(d))?;
    Ok(Derivation::ImpIntr(prop, d))
}

/// An implication, and its premise.
pub(crate) fn imp_elim(d: &Shared<Derivation>, e: &Shared<Derivation>) -> Mem<Derivation>
    ensures ok { IfOk result (λ r. r ≡ imp_elim d.now e.now) }
    ensures memory { IfErr result (λ w. w ≡ Memory) }
{
    let (d, e) = both(shared(d), shared(e))?;
    Ok(Derivation::ImpElim(d, e))
}

/// A free variable that `!!` binds.
pub(crate) fn all_intr(name: &Name, typ: &Typ, d: &Shared<Derivation>) -> Mem<Derivation>
    ensures ok { IfOk result (λ r. r ≡ all_intr name.now typ.now d.now) }
    ensures memory { IfErr result (λ w. w ≡ Memory) }
{
    let variable = both(name.copy(), typ.copy());
    let ((name, typ), d) = both(variable, shared(d))?;
    Ok(Derivation::AllIntr(name, typ, d))
}

/// A term for what `!!` binds.
pub(crate) fn all_elim(value: &Term, d: &Shared<Derivation>) -> Mem<Derivation>
    ensures ok { IfOk result (λ r. r ≡ all_elim value.now d.now) }
    ensures memory { IfErr result (λ w. w ≡ Memory) }
{
    let (value, d) = both(value.copy(), shared(d))?;
    Ok(Derivation::AllElim(value, d))
}

/// An equation, turned round.
pub(crate) fn sym(d: &Shared<Derivation>) -> Mem<Derivation>
    ensures ok { IfOk result (λ r. r ≡ eq_sym d.now) }
    ensures memory { IfErr result (λ w. w ≡ Memory) }
{
    Ok(Derivation::Sym(d.share()?))
}

/// Two equations, one after the other.
pub(crate) fn trans(d: &Shared<Derivation>, e: &Shared<Derivation>) -> Mem<Derivation>
    ensures ok { IfOk result (λ r. r ≡ eq_trans d.now e.now) }
    ensures memory { IfErr result (λ w. w ≡ Memory) }
{
    let (d, e) = both(shared(d), shared(e))?;
    Ok(Derivation::Trans(d, e))
}

/// An equation of functions, and one of their arguments.
pub(crate) fn comb(d: &Shared<Derivation>, e: &Shared<Derivation>) -> Mem<Derivation>
    ensures ok { IfOk result (λ r. r ≡ comb d.now e.now) }
    ensures memory { IfErr result (λ w. w ≡ Memory) }
{
    let (d, e) = both(shared(d), shared(e))?;
    Ok(Derivation::Comb(d, e))
}

/// A free variable that both sides of an equation abstract over.
pub(crate) fn abs(name: &Name, typ: &Typ, d: &Shared<Derivation>) -> Mem<Derivation>
    ensures ok { IfOk result (λ r. r ≡ abs name.now typ.now d.now) }
    ensures memory { IfErr result (λ w. w ≡ Memory) }
{
    let variable = both(name.copy(), typ.copy());
    let ((name, typ), d) = both(variable, shared(d))?;
    Ok(Derivation::Abs(name, typ, d))
}

/// Two implications, one the other way round.
pub(crate) fn eq_intr(d: &Shared<Derivation>, e: &Shared<Derivation>) -> Mem<Derivation>
    ensures ok { IfOk result (λ r. r ≡ eq_intr d.now e.now) }
    ensures memory { IfErr result (λ w. w ≡ Memory) }
{
    let (d, e) = both(shared(d), shared(e))?;
    Ok(Derivation::EqIntr(d, e))
}

/// An equation of propositions, and its left side.
pub(crate) fn eq_elim(d: &Shared<Derivation>, e: &Shared<Derivation>) -> Mem<Derivation>
    ensures ok { IfOk result (λ r. r ≡ eq_elim d.now e.now) }
    ensures memory { IfErr result (λ w. w ≡ Memory) }
{
    let (d, e) = both(shared(d), shared(e))?;
    Ok(Derivation::EqElim(d, e))
}

/// A proposition that has the same form with each `!!` in front.
pub(crate) fn conv(prop: &Term, d: &Shared<Derivation>) -> Mem<Derivation>
    ensures ok { IfOk result (λ r. r ≡ conv prop.now d.now) }
    ensures memory { IfErr result (λ w. w ≡ Memory) }
{
    let (prop, d) = both(prop.copy(), shared(d))?;
    Ok(Derivation::Conv(prop, d))
}

/// Types and terms put for variables.
pub(crate) fn inst(alloc: Global, s: &Instance, d: &Shared<Derivation>) -> Mem<Derivation>
    ensures ok { IfOk result (λ r. r ≡ inst s.now d.now) }
    ensures memory { IfErr result (λ w. w ≡ Memory) }
{
    let (s, d) = both(s.copy(alloc), shared(d))?;
    Ok(Derivation::Inst(s, d))
}

/// One more owner of a derivation. Takes no memory; fails where the count of owners is full.
pub(crate) fn shared(d: &Shared<Derivation>) -> Mem<Shared<Derivation>>
    ensures ok { IfOk result (λ r. r ≡ d.now) }
    ensures memory { IfErr result (λ w. w ≡ Memory) }
{
    Ok(d.share()?)
}

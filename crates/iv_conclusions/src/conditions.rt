//! Tests of what the rules ask of their arguments and premises. None takes memory, but for [`have_one_form`].
ghost use Rattle.std.specs.Prelude.{◌≡◌, ◌++◌, IfOk, IfErr, IsTrue, ◌↔◌};
ghost use Rattle.iv_text.specs.declared.want.Want.TheVariants.{Memory};
ghost use Rattle.iv_hsub.specs.Hhf.{hhf};
ghost use Rattle.iv_term.specs.Term.{imp};
ghost use Rattle.iv_rules.specs.Equality.{rhs, eq};
ghost use Rattle.iv_rules.specs.Conditions.{CanImpElim, CanAllElim, CanTrans, CanComb, CanEqIntr, CanEqElim, CanConv};

use crate::terms::{is_equation, lhs, predicate_type, rhs, side_type, takes};
use iv_hsub::harrop::is_quantified;
use iv_hsub::typing::dom;
use iv_hsub::{has_type, hhf, is_prop};
use iv_term::{Term, Typ, Types};
use iv_text::Mem;
use std::alloc::Global;

/// Whether one proposition is an implication from another.
pub fn is_implication_from(p: &Term, q: &Term) -> bool
    ensures { IsTrue result ↔ CanImpElim p.now q.now }
{
    p.is_implication() && p.antecedent().is(q)
}

/// Whether a proposition is quantified, and a value without loose indices is of the type that it binds over.
pub fn is_for_all(value: &Term, p: &Term) -> bool
    ensures { IsTrue result ↔ CanAllElim value.now p.now }
{
    is_quantified(p) && has_type(value, dom(predicate_type(p)), &Types::Nil)
}

/// Whether a proposition is an equation of a left side of this type that is this one.
fn begins(q: &Term, typ: &Typ, left: &Term) -> bool
    ensures { IsTrue result ↔ (q.now ≡ eq typ.now left.now (rhs q.now)) }
{
    if !is_equation(q) {
        return false;
    }
    side_type(q).is(typ) && lhs(q).is(left)
}

/// Whether two equations follow each other: the first one's right side is the second one's left side.
pub fn are_linked(p: &Term, q: &Term) -> bool
    ensures { IsTrue result ↔ CanTrans p.now q.now }
{
    is_equation(p) && begins(q, side_type(p), rhs(p))
}

/// Whether two equations are of functions and of their arguments.
pub fn are_congruent(p: &Term, q: &Term) -> bool
    ensures { IsTrue result ↔ CanComb p.now q.now }
{
    is_equation(p) && is_equation(q) && takes(side_type(p), side_type(q))
}

/// Whether two implications are each the other's converse.
pub fn are_converse(p: &Term, q: &Term) -> bool
    ensures { IsTrue result ↔ CanEqIntr p.now q.now }
{
    p.is_implication() && is_implication_of(q, p.consequent(), p.antecedent())
}

/// Whether a proposition is an implication of these two.
fn is_implication_of(q: &Term, premise: &Term, conclusion: &Term) -> bool
    ensures { IsTrue result ↔ (q.now ≡ imp premise.now conclusion.now) }
{
    is_implication_from(q, premise) && q.consequent().is(conclusion)
}

/// Whether a proposition is an equation of propositions, the left one of which is this one.
pub fn is_equal_to(p: &Term, q: &Term) -> bool
    ensures { IsTrue result ↔ CanEqElim p.now q.now }
{
    if !is_equation(p) {
        return false;
    }
    side_type(p).is_prop() && lhs(p).is(q)
}

/// Whether a term with each `!!` in front of `==>` is this one. Fails where memory runs out.
fn has_form(alloc: Global, p: &Term, form: &Term) -> Mem<bool>
    ensures ok { IfOk result (λ b. IsTrue b ↔ (hhf p.now ≡ form.now)) }
    ensures memory { IfErr result (λ w. w ≡ Memory) }
{
    let own = hhf(alloc, p)?;
    let is_same = own.is(form);
    drop(own);
    Ok(is_same)
}

/// Whether two terms have one form with each `!!` in front of `==>`. Fails where memory runs out.
fn are_one_form(alloc: Global, p: &Term, q: &Term) -> Mem<bool>
    ensures ok { IfOk result (λ b. IsTrue b ↔ (hhf p.now ≡ hhf q.now)) }
    ensures memory { IfErr result (λ w. w ≡ Memory) }
{
    let form = hhf(alloc, q)?;
    let told = has_form(alloc, p, &form);
    drop(form);
    told
}

/// Whether the first is a proposition of one form with the second, with each `!!` in front of `==>`. Fails where memory
/// runs out.
pub fn have_one_form(alloc: Global, prop: &Term, p: &Term) -> Mem<bool>
    ensures ok { IfOk result (λ b. IsTrue b ↔ CanConv prop.now p.now) }
    ensures memory { IfErr result (λ w. w ≡ Memory) }
{
    if !is_prop(prop) {
        return Ok(false);
    }
    are_one_form(alloc, p, prop)
}

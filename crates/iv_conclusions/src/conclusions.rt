//! What the rules conclude, as terms.
ghost use Rattle.std.specs.Prelude.{◌≡◌, ◌++◌, IfOk, IfErr};
ghost use Rattle.iv_text.specs.declared.want.Want.TheVariants.{Memory};
ghost use Rattle.iv_term.specs.declared.typ.Typ.TheBlock.{Nil as no_types};
ghost use Rattle.iv_term.specs.Typ.{prop, fun};
ghost use Rattle.iv_term.specs.Term.{antecedent, consequent};
ghost use Rattle.iv_hsub.specs.Typing.{cod, type_of};
ghost use Rattle.iv_hsub.specs.Abstract.{abstract_over};
ghost use Rattle.iv_hsub.specs.Hhf.{one};
ghost use Rattle.iv_rules.specs.Equality.{eq, lhs, rhs, side_type, IsEquation, all, predicate, app};
ghost use Rattle.iv_rules.specs.Conditions.{CanAllElim, CanComb};

use crate::terms::{all, app, arrow, eq, lhs, predicate, predicate_type, rhs, side_type};
use iv_hsub::typing::cod;
use iv_hsub::{abstract_over, type_of};
use iv_term::{Term, Typ, Types};
use iv_text::{Mem, Name};
use std::alloc::Global;

/// `!!x. p`. Fails where memory runs out.
pub fn quantified(alloc: Global, name: &Name, typ: &Typ, p: &Term) -> Mem<Term>
    ensures ok { IfOk result (λ r. r ≡ all typ.now (abstract_over name.now typ.now p.now)) }
    ensures memory { IfErr result (λ w. w ≡ Memory) }
{
    let body = abstract_over(alloc, p, name, typ)?;
    let made = all(alloc, typ, &body);
    drop(body);
    made
}

/// What a quantified proposition says of a value. Fails where memory runs out.
pub fn at_value(alloc: Global, value: &Term, p: &Term) -> Mem<Term>
    requires { CanAllElim value.now p.now }
    ensures ok { IfOk result (λ r. r ≡ app (fun (type_of no_types value.now) prop) (predicate p.now) value.now) }
    ensures memory { IfErr result (λ w. w ≡ Memory) }
{
    app(alloc, predicate_type(p), predicate(p), value)
}

/// `v == v`. Fails where memory runs out.
pub fn reflexive(alloc: Global, value: &Term) -> Mem<Term>
    ensures ok { IfOk result (λ r. r ≡ eq (type_of no_types value.now) value.now value.now) }
    ensures memory { IfErr result (λ w. w ≡ Memory) }
{
    let typ = type_of(alloc, value, &Types::Nil)?;
    let made = eq(alloc, &typ, value, value);
    drop(typ);
    made
}

/// `t == s`, for an equation `s == t`. Fails where memory runs out.
pub fn turned(alloc: Global, p: &Term) -> Mem<Term>
    requires { IsEquation p.now }
    ensures ok { IfOk result (λ r. r ≡ eq (side_type p.now) (rhs p.now) (lhs p.now)) }
    ensures memory { IfErr result (λ w. w ≡ Memory) }
{
    eq(alloc, side_type(p), rhs(p), lhs(p))
}

/// `s == u`, for equations `s == t` and `t == u`. Fails where memory runs out.
pub fn joined(alloc: Global, p: &Term, q: &Term) -> Mem<Term>
    requires { IsEquation p.now }
    ensures ok { IfOk result (λ r. r ≡ eq (side_type p.now) (lhs p.now) (rhs q.now)) }
    ensures memory { IfErr result (λ w. w ≡ Memory) }
{
    eq(alloc, side_type(p), lhs(p), rhs(q))
}

/// `t == g y`, where g is of type `c`. Fails where memory runs out.
fn equal_to_app(alloc: Global, c: &Typ, t: &Term, g: &Term, y: &Term) -> Mem<Term>
    ensures ok { IfOk result (λ r. r ≡ eq (cod c.now) t.now (app c.now g.now y.now)) }
    ensures memory { IfErr result (λ w. w ≡ Memory) }
{
    let right = app(alloc, c, g, y)?;
    let made = eq(alloc, cod(c), t, &right);
    drop(right);
    made
}

/// `f x == g y`, for equations `f == g` and `x == y`. Fails where memory runs out.
pub fn applied(alloc: Global, p: &Term, q: &Term) -> Mem<Term>
    requires { CanComb p.now q.now }
    ensures ok { IfOk result (λ r. r ≡ eq (cod (side_type p.now)) (app (side_type p.now) (lhs p.now) (lhs q.now)) (app (side_type p.now) (rhs p.now) (rhs q.now))) }
    ensures memory { IfErr result (λ w. w ≡ Memory) }
{
    let typ = side_type(p);
    let left = app(alloc, typ, lhs(p), lhs(q))?;
    let made = equal_to_app(alloc, typ, &left, rhs(p), rhs(q));
    drop(left);
    made
}

/// `f == g`, for functions from `from` to `to`. Fails where memory runs out.
fn equal_functions(alloc: Global, from: &Typ, to: &Typ, f: &Term, g: &Term) -> Mem<Term>
    ensures ok { IfOk result (λ r. r ≡ eq (fun from.now to.now) f.now g.now) }
    ensures memory { IfErr result (λ w. w ≡ Memory) }
{
    let typ = arrow(alloc, from, to)?;
    let made = eq(alloc, &typ, f, g);
    drop(typ);
    made
}

/// `f == (%x. t)`, for a term t of type `to`. Fails where memory runs out.
fn equal_to_abstraction(
    alloc: Global,
    name: &Name,
    typ: &Typ,
    to: &Typ,
    f: &Term,
    t: &Term,
) -> Mem<Term>
    ensures ok { IfOk result (λ r. r ≡ eq (fun typ.now to.now) f.now (abstract_over name.now typ.now t.now)) }
    ensures memory { IfErr result (λ w. w ≡ Memory) }
{
    let right = abstract_over(alloc, t, name, typ)?;
    let made = equal_functions(alloc, typ, to, f, &right);
    drop(right);
    made
}

/// `(%x. s) == (%x. t)`, for an equation `s == t`. Fails where memory runs out.
pub fn abstracted(alloc: Global, name: &Name, typ: &Typ, p: &Term) -> Mem<Term>
    requires { IsEquation p.now }
    ensures ok { IfOk result (λ r. r ≡ eq (fun typ.now (side_type p.now)) (abstract_over name.now typ.now (lhs p.now)) (abstract_over name.now typ.now (rhs p.now))) }
    ensures memory { IfErr result (λ w. w ≡ Memory) }
{
    let left = abstract_over(alloc, lhs(p), name, typ)?;
    let made = equal_to_abstraction(alloc, name, typ, side_type(p), &left, rhs(p));
    drop(left);
    made
}

/// `A == B`, for an implication `A ==> B`. Fails where memory runs out.
pub fn equivalent(alloc: Global, p: &Term) -> Mem<Term>
    ensures ok { IfOk result (λ r. r ≡ eq prop (antecedent p.now) (consequent p.now)) }
    ensures memory { IfErr result (λ w. w ≡ Memory) }
{
    let prop = Typ::prop(alloc)?;
    let made = eq(alloc, &prop, p.antecedent(), p.consequent());
    drop(prop);
    made
}

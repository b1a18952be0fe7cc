//! Which types a judgment may have, and which terms may be axioms.
ghost use Rattle.std.specs.Prelude.{◌≡◌, IsTrue, ◌↔◌};
ghost use Rattle.iv_sig.specs.Conditions.{has_variable, any_has_variable, IsJudgmentType, is_free, has_free, any_has_free, IsAxiom};

use iv_hsub::typing::{cod, dom, is_fun};
use iv_hsub::{is_prop, loose};
use iv_term::{Head, Term, Terms, Typ, Types};

/// Whether a type variable, fixed or schematic, stands in a type.
#[cycle(has_variable)]
fn has_variable(a: &Typ) -> bool
    ensures { result ≡ has_variable a.now }
{
    match a {
        Typ::Con(_c, args) => any_has_variable(args),
        Typ::Fixed(_a) => true,
        Typ::Schematic(_x) => true,
    }
}

/// The same of some types.
#[cycle(has_variable)]
fn any_has_variable(types: &Types) -> bool
    ensures { result ≡ any_has_variable types.now }
{
    match types {
        Types::Nil => false,
        Types::Cons(first, rest) => has_variable(first.get()) || any_has_variable(rest.get()),
    }
}

/// Whether a judgment may have this type: it is `T => prop` with a `T` without type variables. Takes no memory.
pub fn is_judgment_type(a: &Typ) -> bool
    ensures { IsTrue result ↔ IsJudgmentType a.now }
{
    if !is_fun(a) {
        return false;
    }
    if !cod(a).is_prop() {
        return false;
    }
    !has_variable(dom(a))
}

/// Whether a head is a free variable.
fn is_free(h: &Head) -> bool
    ensures { result ≡ is_free h.now }
{
    match h {
        Head::Free(_x, _a) => true,
        _ => false,
    }
}

/// Whether a free variable stands in a term.
#[cycle(has_free)]
fn has_free(t: &Term) -> bool
    ensures { result ≡ has_free t.now }
{
    match t {
        Term::Abs(_a, b) => has_free(b.get()),
        Term::Spine(h, ts) => is_free(h) || any_has_free(ts),
    }
}

/// The same of some terms.
#[cycle(has_free)]
fn any_has_free(ts: &Terms) -> bool
    ensures { result ≡ any_has_free ts.now }
{
    match ts {
        Terms::Nil => false,
        Terms::Cons(t, rest) => has_free(t.get()) || any_has_free(rest.get()),
    }
}

/// Whether a term may be an axiom: it is of type `prop`, with no loose index and no free variable. Takes no memory.
pub fn is_axiom(t: &Term) -> bool
    ensures { IsTrue result ↔ IsAxiom t.now }
{
    if !is_prop(t) {
        return false;
    }
    if loose(t) > 0 {
        return false;
    }
    !has_free(t)
}

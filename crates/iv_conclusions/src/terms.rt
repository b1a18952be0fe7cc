//! Terms that are equations or quantified: built, told apart, and taken apart.
ghost use Rattle.std.specs.Prelude.{◌≡◌, ℕ, List, IfOk, IfErr, IsTrue, ◌↔◌};
ghost use Rattle.iv_text.specs.declared.want.Want.TheVariants.{Memory};
ghost use Rattle.iv_term.specs.declared.typ.Typ.{Typ};
ghost use Rattle.iv_term.specs.declared.term.Head.TheVariants.{Const};
ghost use Rattle.iv_term.specs.Typ.{prop, fun};
ghost use Rattle.iv_hsub.specs.Typing.{dom, cod};
ghost use Rattle.iv_term.specs.Term.{tm_cons};
ghost use Rattle.iv_term.specs.declared.term.Term.TheBlock.{Nil};
ghost use Rattle.iv_hsub.specs.Hhf.{all_head, one};
ghost use Rattle.iv_rules.specs.Equality.{eq_head, eq, lhs, rhs, head_dom, side_type, IsEquation, all, predicate, app};
ghost use Rattle.iv_conclusions.specs.Quantified.{predicate_type, IsQuantified};

use iv_hsub::constants::{all_typ, eq_typ};
use iv_hsub::happ;
use iv_hsub::typing::{cod, dom, is_fun};
use iv_term::{Head, Term, Terms, Typ, both};
use iv_text::{Mem, Text};
use std::alloc::Global;

/// The type of functions from one type to another. Fails where memory runs out.
pub(crate) fn arrow(alloc: Global, from: &Typ, to: &Typ) -> Mem<Typ>
    ensures ok { IfOk result (λ a. a ≡ fun from.now to.now) }
    ensures memory { IfErr result (λ w. w ≡ Memory) }
{
    let (from, to) = both(from.copy(), to.copy())?;
    Typ::fun(alloc, from, to)
}

/// The constant `==` on terms of type `a`. Fails where memory runs out.
fn eq_head(alloc: Global, a: &Typ) -> Mem<Head>
    ensures ok { IfOk result (λ h. h ≡ eq_head a.now) }
    ensures memory { IfErr result (λ w. w ≡ Memory) }
{
    let (typ, name) = both(eq_typ(alloc, a), Text::from_slice(alloc, &['=', '=']))?;
    Ok(Head::Const(name, typ))
}

/// The list of two terms. Fails where memory runs out.
fn pair(alloc: Global, s: &Term, t: &Term) -> Mem<Terms>
    ensures ok { IfOk result (λ ts. ts ≡ tm_cons s.now (tm_cons t.now Nil)) }
    ensures memory { IfErr result (λ w. w ≡ Memory) }
{
    let (last, first) = both(Terms::only(alloc, t), s.copy())?;
    Terms::cons(alloc, first, last)
}

/// The equation `s == t` of terms of type `a`. Fails where memory runs out.
pub fn eq(alloc: Global, a: &Typ, s: &Term, t: &Term) -> Mem<Term>
    ensures ok { IfOk result (λ r. r ≡ eq a.now s.now t.now) }
    ensures memory { IfErr result (λ w. w ≡ Memory) }
{
    let (head, sides) = both(eq_head(alloc, a), pair(alloc, s, t))?;
    Ok(Term::Spine(head, sides))
}

/// The constant `!!` over terms of type `a`. Fails where memory runs out.
fn all_head(alloc: Global, a: &Typ) -> Mem<Head>
    ensures ok { IfOk result (λ h. h ≡ all_head a.now) }
    ensures memory { IfErr result (λ w. w ≡ Memory) }
{
    let (typ, name) = both(all_typ(alloc, a), Text::from_slice(alloc, &['!', '!']))?;
    Ok(Head::Const(name, typ))
}

/// `!! f` for a predicate f on terms of type `a`. Fails where memory runs out.
pub fn all(alloc: Global, a: &Typ, f: &Term) -> Mem<Term>
    ensures ok { IfOk result (λ r. r ≡ all a.now f.now) }
    ensures memory { IfErr result (λ w. w ≡ Memory) }
{
    let (head, args) = both(all_head(alloc, a), Terms::only(alloc, f))?;
    Ok(Term::Spine(head, args))
}

/// `f x`, where f is of type `c`. Fails where memory runs out.
pub fn app(alloc: Global, c: &Typ, f: &Term, x: &Term) -> Mem<Term>
    ensures ok { IfOk result (λ r. r ≡ app c.now f.now x.now) }
    ensures memory { IfErr result (λ w. w ≡ Memory) }
{
    let args = Terms::only(alloc, x)?;
    let made = happ(alloc, f, c, &args);
    drop(args);
    made
}

/// Whether a type is one of functions that take terms of type `d`.
pub(crate) fn takes(a: &Typ, d: &Typ) -> bool
    ensures { IsTrue result ↔ (a.now ≡ fun d.now (cod a.now)) }
{
    is_fun(a) && dom(a).is(d)
}

/// Whether a type is that of functions from `d` to propositions.
fn is_predicate_on(a: &Typ, d: &Typ) -> bool
    ensures { IsTrue result ↔ (a.now ≡ fun d.now prop) }
{
    takes(a, d) && cod(a).is_prop()
}

/// Whether a type is that of an `==`.
fn is_eq_typ(a: &Typ) -> bool
    ensures { IsTrue result ↔ (a.now ≡ fun (dom a.now) (fun (dom a.now) prop)) }
{
    is_fun(a) && is_predicate_on(cod(a), dom(a))
}

/// Whether a head is `==`.
fn is_eq(h: &Head) -> bool
    ensures { IsTrue result ↔ (h.now ≡ eq_head (head_dom h.now)) }
{
    match h {
        Head::Const(c, a) => c.is_chars(&['=', '=']) && is_eq_typ(a),
        Head::Free(_x, _a) => false,
        Head::Schematic(_x, _a) => false,
        Head::Bound(_n) => false,
    }
}

/// Whether a term is an equation. Takes no memory.
pub fn is_equation(t: &Term) -> bool
    ensures { IsTrue result ↔ IsEquation t.now }
{
    match t {
        Term::Abs(_a, _b) => false,
        Term::Spine(h, ts) => is_eq(h) && ts.are_two(),
    }
}

/// The left side of an equation.
pub fn lhs(t: &Term) -> &Term
    ensures { result.now ≡ lhs t.now }
{
    t.antecedent()
}

/// The right side of an equation.
pub fn rhs(t: &Term) -> &Term
    ensures { result.now ≡ rhs t.now }
{
    t.consequent()
}

/// The type of the first argument of a constant.
fn const_dom(h: &Head) -> &Typ
    requires { (c : List ℕ) × ((a : Typ) × (h.now ≡ Const c a)) }
    ensures { result.now ≡ head_dom h.now }
{
    match h {
        Head::Const(_c, a) => dom(a),
        Head::Free(_x, a) => a,
        Head::Schematic(_x, a) => a,
        Head::Bound(_n) => unreachable!(),
    }
}

/// The type of both sides of an equation.
pub fn side_type(t: &Term) -> &Typ
    requires { IsEquation t.now }
    ensures { result.now ≡ side_type t.now }
{
    match t {
        Term::Abs(a, _b) => a,
        Term::Spine(h, _ts) => const_dom(h),
    }
}

/// The predicate of a `!!`.
pub fn predicate(t: &Term) -> &Term
    ensures { result.now ≡ predicate t.now }
{
    t.antecedent()
}

/// The type of the predicate of a `!!`.
pub fn predicate_type(t: &Term) -> &Typ
    requires { IsQuantified t.now }
    ensures { result.now ≡ predicate_type t.now }
{
    match t {
        Term::Abs(a, _b) => a,
        Term::Spine(h, _ts) => const_dom(h),
    }
}

//! Types of terms, and which trees are terms.
ghost use Rattle.std.specs.Prelude.{◌≡◌, ◌≤◌, ◌<◌, IfOk, IfErr, IsTrue, ◌↔◌, MatchOption};
ghost use Rattle.iv_term.specs.Typ.{prop, fun};
ghost use Rattle.iv_term.specs.declared.typ.Typ.TheBlock.{Nil};
ghost use Rattle.iv_text.specs.declared.want.Want.TheVariants.{Memory};
ghost use Rattle.iv_hsub.specs.Typing.{first_typ, second_typ, dom, cod, types_len, type_at, head_type, result_type, type_of, IsHead, IsTerm, AreArgs, HasType};
ghost use Rattle.iv_hsub.specs.Index.{contracts};
ghost use Rattle.iv_hsub.specs.Bounds.{types_in};

use crate::contraction::contracts;
use iv_term::{Head, Term, Terms, Typ, Types};
use iv_text::Mem;
use std::alloc::Global;

/// The types of bound variables: those of a list, and those of binders further in.
#[derive(Clone, Copy)]
enum Bounds<'a> {
    Outer(&'a Types),
    Under(&'a Typ, &'a Bounds<'a>),
}

/// The first of some types, or another where there is none.
fn first_typ<'a>(types: &'a Types, other: &'a Typ) -> &'a Typ
    ensures { result.now ≡ first_typ other.now types.now }
{
    match types {
        Types::Nil => other,
        Types::Cons(first, _rest) => first.get(),
    }
}

/// The second of some types, or another where there is none.
fn second_typ<'a>(types: &'a Types, other: &'a Typ) -> &'a Typ
    ensures { result.now ≡ second_typ other.now types.now }
{
    match types {
        Types::Nil => other,
        Types::Cons(_first, rest) => first_typ(rest.get(), other),
    }
}

/// The argument type of a type of functions; any other type itself.
pub fn dom(a: &Typ) -> &Typ
    ensures { result.now ≡ dom a.now }
{
    match a {
        Typ::Con(_c, args) => first_typ(args, a),
        Typ::Fixed(_c) => a,
        Typ::Schematic(_c) => a,
    }
}

/// The result type of a type of functions; any other type itself.
pub fn cod(a: &Typ) -> &Typ
    ensures { result.now ≡ cod a.now }
{
    match a {
        Typ::Con(_c, args) => second_typ(args, a),
        Typ::Fixed(_c) => a,
        Typ::Schematic(_c) => a,
    }
}

/// Whether there is one type.
fn is_one(types: &Types) -> bool
    ensures { IsTrue result ↔ (types_len types.now ≡ 1) }
{
    match types {
        Types::Nil => false,
        Types::Cons(_first, rest) => rest.get().is_nil(),
    }
}

/// Whether there are two types.
fn are_two(types: &Types) -> bool
    ensures { IsTrue result ↔ (types_len types.now ≡ 2) }
{
    match types {
        Types::Nil => false,
        Types::Cons(_first, rest) => is_one(rest.get()),
    }
}

/// Whether a type is one of functions.
pub fn is_fun(a: &Typ) -> bool
    ensures { IsTrue result ↔ (a.now ≡ fun (dom a.now) (cod a.now)) }
{
    match a {
        Typ::Con(c, args) => c.is_chars(&['f', 'u', 'n']) && are_two(args),
        Typ::Fixed(_c) => false,
        Typ::Schematic(_c) => false,
    }
}

/// The type of the bound variable of an index in a list.
fn type_at(types: &Types, n: u32) -> Option<&Typ>
    ensures { MatchOption result (types_len types.now ≤ n) (λ a. (n < types_len types.now) × (a.now ≡ type_at types.now n)) }
{
    match types {
        Types::Nil => None,
        Types::Cons(first, rest) => {
            if n == 0 {
                Some(first.get())
            } else {
                type_at(rest.get(), n - 1)
            }
        }
    }
}

impl<'a> Bounds<'a> {
    /// The type of the bound variable of an index.
    fn at(&self, n: u32) -> Option<&Typ>
        ensures { MatchOption result (types_len (types_in self.now) ≤ n) (λ a. (n < types_len (types_in self.now)) × (a.now ≡ type_at (types_in self.now) n)) }
    {
        match self {
            Bounds::Outer(types) => type_at(types, n),
            Bounds::Under(a, rest) => { if n == 0 { Some(*a) } else { rest.at(n - 1) } }
        }
    }
}

/// The type of a head, where it has one.
fn head_type<'a>(h: &'a Head, bounds: &'a Bounds) -> Option<&'a Typ>
    ensures { MatchOption result (IsHead (types_in bounds.now) h.now → ⊥) (λ a. IsHead (types_in bounds.now) h.now × (a.now ≡ head_type (types_in bounds.now) h.now)) }
{
    match h {
        Head::Const(_c, a) => Some(a),
        Head::Free(_x, a) => Some(a),
        Head::Schematic(_x, a) => Some(a),
        Head::Bound(n) => bounds.at(*n),
    }
}

/// Whether a tree is a term of a type.
#[cycle(is_term)]
fn fits(t: &Term, a: &Typ, bounds: &Bounds) -> bool
    ensures { IsTrue result ↔ (IsTerm (types_in bounds.now) t.now × (type_of (types_in bounds.now) t.now ≡ a.now)) }
{
    match t {
        Term::Abs(c, b) => {
            if !is_fun(a) {
                return false;
            }
            if !dom(a).is(c) {
                return false;
            }
            if contracts(b.get()) {
                return false;
            }
            fits(b.get(), cod(a), &Bounds::Under(c, &*bounds))
        }
        Term::Spine(h, ts) => match head_type(h, &*bounds) {
            None => false,
            Some(c) => lead_to(ts, c, a, &*bounds),
        },
    }
}

/// Whether some trees are arguments for what has type `c`, and its type at them is `a`.
#[cycle(is_term)]
fn lead_to(ts: &Terms, c: &Typ, a: &Typ, bounds: &Bounds) -> bool
    ensures { IsTrue result ↔ (AreArgs (types_in bounds.now) c.now ts.now × (result_type c.now ts.now ≡ a.now)) }
{
    match ts {
        Terms::Nil => c.is(a),
        Terms::Cons(t, rest) => {
            if !is_fun(c) {
                return false;
            }
            if !fits(t.get(), dom(c), bounds) {
                return false;
            }
            lead_to(rest.get(), cod(c), a, bounds)
        }
    }
}

/// Whether some trees are arguments for what has type `c`.
fn are_args(ts: &Terms, c: &Typ, bounds: &Bounds) -> bool
    ensures { IsTrue result ↔ AreArgs (types_in bounds.now) c.now ts.now }
{
    match ts {
        Terms::Nil => true,
        Terms::Cons(t, rest) => {
            if !is_fun(c) {
                return false;
            }
            if !fits(t.get(), dom(c), bounds) {
                return false;
            }
            are_args(rest.get(), cod(c), bounds)
        }
    }
}

/// Whether a tree is a term.
fn is_term_under(t: &Term, bounds: &Bounds) -> bool
    ensures { IsTrue result ↔ IsTerm (types_in bounds.now) t.now }
{
    match t {
        Term::Abs(c, b) => {
            if contracts(b.get()) {
                return false;
            }
            is_term_under(b.get(), &Bounds::Under(c, &*bounds))
        }
        Term::Spine(h, ts) => match head_type(h, &*bounds) {
            None => false,
            Some(c) => are_args(ts, c, &*bounds),
        },
    }
}

/// Whether a tree is a term, where `bounds` are the types of its loose variables, the innermost first: well
/// typed, beta-normal and eta-short. Takes no memory.
pub fn is_term(t: &Term, bounds: &Types) -> bool
    ensures { IsTrue result ↔ IsTerm bounds.now t.now }
{
    is_term_under(t, &Bounds::Outer(bounds))
}

/// Whether a tree is a term of a type, where `bounds` are the types of its loose variables, the innermost first. Takes
/// no memory.
pub fn has_type(t: &Term, typ: &Typ, bounds: &Types) -> bool
    ensures { IsTrue result ↔ HasType bounds.now typ.now t.now }
{
    fits(t, typ, &Bounds::Outer(bounds))
}

/// The type of what has type `a` at some arguments.
fn result_type<'a>(ts: &Terms, a: &'a Typ) -> &'a Typ
    ensures { result.now ≡ result_type a.now ts.now }
{
    match ts {
        Terms::Nil => a,
        Terms::Cons(_t, rest) => result_type(rest.get(), cod(a)),
    }
}

/// Whether some trees are arguments for what has type `c`, and make a proposition with it.
fn make_prop(ts: &Terms, c: &Typ, bounds: &Bounds) -> bool
    ensures { IsTrue result ↔ (AreArgs (types_in bounds.now) c.now ts.now × (result_type c.now ts.now ≡ prop)) }
{
    are_args(ts, c, bounds) && result_type(ts, c).is_prop()
}

/// Whether a tree is a proposition under some bound variables.
fn is_prop_under(t: &Term, bounds: &Bounds) -> bool
    ensures { IsTrue result ↔ HasType (types_in bounds.now) prop t.now }
{
    match t {
        Term::Abs(_c, _b) => false,
        Term::Spine(h, ts) => match head_type(h, &*bounds) {
            None => false,
            Some(c) => make_prop(ts, c, &*bounds),
        },
    }
}

/// Whether a tree is a proposition: a term of type `prop` without loose indices. Takes no memory.
pub fn is_prop(t: &Term) -> bool
    ensures { IsTrue result ↔ HasType Nil prop t.now }
{
    is_prop_under(t, &Bounds::Outer(&Types::Nil))
}

/// The type of a head at some arguments; where it has none, that of what has type `prop`.
fn spine_type(alloc: Global, h: &Head, ts: &Terms, bounds: &Bounds) -> Mem<Typ>
    ensures ok { IfOk result (λ a. a ≡ result_type (head_type (types_in bounds.now) h.now) ts.now) }
    ensures memory { IfErr result (λ w. w ≡ Memory) }
{
    match head_type(h, bounds) {
        None => {
            let prop = Typ::prop(alloc)?;
            let made = result_type(ts, &prop).copy();
            drop(prop);
            made
        }
        Some(a) => result_type(ts, a).copy(),
    }
}

/// The type of a term under some bound variables.
fn type_under(alloc: Global, t: &Term, bounds: &Bounds) -> Mem<Typ>
    ensures ok { IfOk result (λ a. a ≡ type_of (types_in bounds.now) t.now) }
    ensures memory { IfErr result (λ w. w ≡ Memory) }
{
    match t {
        Term::Abs(c, b) => {
            let inner = type_under(alloc, b.get(), &Bounds::Under(c, bounds))?;
            Typ::fun(alloc, c.copy()?, inner)
        }
        Term::Spine(h, ts) => spine_type(alloc, h, ts, bounds),
    }
}

/// The type of a term, where `bounds` are the types of its loose variables, the innermost first. Fails where
/// memory runs out.
pub fn type_of(alloc: Global, t: &Term, bounds: &Types) -> Mem<Typ>
    ensures ok { IfOk result (λ a. a ≡ type_of bounds.now t.now) }
    ensures memory { IfErr result (λ w. w ≡ Memory) }
{
    type_under(alloc, t, &Bounds::Outer(bounds))
}

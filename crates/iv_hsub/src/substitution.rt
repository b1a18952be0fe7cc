//! Hereditary substitution: what is put for a variable is applied at once to the arguments that the variable
//! has, so that no redex is left.
ghost use Rattle.std.specs.Prelude.{◌≡◌, IfOk, IfErr, IsTrue, ◌↔◌};
ghost use Rattle.iv_term.specs.Typ.{fun, ty_cons};
ghost use Rattle.iv_term.specs.declared.term.Head.TheVariants.{Bound};
ghost use Rattle.iv_term.specs.declared.term.Term.TheBlock.{Spine};
ghost use Rattle.iv_text.specs.declared.want.Want.TheVariants.{Memory};
ghost use Rattle.iv_hsub.specs.Typing.{cod, type_of, IsTerm};
ghost use Rattle.iv_hsub.specs.Index.{raise};
ghost use Rattle.iv_hsub.specs.Hsub.{append, put_head, put, put_all, happ, hsub};

use crate::contraction::eta;
use crate::looseness::loose;
use crate::raising::{raise, sum};
use crate::typing::{cod, dom, is_fun};
use iv_shared::Shared;
use iv_term::{Head, Term, Terms, Typ, Types};
use iv_text::Mem;
use std::alloc::Global;

/// Some terms, and others behind them. Fails where memory runs out.
pub fn append(alloc: Global, ts: &Terms, us: Terms) -> Mem<Terms>
    ensures ok { IfOk result (λ r. r ≡ append ts.now us) }
    ensures memory { IfErr result (λ w. w ≡ Memory) }
{
    match ts {
        Terms::Nil => Ok(us),
        Terms::Cons(t, rest) => {
            let more = append(alloc, rest.get(), us)?;
            let more = Shared::new(alloc, more)?;
            Ok(Terms::Cons(t.share()?, more))
        }
    }
}

/// A head with arguments. Fails where a count of owners is full.
pub(crate) fn spine(h: &Head, args: &Terms) -> Mem<Term>
    ensures ok { IfOk result (λ r. r ≡ Spine h.now args.now) }
    ensures memory { IfErr result (λ w. w ≡ Memory) }
{
    let args = args.copy()?;
    Ok(Term::Spine(h.copy()?, args))
}

/// A bound variable with arguments. Fails where a count of owners is full.
fn bound_spine(n: u32, args: &Terms) -> Mem<Term>
    ensures ok { IfOk result (λ r. r ≡ Spine (Bound n) args.now) }
    ensures memory { IfErr result (λ w. w ≡ Memory) }
{
    Ok(Term::Spine(Head::Bound(n), args.copy()?))
}

/// A head with arguments and more of them behind. Fails where memory runs out.
fn longer_spine(alloc: Global, h: &Head, ts: &Terms, us: &Terms) -> Mem<Term>
    ensures ok { IfOk result (λ r. r ≡ Spine h.now (append ts.now us.now)) }
    ensures memory { IfErr result (λ w. w ≡ Memory) }
{
    let args = append(alloc, ts, us.copy()?)?;
    Ok(Term::Spine(h.copy()?, args))
}

/// Whether a type is one of functions that take this one.
fn takes(a: &Typ, d: &Typ) -> bool
    ensures { IsTrue result ↔ (a.now ≡ fun d.now (cod a.now)) }
{
    is_fun(a) && dom(a).is(d)
}

/// A value under more binders.
fn raised(alloc: Global, v: &Term, by: u32) -> Mem<Term>
    ensures ok { IfOk result (λ r. r ≡ raise by 0 v.now) }
    ensures memory { IfErr result (λ w. w ≡ Memory) }
{
    if loose(v) == 0 {
        v.copy()
    } else {
        raise(alloc, v, by, 0)
    }
}

/// A term with a value of type `a` put for the index `k`, under `k` binders.
#[cycle(hsub)]
fn put(alloc: Global, t: &Term, v: &Term, k: u32, a: &Typ) -> Mem<Term>
    ensures ok { IfOk result (λ r. r ≡ put (happ a.now) v.now k t.now) }
    ensures memory { IfErr result (λ w. w ≡ Memory) }
{
    match t {
        Term::Abs(c, b) => {
            let inner = sum(k, 1)?;
            let body = put(alloc, b.get(), v, inner, a)?;
            eta(alloc, c, body)
        }
        Term::Spine(h, ts) => {
            let args = put_all(alloc, ts, v, k, a)?;
            put_head(alloc, h, &args, v, k, a)
        }
    }
}

/// The same of some terms.
#[cycle(hsub)]
fn put_all(alloc: Global, ts: &Terms, v: &Term, k: u32, a: &Typ) -> Mem<Terms>
    ensures ok { IfOk result (λ r. r ≡ put_all (happ a.now) v.now k ts.now) }
    ensures memory { IfErr result (λ w. w ≡ Memory) }
{
    match ts {
        Terms::Nil => Ok(Terms::Nil),
        Terms::Cons(t, rest) => {
            let more = put_all(alloc, rest.get(), v, k, a)?;
            let first = put(alloc, t.get(), v, k, a)?;
            Terms::cons(alloc, first, more)
        }
    }
}

/// A head with arguments that the value is put in already.
#[cycle(hsub)]
fn put_head(alloc: Global, h: &Head, args: &Terms, v: &Term, k: u32, a: &Typ) -> Mem<Term>
    ensures ok { IfOk result (λ r. r ≡ put_head (happ a.now) v.now k h.now args.now) }
    ensures memory { IfErr result (λ w. w ≡ Memory) }
{
    match h {
        Head::Bound(n) => {
            if *n < k {
                return spine(h, args);
            }
            if *n == k {
                let w = raised(alloc, v, k)?;
                let made = happ(alloc, &w, a, args);
                drop(w);
                return made;
            }
            bound_spine(*n - 1, args)
        }
        Head::Const(_c, _t) => spine(h, args),
        Head::Free(_x, _t) => spine(h, args),
        Head::Schematic(_x, _t) => spine(h, args),
    }
}

/// What a value of type `a` is at some arguments: an abstraction over the argument's type takes the first, and what
/// comes takes the others. Fails where memory runs out.
#[cycle(hsub)]
pub fn happ(alloc: Global, v: &Term, a: &Typ, args: &Terms) -> Mem<Term>
    ensures ok { IfOk result (λ r. r ≡ happ a.now v.now args.now) }
    ensures memory { IfErr result (λ w. w ≡ Memory) }
{
    match args {
        Terms::Nil => v.copy(),
        Terms::Cons(u, rest) => match v {
            Term::Spine(h, ts) => longer_spine(alloc, h, ts, args),
            Term::Abs(d, b) => {
                if !takes(a, d) {
                    return v.copy();
                }
                let body = put(alloc, b.get(), u.get(), 0, d)?;
                let made = happ(alloc, &body, cod(a), rest.get());
                drop(body);
                made
            }
        },
    }
}

/// A body with a value of type `typ` put for its outermost bound variable, by hereditary substitution. Where the body
/// is a term under `typ` and `bounds`, and the value one of type `typ` under `bounds`, so is the result, of the body's
/// type. Fails where memory runs out.
pub fn hsub(alloc: Global, body: &Term, value: &Term, typ: &Typ, bounds: &Types) -> Mem<Term>
    ensures ok { IfOk result (λ r. r ≡ hsub typ.now value.now body.now) }
    ensures typed { IsTerm (ty_cons typ.now bounds.now) body.now → IsTerm bounds.now value.now → type_of bounds.now value.now ≡ typ.now
        → IfOk result (λ r. IsTerm bounds.now r × (type_of bounds.now r ≡ type_of (ty_cons typ.now bounds.now) body.now)) }
    ensures memory { IfErr result (λ w. w ≡ Memory) }
{
    let _ = bounds;
    put(alloc, body, value, 0, typ)
}

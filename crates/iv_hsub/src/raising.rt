//! Terms under more binders.
ghost use Rattle.std.specs.Prelude.{◌≡◌, ◌+◌, IfOk, IfErr};
ghost use Rattle.iv_term.specs.Term.{lam};
ghost use Rattle.iv_text.specs.declared.want.Want.TheVariants.{Memory};
ghost use Rattle.iv_hsub.specs.Index.{raise_head, raise, raise_all};

use iv_shared::Shared;
use iv_term::{Head, Term, Terms, Typ};
use iv_text::{Mem, Want};
use std::alloc::Global;

/// The sum of two depths or indices. Where it is above 4,294,967,295 there is no memory for a term that has it.
pub(crate) fn sum(a: u32, b: u32) -> Mem<u32>
    ensures ok { IfOk result (λ n. n ≡ a + b) }
    ensures memory { IfErr result (λ w. w ≡ Memory) }
{
    match a.checked_add(b) {
        None => Err(Want::Memory),
        Some(n) => Ok(n),
    }
}

/// An abstraction. Fails where memory runs out.
pub(crate) fn abs(alloc: Global, a: &Typ, body: Term) -> Mem<Term>
    ensures ok { IfOk result (λ t. t ≡ lam a.now body) }
    ensures memory { IfErr result (λ w. w ≡ Memory) }
{
    let body = Shared::new(alloc, body)?;
    Ok(Term::Abs(a.copy()?, body))
}

/// A head under more binders.
pub(crate) fn raise_head(h: &Head, by: u32, depth: u32) -> Mem<Head>
    ensures ok { IfOk result (λ r. r ≡ raise_head by depth h.now) }
    ensures memory { IfErr result (λ w. w ≡ Memory) }
{
    match h {
        Head::Bound(n) => {
            if *n < depth {
                Ok(Head::Bound(*n))
            } else {
                Ok(Head::Bound(sum(*n, by)?))
            }
        }
        Head::Const(_c, _a) => h.copy(),
        Head::Free(_x, _a) => h.copy(),
        Head::Schematic(_x, _a) => h.copy(),
    }
}

/// A term with `by` more binders put around it, where the inner `depth` binders are its own. Fails where memory runs
/// out.
#[cycle(raise)]
pub fn raise(alloc: Global, t: &Term, by: u32, depth: u32) -> Mem<Term>
    ensures ok { IfOk result (λ r. r ≡ raise by depth t.now) }
    ensures memory { IfErr result (λ w. w ≡ Memory) }
{
    match t {
        Term::Abs(a, b) => {
            let inner = sum(depth, 1)?;
            let body = raise(alloc, b.get(), by, inner)?;
            abs(alloc, a, body)
        }
        Term::Spine(h, ts) => {
            let args = raise_all(alloc, ts, by, depth)?;
            Ok(Term::Spine(raise_head(h, by, depth)?, args))
        }
    }
}

/// The same of some terms. Fails where memory runs out.
#[cycle(raise)]
pub fn raise_all(alloc: Global, ts: &Terms, by: u32, depth: u32) -> Mem<Terms>
    ensures ok { IfOk result (λ r. r ≡ raise_all by depth ts.now) }
    ensures memory { IfErr result (λ w. w ≡ Memory) }
{
    match ts {
        Terms::Nil => Ok(Terms::Nil),
        Terms::Cons(t, rest) => {
            let more = raise_all(alloc, rest.get(), by, depth)?;
            let first = raise(alloc, t.get(), by, depth)?;
            Terms::cons(alloc, first, more)
        }
    }
}

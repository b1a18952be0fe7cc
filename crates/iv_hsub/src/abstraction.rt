//! Abstraction over a free variable.
ghost use Rattle.std.specs.Prelude.{◌≡◌, IfOk, IfErr};
ghost use Rattle.iv_term.specs.Term.{is_free};
ghost use Rattle.iv_term.specs.declared.term.Head.TheVariants.{Free};
ghost use Rattle.iv_text.specs.declared.want.Want.TheVariants.{Memory};
ghost use Rattle.iv_hsub.specs.Abstract.{bind_head, bind, bind_all, abstract_over};

use crate::contraction::eta;
use crate::raising::{abs, raise_head, sum};
use iv_term::{Head, Term, Terms, Typ};
use iv_text::{Mem, Name};
use std::alloc::Global;

/// Whether two variables are the same: by name and by type.
fn is_same(x: &Name, a: &Typ, y: &Name, b: &Typ) -> bool
    ensures { result ≡ is_free x.now a.now (Free y.now b.now) }
{
    x.is(y) && a.is(b)
}

/// A head with the index `k` in the place of a free variable.
fn bind_head(h: &Head, x: &Name, a: &Typ, k: u32) -> Mem<Head>
    ensures ok { IfOk result (λ r. r ≡ bind_head x.now a.now k h.now) }
    ensures memory { IfErr result (λ w. w ≡ Memory) }
{
    match h {
        Head::Free(y, b) => {
            if is_same(x, a, y, b) {
                Ok(Head::Bound(k))
            } else {
                h.copy()
            }
        }
        Head::Const(_c, _b) => raise_head(h, 1, k),
        Head::Schematic(_y, _b) => raise_head(h, 1, k),
        Head::Bound(_n) => raise_head(h, 1, k),
    }
}

/// A term with the index `k` in the place of a free variable.
#[cycle(bind)]
fn bind(alloc: Global, t: &Term, x: &Name, a: &Typ, k: u32) -> Mem<Term>
    ensures ok { IfOk result (λ r. r ≡ bind x.now a.now k t.now) }
    ensures memory { IfErr result (λ w. w ≡ Memory) }
{
    match t {
        Term::Abs(b, u) => {
            let inner = sum(k, 1)?;
            let body = bind(alloc, u.get(), x, a, inner)?;
            abs(alloc, b, body)
        }
        Term::Spine(h, ts) => {
            let args = bind_all(alloc, ts, x, a, k)?;
            Ok(Term::Spine(bind_head(h, x, a, k)?, args))
        }
    }
}

/// The same of some terms.
#[cycle(bind)]
fn bind_all(alloc: Global, ts: &Terms, x: &Name, a: &Typ, k: u32) -> Mem<Terms>
    ensures ok { IfOk result (λ r. r ≡ bind_all x.now a.now k ts.now) }
    ensures memory { IfErr result (λ w. w ≡ Memory) }
{
    match ts {
        Terms::Nil => Ok(Terms::Nil),
        Terms::Cons(t, rest) => {
            let more = bind_all(alloc, rest.get(), x, a, k)?;
            let first = bind(alloc, t.get(), x, a, k)?;
            Terms::cons(alloc, first, more)
        }
    }
}

/// The abstraction of a term over its free variable of this name and type, contracted where it can be. A variable of
/// the name and another type stays. Fails where memory runs out.
pub fn abstract_over(alloc: Global, t: &Term, name: &Name, typ: &Typ) -> Mem<Term>
    ensures ok { IfOk result (λ r. r ≡ abstract_over name.now typ.now t.now) }
    ensures memory { IfErr result (λ w. w ≡ Memory) }
{
    let body = bind(alloc, t, name, typ, 0)?;
    eta(alloc, typ, body)
}

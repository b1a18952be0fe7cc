//! Abstractions that are contracted where they can be. What is looked at for the last time is dropped by a call, as a drop
//! that isn't written is proved piece by piece.
ghost use Rattle.std.specs.Prelude.{◌≡◌, ◌≤◌, ◌+◌, ◌^◌, min, suc, ℕ, false, Some, IfOk, IfErr};
ghost use Rattle.std.specs.Option.{unwrap_or};
ghost use Rattle.iv_term.specs.Term.{lam};
ghost use Rattle.iv_text.specs.declared.want.Want.TheVariants.{Memory};
ghost use Rattle.iv_hsub.specs.Index.{is_bound, occurs, occurs_in, lower_head, lower, lower_all, is_index_0, ends_in_0, front, contracts, contracted, eta};

use crate::raising::abs;
use iv_shared::Shared;
use iv_term::{Head, Term, Terms, Typ};
use iv_text::{Mem, new_or_copy};
use std::alloc::Global;

/// A depth that no index reaches: depths stop there.
const TOP: u64 = 4_294_967_296;

/// One binder further in.
fn under(depth: u64) -> u64
    requires { depth ≤ 2 ^ 32 }
    ensures below { result ≤ 2 ^ 32 }
    ensures next { (d : ℕ) → min d (2 ^ 32) ≡ depth → min (suc d) (2 ^ 32) ≡ result }
{
    if depth < TOP { depth + 1 } else { depth }
}

/// Whether a head is the index at a depth.
fn is_bound(h: &Head, depth: u64) -> bool
    ensures { (d : ℕ) → min d (2 ^ 32) ≡ depth → result ≡ is_bound d h.now }
{
    match h {
        Head::Bound(n) => *n as u64 == depth,
        Head::Const(_c, _a) => false,
        Head::Free(_x, _a) => false,
        Head::Schematic(_x, _a) => false,
    }
}

/// Whether the index at a depth stands in a term.
#[cycle(occurs)]
fn occurs(t: &Term, depth: u64) -> bool
    requires { depth ≤ 2 ^ 32 }
    ensures { (d : ℕ) → min d (2 ^ 32) ≡ depth → result ≡ occurs d t.now }
{
    match t {
        Term::Abs(_a, b) => occurs(b.get(), under(depth)),
        Term::Spine(h, ts) => {
            if is_bound(h, depth) {
                true
            } else {
                occurs_in(ts, depth)
            }
        }
    }
}

/// The same of some terms.
#[cycle(occurs)]
fn occurs_in(ts: &Terms, depth: u64) -> bool
    requires { depth ≤ 2 ^ 32 }
    ensures { (d : ℕ) → min d (2 ^ 32) ≡ depth → result ≡ occurs_in d ts.now }
{
    match ts {
        Terms::Nil => false,
        Terms::Cons(t, rest) => {
            if occurs(t.get(), depth) {
                true
            } else {
                occurs_in(rest.get(), depth)
            }
        }
    }
}

/// Whether a term is the index 0.
fn is_index_0(t: &Term) -> bool
    ensures { result ≡ is_index_0 t.now }
{
    match t {
        Term::Abs(_a, _b) => false,
        Term::Spine(h, ts) => { if is_bound(h, 0) { ts.is_nil() } else { false } }
    }
}

/// Whether the last of some terms is the index 0.
fn ends_in_0(ts: &Terms) -> bool
    ensures { result ≡ ends_in_0 ts.now }
{
    match ts {
        Terms::Nil => false,
        Terms::Cons(t, rest) => {
            if rest.get().is_nil() {
                is_index_0(t.get())
            } else {
                ends_in_0(rest.get())
            }
        }
    }
}

/// Whether the index 0 stands in some terms other than the last.
fn occurs_in_front(ts: &Terms) -> bool
    ensures { result ≡ occurs_in 0 (front ts.now) }
{
    match ts {
        Terms::Nil => false,
        Terms::Cons(t, rest) => {
            if rest.get().is_nil() {
                return false;
            }
            if occurs(t.get(), 0) {
                return true;
            }
            occurs_in_front(rest.get())
        }
    }
}

/// Whether an abstraction over this body can be contracted. Takes no memory.
pub fn contracts(body: &Term) -> bool
    ensures { result ≡ contracts body.now }
{
    match body {
        Term::Abs(_a, _b) => false,
        Term::Spine(h, ts) => {
            if !ends_in_0(ts) {
                return false;
            }
            if is_bound(h, 0) {
                return false;
            }
            !occurs_in_front(ts)
        }
    }
}

/// A head with the binder at a depth taken away.
fn lower_head(h: &Head, depth: u64) -> Mem<Head>
    ensures ok { (d : ℕ) → min d (2 ^ 32) ≡ depth → IfOk result (λ r. r ≡ lower_head d h.now) }
    ensures memory { IfErr result (λ w. w ≡ Memory) }
{
    match h {
        Head::Bound(n) => {
            if (*n as u64) < depth {
                Ok(Head::Bound(*n))
            } else {
                Ok(Head::Bound((*n).saturating_sub(1)))
            }
        }
        Head::Const(_c, _a) => h.copy(),
        Head::Free(_x, _a) => h.copy(),
        Head::Schematic(_x, _a) => h.copy(),
    }
}

/// A term with the binder at a depth taken away.
#[cycle(lower)]
fn lower(alloc: Global, t: &Term, depth: u64) -> Mem<Term>
    requires { depth ≤ 2 ^ 32 }
    ensures ok { (d : ℕ) → min d (2 ^ 32) ≡ depth → IfOk result (λ r. r ≡ lower d t.now) }
    ensures memory { IfErr result (λ w. w ≡ Memory) }
{
    match t {
        Term::Abs(a, b) => {
            let body = lower(alloc, b.get(), under(depth))?;
            abs(alloc, a, body)
        }
        Term::Spine(h, ts) => {
            let args = lower_all(alloc, ts, depth)?;
            Ok(Term::Spine(lower_head(h, depth)?, args))
        }
    }
}

/// The same of some terms.
#[cycle(lower)]
fn lower_all(alloc: Global, ts: &Terms, depth: u64) -> Mem<Terms>
    requires { depth ≤ 2 ^ 32 }
    ensures ok { (d : ℕ) → min d (2 ^ 32) ≡ depth → IfOk result (λ r. r ≡ lower_all d ts.now) }
    ensures memory { IfErr result (λ w. w ≡ Memory) }
{
    match ts {
        Terms::Nil => Ok(Terms::Nil),
        Terms::Cons(t, rest) => {
            let more = lower_all(alloc, rest.get(), depth)?;
            let first = lower(alloc, t.get(), depth)?;
            Terms::cons(alloc, first, more)
        }
    }
}

/// Some terms other than the last, with the innermost binder taken away.
fn lower_front(alloc: Global, ts: &Terms) -> Mem<Terms>
    ensures ok { IfOk result (λ r. r ≡ lower_all 0 (front ts.now)) }
    ensures memory { IfErr result (λ w. w ≡ Memory) }
{
    match ts {
        Terms::Nil => Ok(Terms::Nil),
        Terms::Cons(t, rest) => {
            if rest.get().is_nil() {
                return Ok(Terms::Nil);
            }
            let more = lower_front(alloc, rest.get())?;
            let first = lower(alloc, t.get(), 0)?;
            Terms::cons(alloc, first, more)
        }
    }
}

/// What an abstraction over this body is contracted to, where it can be.
fn contracted(alloc: Global, body: &Term) -> Mem<Term>
    ensures ok { IfOk result (λ r. r ≡ contracted body.now) }
    ensures memory { IfErr result (λ w. w ≡ Memory) }
{
    match body {
        Term::Abs(_a, _b) => body.copy(),
        Term::Spine(h, ts) => {
            let args = lower_front(alloc, ts)?;
            Ok(Term::Spine(lower_head(h, 0)?, args))
        }
    }
}

/// The abstraction over a body, contracted where it can be. Fails where memory runs out.
pub fn eta(alloc: Global, a: &Typ, body: Term) -> Mem<Term>
    ensures ok { IfOk result (λ r. r ≡ eta a.now body) }
    ensures memory { IfErr result (λ w. w ≡ Memory) }
{
    if contracts(&body) {
        let made = contracted(alloc, &body);
        drop(body);
        made
    } else {
        abs(alloc, a, body)
    }
}

/// The abstraction over a new body, contracted where it can be.
fn with_new_body(alloc: Global, a: &Typ, body: Term) -> Mem<Option<Term>>
    ensures ok { IfOk result (λ r. r ≡ Some (eta a.now body)) }
    ensures memory { IfErr result (λ w. w ≡ Memory) }
{
    Ok(Some(eta(alloc, a, body)?))
}

/// The abstraction over a new type, contracted where it can be; the body may be new.
fn with_new_typ(alloc: Global, a: &Typ, body: Option<Term>, old: &Shared<Term>) -> Mem<Option<Term>>
    ensures ok { IfOk result (λ r. r ≡ Some (eta a.now (unwrap_or body old.now))) }
    ensures memory { IfErr result (λ w. w ≡ Memory) }
{
    let body = new_or_copy(body, old.get())?;
    with_new_body(alloc, a, body)
}

/// An abstraction where the type or the body may be new; the old one can't be contracted, and the new one is where it
/// can be. Fails where memory runs out.
pub fn with_body(
    alloc: Global,
    a: &Typ,
    typ: Option<Typ>,
    body: Option<Term>,
    old: &Shared<Term>,
) -> Mem<Option<Term>>
    ensures ok { contracts old.now ≡ false → IfOk result (λ r. unwrap_or r (lam a.now old.now) ≡ eta (unwrap_or typ a.now) (unwrap_or body old.now)) }
    ensures memory { IfErr result (λ w. w ≡ Memory) }
{
    match typ {
        None => match body {
            None => Ok(None),
            Some(body) => with_new_body(alloc, a, body),
        },
        Some(typ) => with_new_typ(alloc, &typ, body, old),
    }
}

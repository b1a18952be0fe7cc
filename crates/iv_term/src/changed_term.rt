//! Heads and terms whose parts may be new; what is old is shared.
ghost use Rattle.std.specs.Prelude.{◌≡◌, IfOk, IfErr};
ghost use Rattle.std.specs.Option.{unwrap_or};
ghost use Rattle.iv_term.specs.declared.typ.Typ.{Typ};
ghost use Rattle.iv_term.specs.declared.term.Head.TheVariants.{Const, Free, Schematic};
ghost use Rattle.iv_term.specs.declared.term.Term.TheBlock.{Spine};
ghost use Rattle.iv_term.specs.Term.{tm_cons};
ghost use Rattle.iv_text.specs.declared.want.Want.TheVariants.{Memory};

use crate::term::{Head, Term, Terms};
use crate::typ::Typ;
use iv_shared::Shared;
use iv_text::{Mem, Name, Text, new_or_copy, new_or_shared};
use std::alloc::Global;

/// A constant at its new type, if it has one. Fails where memory runs out.
pub fn constant(c: &Text, typ: Option<Typ>) -> Mem<Option<Head>>
    ensures ok { IfOk result (λ r. (a : Typ) → unwrap_or r (Const c.now a) ≡ Const c.now (unwrap_or typ a)) }
    ensures memory { IfErr result (λ w. w ≡ Memory) }
{
    match typ {
        None => Ok(None),
        Some(typ) => Ok(Some(Head::Const(c.copy()?, typ))),
    }
}

/// A free variable at its new type, if it has one. Fails where memory runs out.
pub fn free(x: &Name, typ: Option<Typ>) -> Mem<Option<Head>>
    ensures ok { IfOk result (λ r. (a : Typ) → unwrap_or r (Free x.now a) ≡ Free x.now (unwrap_or typ a)) }
    ensures memory { IfErr result (λ w. w ≡ Memory) }
{
    match typ {
        None => Ok(None),
        Some(typ) => Ok(Some(Head::Free(x.copy()?, typ))),
    }
}

/// A schematic variable at its new type, if it has one. Fails where memory runs out.
pub fn schematic(x: &Name, typ: Option<Typ>) -> Mem<Option<Head>>
    ensures ok { IfOk result (λ r. (a : Typ) → unwrap_or r (Schematic x.now a) ≡ Schematic x.now (unwrap_or typ a)) }
    ensures memory { IfErr result (λ w. w ≡ Memory) }
{
    match typ {
        None => Ok(None),
        Some(typ) => Ok(Some(Head::Schematic(x.copy()?, typ))),
    }
}

/// A head with arguments where either may be new. Fails where memory runs out.
pub fn with_args(
    h: &Head,
    head: Option<Head>,
    args: Option<Terms>,
    old: &Terms,
) -> Mem<Option<Term>>
    ensures ok { IfOk result (λ r. unwrap_or r (Spine h.now old.now) ≡ Spine (unwrap_or head h.now) (unwrap_or args old.now)) }
    ensures memory { IfErr result (λ w. w ≡ Memory) }
{
    match head {
        None => match args {
            None => Ok(None),
            Some(args) => Ok(Some(Term::Spine(h.copy()?, args))),
        },
        Some(head) => {
            let args = new_or_copy(args, old)?;
            Ok(Some(Term::Spine(head, args)))
        }
    }
}

/// A list of terms where the first or the rest may be new. Fails where memory runs out.
pub fn with_parts(
    alloc: Global,
    first: Option<Term>,
    old_first: &Shared<Term>,
    rest: Option<Terms>,
    old_rest: &Shared<Terms>,
) -> Mem<Option<Terms>>
    ensures ok { IfOk result (λ r. unwrap_or r (tm_cons old_first.now old_rest.now)
        ≡ tm_cons (unwrap_or first old_first.now) (unwrap_or rest old_rest.now)) }
    ensures memory { IfErr result (λ w. w ≡ Memory) }
{
    match first {
        None => with_rest(alloc, old_first, rest, old_rest),
        Some(first) => {
            let first = Shared::new(alloc, first)?;
            let rest = new_or_shared(alloc, rest, old_rest)?;
            Ok(Some(Terms::Cons(first, rest)))
        }
    }
}

/// A list of terms where the rest may be new.
fn with_rest(
    alloc: Global,
    first: &Shared<Term>,
    rest: Option<Terms>,
    old_rest: &Shared<Terms>,
) -> Mem<Option<Terms>>
    ensures ok { IfOk result (λ r. unwrap_or r (tm_cons first.now old_rest.now) ≡ tm_cons first.now (unwrap_or rest old_rest.now)) }
    ensures memory { IfErr result (λ w. w ≡ Memory) }
{
    match rest {
        None => Ok(None),
        Some(rest) => {
            let rest = Shared::new(alloc, rest)?;
            Ok(Some(Terms::Cons(first.share()?, rest)))
        }
    }
}

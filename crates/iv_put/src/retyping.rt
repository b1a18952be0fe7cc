//! Types put in a term.
ghost use Rattle.std.specs.Prelude.{◌≡◌, IfOk, IfErr};
ghost use Rattle.std.specs.Option.{unwrap_or};
ghost use Rattle.iv_term.specs.declared.typ.Types.{Types};
ghost use Rattle.iv_term.specs.Term.{lam};
ghost use Rattle.iv_text.specs.declared.want.Want.TheVariants.{Memory};
ghost use Rattle.iv_hsub.specs.Typing.{type_of, IsTerm, HasType};
ghost use Rattle.iv_subst.specs.TySubst.{put_typ, put_typs, at};
ghost use Rattle.iv_hsub.specs.Retype.{retype_head, retype, retype_all};
ghost use Rattle.iv_put.specs.Subst.{by_map};

use iv_shared::Shared;
use iv_subst::TySubst;
use iv_term::changed_term::{constant, free, schematic, with_args, with_parts};
use iv_term::{Head, Term, Terms, Typ};
use iv_text::{Mem, new_or_shared};
use std::alloc::Global;

/// A term with the map's types in the place of the schematic variables in its types. What holds no variable of the map
/// is shared. Of a term the result is one, of its type with the map's types put in. Fails where memory runs out.
pub fn retype(alloc: Global, t: &Term, types: &TySubst) -> Mem<Term>
    ensures ok { IfOk result (λ r. r ≡ retype (by_map types.now) t.now) }
    ensures typed { (bounds : Types) → IsTerm bounds t.now
        → IfOk result (λ r. HasType (put_typs (at types.now) bounds) (put_typ (at types.now) (type_of bounds t.now)) r) }
    ensures memory { IfErr result (λ w. w ≡ Memory) }
{
    match changed(alloc, t, types)? {
        None => t.copy(),
        Some(term) => Ok(term),
    }
}

/// The type under the map, or `None` where it stays.
pub(crate) fn changed_typ(alloc: Global, a: &Typ, types: &TySubst) -> Mem<Option<Typ>>
    ensures ok { IfOk result (λ r. unwrap_or r a.now ≡ put_typ (at types.now) a.now) }
    ensures memory { IfErr result (λ w. w ≡ Memory) }
{
    if types.len() == 0 {
        return Ok(None);
    }
    let typ = types.apply_typ(alloc, a)?;
    if typ.is(a) { Ok(None) } else { Ok(Some(typ)) }
}

/// The head under the map, or `None` where it stays.
pub(crate) fn changed_head(alloc: Global, h: &Head, types: &TySubst) -> Mem<Option<Head>>
    ensures ok { IfOk result (λ r. unwrap_or r h.now ≡ retype_head (by_map types.now) h.now) }
    ensures memory { IfErr result (λ w. w ≡ Memory) }
{
    match h {
        Head::Const(c, a) => {
            let typ = changed_typ(alloc, a, types)?;
            constant(c, typ)
        }
        Head::Free(x, a) => {
            let typ = changed_typ(alloc, a, types)?;
            free(x, typ)
        }
        Head::Schematic(x, a) => {
            let typ = changed_typ(alloc, a, types)?;
            schematic(x, typ)
        }
        Head::Bound(_n) => Ok(None),
    }
}

/// The term under the map, or `None` where it stays.
#[cycle(changed)]
fn changed(alloc: Global, t: &Term, types: &TySubst) -> Mem<Option<Term>>
    ensures ok { IfOk result (λ r. unwrap_or r t.now ≡ retype (by_map types.now) t.now) }
    ensures memory { IfErr result (λ w. w ≡ Memory) }
{
    match t {
        Term::Abs(a, b) => {
            let body = changed(alloc, b.get(), types)?;
            let typ = changed_typ(alloc, a, types)?;
            with_body(alloc, a, typ, body, b)
        }
        Term::Spine(h, ts) => {
            let args = changed_all(alloc, ts, types)?;
            let head = changed_head(alloc, h, types)?;
            with_args(h, head, args, ts)
        }
    }
}

/// The same of some terms.
#[cycle(changed)]
fn changed_all(alloc: Global, ts: &Terms, types: &TySubst) -> Mem<Option<Terms>>
    ensures ok { IfOk result (λ r. unwrap_or r ts.now ≡ retype_all (by_map types.now) ts.now) }
    ensures memory { IfErr result (λ w. w ≡ Memory) }
{
    match ts {
        Terms::Nil => Ok(None),
        Terms::Cons(t, rest) => {
            let first = changed(alloc, t.get(), types)?;
            let more = changed_all(alloc, rest.get(), types)?;
            with_parts(alloc, first, t, more, rest)
        }
    }
}

/// An abstraction where the type or the body may be new.
fn with_body(
    alloc: Global,
    a: &Typ,
    typ: Option<Typ>,
    body: Option<Term>,
    old: &Shared<Term>,
) -> Mem<Option<Term>>
    ensures ok { IfOk result (λ r. unwrap_or r (lam a.now old.now) ≡ lam (unwrap_or typ a.now) (unwrap_or body old.now)) }
    ensures memory { IfErr result (λ w. w ≡ Memory) }
{
    match typ {
        None => match body {
            None => Ok(None),
            Some(body) => {
                let body = Shared::new(alloc, body)?;
                Ok(Some(Term::Abs(a.copy()?, body)))
            }
        },
        Some(typ) => {
            let body = new_or_shared(alloc, body, old)?;
            Ok(Some(Term::Abs(typ, body)))
        }
    }
}

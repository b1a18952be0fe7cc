//! A substitution applied to a term.
ghost use Rattle.std.specs.Prelude.{◌≡◌, IfOk, IfErr, MatchOption};
ghost use Rattle.std.specs.Option.{unwrap_or};
ghost use Rattle.iv_term.specs.declared.typ.Types.{Types};
ghost use Rattle.iv_term.specs.declared.term.Terms.{Terms};
ghost use Rattle.iv_term.specs.declared.term.Term.TheBlock.{Spine};
ghost use Rattle.iv_text.specs.declared.want.Want.TheVariants.{Memory};
ghost use Rattle.iv_hsub.specs.Typing.{type_of, IsTerm, HasType};
ghost use Rattle.iv_hsub.specs.Hsub.{happ};
ghost use Rattle.iv_subst.specs.TySubst.{put_typ, put_typs, at};
ghost use Rattle.iv_hsub.specs.Retype.{retype_head, retype_all};
ghost use Rattle.iv_hsub.specs.Inst.{inst_head, inst_all};
ghost use Rattle.iv_put.specs.Subst.{by_map, values, applied, CanApply};
ghost use Rattle.iv_hsub.specs.Open.{IsOpenTerm, IsShort, AreShort};

use crate::retyping::{changed_head, changed_typ};
use crate::substitution::Subst;
use iv_hsub::contraction::with_body;
use iv_hsub::happ;
use iv_term::changed_term::{with_args, with_parts};
use iv_term::{Head, Term, Terms, Typ};
use iv_text::{Mem, new_or_copy};
use std::alloc::Global;

impl Subst {
    /// A term with the types put in it, and then all terms at once, by hereditary substitution: where each value has
    /// its variable's type, the result is a term, of the term's type with types put in. What isn't touched is shared.
    /// Fails where memory runs out.
    pub fn apply(&self, alloc: Global, t: &Term) -> Mem<Term>
        requires { IsOpenTerm t.now }
        ensures ok { IfOk result (λ r. r ≡ applied self.now t.now) }
        ensures typed { (bounds : Types) → IsTerm bounds t.now → CanApply self.now t.now
            → IfOk result (λ r. HasType (put_typs (at self.now.0) bounds) (put_typ (at self.now.0) (type_of bounds t.now)) r) }
        ensures memory { IfErr result (λ w. w ≡ Memory) }
    {
        match changed(alloc, t, self)? {
            None => t.copy(),
            Some(term) => Ok(term),
        }
    }

    /// The value that is put for a head, with the head's type, if there is one.
    fn value_at<'a>(&'a self, h: &'a Head) -> Option<(&'a Term, &'a Typ)>
        ensures { MatchOption result
            ((us : Terms) → inst_head (values self.now) (retype_head (by_map self.now.0) h.now) us ≡ Spine (retype_head (by_map self.now.0) h.now) us)
            (λ r. (us : Terms) → inst_head (values self.now) (retype_head (by_map self.now.0) h.now) us ≡ happ (put_typ (at self.now.0) r.1.now) r.0.now us) }
    {
        match h {
            Head::Const(_c, _a) => None,
            Head::Free(_x, _a) => None,
            Head::Schematic(x, a) => match self.get(x) {
                None => None,
                Some(value) => Some((value, a)),
            },
            Head::Bound(_n) => None,
        }
    }
}

/// The term under the substitution, or `None` where it stays.
#[cycle(changed)]
fn changed(alloc: Global, t: &Term, s: &Subst) -> Mem<Option<Term>>
    ensures ok { IsShort t.now → IfOk result (λ r. unwrap_or r t.now ≡ applied s.now t.now) }
    ensures memory { IfErr result (λ w. w ≡ Memory) }
{
    match t {
        Term::Abs(a, b) => {
            let body = changed(alloc, b.get(), s)?;
            let typ = changed_typ(alloc, a, s.types())?;
            with_body(alloc, a, typ, body, b)
        }
        Term::Spine(h, ts) => {
            let args = changed_all(alloc, ts, s)?;
            with_head(alloc, h, args, ts, s)
        }
    }
}

/// The same of some terms.
#[cycle(changed)]
fn changed_all(alloc: Global, ts: &Terms, s: &Subst) -> Mem<Option<Terms>>
    ensures ok { AreShort ts.now → IfOk result (λ r. unwrap_or r ts.now ≡ inst_all (values s.now) (retype_all (by_map s.now.0) ts.now)) }
    ensures memory { IfErr result (λ w. w ≡ Memory) }
{
    match ts {
        Terms::Nil => Ok(None),
        Terms::Cons(t, rest) => {
            let first = changed(alloc, t.get(), s)?;
            let more = changed_all(alloc, rest.get(), s)?;
            with_parts(alloc, first, t, more, rest)
        }
    }
}

/// A head under the substitution with arguments that may be new.
fn with_head(
    alloc: Global,
    h: &Head,
    args: Option<Terms>,
    old: &Terms,
    s: &Subst,
) -> Mem<Option<Term>>
    ensures ok { IfOk result (λ r. unwrap_or r (Spine h.now old.now) ≡ inst_head (values s.now) (retype_head (by_map s.now.0) h.now) (unwrap_or args old.now)) }
    ensures memory { IfErr result (λ w. w ≡ Memory) }
{
    match s.value_at(h) {
        None => {
            let head = changed_head(alloc, h, s.types())?;
            with_args(h, head, args, old)
        }
        Some((value, a)) => {
            let typ = s.types().apply_typ(alloc, a)?;
            let args = new_or_copy(args, old)?;
            let term = happ(alloc, value, &typ, &args)?;
            Ok(Some(term))
        }
    }
}

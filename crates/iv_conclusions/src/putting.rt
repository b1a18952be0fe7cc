//! An instance put in terms and in hypotheses.
ghost use Rattle.std.specs.Prelude.{◌≡◌, MatchOption, IfOk, IfErr};
ghost use Rattle.std.specs.Option.{unwrap_or};
ghost use Rattle.iv_term.specs.declared.term.Terms.{Terms};
ghost use Rattle.iv_term.specs.declared.term.Term.TheBlock.{Spine};
ghost use Rattle.iv_text.specs.declared.want.Want.TheVariants.{Memory};
ghost use Rattle.iv_hsub.specs.Hsub.{happ};
ghost use Rattle.iv_hsub.specs.Retype.{retype_head};
ghost use Rattle.iv_hsub.specs.Inst.{inst_head};
ghost use Rattle.iv_hsub.specs.Open.{IsOpenTerm, IsShort, AreShort, AreOpenTerms};
ghost use Rattle.iv_rules.specs.Instance.{types_of, values_of, instanced, instanced_all, instanced_hyps};

use crate::types::changed_head;
use iv_hsub::contraction::with_body;
use iv_hsub::happ;
use iv_rules::Instance;
use iv_term::changed_term::{with_args, with_parts};
use iv_term::{Head, Term, Terms, Typ};
use iv_text::{Mem, new_or_copy};
use std::alloc::Global;

/// A term with the types of an instance put in it, and then all its terms at once, by hereditary substitution. What
/// isn't touched is shared. Fails where memory runs out.
pub fn instanced(alloc: Global, s: &Instance, t: &Term) -> Mem<Term>
    requires { IsOpenTerm t.now }
    ensures ok { IfOk result (λ r. r ≡ instanced s.now t.now) }
    ensures memory { IfErr result (λ w. w ≡ Memory) }
{
    match changed(alloc, t, s)? {
        None => t.copy(),
        Some(term) => Ok(term),
    }
}

/// Hypotheses under an instance; those that become equal are kept once, at the first place. Fails where memory runs
/// out.
pub fn instanced_hyps(alloc: Global, s: &Instance, hs: &Terms) -> Mem<Terms>
    requires { AreOpenTerms hs.now }
    ensures ok { IfOk result (λ r. r ≡ instanced_hyps s.now hs.now) }
    ensures memory { IfErr result (λ w. w ≡ Memory) }
{
    match changed_all(alloc, hs, s)? {
        None => Terms::Nil.union(alloc, hs),
        Some(terms) => Terms::Nil.union(alloc, &terms),
    }
}

/// The term under an instance, or `None` where it stays.
#[cycle(changed)]
fn changed(alloc: Global, t: &Term, s: &Instance) -> Mem<Option<Term>>
    ensures ok { IsShort t.now → IfOk result (λ r. unwrap_or r t.now ≡ instanced s.now t.now) }
    ensures memory { IfErr result (λ w. w ≡ Memory) }
{
    match t {
        Term::Abs(a, b) => {
            let body = changed(alloc, b.get(), s)?;
            let typ = crate::types::changed(alloc, a, s)?;
            with_body(alloc, a, typ, body, b)
        }
        Term::Spine(h, ts) => {
            let args = changed_all(alloc, ts, s)?;
            with_head(alloc, h, args, ts, s)
        }
    }
}

/// The same of some terms.
#[cycle(changed)]
fn changed_all(alloc: Global, ts: &Terms, s: &Instance) -> Mem<Option<Terms>>
    ensures ok { AreShort ts.now → IfOk result (λ r. unwrap_or r ts.now ≡ instanced_all s.now ts.now) }
    ensures memory { IfErr result (λ w. w ≡ Memory) }
{
    match ts {
        Terms::Nil => Ok(None),
        Terms::Cons(t, rest) => {
            let first = changed(alloc, t.get(), s)?;
            let more = changed_all(alloc, rest.get(), s)?;
            with_parts(alloc, first, t, more, rest)
        }
    }
}

/// A head at its type under an instance, with arguments that may be new, and the value that is put for it, if there is
/// one, at the arguments.
fn with_head(
    alloc: Global,
    h: &Head,
    args: Option<Terms>,
    old: &Terms,
    s: &Instance,
) -> Mem<Option<Term>>
    ensures ok { IfOk result (λ r. unwrap_or r (Spine h.now old.now) ≡ inst_head (values_of s.now) (retype_head (types_of s.now) h.now) (unwrap_or args old.now)) }
    ensures memory { IfErr result (λ w. w ≡ Memory) }
{
    let head = changed_head(alloc, h, s)?;
    match value_at(s, new_or_old(&head, h)) {
        None => with_args(h, head, args, old),
        Some((value, a)) => {
            let args = new_or_copy(args, old)?;
            let term = happ(alloc, value, a, &args)?;
            Ok(Some(term))
        }
    }
}

/// The new head, if there is one, or the old one.
fn new_or_old<'a>(new: &'a Option<Head>, old: &'a Head) -> &'a Head
    ensures { result.now ≡ unwrap_or new.now old.now }
{
    match new {
        None => old,
        Some(head) => head,
    }
}

/// The value that is put for a head, with the head's type, if there is one.
fn value_at<'a>(s: &'a Instance, h: &'a Head) -> Option<(&'a Term, &'a Typ)>
    ensures { MatchOption result
        ((us : Terms) → inst_head (values_of s.now) h.now us ≡ Spine h.now us)
        (λ r. (us : Terms) → inst_head (values_of s.now) h.now us ≡ happ r.1.now r.0.now us) }
{
    match h {
        Head::Const(_c, _a) => None,
        Head::Free(x, a) => match s.frees.get(x, a) {
            None => None,
            Some(value) => Some((value, a)),
        },
        Head::Schematic(x, a) => match s.schematics.get(x, a) {
            None => None,
            Some(value) => Some((value, a)),
        },
        Head::Bound(_n) => None,
    }
}

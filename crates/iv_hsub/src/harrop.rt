//! Hereditary Harrop form, in which each `!!` stands in front of `==>`: [`hhf`] brings a term into it.
ghost use Rattle.std.specs.Prelude.{◌≡◌, false, ◌&&◌, ◌++◌, IfOk, IfErr, IsTrue, ◌↔◌};
ghost use Rattle.iv_term.specs.Term.{tm_cons, imp, is_nil, is_one};
ghost use Rattle.iv_term.specs.declared.term.Head.TheVariants.{Bound};
ghost use Rattle.iv_term.specs.declared.typ.Typ.{Typ};
ghost use Rattle.iv_term.specs.declared.term.Head.{Head};
ghost use Rattle.iv_term.specs.declared.term.Term.{Term};
ghost use Rattle.iv_term.specs.declared.term.Terms.{Terms};
ghost use Rattle.iv_term.specs.declared.term.Term.TheBlock.{Spine};
ghost use Rattle.iv_text.specs.declared.want.Want.TheVariants.{Memory};
ghost use Rattle.iv_term.specs.Typ.{prop, fun};
ghost use Rattle.iv_hsub.specs.Typing.{dom};
ghost use Rattle.iv_hsub.specs.Index.{index, raise, eta};
ghost use Rattle.iv_hsub.specs.Hsub.{append};
ghost use Rattle.iv_hsub.specs.Hhf.{all_typ, all_head, is_imp, is_all, bound_type, one, expand, all_of, push_expanded, push, push_args, push_under, hhf_spine, hhf, hhf_all, is_quantified};

use crate::contraction::{contracts, eta};
use crate::raising::{raise, raise_all, raise_head};
use crate::substitution::{append, spine};
use crate::typing::{cod, dom, is_fun};
use iv_term::{Head, Term, Terms, Typ};
use iv_text::Mem;
use std::alloc::Global;

/// Whether a type is that of functions to propositions.
fn is_predicate(a: &Typ) -> bool
    ensures { IsTrue result ↔ (a.now ≡ fun (dom a.now) prop) }
{
    is_fun(a) && cod(a).is_prop()
}

/// Whether a type is that of a `!!`.
fn is_all_typ(a: &Typ) -> bool
    ensures { IsTrue result ↔ (a.now ≡ all_typ (dom (dom a.now))) }
{
    is_predicate(a) && is_predicate(dom(a))
}

/// Whether a head is `!!`: the constant of that name and of such a type. Takes no memory.
pub fn is_all(h: &Head) -> bool
    ensures { result ≡ is_all h.now }
{
    match h {
        Head::Const(c, a) => c.is_chars(&['!', '!']) && is_all_typ(a),
        Head::Free(_x, _a) => false,
        Head::Schematic(_x, _a) => false,
        Head::Bound(_n) => false,
    }
}

/// Whether a head is `!!`, and there is no term.
fn is_all_alone(h: &Head, ts: &Terms) -> bool
    ensures { result ≡ (is_all h.now && is_nil ts.now) }
{
    is_all(h) && ts.is_nil()
}

/// One term as a list.
fn one(alloc: Global, t: Term) -> Mem<Terms>
    ensures ok { IfOk result (λ r. r ≡ one t) }
    ensures memory { IfErr result (λ w. w ≡ Memory) }
{
    Terms::cons(alloc, t, Terms::Nil)
}

/// A bound variable as a list of one term.
fn index(alloc: Global, n: u32) -> Mem<Terms>
    ensures ok { IfOk result (λ r. r ≡ one (index n)) }
    ensures memory { IfErr result (λ w. w ≡ Memory) }
{
    one(alloc, Term::Spine(Head::Bound(n), Terms::Nil))
}

/// An abstraction over propositions, contracted where it can be.
fn over_prop(alloc: Global, body: Term) -> Mem<Term>
    ensures ok { IfOk result (λ r. r ≡ eta prop body) }
    ensures memory { IfErr result (λ w. w ≡ Memory) }
{
    let prop = Typ::prop(alloc)?;
    let made = eta(alloc, &prop, body);
    drop(prop);
    made
}

/// An abstraction over the type that a `!!` binds over, contracted where it can be.
fn bound_body(alloc: Global, h: &Head, body: Term) -> Mem<Term>
    ensures ok { IfOk result (λ r. r ≡ eta (bound_type h.now) body) }
    ensures memory { IfErr result (λ w. w ≡ Memory) }
{
    match h {
        Head::Const(_c, a) => eta(alloc, dom(dom(a)), body),
        _ => over_prop(alloc, body),
    }
}

/// `!!x. body`, where the head is that `!!`.
fn all_of(alloc: Global, h: &Head, body: Term) -> Mem<Term>
    ensures ok { IfOk result (λ r. r ≡ all_of h.now body) }
    ensures memory { IfErr result (λ w. w ≡ Memory) }
{
    let body = bound_body(alloc, h, body)?;
    let args = one(alloc, body)?;
    Ok(Term::Spine(h.copy()?, args))
}

/// The body of the abstraction that a head with arguments is for short.
fn expand(alloc: Global, h: &Head, ts: &Terms) -> Mem<Term>
    ensures ok { IfOk result (λ r. r ≡ expand h.now ts.now) }
    ensures memory { IfErr result (λ w. w ≡ Memory) }
{
    let args = raise_all(alloc, ts, 1, 0)?;
    let head = raise_head(h, 1, 0)?;
    let last = index(alloc, 0)?;
    Ok(Term::Spine(head, append(alloc, &args, last)?))
}

/// The variable around the innermost, at that one.
fn outer_at_inner(alloc: Global) -> Mem<Term>
    ensures ok { IfOk result (λ r. r ≡ Spine (Bound 1) (one (index 0))) }
    ensures memory { IfErr result (λ w. w ≡ Memory) }
{
    Ok(Term::Spine(Head::Bound(1), index(alloc, 0)?))
}

/// A premise before that.
fn imp_outer_at_inner(alloc: Global, premise: &Term) -> Mem<Term>
    ensures ok { IfOk result (λ r. r ≡ imp premise.now (Spine (Bound 1) (one (index 0)))) }
    ensures memory { IfErr result (λ w. w ≡ Memory) }
{
    let conclusion = outer_at_inner(alloc)?;
    let made = Term::imp(alloc, premise, &conclusion);
    drop(conclusion);
    made
}

/// A premise before a variable at another one, which are both under one more binder.
fn before_variable(alloc: Global, premise: &Term) -> Mem<Term>
    ensures ok { IfOk result (λ r. r ≡ imp (raise 1 0 premise.now) (Spine (Bound 1) (one (index 0)))) }
    ensures memory { IfErr result (λ w. w ≡ Memory) }
{
    let premise = raise(alloc, premise, 1, 0)?;
    let made = imp_outer_at_inner(alloc, &premise);
    drop(premise);
    made
}

/// A premise before a head with arguments and the innermost variable behind them; where the head alone is
/// `!!`, one more quantifier comes out.
fn push_expanded(alloc: Global, h: &Head, ts: &Terms, premise: &Term) -> Mem<Term>
    ensures ok { IfOk result (λ r. r ≡ push_expanded premise.now h.now ts.now) }
    ensures memory { IfErr result (λ w. w ≡ Memory) }
{
    if is_all_alone(h, ts) {
        let body = before_variable(alloc, premise)?;
        all_of(alloc, h, body)
    } else {
        let b = expand(alloc, h, ts)?;
        let made = Term::imp(alloc, premise, &b);
        drop(b);
        made
    }
}

/// A premise before a head with arguments.
fn plain_imp(alloc: Global, h: &Head, ts: &Terms, premise: &Term) -> Mem<Term>
    ensures ok { IfOk result (λ r. r ≡ imp premise.now (Spine h.now ts.now)) }
    ensures memory { IfErr result (λ w. w ≡ Memory) }
{
    let conclusion = spine(h, ts)?;
    let made = Term::imp(alloc, premise, &conclusion);
    drop(conclusion);
    made
}

/// `premise ==> b`, with each `!!` that `b` begins with in front.
#[cycle(push)]
fn push(alloc: Global, b: &Term, premise: &Term) -> Mem<Term>
    ensures ok { IfOk result (λ r. r ≡ push premise.now b.now) }
    ensures memory { IfErr result (λ w. w ≡ Memory) }
{
    match b {
        Term::Abs(_c, _t) => Term::imp(alloc, premise, b),
        Term::Spine(h, ts) => push_args(alloc, ts, h, premise),
    }
}

/// The same where `b` is a head with arguments.
#[cycle(push)]
fn push_args(alloc: Global, ts: &Terms, h: &Head, premise: &Term) -> Mem<Term>
    ensures ok { IfOk result (λ r. r ≡ push_args premise.now h.now ts.now) }
    ensures memory { IfErr result (λ w. w ≡ Memory) }
{
    match ts {
        Terms::Nil => plain_imp(alloc, h, ts, premise),
        Terms::Cons(t, rest) => {
            if !is_all_alone(h, rest.get()) {
                return plain_imp(alloc, h, ts, premise);
            }
            let up = raise(alloc, premise, 1, 0)?;
            let pushed = push_under(alloc, t.get(), &up);
            drop(up);
            let body = pushed?;
            all_of(alloc, h, body)
        }
    }
}

/// The same where `b` is a term at the innermost variable.
#[cycle(push)]
fn push_under(alloc: Global, t: &Term, premise: &Term) -> Mem<Term>
    ensures ok { IfOk result (λ r. r ≡ push_under premise.now t.now) }
    ensures memory { IfErr result (λ w. w ≡ Memory) }
{
    match t {
        Term::Abs(_c, b) => push(alloc, b.get(), premise),
        Term::Spine(h, ts) => push_expanded(alloc, h, ts, premise),
    }
}

/// A head with arguments that have the form.
fn hhf_spine(alloc: Global, h: &Head, args: Terms) -> Mem<Term>
    ensures ok { IfOk result (λ r. r ≡ hhf_spine h.now args) }
    ensures memory { IfErr result (λ w. w ≡ Memory) }
{
    let t = Term::Spine(h.copy()?, args);
    if t.is_implication() {
        let made = push(alloc, t.consequent(), t.antecedent());
        drop(t);
        made
    } else {
        Ok(t)
    }
}

/// A term with each `!!` moved in front of `==>`.
#[cycle(hhf)]
fn moved(alloc: Global, t: &Term) -> Mem<Term>
    ensures ok { IfOk result (λ r. r ≡ hhf t.now) }
    ensures memory { IfErr result (λ w. w ≡ Memory) }
{
    match t {
        Term::Abs(c, b) => {
            let body = moved(alloc, b.get())?;
            eta(alloc, c, body)
        }
        Term::Spine(h, ts) => {
            let args = all_moved(alloc, ts)?;
            hhf_spine(alloc, h, args)
        }
    }
}

/// The same of some terms.
#[cycle(hhf)]
fn all_moved(alloc: Global, ts: &Terms) -> Mem<Terms>
    ensures ok { IfOk result (λ r. r ≡ hhf_all ts.now) }
    ensures memory { IfErr result (λ w. w ≡ Memory) }
{
    match ts {
        Terms::Nil => Ok(Terms::Nil),
        Terms::Cons(t, rest) => {
            let more = all_moved(alloc, rest.get())?;
            let first = moved(alloc, t.get())?;
            Terms::cons(alloc, first, more)
        }
    }
}

/// Whether a term is `!!` with its one argument. Takes no memory.
pub fn is_quantified(t: &Term) -> bool
    ensures same { result ≡ is_quantified t.now }
    ensures quantified { IsTrue result ↔ ((a : Typ) × ((f : Term) × (t.now ≡ Spine (all_head a) (one f)))) }
{
    is_all_at_one(t)
}

/// The same, as the test computes.
fn is_all_at_one(t: &Term) -> bool
    ensures { result ≡ is_quantified t.now }
{
    match t {
        Term::Abs(_c, _b) => false,
        Term::Spine(h, ts) => match ts {
            Terms::Nil => false,
            Terms::Cons(_t, rest) => is_all_alone(h, rest.get()),
        },
    }
}

/// Whether a term is an implication of a `!!`.
fn concludes_quantified(t: &Term) -> bool
    ensures { result ≡ false → (h : Head) (ts : Terms) → t.now ≡ Spine h ts → hhf_spine h ts ≡ Spine h ts }
{
    if !t.is_implication() {
        return false;
    }
    is_quantified(t.consequent())
}

/// Whether a term is seen to have the form and to be eta-short.
#[cycle(is_plain)]
fn is_plain(t: &Term) -> bool
    ensures { IsTrue result → hhf t.now ≡ t.now }
{
    match t {
        Term::Abs(_c, b) => {
            if contracts(b.get()) {
                return false;
            }
            is_plain(b.get())
        }
        Term::Spine(_h, ts) => {
            if concludes_quantified(t) {
                return false;
            }
            are_plain(ts)
        }
    }
}

/// The same of some terms.
#[cycle(is_plain)]
fn are_plain(ts: &Terms) -> bool
    ensures { IsTrue result → hhf_all ts.now ≡ ts.now }
{
    match ts {
        Terms::Nil => true,
        Terms::Cons(t, rest) => {
            if !is_plain(t.get()) {
                return false;
            }
            are_plain(rest.get())
        }
    }
}

/// The term with each `!!` moved in front of `==>`, everywhere in it. A term that has the form already is given back
/// shared. Fails where memory runs out.
pub fn hhf(alloc: Global, t: &Term) -> Mem<Term>
    ensures ok { IfOk result (λ r. r ≡ hhf t.now) }
    ensures memory { IfErr result (λ w. w ≡ Memory) }
{
    if is_plain(t) {
        t.copy()
    } else {
        moved(alloc, t)
    }
}

//! The conditions of the rules, each tested by the call of the rule's name with `can_` in front.
ghost use Rattle.std.specs.Prelude.{◌≡◌, true, ◌++◌, IfOk, IfErr, IsTrue, ◌↔◌, is_some};
ghost use Rattle.iv_text.specs.declared.want.Want.TheVariants.{Memory};
ghost use Rattle.iv_rules.specs.Equality.{IsEquation};
ghost use Rattle.iv_rules.specs.Sequent.{IsClosed, IsProp};
ghost use Rattle.iv_rules.specs.Conditions.{CanImpElim, CanAllIntr, CanAllElim, CanTrans, CanComb, CanAbs, CanEqIntr, CanEqElim, CanConv, CanInst};
ghost use Rattle.iv_sig.specs.Table.{look};

use crate::thm::Thm;
use iv_conclusions::eigenvariable::any_has_named;
use iv_conclusions::terms::is_equation;
use iv_conclusions::{are_values_typed, conditions, is_fresh_for};
use iv_hsub::{is_prop, is_term};
use iv_rules::Instance;
use iv_sig::Sig;
use iv_term::{Term, Typ, Types};
use iv_text::{Mem, Name, Text};
use std::alloc::Global;

/// Whether no free variable of this name, of whatever type, stands in a hypothesis.
fn is_fresh(name: &Name, t: &Thm) -> bool
    ensures { IsTrue result ↔ CanAllIntr name.now t.now.hyps }
{
    !any_has_named(t.hyps(), name)
}

impl Thm {
    /// Whether the condition of [`axiom`](Thm::axiom) holds. Takes no memory.
    pub fn can_axiom(sig: &Sig, name: &Text) -> bool
        ensures { IsTrue result ↔ (is_some (look sig.now.axioms name.now) ≡ true) }
    {
        sig.axioms().has(name)
    }

    /// Whether the condition of [`assume`](Thm::assume) holds. Takes no memory.
    pub fn can_assume(prop: &Term) -> bool
        ensures { IsTrue result ↔ IsProp prop.now }
    {
        is_prop(prop)
    }

    /// Whether the condition of [`imp_intr`](Thm::imp_intr) holds. Takes no memory.
    pub fn can_imp_intr(prop: &Term, _t: &Thm) -> bool
        ensures { IsTrue result ↔ IsProp prop.now }
    {
        is_prop(prop)
    }

    /// Whether the condition of [`imp_elim`](Thm::imp_elim) holds. Takes no memory.
    pub fn can_imp_elim(major: &Thm, minor: &Thm) -> bool
        ensures { IsTrue result ↔ CanImpElim major.now.prop minor.now.prop }
    {
        conditions::is_implication_from(major.prop(), minor.prop())
    }

    /// Whether the condition of [`all_intr`](Thm::all_intr) holds: no free variable of this name, of whatever type, stands in
    /// a hypothesis. Takes no memory.
    pub fn can_all_intr(name: &Name, _typ: &Typ, t: &Thm) -> bool
        ensures { IsTrue result ↔ CanAllIntr name.now t.now.hyps }
    {
        is_fresh(name, t)
    }

    /// Whether the condition of [`all_elim`](Thm::all_elim) holds. Takes no memory.
    pub fn can_all_elim(value: &Term, t: &Thm) -> bool
        ensures { IsTrue result ↔ CanAllElim value.now t.now.prop }
    {
        conditions::is_for_all(value, t.prop())
    }

    /// Whether the condition of [`refl`](Thm::refl) holds. Takes no memory.
    pub fn can_refl(value: &Term) -> bool
        ensures { IsTrue result ↔ IsClosed value.now }
    {
        is_term(value, &Types::Nil)
    }

    /// Whether the condition of [`sym`](Thm::sym) holds. Takes no memory.
    pub fn can_sym(t: &Thm) -> bool
        ensures { IsTrue result ↔ IsEquation t.now.prop }
    {
        is_equation(t.prop())
    }

    /// Whether the condition of [`trans`](Thm::trans) holds. Takes no memory.
    pub fn can_trans(a: &Thm, b: &Thm) -> bool
        ensures { IsTrue result ↔ CanTrans a.now.prop b.now.prop }
    {
        conditions::are_linked(a.prop(), b.prop())
    }

    /// Whether the condition of [`comb`](Thm::comb) holds. Takes no memory.
    pub fn can_comb(f: &Thm, x: &Thm) -> bool
        ensures { IsTrue result ↔ CanComb f.now.prop x.now.prop }
    {
        conditions::are_congruent(f.prop(), x.prop())
    }

    /// Whether the condition of [`abs`](Thm::abs) holds: it is an equation, and no free variable of this name, of whatever
    /// type, stands in a hypothesis. Takes no memory.
    pub fn can_abs(name: &Name, _typ: &Typ, t: &Thm) -> bool
        ensures { IsTrue result ↔ CanAbs name.now t.now.hyps t.now.prop }
    {
        is_equation(t.prop()) && is_fresh(name, t)
    }

    /// Whether the condition of [`eq_intr`](Thm::eq_intr) holds. Takes no memory.
    pub fn can_eq_intr(a: &Thm, b: &Thm) -> bool
        ensures { IsTrue result ↔ CanEqIntr a.now.prop b.now.prop }
    {
        conditions::are_converse(a.prop(), b.prop())
    }

    /// Whether the condition of [`eq_elim`](Thm::eq_elim) holds. Takes no memory.
    pub fn can_eq_elim(eq: &Thm, t: &Thm) -> bool
        ensures { IsTrue result ↔ CanEqElim eq.now.prop t.now.prop }
    {
        conditions::is_equal_to(eq.prop(), t.prop())
    }

    /// Whether the condition of [`conv`](Thm::conv) holds. Fails where memory runs out.
    pub fn can_conv(alloc: Global, prop: &Term, t: &Thm) -> Mem<bool>
        ensures ok { IfOk result (λ b. IsTrue b ↔ CanConv prop.now t.now.prop) }
        ensures memory { IfErr result (λ w. w ≡ Memory) }
    {
        conditions::have_one_form(alloc, prop, t.prop())
    }

    /// Whether the condition of [`inst`](Thm::inst) holds. Takes no memory.
    pub fn can_inst(s: &Instance, t: &Thm) -> bool
        ensures { IsTrue result ↔ CanInst s.now t.now.hyps }
    {
        are_values_typed(s) && is_fresh_for(s, t.hyps())
    }
}

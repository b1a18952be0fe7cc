//! Theorems, and the fifteen rules that make them.
ghost use Rattle.std.specs.Prelude.{◌≡◌, true, IfOk, IfErr, Some, is_some};
ghost use Rattle.iv_term.specs.declared.term.Term.{Term};
ghost use Rattle.iv_term.specs.declared.term.Terms.{Terms};
ghost use Rattle.iv_rules.specs.declared.derivation.Derivation.{Derivation};
ghost use Rattle.iv_term.specs.Typ.{prop, fun};
ghost use Rattle.iv_term.specs.Hyps.{IsDistinctTerms};
ghost use Rattle.iv_text.specs.declared.want.Want.TheVariants.{Memory};
ghost use Rattle.iv_term.specs.declared.typ.Typ.TheBlock.{Nil as no_types};
ghost use Rattle.iv_hsub.specs.Typing.{type_of};
ghost use Rattle.iv_hsub.specs.Hhf.{one};
ghost use Rattle.iv_rules.specs.declared.derivation.Derivation.TheBlock.{Axiom, Assume, Refl};
ghost use Rattle.iv_rules.specs.Derivation.{imp_intr, imp_elim, all_intr, all_elim, eq_sym, eq_trans, comb, abs, eq_intr, eq_elim, conv, inst};
ghost use Rattle.iv_rules.specs.Equality.{lhs, rhs, side_type, IsEquation, predicate};
ghost use Rattle.iv_rules.specs.Sequent.{IsClosed, IsProp, AreProps};
ghost use Rattle.iv_rules.specs.Conditions.{CanImpElim, CanAllIntr, CanAllElim, CanTrans, CanComb, CanAbs, CanEqIntr, CanEqElim, CanConv, CanInst};
ghost use Rattle.iv_rules.specs.Conclusions.{by_axiom, by_assume, by_imp_intr, by_imp_elim, by_all_intr, by_all_elim, by_refl, by_sym, by_trans, by_comb, by_abs, by_eq_intr, by_eq_elim, by_conv, by_inst};
ghost use Rattle.iv_rules.specs.Rules.{Shows, Kept, said};
ghost use Rattle.iv_sig.specs.Table.{look};

use crate::derivations::{self, shared};
use iv_conclusions::{are_keys_apart, conclusions, instanced, instanced_hyps};
use iv_rules::{Derivation, Instance, steps};
use iv_shared::Shared;
use iv_sig::Sig;
use iv_term::{Term, Terms, Typ, both};
use iv_text::{Mem, Name, Text};
use std::alloc::Global;
use std::marker::Model;

/// A theorem: hypotheses, the proposition that follows from them, and the derivation that concludes it.
pub struct Thm {
    hyps: Terms,
    prop: Term,
    derivation: Shared<Derivation>,
}

// By hand, so that a caller's proof has one call where a theorem ends.
impl Drop for Thm {
    fn drop(self) {
        let Thm {
            hyps,
            prop,
            derivation,
        } = self;
        drop(hyps);
        drop(prop);
        drop(derivation);
    }
}

impl Model for Thm {
    ghost use Rattle.std.specs.Coded.{codes};
    ghost use Rattle.iv_term.specs.contracts.term.Term as a_term;
    ghost use Rattle.iv_term.specs.contracts.term.Terms as some_terms;
    ghost use Rattle.iv_rules.specs.contracts.derivation.Derivation as a_tree;
    ghost use Rattle.iv_rules.specs.Rules.{Proved, Shows};

    ghost Value = { Proved };

    ghost coded = { Prim.hlevel (codes, a_term.the_row.coded, some_terms.the_row.coded, a_tree.the_row.coded) };

    ghost view = { λ t. record { hyps = t.hyps; prop = t.prop; derivation = t.derivation } };

    ghost invariant = { λ t. Shows t.derivation t.hyps t.prop };
}

impl Thm {
    /// The hypotheses.
    pub fn hyps(&self) -> &Terms
        ensures same { result.now ≡ self.now.hyps }
        ensures props { AreProps self.now.hyps }
        ensures distinct { IsDistinctTerms self.now.hyps }
    {
        iv_rules::laws::conclusions_are_sequents();
        &self.hyps
    }

    /// The proposition.
    pub fn prop(&self) -> &Term
        ensures same { result.now ≡ self.now.prop }
        ensures prop { IsProp self.now.prop }
    {
        iv_rules::laws::conclusions_are_sequents();
        &self.prop
    }

    /// The derivation, which concludes the theorem's own sequent.
    pub fn derivation(&self) -> &Derivation
        ensures same { result.now ≡ self.now.derivation }
        ensures kept { Kept self.now }
    {
        self.derivation.get()
    }

    /// An equal theorem, which shares its parts. Takes no memory; fails where a count of owners is full.
    pub fn copy(&self) -> Mem<Thm>
        ensures ok { IfOk result (λ t. t ≡ self.now) }
        ensures memory { IfErr result (λ w. w ≡ Memory) }
    {
        let parts = both(self.hyps.copy(), self.prop.copy());
        let ((hyps, prop), derivation) = both(parts, shared(&self.derivation))?;
        Ok(Thm {
            hyps,
            prop,
            derivation,
        })
    }

    /// The theorem of a derivation's sequent.
    fn made(alloc: Global, rule: Derivation, hyps: Terms, prop: Term) -> Mem<Thm>
        requires { Shows rule hyps prop }
        ensures hyps { IfOk result (λ t. t.hyps ≡ hyps) }
        ensures prop { IfOk result (λ t. t.prop ≡ prop) }
        ensures derivation { IfOk result (λ t. t.derivation ≡ rule) }
        ensures memory { IfErr result (λ w. w ≡ Memory) }
    {
        let derivation = Shared::new(alloc, rule)?;
        Ok(Thm {
            hyps,
            prop,
            derivation,
        })
    }

    /// The theorem of what a rule makes: hypotheses, a proposition and a derivation that is its own, each where memory
    /// sufficed. Each rule ends here.
    fn by(alloc: Global, rule: Mem<Derivation>, hyps: Mem<Terms>, prop: Mem<Term>) -> Mem<Thm>
        requires { IfOk rule (λ d. IfOk hyps (λ hs. IfOk prop (λ p. Shows d hs p))) }
        ensures hyps { (hs : Terms) → IfOk hyps (λ h. h ≡ hs) → IfOk result (λ t. t.hyps ≡ hs) }
        ensures prop { (p : Term) → IfOk prop (λ q. q ≡ p) → IfOk result (λ t. t.prop ≡ p) }
        ensures derivation { (d : Derivation) → IfOk rule (λ r. r ≡ d) → IfOk result (λ t. t.derivation ≡ d) }
        ensures memory { IfErr rule (λ w. w ≡ Memory) → IfErr hyps (λ w. w ≡ Memory) → IfErr prop (λ w. w ≡ Memory)
            → IfErr result (λ w. w ≡ Memory) }
    {
        let ((hyps, prop), rule) = both(both(hyps, prop), rule)?;
        Thm::made(alloc, rule, hyps, prop)
    }
}

impl Thm {
    /// ```text
    ///
    /// ------
    ///  |- A
    /// ```
    ///
    /// for an axiom A that is declared by this name. Fails where memory runs out.
    pub fn axiom(alloc: Global, sig: &Sig, name: &Text) -> Mem<Thm>
        requires { is_some (look sig.now.axioms name.now) ≡ true }
        ensures hyps { IfOk result (λ r. r.hyps ≡ (by_axiom r.prop).hyps) }
        ensures prop { IfOk result (λ r. look sig.now.axioms name.now ≡ Some r.prop) }
        ensures derivation { IfOk result (λ r. r.derivation ≡ Axiom name.now r.prop) }
        ensures memory { IfErr result (λ w. w ≡ Memory) }
    {
        steps::propositions_are_shown();
        match sig.axioms().get(name) {
            None => unreachable!(),
            Some(axiom) => {
                let prop = axiom.copy();
                let rule = derivations::axiom(name, axiom);
                Thm::by(alloc, rule, Ok(Terms::Nil), prop)
            }
        }
    }

    /// ```text
    ///
    /// --------
    ///  A |- A
    /// ```
    ///
    /// for a proposition A. Fails where memory runs out.
    pub fn assume(alloc: Global, prop: &Term) -> Mem<Thm>
        requires { IsProp prop.now }
        ensures hyps { IfOk result (λ r. r.hyps ≡ (by_assume prop.now).hyps) }
        ensures prop { IfOk result (λ r. r.prop ≡ (by_assume prop.now).prop) }
        ensures derivation { IfOk result (λ r. r.derivation ≡ Assume prop.now) }
        ensures memory { IfErr result (λ w. w ≡ Memory) }
    {
        steps::propositions_are_shown();
        let hyps = Terms::only(alloc, prop);
        let concluded = prop.copy();
        let rule = derivations::assume(prop);
        Thm::by(alloc, rule, hyps, concluded)
    }

    /// ```text
    ///      H |- B
    /// ----------------
    /// H - A |- A ==> B
    /// ```
    ///
    /// for a proposition A, which is taken out of the hypotheses. Fails where memory runs out.
    pub fn imp_intr(alloc: Global, prop: &Term, t: &Thm) -> Mem<Thm>
        requires { IsProp prop.now }
        ensures hyps { IfOk result (λ r. r.hyps ≡ (by_imp_intr prop.now (said t.now)).hyps) }
        ensures prop { IfOk result (λ r. r.prop ≡ (by_imp_intr prop.now (said t.now)).prop) }
        ensures derivation { IfOk result (λ r. r.derivation ≡ imp_intr prop.now t.now.derivation) }
        ensures memory { IfErr result (λ w. w ≡ Memory) }
    {
        steps::propositions_are_shown();
        let hyps = t.hyps.without(alloc, prop);
        let concluded = Term::imp(alloc, prop, &t.prop);
        let rule = derivations::imp_intr(prop, &t.derivation);
        Thm::by(alloc, rule, hyps, concluded)
    }

    /// ```text
    /// H |- A ==> B    K |- A
    /// ----------------------
    ///     H and K |- B
    /// ```
    ///
    /// Fails where memory runs out.
    pub fn imp_elim(alloc: Global, major: &Thm, minor: &Thm) -> Mem<Thm>
        requires { CanImpElim major.now.prop minor.now.prop }
        ensures hyps { IfOk result (λ r. r.hyps ≡ (by_imp_elim (said major.now) (said minor.now)).hyps) }
        ensures prop { IfOk result (λ r. r.prop ≡ (by_imp_elim (said major.now) (said minor.now)).prop) }
        ensures derivation { IfOk result (λ r. r.derivation ≡ imp_elim major.now.derivation minor.now.derivation) }
        ensures memory { IfErr result (λ w. w ≡ Memory) }
    {
        steps::propositions_are_shown();
        let hyps = major.hyps.union(alloc, &minor.hyps);
        let prop = major.prop.consequent().copy();
        let rule = derivations::imp_elim(&major.derivation, &minor.derivation);
        Thm::by(alloc, rule, hyps, prop)
    }

    /// ```text
    ///   H |- B
    /// -----------
    /// H |- !!x. B
    /// ```
    ///
    /// for the variable x of this name and type, where no free variable of this name, of whatever type, stands in H;
    /// one of the same name and another type stays as it is in B. Fails where memory runs out.
    pub fn all_intr(alloc: Global, name: &Name, typ: &Typ, t: &Thm) -> Mem<Thm>
        requires { CanAllIntr name.now t.now.hyps }
        ensures hyps { IfOk result (λ r. r.hyps ≡ (by_all_intr name.now typ.now (said t.now)).hyps) }
        ensures prop { IfOk result (λ r. r.prop ≡ (by_all_intr name.now typ.now (said t.now)).prop) }
        ensures derivation { IfOk result (λ r. r.derivation ≡ all_intr name.now typ.now t.now.derivation) }
        ensures memory { IfErr result (λ w. w ≡ Memory) }
    {
        steps::quantified_are_shown();
        let hyps = t.hyps.copy();
        let prop = conclusions::quantified(alloc, name, typ, &t.prop);
        let rule = derivations::all_intr(name, typ, &t.derivation);
        Thm::by(alloc, rule, hyps, prop)
    }

    /// ```text
    /// H |- !!x. B
    /// -----------
    ///  H |- B(v)
    /// ```
    ///
    /// for a value v of x's type, without loose indices. Fails where memory runs out.
    pub fn all_elim(alloc: Global, value: &Term, t: &Thm) -> Mem<Thm>
        requires { CanAllElim value.now t.now.prop }
        ensures hyps { IfOk result (λ r. r.hyps ≡ (by_all_elim value.now (said t.now)).hyps) }
        ensures prop { IfOk result (λ r. r.prop ≡ (by_all_elim value.now (said t.now)).prop) }
        ensures derivation { IfOk result (λ r. r.derivation ≡ all_elim value.now t.now.derivation) }
        ensures memory { IfErr result (λ w. w ≡ Memory) }
    {
        steps::quantified_are_shown();
        let hyps = t.hyps.copy();
        let prop = conclusions::at_value(alloc, value, &t.prop);
        let rule = derivations::all_elim(value, &t.derivation);
        Thm::by(alloc, rule, hyps, prop)
    }

    /// ```text
    ///
    /// ----------
    ///  |- v == v
    /// ```
    ///
    /// for a term v without loose indices. Fails where memory runs out.
    pub fn refl(alloc: Global, value: &Term) -> Mem<Thm>
        requires { IsClosed value.now }
        ensures hyps { IfOk result (λ r. r.hyps ≡ (by_refl value.now).hyps) }
        ensures prop { IfOk result (λ r. r.prop ≡ (by_refl value.now).prop) }
        ensures derivation { IfOk result (λ r. r.derivation ≡ Refl value.now) }
        ensures memory { IfErr result (λ w. w ≡ Memory) }
    {
        steps::equations_are_shown();
        let prop = conclusions::reflexive(alloc, value);
        let rule = derivations::refl(value);
        Thm::by(alloc, rule, Ok(Terms::Nil), prop)
    }

    /// ```text
    /// H |- s == t
    /// -----------
    /// H |- t == s
    /// ```
    ///
    /// Fails where memory runs out.
    pub fn sym(alloc: Global, t: &Thm) -> Mem<Thm>
        requires { IsEquation t.now.prop }
        ensures hyps { IfOk result (λ r. r.hyps ≡ (by_sym (said t.now)).hyps) }
        ensures prop { IfOk result (λ r. r.prop ≡ (by_sym (said t.now)).prop) }
        ensures derivation { IfOk result (λ r. r.derivation ≡ eq_sym t.now.derivation) }
        ensures memory { IfErr result (λ w. w ≡ Memory) }
    {
        steps::equations_are_shown();
        let hyps = t.hyps.copy();
        let prop = conclusions::turned(alloc, &t.prop);
        let rule = derivations::sym(&t.derivation);
        Thm::by(alloc, rule, hyps, prop)
    }

    /// ```text
    /// H |- s == t    K |- t == u
    /// --------------------------
    ///     H and K |- s == u
    /// ```
    ///
    /// Fails where memory runs out.
    pub fn trans(alloc: Global, a: &Thm, b: &Thm) -> Mem<Thm>
        requires { CanTrans a.now.prop b.now.prop }
        ensures hyps { IfOk result (λ r. r.hyps ≡ (by_trans (said a.now) (said b.now)).hyps) }
        ensures prop { IfOk result (λ r. r.prop ≡ (by_trans (said a.now) (said b.now)).prop) }
        ensures derivation { IfOk result (λ r. r.derivation ≡ eq_trans a.now.derivation b.now.derivation) }
        ensures memory { IfErr result (λ w. w ≡ Memory) }
    {
        steps::equations_are_shown();
        let hyps = a.hyps.union(alloc, &b.hyps);
        let prop = conclusions::joined(alloc, &a.prop, &b.prop);
        let rule = derivations::trans(&a.derivation, &b.derivation);
        Thm::by(alloc, rule, hyps, prop)
    }

    /// ```text
    /// H |- f == g    K |- x == y
    /// --------------------------
    ///    H and K |- f x == g y
    /// ```
    ///
    /// where f and g take arguments of x's type. Fails where memory runs out.
    pub fn comb(alloc: Global, f: &Thm, x: &Thm) -> Mem<Thm>
        requires { CanComb f.now.prop x.now.prop }
        ensures hyps { IfOk result (λ r. r.hyps ≡ (by_comb (said f.now) (said x.now)).hyps) }
        ensures prop { IfOk result (λ r. r.prop ≡ (by_comb (said f.now) (said x.now)).prop) }
        ensures derivation { IfOk result (λ r. r.derivation ≡ comb f.now.derivation x.now.derivation) }
        ensures memory { IfErr result (λ w. w ≡ Memory) }
    {
        steps::congruences_are_shown();
        let hyps = f.hyps.union(alloc, &x.hyps);
        let prop = conclusions::applied(alloc, &f.prop, &x.prop);
        let rule = derivations::comb(&f.derivation, &x.derivation);
        Thm::by(alloc, rule, hyps, prop)
    }

    /// ```text
    ///       H |- s == t
    /// ------------------------
    /// H |- (%x. s) == (%x. t)
    /// ```
    ///
    /// for the variable x of this name and type, where no free variable of this name, of whatever type, stands in H;
    /// one of the same name and another type stays as it is in s and t. Fails where memory runs out.
    pub fn abs(alloc: Global, name: &Name, typ: &Typ, t: &Thm) -> Mem<Thm>
        requires { CanAbs name.now t.now.hyps t.now.prop }
        ensures hyps { IfOk result (λ r. r.hyps ≡ (by_abs name.now typ.now (said t.now)).hyps) }
        ensures prop { IfOk result (λ r. r.prop ≡ (by_abs name.now typ.now (said t.now)).prop) }
        ensures derivation { IfOk result (λ r. r.derivation ≡ abs name.now typ.now t.now.derivation) }
        ensures memory { IfErr result (λ w. w ≡ Memory) }
    {
        steps::congruences_are_shown();
        let hyps = t.hyps.copy();
        let prop = conclusions::abstracted(alloc, name, typ, &t.prop);
        let rule = derivations::abs(name, typ, &t.derivation);
        Thm::by(alloc, rule, hyps, prop)
    }

    /// ```text
    /// H |- A ==> B    K |- B ==> A
    /// ----------------------------
    ///      H and K |- A == B
    /// ```
    ///
    /// Fails where memory runs out.
    pub fn eq_intr(alloc: Global, a: &Thm, b: &Thm) -> Mem<Thm>
        requires { CanEqIntr a.now.prop b.now.prop }
        ensures hyps { IfOk result (λ r. r.hyps ≡ (by_eq_intr (said a.now) (said b.now)).hyps) }
        ensures prop { IfOk result (λ r. r.prop ≡ (by_eq_intr (said a.now) (said b.now)).prop) }
        ensures derivation { IfOk result (λ r. r.derivation ≡ eq_intr a.now.derivation b.now.derivation) }
        ensures memory { IfErr result (λ w. w ≡ Memory) }
    {
        steps::equations_are_shown();
        let hyps = a.hyps.union(alloc, &b.hyps);
        let prop = conclusions::equivalent(alloc, &a.prop);
        let rule = derivations::eq_intr(&a.derivation, &b.derivation);
        Thm::by(alloc, rule, hyps, prop)
    }

    /// ```text
    /// H |- A == B    K |- A
    /// ---------------------
    ///     H and K |- B
    /// ```
    ///
    /// Fails where memory runs out.
    pub fn eq_elim(alloc: Global, eq: &Thm, t: &Thm) -> Mem<Thm>
        requires { CanEqElim eq.now.prop t.now.prop }
        ensures hyps { IfOk result (λ r. r.hyps ≡ (by_eq_elim (said eq.now) (said t.now)).hyps) }
        ensures prop { IfOk result (λ r. r.prop ≡ (by_eq_elim (said eq.now) (said t.now)).prop) }
        ensures derivation { IfOk result (λ r. r.derivation ≡ eq_elim eq.now.derivation t.now.derivation) }
        ensures memory { IfErr result (λ w. w ≡ Memory) }
    {
        steps::equations_are_shown();
        let hyps = eq.hyps.union(alloc, &t.hyps);
        let prop = eq.prop.consequent().copy();
        let rule = derivations::eq_elim(&eq.derivation, &t.derivation);
        Thm::by(alloc, rule, hyps, prop)
    }

    /// ```text
    /// H |- A
    /// ------
    /// H |- B
    /// ```
    ///
    /// for a proposition B that has one form with A, with each `!!` in front of `==>`. Fails where memory runs out.
    pub fn conv(alloc: Global, prop: &Term, t: &Thm) -> Mem<Thm>
        requires { CanConv prop.now t.now.prop }
        ensures hyps { IfOk result (λ r. r.hyps ≡ (by_conv prop.now (said t.now)).hyps) }
        ensures prop { IfOk result (λ r. r.prop ≡ (by_conv prop.now (said t.now)).prop) }
        ensures derivation { IfOk result (λ r. r.derivation ≡ conv prop.now t.now.derivation) }
        ensures memory { IfErr result (λ w. w ≡ Memory) }
    {
        steps::propositions_are_shown();
        let hyps = t.hyps.copy();
        let concluded = prop.copy();
        let rule = derivations::conv(prop, &t.derivation);
        Thm::by(alloc, rule, hyps, concluded)
    }

    /// ```text
    ///    H |- A
    /// ------------
    /// H(s) |- A(s)
    /// ```
    ///
    /// for types and terms put for variables, all at once, where each term has its variable's type, and no type
    /// variable or free variable that is replaced stands in H. Hypotheses that become equal are kept once. Fails where
    /// memory runs out.
    pub fn inst(alloc: Global, s: &Instance, t: &Thm) -> Mem<Thm>
        requires { CanInst s.now t.now.hyps }
        ensures hyps { IfOk result (λ r. r.hyps ≡ (by_inst s.now (said t.now)).hyps) }
        ensures prop { IfOk result (λ r. r.prop ≡ (by_inst s.now (said t.now)).prop) }
        ensures derivation { IfOk result (λ r. r.derivation ≡ inst s.now t.now.derivation) }
        ensures memory { IfErr result (λ w. w ≡ Memory) }
    {
        steps::instances_are_shown();
        are_keys_apart(s);
        let hyps = instanced_hyps(alloc, s, t.hyps());
        let prop = instanced(alloc, s, t.prop());
        let rule = derivations::inst(alloc, s, &t.derivation);
        Thm::by(alloc, rule, hyps, prop)
    }
}

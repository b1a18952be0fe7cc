//! Declarations. Where one is refused, the signature is as before; else it has one entry more, at its end. A refused type or
//! term is dropped by a call, as a drop that isn't written is proved piece by piece at each exit.
ghost use Rattle.std.specs.Prelude.{◌≡◌, true, false, None, Some, IsSome, ◌↔◌, ◌⊎◌, IfErr, IsErrOf, OnOk, OnErr};
ghost use Rattle.iv_sig.specs.Conditions.{IsJudgmentType, IsAxiom};
ghost use Rattle.iv_sig.specs.Fixity.{symbol_of};
ghost use Rattle.iv_sig.specs.Signature.{is_there, can_add_notation, is_taken, with_type, with_const, with_notation, with_judgment, with_axiom};
ghost use Rattle.iv_sig.specs.Table.{look};
ghost use Rattle.iv_sig.specs.declared.error.SigError.TheVariants.{Duplicate, SecondFixity, SecondJudgment, BadJudgment, BadAxiom, Memory};

use crate::conditions::{is_axiom, is_judgment_type};
use crate::error::SigError;
use crate::fixity::Fixity;
use crate::pure::is_pure;
use crate::sig::Sig;
use crate::symbols::{is_delimiter, is_symbol};
use iv_term::{Term, Typ};
use iv_text::Text;
use std::alloc::Global;

impl Sig {
    /// Declares a type with the number of its arguments. `Duplicate` exactly where the name is there; else only
    /// `Memory` may come.
    pub fn add_type(&mut self, alloc: Global, name: Text, arity: u32) -> Result<(), SigError>
        ensures ok { OnOk result (self.new ≡ with_type self.old name arity) }
        ensures same { OnErr result (self.new ≡ self.old) }
        ensures duplicate { IsErrOf result (Duplicate name) ↔ (is_there self.old name ≡ true) }
        ensures other { IfErr result (λ e. (e ≡ Duplicate name) ⊎ (e ≡ Memory)) }
    {
        if self.is_there(&name) {
            return Err(SigError::Duplicate(name));
        }
        self.types.push(alloc, name, arity)?;
        Ok(())
    }

    /// Declares a constant with its type. `Duplicate` exactly where the name is there; else only `Memory` may come.
    pub fn add_const(&mut self, alloc: Global, name: Text, typ: Typ) -> Result<(), SigError>
        ensures ok { OnOk result (self.new ≡ with_const self.old name typ) }
        ensures same { OnErr result (self.new ≡ self.old) }
        ensures duplicate { IsErrOf result (Duplicate name) ↔ (is_there self.old name ≡ true) }
        ensures other { IfErr result (λ e. (e ≡ Duplicate name) ⊎ (e ≡ Memory)) }
    {
        if self.is_there(&name) {
            drop(typ);
            return Err(SigError::Duplicate(name));
        }
        self.consts.push(alloc, name, typ)?;
        Ok(())
    }

    /// Whether a constant may get a notation: it is there, is no Pure constant and has none; the symbol has one or
    /// more characters, none of them a blank or `_`; no priority is above 1000, and that of an infix at most 999.
    /// Takes no memory.
    pub fn can_add_notation(&self, name: &Text, fixity: &Fixity) -> bool
        ensures { result ≡ can_add_notation self.now name.now fixity.now }
    {
        self.has_const(name)
            && !is_pure(name)
            && self.notation(name).is_none()
            && is_symbol(fixity.symbol())
            && fixity.are_priorities()
    }

    /// Gives a constant a notation. `SecondFixity` exactly where the symbol is a delimiter or that of another
    /// notation; else only `Memory` may come.
    pub fn add_notation(
        &mut self,
        alloc: Global,
        name: &Text,
        fixity: Fixity,
    ) -> Result<(), SigError>
        requires { can_add_notation self.old name.now fixity ≡ true }
        ensures ok { OnOk result (self.new ≡ with_notation self.old name.now fixity) }
        ensures same { OnErr result (self.new ≡ self.old) }
        ensures second { IsErrOf result (SecondFixity (symbol_of fixity)) ↔ (is_taken self.old (symbol_of fixity) ≡ true) }
        ensures other { IfErr result (λ e. (e ≡ SecondFixity (symbol_of fixity)) ⊎ (e ≡ Memory)) }
    {
        if is_delimiter(fixity.symbol()) || self.written_by(fixity.symbol()).is_some() {
            return Err(SigError::SecondFixity(fixity.into_symbol()));
        }
        self.notations.push(alloc, name.copy()?, fixity)?;
        Ok(())
    }

    /// Declares a constant as the judgment, where all that may be asked of it holds.
    fn put_judgment(&mut self, alloc: Global, name: Text, typ: Typ) -> Result<(), SigError>
        requires new { is_there self.old name ≡ false }
        requires typed { IsJudgmentType typ }
        ensures ok { OnOk result (self.new ≡ with_judgment self.old name typ) }
        ensures same { OnErr result (self.new ≡ self.old) }
        ensures memory { IfErr result (λ e. e ≡ Memory) }
    {
        let judgment = name.copy()?;
        self.consts.push(alloc, name, typ)?;
        self.judgment = Some(judgment);
        Ok(())
    }

    /// Declares a constant as the judgment. `SecondJudgment` exactly where there is one; else `Duplicate` exactly
    /// where the name is there; else `BadJudgment` exactly where the type isn't `T => prop` with a `T` without type
    /// variables; else only `Memory` may come.
    pub fn set_judgment(&mut self, alloc: Global, name: Text, typ: Typ) -> Result<(), SigError>
        ensures ok { OnOk result (self.new ≡ with_judgment self.old name typ) }
        ensures same { OnErr result (self.new ≡ self.old) }
        ensures second { IsErrOf result SecondJudgment ↔ IsSome self.old.judgment }
        ensures duplicate { IsErrOf result (Duplicate name) ↔ ((self.old.judgment ≡ None) × (is_there self.old name ≡ true)) }
        ensures bad { IsErrOf result BadJudgment ↔ ((self.old.judgment ≡ None) × (is_there self.old name ≡ false) × (IsJudgmentType typ → ⊥)) }
        ensures other { IfErr result (λ e. (e ≡ SecondJudgment) ⊎ ((e ≡ Duplicate name) ⊎ ((e ≡ BadJudgment) ⊎ (e ≡ Memory)))) }
    {
        if self.judgment.is_some() {
            drop(typ);
            return Err(SigError::SecondJudgment);
        }
        if self.is_there(&name) {
            drop(typ);
            return Err(SigError::Duplicate(name));
        }
        if !is_judgment_type(&typ) {
            drop(typ);
            return Err(SigError::BadJudgment);
        }
        self.put_judgment(alloc, name, typ)
    }

    /// Declares an axiom, where all that may be asked of it holds.
    fn put_axiom(&mut self, alloc: Global, name: Text, prop: Term) -> Result<(), SigError>
        requires new { look self.old.axioms name ≡ None }
        requires closed { IsAxiom prop }
        ensures ok { OnOk result (self.new ≡ with_axiom self.old name prop) }
        ensures same { OnErr result (self.new ≡ self.old) }
        ensures memory { IfErr result (λ e. e ≡ Memory) }
    {
        self.axioms.push(alloc, name, prop)?;
        Ok(())
    }

    /// Declares an axiom. `Duplicate` exactly where an axiom has the name; else `BadAxiom` exactly where the term
    /// isn't of type `prop`, or has a loose index or a free variable; else only `Memory` may come.
    pub fn add_axiom(&mut self, alloc: Global, name: Text, prop: Term) -> Result<(), SigError>
        ensures ok { OnOk result (self.new ≡ with_axiom self.old name prop) }
        ensures same { OnErr result (self.new ≡ self.old) }
        ensures duplicate { IsErrOf result (Duplicate name) ↔ IsSome (look self.old.axioms name) }
        ensures bad { IsErrOf result BadAxiom ↔ ((look self.old.axioms name ≡ None) × (IsAxiom prop → ⊥)) }
        ensures other { IfErr result (λ e. (e ≡ Duplicate name) ⊎ ((e ≡ BadAxiom) ⊎ (e ≡ Memory))) }
    {
        if self.axioms.has(&name) {
            drop(prop);
            return Err(SigError::Duplicate(name));
        }
        if !is_axiom(&prop) {
            drop(prop);
            return Err(SigError::BadAxiom);
        }
        self.put_axiom(alloc, name, prop)
    }
}

//! What is declared, and its look-ups.
ghost use Rattle.std.specs.Prelude.{◌≡◌, ◌<◌, [], ◌∷◌, ◌++◌, None, Some, length, is_some, slice_get, All, IfSome, IfOk, IfErr, OnOk, OnErr};
ghost use Rattle.std.specs.Map.Iter.{deref_pair};
ghost use Rattle.std.specs.Option.{option_copied, option_map};
ghost use Rattle.iv_text.specs.declared.want.Want.TheVariants.{Memory};
ghost use Rattle.iv_sig.specs.Conditions.{IsAxiom};
ghost use Rattle.iv_sig.specs.Kept.{IsJudgment, IsSignature, NamesDiffer};
ghost use Rattle.iv_sig.specs.Signature.{pure, by_symbol, is_there};
ghost use Rattle.iv_sig.specs.Table.{look};

use crate::fixity::Fixity;
use crate::notations::Notations;
use crate::pure::{pure_consts, pure_types};
use crate::table::Table;
use iv_term::{Term, Typ};
use iv_text::{Mem, Text};
use std::alloc::Global;
use std::marker::Model;

/// Axioms by name, in order of declaration. Contracts see the list of names and propositions.
pub type Axioms = Table<Term>;

/// A signature: what a theory declares. Contracts see a record of lists in order of declaration.
pub struct Sig {
    pub(crate) types: Table<u32>,
    pub(crate) consts: Table<Typ>,
    pub(crate) notations: Notations,
    pub(crate) judgment: Option<Text>,
    pub(crate) axioms: Axioms,
}

// By hand, so that a caller's proof has one call where a signature ends.
impl Drop for Sig {
    fn drop(self) {
        let Sig {
            types: _types,
            consts: _consts,
            notations: _notations,
            judgment: _judgment,
            axioms: _axioms,
        } = self;
    }
}

impl Model for Sig {
    ghost use Rattle.std.specs.Coded.{codes};
    ghost use Rattle.iv_term.specs.contracts.term.Term as a_term;
    ghost use Rattle.iv_term.specs.contracts.typ.Typ as a_typ;
    ghost use Rattle.iv_sig.specs.contracts.fixity.Fixity as a_fixity;
    ghost use Rattle.iv_sig.specs.Signature.{Signature};

    ghost Value = { Signature };

    ghost coded = { Prim.hlevel (codes, a_term.the_row.coded, a_typ.the_row.coded, a_fixity.the_row.coded) };

    ghost use Rattle.iv_sig.specs.Kept.{IsSignature};

    ghost view = { λ s. record { types = s.types; consts = s.consts; notations = s.notations; judgment = s.judgment; axioms = s.axioms } };

    ghost invariant = { λ s. IsSignature (record { types = s.types; consts = s.consts; notations = s.notations; judgment = s.judgment; axioms = s.axioms }) };
}

/// An equal name, where there is one.
fn copied_name(name: &Option<Text>) -> Mem<Option<Text>>
    ensures ok { IfOk result (λ n. n ≡ name.now) }
    ensures memory { IfErr result (λ w. w ≡ Memory) }
{
    match name {
        None => Ok(None),
        Some(name) => Ok(Some(name.copy()?)),
    }
}

impl Sig {
    /// The types `fun` and `prop`, and the constants `==>`, `!!` and `==`. Fails where memory runs out.
    pub fn new(alloc: Global) -> Mem<Sig>
        ensures ok { IfOk result (λ s. s ≡ pure) }
        ensures memory { IfErr result (λ w. w ≡ Memory) }
    {
        Ok(Sig {
            types: pure_types(alloc)?,
            consts: pure_consts(alloc)?,
            notations: Notations::new(alloc),
            judgment: None,
            axioms: Table::new(alloc),
        })
    }

    /// An equal signature; its parts are shared. Fails where memory runs out.
    pub fn copy(&self, alloc: Global) -> Mem<Sig>
        ensures ok { IfOk result (λ s. s ≡ self.now) }
        ensures memory { IfErr result (λ w. w ≡ Memory) }
    {
        Ok(Sig {
            judgment: copied_name(&self.judgment)?,
            types: self.types.copy(alloc)?,
            consts: self.consts.copy(alloc)?,
            notations: self.notations.copy(alloc)?,
            axioms: self.axioms.copy(alloc)?,
        })
    }
}

impl Sig {
    /// How many types there are.
    pub fn type_count(&self) -> usize
        ensures { result ≡ length self.now.types }
    {
        self.types.len()
    }

    /// A type with the number of its arguments, counted from 0 in order of declaration.
    pub fn type_at(&self, index: usize) -> (&Text, u32)
        requires { index < length self.now.types }
        ensures { slice_get self.now.types index ≡ Some (result.0.now, result.1) }
    {
        let (name, arity) = self.types.at(index);
        (name, *arity)
    }

    /// The number of a type's arguments, where it is there. Takes no memory.
    pub fn arity(&self, name: &Text) -> Option<u32>
        ensures { result ≡ look self.now.types name.now }
    {
        match self.types.get(name) {
            None => None,
            Some(arity) => Some(*arity),
        }
    }

    /// How many constants there are.
    pub fn const_count(&self) -> usize
        ensures { result ≡ length self.now.consts }
    {
        self.consts.len()
    }

    /// A constant with its type, counted from 0 in order of declaration.
    pub fn const_at(&self, index: usize) -> (&Text, &Typ)
        requires { index < length self.now.consts }
        ensures { slice_get self.now.consts index ≡ Some (result.0.now, result.1.now) }
    {
        self.consts.at(index)
    }

    /// The type of a constant, where it is there. Takes no memory.
    pub fn const_typ(&self, name: &Text) -> Option<&Typ>
        ensures { option_copied result ≡ look self.now.consts name.now }
    {
        self.consts.get(name)
    }

    /// Whether a constant is there. Takes no memory.
    pub fn has_const(&self, name: &Text) -> bool
        ensures { result ≡ is_some (look self.now.consts name.now) }
    {
        self.consts.has(name)
    }

    /// Whether a type or a constant has a name. Takes no memory.
    pub fn is_there(&self, name: &Text) -> bool
        ensures { result ≡ is_there self.now name.now }
    {
        self.types.has(name) || self.consts.has(name)
    }

    /// How many constants have a notation.
    pub fn notation_count(&self) -> usize
        ensures { result ≡ length self.now.notations }
    {
        self.notations.len()
    }

    /// A constant with its notation, counted from 0 in order of declaration.
    pub fn notation_at(&self, index: usize) -> (&Text, &Fixity)
        requires { index < length self.now.notations }
        ensures { slice_get self.now.notations index ≡ Some (result.0.now, result.1.now) }
    {
        self.notations.at(index)
    }

    /// The notation of a constant, where it has one. Takes no memory.
    pub fn notation(&self, name: &Text) -> Option<&Fixity>
        ensures { option_copied result ≡ look self.now.notations name.now }
    {
        self.notations.get(name)
    }

    /// The constant that a symbol writes, with its notation, where there is one. Takes no memory.
    pub fn written_by(&self, symbol: &Text) -> Option<(&Text, &Fixity)>
        ensures { option_map deref_pair result ≡ look (by_symbol self.now.notations) symbol.now }
    {
        self.notations.written_by(symbol)
    }

    /// The constant that is the judgment; `None` exactly where none is declared. Its type is `T => prop`.
    pub fn judgment(&self) -> Option<&Text>
        ensures same { option_copied result ≡ self.now.judgment }
        ensures typed { IfSome self.now.judgment (IsJudgment self.now.consts) }
    {
        self.judgment.as_ref()
    }

    /// The axioms. Each is of type `prop`, with no loose index and no free variable.
    pub fn axioms(&self) -> &Axioms
        ensures same { result.now ≡ self.now.axioms }
        ensures closed { All (λ e. IsAxiom e.1) self.now.axioms }
    {
        &self.axioms
    }

    /// A law: what holds of every signature, since declarations alone make it. The Pure types and constants come
    /// first; no name is that of a type and of a constant; each notation is of a constant that isn't of Pure, by a
    /// symbol that is no delimiter; the judgment is a constant of type `T => prop`; each axiom is a proposition
    /// without free variables. No two entries have one name, and no two notations one symbol.
    pub fn is_kept(&self)
        ensures kept { IsSignature self.now }
        ensures names_differ { NamesDiffer self.now }
    {
        self.types.names_differ();
        self.consts.names_differ();
        self.notations.names_differ();
        self.axioms.names_differ();
    }
}

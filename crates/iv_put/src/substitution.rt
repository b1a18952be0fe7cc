//! The substitution: types and terms for schematic variables.
ghost use Rattle.std.specs.Prelude.{◌≡◌, [], ◌∷◌, ◌++◌, ◌<◌, false, None, Some, MatchOption, length, IfOk, IfErr, OnOk, OnErr, slice_get};
ghost use Rattle.std.specs.List.{IsDistinct};
ghost use Rattle.std.specs.Map.{keys_of};
ghost use Rattle.std.specs.Option.{option_copied};
ghost use Rattle.iv_text.specs.Name.{same_name};
ghost use Rattle.iv_term.specs.declared.typ.Typ.TheBlock.{Nil};
ghost use Rattle.iv_text.specs.declared.want.Want.TheVariants.{Memory};
ghost use Rattle.iv_hsub.specs.Typing.{IsTerm, HasType};
ghost use Rattle.iv_put.specs.Subst.{value_of, has_value, AreClosed};

use iv_hsub::type_of;
use iv_map::NameMap;
use iv_subst::TySubst;
use iv_term::{Term, Typ, Types};
use iv_text::{Copied, Mem, Name};
use std::alloc::Global;
use std::marker::Model;

/// A value for a schematic variable, and its type.
#[derive(Drop)]
struct Entry {
    value: Term,
    typ: Typ,
}

impl Copied for Entry {
    fn copied(&self) -> Mem<Entry> {
        let value = self.value.copy()?;
        Ok(Entry {
            value,
            typ: self.typ.copy()?,
        })
    }
}

/// Types and terms that are put for schematic variables. Each value is a term without loose indices, and its type
/// is kept beside it. Contracts see the map of types and the list of the other entries, no two of which have one name.
#[derive(Drop)]
pub struct Subst {
    types: TySubst,
    entries: NameMap<Entry>,
}

impl Model for Subst {
    ghost use Rattle.std.specs.Coded.{codes};
    ghost use Rattle.iv_text.specs.contracts.name.Name as a_name;
    ghost use Rattle.iv_term.specs.contracts.term.Term as a_term;
    ghost use Rattle.iv_subst.specs.contracts.ty_subst.TySubst as a_subst;
    ghost use Rattle.iv_put.specs.Subst.{Substitution};
    ghost use Rattle.iv_put.specs.Entries.{terms_in, AreTyped};

    ghost Value = { Substitution };

    ghost coded = { Prim.hlevel (codes, a_subst.the_row.coded, a_name.the_row.coded, a_term.the_row.coded) };

    ghost view = { λ s. (s.types, terms_in s.entries) };

    ghost invariant = { λ s. AreTyped s.entries };
}

impl Subst {
    /// These types, and no term yet.
    pub fn new(alloc: Global, types: TySubst) -> Subst
        ensures { result ≡ (types, []) }
    {
        Subst {
            types,
            entries: NameMap::new(alloc),
        }
    }

    /// The types.
    pub fn types(&self) -> &TySubst
        ensures { result.now ≡ self.now.0 }
    {
        &self.types
    }

    /// How many variables have a value.
    pub fn len(&self) -> usize
        ensures same { result ≡ length self.now.1 }
        ensures closed { AreClosed self.now.1 }
        ensures apart { IsDistinct same_name (keys_of self.now.1) }
    {
        self.entries.len()
    }

    /// A variable with its value, counted from 0.
    pub fn entry(&self, index: usize) -> (&Name, &Term)
        requires { index < length self.now.1 }
        ensures same { slice_get self.now.1 index ≡ Some (result.0.now, result.1.now) }
        ensures closed { IsTerm Nil result.1.now }
    {
        let (name, entry) = self.entries.entry(index);
        (name, &entry.value)
    }

    /// The value of a variable with its type, where it has one.
    pub(crate) fn lookup(&self, name: &Name) -> Option<(&Term, &Typ)>
        ensures { MatchOption result (value_of self.now.1 name.now ≡ None)
            (λ r. (value_of self.now.1 name.now ≡ Some r.0.now) × HasType Nil r.1.now r.0.now) }
    {
        match self.entries.get(name) {
            None => None,
            Some(entry) => Some((&entry.value, &entry.typ)),
        }
    }

    /// The value of a variable, where it has one. Takes no memory.
    pub fn get(&self, name: &Name) -> Option<&Term>
        ensures { option_copied result ≡ value_of self.now.1 name.now }
    {
        match self.lookup(name) {
            None => None,
            Some((value, _typ)) => Some(value),
        }
    }

    /// Whether a variable has a value. Takes no memory.
    pub fn has(&self, name: &Name) -> bool
        ensures { result ≡ has_value self.now.1 name.now }
    {
        self.get(name).is_some()
    }

    /// Enters a value for a variable that has none: a term without loose indices. Fails where memory runs out, and the
    /// substitution is then as before.
    pub fn push(&mut self, alloc: Global, name: Name, value: Term) -> Mem<()>
        requires new { has_value self.old.1 name ≡ false }
        requires closed { IsTerm Nil value }
        ensures ok { OnOk result (self.new ≡ (self.old.0, self.old.1 ++ (name, value) ∷ [])) }
        ensures err { OnErr result (self.new ≡ self.old) }
        ensures memory { IfErr result (λ w. w ≡ Memory) }
    {
        let typ = type_of(alloc, &value, &Types::Nil)?;
        self.entries.push(name, Entry { value, typ })?;
        Ok(())
    }

    /// An equal substitution; its types and terms are shared. Fails where memory runs out.
    pub fn copy(&self, alloc: Global) -> Mem<Subst>
        ensures ok { IfOk result (λ s. s ≡ self.now) }
        ensures memory { IfErr result (λ w. w ≡ Memory) }
    {
        let types = self.types.copy(alloc)?;
        Ok(Subst {
            types,
            entries: self.entries.copy(alloc)?,
        })
    }
}

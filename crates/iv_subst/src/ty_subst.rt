ghost use Rattle.std.specs.Prelude.{◌≡◌, [], ◌∷◌, ◌++◌, None, Some, ◌<◌, length, IfOk, IfErr, OnOk, OnErr, slice_get};
ghost use Rattle.std.specs.List.{IsDistinct};
ghost use Rattle.std.specs.Map.{keys_of};
ghost use Rattle.std.specs.Option.{option_copied};
ghost use Rattle.iv_text.specs.Name.{same_name};
ghost use Rattle.iv_text.specs.declared.want.Want.TheVariants.{Memory};
ghost use Rattle.iv_subst.specs.TySubst.{seek, has};

use iv_map::NameMap;
use iv_term::Typ;
use iv_text::{Mem, Name};
use std::alloc::Global;
use std::marker::Model;

/// A finite map from schematic type variables to types, in the order in which they were entered. Contracts see the
/// list of its entries; no two have one variable.
#[derive(Drop)]
pub struct TySubst {
    entries: NameMap<Typ>,
}

impl Model for TySubst {
    ghost use Rattle.std.specs.Coded.{codes};
    ghost use Rattle.iv_text.specs.contracts.name.Name as a_name;
    ghost use Rattle.iv_term.specs.contracts.typ.Typ as a_typ;
    ghost use Rattle.iv_subst.specs.TySubst.{TyMap};

    ghost Value = { TyMap };

    ghost coded = { Prim.hlevel (codes, a_name.the_row.coded, a_typ.the_row.coded) };

    ghost view = { λ s. s.entries };
}

impl TySubst {
    /// The empty map, which changes nothing.
    pub fn new(alloc: Global) -> TySubst
        ensures { result ≡ [] }
    {
        TySubst {
            entries: NameMap::new(alloc),
        }
    }

    /// How many variables have an entry.
    pub fn len(&self) -> usize
        ensures same { result ≡ length self.now }
        ensures apart { IsDistinct same_name (keys_of self.now) }
    {
        self.entries.len()
    }

    /// An entry, counted from 0.
    pub fn entry(&self, index: usize) -> (&Name, &Typ)
        requires { index < length self.now }
        ensures { slice_get self.now index ≡ Some (result.0.now, result.1.now) }
    {
        self.entries.entry(index)
    }

    /// The type that is put for a variable, where it has an entry. Takes no memory.
    pub fn get(&self, name: &Name) -> Option<&Typ>
        ensures { option_copied result ≡ seek self.now name.now }
    {
        self.entries.get(name)
    }

    /// Whether a variable has an entry. Takes no memory.
    pub fn has(&self, name: &Name) -> bool
        ensures { result ≡ has self.now name.now }
    {
        self.get(name).is_some()
    }

    /// Enters a type for a variable that has no entry. Fails where memory runs out, and the map is then as before.
    pub fn push(&mut self, name: Name, typ: Typ) -> Mem<()>
        requires { seek self.old name ≡ None }
        ensures ok { OnOk result (self.new ≡ self.old ++ (name, typ) ∷ []) }
        ensures err { OnErr result (self.new ≡ self.old) }
        ensures memory { IfErr result (λ w. w ≡ Memory) }
    {
        self.entries.push(name, typ)
    }

    /// An equal map; its types are shared. Fails where memory runs out.
    pub fn copy(&self, alloc: Global) -> Mem<TySubst>
        ensures ok { IfOk result (λ s. s ≡ self.now) }
        ensures memory { IfErr result (λ w. w ≡ Memory) }
    {
        Ok(TySubst {
            entries: self.entries.copy(alloc)?,
        })
    }
}

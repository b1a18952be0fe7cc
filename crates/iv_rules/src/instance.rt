//! What the rule of instantiation puts for variables.
ghost use Rattle.std.specs.Prelude.{◌≡◌, [], ◌∷◌, ◌++◌, ◌<◌, None, Some, length, IfOk, IfErr, OnOk, OnErr, slice_get};
ghost use Rattle.std.specs.List.{IsDistinct};
ghost use Rattle.std.specs.Map.{keys_of};
ghost use Rattle.std.specs.Option.{option_copied};
ghost use Rattle.std.specs.Str.{bytes_eq};
ghost use Rattle.iv_text.specs.Name.{same_name};
ghost use Rattle.iv_text.specs.declared.want.Want.TheVariants.{Memory};
ghost use Rattle.iv_rules.specs.Entries.{same_var, fixed_at, schematic_at, term_at};

use iv_list::Items;
use iv_term::{Term, Typ};
use iv_text::{Mem, Name, Text};
use std::alloc::Global;
use std::marker::Model;

/// Types for fixed type variables. Contracts see the list of its entries; no two have one key.
pub struct FixedTypes {
    entries: Items<(Text, Typ)>,
}

/// Types for schematic type variables. Contracts see the list of its entries; no two have one key.
pub struct SchematicTypes {
    entries: Items<(Name, Typ)>,
}

/// Terms for variables of one kind, each of which is a name and a type. Contracts see the list of its entries; no two
/// have one key.
pub struct VarTerms {
    entries: Items<((Name, Typ), Term)>,
}

/// Terms for free variables.
pub type FreeTerms = VarTerms;

/// Terms for schematic variables.
pub type SchematicTerms = VarTerms;

/// What is put for the variables of a theorem: types first, and then terms, keyed by name and by the type after that,
/// all at once.
pub struct Instance {
    /// Types for fixed type variables.
    pub fixed: FixedTypes,
    /// Types for schematic type variables.
    pub types: SchematicTypes,
    /// Terms for free variables.
    pub frees: FreeTerms,
    /// Terms for schematic variables.
    pub schematics: SchematicTerms,
}

// By hand, here and below, so that a caller's proof has one call where a list of entries or an instance ends.
impl Drop for FixedTypes {
    fn drop(self) {
        let FixedTypes { entries: _entries } = self;
    }
}

impl Drop for SchematicTypes {
    fn drop(self) {
        let SchematicTypes { entries: _entries } = self;
    }
}

impl Drop for VarTerms {
    fn drop(self) {
        let VarTerms { entries: _entries } = self;
    }
}

impl Drop for Instance {
    fn drop(self) {
        let Instance {
            fixed: _fixed,
            types: _types,
            frees: _frees,
            schematics: _schematics,
        } = self;
    }
}

impl Model for FixedTypes {
    ghost use Rattle.std.specs.Coded.{coded×, coded_list, coded_ℕ};
    ghost use Rattle.std.specs.List.{IsDistinct};
    ghost use Rattle.std.specs.Map.{keys_of};
    ghost use Rattle.std.specs.Str.{bytes_eq};
    ghost use Rattle.iv_term.specs.contracts.typ.Typ as a_typ;
    ghost use Rattle.iv_rules.specs.Entries.{FixedMap};

    ghost Value = { FixedMap };

    ghost coded = { coded_list (coded× (coded_list coded_ℕ) a_typ.the_row.coded) };

    ghost view = { λ s. s.entries };

    ghost invariant = { λ s. IsDistinct bytes_eq (keys_of s.entries) };
}

impl Model for SchematicTypes {
    ghost use Rattle.std.specs.Coded.{coded×, coded_list};
    ghost use Rattle.std.specs.List.{IsDistinct};
    ghost use Rattle.std.specs.Map.{keys_of};
    ghost use Rattle.iv_text.specs.Name.{same_name};
    ghost use Rattle.iv_text.specs.contracts.name.Name as a_name;
    ghost use Rattle.iv_term.specs.contracts.typ.Typ as a_typ;
    ghost use Rattle.iv_rules.specs.Entries.{SchematicMap};

    ghost Value = { SchematicMap };

    ghost coded = { coded_list (coded× a_name.the_row.coded a_typ.the_row.coded) };

    ghost view = { λ s. s.entries };

    ghost invariant = { λ s. IsDistinct same_name (keys_of s.entries) };
}

impl Model for VarTerms {
    ghost use Rattle.std.specs.Coded.{coded×, coded_list};
    ghost use Rattle.std.specs.List.{IsDistinct};
    ghost use Rattle.std.specs.Map.{keys_of};
    ghost use Rattle.iv_text.specs.contracts.name.Name as a_name;
    ghost use Rattle.iv_term.specs.contracts.typ.Typ as a_typ;
    ghost use Rattle.iv_term.specs.contracts.term.Term as a_term;
    ghost use Rattle.iv_rules.specs.Entries.{VarMap, same_var};

    ghost Value = { VarMap };

    ghost coded = { coded_list (coded× (coded× a_name.the_row.coded a_typ.the_row.coded) a_term.the_row.coded) };

    ghost view = { λ s. s.entries };

    ghost invariant = { λ s. IsDistinct same_var (keys_of s.entries) };
}

impl FixedTypes {
    /// No types.
    pub fn new(alloc: Global) -> FixedTypes
        ensures { result ≡ [] }
    {
        FixedTypes {
            entries: Items::new(alloc),
        }
    }

    /// How many variables have a type.
    pub fn len(&self) -> usize
        ensures same { result ≡ length self.now }
        ensures apart { IsDistinct bytes_eq (keys_of self.now) }
    {
        self.entries.len()
    }

    /// A variable with its type, counted from 0.
    pub fn entry(&self, index: usize) -> (&Text, &Typ)
        requires { index < length self.now }
        ensures { slice_get self.now index ≡ Some (result.0.now, result.1.now) }
    {
        let entry = &self.entries.as_slice()[index];
        (&entry.0, &entry.1)
    }

    /// The type of a variable, where it has one. Takes no memory.
    pub fn get(&self, name: &Text) -> Option<&Typ>
        ensures { option_copied result ≡ fixed_at self.now name.now }
    {
        for entry in self.entries.as_slice() {
            if entry.0.is(name) {
                return Some(&entry.1);
            }
        }
        None
    }

    /// Enters a type for a variable that has none. Fails where memory runs out, and the list is then as before.
    pub fn push(&mut self, name: Text, typ: Typ) -> Mem<()>
        requires { fixed_at self.old name ≡ None }
        ensures ok { OnOk result (self.new ≡ self.old ++ (name, typ) ∷ []) }
        ensures err { OnErr result (self.new ≡ self.old) }
        ensures memory { IfErr result (λ w. w ≡ Memory) }
    {
        self.entries.push((name, typ))?;
        Ok(())
    }

    /// An equal list; its types are shared. Fails where memory runs out.
    pub fn copy(&self, alloc: Global) -> Mem<FixedTypes>
        ensures ok { IfOk result (λ s. s ≡ self.now) }
        ensures memory { IfErr result (λ w. w ≡ Memory) }
    {
        let entries = self.entries.copy(alloc)?;
        Ok(FixedTypes { entries })
    }
}

impl SchematicTypes {
    /// No types.
    pub fn new(alloc: Global) -> SchematicTypes
        ensures { result ≡ [] }
    {
        SchematicTypes {
            entries: Items::new(alloc),
        }
    }

    /// How many variables have a type.
    pub fn len(&self) -> usize
        ensures same { result ≡ length self.now }
        ensures apart { IsDistinct same_name (keys_of self.now) }
    {
        self.entries.len()
    }

    /// A variable with its type, counted from 0.
    pub fn entry(&self, index: usize) -> (&Name, &Typ)
        requires { index < length self.now }
        ensures { slice_get self.now index ≡ Some (result.0.now, result.1.now) }
    {
        let entry = &self.entries.as_slice()[index];
        (&entry.0, &entry.1)
    }

    /// The type of a variable, where it has one. Takes no memory.
    pub fn get(&self, name: &Name) -> Option<&Typ>
        ensures { option_copied result ≡ schematic_at self.now name.now }
    {
        for entry in self.entries.as_slice() {
            if entry.0.is(name) {
                return Some(&entry.1);
            }
        }
        None
    }

    /// Enters a type for a variable that has none. Fails where memory runs out, and the list is then as before.
    pub fn push(&mut self, name: Name, typ: Typ) -> Mem<()>
        requires { schematic_at self.old name ≡ None }
        ensures ok { OnOk result (self.new ≡ self.old ++ (name, typ) ∷ []) }
        ensures err { OnErr result (self.new ≡ self.old) }
        ensures memory { IfErr result (λ w. w ≡ Memory) }
    {
        self.entries.push((name, typ))?;
        Ok(())
    }

    /// An equal list; its types are shared. Fails where memory runs out.
    pub fn copy(&self, alloc: Global) -> Mem<SchematicTypes>
        ensures ok { IfOk result (λ s. s ≡ self.now) }
        ensures memory { IfErr result (λ w. w ≡ Memory) }
    {
        let entries = self.entries.copy(alloc)?;
        Ok(SchematicTypes { entries })
    }
}

impl VarTerms {
    /// No terms.
    pub fn new(alloc: Global) -> VarTerms
        ensures { result ≡ [] }
    {
        VarTerms {
            entries: Items::new(alloc),
        }
    }

    /// How many variables have a term.
    pub fn len(&self) -> usize
        ensures same { result ≡ length self.now }
        ensures apart { IsDistinct same_var (keys_of self.now) }
    {
        self.entries.len()
    }

    /// A variable's name and type and its term, counted from 0.
    pub fn entry(&self, index: usize) -> (&Name, &Typ, &Term)
        requires { index < length self.now }
        ensures { slice_get self.now index ≡ Some ((result.0.now, result.1.now), result.2.now) }
    {
        let entry = &self.entries.as_slice()[index];
        (&entry.0.0, &entry.0.1, &entry.1)
    }

    /// The term of a variable, where it has one. Takes no memory.
    pub fn get(&self, name: &Name, typ: &Typ) -> Option<&Term>
        ensures { option_copied result ≡ term_at self.now name.now typ.now }
    {
        for entry in self.entries.as_slice() {
            if is_var(&entry.0, name, typ) {
                return Some(&entry.1);
            }
        }
        None
    }

    /// Enters a term for a variable that has none. Fails where memory runs out, and the list is then as before.
    pub fn push(&mut self, name: Name, typ: Typ, value: Term) -> Mem<()>
        requires { term_at self.old name typ ≡ None }
        ensures ok { OnOk result (self.new ≡ self.old ++ ((name, typ), value) ∷ []) }
        ensures err { OnErr result (self.new ≡ self.old) }
        ensures memory { IfErr result (λ w. w ≡ Memory) }
    {
        self.entries.push(((name, typ), value))?;
        Ok(())
    }

    /// An equal list; its types and terms are shared. Fails where memory runs out.
    pub fn copy(&self, alloc: Global) -> Mem<VarTerms>
        ensures ok { IfOk result (λ s. s ≡ self.now) }
        ensures memory { IfErr result (λ w. w ≡ Memory) }
    {
        let entries = self.entries.copy(alloc)?;
        Ok(VarTerms { entries })
    }
}

/// Whether a key is the variable of this name and type.
fn is_var(key: &(Name, Typ), name: &Name, typ: &Typ) -> bool
    ensures { result ≡ same_var key.now (name.now, typ.now) }
{
    key.0.is(name) && key.1.is(typ)
}

impl Instance {
    /// An equal instance; its types and terms are shared. Fails where memory runs out.
    pub fn copy(&self, alloc: Global) -> Mem<Instance>
        ensures ok { IfOk result (λ s. s ≡ self.now) }
        ensures memory { IfErr result (λ w. w ≡ Memory) }
    {
        let fixed = self.fixed.copy(alloc)?;
        let types = self.types.copy(alloc)?;
        let frees = self.frees.copy(alloc)?;
        let schematics = self.schematics.copy(alloc)?;
        Ok(Instance {
            fixed,
            types,
            frees,
            schematics,
        })
    }
}

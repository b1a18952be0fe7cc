//! Tables by name, in order of declaration.
ghost use Rattle.std.specs.Prelude.{◌≡◌, ◌<◌, ℕ, List, [], ◌∷◌, ◌++◌, None, Some, length, is_some, slice_get, MatchOption, IfOk, IfErr, OnOk, OnErr};
ghost use Rattle.std.specs.List.{IsDistinct};
ghost use Rattle.std.specs.Map.{keys_of};
ghost use Rattle.std.specs.Option.{option_copied};
ghost use Rattle.std.specs.Str.{bytes_eq};
ghost use Rattle.iv_text.specs.declared.want.Want.TheVariants.{Memory};
ghost use Rattle.iv_sig.specs.Table.{look};

use indexmap::IndexMap;
use iv_text::{Copied, Mem, Text};
use std::alloc::Global;
use std::marker::Model;

/// Values by name, in order of declaration. Contracts see the list of its entries; no two have one name.
pub struct Table<V> {
    by_name: IndexMap<Vec<char>, (Text, V)>,
}

// By hand, so that a caller's proof has one call where a map ends.
impl<V: Drop> Drop for Table<V> {
    fn drop(self) {
        let Table { by_name: _by_name } = self;
    }
}

impl<V> Model for Table<V> {
    ghost use Rattle.std.specs.Prelude.{List, ℕ};
    ghost use Rattle.std.specs.Coded.{coded×, coded_list, coded_ℕ};
    ghost use Rattle.iv_sig.specs.Table.{NamesAreKeys};
    ghost use Rattle.std.specs.Map.{values_of};

    ghost Value = { List (List ℕ × V) };

    ghost coded = { coded_list (coded× (coded_list coded_ℕ) V.code) };

    ghost view = { λ t. values_of t.by_name.entries };

    ghost invariant = { λ t. NamesAreKeys (λ k. k.items) t.by_name.entries };
}

impl<V: Drop> Table<V> {
    /// The empty table.
    pub fn new(alloc: Global) -> Table<V>
        ensures { result ≡ [] }
    {
        Table {
            by_name: IndexMap::new(alloc),
        }
    }

    /// How many entries there are.
    pub fn len(&self) -> usize
        ensures { result ≡ length self.now }
    {
        self.by_name.len()
    }

    /// A law: no two entries have one name.
    pub fn names_differ(&self)
        ensures { IsDistinct bytes_eq (keys_of self.now) }
    {
        let _count = self.by_name.len();
    }

    /// An entry, counted from 0 in order of declaration.
    pub fn at(&self, index: usize) -> (&Text, &V)
        requires { index < length self.now }
        ensures { slice_get self.now index ≡ Some (result.0.now, result.1.now) }
    {
        let entry = &self.by_name[index];
        (&entry.0, &entry.1)
    }

    /// What a name has. Takes no memory.
    pub fn get(&self, name: &Text) -> Option<&V>
        ensures { option_copied result ≡ look self.now name.now }
    {
        match self.by_name.get(name.as_slice()) {
            None => None,
            Some(entry) => Some(&entry.1),
        }
    }

    /// Whether a name has an entry. Takes no memory.
    pub fn has(&self, name: &Text) -> bool
        ensures { result ≡ is_some (look self.now name.now) }
    {
        self.get(name).is_some()
    }

    /// Puts an entry for a new name at the end. Fails where memory runs out, and the table is then as before.
    pub fn push(&mut self, alloc: Global, name: Text, value: V) -> Mem<()>
        requires { look self.old name ≡ None }
        ensures ok { OnOk result (self.new ≡ self.old ++ (name, value) ∷ []) }
        ensures err { OnErr result (self.new ≡ self.old) }
        ensures memory { IfErr result (λ w. w ≡ Memory) }
    {
        let key = Vec::from_slice(alloc, name.as_slice())?;
        self.by_name.insert(key, (name, value))?;
        Ok(())
    }

    /// Takes the last entry away, where there is one.
    pub fn pop(&mut self) -> Option<(Text, V)>
        ensures { MatchOption result ((self.old ≡ []) × (self.new ≡ [])) (λ e. self.old ≡ self.new ++ e ∷ []) }
    {
        match self.by_name.pop() {
            None => None,
            Some((_key, entry)) => Some(entry),
        }
    }
}

impl<V: Drop> Table<V> {
    /// Drops the last entry.
    pub(crate) fn drop_last(&mut self)
        ensures { (es : List (List ℕ × V)) (e : List ℕ × V) → self.old ≡ es ++ e ∷ [] → self.new ≡ es }
    {
        self.pop();
    }
}

impl<V: Copied> Table<V> {
    /// Puts a copy of an entry for a new name at the end.
    fn push_copy(&mut self, alloc: Global, name: &Text, value: &V) -> Mem<()>
        requires { look self.old name.now ≡ None }
        ensures ok { OnOk result (self.new ≡ self.old ++ (name.now, value.now) ∷ []) }
        ensures memory { IfErr result (λ w. w ≡ Memory) }
    {
        let name = name.copy()?;
        let value = value.copied()?;
        self.push(alloc, name, value)
    }

    /// An equal table; its parts are shared. Fails where memory runs out.
    pub fn copy(&self, alloc: Global) -> Mem<Table<V>>
        ensures ok { IfOk result (λ t. t ≡ self.now) }
        ensures memory { IfErr result (λ w. w ≡ Memory) }
    {
        self.names_differ();
        let mut copy = Table::new(alloc);
        for i in 0..self.len() {
            let (name, value) = self.at(i);
            copy.push_copy(alloc, name, value)?;
        }
        Ok(copy)
    }
}

ghost use Rattle.std.specs.Prelude.{◌≡◌, ◌<◌, [], ◌∷◌, ◌++◌, None, Some, length, is_some, slice_get, IfOk, IfErr, OnOk, OnErr};
ghost use Rattle.std.specs.List.{IsDistinct};
ghost use Rattle.std.specs.Map.{keys_of};
ghost use Rattle.std.specs.Option.{option_copied};
ghost use Rattle.iv_text.specs.Name.{same_name};
ghost use Rattle.iv_text.specs.declared.want.Want.TheVariants.{Memory};
ghost use Rattle.iv_map.specs.NameMap.{look};

use indexmap::IndexMap;
use iv_text::{Copied, Mem, Name};
use std::alloc::Global;
use std::marker::Model;

/// Values by name, in order of entry. Contracts see the list of its entries; no two have one name.
pub struct NameMap<V> {
    by_name: IndexMap<Name, V>,
}

// By hand, so that a caller's proof has one call where a map ends.
impl<V: Drop> Drop for NameMap<V> {
    fn drop(self) {
        let NameMap { by_name: _by_name } = self;
    }
}

impl<V> Model for NameMap<V> {
    ghost use Rattle.std.specs.Coded.{coded×, coded_list};
    ghost use Rattle.iv_text.specs.contracts.name.Name as a_name;
    ghost use Rattle.iv_map.specs.NameMap.{Entries};

    ghost Value = { Entries V };

    ghost coded = { coded_list (coded× a_name.the_row.coded V.code) };

    ghost view = { λ m. m.by_name.entries };
}

impl<V: Drop> NameMap<V> {
    /// The empty map.
    pub fn new(alloc: Global) -> NameMap<V>
        ensures { result ≡ [] }
    {
        NameMap {
            by_name: IndexMap::new(alloc),
        }
    }

    /// How many names have an entry.
    pub fn len(&self) -> usize
        ensures same { result ≡ length self.now }
        ensures apart { IsDistinct same_name (keys_of self.now) }
    {
        self.by_name.len()
    }

    /// An entry, counted from 0 in order of entry.
    pub fn entry(&self, index: usize) -> (&Name, &V)
        requires { index < length self.now }
        ensures { slice_get self.now index ≡ Some (result.0.now, result.1.now) }
    {
        self.by_name.get_index(index).unwrap()
    }

    /// What a name has. Takes no memory.
    pub fn get(&self, name: &Name) -> Option<&V>
        ensures { option_copied result ≡ look self.now name.now }
    {
        self.by_name.get(name)
    }

    /// Whether a name has an entry. Takes no memory.
    pub fn has(&self, name: &Name) -> bool
        ensures { result ≡ is_some (look self.now name.now) }
    {
        self.get(name).is_some()
    }

    /// Puts an entry for a new name at the end. Fails where memory runs out, and the map is then as before.
    pub fn push(&mut self, name: Name, value: V) -> Mem<()>
        requires { look self.old name ≡ None }
        ensures ok { OnOk result (self.new ≡ self.old ++ (name, value) ∷ []) }
        ensures err { OnErr result (self.new ≡ self.old) }
        ensures memory { IfErr result (λ w. w ≡ Memory) }
    {
        self.by_name.insert(name, value)?;
        Ok(())
    }
}

impl<V: Copied> NameMap<V> {
    /// An equal map; its parts are shared. Fails where memory runs out.
    pub fn copy(&self, alloc: Global) -> Mem<NameMap<V>>
        ensures ok { IfOk result (λ m. m ≡ self.now) }
        ensures memory { IfErr result (λ w. w ≡ Memory) }
    {
        let mut copy = NameMap::new(alloc);
        for i in 0..self.len() {
            let (name, value) = self.entry(i);
            copy.push(name.copy()?, value.copied()?)?;
        }
        Ok(copy)
    }
}

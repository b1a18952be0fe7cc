//! Notations of constants, found by the constant and by the symbol.
ghost use Rattle.std.specs.Prelude.{◌≡◌, ◌<◌, [], ◌∷◌, ◌++◌, None, Some, length, slice_get, IfOk, IfErr, OnOk, OnErr};
ghost use Rattle.std.specs.List.{IsDistinct};
ghost use Rattle.std.specs.Map.{keys_of};
ghost use Rattle.std.specs.Map.Iter.{deref_pair};
ghost use Rattle.std.specs.Option.{option_copied, option_map};
ghost use Rattle.std.specs.Str.{bytes_eq};
ghost use Rattle.iv_text.specs.declared.want.Want.TheVariants.{Memory};
ghost use Rattle.iv_sig.specs.Fixity.{symbol_of};
ghost use Rattle.iv_sig.specs.Signature.{by_symbol};
ghost use Rattle.iv_sig.specs.Table.{look};

use crate::fixity::Fixity;
use crate::table::Table;
use iv_text::{Copied, Mem, Text};
use std::alloc::Global;
use std::marker::Model;

/// Constants, each with how it is written, in order of declaration. Contracts see the list of its entries.
pub struct Notations {
    by_constant: Table<Fixity>,
    by_symbol: Table<(Text, Fixity)>,
}

impl Drop for Notations {
    fn drop(self) {
        let Notations {
            by_constant: _by_constant,
            by_symbol: _by_symbol,
        } = self;
    }
}

impl Model for Notations {
    ghost use Rattle.std.specs.Prelude.{◌≡◌, List, ℕ};
    ghost use Rattle.std.specs.Coded.{codes};
    ghost use Rattle.iv_sig.specs.declared.fixity.Fixity.{Fixity};
    ghost use Rattle.iv_sig.specs.contracts.fixity.Fixity as a_fixity;

    ghost Value = { List (List ℕ × Fixity) };

    ghost coded = { Prim.hlevel (codes, a_fixity.the_row.coded) };

    ghost use Rattle.iv_sig.specs.Signature.{by_symbol as found};

    ghost view = { λ n. n.by_constant };

    ghost invariant = { λ n. n.by_symbol ≡ found n.by_constant };
}

/// Puts a notation at the end, by its symbol, which is no other's.
fn push_by_symbol(
    by_symbol: &mut Table<(Text, Fixity)>,
    alloc: Global,
    constant: &Text,
    fixity: &Fixity,
) -> Mem<()>
    requires { look by_symbol.old (symbol_of fixity.now) ≡ None }
    ensures ok { OnOk result (by_symbol.new ≡ by_symbol.old ++ (symbol_of fixity.now, (constant.now, fixity.now)) ∷ []) }
    ensures err { OnErr result (by_symbol.new ≡ by_symbol.old) }
    ensures memory { IfErr result (λ w. w ≡ Memory) }
{
    let symbol = fixity.symbol().copy()?;
    let constant = constant.copy()?;
    let fixity = fixity.copied()?;
    by_symbol.push(alloc, symbol, (constant, fixity))
}

impl Notations {
    /// No notations.
    pub fn new(alloc: Global) -> Notations
        ensures { result ≡ [] }
    {
        Notations {
            by_constant: Table::new(alloc),
            by_symbol: Table::new(alloc),
        }
    }

    /// How many there are.
    pub fn len(&self) -> usize
        ensures { result ≡ length self.now }
    {
        self.by_constant.len()
    }

    /// A law: no two are of one constant, and no two have one symbol.
    pub fn names_differ(&self)
        ensures constants { IsDistinct bytes_eq (keys_of self.now) }
        ensures symbols { IsDistinct bytes_eq (keys_of (by_symbol self.now)) }
    {
        self.by_constant.names_differ();
        self.by_symbol.names_differ();
    }

    /// One of them, counted from 0 in order of declaration.
    pub fn at(&self, index: usize) -> (&Text, &Fixity)
        requires { index < length self.now }
        ensures { slice_get self.now index ≡ Some (result.0.now, result.1.now) }
    {
        self.by_constant.at(index)
    }

    /// How a constant is written. Takes no memory.
    pub fn get(&self, constant: &Text) -> Option<&Fixity>
        ensures { option_copied result ≡ look self.now constant.now }
    {
        self.by_constant.get(constant)
    }

    /// The constant that is written by a symbol, and how. Takes no memory.
    pub fn written_by(&self, symbol: &Text) -> Option<(&Text, &Fixity)>
        ensures { option_map deref_pair result ≡ look (by_symbol self.now) symbol.now }
    {
        match self.by_symbol.get(symbol) {
            None => None,
            Some(notation) => Some((&notation.0, &notation.1)),
        }
    }

    /// Puts a notation at the end, of a constant that has none, by a symbol that is no other's. Fails where memory
    /// runs out, and there are then the notations as before.
    pub fn push(&mut self, alloc: Global, constant: Text, fixity: Fixity) -> Mem<()>
        requires constant_is_new { look self.old constant ≡ None }
        requires symbol_is_new { look (by_symbol self.old) (symbol_of fixity) ≡ None }
        ensures ok { OnOk result (self.new ≡ self.old ++ (constant, fixity) ∷ []) }
        ensures err { OnErr result (self.new ≡ self.old) }
        ensures memory { IfErr result (λ w. w ≡ Memory) }
    {
        push_by_symbol(&mut self.by_symbol, alloc, &constant, &fixity)?;
        match self.by_constant.push(alloc, constant, fixity) {
            Ok(()) => Ok(()),
            Err(lack) => {
                self.by_symbol.drop_last();
                Err(lack)
            }
        }
    }

    /// Equal notations; their parts are shared. Fails where memory runs out.
    pub fn copy(&self, alloc: Global) -> Mem<Notations>
        ensures ok { IfOk result (λ n. n ≡ self.now) }
        ensures memory { IfErr result (λ w. w ≡ Memory) }
    {
        Ok(Notations {
            by_constant: self.by_constant.copy(alloc)?,
            by_symbol: self.by_symbol.copy(alloc)?,
        })
    }
}

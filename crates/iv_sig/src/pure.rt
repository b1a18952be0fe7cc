//! What there is before anything is declared.
ghost use Rattle.std.specs.Prelude.{◌≡◌, [], ◌∷◌, ◌++◌, None, IfOk, IfErr, OnOk};
ghost use Rattle.iv_text.specs.declared.want.Want.TheVariants.{Memory};
ghost use Rattle.iv_sig.specs.Signature.{open_a, pure_types, pure_consts, is_pure};
ghost use Rattle.iv_sig.specs.Table.{look};

use crate::table::Table;
use iv_hsub::constants::{all_typ, eq_typ};
use iv_term::Typ;
use iv_text::{Mem, Name, Text};
use std::alloc::Global;

/// The type variable `?'a`.
fn open_a(alloc: Global) -> Mem<Typ>
    ensures ok { IfOk result (λ a. a ≡ open_a) }
    ensures memory { IfErr result (λ w. w ≡ Memory) }
{
    let text = Text::from_slice(alloc, &['\'', 'a'])?;
    Ok(Typ::Schematic(Name { text, number: 0 }))
}

/// Puts an entry for a new name, given by its characters, at the end.
fn put<V: Drop>(table: &mut Table<V>, alloc: Global, name: &[char], value: V) -> Mem<()>
    requires { look table.old name.now ≡ None }
    ensures ok { OnOk result (table.new ≡ table.old ++ (name.now, value) ∷ []) }
    ensures memory { IfErr result (λ w. w ≡ Memory) }
{
    let name = Text::from_slice(alloc, name)?;
    table.push(alloc, name, value)
}

/// The types `fun` and `prop`.
pub(crate) fn pure_types(alloc: Global) -> Mem<Table<u32>>
    ensures ok { IfOk result (λ t. t ≡ pure_types) }
    ensures memory { IfErr result (λ w. w ≡ Memory) }
{
    let mut types = Table::new(alloc);
    put(&mut types, alloc, &['f', 'u', 'n'], 2)?;
    put(&mut types, alloc, &['p', 'r', 'o', 'p'], 0)?;
    Ok(types)
}

/// Puts the constants `==>`, `!!` and `==` into a table, the types of two of which have the variable `a`.
fn put_consts(consts: &mut Table<Typ>, alloc: Global, a: &Typ) -> Mem<()>
    requires empty { consts.old ≡ [] }
    requires open { a.now ≡ open_a }
    ensures ok { OnOk result (consts.new ≡ pure_consts) }
    ensures memory { IfErr result (λ w. w ≡ Memory) }
{
    let implies = Typ::implies(alloc)?;
    put(consts, alloc, &['=', '=', '>'], implies)?;
    let all = all_typ(alloc, a)?;
    put(consts, alloc, &['!', '!'], all)?;
    let eq = eq_typ(alloc, a)?;
    put(consts, alloc, &['=', '='], eq)
}

/// Puts the constants `==>`, `!!` and `==` into a table.
fn put_pure_consts(consts: &mut Table<Typ>, alloc: Global) -> Mem<()>
    requires { consts.old ≡ [] }
    ensures ok { OnOk result (consts.new ≡ pure_consts) }
    ensures memory { IfErr result (λ w. w ≡ Memory) }
{
    let a = open_a(alloc)?;
    put_consts(consts, alloc, &a)
}

/// The constants `==>`, `!!` and `==`.
pub(crate) fn pure_consts(alloc: Global) -> Mem<Table<Typ>>
    ensures ok { IfOk result (λ t. t ≡ pure_consts) }
    ensures memory { IfErr result (λ w. w ≡ Memory) }
{
    let mut consts = Table::new(alloc);
    put_pure_consts(&mut consts, alloc)?;
    Ok(consts)
}

/// Whether a name is that of a Pure constant.
pub(crate) fn is_pure(name: &Text) -> bool
    ensures { result ≡ is_pure name.now }
{
    name.as_slice() == ['=', '=', '>'].as_slice()
        || name.as_slice() == ['!', '!'].as_slice()
        || name.as_slice() == ['=', '='].as_slice()
}

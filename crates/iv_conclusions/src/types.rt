//! The types of an instance put in a type and at a head.
ghost use Rattle.std.specs.Prelude.{◌≡◌, IfOk, IfErr};
ghost use Rattle.std.specs.Option.{unwrap_or};
ghost use Rattle.iv_text.specs.declared.want.Want.TheVariants.{Memory};
ghost use Rattle.iv_hsub.specs.Retype.{map_typ, map_typs, retype_head};
ghost use Rattle.iv_rules.specs.Instance.{types_of};

use iv_rules::Instance;
use iv_term::changed_term::{constant, free, schematic};
use iv_term::changed_typ::{with_args, with_parts};
use iv_term::{Head, Typ, Types};
use iv_text::{Mem, copy_of};
use std::alloc::Global;

/// The type under an instance, or `None` where it stays.
#[cycle(changed)]
pub(crate) fn changed(alloc: Global, a: &Typ, s: &Instance) -> Mem<Option<Typ>>
    ensures ok { IfOk result (λ r. unwrap_or r a.now ≡ map_typ (types_of s.now) a.now) }
    ensures memory { IfErr result (λ w. w ≡ Memory) }
{
    match a {
        Typ::Con(c, ts) => {
            let args = changed_all(alloc, ts, s)?;
            with_args(c, args)
        }
        Typ::Fixed(x) => copy_of(s.fixed.get(x)),
        Typ::Schematic(x) => copy_of(s.types.get(x)),
    }
}

/// The same of some types.
#[cycle(changed)]
fn changed_all(alloc: Global, ts: &Types, s: &Instance) -> Mem<Option<Types>>
    ensures ok { IfOk result (λ r. unwrap_or r ts.now ≡ map_typs (types_of s.now) ts.now) }
    ensures memory { IfErr result (λ w. w ≡ Memory) }
{
    match ts {
        Types::Nil => Ok(None),
        Types::Cons(t, rest) => {
            let first = changed(alloc, t.get(), s)?;
            let more = changed_all(alloc, rest.get(), s)?;
            with_parts(alloc, first, t, more, rest)
        }
    }
}

/// The head at its type under an instance, or `None` where it stays.
pub(crate) fn changed_head(alloc: Global, h: &Head, s: &Instance) -> Mem<Option<Head>>
    ensures ok { IfOk result (λ r. unwrap_or r h.now ≡ retype_head (types_of s.now) h.now) }
    ensures memory { IfErr result (λ w. w ≡ Memory) }
{
    match h {
        Head::Const(c, a) => {
            let typ = changed(alloc, a, s)?;
            constant(c, typ)
        }
        Head::Free(x, a) => {
            let typ = changed(alloc, a, s)?;
            free(x, typ)
        }
        Head::Schematic(x, a) => {
            let typ = changed(alloc, a, s)?;
            schematic(x, typ)
        }
        Head::Bound(_n) => Ok(None),
    }
}

//! Types whose parts may be new; what is old is shared.
ghost use Rattle.std.specs.Prelude.{◌≡◌, IfOk, IfErr};
ghost use Rattle.std.specs.Option.{unwrap_or};
ghost use Rattle.iv_term.specs.declared.typ.Types.{Types};
ghost use Rattle.iv_term.specs.declared.typ.Typ.TheBlock.{Con};
ghost use Rattle.iv_term.specs.Typ.{ty_cons};
ghost use Rattle.iv_text.specs.declared.want.Want.TheVariants.{Memory};

use crate::typ::{Typ, Types};
use iv_shared::Shared;
use iv_text::{Mem, Text, new_or_shared};
use std::alloc::Global;

/// A constructor with new arguments, if there are any. Fails where memory runs out.
pub fn with_args(c: &Text, args: Option<Types>) -> Mem<Option<Typ>>
    ensures ok { IfOk result (λ r. (ts : Types) → unwrap_or r (Con c.now ts) ≡ Con c.now (unwrap_or args ts)) }
    ensures memory { IfErr result (λ w. w ≡ Memory) }
{
    match args {
        None => Ok(None),
        Some(ts) => Ok(Some(Typ::Con(c.copy()?, ts))),
    }
}

/// A list of types where the first or the rest may be new; what is old is shared. Fails where memory runs out.
pub fn with_parts(
    alloc: Global,
    first: Option<Typ>,
    old_first: &Shared<Typ>,
    rest: Option<Types>,
    old_rest: &Shared<Types>,
) -> Mem<Option<Types>>
    ensures ok { IfOk result (λ r. unwrap_or r (ty_cons old_first.now old_rest.now)
        ≡ ty_cons (unwrap_or first old_first.now) (unwrap_or rest old_rest.now)) }
    ensures memory { IfErr result (λ w. w ≡ Memory) }
{
    match first {
        None => with_rest(alloc, old_first, rest, old_rest),
        Some(first) => {
            let first = Shared::new(alloc, first)?;
            let rest = new_or_shared(alloc, rest, old_rest)?;
            Ok(Some(Types::Cons(first, rest)))
        }
    }
}

/// A list of types where the rest may be new.
fn with_rest(
    alloc: Global,
    first: &Shared<Typ>,
    rest: Option<Types>,
    old_rest: &Shared<Types>,
) -> Mem<Option<Types>>
    ensures ok { IfOk result (λ r. unwrap_or r (ty_cons first.now old_rest.now) ≡ ty_cons first.now (unwrap_or rest old_rest.now)) }
    ensures memory { IfErr result (λ w. w ≡ Memory) }
{
    match rest {
        None => Ok(None),
        Some(rest) => {
            let rest = Shared::new(alloc, rest)?;
            Ok(Some(Types::Cons(first.share()?, rest)))
        }
    }
}

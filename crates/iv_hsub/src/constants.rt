//! The types of the constants `!!` and `==`.
ghost use Rattle.std.specs.Prelude.{◌≡◌, IfOk, IfErr};
ghost use Rattle.iv_text.specs.declared.want.Want.TheVariants.{Memory};
ghost use Rattle.iv_term.specs.Typ.{prop, fun};
ghost use Rattle.iv_hsub.specs.Hhf.{all_typ};

use iv_term::Typ;
use iv_text::Mem;
use std::alloc::Global;

/// The type of functions from `a` to propositions.
fn predicate_on(alloc: Global, a: &Typ) -> Mem<Typ>
    ensures ok { IfOk result (λ r. r ≡ fun a.now prop) }
    ensures memory { IfErr result (λ w. w ≡ Memory) }
{
    let prop = Typ::prop(alloc)?;
    Typ::fun(alloc, a.copy()?, prop)
}

/// `(a => prop) => prop`, the type of a `!!` over `a`. Fails where memory runs out.
pub fn all_typ(alloc: Global, a: &Typ) -> Mem<Typ>
    ensures ok { IfOk result (λ r. r ≡ all_typ a.now) }
    ensures memory { IfErr result (λ w. w ≡ Memory) }
{
    let predicate = predicate_on(alloc, a)?;
    Typ::fun(alloc, predicate, Typ::prop(alloc)?)
}

/// `a => a => prop`, the type of an `==` of terms of type `a`. Fails where memory runs out.
pub fn eq_typ(alloc: Global, a: &Typ) -> Mem<Typ>
    ensures ok { IfOk result (λ r. r ≡ fun a.now (fun a.now prop)) }
    ensures memory { IfErr result (λ w. w ≡ Memory) }
{
    let predicate = predicate_on(alloc, a)?;
    Typ::fun(alloc, a.copy()?, predicate)
}

//! The instance that a substitution is.
ghost use Rattle.std.specs.Prelude.{◌≡◌, IfOk, IfErr};
ghost use Rattle.iv_text.specs.declared.want.Want.TheVariants.{Memory};
ghost use Rattle.iv_instance.specs.Converted.{typed_entries, as_instance};

use iv_hsub::type_of;
use iv_put::Subst;
use iv_rules::Instance;
use iv_rules::instance::{FixedTypes, SchematicTypes, VarTerms};
use iv_subst::TySubst;
use iv_term::Types;
use iv_text::Mem;
use std::alloc::Global;

/// The instance that puts a substitution's types and terms, each term for the variable of its name and of the term's type,
/// and nothing for what is fixed or free. Its types and terms are shared. Fails where memory runs out.
pub fn instance(alloc: Global, s: &Subst) -> Mem<Instance>
    ensures ok { IfOk result (λ r. r ≡ as_instance s.now) }
    ensures memory { IfErr result (λ w. w ≡ Memory) }
{
    let types = types_of(alloc, s.types())?;
    let schematics = terms_of(alloc, s)?;
    Ok(Instance {
        fixed: FixedTypes::new(alloc),
        types,
        frees: VarTerms::new(alloc),
        schematics,
    })
}

/// The types.
fn types_of(alloc: Global, s: &TySubst) -> Mem<SchematicTypes>
    ensures ok { IfOk result (λ r. r ≡ s.now) }
    ensures memory { IfErr result (λ w. w ≡ Memory) }
{
    let mut copy = SchematicTypes::new(alloc);
    for i in 0..s.len() {
        let (name, typ) = s.entry(i);
        copy.push(name.copy()?, typ.copy()?)?;
    }
    Ok(copy)
}

/// The terms, each for a variable of its type.
fn terms_of(alloc: Global, s: &Subst) -> Mem<VarTerms>
    ensures ok { IfOk result (λ r. r ≡ typed_entries s.now.1) }
    ensures memory { IfErr result (λ w. w ≡ Memory) }
{
    let mut copy = VarTerms::new(alloc);
    for i in 0..s.len() {
        let (name, value) = s.entry(i);
        let typ = type_of(alloc, value, &Types::Nil)?;
        let value = value.copy()?;
        copy.push(name.copy()?, typ, value)?;
    }
    Ok(copy)
}

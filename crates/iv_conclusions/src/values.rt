//! Whether the values of an instance have the types of their keys.
ghost use Rattle.std.specs.Prelude.{◌≡◌, IsTrue, ◌↔◌};
ghost use Rattle.iv_rules.specs.Instance.{AreTyped, AreValuesTyped};

use iv_hsub::has_type;
use iv_rules::{Instance, VarTerms};
use iv_term::Types;

/// Whether each value is a term without loose indices, of its key's type. Takes no memory.
pub fn are_values_typed(s: &Instance) -> bool
    ensures { IsTrue result ↔ AreValuesTyped s.now }
{
    are_typed(&s.frees) && are_typed(&s.schematics)
}

/// The same of the values of one list.
fn are_typed(values: &VarTerms) -> bool
    ensures { IsTrue result ↔ AreTyped values.now }
{
    for i in 0..values.len() {
        let (_x, a, value) = values.entry(i);
        if !has_type(value, a, &Types::Nil) {
            return false;
        }
    }
    true
}

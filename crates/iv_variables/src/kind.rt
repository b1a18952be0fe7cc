ghost use Rattle.std.specs.Prelude.{◌≡◌, Bool};
ghost use Rattle.iv_variables.specs.declared.variable.Variable.{Variable};
ghost use Rattle.iv_variables.specs.declared.variable.Variable.TheVariants.{FixedType, SchematicType, Free, Schematic};
ghost use Rattle.iv_variables.specs.Firsts.{of_kind};

use crate::walk::Test;
use iv_term::Typ;
use iv_text::{Name, Text};

/// A kind of variables. As a test it is passed by those of its kind.
#[derive(Clone, Copy, Debug, PartialEq, Eq)]
pub enum Kind {
    /// Fixed type variables.
    FixedTypes,
    /// Schematic type variables.
    SchematicTypes,
    /// Free variables.
    Frees,
    /// Schematic variables.
    Schematics,
    /// Schematic variables and schematic type variables.
    Numbered,
}

impl Test for Kind {
    ghost passes = { λ k v. of_kind k v };

    fn fixed_type(&self, _text: &Text) -> bool {
        match self {
            Kind::FixedTypes => true,
            _ => false,
        }
    }

    fn schematic_type(&self, _name: &Name) -> bool {
        match self {
            Kind::SchematicTypes => true,
            Kind::Numbered => true,
            _ => false,
        }
    }

    fn free(&self, _name: &Name, _typ: &Typ) -> bool {
        match self {
            Kind::Frees => true,
            _ => false,
        }
    }

    fn schematic(&self, _name: &Name, _typ: &Typ) -> bool {
        match self {
            Kind::Schematics => true,
            Kind::Numbered => true,
            _ => false,
        }
    }
}

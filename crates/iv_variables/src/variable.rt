ghost use Rattle.std.specs.Prelude.{◌≡◌, IfOk, IfErr, IsTrue, ◌↔◌};
ghost use Rattle.iv_text.specs.declared.want.Want.TheVariants.{Memory};
ghost use Rattle.std.specs.Cmp.{partial_equiv_from_equiv};
ghost use Rattle.iv_variables.specs.Variables.{same_variable};
ghost use Rattle.iv_variables.specs.Key.{variable_input, same_variable-equiv, same_variable-input};

use iv_term::Typ;
use iv_text::{Copied, Mem, Name, Text};
use std::hash::{Hash, Hasher};

/// A variable of a type or a term.
pub enum Variable {
    /// A fixed type variable.
    FixedType(Text),
    /// A schematic type variable.
    SchematicType(Name),
    /// A free variable with its type.
    Free(Name, Typ),
    /// A schematic variable with its type.
    Schematic(Name, Typ),
}

impl Drop for Variable {
    fn drop(self) {
        match self {
            Variable::FixedType(_a) => {}
            Variable::SchematicType(_x) => {}
            Variable::Free(_x, _a) => {}
            Variable::Schematic(_x, _a) => {}
        }
    }
}

impl Variable {
    /// Whether both are the same variable: of one kind, name and type. Takes no memory.
    pub fn is(&self, other: &Variable) -> bool
        ensures same { result ≡ same_variable self.now other.now }
        ensures equal { IsTrue result ↔ (self.now ≡ other.now) }
    {
        self.equals(other)
    }

    /// The same.
    fn equals(&self, other: &Variable) -> bool
        ensures { IsTrue result ↔ (self.now ≡ other.now) }
    {
        match (self, other) {
            (Variable::FixedType(a), Variable::FixedType(b)) => a.is(b),
            (Variable::SchematicType(x), Variable::SchematicType(y)) => x.is(y),
            (Variable::Free(x, a), Variable::Free(y, b)) => x.is(y) && a.is(b),
            (Variable::Schematic(x, a), Variable::Schematic(y, b)) => x.is(y) && a.is(b),
            _ => false,
        }
    }

    /// An equal variable. Takes no memory; fails where a count of owners is full.
    pub fn copy(&self) -> Mem<Variable>
        ensures ok { IfOk result (λ v. v ≡ self.now) }
        ensures memory { IfErr result (λ w. w ≡ Memory) }
    {
        match self {
            Variable::FixedType(a) => Ok(Variable::FixedType(a.copy()?)),
            Variable::SchematicType(x) => Ok(Variable::SchematicType(x.copy()?)),
            Variable::Free(x, a) => Ok(Variable::Free(x.copy()?, a.copy()?)),
            Variable::Schematic(x, a) => Ok(Variable::Schematic(x.copy()?, a.copy()?)),
        }
    }
}

impl Copied for Variable {
    fn copied(&self) -> Mem<Variable> {
        self.copy()
    }
}

impl PartialEq for Variable {
    ghost eq = { same_variable };

    ghost laws = { partial_equiv_from_equiv same_variable-equiv };

    fn eq(&self, other: &Variable) -> bool {
        self.is(other)
    }
}

impl Eq for Variable {
    ghost laws = { same_variable-equiv };
}

// By the name alone: variables of one name are few.
impl Hash for Variable {
    ghost hash_input = { variable_input };

    ghost respects_eq = { same_variable-input };

    fn hash<H: Hasher>(&self, state: &mut H) {
        match self {
            Variable::FixedType(a) => a.as_slice().hash(state),
            Variable::SchematicType(x) => x.hash(state),
            Variable::Free(x, _a) => x.hash(state),
            Variable::Schematic(x, _a) => x.hash(state),
        }
    }
}

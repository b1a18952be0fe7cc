//! Whether a variable stands in a term.
ghost use Rattle.std.specs.Prelude.{◌≡◌, ◌&&◌};
ghost use Rattle.std.specs.List.{list_any};
ghost use Rattle.iv_variables.specs.declared.variable.Variable.TheVariants.{Free};
ghost use Rattle.iv_variables.specs.Variables.{same_variable, variables, terms_variables};
ghost use Rattle.iv_variables.specs.Firsts.{of_kind, stands, has_name};

use crate::kind::Kind;
use crate::variable::Variable;
use crate::walk::{Test, any, any_in_terms};
use iv_term::{Term, Terms, Typ};
use iv_text::{Name, Text};

/// The test that one variable alone passes.
#[derive(Drop)]
pub struct Is<'a> {
    /// The variable.
    pub variable: &'a Variable,
}

impl<'a> Test for Is<'a> {
    ghost use Rattle.iv_variables.specs.Variables.{same_variable};

    ghost passes = { λ t v. same_variable t.variable.now v };

    fn fixed_type(&self, text: &Text) -> bool {
        match self.variable {
            Variable::FixedType(a) => a.is(text),
            _ => false,
        }
    }

    fn schematic_type(&self, name: &Name) -> bool {
        match self.variable {
            Variable::SchematicType(x) => x.is(name),
            _ => false,
        }
    }

    fn free(&self, name: &Name, typ: &Typ) -> bool {
        match self.variable {
            Variable::Free(x, a) => x.is(name) && a.is(typ),
            _ => false,
        }
    }

    fn schematic(&self, name: &Name, typ: &Typ) -> bool {
        match self.variable {
            Variable::Schematic(x, a) => x.is(name) && a.is(typ),
            _ => false,
        }
    }
}

/// The test that the free variable of a name and a type alone passes.
#[derive(Drop)]
pub struct IsFree<'a> {
    /// Its name.
    pub name: &'a Name,
    /// Its type.
    pub typ: &'a Typ,
}

impl<'a> Test for IsFree<'a> {
    ghost use Rattle.iv_variables.specs.declared.variable.Variable.TheVariants.{Free};
    ghost use Rattle.iv_variables.specs.Variables.{same_variable};

    ghost passes = { λ t v. same_variable (Free t.name.now t.typ.now) v };

    fn fixed_type(&self, _text: &Text) -> bool {
        false
    }

    fn schematic_type(&self, _name: &Name) -> bool {
        false
    }

    fn free(&self, name: &Name, typ: &Typ) -> bool {
        self.name.is(name) && self.typ.is(typ)
    }

    fn schematic(&self, _name: &Name, _typ: &Typ) -> bool {
        false
    }
}

/// The test that the variables of a kind pass whose name, with its number, is this one. A fixed type variable has none.
#[derive(Drop)]
pub struct Named<'a> {
    /// The kind.
    pub kind: Kind,
    /// The name.
    pub name: &'a Name,
}

impl<'a> Test for Named<'a> {
    ghost use Rattle.std.specs.Prelude.{◌&&◌};
    ghost use Rattle.iv_variables.specs.Firsts.{of_kind, has_name};

    ghost passes = { λ t v. has_name t.name.now v && of_kind t.kind v };

    fn fixed_type(&self, _text: &Text) -> bool {
        false
    }

    fn schematic_type(&self, name: &Name) -> bool {
        self.name.is(name) && self.kind.schematic_type(name)
    }

    fn free(&self, name: &Name, typ: &Typ) -> bool {
        self.name.is(name) && self.kind.free(name, typ)
    }

    fn schematic(&self, name: &Name, typ: &Typ) -> bool {
        self.name.is(name) && self.kind.schematic(name, typ)
    }
}

/// Whether a variable stands in a term. Takes no memory.
pub fn has(t: &Term, variable: &Variable) -> bool
    ensures { result ≡ stands variable.now (variables t.now) }
{
    any(t, &Is { variable })
}

/// Whether the free variable of this name and type stands in a term. Takes no memory.
pub fn has_free(t: &Term, name: &Name, typ: &Typ) -> bool
    ensures { result ≡ stands (Free name.now typ.now) (variables t.now) }
{
    any(t, &IsFree { name, typ })
}

/// Whether the free variable of this name and type stands in one of some terms. Takes no memory.
pub fn any_has_free(ts: &Terms, name: &Name, typ: &Typ) -> bool
    ensures { result ≡ stands (Free name.now typ.now) (terms_variables ts.now) }
{
    any_in_terms(ts, &IsFree { name, typ })
}

/// Whether a variable of a kind with this name, of whatever type, stands in a term. Takes no memory.
pub fn has_named(t: &Term, kind: Kind, name: &Name) -> bool
    ensures { result ≡ list_any (λ v. has_name name.now v && of_kind kind v) (variables t.now) }
{
    any(t, &Named { kind, name })
}

/// Whether a variable of a kind with this name, of whatever type, stands in one of some terms. Takes no memory.
pub fn any_has_named(ts: &Terms, kind: Kind, name: &Name) -> bool
    ensures { result ≡ list_any (λ v. has_name name.now v && of_kind kind v) (terms_variables ts.now) }
{
    any_in_terms(ts, &Named { kind, name })
}

/// Whether a variable of a kind stands in a term. Takes no memory.
pub fn has_kind(t: &Term, kind: Kind) -> bool
    ensures { result ≡ list_any (of_kind kind) (variables t.now) }
{
    any(t, &kind)
}

/// Whether a variable of a kind stands in one of some terms. Takes no memory.
pub fn any_has_kind(ts: &Terms, kind: Kind) -> bool
    ensures { result ≡ list_any (of_kind kind) (terms_variables ts.now) }
{
    any_in_terms(ts, &kind)
}

//! Walks over the variables of types and terms, in the order of reading.
ghost use Rattle.std.specs.Prelude.{◌≡◌, Bool, IfErr, OnOk};
ghost use Rattle.std.specs.List.{list_any, fold};
ghost use Rattle.iv_text.specs.declared.want.Want.{Want};
ghost use Rattle.iv_variables.specs.declared.variable.Variable.{Variable};
ghost use Rattle.iv_variables.specs.declared.variable.Variable.TheVariants.{FixedType, SchematicType, Free, Schematic};
ghost use Rattle.iv_variables.specs.Variables.{typ_variables, types_variables, head_variables, variables, terms_variables, IsOfOne};

use iv_term::{Head, Term, Terms, Typ, Types};
use iv_text::{Mem, Name, Text};

/// A test of variables. It takes no memory.
pub trait Test {
    // whether a variable passes
    ghost passes: { Self → Variable → Bool };

    /// Whether this fixed type variable passes.
    fn fixed_type(&self, text: &Text) -> bool
        ensures { result ≡ passes self.now (FixedType text.now) };

    /// Whether this schematic type variable passes.
    fn schematic_type(&self, name: &Name) -> bool
        ensures { result ≡ passes self.now (SchematicType name.now) };

    /// Whether this free variable passes.
    fn free(&self, name: &Name, typ: &Typ) -> bool
        ensures { result ≡ passes self.now (Free name.now typ.now) };

    /// Whether this schematic variable passes.
    fn schematic(&self, name: &Name, typ: &Typ) -> bool
        ensures { result ≡ passes self.now (Schematic name.now typ.now) };
}

/// What is shown each variable in turn.
pub trait Visitor {
    // what it is after a variable
    ghost step: { Self → Variable → Self };

    // the variables at which it may fail, and with what
    ghost fails: { Variable → Want → Type 0 };

    /// Takes a fixed type variable. What makes it fail is the visitor's own.
    fn fixed_type(&mut self, text: &Text) -> Mem<()>
        ensures ok { OnOk result (self.new ≡ step self.old (FixedType text.now)) }
        ensures err { IfErr result (λ w. fails (FixedType text.now) w) };

    /// Takes a schematic type variable. What makes it fail is the visitor's own.
    fn schematic_type(&mut self, name: &Name) -> Mem<()>
        ensures ok { OnOk result (self.new ≡ step self.old (SchematicType name.now)) }
        ensures err { IfErr result (λ w. fails (SchematicType name.now) w) };

    /// Takes a free variable. What makes it fail is the visitor's own.
    fn free(&mut self, name: &Name, typ: &Typ) -> Mem<()>
        ensures ok { OnOk result (self.new ≡ step self.old (Free name.now typ.now)) }
        ensures err { IfErr result (λ w. fails (Free name.now typ.now) w) };

    /// Takes a schematic variable. What makes it fail is the visitor's own.
    fn schematic(&mut self, name: &Name, typ: &Typ) -> Mem<()>
        ensures ok { OnOk result (self.new ≡ step self.old (Schematic name.now typ.now)) }
        ensures err { IfErr result (λ w. fails (Schematic name.now typ.now) w) };
}

/// Whether a variable of a type passes a test. Takes no memory.
#[cycle(any_in_typ)]
pub fn any_in_typ<T: Test>(a: &Typ, test: &T) -> bool
    ensures { result ≡ list_any (T.passes test.now) (typ_variables a.now) }
{
    match a {
        Typ::Con(_c, ts) => any_in_types(ts, test),
        Typ::Fixed(text) => test.fixed_type(text),
        Typ::Schematic(name) => test.schematic_type(name),
    }
}

/// Whether a variable of some types passes a test. Takes no memory.
#[cycle(any_in_typ)]
pub fn any_in_types<T: Test>(ts: &Types, test: &T) -> bool
    ensures { result ≡ list_any (T.passes test.now) (types_variables ts.now) }
{
    match ts {
        Types::Nil => false,
        Types::Cons(t, rest) => {
            if any_in_typ(t.get(), test) {
                true
            } else {
                any_in_types(rest.get(), test)
            }
        }
    }
}

/// Whether a variable of a head passes a test.
fn any_in_head<T: Test>(h: &Head, test: &T) -> bool
    ensures { result ≡ list_any (T.passes test.now) (head_variables h.now) }
{
    match h {
        Head::Const(_c, a) => any_in_typ(a, test),
        Head::Free(x, a) => test.free(x, a) || any_in_typ(a, test),
        Head::Schematic(x, a) => test.schematic(x, a) || any_in_typ(a, test),
        Head::Bound(_n) => false,
    }
}

/// Whether a variable of a term passes a test. Takes no memory.
#[cycle(any)]
pub fn any<T: Test>(t: &Term, test: &T) -> bool
    ensures { result ≡ list_any (T.passes test.now) (variables t.now) }
{
    match t {
        Term::Abs(a, b) => {
            if any_in_typ(a, test) {
                true
            } else {
                any(b.get(), test)
            }
        }
        Term::Spine(h, ts) => {
            if any_in_head(h, test) {
                true
            } else {
                any_in_terms(ts, test)
            }
        }
    }
}

/// Whether a variable of some terms passes a test. Takes no memory.
#[cycle(any)]
pub fn any_in_terms<T: Test>(ts: &Terms, test: &T) -> bool
    ensures { result ≡ list_any (T.passes test.now) (terms_variables ts.now) }
{
    match ts {
        Terms::Nil => false,
        Terms::Cons(t, rest) => {
            if any(t.get(), test) {
                true
            } else {
                any_in_terms(rest.get(), test)
            }
        }
    }
}

/// Shows a visitor the variables of a type. Fails as the visitor does.
#[cycle(each_in_typ)]
pub fn each_in_typ<V: Visitor>(a: &Typ, visitor: &mut V) -> Mem<()>
    ensures ok { OnOk result (visitor.new ≡ fold V.step visitor.old (typ_variables a.now)) }
    ensures err { IfErr result (λ w. IsOfOne (λ v. V.fails v w) (typ_variables a.now)) }
{
    match a {
        Typ::Con(_c, ts) => each_in_types(ts, visitor),
        Typ::Fixed(text) => visitor.fixed_type(text),
        Typ::Schematic(name) => visitor.schematic_type(name),
    }
}

/// Shows a visitor the variables of some types. Fails as the visitor does.
#[cycle(each_in_typ)]
pub fn each_in_types<V: Visitor>(ts: &Types, visitor: &mut V) -> Mem<()>
    ensures ok { OnOk result (visitor.new ≡ fold V.step visitor.old (types_variables ts.now)) }
    ensures err { IfErr result (λ w. IsOfOne (λ v. V.fails v w) (types_variables ts.now)) }
{
    match ts {
        Types::Nil => Ok(()),
        Types::Cons(t, rest) => {
            each_in_typ(t.get(), visitor)?;
            each_in_types(rest.get(), visitor)
        }
    }
}

/// Shows a visitor the variables of a head. Fails as the visitor does.
fn each_in_head<V: Visitor>(h: &Head, visitor: &mut V) -> Mem<()>
    ensures ok { OnOk result (visitor.new ≡ fold V.step visitor.old (head_variables h.now)) }
    ensures err { IfErr result (λ w. IsOfOne (λ v. V.fails v w) (head_variables h.now)) }
{
    match h {
        Head::Const(_c, a) => each_in_typ(a, visitor),
        Head::Free(x, a) => {
            visitor.free(x, a)?;
            each_in_typ(a, visitor)
        }
        Head::Schematic(x, a) => {
            visitor.schematic(x, a)?;
            each_in_typ(a, visitor)
        }
        Head::Bound(_n) => Ok(()),
    }
}

/// Shows a visitor the variables of a term. Fails as the visitor does.
#[cycle(each)]
pub fn each<V: Visitor>(t: &Term, visitor: &mut V) -> Mem<()>
    ensures ok { OnOk result (visitor.new ≡ fold V.step visitor.old (variables t.now)) }
    ensures err { IfErr result (λ w. IsOfOne (λ v. V.fails v w) (variables t.now)) }
{
    match t {
        Term::Abs(a, b) => {
            each_in_typ(a, visitor)?;
            each(b.get(), visitor)
        }
        Term::Spine(h, ts) => {
            each_in_head(h, visitor)?;
            each_in_terms(ts, visitor)
        }
    }
}

/// Shows a visitor the variables of some terms. Fails as the visitor does.
#[cycle(each)]
pub fn each_in_terms<V: Visitor>(ts: &Terms, visitor: &mut V) -> Mem<()>
    ensures ok { OnOk result (visitor.new ≡ fold V.step visitor.old (terms_variables ts.now)) }
    ensures err { IfErr result (λ w. IsOfOne (λ v. V.fails v w) (terms_variables ts.now)) }
{
    match ts {
        Terms::Nil => Ok(()),
        Terms::Cons(t, rest) => {
            each(t.get(), visitor)?;
            each_in_terms(rest.get(), visitor)
        }
    }
}

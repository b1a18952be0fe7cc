ghost use Rattle.std.specs.Prelude.{◌≡◌, IfOk, IfErr, IsTrue, ◌↔◌, codes};
ghost use Rattle.iv_term.specs.Typ.{prop, fun, ty_cons};
ghost use Rattle.iv_term.specs.Term.{imp, imp_head, implies, is_nil, is_one, are_two, first_or, rest_of, antecedent, consequent, IsImplication};
ghost use Rattle.iv_text.specs.declared.want.Want.TheVariants.{Memory};
ghost use Rattle.iv_term.specs.declared.typ.Typ.TheBlock.{Nil};
ghost use Rattle.iv_term.specs.declared.term.Term.TheBlock.{Nil as no_terms};

use crate::term::{Head, Term, Terms};
use crate::typ::{Typ, Types};
use iv_text::{Mem, Text};
use std::alloc::Global;

impl Types {
    /// Whether the list is empty. Takes no memory.
    pub fn is_nil(&self) -> bool
        ensures { IsTrue result ↔ (self.now ≡ Nil) }
    {
        match self {
            Types::Nil => true,
            Types::Cons(_first, _rest) => false,
        }
    }

    /// Whether it is `prop` alone.
    fn is_only_prop(&self) -> bool
        ensures { IsTrue result ↔ (self.now ≡ ty_cons prop Nil) }
    {
        match self {
            Types::Nil => false,
            Types::Cons(first, rest) => first.get().is_prop() && rest.get().is_nil(),
        }
    }

    /// Whether it is `prop`, `prop`.
    fn is_two_props(&self) -> bool
        ensures { IsTrue result ↔ (self.now ≡ ty_cons prop (ty_cons prop Nil)) }
    {
        match self {
            Types::Nil => false,
            Types::Cons(first, rest) => first.get().is_prop() && rest.get().is_only_prop(),
        }
    }

    /// Whether it is the type of functions from `prop` to `prop` alone.
    fn is_only_prop_to_prop(&self) -> bool
        ensures { IsTrue result ↔ (self.now ≡ ty_cons (fun prop prop) Nil) }
    {
        match self {
            Types::Nil => false,
            Types::Cons(first, rest) => first.get().is_prop_to_prop() && rest.get().is_nil(),
        }
    }

    /// Whether it is `prop` and the type of functions from `prop` to `prop`.
    fn is_prop_and_prop_to_prop(&self) -> bool
        ensures { IsTrue result ↔ (self.now ≡ ty_cons prop (ty_cons (fun prop prop) Nil)) }
    {
        match self {
            Types::Nil => false,
            Types::Cons(first, rest) => first.get().is_prop() && rest.get().is_only_prop_to_prop(),
        }
    }
}

impl Typ {
    /// The type of the implication. Fails where memory runs out.
    pub fn implies(alloc: Global) -> Mem<Typ>
        ensures ok { IfOk result (λ a. a ≡ implies) }
        ensures memory { IfErr result (λ w. w ≡ Memory) }
    {
        let prop = Typ::prop(alloc)?;
        let inner = Typ::fun(alloc, prop.copy()?, prop.copy()?)?;
        Typ::fun(alloc, prop, inner)
    }

    /// Whether it is the type of functions from `prop` to `prop`.
    fn is_prop_to_prop(&self) -> bool
        ensures { IsTrue result ↔ (self.now ≡ fun prop prop) }
    {
        match self {
            Typ::Con(c, ts) => c.is_chars(&['f', 'u', 'n']) && ts.is_two_props(),
            _ => false,
        }
    }

    /// Whether it is the type of the implication. Takes no memory.
    pub fn is_implies(&self) -> bool
        ensures { IsTrue result ↔ (self.now ≡ implies) }
    {
        match self {
            Typ::Con(c, ts) => c.is_chars(&['f', 'u', 'n']) && ts.is_prop_and_prop_to_prop(),
            _ => false,
        }
    }
}

/// Whether a constant of this type is the implication.
fn is_implication(c: &Text, a: &Typ) -> bool
    ensures { IsTrue result ↔ ((c.now ≡ codes "==>") × (a.now ≡ implies)) }
{
    c.is_chars(&['=', '=', '>']) && a.is_implies()
}

impl Head {
    /// Whether it is the implication. Takes no memory.
    fn is_implication(&self) -> bool
        ensures { IsTrue result ↔ (self.now ≡ imp_head) }
    {
        match self {
            Head::Const(c, a) => is_implication(c, a),
            Head::Free(_x, _a) => false,
            Head::Schematic(_x, _a) => false,
            Head::Bound(_i) => false,
        }
    }
}

impl Terms {
    /// Whether the list has one term. Takes no memory.
    pub fn is_one(&self) -> bool
        ensures { result ≡ is_one self.now }
    {
        match self {
            Terms::Nil => false,
            Terms::Cons(_first, rest) => rest.get().is_nil(),
        }
    }

    /// Whether the list has two terms. Takes no memory.
    pub fn are_two(&self) -> bool
        ensures { result ≡ are_two self.now }
    {
        match self {
            Terms::Nil => false,
            Terms::Cons(_first, rest) => rest.get().is_one(),
        }
    }

    /// The first term, or `other` where the list is empty.
    fn first_or<'a>(&'a self, other: &'a Term) -> &'a Term
        ensures { result.now ≡ first_or other.now self.now }
    {
        match self {
            Terms::Nil => other,
            Terms::Cons(first, _rest) => first.get(),
        }
    }

    /// The list behind the first term.
    fn rest(&self) -> &Terms
        ensures { result.now ≡ rest_of self.now }
    {
        match self {
            Terms::Nil => self,
            Terms::Cons(_first, rest) => rest.get(),
        }
    }

    /// Whether the list is empty. Takes no memory.
    pub fn is_nil(&self) -> bool
        ensures same { result ≡ is_nil self.now }
        ensures empty { IsTrue result ↔ (self.now ≡ no_terms) }
    {
        match self {
            Terms::Nil => true,
            Terms::Cons(_first, _rest) => false,
        }
    }
}

impl Term {
    /// The implication `a ==> b`. Fails where memory runs out.
    pub fn imp(alloc: Global, a: &Term, b: &Term) -> Mem<Term>
        ensures ok { IfOk result (λ t. t ≡ imp a.now b.now) }
        ensures memory { IfErr result (λ w. w ≡ Memory) }
    {
        let last = Terms::only(alloc, b)?;
        let both = Terms::cons(alloc, a.copy()?, last)?;
        let name = Text::from_slice(alloc, &['=', '=', '>'])?;
        Ok(Term::Spine(Head::Const(name, Typ::implies(alloc)?), both))
    }

    /// Whether it is an implication. Takes no memory.
    pub fn is_implication(&self) -> bool
        ensures { IsTrue result ↔ IsImplication self.now }
    {
        match self {
            Term::Abs(_a, _b) => false,
            Term::Spine(h, ts) => h.is_implication() && ts.are_two(),
        }
    }

    /// The first argument, which is the premise of an implication; where there is none, the term itself.
    /// Takes no memory.
    pub fn antecedent(&self) -> &Term
        ensures { result.now ≡ antecedent self.now }
    {
        match self {
            Term::Abs(_a, _b) => self,
            Term::Spine(_h, ts) => { ts.first_or(self) }
        }
    }

    /// The second argument, which is the conclusion of an implication; where there is none, the term
    /// itself. Takes no memory.
    pub fn consequent(&self) -> &Term
        ensures { result.now ≡ consequent self.now }
    {
        match self {
            Term::Abs(_a, _b) => self,
            Term::Spine(_h, ts) => { ts.rest().first_or(self) }
        }
    }
}

ghost use Rattle.std.specs.Prelude.{◌≡◌, IfOk, IfErr, IsTrue, ◌↔◌};
ghost use Rattle.iv_term.specs.Typ.{prop, fun, ty_cons, same_typ};
ghost use Rattle.iv_text.specs.declared.want.Want.TheVariants.{Memory};

use iv_shared::Shared;
use iv_text::{Mem, Name, Text};
use std::alloc::Global;

/// A type.
#[derive(Drop)]
#[cycle(typ)]
pub enum Typ {
    /// A declared constructor with its arguments, as `prop` with none and `fun` with two.
    Con(Text, Types),
    /// A fixed type variable.
    Fixed(Text),
    /// A schematic type variable.
    Schematic(Name),
}

/// A list of types.
#[derive(Drop)]
#[cycle(typ)]
pub enum Types {
    /// No type.
    Nil,
    /// The first type, and the others.
    Cons(Shared<Typ>, Shared<Types>),
}

impl Typ {
    /// The type `prop` of propositions. Fails where memory runs out.
    pub fn prop(alloc: Global) -> Mem<Typ>
        ensures ok { IfOk result (λ a. a ≡ prop) }
        ensures memory { IfErr result (λ w. w ≡ Memory) }
    {
        Ok(Typ::Con(Text::from_slice(alloc, &['p', 'r', 'o', 'p'])?, Types::Nil))
    }

    /// The type of functions from `from` to `to`. Fails where memory runs out.
    pub fn fun(alloc: Global, from: Typ, to: Typ) -> Mem<Typ>
        ensures ok { IfOk result (λ a. a ≡ fun from to) }
        ensures memory { IfErr result (λ w. w ≡ Memory) }
    {
        let to = Types::cons(alloc, to, Types::Nil)?;
        let both = Types::cons(alloc, from, to)?;
        Ok(Typ::Con(Text::from_slice(alloc, &['f', 'u', 'n'])?, both))
    }

    /// Whether it is the type `prop`.
    pub fn is_prop(&self) -> bool
        ensures { IsTrue result ↔ (self.now ≡ prop) }
    {
        match self {
            Typ::Con(c, Types::Nil) => c.is_chars(&['p', 'r', 'o', 'p']),
            _ => false,
        }
    }

    /// Whether both are the same type.
    pub fn is(&self, other: &Typ) -> bool
        ensures same { result ≡ same_typ self.now other.now }
        ensures equal { IsTrue result ↔ (self.now ≡ other.now) }
    {
        self.equals(other)
    }

    #[cycle(typ_is)]
    fn equals(&self, other: &Typ) -> bool
        ensures { IsTrue result ↔ (self.now ≡ other.now) }
    {
        match (self, other) {
            (Typ::Con(c, ts), Typ::Con(d, us)) => c.is(d) && ts.equals(us),
            (Typ::Fixed(a), Typ::Fixed(b)) => a.is(b),
            (Typ::Schematic(a), Typ::Schematic(b)) => a.is(b),
            _ => false,
        }
    }

    /// An equal type: one node is copied, its parts are shared. Fails where the count of owners is full.
    pub fn copy(&self) -> Mem<Typ>
        ensures ok { IfOk result (λ t. t ≡ self.now) }
        ensures memory { IfErr result (λ w. w ≡ Memory) }
    {
        match self {
            Typ::Con(c, ts) => Ok(Typ::Con(c.copy()?, ts.copy()?)),
            Typ::Fixed(a) => Ok(Typ::Fixed(a.copy()?)),
            Typ::Schematic(a) => Ok(Typ::Schematic(a.copy()?)),
        }
    }
}

impl Types {
    /// The list with one type in front. Fails where memory runs out.
    pub fn cons(alloc: Global, first: Typ, rest: Types) -> Mem<Types>
        ensures ok { IfOk result (λ ts. ts ≡ ty_cons first rest) }
        ensures memory { IfErr result (λ w. w ≡ Memory) }
    {
        let first = Shared::new(alloc, first)?;
        let rest = Shared::new(alloc, rest)?;
        Ok(Types::Cons(first, rest))
    }

    #[cycle(typ_is)]
    fn equals(&self, other: &Types) -> bool
        ensures { IsTrue result ↔ (self.now ≡ other.now) }
    {
        match (self, other) {
            (Types::Nil, Types::Nil) => true,
            (Types::Cons(t, ts), Types::Cons(u, us)) => t.get().equals(u.get())
                && ts.get().equals(us.get()),
            _ => false,
        }
    }

    /// An equal list, whose parts are shared. Fails where the count of owners is full.
    pub fn copy(&self) -> Mem<Types>
        ensures ok { IfOk result (λ ts. ts ≡ self.now) }
        ensures memory { IfErr result (λ w. w ≡ Memory) }
    {
        match self {
            Types::Nil => Ok(Types::Nil),
            Types::Cons(t, ts) => Ok(Types::Cons(t.share()?, ts.share()?)),
        }
    }
}

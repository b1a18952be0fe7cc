ghost use Rattle.std.specs.Prelude.{◌≡◌, IfOk, IfErr, IsTrue, ◌↔◌};
ghost use Rattle.iv_term.specs.Term.{tm_cons, same_term};
ghost use Rattle.iv_text.specs.declared.want.Want.TheVariants.{Memory};

use crate::typ::Typ;
use iv_shared::Shared;
use iv_text::{Mem, Name, Text};
use std::alloc::Global;

/// What stands at the head of an application.
pub enum Head {
    /// A constant with its type.
    Const(Text, Typ),
    /// A free variable.
    Free(Name, Typ),
    /// A schematic variable.
    Schematic(Name, Typ),
    /// A bound variable: the number of abstractions between it and its own.
    Bound(u32),
}

impl Drop for Head {
    fn drop(self) {
        match self {
            Head::Const(_c, _t) => {}
            Head::Free(_x, _t) => {}
            Head::Schematic(_x, _t) => {}
            Head::Bound(_i) => {}
        }
    }
}

/// A term: an abstraction over a type, or a head with its arguments.
#[derive(Drop)]
#[cycle(term)]
pub enum Term {
    /// An abstraction: the type of its variable, and its body.
    Abs(Typ, Shared<Term>),
    /// A head with its arguments.
    Spine(Head, Terms),
}

/// A list of terms.
#[derive(Drop)]
#[cycle(term)]
pub enum Terms {
    /// No term.
    Nil,
    /// The first term, and the others.
    Cons(Shared<Term>, Shared<Terms>),
}

impl Head {
    /// Whether both are the same head.
    pub fn is(&self, other: &Head) -> bool
        ensures { IsTrue result ↔ (self.now ≡ other.now) }
    {
        match (self, other) {
            (Head::Const(c, t), Head::Const(d, u)) => c.is(d) && t.is(u),
            (Head::Free(x, t), Head::Free(y, u)) => x.is(y) && t.is(u),
            (Head::Schematic(x, t), Head::Schematic(y, u)) => x.is(y) && t.is(u),
            (Head::Bound(i), Head::Bound(j)) => *i == *j,
            _ => false,
        }
    }

    /// An equal head. Fails where a count of owners is full.
    pub fn copy(&self) -> Mem<Head>
        ensures ok { IfOk result (λ h. h ≡ self.now) }
        ensures memory { IfErr result (λ w. w ≡ Memory) }
    {
        match self {
            Head::Const(c, t) => Ok(Head::Const(c.copy()?, t.copy()?)),
            Head::Free(x, t) => Ok(Head::Free(x.copy()?, t.copy()?)),
            Head::Schematic(x, t) => Ok(Head::Schematic(x.copy()?, t.copy()?)),
            Head::Bound(i) => Ok(Head::Bound(*i)),
        }
    }
}

impl Term {
    /// Whether both are the same term.
    pub fn is(&self, other: &Term) -> bool
        ensures same { result ≡ same_term self.now other.now }
        ensures equal { IsTrue result ↔ (self.now ≡ other.now) }
    {
        self.equals(other)
    }

    #[cycle(term_is)]
    fn equals(&self, other: &Term) -> bool
        ensures { IsTrue result ↔ (self.now ≡ other.now) }
    {
        match (self, other) {
            (Term::Abs(a, b), Term::Abs(c, d)) => a.is(c) && b.get().equals(d.get()),
            (Term::Spine(h, ts), Term::Spine(k, us)) => h.is(k) && ts.equals(us),
            _ => false,
        }
    }

    /// An equal term: one node is copied, its parts are shared. Fails where a count of owners is full.
    pub fn copy(&self) -> Mem<Term>
        ensures ok { IfOk result (λ t. t ≡ self.now) }
        ensures memory { IfErr result (λ w. w ≡ Memory) }
    {
        match self {
            Term::Abs(a, b) => Ok(Term::Abs(a.copy()?, b.share()?)),
            Term::Spine(h, ts) => Ok(Term::Spine(h.copy()?, ts.copy()?)),
        }
    }
}

impl Terms {
    /// The list with one term in front. Fails where memory runs out.
    pub fn cons(alloc: Global, first: Term, rest: Terms) -> Mem<Terms>
        ensures ok { IfOk result (λ ts. ts ≡ tm_cons first rest) }
        ensures memory { IfErr result (λ w. w ≡ Memory) }
    {
        let first = Shared::new(alloc, first)?;
        let rest = Shared::new(alloc, rest)?;
        Ok(Terms::Cons(first, rest))
    }

    #[cycle(term_is)]
    fn equals(&self, other: &Terms) -> bool
        ensures { IsTrue result ↔ (self.now ≡ other.now) }
    {
        match (self, other) {
            (Terms::Nil, Terms::Nil) => true,
            (Terms::Cons(t, ts), Terms::Cons(u, us)) => t.get().equals(u.get())
                && ts.get().equals(us.get()),
            _ => false,
        }
    }

    /// An equal list, whose parts are shared. Fails where the count of owners is full.
    pub fn copy(&self) -> Mem<Terms>
        ensures ok { IfOk result (λ ts. ts ≡ self.now) }
        ensures memory { IfErr result (λ w. w ≡ Memory) }
    {
        match self {
            Terms::Nil => Ok(Terms::Nil),
            Terms::Cons(t, ts) => Ok(Terms::Cons(t.share()?, ts.share()?)),
        }
    }
}

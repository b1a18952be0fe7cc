ghost use Rattle.std.specs.Prelude.{◌≡◌, IfOk, IfErr};
ghost use Rattle.iv_term.specs.Hyps.{among, snoc, added, union, without};
ghost use Rattle.iv_term.specs.Term.{tm_cons};
ghost use Rattle.iv_text.specs.declared.want.Want.TheVariants.{Memory};
ghost use Rattle.iv_term.specs.declared.term.Term.TheBlock.{Nil};

use crate::term::{Term, Terms};
use iv_text::Mem;
use std::alloc::Global;

impl Terms {
    /// The list of one term. Fails where memory runs out.
    pub fn only(alloc: Global, t: &Term) -> Mem<Terms>
        ensures ok { IfOk result (λ ts. ts ≡ tm_cons t.now Nil) }
        ensures memory { IfErr result (λ w. w ≡ Memory) }
    {
        Terms::cons(alloc, t.copy()?, Terms::Nil)
    }

    /// Whether a term is in the list.
    pub fn has(&self, t: &Term) -> bool
        ensures { result ≡ among t.now self.now }
    {
        match self {
            Terms::Nil => false,
            Terms::Cons(u, us) => { if t.is(u.get()) { true } else { us.get().has(t) } }
        }
    }

    /// The list with a term at its end. Fails where memory runs out.
    pub fn snoc(&self, alloc: Global, t: &Term) -> Mem<Terms>
        ensures ok { IfOk result (λ ts. ts ≡ snoc self.now t.now) }
        ensures memory { IfErr result (λ w. w ≡ Memory) }
    {
        match self {
            Terms::Nil => Terms::only(alloc, t),
            Terms::Cons(u, us) => {
                let rest = us.get().snoc(alloc, t)?;
                Terms::cons(alloc, u.get().copy()?, rest)
            }
        }
    }

    /// The list, with a term at its end where it is new. Fails where memory runs out.
    pub fn added(&self, alloc: Global, t: &Term) -> Mem<Terms>
        ensures ok { IfOk result (λ ts. ts ≡ added self.now t.now) }
        ensures memory { IfErr result (λ w. w ≡ Memory) }
    {
        if self.has(t) {
            self.copy()
        } else {
            self.snoc(alloc, t)
        }
    }

    /// The list, and behind it what is new of another. Fails where memory runs out.
    pub fn union(&self, alloc: Global, other: &Terms) -> Mem<Terms>
        ensures ok { IfOk result (λ ts. ts ≡ union self.now other.now) }
        ensures memory { IfErr result (λ w. w ≡ Memory) }
    {
        other.behind(alloc, self)
    }

    /// Another list, and behind it what is new of this one.
    fn behind(&self, alloc: Global, first: &Terms) -> Mem<Terms>
        ensures ok { IfOk result (λ ts. ts ≡ union first.now self.now) }
        ensures memory { IfErr result (λ w. w ≡ Memory) }
    {
        match self {
            Terms::Nil => first.copy(),
            Terms::Cons(u, us) => {
                let longer = first.added(alloc, u.get())?;
                us.get().behind(alloc, &longer)
            }
        }
    }

    /// The list with a term taken out. Fails where memory runs out.
    pub fn without(&self, alloc: Global, t: &Term) -> Mem<Terms>
        ensures ok { IfOk result (λ ts. ts ≡ without t.now self.now) }
        ensures memory { IfErr result (λ w. w ≡ Memory) }
    {
        match self {
            Terms::Nil => Ok(Terms::Nil),
            Terms::Cons(u, us) => {
                let rest = us.get().without(alloc, t)?;
                if t.is(u.get()) {
                    Ok(rest)
                } else {
                    Terms::cons(alloc, u.get().copy()?, rest)
                }
            }
        }
    }
}

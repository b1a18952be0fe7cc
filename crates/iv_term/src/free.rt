ghost use Rattle.std.specs.Prelude.{◌≡◌};
ghost use Rattle.iv_term.specs.Term.{has_free, any_has_free, is_free};

use crate::term::{Head, Term, Terms};
use crate::typ::Typ;
use iv_text::Name;

impl Head {
    /// Whether it is the free variable of this name and type. Takes no memory.
    fn is_free(&self, name: &Name, typ: &Typ) -> bool
        ensures { result ≡ is_free name.now typ.now self.now }
    {
        match self {
            Head::Free(x, a) => name.is(x) && typ.is(a),
            _ => false,
        }
    }
}

impl Term {
    /// Whether a free variable of this name and type stands in the term. Takes no memory.
    #[cycle(has_free)]
    pub fn has_free(&self, name: &Name, typ: &Typ) -> bool
        ensures { result ≡ has_free name.now typ.now self.now }
    {
        match self {
            Term::Abs(_a, b) => b.get().has_free(name, typ),
            Term::Spine(h, ts) => {
                if h.is_free(name, typ) {
                    true
                } else {
                    ts.any_has_free(name, typ)
                }
            }
        }
    }
}

impl Terms {
    /// Whether a free variable of this name and type stands in one of the terms. Takes no memory.
    #[cycle(has_free)]
    pub fn any_has_free(&self, name: &Name, typ: &Typ) -> bool
        ensures { result ≡ any_has_free name.now typ.now self.now }
    {
        match self {
            Terms::Nil => false,
            Terms::Cons(t, ts) => {
                if t.get().has_free(name, typ) {
                    true
                } else {
                    ts.get().any_has_free(name, typ)
                }
            }
        }
    }
}

//! Whether a free variable of a name, of whatever type, stands in hypotheses.
ghost use Rattle.std.specs.Prelude.{◌≡◌};
ghost use Rattle.iv_rules.specs.Eigenvariable.{is_named, has_named, any_has_named};

use iv_term::{Head, Term, Terms};
use iv_text::Name;

/// Whether a head is a free variable of this name.
fn is_named(h: &Head, name: &Name) -> bool
    ensures { result ≡ is_named name.now h.now }
{
    match h {
        Head::Free(x, _a) => name.is(x),
        _ => false,
    }
}

/// Whether a free variable of this name, of whatever type, stands in a term.
#[cycle(has_named)]
fn has_named(t: &Term, name: &Name) -> bool
    ensures { result ≡ has_named name.now t.now }
{
    match t {
        Term::Abs(_a, b) => has_named(b.get(), name),
        Term::Spine(h, ts) => {
            if is_named(h, name) {
                true
            } else {
                any_has_named(ts, name)
            }
        }
    }
}

/// Whether a free variable of this name, of whatever type, stands in one of the terms. Takes no memory.
#[cycle(has_named)]
pub fn any_has_named(ts: &Terms, name: &Name) -> bool
    ensures { result ≡ any_has_named name.now ts.now }
{
    match ts {
        Terms::Nil => false,
        Terms::Cons(t, rest) => {
            if has_named(t.get(), name) {
                true
            } else {
                any_has_named(rest.get(), name)
            }
        }
    }
}

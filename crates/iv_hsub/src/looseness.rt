//! The loose indices of a term.
ghost use Rattle.std.specs.Prelude.{◌≡◌, max};
ghost use Rattle.iv_hsub.specs.Index.{loose_head, loose, loose_all};

use iv_term::{Head, Term, Terms};

/// The greater of two numbers.
fn greater(a: u64, b: u64) -> u64
    ensures { result ≡ max a b }
{
    if a < b { b } else { a }
}

/// One more than the index of a head, or 0.
fn loose_head(h: &Head) -> u64
    ensures { result ≡ loose_head h.now }
{
    match h {
        Head::Bound(n) => *n as u64 + 1,
        Head::Const(_c, _a) => 0,
        Head::Free(_x, _a) => 0,
        Head::Schematic(_x, _a) => 0,
    }
}

/// One more than the greatest loose index of a term, or 0 where it has none. Takes no memory.
#[cycle(loose)]
pub fn loose(t: &Term) -> u64
    ensures { result ≡ loose t.now }
{
    match t {
        Term::Abs(_a, b) => loose(b.get()).saturating_sub(1),
        Term::Spine(h, ts) => greater(loose_head(h), loose_all(ts)),
    }
}

/// The same of some terms.
#[cycle(loose)]
fn loose_all(ts: &Terms) -> u64
    ensures { result ≡ loose_all ts.now }
{
    match ts {
        Terms::Nil => 0,
        Terms::Cons(t, rest) => greater(loose(t.get()), loose_all(rest.get())),
    }
}

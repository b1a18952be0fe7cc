//! Whether what an instance replaces stands in hypotheses.
ghost use Rattle.std.specs.Prelude.{◌≡◌, is_some, IsTrue, ◌↔◌};
ghost use Rattle.iv_rules.specs.Entries.{term_at};
ghost use Rattle.iv_rules.specs.Instance.{changes_typ, changes_typs, is_changed, changes, changes_any, IsFreshFor};

use iv_rules::Instance;
use iv_term::{Head, Term, Terms, Typ, Types};
use iv_text::Name;

/// Whether the type variables and free variables that an instance replaces are in no hypothesis. Takes no memory.
pub fn is_fresh_for(s: &Instance, hs: &Terms) -> bool
    ensures { IsTrue result ↔ IsFreshFor s.now hs.now }
{
    !changes_any(hs, s)
}

/// Whether a type variable that an instance replaces stands in a type.
#[cycle(changes_typ)]
fn changes_typ(a: &Typ, s: &Instance) -> bool
    ensures { result ≡ changes_typ s.now a.now }
{
    match a {
        Typ::Con(_c, ts) => changes_typs(ts, s),
        Typ::Fixed(x) => s.fixed.get(x).is_some(),
        Typ::Schematic(x) => s.types.get(x).is_some(),
    }
}

/// The same of some types.
#[cycle(changes_typ)]
fn changes_typs(ts: &Types, s: &Instance) -> bool
    ensures { result ≡ changes_typs s.now ts.now }
{
    match ts {
        Types::Nil => false,
        Types::Cons(t, rest) => {
            if changes_typ(t.get(), s) {
                true
            } else {
                changes_typs(rest.get(), s)
            }
        }
    }
}

/// Whether an instance puts a term for a free variable.
fn has_value(x: &Name, a: &Typ, s: &Instance) -> bool
    ensures { result ≡ is_some (term_at s.now.frees x.now a.now) }
{
    s.frees.get(x, a).is_some()
}

/// Whether a head is a free variable that an instance replaces, or such a type variable stands in its type.
fn is_changed(h: &Head, s: &Instance) -> bool
    ensures { result ≡ is_changed s.now h.now }
{
    match h {
        Head::Const(_c, a) => changes_typ(a, s),
        Head::Free(x, a) => changes_typ(a, s) || has_value(x, a, s),
        Head::Schematic(_x, a) => changes_typ(a, s),
        Head::Bound(_n) => false,
    }
}

/// Whether a type variable or a free variable that an instance replaces stands in a term.
#[cycle(changes)]
fn changes(t: &Term, s: &Instance) -> bool
    ensures { result ≡ changes s.now t.now }
{
    match t {
        Term::Abs(a, b) => {
            if changes_typ(a, s) {
                true
            } else {
                changes(b.get(), s)
            }
        }
        Term::Spine(h, ts) => {
            if is_changed(h, s) {
                true
            } else {
                changes_any(ts, s)
            }
        }
    }
}

/// The same of some terms.
#[cycle(changes)]
fn changes_any(ts: &Terms, s: &Instance) -> bool
    ensures { result ≡ changes_any s.now ts.now }
{
    match ts {
        Terms::Nil => false,
        Terms::Cons(t, rest) => {
            if changes(t.get(), s) {
                true
            } else {
                changes_any(rest.get(), s)
            }
        }
    }
}

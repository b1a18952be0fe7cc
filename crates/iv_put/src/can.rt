//! Whether a substitution can be applied.
ghost use Rattle.std.specs.Prelude.{◌≡◌, IsTrue, ◌↔◌};
ghost use Rattle.iv_subst.specs.TySubst.{put_typ, put_typs, at};
ghost use Rattle.iv_hsub.specs.Retype.{retype_head, retype, retype_all};
ghost use Rattle.iv_hsub.specs.Inst.{HeadVars, AllVars, Fits};
ghost use Rattle.iv_put.specs.Subst.{by_map, values, CanApply, CanCompose};

use crate::substitution::Subst;
use iv_subst::TySubst;
use iv_term::{Head, Term, Terms, Typ, Types};

impl Subst {
    /// Whether the value of each variable in a term has the variable's type under the types. Takes no memory.
    pub fn can_apply(&self, t: &Term) -> bool
        ensures { IsTrue result ↔ CanApply self.now t.now }
    {
        fits(t, self)
    }

    /// Whether `next` can be applied to each value. Takes no memory.
    pub fn can_compose(&self, next: &Subst) -> bool
        ensures { IsTrue result ↔ CanCompose self.now next.now }
    {
        for i in 0..self.len() {
            if !next.can_apply(self.entry(i).1) {
                return false;
            }
        }
        true
    }
}

/// Whether the values fit the variables in a term.
#[cycle(fits)]
fn fits(t: &Term, s: &Subst) -> bool
    ensures { IsTrue result ↔ CanApply s.now t.now }
{
    match t {
        Term::Abs(_a, b) => fits(b.get(), s),
        Term::Spine(h, ts) => {
            if !fits_head(h, s) {
                return false;
            }
            all_fit(ts, s)
        }
    }
}

/// The same of some terms.
#[cycle(fits)]
fn all_fit(ts: &Terms, s: &Subst) -> bool
    ensures { IsTrue result ↔ AllVars (λ h a. Fits (values s.now h) a) (retype_all (by_map s.now.0) ts.now) }
{
    match ts {
        Terms::Nil => true,
        Terms::Cons(t, rest) => {
            if !fits(t.get(), s) {
                return false;
            }
            all_fit(rest.get(), s)
        }
    }
}

/// Whether a head has no value, or one that fits.
fn fits_head(h: &Head, s: &Subst) -> bool
    ensures { IsTrue result ↔ HeadVars (λ k a. Fits (values s.now k) a) (retype_head (by_map s.now.0) h.now) }
{
    match h {
        Head::Const(_c, _a) => true,
        Head::Free(_x, _a) => true,
        Head::Schematic(x, a) => match s.lookup(x) {
            None => true,
            Some((_value, typ)) => becomes(a, typ, s.types()),
        },
        Head::Bound(_n) => true,
    }
}

/// Whether a type is another one under a map.
#[cycle(becomes)]
fn becomes(a: &Typ, b: &Typ, types: &TySubst) -> bool
    ensures { IsTrue result ↔ (put_typ (at types.now) a.now ≡ b.now) }
{
    match a {
        Typ::Con(c, ts) => match b {
            Typ::Con(d, us) => {
                if !c.is(d) {
                    return false;
                }
                all_become(ts, us, types)
            }
            Typ::Fixed(_d) => false,
            Typ::Schematic(_y) => false,
        },
        Typ::Fixed(_c) => a.is(b),
        Typ::Schematic(x) => match types.get(x) {
            None => a.is(b),
            Some(typ) => typ.is(b),
        },
    }
}

/// The same of two lists of types.
#[cycle(becomes)]
fn all_become(ts: &Types, us: &Types, types: &TySubst) -> bool
    ensures { IsTrue result ↔ (put_typs (at types.now) ts.now ≡ us.now) }
{
    match ts {
        Types::Nil => us.is_nil(),
        Types::Cons(t, rest) => match us {
            Types::Nil => false,
            Types::Cons(u, more) => {
                if !becomes(t.get(), u.get(), types) {
                    return false;
                }
                all_become(rest.get(), more.get(), types)
            }
        },
    }
}

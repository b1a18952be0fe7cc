//! Schematic variables in theorems: whether hypotheses have any, and whether those of one name have one type.
ghost use Rattle.std.specs.Prelude.{◌≡◌, false, ◌++◌, IsTrue, ◌↔◌};
ghost use Rattle.std.specs.List.{AllByRecursion};
ghost use Rattle.iv_kernel.specs.Schematics.{is_open, are_open, is_schematic_head, is_schematic, are_schematic, variable_of, variables_of, variables_of_all, HasOneType, AreOneTyped};

use crate::thm::Thm;
use iv_term::{Head, Term, Terms, Typ, Types};
use iv_text::Name;

/// Whether a schematic type variable stands in a type.
#[cycle(is_open)]
fn is_open(a: &Typ) -> bool
    ensures { result ≡ is_open a.now }
{
    match a {
        Typ::Con(_c, ts) => are_open(ts),
        Typ::Fixed(_a) => false,
        Typ::Schematic(_x) => true,
    }
}

/// The same of some types.
#[cycle(is_open)]
fn are_open(ts: &Types) -> bool
    ensures { result ≡ are_open ts.now }
{
    match ts {
        Types::Nil => false,
        Types::Cons(t, rest) => {
            if is_open(t.get()) {
                true
            } else {
                are_open(rest.get())
            }
        }
    }
}

/// Whether a head is a schematic variable, or a schematic type variable stands in its type.
fn is_schematic_head(h: &Head) -> bool
    ensures { result ≡ is_schematic_head h.now }
{
    match h {
        Head::Const(_c, a) => is_open(a),
        Head::Free(_x, a) => is_open(a),
        Head::Schematic(_x, _a) => true,
        Head::Bound(_n) => false,
    }
}

/// Whether a schematic variable or a schematic type variable stands in a term.
#[cycle(is_schematic)]
fn is_schematic(t: &Term) -> bool
    ensures { result ≡ is_schematic t.now }
{
    match t {
        Term::Abs(a, b) => {
            if is_open(a) {
                true
            } else {
                is_schematic(b.get())
            }
        }
        Term::Spine(h, ts) => {
            if is_schematic_head(h) {
                true
            } else {
                are_schematic(ts)
            }
        }
    }
}

/// The same of some terms.
#[cycle(is_schematic)]
fn are_schematic(ts: &Terms) -> bool
    ensures { result ≡ are_schematic ts.now }
{
    match ts {
        Terms::Nil => false,
        Terms::Cons(t, rest) => {
            if is_schematic(t.get()) {
                true
            } else {
                are_schematic(rest.get())
            }
        }
    }
}

/// Whether a head, if it is a schematic variable of this name, has this type.
fn head_has_type(h: &Head, x: &Name, a: &Typ) -> bool
    ensures { IsTrue result ↔ HasOneType (variable_of h.now) x.now a.now }
{
    match h {
        Head::Schematic(y, b) => !y.is(x) || b.is(a),
        _ => true,
    }
}

/// Whether each schematic variable of this name in a term has this type.
#[cycle(has_type)]
fn has_type(t: &Term, x: &Name, a: &Typ) -> bool
    ensures { IsTrue result ↔ HasOneType (variables_of t.now) x.now a.now }
{
    match t {
        Term::Abs(_b, body) => has_type(body.get(), x, a),
        Term::Spine(h, ts) => head_has_type(h, x, a) && all_have_type(ts, x, a),
    }
}

/// The same of some terms.
#[cycle(has_type)]
fn all_have_type(ts: &Terms, x: &Name, a: &Typ) -> bool
    ensures { IsTrue result ↔ HasOneType (variables_of_all ts.now) x.now a.now }
{
    match ts {
        Terms::Nil => true,
        Terms::Cons(t, rest) => has_type(t.get(), x, a) && all_have_type(rest.get(), x, a),
    }
}

/// Whether each schematic variable of this name in hypotheses and a proposition has this type.
fn sequent_has_type(hyps: &Terms, prop: &Term, x: &Name, a: &Typ) -> bool
    ensures { IsTrue result ↔ HasOneType (variables_of_all hyps.now ++ variables_of prop.now) x.now a.now }
{
    all_have_type(hyps, x, a) && has_type(prop, x, a)
}

/// Whether a head, if it is a schematic variable, has the type of all others of its name in a sequent.
fn head_agrees(h: &Head, hyps: &Terms, prop: &Term) -> bool
    ensures { let vs = variables_of_all hyps.now ++ variables_of prop.now in
        IsTrue result ↔ AllByRecursion (λ v. HasOneType vs v.0 v.1) (variable_of h.now) }
{
    match h {
        Head::Schematic(x, a) => sequent_has_type(hyps, prop, x, a),
        _ => true,
    }
}

/// Whether each schematic variable of a term has the type of all others of its name in a sequent.
#[cycle(agrees)]
fn agrees(t: &Term, hyps: &Terms, prop: &Term) -> bool
    ensures { let vs = variables_of_all hyps.now ++ variables_of prop.now in
        IsTrue result ↔ AllByRecursion (λ v. HasOneType vs v.0 v.1) (variables_of t.now) }
{
    match t {
        Term::Abs(_a, b) => agrees(b.get(), hyps, prop),
        Term::Spine(h, ts) => head_agrees(h, hyps, prop) && all_agree(ts, hyps, prop),
    }
}

/// The same of some terms.
#[cycle(agrees)]
fn all_agree(ts: &Terms, hyps: &Terms, prop: &Term) -> bool
    ensures { let vs = variables_of_all hyps.now ++ variables_of prop.now in
        IsTrue result ↔ AllByRecursion (λ v. HasOneType vs v.0 v.1) (variables_of_all ts.now) }
{
    match ts {
        Terms::Nil => true,
        Terms::Cons(t, rest) => agrees(t.get(), hyps, prop) && all_agree(rest.get(), hyps, prop),
    }
}

/// Whether the schematic variables of one name have one type in hypotheses and a proposition.
fn sequent_agrees(hyps: &Terms, prop: &Term) -> bool
    ensures { IsTrue result ↔ AreOneTyped (variables_of_all hyps.now ++ variables_of prop.now) }
{
    all_agree(hyps, hyps, prop) && agrees(prop, hyps, prop)
}

impl Thm {
    /// Whether no hypothesis has a schematic variable or a schematic type variable. Takes no memory.
    pub fn fixed_hyps(&self) -> bool
        ensures { IsTrue result ↔ (are_schematic self.now.hyps ≡ false) }
    {
        !are_schematic(self.hyps())
    }

    /// Whether the schematic variables of one name have one type in the theorem. Takes no memory.
    pub fn one_typed(&self) -> bool
        ensures { IsTrue result ↔ AreOneTyped (variables_of_all self.now.hyps ++ variables_of self.now.prop) }
    {
        sequent_agrees(self.hyps(), self.prop())
    }
}

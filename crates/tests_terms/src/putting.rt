//! `iv_put`: types and terms put for variables, one substitution after the other.
use crate::written::{got, is, name, term, typ};
use iv_hsub::is_term;
use iv_put::{Subst, retype};
use iv_subst::{TySubst, unify_types};
use iv_term::Types;
use std::alloc::Global;
use std::process::Abort;

/// The substitution of types, and of one term.
fn with(rt: &impl Abort, alloc: Global, types: TySubst, letter: char, value: &str) -> Subst {
    let mut s = Subst::new(alloc, types);
    let x = name(rt, alloc, letter);
    let value = term(rt, alloc, value);
    assert!(rt; !s.has(&x));
    assert!(rt; is_term(&value, &Types::Nil));
    got(rt, s.push(alloc, x, value));
    s
}

fn just(rt: &impl Abort, alloc: Global, letter: char, value: &str) -> Subst {
    with(rt, alloc, TySubst::new(alloc), letter, value)
}

/// Whether the values fit a closed term, and it becomes another one.
fn becomes(rt: &impl Abort, alloc: Global, s: &Subst, written: &str, wanted: &str) -> bool {
    let t = term(rt, alloc, written);
    assert!(rt; is_term(&t, &Types::Nil));
    assert!(rt; s.can_apply(&t));
    is(rt, alloc, s.apply(alloc, &t), wanted)
}

#[test]
fn values_are_put(rt: HostRuntime) {
    let rows = [
        // (%g. g c) (%x. h x x) is (%x. h x x) c, which is h c c.
        ('F', "^(0 c)", "(F %(h 0 0))", "(h c c)"),
        // In %z. h (?f z) z the function %x. h x c is put for ?f.
        ('f', "%(h 0 c)", "%(h (f 0) 0)", "%(h (h 0 c) 0)"),
        // %z. ?G z z with %x. h c for ?G is %z. h c z, which is h c.
        ('G', "%(h c)", "%(G 0 0)", "(h c)"),
    ];
    for (letter, value, written, wanted) in rows {
        let s = just(&rt, rt.alloc(), letter, value);
        assert!(rt;
            becomes(&rt, rt.alloc(), &s, written, wanted) && s.len() == 1,
            "{written}"
        );
    }
}

/// The map that puts i for `?'a`.
fn i_for_a(rt: &impl Abort, alloc: Global) -> TySubst {
    let a = typ(rt, alloc, "0");
    let i = typ(rt, alloc, "i");
    unify_types(alloc, &a, &i, &TySubst::new(alloc)).expect(rt, "a unifier")
}

/// ?y of a type variable and ?y of type i: the value c is for the second alone, until i is put for the type variable.
#[test]
fn one_name_and_two_types(rt: HostRuntime) {
    let alloc = rt.alloc();
    let t = term(&rt, alloc, "(H Y y)");
    assert!(rt; !just(&rt, alloc, 'y', "c").can_apply(&t));
    let s = with(&rt, alloc, i_for_a(&rt, alloc), 'y', "c");
    assert!(rt; becomes(&rt, alloc, &s, "(H Y y)", "(h c c)"));
    assert!(rt; is(&rt, alloc, retype(alloc, &t, s.types()), "(h y y)"));
}

/// %x. h x ?y for ?f, and then c for ?y, which h c doesn't fit.
#[test]
fn one_after_the_other(rt: HostRuntime) {
    let alloc = rt.alloc();
    let first = just(&rt, alloc, 'f', "%(h 0 y)");
    let next = just(&rt, alloc, 'y', "c");
    assert!(rt; !first.can_compose(&just(&rt, alloc, 'y', "(h c)")));
    assert!(rt; first.can_compose(&next));
    let both = got(&rt, first.compose(alloc, &next));
    assert!(rt; becomes(&rt, alloc, &both, "%(h (f 0) 0)", "%(h (h 0 c) 0)"));
    let copy = got(&rt, both.copy(alloc));
    assert!(rt; becomes(&rt, alloc, &copy, "(f y)", "(h c c)") && copy.len() == 2);
}

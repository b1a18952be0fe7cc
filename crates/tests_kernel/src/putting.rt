//! `iv_conclusions`: an instance put in a term and in hypotheses, and what makes one usable.
use crate::written::{are, expect, got, head, is, term, terms, text, typ};
use iv_conclusions::{are_keys_apart, are_values_typed, instanced, instanced_hyps, is_fresh_for};
use iv_hsub::is_term;
use iv_rules::{FixedTypes, FreeTerms, Instance, SchematicTerms, SchematicTypes};
use iv_term::{Head, Terms, Types};
use iv_text::Mem;
use std::alloc::Global;
use std::process::Abort;

/// i for the fixed type variable a.
fn types(rt: &impl Abort, alloc: Global) -> FixedTypes {
    let mut types = FixedTypes::new(alloc);
    let a = text(rt, alloc, &['a']);
    got(rt, types.push(a, typ(rt, alloc, "i")));
    types
}

/// A term for the free variable of a letter.
fn value(rt: &impl Abort, alloc: Global, letter: char, written: &str) -> FreeTerms {
    let mut terms = FreeTerms::new(alloc);
    match &head(rt, alloc, letter) {
        Head::Free(name, typ) => {
            let name = got(rt, name.copy());
            let typ = got(rt, typ.copy());
            got(rt, terms.push(name, typ, term(rt, alloc, written)));
        }
        _ => panic!(rt; "no free variable"),
    }
    terms
}

/// i for a, and a term for the free variable of a letter.
pub fn instance(rt: &impl Abort, alloc: Global, letter: char, written: &str) -> Instance {
    Instance {
        fixed: types(rt, alloc),
        types: SchematicTypes::new(alloc),
        frees: value(rt, alloc, letter, written),
        schematics: SchematicTerms::new(alloc),
    }
}

/// What a closed term becomes.
fn put(rt: &impl Abort, alloc: Global, s: &Instance, written: &str, wanted: &str) -> bool {
    let t = term(rt, alloc, written);
    assert!(rt; is_term(&t, &Types::Nil));
    let is_wanted = is(rt, alloc, instanced(alloc, s, &t), wanted);
    drop(t);
    is_wanted
}

/// A letter, the value that is put for it, a term, and what becomes of that.
const PUT: &[(char, &str, &str, &str)] = &[
    // Types are put first, so the value c for y of type i is found for y of type a.
    ('y', "c", "(Kz)", "(kc)"),
    // A value for y of type a is found no more.
    ('z', "c", "(Kz)", "(ky)"),
    // g c, with %x. k c ==> k x for g, is k c ==> k c.
    ('g', "%(=(kc)(k0))", "(gc)", "(=(kc)(kc))"),
];

#[test]
fn values_are_put(rt: HostRuntime) {
    for (letter, value, written, wanted) in PUT {
        let s = instance(&rt, rt.alloc(), *letter, value);
        expect(
            &rt,
            put(&rt, rt.alloc(), &s, written, wanted),
            *letter,
            written,
        );
    }
}

/// What two closed hypotheses become.
fn put_hyps(rt: &impl Abort, alloc: Global, s: &Instance, first: &str, second: &str) -> Mem<Terms> {
    let t = term(rt, alloc, first);
    let u = term(rt, alloc, second);
    assert!(rt; is_term(&t, &Types::Nil));
    assert!(rt; is_term(&u, &Types::Nil));
    let rest = Terms::only(alloc, &u).expect(rt, "memory");
    let hs = Terms::cons(alloc, t, rest).expect(rt, "memory");
    let made = instanced_hyps(alloc, s, &hs);
    drop(u);
    drop(hs);
    made
}

/// k y at both types becomes one hypothesis.
#[test]
fn equal_hypotheses_are_kept_once(rt: HostRuntime) {
    let alloc = rt.alloc();
    let s = instance(&rt, alloc, 'y', "c");
    assert!(rt; are(&rt, alloc, put_hyps(&rt, alloc, &s, "(Kz)", "(kc)"), "(kc)"));
    assert!(rt;
        are(
            &rt,
            alloc,
            put_hyps(&rt, alloc, &s, "(gy)", "(kc)"),
            "(gc)(kc)"
        )
    );
}

const FRESH: &[(&str, bool)] = &[("(Kz)", false), ("(ky)", true), ("(ky)(gy)", false)];

/// A type variable and a free variable that are replaced may not stand in hypotheses.
#[test]
fn hypotheses_are_kept_free(rt: HostRuntime) {
    let s = instance(&rt, rt.alloc(), 'g', "%(=(kc)(k0))");
    are_keys_apart(&s);
    for (hypotheses, wanted) in FRESH {
        let given = is_fresh_for(&s, &terms(&rt, rt.alloc(), hypotheses));
        expect(&rt, given == *wanted, 'g', hypotheses);
    }
}

const TYPED: &[(char, &str, bool)] = &[
    ('y', "c", true),
    ('g', "%(=(kc)(k0))", true),
    ('z', "c", false),
];

/// c is a value for y of type i, and not for y of type a.
#[test]
fn values_have_their_types(rt: HostRuntime) {
    for (letter, value, wanted) in TYPED {
        let given = are_values_typed(&instance(&rt, rt.alloc(), *letter, value));
        expect(&rt, given == *wanted, *letter, value);
    }
}

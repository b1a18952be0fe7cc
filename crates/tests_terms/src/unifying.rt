//! `iv_subst`: types that are put for variables, and unification of types.
ghost use Rattle.std.specs.Prelude.{◌<◌};

use crate::written::{got, is_typ, numbered, typ};
use iv_subst::{NoUnify, Solved, TySubst, unify_types};
use iv_term::Typ;
use std::alloc::Global;
use std::process::Abort;

/// A unifier of the types of each pair, under what the pairs before gave.
fn unified(rt: &impl Abort, alloc: Global, pairs: &[(&str, &str)]) -> TySubst {
    let mut s = TySubst::new(alloc);
    for (a, b) in pairs {
        let a = typ(rt, alloc, a);
        s = unify_types(alloc, &a, &typ(rt, alloc, b), &s).expect(rt, "a unifier");
    }
    s
}

/// Whether the map has entries for so many variables, and puts these types.
fn puts(rt: &impl Abort, alloc: Global, s: &TySubst, wanted: &[(u32, &str)]) -> bool {
    for (number, written) in wanted {
        match s.get(&numbered(rt, alloc, *number)) {
            Some(value) if value.is(&typ(rt, alloc, written)) => {}
            _ => return false,
        }
    }
    s.len() == wanted.len()
}

/// Pairs of types, and what their unifier puts.
const UNIFIED: &[(&[(&str, &str)], &[(u32, &str)])] = &[
    (&[(">0>11", ">>120")], &[(0, ">22"), (1, "2")]),
    // `?0` is `?1 => ?2` in the map, and becomes `prop => ?3`.
    (
        &[("0", ">12"), ("0", ">p3")],
        &[(0, ">p3"), (1, "p"), (2, "3")],
    ),
    (&[("0", "0"), ("p", "p")], &[]),
];

#[test]
fn types_are_unified(rt: HostRuntime) {
    for (pairs, wanted) in UNIFIED {
        let s = unified(&rt, rt.alloc(), pairs);
        assert!(rt; puts(&rt, rt.alloc(), &s, wanted));
    }
}

/// The second map's `prop` is put for `?1` in the first one's values; what it puts for `?0` is hidden.
#[test]
fn one_map_after_the_other(rt: HostRuntime) {
    let alloc = rt.alloc();
    let first = unified(&rt, alloc, &[(">03", ">>12p")]);
    let next = unified(&rt, alloc, &[(">10", ">p4")]);
    let both = got(&rt, first.compose(alloc, &next));
    assert!(rt; puts(&rt, alloc, &both, &[(0, ">p2"), (3, "p"), (1, "p")]));
    assert!(rt;
        is_typ(
            &rt,
            alloc,
            both.apply_typ(alloc, &typ(&rt, alloc, ">0>41")),
            ">>p2>4p"
        )
    );
}

/// Whether two types clash.
fn clash(rt: &impl Abort, alloc: Global, a: &str, b: &str) -> bool {
    let a = typ(rt, alloc, a);
    let unified = unify_types(alloc, &a, &typ(rt, alloc, b), &TySubst::new(alloc));
    unified.is_err_and(|e| e == NoUnify::Clash)
}

#[test]
fn types_clash(rt: HostRuntime) {
    let rows = [
        ("0", ">01", true),
        (">01", "p", true),
        (">01", "f", true),
        ("0", "p", false),
    ];
    for (a, b, wanted) in rows {
        assert!(rt; clash(&rt, rt.alloc(), a, b) == wanted, "{a} {b}");
    }
}

/// `?0` is assigned `?1`, and that `?2 => prop`.
#[test]
fn types_under_assignments(rt: HostRuntime) {
    let alloc = rt.alloc();
    let mut found = Solved::new(alloc);
    let a = typ(&rt, alloc, ">01");
    found
        .unify(alloc, &a, &typ(&rt, alloc, ">1>2p"))
        .expect(&rt, "a unifier");
    let solved = got(&rt, found.copy(alloc));
    let zero = typ(&rt, alloc, "0");
    assert!(rt; solved.head(&zero).is(&typ(&rt, alloc, ">2p")));
    assert!(rt; solved.is_inside(&numbered(&rt, alloc, 2), &zero));
    assert!(rt; !solved.is_inside(&numbered(&rt, alloc, 1), &zero));
    assert!(rt; is_typ(&rt, alloc, solved.apply_typ(alloc, &a), ">>2p>2p"));
    let s = got(&rt, solved.to_subst(alloc));
    assert!(rt; puts(&rt, alloc, &s, &[(0, ">2p"), (1, ">2p")]));
}

/// The schematic variable with this number.
fn var(rt: &impl Abort, alloc: Global, number: u32) -> Typ {
    Typ::Schematic(numbered(rt, alloc, number))
}

/// Makes a variable the type of functions from the variable before it to itself.
fn share(rt: &impl Abort, alloc: Global, solved: &mut Solved, before: u32)
    requires { before < 40 }
{
    let function = Typ::fun(alloc, var(rt, alloc, before), var(rt, alloc, before));
    solved
        .unify(alloc, &var(rt, alloc, before + 1), &got(rt, function))
        .expect(rt, "a unifier");
}

#[test]
fn types_that_are_shared(rt: HostRuntime) {
    let alloc = rt.alloc();
    let mut solved = Solved::new(alloc);
    for before in 0..40 {
        share(&rt, alloc, &mut solved, before);
    }
    let unified = solved.unify(alloc, &var(&rt, alloc, 0), &var(&rt, alloc, 40));
    assert!(rt; unified.is_err_and(|e| e == NoUnify::Clash));
}

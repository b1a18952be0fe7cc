//! `iv_term`: types, implications, free variables, and lists of hypotheses.
use crate::written::{are, got, is, is_typ, name, term, terms, typ};
use iv_term::{Term, Terms, Typ};
use std::alloc::Global;
use std::process::Abort;

/// Whether a type is `prop`, and whether it is that of `==>`.
#[test]
fn types(rt: HostRuntime) {
    let rows = [
        ("p", true, false),
        (">p>pp", false, true),
        (">pp", false, false),
        ("i", false, false),
    ];
    for (written, is_prop, is_implies) in rows {
        let a = typ(&rt, rt.alloc(), written);
        assert!(rt;
            a.is_prop() == is_prop && a.is_implies() == is_implies,
            "{written}"
        );
    }
    assert!(rt; is_typ(&rt, rt.alloc(), Typ::implies(rt.alloc()), ">p>pp"));
}

#[test]
fn implications(rt: HostRuntime) {
    let alloc = rt.alloc();
    let a = term(&rt, alloc, "A");
    let implication = term(&rt, alloc, "(= A B)");
    assert!(rt; implication.is_implication() && !a.is_implication());
    assert!(rt; implication.antecedent().is(&a));
    assert!(rt; is(&rt, alloc, implication.consequent().copy(), "B"));
    assert!(rt;
        is(
            &rt,
            alloc,
            Term::imp(alloc, &a, implication.consequent()),
            "(= A B)"
        )
    );
}

/// Whether x of type i stands in a term, and in a list.
fn has_x(rt: &impl Abort, alloc: Global, written: &str) -> (bool, bool) {
    let x = name(rt, alloc, 'x');
    let i = typ(rt, alloc, "i");
    let one = term(rt, alloc, written).has_free(&x, &i);
    (one, terms(rt, alloc, written).any_has_free(&x, &i))
}

/// `X` is x of another type.
#[test]
fn free_variables(rt: HostRuntime) {
    let rows = [
        ("x", (true, true)),
        ("X", (false, false)),
        ("%(h 0 x)", (true, true)),
        ("(h c c) x", (false, true)),
        ("(q c X) c", (false, false)),
    ];
    for (written, wanted) in rows {
        assert!(rt; has_x(&rt, rt.alloc(), written) == wanted, "{written}");
    }
}

#[test]
fn hypotheses(rt: HostRuntime) {
    let alloc = rt.alloc();
    let both = terms(&rt, alloc, "AB");
    let b = term(&rt, alloc, "B");
    assert!(rt; both.has(&b) && !both.is_nil() && Terms::Nil.is_nil());
    assert!(rt; both.are_two() && !both.is_one());
    assert!(rt; are(&rt, alloc, both.copy(), "AB"));
    assert!(rt; are(&rt, alloc, Terms::only(alloc, &b), "B"));
    assert!(rt; are(&rt, alloc, both.added(alloc, &b), "AB"));
    assert!(rt; are(&rt, alloc, both.snoc(alloc, &b), "ABB"));
    assert!(rt; are(&rt, alloc, both.without(alloc, &b), "A"));
    let others = terms(&rt, alloc, "CBD");
    assert!(rt; are(&rt, alloc, both.union(alloc, &others), "ABCD"));
}

//! `iv_conclusions`: equations and quantified propositions, built and taken apart.
use crate::written::{is, is_written, term, typ};
use iv_conclusions::terms;
use iv_term::Term;
use iv_text::Mem;
use std::alloc::Global;
use std::process::Abort;

/// `A == B`.
fn equation(rt: &impl Abort, alloc: Global) -> Mem<Term> {
    let prop = typ(rt, alloc, "p");
    let a = term(rt, alloc, "A");
    let b = term(rt, alloc, "B");
    let made = terms::eq(alloc, &prop, &a, &b);
    drop(prop);
    drop(a);
    drop(b);
    made
}

#[test]
fn equations_are_built(rt: HostRuntime) {
    assert!(rt; is(&rt, rt.alloc(), equation(&rt, rt.alloc()), "(~AB)"));
}

#[test]
fn equations_are_taken_apart(rt: HostRuntime) {
    let equation = term(&rt, rt.alloc(), "(~AB)");
    assert!(rt; terms::is_equation(&equation));
    assert!(rt; terms::side_type(&equation).is_prop());
    assert!(rt; is_written(&rt, rt.alloc(), terms::lhs(&equation), "A"));
    assert!(rt; is_written(&rt, rt.alloc(), terms::rhs(&equation), "B"));
    assert!(rt; iv_hsub::is_prop(&equation));
    drop(equation);
}

#[test]
fn variables_are_no_equations(rt: HostRuntime) {
    let a = term(&rt, rt.alloc(), "A");
    assert!(rt; !terms::is_equation(&a));
    drop(a);
}

/// `!!x. x`.
fn quantified(rt: &impl Abort, alloc: Global) -> Mem<Term> {
    let prop = typ(rt, alloc, "p");
    let identity = term(rt, alloc, "^0");
    let made = terms::all(alloc, &prop, &identity);
    drop(prop);
    drop(identity);
    made
}

/// `%x. x` at `A`.
fn applied(rt: &impl Abort, alloc: Global) -> Mem<Term> {
    let typ = typ(rt, alloc, ">pp");
    let identity = term(rt, alloc, "^0");
    let a = term(rt, alloc, "A");
    let made = terms::app(alloc, &typ, &identity, &a);
    drop(typ);
    drop(identity);
    drop(a);
    made
}

#[test]
fn quantified_propositions(rt: HostRuntime) {
    assert!(rt; is(&rt, rt.alloc(), quantified(&rt, rt.alloc()), "(!^0)"));
    assert!(rt; is(&rt, rt.alloc(), applied(&rt, rt.alloc()), "A"));
    let quantified = term(&rt, rt.alloc(), "(!^0)");
    assert!(rt; is_written(&rt, rt.alloc(), terms::predicate(&quantified), "^0"));
    drop(quantified);
}

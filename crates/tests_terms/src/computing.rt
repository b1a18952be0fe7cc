//! `iv_hsub`: typing, indices, hereditary substitution, abstraction, and the form of `hhf`.
use crate::written::{are, got, is, is_typ, name, term, terms, typ, types};
use iv_hsub::{
    abstract_over, constants, contracts, eta, happ, harrop, has_type, hhf, hsub, is_prop, is_term,
    loose, raise, raising, substitution, type_of, typing,
};
use iv_term::{Term, Types};
use iv_text::Mem;
use std::alloc::Global;
use std::process::Abort;

/// A body with a value of a type for its variable of index 0.
fn put(rt: &impl Abort, alloc: Global, body: &str, value: &str, over: &str) -> Mem<Term> {
    let body = term(rt, alloc, body);
    let value = term(rt, alloc, value);
    hsub(alloc, &body, &value, &typ(rt, alloc, over), &Types::Nil)
}

#[test]
fn values_are_put(rt: HostRuntime) {
    let rows = [
        // (%g. g c) (%x. h x x) is (%x. h x x) c, which is h c c.
        ("(0 %(h 0 0))", "^(0 c)", ">>iii", "(h c c)"),
        // In %z. h (f z) z the function %x. h x b is put for f, with b loose.
        ("%(h (1 0) 0)", "%(h 0 1)", ">ii", "%(h (h 0 1) 0)"),
        // %z. f z c with %x y. h y x for f is %z. h c z, which is h c.
        ("%(1 0 c)", "%%(h 0 1)", ">i>ii", "(h c)"),
    ];
    for (body, value, over, wanted) in rows {
        let made = put(&rt, rt.alloc(), body, value, over);
        assert!(rt; is(&rt, rt.alloc(), made, wanted), "{wanted}");
    }
}

/// A value of a type at arguments.
fn at(rt: &impl Abort, alloc: Global, value: &str, over: &str, args: &str) -> Mem<Term> {
    let value = term(rt, alloc, value);
    let over = typ(rt, alloc, over);
    happ(alloc, &value, &over, &terms(rt, alloc, args))
}

#[test]
fn values_take_arguments(rt: HostRuntime) {
    let alloc = rt.alloc();
    // %x y. h y x at c and a variable of index 3.
    let made = at(&rt, alloc, "%%(h 0 1)", ">i>ii", "c 3");
    assert!(rt; is(&rt, alloc, made, "(h 3 c)"));
    let made = at(&rt, alloc, "(q c)", ">>iii", "X");
    assert!(rt; is(&rt, alloc, made, "(q c X)"));
}

#[test]
fn loose_variables_are_raised(rt: HostRuntime) {
    let alloc = rt.alloc();
    let t = term(&rt, alloc, "%(h 0 4)");
    assert!(rt; is(&rt, alloc, raise(alloc, &t, 2, 1), "%(h 0 6)"));
    assert!(rt; loose(&t) == 4 && loose(&term(&rt, alloc, "%(h 0 6)")) == 6);
    let ts = terms(&rt, alloc, "0 (h c 1)");
    assert!(rt;
        are(
            &rt,
            alloc,
            raising::raise_all(alloc, &ts, 2, 1),
            "0 (h c 3)"
        )
    );
    assert!(rt;
        are(
            &rt,
            alloc,
            substitution::append(alloc, &ts, terms(&rt, alloc, "c")),
            "0 (h c 1) c"
        )
    );
}

#[test]
fn terms_have_types(rt: HostRuntime) {
    let alloc = rt.alloc();
    let bounds = types(&rt, alloc, "i");
    let good = term(&rt, alloc, "(h 0)");
    assert!(rt; is_typ(&rt, alloc, type_of(alloc, &good, &bounds), ">ii"));
    assert!(rt; is_term(&good, &bounds) && !is_term(&good, &Types::Nil));
    let over = typ(&rt, alloc, ">ii");
    assert!(rt; has_type(&good, &over, &bounds) && !has_type(&good, &over, &Types::Nil));
    assert!(rt; !has_type(&good, &typ(&rt, alloc, "i"), &bounds));
    assert!(rt; typing::is_fun(&over) && typing::cod(&over).is(typing::dom(&over)));
    let i = typ(&rt, alloc, "i");
    assert!(rt; is_typ(&rt, alloc, constants::all_typ(alloc, &i), ">>ipp"));
    assert!(rt; is_typ(&rt, alloc, constants::eq_typ(alloc, &i), ">i>ip"));
}

/// Whether a term without bound variables outside it is one, is a proposition, and begins with `!!`.
#[test]
fn terms_are_told_apart(rt: HostRuntime) {
    let rows = [
        ("(h A)", (false, false, false)),
        ("c", (true, false, false)),
        // %z. h c z isn't short.
        ("%(h c 0)", (false, false, false)),
        ("(h c)", (true, false, false)),
        ("(= A B)", (true, true, false)),
        ("(! %A)", (true, true, true)),
        ("(= A (? !))", (true, true, false)),
    ];
    for (written, wanted) in rows {
        let t = term(&rt, rt.alloc(), written);
        let given = (
            is_term(&t, &Types::Nil),
            is_prop(&t),
            harrop::is_quantified(&t),
        );
        assert!(rt; given == wanted, "{written}");
    }
}

#[test]
fn abstractions_are_contracted(rt: HostRuntime) {
    let alloc = rt.alloc();
    let body = term(&rt, alloc, "(h c 0)");
    assert!(rt; contracts(&body) && !contracts(&term(&rt, alloc, "(h 0 0)")));
    assert!(rt; is(&rt, alloc, eta(alloc, &typ(&rt, alloc, "i"), body), "(h c)"));
}

/// What abstraction over x of a type makes of a term.
fn over_x(rt: &impl Abort, alloc: Global, written: &str, a: &str) -> Mem<Term> {
    let t = term(rt, alloc, written);
    let x = name(rt, alloc, 'x');
    abstract_over(alloc, &t, &x, &typ(rt, alloc, a))
}

/// `X` is x of type i => i. Over it the abstraction of q c X is q c, contracted.
#[test]
fn one_name_and_two_types(rt: HostRuntime) {
    let alloc = rt.alloc();
    let made = over_x(&rt, alloc, "(q x X)", "i");
    assert!(rt; is(&rt, alloc, made, "%(q 0 X)"));
    let made = over_x(&rt, alloc, "(q c X)", ">ii");
    assert!(rt; is(&rt, alloc, made, "(q c)"));
}

/// The form, which is that of itself and a term.
fn moved(rt: &impl Abort, alloc: Global, written: &str) -> Mem<Term> {
    let once = got(rt, hhf(alloc, &term(rt, alloc, written)));
    assert!(rt; is_term(&once, &Types::Nil), "{written}");
    hhf(alloc, &once)
}

#[test]
fn quantifiers_move_in_front(rt: HostRuntime) {
    let rows = [
        // P (%x. A ==> !!y. B) and P (%x. !!y. A ==> B).
        ("(P %(= A (! %B)))", "(P %(! %(= A B)))"),
        // A ==> B ==> !!x. C and !!x. A ==> B ==> C.
        ("(= A (= B (! %C)))", "(! %(= A (= B C)))"),
        // A ==> !!f. !! f, and !!f. !!x. A ==> f x.
        ("(= A (? !))", "(? &(! %(= A (1 0))))"),
        ("(! %(= A (= B C)))", "(! %(= A (= B C)))"),
    ];
    for (written, wanted) in rows {
        assert!(rt;
            is(&rt, rt.alloc(), moved(&rt, rt.alloc(), written), wanted),
            "{written}"
        );
    }
}

//! `iv_sig`: declarations, what each is refused for, and notations.
use crate::written::{got, name, text, typ};
use iv_sig::{Fixity, Sig, SigError};
use iv_term::{Head, Term, Terms, Typ};
use iv_text::Text;
use std::alloc::Global;
use std::process::Abort;

/// What a declaration answers, in a word.
fn answer(given: Result<(), SigError>) -> &'static str {
    match given {
        Ok(()) => "declared",
        Err(SigError::Duplicate(_name)) => "duplicate",
        Err(SigError::SecondFixity(_symbol)) => "second fixity",
        Err(SigError::SecondJudgment) => "second judgment",
        Err(SigError::BadJudgment) => "bad judgment",
        Err(SigError::BadAxiom) => "bad axiom",
        Err(SigError::Memory) => "memory",
    }
}

/// The variable `P` of type `prop`: free for `P`, schematic for `?`, and bound for a digit.
fn variable(rt: &impl Abort, alloc: Global, sign: char) -> Term {
    let head = match sign {
        'P' => Head::Free(name(rt, alloc, 'P'), typ(rt, alloc, "p")),
        '?' => Head::Schematic(name(rt, alloc, 'P'), typ(rt, alloc, "p")),
        _ => Head::Bound(0),
    };
    Term::Spine(head, Terms::Nil)
}

/// Declares a type for `t`, a constant of type `prop` for `c`, a judgment of type `prop => prop` for `j` and of type `'a =>
/// prop` for `J`, else an axiom, which is the sign's variable.
fn declare(
    rt: &impl Abort,
    alloc: Global,
    sig: &mut Sig,
    sign: char,
    letter: char,
) -> &'static str {
    let called = text(rt, alloc, &[letter]);
    answer(match sign {
        't' => sig.add_type(alloc, called, 0),
        'c' => sig.add_const(alloc, called, typ(rt, alloc, "p")),
        'j' => sig.set_judgment(alloc, called, typ(rt, alloc, ">pp")),
        'J' => sig.set_judgment(alloc, called, open(rt, alloc)),
        _ => sig.add_axiom(alloc, called, variable(rt, alloc, sign)),
    })
}

/// The type `'a => prop`.
fn open(rt: &impl Abort, alloc: Global) -> Typ {
    let a = Typ::Fixed(text(rt, alloc, &['a']));
    got(rt, Typ::fun(alloc, a, typ(rt, alloc, "p")))
}

/// Declarations over those of Pure, each with its answer.
const DECLARED: &[&[(char, char, &str)]] = &[
    &[
        ('t', 'i', "declared"),
        ('t', 'i', "duplicate"),
        ('c', 'i', "duplicate"),
        ('c', 'c', "declared"),
        ('c', 'c', "duplicate"),
    ],
    &[
        ('c', 'c', "declared"),
        ('J', 'T', "bad judgment"),
        ('j', 'c', "duplicate"),
        ('j', 'T', "declared"),
        ('j', 'c', "second judgment"),
    ],
    &[
        ('P', 'a', "bad axiom"),
        ('0', 'a', "bad axiom"),
        ('?', 'a', "declared"),
        ('P', 'a', "duplicate"),
    ],
];

#[test]
fn declarations(rt: HostRuntime) {
    for row in DECLARED {
        let mut sig = got(&rt, Sig::new(rt.alloc()));
        for (sign, letter, wanted) in *row {
            assert_eq!(rt; declare(&rt, rt.alloc(), &mut sig, *sign, *letter), *wanted);
        }
    }
}

/// The declarations of Pure, and others that are accepted.
fn declared(rt: &impl Abort, alloc: Global, signs: &[(char, char)]) -> Sig {
    let mut sig = got(rt, Sig::new(alloc));
    for (sign, letter) in signs {
        assert_eq!(rt; declare(rt, alloc, &mut sig, *sign, *letter), "declared");
    }
    sig
}

#[test]
fn declarations_are_found(rt: HostRuntime) {
    let alloc = rt.alloc();
    let mut sig = declared(&rt, alloc, &[('c', 'c'), ('t', 'i'), ('?', 'a')]);
    assert!(rt; sig.type_count() == 3 && sig.axioms().len() == 1 && sig.judgment().is_none());
    assert!(rt;
        sig.has_const(&text(&rt, alloc, &['c'])) && !sig.has_const(&text(&rt, alloc, &['i']))
    );
    assert_eq!(rt; sig.arity(&text(&rt, alloc, &['f', 'u', 'n'])), Some(2));
    assert_eq!(rt; declare(&rt, alloc, &mut sig, 'j', 'T'), "declared");
    assert!(rt; sig.judgment().is_some_and(|name| name.is_chars(&['T'])));
}

/// A symbol alone for `s`, an infix for `r`, a prefix for `p`, else a binder, of a priority.
fn fixity(sign: char, symbol: Text, own: u32) -> Fixity {
    match sign {
        's' => Fixity::Plain(symbol),
        'r' => Fixity::Infixr(symbol, own),
        'p' => Fixity::Prefix(symbol, own, own),
        _ => Fixity::Binder(symbol, own),
    }
}

/// Constants, the notations for them, and whether they may have them.
const NOTATIONS: &[(&[char], char, &[char], u32, bool)] = &[
    (&['c'], 'r', &['|'], 999, true),
    (&['c'], 'r', &['|'], 1000, false),
    (&['c'], 'p', &['|'], 1000, true),
    (&['c'], 'b', &['|'], 1001, false),
    (&['c'], 's', &['|', ' '], 0, false),
    (&['d'], 's', &['|'], 0, false),
    (&['=', '='], 's', &['|'], 0, false),
];

#[test]
fn conditions_of_notations(rt: HostRuntime) {
    let alloc = rt.alloc();
    let sig = declared(&rt, alloc, &[('c', 'c')]);
    for (called, sign, symbol, own, wanted) in NOTATIONS {
        let fixity = fixity(*sign, text(&rt, alloc, symbol), *own);
        assert!(rt; sig.can_add_notation(&text(&rt, alloc, called), &fixity) == *wanted);
    }
}

/// Gives `c` a symbol, where it may have it.
fn write_c(rt: &impl Abort, alloc: Global, sig: &mut Sig, symbol: &[char]) -> &'static str {
    let c = text(rt, alloc, &['c']);
    let fixity = Fixity::Plain(text(rt, alloc, symbol));
    if sig.can_add_notation(&c, &fixity) {
        answer(sig.add_notation(alloc, &c, fixity))
    } else {
        "refused"
    }
}

#[test]
fn notations(rt: HostRuntime) {
    let alloc = rt.alloc();
    let mut sig = declared(&rt, alloc, &[('c', 'c')]);
    assert_eq!(rt;
        write_c(&rt, alloc, &mut sig, &['.', '.', '.']),
        "second fixity"
    );
    assert_eq!(rt; write_c(&rt, alloc, &mut sig, &['|']), "declared");
    assert_eq!(rt; write_c(&rt, alloc, &mut sig, &['&']), "refused");
    let copy = got(&rt, sig.copy(alloc));
    assert!(rt; copy.written_by(&text(&rt, alloc, &['|'])).is_some());
    assert!(rt; copy.notation(&text(&rt, alloc, &['c'])).is_some());
}

//! The verdicts of the recogniser, and what the readers of facts, propositions and names find.
use crate::texts::{nested, tokens_in};
use iv_facts::Stop;
use iv_facts::facts::facts;
use iv_facts::props::{claim, opt_for, props};
use iv_forms::judge::judge;
use iv_forms::{Items, Lexeme};
use iv_outer::lexemes;
use iv_recogniser::{Class, Part, Verdict, read};
use std::alloc::Global;
use std::process::Abort;

/// Texts, and what is known of them as the begin of a command.
const VERDICTS: &[(&str, Verdict)] = &[
    ("", Verdict::Cut),
    ("prefer", Verdict::Cut),
    ("prefer 3", Verdict::Whole),
    ("prefer 3 3", Verdict::Refused(2)),
    ("have a :", Verdict::Cut),
    ("have a b", Verdict::Refused(2)),
    ("assume a b", Verdict::Whole),
    ("note a =", Verdict::Cut),
    ("typedecl a 'b", Verdict::Refused(2)),
    ("end a b", Verdict::Refused(1)),
    ("a b c", Verdict::Refused(0)),
];

/// A reader of lists.
#[derive(Clone, Copy)]
enum Reader {
    Facts,
    Props,
    For,
}

/// Readers, texts, and how many items are found and how many tokens are left.
const PARTS: &[(Reader, &str, &str)] = &[
    // facts end before a section
    (Reader::Facts, "a(1-2)[OF b _, OF!] and c d: x", "2 and 3"),
    // groups of propositions
    (Reader::Props, "a: \"A B\" c and d (is ?x)", "2 and 0"),
    // names after `for`, those of one type in one group
    (Reader::For, "for a b :: \"i => i\" and c", "2 and 0"),
];

/// The tokens of a text with their classes.
fn lexemes_in(rt: &impl Abort, alloc: Global, text: &str) -> Vec<Lexeme> {
    lexemes(alloc, &tokens_in(rt, alloc, text)).expect(rt, "memory")
}

/// How many items are found and how many tokens are left, or where a part has too many levels.
fn told<T: Drop>(
    rt: &impl Abort,
    alloc: Global,
    found: Result<(Items<T>, &[Lexeme]), Stop>,
) -> String {
    match found {
        Ok((items, rest)) => {
            let items = items.len();
            let rest = rest.len();
            format!(in alloc; "{items} and {rest}").expect(rt, "memory")
        }
        Err(Stop::Deep(at)) => {
            let at = at.0;
            format!(in alloc; "deep at {at}").expect(rt, "memory")
        }
        Err(_) => panic!(rt; "memory or syntax"),
    }
}

/// What a reader finds in a text.
fn found(rt: &impl Abort, alloc: Global, reader: Reader, text: &str) -> String {
    let tokens = lexemes_in(rt, alloc, text);
    match reader {
        Reader::Facts => told(rt, alloc, facts(alloc, &tokens)),
        Reader::Props => told(rt, alloc, props(alloc, &tokens)),
        Reader::For => told(rt, alloc, opt_for(alloc, &tokens)),
    }
}

/// A method with 200,000 parentheses around these classes.
fn many(rt: &impl Abort, alloc: Global, middle: &[Class]) -> Vec<Class> {
    let mut classes = vec![in alloc; Class::Open; 200_001].expect(rt, "memory");
    classes[0] = Class::Apply;
    classes.extend_from_slice(middle).expect(rt, "memory");
    for _ in 0..200_000 {
        classes.push(Class::Close).expect(rt, "memory");
    }
    classes
}

#[test]
fn verdicts(rt: HostRuntime) {
    for (text, verdict) in VERDICTS {
        let lexemes = lexemes_in(&rt, rt.alloc(), text);
        assert_eq!(rt; judge(rt.alloc(), &lexemes).expect(&rt, "memory"), *verdict);
    }
}

// A method in 200,000 parentheses, with these classes inside.
#[test]
fn nested_parentheses(rt: HostRuntime) {
    let rows = [
        ([Class::Ident, Class::Bar, Class::Long], Verdict::Whole),
        ([Class::Ident, Class::Open, Class::Minus], Verdict::Cut),
        (
            [Class::Ident, Class::Bar, Class::Bar],
            Verdict::Refused(200_003),
        ),
    ];
    for (middle, verdict) in rows {
        let classes = many(&rt, rt.alloc(), &middle);
        let found = read(rt.alloc(), Part::Command, &classes).expect(&rt, "memory");
        assert_eq!(rt; found, verdict);
    }
}

#[test]
fn parts(rt: HostRuntime) {
    for (reader, text, expected) in PARTS {
        let found = found(&rt, rt.alloc(), *reader, text);
        assert_eq!(rt; found.as_str(), *expected);
    }
    for (levels, expected) in [(400, "1 and 0"), (401, "deep at 0")] {
        let text = nested(&rt, rt.alloc(), ["a[THEN ", "", "]"], levels);
        let found = found(&rt, rt.alloc(), Reader::Facts, &text);
        assert_eq!(rt; found.as_str(), expected);
    }
}

#[test]
fn label_of_a_claim(rt: HostRuntime) {
    let tokens = lexemes_in(&rt, rt.alloc(), "[simp]: \"A\"");
    match claim(rt.alloc(), &tokens) {
        Ok((found, _rest)) => assert!(rt; found.label.is_some()),
        Err(_) => panic!(rt; "no claim"),
    }
}

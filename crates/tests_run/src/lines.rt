use iv_run::refusal::{Mode, Refusal};
use iv_run::report::{refusal_line, theorem_line};
use iv_term::{Head, Term, Terms, Typ};
use iv_text::{Name, Pos, Text};
use std::alloc::Global;
use std::process::Abort;

fn text(rt: &impl Abort, alloc: Global, spelt: &str) -> Text {
    let mut chars = Vec::new(alloc);
    for c in spelt.chars() {
        chars.push(c).expect(rt, "memory");
    }
    Text::from_vec(alloc, chars).expect(rt, "memory")
}

fn name(rt: &impl Abort, alloc: Global, spelt: &str, number: u32) -> Name {
    let text = text(rt, alloc, spelt);
    Name { text, number }
}

/// The free variable `B`, and `?A` with a number.
fn free(rt: &impl Abort, alloc: Global) -> Term {
    let typ = Typ::prop(alloc).expect(rt, "memory");
    Term::Spine(Head::Free(name(rt, alloc, "B", 0), typ), Terms::Nil)
}

fn schematic(rt: &impl Abort, alloc: Global, number: u32) -> Term {
    let typ = Typ::prop(alloc).expect(rt, "memory");
    Term::Spine(
        Head::Schematic(name(rt, alloc, "A", number), typ),
        Terms::Nil,
    )
}

fn imp(rt: &impl Abort, alloc: Global, a: &Term, b: &Term) -> Term {
    Term::imp(alloc, a, b).expect(rt, "memory")
}

/// Whether these are the bytes of a text.
fn is_spelt(rt: &impl Abort, alloc: Global, line: &Text, expected: &str) -> bool {
    let bytes = line.to_utf8(alloc).expect(rt, "memory");
    bytes.as_slice() == expected.as_bytes()
}

/// Whether a refusal of a command at one place, with its own place, is reported so.
fn refused(
    rt: &impl Abort,
    alloc: Global,
    at: (u32, u32),
    word: &str,
    own: (u32, u32),
    refusal: &Refusal,
    expected: &str,
) -> bool {
    let word = text(rt, alloc, word);
    let written = refusal_line(alloc, at, &word, own, refusal).expect(rt, "memory");
    is_spelt(rt, alloc, &written, expected)
}

#[test]
fn refused_commands(rt: HostRuntime) {
    let alloc = rt.alloc();
    let rows = [
        (
            (1, 30),
            "by",
            (1, 30),
            Refusal::Empty,
            "refused 1:30 by empty\n",
        ),
        (
            (1, 1),
            "lemma",
            (2, 7),
            Refusal::Syntax(Pos(12)),
            "refused 1:1 lemma syntax 2:7\n",
        ),
        (
            (3, 4294967295),
            "oops",
            (3, 4294967295),
            Refusal::Mode(Mode::Prove),
            "refused 3:4294967295 oops mode prove\n",
        ),
        (
            (2, 7),
            "lemma",
            (2, 7),
            Refusal::Name(text(&rt, alloc, "a")),
            "refused 2:7 lemma name a\n",
        ),
    ];
    for (at, word, own, refusal, expected) in &rows {
        assert!(rt; refused(&rt, alloc, *at, *word, *own, refusal, *expected));
    }
}

#[test]
fn proved_theorems(rt: HostRuntime) {
    let alloc = rt.alloc();
    let a = text(&rt, alloc, "a");
    let x = schematic(&rt, alloc, 0);
    let same = imp(&rt, alloc, &x, &x);
    let line = theorem_line(alloc, Some(&a), &same).expect(&rt, "memory");
    assert!(rt; is_spelt(&rt, alloc, &line, "theorem a: PROP ?A ==> PROP ?A\n"));
    let b = free(&rt, alloc);
    let y = schematic(&rt, alloc, 10);
    let left = imp(&rt, alloc, &same, &b);
    let nested = imp(&rt, alloc, &left, &imp(&rt, alloc, &y, &b));
    let line = theorem_line(alloc, None, &nested).expect(&rt, "memory");
    let expected = "theorem: ((PROP ?A ==> PROP ?A) ==> PROP B) ==> PROP ?A.10 ==> PROP B\n";
    assert!(rt; is_spelt(&rt, alloc, &line, expected));
}

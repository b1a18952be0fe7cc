//! Parts with many levels, and where they are refused.
use crate::texts::{nested, push_place, tokens_in};
use std::alloc::Global;
use std::process::Abort;

/// Pieces that repeat two texts around a third, so many times, and the places where they are refused: the text at the
/// begin, what is repeated before the middle, the middle, what is repeated after it, the text at the end.
const NESTED: &[([&str; 5], u32, &str)] = &[
    // parentheses with suffixes, two levels each
    (["apply ", "(", "m", ")?", ""], 200, "-"),
    (["apply ", "(", "m", ")?", ""], 201, "6"),
    // separators, and the parentheses around them
    (["apply (m", ", m", "", "", ")"], 399, "-"),
    (["apply (m", ", m", "", "", ")"], 400, "6"),
    (["by - (m", " | m", "", "", ")"], 400, "5"),
    // attributes in attributes, of a fact, of a label, and of a fact inside of a method
    (["from ", "a[THEN ", "b", "]", ""], 400, "-"),
    (["from c and ", "a[THEN ", "b", "]", ""], 401, "11"),
    (["have ", "a[THEN ", "b", "]", ": x"], 400, "-"),
    (["have ", "a[THEN ", "b", "]", ": x"], 401, "5"),
    (["apply (rule ", "a[THEN ", "b", "]", ")"], 400, "-"),
    (["apply (rule ", "a[THEN ", "b", "]", ")"], 401, "12"),
    // a case in a cartouche, in parentheses, around others with suffixes
    (
        [
            "apply (match x in y => \\<open>",
            "(",
            "-",
            ")+",
            "\\<close>)",
        ],
        199,
        "-",
    ),
    (
        [
            "apply (match x in y => \\<open>",
            "(",
            "-",
            ")+",
            "\\<close>)",
        ],
        200,
        "6",
    ),
    // any nesting is answered: closed, cut, and wrong at its end
    (["from ", "a[THEN ", "b", "]", ""], 20_000, "5"),
    (["apply ", "(", "m", "", ""], 20_000, "20007"),
    (["apply ", "(", "m", ")", " ]"], 20_000, "40008"),
    (["from ", "a ", "b", "", ""], 20_000, "-"),
];

/// Where a row is refused.
fn place_in(rt: &impl Abort, alloc: Global, texts: &[&str; 5], count: u32) -> String {
    let [begin, before, middle, after, end] = texts;
    let nested = nested(rt, alloc, [*before, *middle, *after], count);
    let piece = format!(in alloc; "{begin}{nested}{end}").expect(rt, "memory");
    let mut out = String::new(alloc);
    push_place(rt, alloc, &mut out, &tokens_in(rt, alloc, &piece));
    out
}

#[test]
fn levels(rt: HostRuntime) {
    for (texts, count, place) in NESTED {
        let found = place_in(&rt, rt.alloc(), texts, *count);
        assert_eq!(rt; found.as_str(), *place);
    }
}

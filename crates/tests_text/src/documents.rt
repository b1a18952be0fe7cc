//! Documents with their tokens, and places with their lines and columns.
use iv_lex::{Token, tokens};
use iv_report::{Cursor, LIMIT};
use iv_text::Pos;
use std::alloc::Global;
use std::process::Abort;

/// Documents with their tokens: of each its kind, its offsets and its text.
const TEXTS: &[(&str, &str)] = &[
    // names, numbers and variables, and what stands beside them
    (
        "abc a1_b' \u{4E2D}\u{6587} x\u{301}y 0 007 7a _x",
        "Ident 0-3 abc;Ident 4-9 a1_b';Ident 10-16 \u{4E2D}\u{6587};Ident 17-21 x\u{301}y;Nat 22-23 0;Nat 24-27 007;Nat 28-29 7;Ident 29-30 a;Sym 31-32 _;Ident 32-33 x;",
    ),
    (
        "x.y.z x.y. x..y .x x. y",
        "Long 0-5 x.y.z;Long 6-9 x.y;Single 9-10 .;Ident 11-12 x;Single 12-14 ..;Ident 14-15 y;Single 16-17 .;Ident 17-18 x;Ident 19-20 x;Single 20-21 .;Ident 22-23 y;",
    ),
    (
        "?x ?x.1 ?x. ?x.y ?x.01 ?1 ??x ?x'.2",
        "Var 0-2 ?x;Var 3-7 ?x.1;Var 8-10 ?x;Single 10-11 .;Var 12-14 ?x;Single 14-15 .;Ident 15-16 y;Var 17-22 ?x.01;Sym 23-24 ?;Nat 24-25 1;Sym 26-28 ??;Ident 28-29 x;Var 30-35 ?x'.2;",
    ),
    (
        "'a 'a' ' '1 x' x'y'",
        "Tvar 0-2 'a;Tvar 3-6 'a';Bad 7-8 ;Bad 9-10 ;Nat 10-11 1;Ident 12-14 x';Ident 15-19 x'y';",
    ),
    (
        "a\u{3BB}b \u{3BB}x x.\u{3BB} ?\u{3BB}",
        "Ident 0-1 a;Sym 1-3 %;Ident 3-4 b;Sym 5-7 %;Ident 7-8 x;Ident 9-10 x;Single 10-11 .;Sym 11-13 %;Sym 14-15 ?;Sym 15-17 %;",
    ),
    // runs of symbols, symbols by name and by character
    (
        "==> == = ==>== =?x !!\\<And>\u{22C0}",
        "Sym 0-3 ==>;Sym 4-6 ==;Sym 7-8 =;Sym 9-14 ==>==;Sym 15-17 =?;Ident 17-18 x;Sym 19-21 !!;Sym 21-27 !!;Sym 27-30 !!;",
    ),
    (
        "\\<Longrightarrow>\u{27F9} \\<equiv>\u{2261} %\\<lambda>\u{3BB} \\<Rightarrow>\u{21D2}",
        "Sym 0-17 ==>;Sym 17-20 ==>;Sym 21-29 ==;Sym 29-32 ==;Sym 33-34 %;Sym 34-43 %;Sym 43-45 %;Sym 46-59 =>;Sym 59-62 =>;",
    ),
    (
        "\\<lbrakk>\u{27E6} \\<rbrakk>\u{27E7} [| |] \\<bar>\u{A6}|",
        "Sym 0-9 [|;Sym 9-12 [|;Sym 13-22 |];Sym 22-25 |];Single 26-27 [;Sym 27-28 |;Sym 29-30 |;Single 30-31 ];Sym 32-38 \\<bar>;Sym 38-40 \\<bar>;Sym 40-41 |;",
    ),
    (
        "\\<foo> \\<foo \\<> \\<f1> \\ \\<close>\u{203A}",
        "Sym 0-6 \\<foo>;Bad 7-8 ;Sym 8-9 <;Ident 9-12 foo;Bad 13-14 ;Sym 14-16 <>;Bad 17-18 ;Sym 18-19 <;Ident 19-21 f1;Sym 21-22 >;Bad 23-24 ;Sym 25-33 \\<close>;Sym 33-36 \\<close>;",
    ),
    (
        "!#$%&*+-/<=>?@^_|~ `^",
        "Sym 0-18 !#$%&*+-/<=>?@^_|~;Bad 19-20 ;Sym 20-21 ^;",
    ),
    // delimiters of one and of two characters
    (
        ":: : ::: . .. ... ....",
        "Single 0-2 ::;Single 3-4 :;Single 5-7 ::;Single 7-8 :;Single 9-10 .;Single 11-13 ..;Single 14-16 ..;Single 16-17 .;Single 18-20 ..;Single 20-22 ..;",
    ),
    (
        "()[]{},;( *",
        "Single 0-1 (;Single 1-2 );Single 2-3 [;Single 3-4 ];Single 4-5 {;Single 5-6 };Single 6-7 ,;Single 7-8 ;;Single 8-9 (;Sym 10-11 *;",
    ),
    // comments that nest, cross and do not close
    (
        "(**)x (* (* *) *)y (* \\<open> \" *)z",
        "Ident 4-5 x;Ident 17-18 y;Ident 34-35 z;",
    ),
    (
        "a(* *)b *) (* *) *)",
        "Ident 0-1 a;Ident 6-7 b;Sym 8-9 *;Single 9-10 );Sym 17-18 *;Single 18-19 );",
    ),
    ("x (*)", "Ident 0-1 x;Bad 2-5 ;"),
    ("(* (* *) y", "Bad 0-10 ;"),
    // cartouches that nest, cross and do not close, in both spellings
    (
        "\\<open>\\<close>\\<open>a \\<open>b\\<close>\\<close>c",
        "Cart 0-15 ;Cart 15-48 a \\<open>b\\<close>;Ident 48-49 c;",
    ),
    (
        "\u{2039}a\\<close>\\<open>\u{2039}b\u{203A}\u{203A} \\<open> (* \\<close> *)",
        "Cart 0-12 a;Cart 12-29 \u{2039}b\u{203A};Cart 30-49  (* ;Sym 50-51 *;Single 51-52 );",
    ),
    (
        "\\<open>\"\\<close>\"\\<open>\"",
        "Cart 0-16 \";Str 16-25 \\<open>;",
    ),
    ("x\\<open> \\<open> \\<close>", "Ident 0-1 x;Bad 1-25 ;"),
    ("\\<open>", "Bad 0-7 ;"),
    ("y\u{2039}", "Ident 0-1 y;Bad 1-4 ;"),
    // strings with each escape, with line feeds and without an end
    (
        "\"\"\"a\\\"b\" \"c\\\\\" \"\\n\\x\\\\\\\"\"d",
        "Str 0-2 ;Str 2-8 a\"b;Str 9-14 c\\;Str 15-25 \\n\\x\\\";Ident 25-26 d;",
    ),
    (
        "\"a\nb\r\nc\"\"(* \\<open>\"",
        "Str 0-8 a\nb\r\nc;Str 8-20 (* \\<open>;",
    ),
    ("x\"a\\\"", "Ident 0-1 x;Bad 1-5 ;"),
    ("y \"\\\\\\\"", "Ident 0-1 y;Bad 2-7 ;"),
    ("\"", "Bad 0-1 ;"),
    // blanks, wide characters, and characters that begin nothing
    (
        "\ta\r\nb\u{B}c \u{A0}x",
        "Ident 1-2 a;Ident 4-5 b;Bad 5-6 ;Ident 6-7 c;Bad 8-10 ;Ident 10-11 x;",
    ),
    (
        "\u{FEFF}\u{1F600} \u{E9}\u{20AC}\"\u{4E2D}\"",
        "Bad 0-3 ;Bad 3-7 ;Ident 8-10 \u{E9};Bad 10-13 ;Str 13-18 \u{4E2D};",
    ),
];

/// The same of bytes that are no characters, alone and inside of what is closed.
const BYTES: &[(&[u8], &str)] = &[
    (
        b"a\xffb \"\xff\"c (*\xff*)d \\<open>\xff\\<close>e",
        "Ident 0-1 a;Bad 1-2 ;Ident 2-3 b;Bad 4-7 ;Ident 7-8 c;Ident 14-15 d;Bad 16-32 ;Ident 32-33 e;",
    ),
    (
        b"\xe2\x82 \xc3( \xc0\xaf \xed\xa0\x80",
        "Bad 0-1 ;Bad 1-2 ;Bad 3-4 ;Single 4-5 (;Bad 6-7 ;Bad 7-8 ;Bad 9-10 ;Bad 10-11 ;Bad 11-12 ;",
    ),
    (
        b"\xf4\x90\x80\x80\xf0\x9f\x98\x80",
        "Bad 0-1 ;Bad 1-2 ;Bad 2-3 ;Bad 3-4 ;Bad 4-8 ;",
    ),
];

/// Bytes, an offset in them, and its line and column.
const PLACES: &[(&[u8], u32, (u32, u32))] = &[
    (b"ab\n\ncd", 0, (1, 1)),
    (b"ab\n\ncd", 2, (1, 3)),
    (b"ab\n\ncd", 3, (2, 1)),
    (b"ab\n\ncd", 6, (3, 3)),
    // a tab, and a carriage return before a line feed
    (b"\tx\r\ny", 5, (2, 2)),
    // U+540D, which is wide; e with U+301, which takes no column; U+1F469 U+200D U+1F52C, which are shown as one
    (b"\xe5\x90\x8dx", 3, (1, 3)),
    (b"e\xcc\x81x", 3, (1, 2)),
    (b"\xf0\x9f\x91\xa9\xe2\x80\x8d\xf0\x9f\x94\xacx", 11, (1, 3)),
    // bytes that are no UTF-8
    (b"\xff\xe2\x82x", 3, (1, 4)),
];

/// Writes a token, from a copy of it.
fn push_token(rt: &impl Abort, out: &mut String, token: &Token) {
    let token = token.copy().expect(rt, "memory");
    let kind = token.kind;
    let at = token.at.0;
    let end = token.end.0;
    write!(out, "{kind:?} {at}-{end} ").expect(rt, "memory");
    for c in token.text.as_slice() {
        out.push(*c).expect(rt, "memory");
    }
    out.push(';').expect(rt, "memory");
}

/// The tokens of a document.
fn listed(rt: &impl Abort, alloc: Global, document: &[u8]) -> String {
    let mut out = String::new(alloc);
    assert!(rt; document.len() <= LIMIT);
    for token in &tokens(alloc, document).expect(rt, "memory") {
        push_token(rt, &mut out, token);
    }
    out
}

#[test]
fn tokens_of_documents(rt: HostRuntime) {
    for (document, expected) in TEXTS {
        let found = listed(&rt, rt.alloc(), document.as_bytes());
        assert_eq!(rt; found.as_str(), *expected);
    }
    for (document, expected) in BYTES {
        let found = listed(&rt, rt.alloc(), document);
        assert_eq!(rt; found.as_str(), *expected);
    }
}

#[test]
fn lines_and_columns(rt: HostRuntime) {
    for (document, at, expected) in PLACES {
        assert!(rt; document.len() <= LIMIT && *at as usize <= document.len());
        let mut cursor = Cursor::start();
        assert_eq!(rt; cursor.advance(document, Pos(*at)), *expected);
    }
}

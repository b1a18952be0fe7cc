//! The places where the neighbours of each form are refused, and the pieces of a text.
use crate::samples::SAMPLES;
use crate::texts::{push_place, tokens_in};
use iv_lex::{Kind, Token};
use iv_outer::split;
use iv_text::{Pos, Text};
use std::alloc::Global;
use std::process::Abort;

/// What is done at one token of a piece: it is cut after it, or the token is missing, or a number stands in its place, or
/// a bracket too many after it.
#[derive(Clone, Copy)]
enum Change {
    Cut,
    Missing,
    Wrong,
    More,
}

/// A token of one character.
fn one(rt: &impl Abort, alloc: Global, kind: Kind, letter: char, at: Pos, end: Pos) -> Token {
    let text = Text::from_slice(alloc, &[letter]).expect(rt, "memory");
    Token {
        kind,
        text,
        at,
        end,
    }
}

/// Pushes what a change leaves of the token where it is done.
fn push_changed(
    rt: &impl Abort,
    alloc: Global,
    out: &mut Vec<Token>,
    token: &Token,
    change: Change,
) {
    if matches!(change, Change::Cut | Change::More) {
        out.push(token.copy().expect(rt, "memory"))
            .expect(rt, "memory");
    }
    if matches!(change, Change::Wrong) {
        out.push(one(rt, alloc, Kind::Nat, '7', token.at, token.end))
            .expect(rt, "memory");
    }
    if matches!(change, Change::More) {
        out.push(one(rt, alloc, Kind::Single, ']', token.end, token.end))
            .expect(rt, "memory");
    }
}

/// The piece that is changed at the token of an index.
fn changed(
    rt: &impl Abort,
    alloc: Global,
    tokens: &[Token],
    index: usize,
    change: Change,
) -> Vec<Token> {
    let mut out = Vec::new(alloc);
    for (place, token) in tokens.iter().enumerate() {
        if place == index {
            push_changed(rt, alloc, &mut out, token, change);
        } else if place < index || !matches!(change, Change::Cut) {
            out.push(token.copy().expect(rt, "memory"))
                .expect(rt, "memory");
        }
    }
    out
}

/// The places of a piece that is changed at each of its tokens in turn.
fn places(rt: &impl Abort, alloc: Global, tokens: &[Token], change: Change) -> String {
    let mut out = String::new(alloc);
    for index in 0..tokens.len() {
        if index > 0 {
            out.push(' ').expect(rt, "memory");
        }
        push_place(
            rt,
            alloc,
            &mut out,
            &changed(rt, alloc, tokens, index, change),
        );
    }
    out
}

#[test]
fn neighbours_of_every_form(rt: HostRuntime) {
    let changes = [Change::Cut, Change::Missing, Change::Wrong, Change::More];
    for (text, expected) in SAMPLES {
        let tokens = tokens_in(&rt, rt.alloc(), text);
        for (change, row) in changes.iter().zip(expected.iter()) {
            let found = places(&rt, rt.alloc(), &tokens, *change);
            assert_eq!(rt; found.as_str(), *row);
        }
    }
}

#[test]
fn pieces_begin_at_command_words(rt: HostRuntime) {
    let tokens = tokens_in(&rt, rt.alloc(), "x y have A . show B");
    assert!(rt; tokens.len() < 10);
    let mut out = String::new(rt.alloc());
    for piece in &split(rt.alloc(), &tokens).expect(&rt, "memory") {
        let first = piece.first;
        let count = piece.count;
        write!(&mut out, "{first}+{count} ").expect(&rt, "memory");
    }
    assert_eq!(rt; out.as_str(), "0+2 2+2 4+1 5+2 ");
}

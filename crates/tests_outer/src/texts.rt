//! Texts as tokens, and where they are refused.
ghost use Rattle.std.specs.Prelude.{◌<◌, length};

use iv_lex::{Token, tokens};
use iv_outer::{Reading, command};
use iv_text::Pos;
use std::alloc::Global;
use std::process::Abort;

/// The tokens of a text.
pub fn tokens_in(rt: &impl Abort, alloc: Global, text: &str) -> Vec<Token> {
    let bytes = text.as_bytes();
    assert!(rt; bytes.len() <= 4_194_304);
    tokens(alloc, bytes).expect(rt, "memory")
}

/// Three texts, the first and the third of them so many times around the second.
pub fn nested(rt: &impl Abort, alloc: Global, texts: [&str; 3], count: u32) -> String {
    let mut out = String::new(alloc);
    for (index, text) in texts.iter().enumerate() {
        let times = if index == 1 { 1 } else { count };
        for _time in 0..times {
            out.push_str(text).expect(rt, "memory");
        }
    }
    out
}

/// Where a piece is refused; `None` where a form reads it.
fn refused_at(rt: &impl Abort, alloc: Global, tokens: &[Token]) -> Option<Pos>
    requires { 0 < length tokens.now }
{
    let command = command(alloc, tokens).expect(rt, "memory");
    match &command.reading {
        Reading::Form(_body) => None,
        Reading::Unreadable(at) => Some(*at),
    }
}

/// Writes where a piece is refused, or `-` where a form reads it; a piece without tokens is cut at its begin.
pub fn push_place(rt: &impl Abort, alloc: Global, out: &mut String, tokens: &[Token]) {
    if tokens.is_empty() {
        out.push('0').expect(rt, "memory");
        return;
    }
    match refused_at(rt, alloc, tokens) {
        None => out.push('-').expect(rt, "memory"),
        Some(at) => {
            let at = at.0;
            write!(out, "{at}").expect(rt, "memory");
        }
    }
}

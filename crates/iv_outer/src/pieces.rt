ghost use Rattle.std.specs.Prelude.{◌≡◌, ◌<◌, ◌≤◌, ◌^◌, IfOk, IfErr, length};
ghost use Rattle.iv_text.specs.declared.want.Want.TheVariants.{Memory};
ghost use Rattle.iv_outer.specs.Piece.{begins, is_command, pieces_of, plain_more};

use crate::classify::class_of;
use iv_lex::Token;
use iv_lex::letters::rest_from;
use iv_recogniser::Class;
use iv_text::Mem;
use std::alloc::Global;

/// A run of tokens that is read as one command.
#[derive(Clone, Copy, Debug, PartialEq, Eq)]
pub struct Piece {
    /// The index of its first token.
    pub first: u32,
    /// How many tokens it has, one at least.
    pub count: u32,
}

/// Whether a class is that of a command word.
pub fn is_command(class: Class) -> bool
    ensures { result ≡ is_command class }
{
    (class as u8) < Class::Oops as u8 + 1
}

/// Whether a token is a command word.
pub fn begins(token: &Token) -> bool
    ensures { result ≡ begins token.now }
{
    is_command(class_of(token.kind, token.text.as_slice()))
}

/// How many tokens stand before the next command word.
fn plain_more(tokens: &[Token]) -> usize
    ensures more { result ≡ plain_more tokens.now }
    ensures within { result ≤ length tokens.now }
{
    tokens.iter().take_while(|token| !begins(token)).count()
}

/// The pieces of some tokens, in order. Fails where memory runs out.
pub fn split(alloc: Global, tokens: &[Token]) -> Mem<Vec<Piece>>
    requires { length tokens.now < 2 ^ 32 }
    ensures ok { IfOk result (λ v. v.items ≡ pieces_of tokens.now) }
    ensures memory { IfErr result (λ w. w ≡ Memory) }
{
    let mut found = Vec::new(alloc);
    let mut at = 0;
    while at < tokens.len() {
        let count = plain_more(rest_from(tokens, at + 1)) + 1;
        found.push(Piece {
            first: at as u32,
            count: count as u32,
        })?;
        at += count;
    }
    Ok(found)
}

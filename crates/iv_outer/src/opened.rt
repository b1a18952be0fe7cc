ghost use Rattle.std.specs.Prelude.{◌≡◌, ◌<◌, ◌^◌, ◌++◌, ◌∷◌, [], IfOk, IfErr, OnOk, length, if◌then◌else◌, map};
ghost use Rattle.iv_lex.specs.Token.{tokens_of};
ghost use Rattle.iv_text.specs.declared.want.Want.TheVariants.{Memory};
ghost use Rattle.iv_recogniser.specs.declared.class.Class.TheVariants.{Other};
ghost use Rattle.iv_recogniser.specs.declared.class.Class.TheVariants as class;
ghost use Rattle.iv_outer.specs.Classify.{lexeme_of};
ghost use Rattle.iv_outer.specs.Opened.{any_case, bracket, is_case, lexemes_of, longest, open_once, opened, opened_cartouche, placed};

use crate::classify::{lexeme_of, lexemes};
use iv_forms::Lexeme;
use iv_lex::{Token, tokens};
use iv_recogniser::Class;
use iv_text::Mem;
use std::alloc::Global;

/// The same token, at the place of the cartouche that it stands in. Fails where memory runs out.
fn placed(cartouche: &Token, token: &Token) -> Mem<Token>
    ensures ok { IfOk result (λ t. t ≡ placed cartouche.now token.now) }
    ensures memory { IfErr result (λ w. w ≡ Memory) }
{
    Ok(Token {
        kind: token.kind,
        text: token.text.copy()?,
        at: cartouche.at,
        end: cartouche.end,
    })
}

/// A bracket of a cartouche. Fails where memory runs out.
fn bracket(class: Class, cartouche: &Token) -> Mem<Lexeme>
    ensures ok { IfOk result (λ l. l ≡ bracket class cartouche.now) }
    ensures memory { IfErr result (λ w. w ≡ Memory) }
{
    Ok(Lexeme {
        class,
        token: cartouche.copy()?,
        number: 0,
    })
}

/// The same token once more. Fails where memory runs out.
fn copied(lexeme: &Lexeme) -> Mem<Lexeme>
    ensures ok { IfOk result (λ l. l ≡ lexeme.now) }
    ensures memory { IfErr result (λ w. w ≡ Memory) }
{
    Ok(Lexeme {
        class: lexeme.class,
        token: lexeme.token.copy()?,
        number: lexeme.number,
    })
}

/// Puts a token behind the others. Fails where memory runs out.
fn push(out: &mut Vec<Lexeme>, lexeme: Lexeme) -> Mem<()>
    ensures ok { OnOk result (out.new.items ≡ out.old.items ++ lexeme ∷ []) }
    ensures memory { IfErr result (λ w. w ≡ Memory) }
{
    out.push(lexeme)?;
    Ok(())
}

/// Puts the tokens of a cartouche behind the others. Fails where memory runs out.
fn push_placed(out: &mut Vec<Lexeme>, cartouche: &Token, tokens: &[Token]) -> Mem<()>
    ensures ok { OnOk result (out.new.items ≡ out.old.items ++ map (λ t. lexeme_of (placed cartouche.now t)) tokens.now) }
    ensures memory { IfErr result (λ w. w ≡ Memory) }
{
    for token in tokens {
        let token = placed(cartouche, token)?;
        push(out, lexeme_of(&token)?)?;
    }
    Ok(())
}

/// Puts a cartouche behind the others, opened. Fails where memory runs out.
fn push_inside(alloc: Global, out: &mut Vec<Lexeme>, cartouche: &Token, bytes: &[u8]) -> Mem<()>
    requires { length bytes.now < 2 ^ 32 }
    ensures ok { OnOk result (out.new.items ≡ out.old.items ++ (bracket class.Into cartouche.now ∷ (map (λ t. lexeme_of (placed cartouche.now t)) (tokens_of bytes.now) ++ bracket class.OutOf cartouche.now ∷ []))) }
    ensures memory { IfErr result (λ w. w ≡ Memory) }
{
    let tokens = tokens(alloc, bytes)?;
    push(out, bracket(Class::Into, cartouche)?)?;
    push_placed(out, cartouche, &tokens)?;
    push(out, bracket(Class::OutOf, cartouche)?)
}

/// Puts the cartouche of a case behind the others, opened where its text is below 4 GiB. Fails where memory runs out.
fn push_cartouche(alloc: Global, out: &mut Vec<Lexeme>, lexeme: &Lexeme) -> Mem<()>
    ensures ok { OnOk result (out.new.items ≡ out.old.items ++ opened_cartouche lexeme.now) }
    ensures memory { IfErr result (λ w. w ≡ Memory) }
{
    let bytes = lexeme.token.text.to_utf8(alloc)?;
    if bytes.len() < 4_294_967_296 {
        push_inside(alloc, out, &lexeme.token, &bytes)
    } else {
        push(out, copied(lexeme)?)
    }
}

/// Whether a token behind one of this class is the cartouche of a case.
fn is_case(before: Class, lexeme: &Lexeme) -> bool
    ensures { result ≡ is_case before lexeme.now }
{
    before.is(Class::Arrow) && lexeme.class.is(Class::Cart)
}

/// Puts a token behind the others, opened where it is the cartouche of a case. Fails where memory runs out.
fn push_opened(alloc: Global, out: &mut Vec<Lexeme>, before: Class, lexeme: &Lexeme) -> Mem<()>
    ensures ok { OnOk result (out.new.items ≡ out.old.items ++ (if is_case before lexeme.now then opened_cartouche lexeme.now else (lexeme.now ∷ []))) }
    ensures memory { IfErr result (λ w. w ≡ Memory) }
{
    if is_case(before, lexeme) {
        push_cartouche(alloc, out, lexeme)
    } else {
        push(out, copied(lexeme)?)
    }
}

/// The tokens with the cartouches of cases opened, but for those inside them. Fails where memory runs out.
fn open_once(alloc: Global, lexemes: &[Lexeme]) -> Mem<Vec<Lexeme>>
    ensures ok { IfOk result (λ v. v.items ≡ open_once Other lexemes.now) }
    ensures memory { IfErr result (λ w. w ≡ Memory) }
{
    let mut out = Vec::new(alloc);
    let mut before = Class::Other;
    for lexeme in lexemes {
        push_opened(alloc, &mut out, before, lexeme)?;
        before = lexeme.class;
    }
    Ok(out)
}

/// Whether the cartouche of a case is among them.
fn any_case(lexemes: &[Lexeme]) -> bool
    ensures { result ≡ any_case Other lexemes.now }
{
    let mut before = Class::Other;
    for lexeme in lexemes {
        if is_case(before, lexeme) {
            return true;
        }
        before = lexeme.class;
    }
    false
}

/// The tokens with the cartouches of cases opened, and those inside them, so many times. Fails where memory runs out.
fn opened(alloc: Global, lexemes: Vec<Lexeme>, times: usize) -> Mem<Vec<Lexeme>>
    ensures ok { IfOk result (λ v. v.items ≡ opened times lexemes.items) }
    ensures memory { IfErr result (λ w. w ≡ Memory) }
{
    let mut now = lexemes;
    let mut left = times;
    while left > 0 {
        if !any_case(&now) {
            return Ok(now);
        }
        now = open_once(alloc, &now)?;
        left -= 1;
    }
    Ok(now)
}

/// How long the longest text is.
fn longest(tokens: &[Token]) -> usize
    ensures { result ≡ longest 0 tokens.now }
{
    let mut most = 0;
    for token in tokens {
        most = token.text.as_slice().len().max(most);
    }
    most
}

/// The tokens that the forms read: with their classes, and with the cartouches of cases opened. Fails where memory
/// runs out.
#[tactic(auto, unfolding(crate::specs::Opened::lexemes_of))]
pub fn lexemes_of(alloc: Global, tokens: &[Token]) -> Mem<Vec<Lexeme>>
    ensures ok { IfOk result (λ v. v.items ≡ lexemes_of tokens.now) }
    ensures memory { IfErr result (λ w. w ≡ Memory) }
{
    let plain = lexemes(alloc, tokens)?;
    opened(alloc, plain, longest(tokens))
}

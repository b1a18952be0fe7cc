ghost use Rattle.std.specs.Prelude.{◌≡◌, ◌<◌, IfOk, IfErr, length};
ghost use Rattle.iv_text.specs.declared.want.Want.TheVariants.{Memory};
ghost use Rattle.iv_forms.specs.Readable.{IsReadable};
ghost use Rattle.iv_outer.specs.declared.reading.Command.{Command};
ghost use Rattle.iv_outer.specs.Command.{IsCommand, IsPlaced, IsReading, word_of};
ghost use Rattle.iv_outer.specs.Opened.{lexemes_of};

use crate::laws::there_is_one_reading;
use crate::opened::lexemes_of;
use crate::pieces::begins;
use crate::reading::{Command, Reading};
use crate::refusal::{end_of, place_at};
use iv_facts::Stop;
use iv_forms::Lexeme;
use iv_forms::judge::judge;
use iv_lex::Token;
use iv_read::form;
use iv_read::laws::{deep_parts_are_placed, forms_are_read};
use iv_recogniser::Verdict;
use iv_text::{Mem, Text, Want};
use std::alloc::Global;

/// The command word of a piece, or `?` where it begins with none. Fails where memory runs out.
fn word_of(alloc: Global, tokens: &[Token]) -> Mem<Text>
    ensures ok { IfOk result (λ t. t ≡ word_of tokens.now) }
    ensures memory { IfErr result (λ w. w ≡ Memory) }
{
    match tokens {
        [first, ..] if begins(first) => first.text.copy(),
        _ => Text::from_slice(alloc, &['?']),
    }
}

/// What a form says that reads the tokens, or the first part with more than 400 levels. Fails where memory runs out.
fn read(alloc: Global, lexemes: &[Lexeme]) -> Mem<Reading>
    requires { IsReadable lexemes.now }
    ensures ok { IfOk result (λ r. IsReading r lexemes.now) }
    ensures memory { IfErr result (λ w. w ≡ Memory) }
{
    forms_are_read();
    match form(alloc, lexemes) {
        Ok((body, _rest)) => Ok(Reading::Form(body)),
        Err(Stop::Deep(at)) => Ok(Reading::Unreadable(at)),
        Err(Stop::Memory) => Err(Want::Memory),
        Err(Stop::Syntax) => unreachable!(),
    }
}

/// What the tokens of a piece are read as. Fails where memory runs out.
fn reading(alloc: Global, lexemes: &[Lexeme]) -> Mem<Reading>
    ensures ok { IfOk result (λ r. IsReading r lexemes.now) }
    ensures memory { IfErr result (λ w. w ≡ Memory) }
{
    match judge(alloc, lexemes)? {
        Verdict::Whole => read(alloc, lexemes),
        Verdict::Cut => Ok(Reading::Unreadable(end_of(lexemes))),
        Verdict::Refused(index) => Ok(Reading::Unreadable(place_at(lexemes, index))),
    }
}

/// The command that a piece is read as, the only one that there is: what a form reads all of its tokens as, or where it is
/// refused. That is the place of the first token that no form can go on with, or the end of the last token where the piece
/// is a proper beginning of one that a form reads; a token of a case's cartouche has the place of the cartouche. A piece that
/// a form reads is refused at its first fact, label or method with more than 400 levels. Places are byte offsets. Takes linear
/// time but for cartouches in cartouches. Fails where memory runs out.
pub fn command(alloc: Global, tokens: &[Token]) -> Mem<Command>
    requires some { 0 < length tokens.now }
    ensures command { IfOk result (λ c. IsCommand tokens.now c) }
    ensures placed { IfOk result (λ c. IsPlaced c.reading tokens.now) }
    ensures only { IfOk result (λ c. (d : Command) → IsCommand tokens.now d → d ≡ c) }
    ensures memory { IfErr result (λ w. w ≡ Memory) }
{
    there_is_one_reading();
    deep_parts_are_placed();
    let word = word_of(alloc, tokens)?;
    let lexemes = lexemes_of(alloc, tokens)?;
    let reading = reading(alloc, &lexemes)?;
    Ok(Command {
        at: tokens[0].at,
        word,
        reading,
    })
}

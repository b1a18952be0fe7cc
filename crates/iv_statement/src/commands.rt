ghost use Rattle.std.specs.Prelude.{◌≡◌, ◌≤◌, ◌<◌, ◌∷◌, List, length, map, IfOk, IfErr};
ghost use Rattle.std.specs.List.{All, AllPairs};
ghost use Rattle.iv_text.specs.declared.want.Want.TheVariants.{Memory};
ghost use Rattle.iv_lex.specs.declared.cutting.Token.{Token};
ghost use Rattle.iv_outer.specs.Command.{IsPlaced, HasPlace, at_of};
ghost use Rattle.iv_statement.specs.Command.{is_name, is_quoted, is_colon, is_left, is_assumption, unbuilt, lemma_form, stated_form, labelled_form, lemma_of, by_form, by_of, texts_of, form_of, built_of, place_in, run_of, runs_of, AreEach, IsRead, IsRun, IsCommands, IsNoLater, StandsIn};

use crate::parts::Parts;
use crate::reading::reading_of;
use iv_forms::{Body, Items};
use iv_lex::letters::rest_from;
use iv_lex::{Kind, Token, tokens};
use iv_outer::laws::pieces_are_joined;
use iv_outer::{Command as Read, Piece, Reading, command, split};
use iv_report::LIMIT;
use iv_text::{Mem, Pos, Text};
use std::alloc::Global;

/// What is built of a command.
#[derive(Drop)]
pub enum Form {
    /// `theory NAME imports NAME .. begin`: its imports, in order.
    Header(Items<Text>),
    /// A command that only holds a text, as `text`.
    Prose,
    /// `lemma NAME: "PROP A ==> .. ==> PROP C"`: its name, and the names in its proposition, in order.
    Lemma(Text, Parts),
    /// `by assumption`
    ByAssumption,
    /// `oops`
    Oops,
    /// `end`
    End,
    /// Nothing: no form goes on at this place, or the part that begins there isn't built.
    Unreadable(Pos),
}

/// A command of a document.
#[derive(Drop)]
pub struct Command {
    /// Where its first token begins.
    pub at: Pos,
    /// Its command word, or `?` where it begins with none.
    pub word: Text,
    /// What it says.
    pub form: Form,
}

/// Whether a token is a name: an identifier, or several with dots between them.
fn is_name(token: &Token) -> bool
    ensures { result ≡ is_name token.now }
{
    match token.kind {
        Kind::Ident | Kind::Long => true,
        _ => false,
    }
}

/// Whether a token holds a text: it is a string or a cartouche.
fn is_quoted(token: &Token) -> bool
    ensures { result ≡ is_quoted token.now }
{
    match token.kind {
        Kind::Str | Kind::Cart => true,
        _ => false,
    }
}

/// Whether a token is the delimiter `:`.
fn is_colon(token: &Token) -> bool
    ensures { result ≡ is_colon token.now }
{
    match token.kind {
        Kind::Single => token.text.is_chars(&[':']),
        _ => false,
    }
}

/// Whether a token is the delimiter `[`.
fn is_left(token: &Token) -> bool
    ensures { result ≡ is_left token.now }
{
    match token.kind {
        Kind::Single => token.text.is_chars(&['[']),
        _ => false,
    }
}

/// Whether a token is the word `assumption`.
fn is_assumption(token: &Token) -> bool
    ensures { result ≡ is_assumption token.now }
{
    match token.kind {
        Kind::Ident => token
            .text
            .is_chars(&['a', 's', 's', 'u', 'm', 'p', 't', 'i', 'o', 'n']),
        _ => false,
    }
}

/// The part that begins at a token isn't built.
fn unbuilt(token: &Token) -> Form
    ensures { result ≡ unbuilt token.now }
{
    Form::Unreadable(token.at)
}

/// A lemma of this name, if its proposition reads and no token is behind it.
fn lemma_form(name: Text, text: &Token, reading: Option<Parts>, rest: &[Token]) -> Form
    ensures { result ≡ lemma_form name text.now reading rest.now }
{
    let Some(parts) = reading else {
        return unbuilt(text);
    };
    match rest {
        [] => Form::Lemma(name, parts),
        [more, ..] => unbuilt(more),
    }
}

/// What is built behind `NAME:`. Fails where memory runs out.
fn stated_form(alloc: Global, name: &Token, text: &Token, rest: &[Token]) -> Mem<Form>
    ensures ok { IfOk result (λ form. form ≡ stated_form name.now text.now rest.now) }
    ensures memory { IfErr result (λ w. w ≡ Memory) }
{
    if !is_quoted(text) {
        return Ok(unbuilt(text));
    }
    let reading = reading_of(alloc, text.text.as_slice())?;
    let label = name.text.copy()?;
    Ok(lemma_form(label, text, reading, rest))
}

/// What is built where a name may stand before `:` or `[`. Fails where memory runs out.
fn labelled_form(
    alloc: Global,
    name: &Token,
    mark: &Token,
    text: &Token,
    rest: &[Token],
) -> Mem<Form>
    ensures ok { IfOk result (λ form. form ≡ labelled_form name.now mark.now text.now rest.now) }
    ensures memory { IfErr result (λ w. w ≡ Memory) }
{
    if !is_name(name) {
        return Ok(unbuilt(name));
    }
    if is_colon(mark) {
        return stated_form(alloc, name, text, rest);
    }
    if is_left(mark) {
        return Ok(unbuilt(mark));
    }
    Ok(unbuilt(name))
}

/// What is built of `lemma`, by the tokens behind it. Fails where memory runs out.
fn lemma_of(alloc: Global, word: &Token, rest: &[Token]) -> Mem<Form>
    ensures ok { IfOk result (λ form. form ≡ lemma_of word.now rest.now) }
    ensures memory { IfErr result (λ w. w ≡ Memory) }
{
    match rest {
        [] => Ok(unbuilt(word)),
        [name] => Ok(unbuilt(name)),
        [name, _mark] => Ok(unbuilt(name)),
        [name, mark, text, ..] => labelled_form(alloc, name, mark, text, rest_from(rest, 3)),
    }
}

/// `by assumption`, if no token is behind it.
fn by_form(rest: &[Token]) -> Form
    ensures { result ≡ by_form rest.now }
{
    match rest {
        [] => Form::ByAssumption,
        [more, ..] => unbuilt(more),
    }
}

/// What is built of `by`, by the tokens behind it.
fn by_of(word: &Token, rest: &[Token]) -> Form
    ensures { result ≡ by_of word.now rest.now }
{
    match rest {
        [] => unbuilt(word),
        [method, ..] => {
            if is_assumption(method) {
                by_form(rest_from(rest, 1))
            } else {
                unbuilt(method)
            }
        }
    }
}

/// The texts of tokens. Fails where memory runs out.
fn texts_of(alloc: Global, tokens: &[Token]) -> Mem<Items<Text>>
    ensures ok { IfOk result (λ texts. texts ≡ texts_of tokens.now) }
    ensures memory { IfErr result (λ w. w ≡ Memory) }
{
    let mut texts = Items::new(alloc);
    for token in tokens {
        texts.push(token.text.copy()?)?;
    }
    Ok(texts)
}

/// What is built of a form that reads these tokens. Fails where memory runs out.
fn form_of(alloc: Global, body: &Body, word: &Token, rest: &[Token]) -> Mem<Form>
    ensures ok { IfOk result (λ form. form ≡ form_of body.now word.now rest.now) }
    ensures placed { IfOk result (λ form. HasPlace (place_in word.now.at form) (word.now ∷ rest.now)) }
    ensures memory { IfErr result (λ w. w ≡ Memory) }
{
    match body {
        Body::Theory(_name, imports) => {
            let names = texts_of(alloc, imports.as_slice())?;
            Ok(Form::Header(names))
        }
        Body::End => Ok(Form::End),
        Body::Chapter(_text) => Ok(Form::Prose),
        Body::Section(_text) => Ok(Form::Prose),
        Body::Subsection(_text) => Ok(Form::Prose),
        Body::Subsubsection(_text) => Ok(Form::Prose),
        Body::Paragraph(_text) => Ok(Form::Prose),
        Body::Subparagraph(_text) => Ok(Form::Prose),
        Body::Prose(_text) => Ok(Form::Prose),
        Body::Txt(_text) => Ok(Form::Prose),
        Body::Lemma(_statement) => lemma_of(alloc, word, rest),
        Body::By(_first, _second) => Ok(by_of(word, rest)),
        Body::Oops => Ok(Form::Oops),
        _ => Ok(unbuilt(word)),
    }
}

/// What is built of the reading of a piece. Fails where memory runs out.
fn built_of(alloc: Global, reading: &Reading, tokens: &[Token]) -> Mem<Form>
    requires some { 0 < length tokens.now }
    requires placed { IsPlaced reading.now tokens.now }
    ensures ok { IfOk result (λ form. form ≡ built_of reading.now tokens.now) }
    ensures placed { IfOk result (λ form. HasPlace (place_in (at_of tokens.now) form) tokens.now) }
    ensures memory { IfErr result (λ w. w ≡ Memory) }
{
    match reading {
        Reading::Unreadable(at) => Ok(Form::Unreadable(*at)),
        Reading::Form(body) => form_of(alloc, body, &tokens[0], rest_from(tokens, 1)),
    }
}

/// The command that a piece is read as, with what is built of it. Fails where memory runs out.
fn read_command(alloc: Global, tokens: &[Token]) -> Mem<Command>
    requires some { 0 < length tokens.now }
    ensures read { IfOk result (λ c. IsRead tokens.now c) }
    ensures memory { IfErr result (λ w. w ≡ Memory) }
{
    let Read { at, word, reading } = command(alloc, tokens)?;
    let form = built_of(alloc, &reading, tokens)?;
    Ok(Command { at, word, form })
}

/// The tokens of a piece.
fn run_of(tokens: &[Token], piece: Piece) -> &[Token]
    requires { IsRun tokens.now piece }
    ensures { result.now ≡ run_of tokens.now piece }
{
    let first = piece.first as usize;
    let rest = &tokens[first..];
    &rest[..piece.count as usize]
}

/// The commands that these pieces are read as. Fails where memory runs out.
fn commands_in(alloc: Global, tokens: &[Token], pieces: &[Piece]) -> Mem<Vec<Command>>
    requires { All (IsRun tokens.now) pieces.now }
    ensures read { IfOk result (λ v. AreEach IsRead (map (run_of tokens.now) pieces.now) v.items) }
    ensures memory { IfErr result (λ w. w ≡ Memory) }
{
    let mut found = Vec::new(alloc);
    for piece in pieces {
        let read = read_command(alloc, run_of(tokens, *piece))?;
        found.push(read)?;
    }
    Ok(found)
}

/// The commands of a document, in order. Fails where memory runs out.
pub fn commands(alloc: Global, document: &[u8]) -> Mem<Vec<Command>>
    requires small { length document.now ≤ LIMIT }
    ensures commands { IfOk result (λ v. IsCommands document.now v.items) }
    ensures only { IfOk result (λ v. (cs : List Command) → IsCommands document.now cs → cs ≡ v.items) }
    ensures ordered { IfOk result (λ v. AllPairs IsNoLater v.items) }
    ensures inside { IfOk result (λ v. All (StandsIn document.now) v.items) }
    ensures memory { IfErr result (λ w. w ≡ Memory) }
{
    pieces_are_joined();
    let all = tokens(alloc, document)?;
    let pieces = split(alloc, all.as_slice())?;
    let found = commands_in(alloc, all.as_slice(), pieces.as_slice())?;
    Ok(found)
}

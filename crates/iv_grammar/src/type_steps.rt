//! The steps of the parser of types. Its stack is a vector, so any nesting is read.
ghost use Rattle.std.specs.Prelude.{◌≡◌, List, [], ◌∷◌, IfOk, IfErr, true, false};
ghost use Rattle.std.specs.Option.{MatchOption};
ghost use Rattle.iv_grammar.specs.TypeNode.{Steps, Stuck, Turned, takes_any, takes_by, round_kind, square_kind, types_kind, starts_name, starts_arrow};

use crate::cutting::Token;
use crate::sign::Sign;
use crate::type_nodes::{Awaiting, Kind, Part, Place, TypeForm, deeper, open, put};
use crate::words::Word;
use iv_text::{Text, Want};
use std::alloc::Global;

/// Why no type was read.
#[derive(Clone, Copy, Debug, PartialEq, Eq)]
pub enum NoType {
    /// No type begins with these tokens.
    Stuck,
    /// There is no memory.
    Memory,
}

impl From<Want> for NoType {
    ghost use Rattle.std.specs.Prelude.{◌≡◌};
    ghost use Rattle.iv_grammar.specs.declared.type_steps.NoType.TheVariants.{Memory};

    ghost from_gives = { λ _ e. e ≡ Memory };

    fn from(_want: Want) -> NoType {
        NoType::Memory
    }
}

/// Where a turn leads.
#[derive(Clone, Copy, Debug, PartialEq, Eq)]
pub enum Turn {
    /// The parser goes on there.
    On(Place),
    /// The whole was read.
    Done(Part),
}

/// The first token and those behind it.
pub(crate) fn split(tokens: &[Token]) -> Option<(&Token, &[Token])>
    ensures { MatchOption result (tokens.now ≡ []) (λ r. tokens.now ≡ r.0.now ∷ r.1.now) }
{
    match tokens {
        [] => None,
        [first, rest @ ..] => Some((first, rest)),
    }
}

/// The identifier in front and the tokens behind it, where one stands there.
pub(crate) fn name_first(tokens: &[Token]) -> Option<(&Text, &[Token])>
    ensures { MatchOption result (starts_name tokens.now ≡ false) (λ r. tokens.now ≡ Token.Word Word.Ident r.0.now ∷ r.1.now) }
{
    match split(tokens) {
        None => None,
        Some((token, rest)) => match token {
            Token::Word(word, text) => match word {
                Word::Ident => Some((text, rest)),
                _ => None,
            },
            Token::Sign(_sign) => None,
        },
    }
}

/// The tokens behind an arrow, where one stands in front.
pub(crate) fn arrow_first(tokens: &[Token]) -> Option<&[Token]>
    ensures { MatchOption result (starts_arrow tokens.now ≡ false) (λ r. tokens.now ≡ Token.Sign Sign.Arrow ∷ r.now) }
{
    match split(tokens) {
        None => None,
        Some((token, rest)) => match token {
            Token::Word(_word, _text) => None,
            Token::Sign(sign) => match sign {
                Sign::Arrow => Some(rest),
                _ => None,
            },
        },
    }
}

/// A type that is a word. `Stuck` where none is.
pub(crate) fn begun_word(
    trees: &mut Vec<TypeForm>,
    word: Word,
    text: &Text,
) -> Result<Place, NoType>
    ensures ok { IfOk result (λ s. (xs : List Awaiting) (left : List Token) → Steps trees.old.items xs Place.Begin (Token.Word word text.now ∷ left) trees.new.items xs s left) }
    ensures stuck { IfErr result (λ e. e ≡ NoType.Stuck → (xs : List Awaiting) (left : List Token) → Stuck trees.old.items xs Place.Begin (Token.Word word text.now ∷ left)) }
{
    match word {
        Word::Tvar => Ok(put(trees, TypeForm::Var(text.copy()?), Kind::Atom, 0)?),
        Word::Ident => Ok(put(trees, TypeForm::Con(text.copy()?), Kind::Atom, 0)?),
        _ => Err(NoType::Stuck),
    }
}

/// What begins a type with a sign. `Stuck` where none does.
pub(crate) fn begun_sign(frames: &mut Vec<Awaiting>, sign: Sign) -> Result<Place, NoType>
    ensures ok { IfOk result (λ s. (ns : List TypeForm) (left : List Token) → Steps ns frames.old.items Place.Begin (Token.Sign sign ∷ left) ns frames.new.items s left) }
    ensures stuck { IfErr result (λ e. e ≡ NoType.Stuck → (ns : List TypeForm) (left : List Token) → Stuck ns frames.old.items Place.Begin (Token.Sign sign ∷ left)) }
{
    match sign {
        Sign::Open => Ok(open(frames, Awaiting::Round)?),
        Sign::OpenTypes => Ok(open(frames, Awaiting::Square)?),
        _ => Err(NoType::Stuck),
    }
}

/// What begins a type. `Stuck` where the token doesn't.
pub(crate) fn begun(
    trees: &mut Vec<TypeForm>,
    frames: &mut Vec<Awaiting>,
    token: &Token,
) -> Result<Place, NoType>
    ensures ok { IfOk result (λ s. (left : List Token) → Steps trees.old.items frames.old.items Place.Begin (token.now ∷ left) trees.new.items frames.new.items s left) }
    ensures stuck { IfErr result (λ e. e ≡ NoType.Stuck → (left : List Token) → Stuck trees.old.items frames.old.items Place.Begin (token.now ∷ left)) }
{
    match token {
        Token::Word(word, text) => begun_word(trees, *word, text),
        Token::Sign(sign) => begun_sign(frames, *sign),
    }
}

/// A constructor behind several types in parentheses. `Stuck` where none follows.
pub(crate) fn tupled<'a>(
    trees: &mut Vec<TypeForm>,
    part: Part,
    left: &'a [Token],
) -> Result<(Place, &'a [Token]), NoType>
    requires { part.kind ≡ Kind.Rounds }
    ensures ok { IfOk result (λ r. (xs : List Awaiting) → Steps trees.old.items xs (Place.Got part) (Token.Sign Sign.Close ∷ left.now) trees.new.items xs r.0 r.1.now) }
    ensures stuck { IfErr result (λ e. e ≡ NoType.Stuck → (xs : List Awaiting) → Stuck trees.old.items xs (Place.Got part) (Token.Sign Sign.Close ∷ left.now)) }
{
    match name_first(left) {
        None => Err(NoType::Stuck),
        Some((c, after)) => {
            let depth = deeper(part.depth);
            Ok((
                put(
                    trees,
                    TypeForm::Tuple(part.root, c.copy()?),
                    Kind::Atom,
                    depth,
                )?,
                after,
            ))
        }
    }
}

/// What is behind the `)` of a list. `Stuck` where several types are in the list and no constructor follows.
pub(crate) fn closed<'a>(
    trees: &mut Vec<TypeForm>,
    part: Part,
    left: &'a [Token],
) -> Result<(Place, &'a [Token]), NoType>
    requires { round_kind part.kind ≡ true }
    ensures ok { IfOk result (λ r. (xs : List Awaiting) → Steps trees.old.items xs (Place.Got part) (Token.Sign Sign.Close ∷ left.now) trees.new.items xs r.0 r.1.now) }
    ensures stuck { IfErr result (λ e. e ≡ NoType.Stuck → (xs : List Awaiting) → Stuck trees.old.items xs (Place.Got part) (Token.Sign Sign.Close ∷ left.now)) }
{
    match part.kind {
        Kind::Round(one) => {
            let depth = deeper(part.depth);
            Ok((put(trees, TypeForm::Paren(one), Kind::Atom, depth)?, left))
        }
        _ => tupled(trees, part, left),
    }
}

/// What is behind the `]` of a list: an arrow, and then a type. `Stuck` where no arrow follows.
pub(crate) fn arrowed<'a>(
    frames: &mut Vec<Awaiting>,
    part: Part,
    left: &'a [Token],
) -> Result<(Place, &'a [Token]), NoType>
    requires { square_kind part.kind ≡ true }
    ensures ok { IfOk result (λ r. (ns : List TypeForm) → Steps ns frames.old.items (Place.Got part) (Token.Sign Sign.CloseTypes ∷ left.now) ns frames.new.items r.0 r.1.now) }
    ensures stuck { IfErr result (λ e. e ≡ NoType.Stuck → (ns : List TypeForm) → Stuck ns frames.old.items (Place.Got part) (Token.Sign Sign.CloseTypes ∷ left.now)) }
{
    match arrow_first(left) {
        None => Err(NoType::Stuck),
        Some(after) => Ok((open(frames, Awaiting::Arrows(part))?, after)),
    }
}

/// A turn behind a tree that goes on with a sign. `Stuck` where what has to follow that doesn't.
pub(crate) fn grown_sign<'a>(
    trees: &mut Vec<TypeForm>,
    frames: &mut Vec<Awaiting>,
    part: Part,
    sign: Sign,
    left: &'a [Token],
) -> Result<(Place, &'a [Token]), NoType>
    requires { takes_by (Token.Sign sign) part.kind ≡ true }
    ensures ok { IfOk result (λ r. Steps trees.old.items frames.old.items (Place.Got part) (Token.Sign sign ∷ left.now) trees.new.items frames.new.items r.0 r.1.now) }
    ensures stuck { IfErr result (λ e. e ≡ NoType.Stuck → Stuck trees.old.items frames.old.items (Place.Got part) (Token.Sign sign ∷ left.now)) }
{
    match sign {
        Sign::Arrow => Ok((open(frames, Awaiting::Arrow(part))?, left)),
        Sign::Comma => Ok((open(frames, Awaiting::More(part))?, left)),
        Sign::Close => closed(trees, part, left),
        Sign::CloseTypes => arrowed(frames, part, left),
        _ => Err(NoType::Stuck),
    }
}

/// A constructor behind its argument.
pub(crate) fn named(
    trees: &mut Vec<TypeForm>,
    part: Part,
    word: Word,
    text: &Text,
) -> Result<Place, NoType>
    requires { takes_by (Token.Word word text.now) part.kind ≡ true }
    ensures ok { IfOk result (λ s. (xs : List Awaiting) (left : List Token) → Steps trees.old.items xs (Place.Got part) (Token.Word word text.now ∷ left) trees.new.items xs s left) }
    ensures stuck { IfErr result (λ e. e ≡ NoType.Stuck → ⊥) }
{
    let depth = deeper(part.depth);
    Ok(put(
        trees,
        TypeForm::Applied(part.root, text.copy()?),
        Kind::Atom,
        depth,
    )?)
}

/// A turn behind a tree that goes on with a token. `Stuck` where what has to follow that doesn't.
pub(crate) fn grown<'a>(
    trees: &mut Vec<TypeForm>,
    frames: &mut Vec<Awaiting>,
    part: Part,
    token: &Token,
    left: &'a [Token],
) -> Result<(Place, &'a [Token]), NoType>
    requires { takes_by token.now part.kind ≡ true }
    ensures ok { IfOk result (λ r. Steps trees.old.items frames.old.items (Place.Got part) (token.now ∷ left.now) trees.new.items frames.new.items r.0 r.1.now) }
    ensures stuck { IfErr result (λ e. e ≡ NoType.Stuck → Stuck trees.old.items frames.old.items (Place.Got part) (token.now ∷ left.now)) }
{
    match token {
        Token::Word(word, text) => match named(trees, part, *word, text) {
            Ok(place) => Ok((place, left)),
            Err(e) => Err(e),
        },
        Token::Sign(sign) => grown_sign(trees, frames, part, *sign, left),
    }
}

/// A turn behind a type that doesn't go on: what was put off for it is done, and where nothing was, it is the whole.
pub(crate) fn stopped(
    trees: &mut Vec<TypeForm>,
    frames: &mut Vec<Awaiting>,
    part: Part,
) -> Result<Turn, NoType>
    requires { types_kind part.kind ≡ false }
    ensures ok { IfOk result (λ turn. (rest : List Token) → takes_any rest part.kind ≡ false → Turned trees.old.items frames.old.items (Place.Got part) rest trees.new.items frames.new.items turn rest) }
    ensures stuck { IfErr result (λ e. e ≡ NoType.Stuck → ⊥) }
{
    match frames.pop() {
        None => Ok(Turn::Done(part)),
        Some(frame) => {
            let kind = frame.kind(part.root);
            let depth = frame.depth(part.depth);
            Ok(Turn::On(put(trees, frame.form(part.root), kind, depth)?))
        }
    }
}

/// A turn behind a tree that doesn't go on. `Stuck` where it is no type.
pub(crate) fn rested<'a>(
    trees: &mut Vec<TypeForm>,
    frames: &mut Vec<Awaiting>,
    part: Part,
    rest: &'a [Token],
) -> Result<(Turn, &'a [Token]), NoType>
    requires { takes_any rest.now part.kind ≡ false }
    ensures ok { IfOk result (λ r. Turned trees.old.items frames.old.items (Place.Got part) rest.now trees.new.items frames.new.items r.0 r.1.now) }
    ensures stuck { IfErr result (λ e. e ≡ NoType.Stuck → Stuck trees.old.items frames.old.items (Place.Got part) rest.now) }
{
    if part.kind.is_types() {
        return Err(NoType::Stuck);
    }
    match stopped(trees, frames, part) {
        Ok(turn) => Ok((turn, rest)),
        Err(e) => Err(e),
    }
}

/// A turn behind a tree. `Stuck` where it neither goes on nor is a type.
pub(crate) fn got<'a>(
    trees: &mut Vec<TypeForm>,
    frames: &mut Vec<Awaiting>,
    part: Part,
    rest: &'a [Token],
) -> Result<(Turn, &'a [Token]), NoType>
    ensures ok { IfOk result (λ r. Turned trees.old.items frames.old.items (Place.Got part) rest.now trees.new.items frames.new.items r.0 r.1.now) }
    ensures stuck { IfErr result (λ e. e ≡ NoType.Stuck → Stuck trees.old.items frames.old.items (Place.Got part) rest.now) }
{
    match split(rest) {
        None => rested(trees, frames, part, rest),
        Some((token, left)) => {
            if part.kind.takes(token) {
                match grown(trees, frames, part, token, left) {
                    Ok((place, left)) => Ok((Turn::On(place), left)),
                    Err(e) => Err(e),
                }
            } else {
                rested(trees, frames, part, rest)
            }
        }
    }
}

/// A turn. `Stuck` where nothing is read.
pub(crate) fn turned<'a>(
    trees: &mut Vec<TypeForm>,
    frames: &mut Vec<Awaiting>,
    place: Place,
    rest: &'a [Token],
) -> Result<(Turn, &'a [Token]), NoType>
    ensures ok { IfOk result (λ r. Turned trees.old.items frames.old.items place rest.now trees.new.items frames.new.items r.0 r.1.now) }
    ensures stuck { IfErr result (λ e. e ≡ NoType.Stuck → Stuck trees.old.items frames.old.items place rest.now) }
{
    match place {
        Place::Got(part) => got(trees, frames, part, rest),
        Place::Begin => match split(rest) {
            None => Err(NoType::Stuck),
            Some((token, left)) => match begun(trees, frames, token) {
                Ok(place) => Ok((Turn::On(place), left)),
                Err(e) => Err(e),
            },
        },
    }
}

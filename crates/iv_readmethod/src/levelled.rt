//! Parts of methods with their levels.
ghost use Rattle.std.specs.Prelude.{◌≡◌, IfOk, IfErr, OnOk};
ghost use Rattle.iv_text.specs.declared.want.Want.TheVariants.{Memory};
ghost use Rattle.iv_facts.specs.Found.{got, one, IsStop};
ghost use Rattle.iv_facts.specs.FactLevels.{first_of};
ghost use Rattle.iv_readmethod.specs.Methods.{flat, more, raised};

use iv_facts::Stop;
use iv_facts::tokens::{one, place};
use iv_forms::{Items, Lexeme};
use iv_recogniser::Sort;
use iv_text::{Mem, Pos};

/// A part of a method.
#[derive(Drop)]
pub struct Levelled<T> {
    /// What was read.
    pub value: T,
    /// How many levels it has.
    pub levels: u32,
    /// Where the first fact in it begins that is too deep; the value is then without facts.
    pub deep: Option<Pos>,
}

/// How two methods are joined.
#[derive(Clone, Copy, Debug, PartialEq, Eq)]
pub enum Join {
    /// By a comma.
    Then,
    /// By a semicolon.
    On,
    /// By a bar.
    Or,
}

/// A part without levels.
pub(crate) fn flat<T>(value: T) -> Levelled<T>
    ensures { result ≡ flat value }
{
    Levelled {
        value,
        levels: 0,
        deep: None,
    }
}

/// The first of two places.
pub(crate) fn first_of(first: Option<Pos>, second: Option<Pos>) -> Option<Pos>
    ensures { result ≡ first_of first second }
{
    match first {
        None => second,
        Some(place) => Some(place),
    }
}

/// A part with one level more, where so many may be there.
#[tactic(auto, unfolding(crate::specs::Methods::raised))]
pub(crate) fn raised<T: Drop>(
    part: Levelled<T>,
    left: u32,
    tokens: &[Lexeme],
) -> Result<(Levelled<T>, &[Lexeme]), Stop>
    ensures ok { IfOk result (λ r. raised left part tokens.now ≡ got r.0 r.1.now) }
    ensures err { IfErr result (λ e. IsStop e (raised left part tokens.now)) }
{
    if part.levels < left {
        let raised = Levelled {
            value: part.value,
            levels: part.levels + 1,
            deep: part.deep,
        };
        Ok((raised, tokens))
    } else {
        Err(Stop::Deep(place(tokens)))
    }
}

/// A part, the token of a set behind it, and the tokens behind that. Generic, so that no drop of a method is written out at
/// its exits.
pub(crate) fn closed<T: Drop>(
    part: T,
    tokens: &[Lexeme],
    sort: Sort,
) -> Result<(T, &Lexeme, &[Lexeme]), Stop>
    ensures part { IfOk result (λ r. r.0 ≡ part) }
    ensures ok { IfOk result (λ r. one sort tokens.now ≡ got r.1.now r.2.now) }
    ensures err { IfErr result (λ e. IsStop e (one sort tokens.now)) }
{
    let (token, rest) = one(tokens, sort)?;
    Ok((part, token, rest))
}

/// One more part of a list.
pub(crate) fn more<T: Drop>(list: &mut Levelled<Items<T>>, part: Levelled<T>) -> Mem<()>
    ensures ok { OnOk result (list.new ≡ more list.old part) }
    ensures memory { IfErr result (λ w. w ≡ Memory) }
{
    list.value.push(part.value)?;
    list.levels = list.levels.max(part.levels);
    list.deep = first_of(list.deep, part.deep);
    Ok(())
}

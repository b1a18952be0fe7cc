//! Labels, propositions and names.
ghost use Rattle.std.specs.Prelude.{◌≡◌, [], ◌∷◌, Some, None, IfOk, IfErr};
ghost use Rattle.iv_facts.specs.Found.{got, IsStop, begins, behind, many};
ghost use Rattle.iv_facts.specs.Props.{text_of, more_of, some_of, named_parts, named_atts, opt_name, label_parts, label, begins_label, opt_label, patterns, prop, claim, more_props, group, more_groups, props, of_type, var_group, more_vars, vars, opt_for};

use crate::facts::{LIMIT, opt_atts};
use crate::stop::Stop;
use crate::tokens::{begins, behind, one, skip, stop_at};
use iv_forms::{Att, Claim, Group, Items, Label, Lexeme, Prop, VarGroup};
use iv_lex::Token;
use iv_recogniser::{Class, Sort};
use std::alloc::Global;

/// A name and its attributes, as in front of `=`.
#[derive(Drop)]
pub struct Named {
    /// The name.
    pub name: Token,
    /// The attributes in order.
    pub atts: Items<Att>,
}

/// The next token copied, where it is one of a set, and those behind it. Fails with `Syntax` where it is none, and with
/// `Memory` where the count of owners of its text is full.
#[tactic(auto, using(crate::proofs::Steps::stopped, crate::proofs::Steps::went_on), unfolding(crate::specs::Props::text_of, crate::specs::Found::then_))]
pub fn text_of(tokens: &[Lexeme], sort: Sort) -> Result<(Token, &[Lexeme]), Stop>
    ensures ok { IfOk result (λ r. text_of sort tokens.now ≡ got r.0 r.1.now) }
    ensures err { IfErr result (λ e. IsStop e (text_of sort tokens.now)) }
{
    let (token, rest) = one(tokens, sort)?;
    Ok((token.token.copy()?, rest))
}

/// Further tokens of one set behind those that are there.
#[tactic(auto, using(crate::proofs::Steps::many_next, crate::proofs::Steps::many_stop, crate::proofs::Steps::many_end, crate::proofs::Steps::many_stopped), unfolding(crate::specs::Props::more_of))]
pub(crate) fn more_of<'a>(
    sort: Sort,
    tokens: &'a [Lexeme],
    found: &mut Items<Token>,
) -> Result<&'a [Lexeme], Stop>
    ensures ok { IfOk result (λ r. more_of sort found.old tokens.now ≡ got found.new r.now) }
    ensures err { IfErr result (λ e. IsStop e (more_of sort found.old tokens.now)) }
{
    let mut rest = tokens;
    for _step in tokens {
        if !begins(rest, sort) {
            break;
        }
        let (next, after) = text_of(rest, sort)?;
        found.push(next)?;
        rest = after;
    }
    Ok(rest)
}

/// Tokens of one set, one at least, and those behind them. Fails with `Syntax` where the first is none, and with `Memory`
/// where memory runs out.
#[tactic(auto, using(crate::proofs::Steps::stopped, crate::proofs::Steps::went_on), unfolding(crate::specs::Props::some_of, crate::specs::Found::then_))]
pub fn some_of(
    alloc: Global,
    sort: Sort,
    tokens: &[Lexeme],
) -> Result<(Items<Token>, &[Lexeme]), Stop>
    ensures ok { IfOk result (λ r. some_of sort tokens.now ≡ got r.0 r.1.now) }
    ensures err { IfErr result (λ e. IsStop e (some_of sort tokens.now)) }
{
    let mut found = Items::new(alloc);
    let (first, rest) = text_of(tokens, sort)?;
    found.push(first)?;
    let rest = more_of(sort, rest, &mut found)?;
    Ok((found, rest))
}

/// A name and its attributes, and the tokens behind them.
#[tactic(auto, using(crate::proofs::Steps::stopped, crate::proofs::Steps::went_on), unfolding(crate::specs::Props::named_parts, crate::specs::FactLevels::limit, crate::specs::Found::then_))]
fn named_parts(alloc: Global, tokens: &[Lexeme]) -> Result<(Named, &[Lexeme]), Stop>
    ensures ok { IfOk result (λ r. named_parts tokens.now ≡ got r.0 r.1.now) }
    ensures err { IfErr result (λ e. IsStop e (named_parts tokens.now)) }
{
    let (name, rest) = text_of(tokens, Sort::Name)?;
    let (atts, rest) = opt_atts(alloc, LIMIT, rest)?;
    Ok((Named { name, atts }, rest))
}

/// A name and its attributes, as in front of `=`, and the tokens behind them. Fails with `Syntax` where none go on,
/// with `Deep` where they have more than 400 levels, at the name, and with `Memory` where memory runs out.
#[tactic(auto, using(crate::proofs::Steps::part_stopped, crate::proofs::Steps::part_read), unfolding(crate::specs::Props::named_atts))]
pub fn named_atts(alloc: Global, tokens: &[Lexeme]) -> Result<(Named, &[Lexeme]), Stop>
    ensures ok { IfOk result (λ r. named_atts tokens.now ≡ got r.0 r.1.now) }
    ensures err { IfErr result (λ e. IsStop e (named_atts tokens.now)) }
{
    match named_parts(alloc, tokens) {
        Ok(found) => Ok(found),
        Err(stop) => Err(stop_at(stop, tokens)),
    }
}

/// A name, or none, and the tokens behind it.
#[tactic(auto, using(crate::proofs::Steps::stopped, crate::proofs::Steps::went_on), unfolding(crate::specs::Props::opt_name, crate::specs::Found::then_))]
fn opt_name(tokens: &[Lexeme]) -> Result<(Option<Token>, &[Lexeme]), Stop>
    ensures ok { IfOk result (λ r. opt_name tokens.now ≡ got r.0 r.1.now) }
    ensures err { IfErr result (λ e. IsStop e (opt_name tokens.now)) }
{
    if !begins(tokens, Sort::Name) {
        return Ok((None, tokens));
    }
    let (name, rest) = text_of(tokens, Sort::Name)?;
    Ok((Some(name), rest))
}

/// A name or none, attributes or none, `:`, and the tokens behind it.
#[tactic(auto, using(crate::proofs::Steps::stopped, crate::proofs::Steps::went_on), unfolding(crate::specs::Props::label_parts, crate::specs::FactLevels::limit, crate::specs::Found::then_))]
fn label_parts(alloc: Global, tokens: &[Lexeme]) -> Result<(Label, &[Lexeme]), Stop>
    ensures ok { IfOk result (λ r. label_parts tokens.now ≡ got r.0 r.1.now) }
    ensures err { IfErr result (λ e. IsStop e (label_parts tokens.now)) }
{
    let (name, rest) = opt_name(tokens)?;
    let (atts, rest) = opt_atts(alloc, LIMIT, rest)?;
    let (_colon, rest) = one(rest, Sort::Only(Class::Colon))?;
    Ok((Label { name, atts }, rest))
}

/// A label, and the tokens behind it.
#[tactic(auto, using(crate::proofs::Steps::part_stopped, crate::proofs::Steps::part_read), unfolding(crate::specs::Props::label))]
fn label(alloc: Global, tokens: &[Lexeme]) -> Result<(Label, &[Lexeme]), Stop>
    ensures ok { IfOk result (λ r. label tokens.now ≡ got r.0 r.1.now) }
    ensures err { IfErr result (λ e. IsStop e (label tokens.now)) }
{
    match label_parts(alloc, tokens) {
        Ok(found) => Ok(found),
        Err(stop) => Err(stop_at(stop, tokens)),
    }
}

/// Whether a label stands ahead: `[`, or a name and behind it `:` or `[`.
#[tactic(auto, unfolding(crate::specs::Props::begins_label))]
pub(crate) fn begins_label(tokens: &[Lexeme]) -> bool
    ensures { result ≡ begins_label tokens.now }
{
    begins(tokens, Sort::Only(Class::Left))
        || (begins(tokens, Sort::Name)
            && (begins(behind(tokens), Sort::Only(Class::Colon))
                || begins(behind(tokens), Sort::Only(Class::Left))))
}

/// A label, or none, and the tokens behind it. Fails with `Syntax` where one stands ahead and isn't whole, with `Deep` where
/// it has more than 400 levels, at its first token, and with `Memory` where memory runs out.
#[tactic(auto, using(crate::proofs::Steps::stopped, crate::proofs::Steps::went_on), unfolding(crate::specs::Props::opt_label, crate::specs::Found::then_))]
pub fn opt_label(alloc: Global, tokens: &[Lexeme]) -> Result<(Option<Label>, &[Lexeme]), Stop>
    ensures ok { IfOk result (λ r. opt_label tokens.now ≡ got r.0 r.1.now) }
    ensures err { IfErr result (λ e. IsStop e (opt_label tokens.now)) }
{
    if !begins_label(tokens) {
        return Ok((None, tokens));
    }
    let (label, rest) = label(alloc, tokens)?;
    Ok((Some(label), rest))
}

/// Patterns in `(is ..)`, or none, and the tokens behind them.
#[tactic(auto, using(crate::proofs::Steps::stopped, crate::proofs::Steps::went_on), unfolding(crate::specs::Props::patterns, crate::specs::Found::then_))]
fn patterns(alloc: Global, tokens: &[Lexeme]) -> Result<(Items<Token>, &[Lexeme]), Stop>
    ensures ok { IfOk result (λ r. patterns tokens.now ≡ got r.0 r.1.now) }
    ensures err { IfErr result (λ e. IsStop e (patterns tokens.now)) }
{
    match skip(tokens, Sort::Only(Class::Open)) {
        None => Ok((Items::new(alloc), tokens)),
        Some(rest) => {
            let (_is, rest) = one(rest, Sort::Only(Class::Is))?;
            let (found, rest) = some_of(alloc, Sort::Term, rest)?;
            let (_close, rest) = one(rest, Sort::Only(Class::Close))?;
            Ok((found, rest))
        }
    }
}

/// A proposition, and the tokens behind it. Fails with `Syntax` where none goes on, and with `Memory` where memory runs out.
#[tactic(auto, using(crate::proofs::Steps::stopped, crate::proofs::Steps::went_on), unfolding(crate::specs::Props::prop, crate::specs::Found::then_))]
pub fn prop(alloc: Global, tokens: &[Lexeme]) -> Result<(Prop, &[Lexeme]), Stop>
    ensures ok { IfOk result (λ r. prop tokens.now ≡ got r.0 r.1.now) }
    ensures err { IfErr result (λ e. IsStop e (prop tokens.now)) }
{
    let (term, rest) = text_of(tokens, Sort::Term)?;
    let (patterns, rest) = patterns(alloc, rest)?;
    Ok((Prop { term, patterns }, rest))
}

/// A proposition that may have a label, and the tokens behind it. Fails with `Syntax` where none goes on, with `Deep` where
/// the label has more than 400 levels, at its first token, and with `Memory` where memory runs out.
#[tactic(auto, using(crate::proofs::Steps::stopped, crate::proofs::Steps::went_on), unfolding(crate::specs::Props::claim, crate::specs::Found::then_))]
pub fn claim(alloc: Global, tokens: &[Lexeme]) -> Result<(Claim, &[Lexeme]), Stop>
    ensures ok { IfOk result (λ r. claim tokens.now ≡ got r.0 r.1.now) }
    ensures err { IfErr result (λ e. IsStop e (claim tokens.now)) }
{
    let (label, rest) = opt_label(alloc, tokens)?;
    let (prop, rest) = prop(alloc, rest)?;
    Ok((Claim { label, prop }, rest))
}

/// Further propositions behind those that are there.
#[tactic(auto, using(crate::proofs::Steps::many_next, crate::proofs::Steps::many_stop, crate::proofs::Steps::many_end, crate::proofs::Steps::many_stopped), unfolding(crate::specs::Props::more_props))]
fn more_props<'a>(
    alloc: Global,
    tokens: &'a [Lexeme],
    props: &mut Items<Prop>,
) -> Result<&'a [Lexeme], Stop>
    ensures ok { IfOk result (λ r. more_props props.old tokens.now ≡ got props.new r.now) }
    ensures err { IfErr result (λ e. IsStop e (more_props props.old tokens.now)) }
{
    let mut rest = tokens;
    for _step in tokens {
        if !begins(rest, Sort::Term) {
            break;
        }
        let (next, after) = prop(alloc, rest)?;
        props.push(next)?;
        rest = after;
    }
    Ok(rest)
}

/// Propositions under one label, and the tokens behind them.
#[tactic(auto, using(crate::proofs::Steps::stopped, crate::proofs::Steps::went_on), unfolding(crate::specs::Props::group, crate::specs::Found::then_))]
fn group(alloc: Global, tokens: &[Lexeme]) -> Result<(Group, &[Lexeme]), Stop>
    ensures ok { IfOk result (λ r. group tokens.now ≡ got r.0 r.1.now) }
    ensures err { IfErr result (λ e. IsStop e (group tokens.now)) }
{
    let (label, rest) = opt_label(alloc, tokens)?;
    let mut props = Items::new(alloc);
    let (first, rest) = prop(alloc, rest)?;
    props.push(first)?;
    let rest = more_props(alloc, rest, &mut props)?;
    Ok((Group { label, props }, rest))
}

/// Further groups behind those that are there.
#[tactic(auto, using(crate::proofs::Steps::many_next, crate::proofs::Steps::many_stop, crate::proofs::Steps::many_end, crate::proofs::Steps::many_stopped), unfolding(crate::specs::Props::more_groups))]
fn more_groups<'a>(
    alloc: Global,
    tokens: &'a [Lexeme],
    groups: &mut Items<Group>,
) -> Result<&'a [Lexeme], Stop>
    ensures ok { IfOk result (λ r. more_groups groups.old tokens.now ≡ got groups.new r.now) }
    ensures err { IfErr result (λ e. IsStop e (more_groups groups.old tokens.now)) }
{
    let mut rest = tokens;
    for _step in tokens {
        if !begins(rest, Sort::Only(Class::And)) {
            break;
        }
        let (next, after) = group(alloc, behind(rest))?;
        groups.push(next)?;
        rest = after;
    }
    Ok(rest)
}

/// Groups of propositions, one at least, and the tokens behind them. Fails with `Syntax` where none goes on, with `Deep` at
/// the first token of the first label with more than 400 levels, and with `Memory` where memory runs out.
#[tactic(auto, using(crate::proofs::Steps::stopped, crate::proofs::Steps::went_on), unfolding(crate::specs::Props::props, crate::specs::Found::then_))]
pub fn props(alloc: Global, tokens: &[Lexeme]) -> Result<(Items<Group>, &[Lexeme]), Stop>
    ensures ok { IfOk result (λ r. props tokens.now ≡ got r.0 r.1.now) }
    ensures err { IfErr result (λ e. IsStop e (props tokens.now)) }
{
    let mut found = Items::new(alloc);
    let (first, rest) = group(alloc, tokens)?;
    found.push(first)?;
    let rest = more_groups(alloc, rest, &mut found)?;
    Ok((found, rest))
}

/// A type behind `::`, or none, and the tokens behind it. Fails with `Syntax` where no type follows `::`, and with `Memory`
/// where memory runs out.
#[tactic(auto, using(crate::proofs::Steps::stopped, crate::proofs::Steps::went_on), unfolding(crate::specs::Props::of_type, crate::specs::Found::then_))]
pub fn of_type(tokens: &[Lexeme]) -> Result<(Option<Token>, &[Lexeme]), Stop>
    ensures ok { IfOk result (λ r. of_type tokens.now ≡ got r.0 r.1.now) }
    ensures err { IfErr result (λ e. IsStop e (of_type tokens.now)) }
{
    match skip(tokens, Sort::Only(Class::Colons)) {
        None => Ok((None, tokens)),
        Some(rest) => {
            let (typ, rest) = text_of(rest, Sort::Type)?;
            Ok((Some(typ), rest))
        }
    }
}

/// Names of one type, and the tokens behind them.
#[tactic(auto, using(crate::proofs::Steps::stopped, crate::proofs::Steps::went_on), unfolding(crate::specs::Props::var_group, crate::specs::Found::then_))]
fn var_group(alloc: Global, tokens: &[Lexeme]) -> Result<(VarGroup, &[Lexeme]), Stop>
    ensures ok { IfOk result (λ r. var_group tokens.now ≡ got r.0 r.1.now) }
    ensures err { IfErr result (λ e. IsStop e (var_group tokens.now)) }
{
    let (names, rest) = some_of(alloc, Sort::Identifier, tokens)?;
    let (typ, rest) = of_type(rest)?;
    Ok((VarGroup { names, typ }, rest))
}

/// Further names behind those that are there.
#[tactic(auto, using(crate::proofs::Steps::many_next, crate::proofs::Steps::many_stop, crate::proofs::Steps::many_end, crate::proofs::Steps::many_stopped), unfolding(crate::specs::Props::more_vars))]
fn more_vars<'a>(
    alloc: Global,
    tokens: &'a [Lexeme],
    groups: &mut Items<VarGroup>,
) -> Result<&'a [Lexeme], Stop>
    ensures ok { IfOk result (λ r. more_vars groups.old tokens.now ≡ got groups.new r.now) }
    ensures err { IfErr result (λ e. IsStop e (more_vars groups.old tokens.now)) }
{
    let mut rest = tokens;
    for _step in tokens {
        if !begins(rest, Sort::Only(Class::And)) {
            break;
        }
        let (next, after) = var_group(alloc, behind(rest))?;
        groups.push(next)?;
        rest = after;
    }
    Ok(rest)
}

/// Names with their types, and the tokens behind them. Fails with `Syntax` where none go on, and with `Memory` where
/// memory runs out.
#[tactic(auto, using(crate::proofs::Steps::stopped, crate::proofs::Steps::went_on), unfolding(crate::specs::Props::vars, crate::specs::Found::then_))]
pub fn vars(alloc: Global, tokens: &[Lexeme]) -> Result<(Items<VarGroup>, &[Lexeme]), Stop>
    ensures ok { IfOk result (λ r. vars tokens.now ≡ got r.0 r.1.now) }
    ensures err { IfErr result (λ e. IsStop e (vars tokens.now)) }
{
    let mut found = Items::new(alloc);
    let (first, rest) = var_group(alloc, tokens)?;
    found.push(first)?;
    let rest = more_vars(alloc, rest, &mut found)?;
    Ok((found, rest))
}

/// Names behind `for`, or none, and the tokens behind them. Fails as [`vars`] does behind `for`.
#[tactic(auto, using(crate::proofs::Steps::stopped, crate::proofs::Steps::went_on), unfolding(crate::specs::Props::opt_for, crate::specs::Found::then_))]
pub fn opt_for(alloc: Global, tokens: &[Lexeme]) -> Result<(Items<VarGroup>, &[Lexeme]), Stop>
    ensures ok { IfOk result (λ r. opt_for tokens.now ≡ got r.0 r.1.now) }
    ensures err { IfErr result (λ e. IsStop e (opt_for tokens.now)) }
{
    match skip(tokens, Sort::Only(Class::For)) {
        None => Ok((Items::new(alloc), tokens)),
        Some(rest) => vars(alloc, rest),
    }
}

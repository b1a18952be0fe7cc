//! Declarations of constants, axioms and types.
ghost use Rattle.std.specs.Prelude.{◌≡◌, [], ◌∷◌, IfOk, IfErr};
ghost use Rattle.iv_facts.specs.Found.{got, IsStop};
ghost use Rattle.iv_readpart.specs.Declarations.{some_nat, infix_parts, binder_parts, priorities, fixity, fix, constant, more_consts, and_consts, axiom_consts, tvar, more_tvars, tvars, judgment_form, equation, more_equations};

use iv_facts::Stop;
use iv_facts::tokens::{begins, behind, one, skip};
use iv_forms::{Constant, Equation, Fixity, Items, Lexeme};
use iv_lex::Token;
use iv_recogniser::{Class, Sort};
use std::alloc::Global;

/// A number, or none.
#[tactic(auto, using(iv_facts::proofs::Steps::stopped, iv_facts::proofs::Steps::went_on), unfolding(crate::specs::Declarations::some_nat, iv_facts::specs::Found::then_))]
pub fn some_nat(tokens: &[Lexeme]) -> Result<(Option<u32>, &[Lexeme]), Stop>
    ensures ok { IfOk result (λ r. some_nat tokens.now ≡ got r.0 r.1.now) }
    ensures err { IfErr result (λ e. IsStop e (some_nat tokens.now)) }
{
    if !begins(tokens, Sort::Numeral) {
        return Ok((None, tokens));
    }
    let (number, tokens) = one(tokens, Sort::Numeral)?;
    Ok((Some(number.number), tokens))
}

/// A symbol and the priority of an infix form.
#[tactic(auto, using(iv_facts::proofs::Steps::stopped, iv_facts::proofs::Steps::went_on), unfolding(crate::specs::Declarations::infix_parts, iv_facts::specs::Found::then_))]
fn infix_parts(tokens: &[Lexeme]) -> Result<((Token, u32), &[Lexeme]), Stop>
    ensures ok { IfOk result (λ r. infix_parts tokens.now ≡ got r.0 r.1.now) }
    ensures err { IfErr result (λ e. IsStop e (infix_parts tokens.now)) }
{
    let (symbol, tokens) = one(tokens, Sort::Only(Class::Plain))?;
    let (priority, tokens) = one(tokens, Sort::Only(Class::Low))?;
    Ok(((symbol.token.copy()?, priority.number), tokens))
}

/// A symbol and the priority of a binder.
#[tactic(auto, using(iv_facts::proofs::Steps::stopped, iv_facts::proofs::Steps::went_on), unfolding(crate::specs::Declarations::binder_parts, iv_facts::specs::Found::then_))]
fn binder_parts(tokens: &[Lexeme]) -> Result<((Token, u32), &[Lexeme]), Stop>
    ensures ok { IfOk result (λ r. binder_parts tokens.now ≡ got r.0 r.1.now) }
    ensures err { IfErr result (λ e. IsStop e (binder_parts tokens.now)) }
{
    let (symbol, tokens) = one(tokens, Sort::Binding)?;
    let (priority, tokens) = one(tokens, Sort::Priority)?;
    Ok(((symbol.token.copy()?, priority.number), tokens))
}

/// The priorities behind a prefix symbol: of its place, and its own.
#[tactic(auto, using(iv_facts::proofs::Steps::stopped, iv_facts::proofs::Steps::went_on), unfolding(crate::specs::Declarations::priorities, iv_facts::specs::Found::then_))]
fn priorities(tokens: &[Lexeme]) -> Result<((u32, u32), &[Lexeme]), Stop>
    ensures ok { IfOk result (λ r. priorities tokens.now ≡ got r.0 r.1.now) }
    ensures err { IfErr result (λ e. IsStop e (priorities tokens.now)) }
{
    let (_left, tokens) = one(tokens, Sort::Only(Class::Left))?;
    let (place, tokens) = one(tokens, Sort::Priority)?;
    let (_right, tokens) = one(tokens, Sort::Only(Class::Right))?;
    let (own, tokens) = one(tokens, Sort::Priority)?;
    Ok(((place.number, own.number), tokens))
}

/// How a constant is written, inside the parentheses.
#[tactic(auto, using(iv_facts::proofs::Steps::stopped, iv_facts::proofs::Steps::went_on), unfolding(crate::specs::Declarations::fixity, iv_facts::specs::Found::then_))]
fn fixity(tokens: &[Lexeme]) -> Result<(Fixity, &[Lexeme]), Stop>
    ensures ok { IfOk result (λ r. fixity tokens.now ≡ got r.0 r.1.now) }
    ensures err { IfErr result (λ e. IsStop e (fixity tokens.now)) }
{
    if begins(tokens, Sort::Only(Class::Plain)) {
        let (symbol, tokens) = one(tokens, Sort::Only(Class::Plain))?;
        return Ok((Fixity::Plain(symbol.token.copy()?), tokens));
    }
    if begins(tokens, Sort::Only(Class::Infix)) {
        let ((symbol, priority), tokens) = infix_parts(behind(tokens))?;
        return Ok((Fixity::Infix(symbol, priority), tokens));
    }
    if begins(tokens, Sort::Only(Class::Infixl)) {
        let ((symbol, priority), tokens) = infix_parts(behind(tokens))?;
        return Ok((Fixity::Infixl(symbol, priority), tokens));
    }
    if begins(tokens, Sort::Only(Class::Infixr)) {
        let ((symbol, priority), tokens) = infix_parts(behind(tokens))?;
        return Ok((Fixity::Infixr(symbol, priority), tokens));
    }
    if begins(tokens, Sort::Only(Class::Binder)) {
        let ((symbol, priority), tokens) = binder_parts(behind(tokens))?;
        return Ok((Fixity::Binder(symbol, priority), tokens));
    }
    let (symbol, tokens) = one(tokens, Sort::Only(Class::Prefix))?;
    let ((place, own), tokens) = priorities(tokens)?;
    Ok((Fixity::Prefix(symbol.token.copy()?, place, own), tokens))
}

/// How a constant is written, or nothing.
#[tactic(auto, using(iv_facts::proofs::Steps::stopped, iv_facts::proofs::Steps::went_on), unfolding(crate::specs::Declarations::fix, iv_facts::specs::Found::then_))]
fn fix(tokens: &[Lexeme]) -> Result<(Fixity, &[Lexeme]), Stop>
    ensures ok { IfOk result (λ r. fix tokens.now ≡ got r.0 r.1.now) }
    ensures err { IfErr result (λ e. IsStop e (fix tokens.now)) }
{
    match skip(tokens, Sort::Only(Class::Open)) {
        None => Ok((Fixity::None, tokens)),
        Some(tokens) => {
            let (fixity, tokens) = fixity(tokens)?;
            let (_close, tokens) = one(tokens, Sort::Only(Class::Close))?;
            Ok((fixity, tokens))
        }
    }
}

/// A constant with its type.
#[tactic(auto, using(iv_facts::proofs::Steps::stopped, iv_facts::proofs::Steps::went_on), unfolding(crate::specs::Declarations::constant, iv_facts::specs::Found::then_))]
pub fn constant(tokens: &[Lexeme]) -> Result<(Constant, &[Lexeme]), Stop>
    ensures ok { IfOk result (λ r. constant tokens.now ≡ got r.0 r.1.now) }
    ensures err { IfErr result (λ e. IsStop e (constant tokens.now)) }
{
    let (name, tokens) = one(tokens, Sort::Identifier)?;
    let (_colons, tokens) = one(tokens, Sort::Only(Class::Colons))?;
    let (typ, tokens) = one(tokens, Sort::Type)?;
    let (fixity, tokens) = fix(tokens)?;
    let constant = Constant {
        name: name.token.copy()?,
        typ: typ.token.copy()?,
        fixity,
    };
    Ok((constant, tokens))
}

/// Further constants behind those that are there.
#[tactic(auto, using(iv_facts::proofs::Steps::many_next, iv_facts::proofs::Steps::many_stop, iv_facts::proofs::Steps::many_end, iv_facts::proofs::Steps::many_stopped), unfolding(crate::specs::Declarations::more_consts))]
pub fn more_consts<'a>(
    tokens: &'a [Lexeme],
    found: &mut Items<Constant>,
) -> Result<&'a [Lexeme], Stop>
    ensures ok { IfOk result (λ r. more_consts found.old tokens.now ≡ got found.new r.now) }
    ensures err { IfErr result (λ e. IsStop e (more_consts found.old tokens.now)) }
{
    let mut rest = tokens;
    for _step in tokens {
        if !begins(rest, Sort::Identifier) {
            break;
        }
        let (next, after) = constant(rest)?;
        found.push(next)?;
        rest = after;
    }
    Ok(rest)
}

/// Further constants, each behind `and`.
#[tactic(auto, using(iv_facts::proofs::Steps::many_next, iv_facts::proofs::Steps::many_stop, iv_facts::proofs::Steps::many_end, iv_facts::proofs::Steps::many_stopped), unfolding(crate::specs::Declarations::and_consts))]
fn and_consts<'a>(tokens: &'a [Lexeme], found: &mut Items<Constant>) -> Result<&'a [Lexeme], Stop>
    ensures ok { IfOk result (λ r. and_consts found.old tokens.now ≡ got found.new r.now) }
    ensures err { IfErr result (λ e. IsStop e (and_consts found.old tokens.now)) }
{
    let mut rest = tokens;
    for _step in tokens {
        if !begins(rest, Sort::Only(Class::And)) {
            break;
        }
        let (next, after) = constant(behind(rest))?;
        found.push(next)?;
        rest = after;
    }
    Ok(rest)
}

/// The constants of `axiomatization`, or none.
#[tactic(auto, using(iv_facts::proofs::Steps::stopped, iv_facts::proofs::Steps::went_on), unfolding(crate::specs::Declarations::axiom_consts, iv_facts::specs::Found::then_))]
pub fn axiom_consts(alloc: Global, tokens: &[Lexeme]) -> Result<(Items<Constant>, &[Lexeme]), Stop>
    ensures ok { IfOk result (λ r. axiom_consts tokens.now ≡ got r.0 r.1.now) }
    ensures err { IfErr result (λ e. IsStop e (axiom_consts tokens.now)) }
{
    let mut found = Items::new(alloc);
    if !begins(tokens, Sort::Identifier) {
        return Ok((found, tokens));
    }
    let (first, tokens) = constant(tokens)?;
    found.push(first)?;
    let tokens = and_consts(tokens, &mut found)?;
    Ok((found, tokens))
}

/// A type variable.
#[tactic(auto, using(iv_facts::proofs::Steps::stopped, iv_facts::proofs::Steps::went_on), unfolding(crate::specs::Declarations::tvar, iv_facts::specs::Found::then_))]
fn tvar(tokens: &[Lexeme]) -> Result<(Token, &[Lexeme]), Stop>
    ensures ok { IfOk result (λ r. tvar tokens.now ≡ got r.0 r.1.now) }
    ensures err { IfErr result (λ e. IsStop e (tvar tokens.now)) }
{
    let (variable, tokens) = one(tokens, Sort::Only(Class::Tvar))?;
    Ok((variable.token.copy()?, tokens))
}

/// Further type variables, each behind a comma.
#[tactic(auto, using(iv_facts::proofs::Steps::many_next, iv_facts::proofs::Steps::many_stop, iv_facts::proofs::Steps::many_end, iv_facts::proofs::Steps::many_stopped), unfolding(crate::specs::Declarations::more_tvars))]
fn more_tvars<'a>(tokens: &'a [Lexeme], found: &mut Items<Token>) -> Result<&'a [Lexeme], Stop>
    ensures ok { IfOk result (λ r. more_tvars found.old tokens.now ≡ got found.new r.now) }
    ensures err { IfErr result (λ e. IsStop e (more_tvars found.old tokens.now)) }
{
    let mut rest = tokens;
    for _step in tokens {
        if !begins(rest, Sort::Only(Class::Comma)) {
            break;
        }
        let (next, after) = tvar(behind(rest))?;
        found.push(next)?;
        rest = after;
    }
    Ok(rest)
}

/// The parameters of a type: none, one, or some in parentheses.
#[tactic(auto, using(iv_facts::proofs::Steps::stopped, iv_facts::proofs::Steps::went_on), unfolding(crate::specs::Declarations::tvars, iv_facts::specs::Found::then_))]
pub fn tvars(alloc: Global, tokens: &[Lexeme]) -> Result<(Items<Token>, &[Lexeme]), Stop>
    ensures ok { IfOk result (λ r. tvars tokens.now ≡ got r.0 r.1.now) }
    ensures err { IfErr result (λ e. IsStop e (tvars tokens.now)) }
{
    let mut found = Items::new(alloc);
    if begins(tokens, Sort::Only(Class::Tvar)) {
        let (only, tokens) = tvar(tokens)?;
        found.push(only)?;
        return Ok((found, tokens));
    }
    match skip(tokens, Sort::Only(Class::Open)) {
        None => Ok((found, tokens)),
        Some(tokens) => {
            let (first, tokens) = tvar(tokens)?;
            found.push(first)?;
            let tokens = more_tvars(tokens, &mut found)?;
            let (_close, tokens) = one(tokens, Sort::Only(Class::Close))?;
            Ok((found, tokens))
        }
    }
}

/// The form of a judgment, which has no effect, or none.
#[tactic(auto, using(iv_facts::proofs::Steps::stopped, iv_facts::proofs::Steps::went_on), unfolding(crate::specs::Declarations::judgment_form, iv_facts::specs::Found::then_))]
pub fn judgment_form(tokens: &[Lexeme]) -> Result<&[Lexeme], Stop>
    ensures ok { IfOk result (λ r. judgment_form tokens.now ≡ got tt r.now) }
    ensures err { IfErr result (λ e. IsStop e (judgment_form tokens.now)) }
{
    match skip(tokens, Sort::Only(Class::Open)) {
        None => Ok(tokens),
        Some(tokens) => {
            let (_form, tokens) = one(tokens, Sort::Only(Class::Judging))?;
            let (_priority, tokens) = one(tokens, Sort::Priority)?;
            let (_close, tokens) = one(tokens, Sort::Only(Class::Close))?;
            Ok(tokens)
        }
    }
}

/// A pattern and what it is matched with.
#[tactic(auto, using(iv_facts::proofs::Steps::stopped, iv_facts::proofs::Steps::went_on), unfolding(crate::specs::Declarations::equation, iv_facts::specs::Found::then_))]
pub fn equation(tokens: &[Lexeme]) -> Result<(Equation, &[Lexeme]), Stop>
    ensures ok { IfOk result (λ r. equation tokens.now ≡ got r.0 r.1.now) }
    ensures err { IfErr result (λ e. IsStop e (equation tokens.now)) }
{
    let (pattern, tokens) = one(tokens, Sort::Term)?;
    let (_equal, tokens) = one(tokens, Sort::Only(Class::Equal))?;
    let (term, tokens) = one(tokens, Sort::Term)?;
    let equation = Equation {
        pattern: pattern.token.copy()?,
        term: term.token.copy()?,
    };
    Ok((equation, tokens))
}

/// Further equations, each behind `and`.
#[tactic(auto, using(iv_facts::proofs::Steps::many_next, iv_facts::proofs::Steps::many_stop, iv_facts::proofs::Steps::many_end, iv_facts::proofs::Steps::many_stopped), unfolding(crate::specs::Declarations::more_equations))]
pub fn more_equations<'a>(
    tokens: &'a [Lexeme],
    found: &mut Items<Equation>,
) -> Result<&'a [Lexeme], Stop>
    ensures ok { IfOk result (λ r. more_equations found.old tokens.now ≡ got found.new r.now) }
    ensures err { IfErr result (λ e. IsStop e (more_equations found.old tokens.now)) }
{
    let mut rest = tokens;
    for _step in tokens {
        if !begins(rest, Sort::Only(Class::And)) {
            break;
        }
        let (next, after) = equation(behind(rest))?;
        found.push(next)?;
        rest = after;
    }
    Ok(rest)
}

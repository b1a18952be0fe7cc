//! Selections, attributes and facts.
ghost use Rattle.std.specs.Prelude.{◌≡◌, ◌&&◌, [], ◌∷◌, IfOk, IfErr};
ghost use Rattle.iv_recogniser.specs.declared.class.Class.TheVariants as class;
ghost use Rattle.iv_recogniser.specs.declared.class.Sort.TheVariants as sort;
ghost use Rattle.iv_facts.specs.Found.{got, IsStop, begins, behind, many};
ghost use Rattle.iv_facts.specs.Facts.{sel, more_sels, sels, mark, term_place, goes_term_place, term_places, where_, more_wheres, wheres, named_att, place_with, goes_place, places_with, att_with, more_atts_with, atts_with, inside, opt_atts, fact, a_fact, goes_fact, next_fact, more_facts, facts};

use crate::stop::Stop;
use crate::tokens::{begins, behind, one, place, skip, stop_at};
use iv_forms::{Att, Fact, Items, Lexeme, Mark, Place, Sel, TermPlace, Where};
use iv_recogniser::{Class, Sort};
use iv_shared::Shared;
use std::alloc::Global;

/// How many levels a fact, a label or a method may have.
pub const LIMIT: u32 = 400;

/// A selection, and the tokens behind it.
#[tactic(auto, using(crate::proofs::Steps::stopped, crate::proofs::Steps::went_on), unfolding(crate::specs::Facts::sel, crate::specs::Found::then_))]
fn sel(tokens: &[Lexeme]) -> Result<(Sel, &[Lexeme]), Stop>
    ensures ok { IfOk result (λ r. sel tokens.now ≡ got r.0 r.1.now) }
    ensures err { IfErr result (λ e. IsStop e (sel tokens.now)) }
{
    let (from, tokens) = one(tokens, Sort::Numeral)?;
    match skip(tokens, Sort::Only(Class::Minus)) {
        None => Ok((Sel::One(from.number), tokens)),
        Some(tokens) => {
            let (to, tokens) = one(tokens, Sort::Numeral)?;
            Ok((Sel::Range(from.number, to.number), tokens))
        }
    }
}

/// Further selections behind those that are there.
#[tactic(auto, using(crate::proofs::Steps::many_next, crate::proofs::Steps::many_stop, crate::proofs::Steps::many_end, crate::proofs::Steps::many_stopped), unfolding(crate::specs::Facts::more_sels))]
fn more_sels<'a>(tokens: &'a [Lexeme], sels: &mut Items<Sel>) -> Result<&'a [Lexeme], Stop>
    ensures ok { IfOk result (λ r. more_sels sels.old tokens.now ≡ got sels.new r.now) }
    ensures err { IfErr result (λ e. IsStop e (more_sels sels.old tokens.now)) }
{
    let mut rest = tokens;
    for _step in tokens {
        if !begins(rest, Sort::Only(Class::Comma)) {
            break;
        }
        let (next, after) = sel(behind(rest))?;
        sels.push(next)?;
        rest = after;
    }
    Ok(rest)
}

/// Selections in parentheses, or none.
#[tactic(auto, using(crate::proofs::Steps::stopped, crate::proofs::Steps::went_on), unfolding(crate::specs::Facts::sels, crate::specs::Found::then_))]
pub(crate) fn sels(alloc: Global, tokens: &[Lexeme]) -> Result<(Items<Sel>, &[Lexeme]), Stop>
    ensures ok { IfOk result (λ r. sels tokens.now ≡ got r.0 r.1.now) }
    ensures err { IfErr result (λ e. IsStop e (sels tokens.now)) }
{
    let mut found = Items::new(alloc);
    match skip(tokens, Sort::Only(Class::Open)) {
        None => Ok((found, tokens)),
        Some(tokens) => {
            let (first, tokens) = sel(tokens)?;
            found.push(first)?;
            let tokens = more_sels(tokens, &mut found)?;
            let (_close, tokens) = one(tokens, Sort::Only(Class::Close))?;
            Ok((found, tokens))
        }
    }
}

/// What stands behind the name of an attribute.
#[tactic(auto, unfolding(crate::specs::Facts::mark))]
fn mark(tokens: &[Lexeme]) -> (Mark, &[Lexeme])
    ensures { mark tokens.now ≡ got result.0 result.1.now }
{
    if begins(tokens, Sort::Only(Class::Exclamation)) {
        return (Mark::Strong, behind(tokens));
    }
    if begins(tokens, Sort::Only(Class::Question)) {
        return (Mark::Weak, behind(tokens));
    }
    (Mark::None, tokens)
}

/// Whether places of `of` go on.
#[tactic(auto, unfolding(crate::specs::Facts::goes_term_place))]
fn goes_term_place(tokens: &[Lexeme]) -> bool
    ensures { result ≡ goes_term_place tokens.now }
{
    begins(tokens, Sort::Only(Class::Dummy)) || begins(tokens, Sort::Term)
}

/// A place of `of`, and the tokens behind it.
#[tactic(auto, using(crate::proofs::Steps::stopped, crate::proofs::Steps::went_on), unfolding(crate::specs::Facts::term_place, crate::specs::Found::then_))]
fn term_place(tokens: &[Lexeme]) -> Result<(TermPlace, &[Lexeme]), Stop>
    ensures ok { IfOk result (λ r. term_place tokens.now ≡ got r.0 r.1.now) }
    ensures err { IfErr result (λ e. IsStop e (term_place tokens.now)) }
{
    match skip(tokens, Sort::Only(Class::Dummy)) {
        Some(rest) => Ok((TermPlace::Hole, rest)),
        None => {
            let (term, rest) = one(tokens, Sort::Term)?;
            Ok((TermPlace::Term(term.token.copy()?), rest))
        }
    }
}

/// The places of `of`, and the tokens behind them.
#[tactic(auto, using(crate::proofs::Steps::many_next, crate::proofs::Steps::many_stop, crate::proofs::Steps::many_end, crate::proofs::Steps::many_stopped), unfolding(crate::specs::Facts::term_places))]
fn term_places(alloc: Global, tokens: &[Lexeme]) -> Result<(Items<TermPlace>, &[Lexeme]), Stop>
    ensures ok { IfOk result (λ r. term_places tokens.now ≡ got r.0 r.1.now) }
    ensures err { IfErr result (λ e. IsStop e (term_places tokens.now)) }
{
    let mut found = Items::new(alloc);
    let mut rest = tokens;
    for _step in tokens {
        if !goes_term_place(rest) {
            break;
        }
        let (next, after) = term_place(rest)?;
        found.push(next)?;
        rest = after;
    }
    Ok((found, rest))
}

/// An equation of `where`, and the tokens behind it.
#[tactic(auto, using(crate::proofs::Steps::stopped, crate::proofs::Steps::went_on), unfolding(crate::specs::Facts::where_, crate::specs::Found::then_))]
fn where_(tokens: &[Lexeme]) -> Result<(Where, &[Lexeme]), Stop>
    ensures ok { IfOk result (λ r. where_ tokens.now ≡ got r.0 r.1.now) }
    ensures err { IfErr result (λ e. IsStop e (where_ tokens.now)) }
{
    let (name, rest) = one(tokens, Sort::Identifier)?;
    let (_equal, rest) = one(rest, Sort::Only(Class::Equal))?;
    let (term, rest) = one(rest, Sort::Term)?;
    let equation = Where {
        name: name.token.copy()?,
        term: term.token.copy()?,
    };
    Ok((equation, rest))
}

/// Further equations of `where` behind those that are there.
#[tactic(auto, using(crate::proofs::Steps::many_next, crate::proofs::Steps::many_stop, crate::proofs::Steps::many_end, crate::proofs::Steps::many_stopped), unfolding(crate::specs::Facts::more_wheres))]
fn more_wheres<'a>(tokens: &'a [Lexeme], wheres: &mut Items<Where>) -> Result<&'a [Lexeme], Stop>
    ensures ok { IfOk result (λ r. more_wheres wheres.old tokens.now ≡ got wheres.new r.now) }
    ensures err { IfErr result (λ e. IsStop e (more_wheres wheres.old tokens.now)) }
{
    let mut rest = tokens;
    for _step in tokens {
        if !begins(rest, Sort::Only(Class::And)) {
            break;
        }
        let (next, after) = where_(behind(rest))?;
        wheres.push(next)?;
        rest = after;
    }
    Ok(rest)
}

/// The equations of `where`, and the tokens behind them.
#[tactic(auto, using(crate::proofs::Steps::stopped, crate::proofs::Steps::went_on), unfolding(crate::specs::Facts::wheres, crate::specs::Found::then_))]
fn wheres(alloc: Global, tokens: &[Lexeme]) -> Result<(Items<Where>, &[Lexeme]), Stop>
    ensures ok { IfOk result (λ r. wheres tokens.now ≡ got r.0 r.1.now) }
    ensures err { IfErr result (λ e. IsStop e (wheres tokens.now)) }
{
    let mut found = Items::new(alloc);
    let (first, rest) = where_(tokens)?;
    found.push(first)?;
    let rest = more_wheres(rest, &mut found)?;
    Ok((found, rest))
}

/// An attribute that is a name, and the tokens behind it.
#[tactic(auto, using(crate::proofs::Steps::stopped, crate::proofs::Steps::went_on), unfolding(crate::specs::Facts::named_att, crate::specs::Found::then_))]
fn named_att(tokens: &[Lexeme]) -> Result<(Att, &[Lexeme]), Stop>
    ensures ok { IfOk result (λ r. named_att tokens.now ≡ got r.0 r.1.now) }
    ensures err { IfErr result (λ e. IsStop e (named_att tokens.now)) }
{
    let (name, rest) = one(tokens, Sort::Name)?;
    let (mark, rest) = mark(rest);
    Ok((Att::Name(name.token.copy()?, mark), rest))
}

/// Whether places of `OF` go on.
#[tactic(auto, unfolding(crate::specs::Facts::goes_place))]
fn goes_place(tokens: &[Lexeme]) -> bool
    ensures { result ≡ goes_place tokens.now }
{
    begins(tokens, Sort::Only(Class::Dummy)) || begins(tokens, Sort::Name)
}

/// Whether an attribute is `OF` with places.
fn goes_of_facts(tokens: &[Lexeme]) -> bool
    ensures { result ≡ (begins (sort.Only class.OfFacts) tokens.now && goes_place (behind tokens.now)) }
{
    begins(tokens, Sort::Only(Class::OfFacts)) && goes_place(behind(tokens))
}

/// Whether an attribute is `THEN` with a fact.
fn goes_then_fact(tokens: &[Lexeme]) -> bool
    ensures { result ≡ (begins (sort.Only class.ThenFact) tokens.now && begins sort.Name (behind tokens.now)) }
{
    begins(tokens, Sort::Only(Class::ThenFact)) && begins(behind(tokens), Sort::Name)
}

/// Whether an attribute is `of` with places.
fn goes_of_terms(tokens: &[Lexeme]) -> bool
    ensures { result ≡ (begins (sort.Only class.OfTerms) tokens.now && goes_term_place (behind tokens.now)) }
{
    begins(tokens, Sort::Only(Class::OfTerms)) && goes_term_place(behind(tokens))
}

/// A place of `OF`, and the tokens behind it.
#[cycle(fact)]
#[tactic(auto, using(crate::proofs::Steps::stopped, crate::proofs::Steps::went_on), unfolding(crate::specs::Facts::place_with, crate::specs::Found::then_))]
fn place_of_facts(alloc: Global, left: u32, tokens: &[Lexeme]) -> Result<(Place, &[Lexeme]), Stop>
    ensures ok { IfOk result (λ r. place_with (fact left) tokens.now ≡ got r.0 r.1.now) }
    ensures err { IfErr result (λ e. IsStop e (place_with (fact left) tokens.now)) }
{
    match skip(tokens, Sort::Only(Class::Dummy)) {
        Some(rest) => Ok((Place::Hole, rest)),
        None => {
            let (fact, rest) = fact(alloc, left, tokens)?;
            Ok((Place::Fact(Shared::new(alloc, fact)?), rest))
        }
    }
}

/// The places of `OF`, and the tokens behind them.
#[cycle(fact)]
#[tactic(auto, using(crate::proofs::Steps::many_next, crate::proofs::Steps::many_stop, crate::proofs::Steps::many_end, crate::proofs::Steps::many_stopped), unfolding(crate::specs::Facts::places_with))]
fn places_of_facts(
    alloc: Global,
    left: u32,
    tokens: &[Lexeme],
) -> Result<(Items<Place>, &[Lexeme]), Stop>
    ensures ok { IfOk result (λ r. places_with (fact left) tokens.now ≡ got r.0 r.1.now) }
    ensures err { IfErr result (λ e. IsStop e (places_with (fact left) tokens.now)) }
{
    let mut found = Items::new(alloc);
    let mut rest = tokens;
    for _step in tokens {
        if !goes_place(rest) {
            break;
        }
        let (next, after) = place_of_facts(alloc, left, rest)?;
        found.push(next)?;
        rest = after;
    }
    Ok((found, rest))
}

/// An attribute, and the tokens behind it.
#[cycle(fact)]
#[tactic(auto, using(crate::proofs::Steps::stopped, crate::proofs::Steps::went_on), unfolding(crate::specs::Facts::att_with, crate::specs::Found::then_))]
fn att(alloc: Global, left: u32, tokens: &[Lexeme]) -> Result<(Att, &[Lexeme]), Stop>
    ensures ok { IfOk result (λ r. att_with (fact left) tokens.now ≡ got r.0 r.1.now) }
    ensures err { IfErr result (λ e. IsStop e (att_with (fact left) tokens.now)) }
{
    if goes_of_facts(tokens) {
        let (places, rest) = places_of_facts(alloc, left, behind(tokens))?;
        return Ok((Att::OfFacts(places), rest));
    }
    if goes_then_fact(tokens) {
        let (fact, rest) = fact(alloc, left, behind(tokens))?;
        return Ok((Att::ThenFact(Shared::new(alloc, fact)?), rest));
    }
    if goes_of_terms(tokens) {
        let (places, rest) = term_places(alloc, behind(tokens))?;
        return Ok((Att::OfTerms(places), rest));
    }
    if begins(tokens, Sort::Only(Class::Where)) {
        let (equations, rest) = wheres(alloc, behind(tokens))?;
        return Ok((Att::Where(equations), rest));
    }
    named_att(tokens)
}

/// Further attributes behind those that are there.
#[cycle(fact)]
#[tactic(auto, using(crate::proofs::Steps::many_next, crate::proofs::Steps::many_stop, crate::proofs::Steps::many_end, crate::proofs::Steps::many_stopped), unfolding(crate::specs::Facts::more_atts_with))]
fn more_atts<'a>(
    alloc: Global,
    left: u32,
    tokens: &'a [Lexeme],
    atts: &mut Items<Att>,
) -> Result<&'a [Lexeme], Stop>
    ensures ok { IfOk result (λ r. more_atts_with (fact left) atts.old tokens.now ≡ got atts.new r.now) }
    ensures err { IfErr result (λ e. IsStop e (more_atts_with (fact left) atts.old tokens.now)) }
{
    let mut rest = tokens;
    for _step in tokens {
        if !begins(rest, Sort::Only(Class::Comma)) {
            break;
        }
        let (next, after) = att(alloc, left, behind(rest))?;
        atts.push(next)?;
        rest = after;
    }
    Ok(rest)
}

/// Attributes behind `[`, where so many levels are left for the facts in them, and the tokens behind `]`.
#[cycle(fact)]
#[tactic(auto, using(crate::proofs::Steps::stopped, crate::proofs::Steps::went_on), unfolding(crate::specs::Facts::atts_with, crate::specs::Found::then_))]
fn atts(alloc: Global, left: u32, tokens: &[Lexeme]) -> Result<(Items<Att>, &[Lexeme]), Stop>
    ensures ok { IfOk result (λ r. atts_with (fact left) tokens.now ≡ got r.0 r.1.now) }
    ensures err { IfErr result (λ e. IsStop e (atts_with (fact left) tokens.now)) }
{
    let mut found = Items::new(alloc);
    let (first, rest) = att(alloc, left, tokens)?;
    found.push(first)?;
    let rest = more_atts(alloc, left, rest, &mut found)?;
    let (_right, rest) = one(rest, Sort::Only(Class::Right))?;
    Ok((found, rest))
}

/// Attributes behind `[`, where so many levels are left, and the tokens behind `]`.
#[cycle(fact)]
#[tactic(auto, unfolding(crate::specs::Facts::inside))]
fn inside(alloc: Global, left: u32, tokens: &[Lexeme]) -> Result<(Items<Att>, &[Lexeme]), Stop>
    ensures ok { IfOk result (λ r. inside left tokens.now ≡ got r.0 r.1.now) }
    ensures err { IfErr result (λ e. IsStop e (inside left tokens.now)) }
{
    if left == 0 {
        return Err(Stop::Deep(place(tokens)));
    }
    atts(alloc, left - 1, tokens)
}

/// Attributes, or none, where so many levels are left, and the tokens behind them.
#[cycle(fact)]
#[tactic(auto, unfolding(crate::specs::Facts::opt_atts, crate::specs::Facts::opt_atts_with))]
pub(crate) fn opt_atts(
    alloc: Global,
    left: u32,
    tokens: &[Lexeme],
) -> Result<(Items<Att>, &[Lexeme]), Stop>
    ensures ok { IfOk result (λ r. opt_atts left tokens.now ≡ got r.0 r.1.now) }
    ensures err { IfErr result (λ e. IsStop e (opt_atts left tokens.now)) }
{
    match skip(tokens, Sort::Only(Class::Left)) {
        None => Ok((Items::new(alloc), tokens)),
        Some(rest) => inside(alloc, left, rest),
    }
}

/// A fact where so many levels are left, and the tokens behind it.
#[cycle(fact)]
#[tactic(auto, using(crate::proofs::Steps::stopped, crate::proofs::Steps::went_on), unfolding(crate::specs::Facts::fact, crate::specs::Facts::opt_atts, crate::specs::Facts::fact_with, crate::specs::Found::then_))]
fn fact(alloc: Global, left: u32, tokens: &[Lexeme]) -> Result<(Fact, &[Lexeme]), Stop>
    ensures ok { IfOk result (λ r. fact left tokens.now ≡ got r.0 r.1.now) }
    ensures err { IfErr result (λ e. IsStop e (fact left tokens.now)) }
{
    let (name, rest) = one(tokens, Sort::Name)?;
    let (sels, rest) = sels(alloc, rest)?;
    let (atts, rest) = opt_atts(alloc, left, rest)?;
    Ok((Fact::Fact(name.token.copy()?, sels, atts), rest))
}

/// A fact that stands in no attribute, and the tokens behind it. Fails with `Syntax` where no fact goes on, with `Deep`
/// where it has more than 400 levels, at its first token, and with `Memory` where memory runs out.
#[tactic(auto, using(crate::proofs::Steps::part_stopped, crate::proofs::Steps::part_read), unfolding(crate::specs::Facts::a_fact, crate::specs::FactLevels::limit))]
pub fn a_fact(alloc: Global, tokens: &[Lexeme]) -> Result<(Fact, &[Lexeme]), Stop>
    ensures ok { IfOk result (λ r. a_fact tokens.now ≡ got r.0 r.1.now) }
    ensures err { IfErr result (λ e. IsStop e (a_fact tokens.now)) }
{
    match fact(alloc, LIMIT, tokens) {
        Ok(found) => Ok(found),
        Err(stop) => Err(stop_at(stop, tokens)),
    }
}

/// Whether a list of facts goes on: by `and`, or by a name that isn't an identifier in front of `:`.
#[tactic(auto, unfolding(crate::specs::Facts::goes_fact))]
pub fn goes_fact(tokens: &[Lexeme]) -> bool
    ensures { result ≡ goes_fact tokens.now }
{
    begins(tokens, Sort::Only(Class::And))
        || (begins(tokens, Sort::Name)
            && !(begins(tokens, Sort::Identifier)
                && begins(behind(tokens), Sort::Only(Class::Colon))))
}

/// The next fact of a list, and the tokens behind it.
#[tactic(auto, unfolding(crate::specs::Facts::next_fact))]
fn next_fact(alloc: Global, tokens: &[Lexeme]) -> Result<(Fact, &[Lexeme]), Stop>
    ensures ok { IfOk result (λ r. next_fact tokens.now ≡ got r.0 r.1.now) }
    ensures err { IfErr result (λ e. IsStop e (next_fact tokens.now)) }
{
    match skip(tokens, Sort::Only(Class::And)) {
        Some(rest) => a_fact(alloc, rest),
        None => a_fact(alloc, tokens),
    }
}

/// Further facts behind those that are there.
#[tactic(auto, using(crate::proofs::Steps::many_next, crate::proofs::Steps::many_stop, crate::proofs::Steps::many_end, crate::proofs::Steps::many_stopped), unfolding(crate::specs::Facts::more_facts))]
pub(crate) fn more_facts<'a>(
    alloc: Global,
    tokens: &'a [Lexeme],
    facts: &mut Items<Fact>,
) -> Result<&'a [Lexeme], Stop>
    ensures ok { IfOk result (λ r. more_facts facts.old tokens.now ≡ got facts.new r.now) }
    ensures err { IfErr result (λ e. IsStop e (more_facts facts.old tokens.now)) }
{
    let mut rest = tokens;
    for _step in tokens {
        if !goes_fact(rest) {
            break;
        }
        let (next, after) = next_fact(alloc, rest)?;
        facts.push(next)?;
        rest = after;
    }
    Ok(rest)
}

/// Facts, one at least, and the tokens behind them. Fails as [`a_fact`] does at the first that can't be read, with `Deep`
/// at the first token of that fact.
#[tactic(auto, using(crate::proofs::Steps::stopped, crate::proofs::Steps::went_on), unfolding(crate::specs::Facts::facts, crate::specs::Found::then_))]
pub fn facts(alloc: Global, tokens: &[Lexeme]) -> Result<(Items<Fact>, &[Lexeme]), Stop>
    ensures ok { IfOk result (λ r. facts tokens.now ≡ got r.0 r.1.now) }
    ensures err { IfErr result (λ e. IsStop e (facts tokens.now)) }
{
    let mut found = Items::new(alloc);
    let (first, rest) = a_fact(alloc, tokens)?;
    found.push(first)?;
    let rest = more_facts(alloc, rest, &mut found)?;
    Ok((found, rest))
}

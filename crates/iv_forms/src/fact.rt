use iv_lex::Token;
use iv_list::Items;
use iv_shared::Shared;

/// A selection of theorems of a fact.
#[derive(Clone, Copy, Debug, PartialEq, Eq)]
pub enum Sel {
    /// The one at this place.
    One(u32),
    /// Those from one place to another.
    Range(u32, u32),
}

/// What stands behind the name of an attribute.
#[derive(Clone, Copy, Debug, PartialEq, Eq)]
pub enum Mark {
    /// Nothing.
    None,
    /// `!`
    Strong,
    /// `?`
    Weak,
}

/// An equation of the attribute `where`.
#[derive(Drop)]
pub struct Where {
    /// The variable.
    pub name: Token,
    /// Its term.
    pub term: Token,
}

/// A place of the attribute `of`.
#[derive(Drop)]
pub enum TermPlace {
    /// `_`
    Hole,
    /// A term.
    Term(Token),
}

/// A fact: a name, selections and attributes.
#[derive(Drop)]
#[cycle(fact)]
pub enum Fact {
    /// The name, the selections in order, and the attributes in order.
    Fact(Token, Items<Sel>, Items<Att>),
}

/// An attribute.
#[derive(Drop)]
#[cycle(fact)]
pub enum Att {
    /// `OF` with its places, one at least.
    OfFacts(Items<Place>),
    /// `THEN` with its fact.
    ThenFact(Shared<Fact>),
    /// `of` with its places.
    OfTerms(Items<TermPlace>),
    /// `where` with its equations.
    Where(Items<Where>),
    /// A name and what stands behind it.
    Name(Token, Mark),
}

/// A place of `OF`.
#[derive(Drop)]
#[cycle(fact)]
pub enum Place {
    /// `_`
    Hole,
    /// A fact.
    Fact(Shared<Fact>),
}

use crate::fact::Fact;
use crate::prop::VarGroup;
use iv_lex::Token;
use iv_list::Items;
use iv_shared::Shared;

/// A section of a call: its name and its facts.
#[derive(Drop)]
pub struct Section {
    /// The name.
    pub name: Token,
    /// The facts in order, one at least.
    pub facts: Items<Fact>,
}

/// What `match` looks at.
#[derive(Drop)]
pub enum Subject {
    /// The premises.
    Premises,
    /// The conclusion.
    Conclusion,
    /// A term.
    Term(Token),
    /// Facts.
    Facts(Items<Fact>),
}

/// How many bindings a pattern leaves.
#[derive(Clone, Copy, Debug, PartialEq, Eq)]
pub enum Cut {
    /// All.
    All,
    /// At most so many.
    AtMost(u32),
}

/// A pattern of a case.
#[derive(Drop)]
pub struct Pattern {
    /// The name for what it matches, where one is given.
    pub name: Option<Token>,
    /// The pattern.
    pub term: Token,
    /// How many bindings it leaves.
    pub cut: Cut,
}

/// A method.
#[derive(Drop)]
#[cycle(method)]
pub enum MethodText {
    /// A name without arguments.
    Name(Token),
    /// `-`
    Dash,
    /// A method in parentheses.
    Paren(Shared<MethodText>),
    /// `m?`
    Try(Shared<MethodText>),
    /// `m+`
    Repeat(Shared<MethodText>),
    /// `m[n]`
    First(Shared<MethodText>, u32),
    /// `m | n`
    Or(Shared<MethodText>, Shared<MethodText>),
    /// `m; n`
    On(Shared<MethodText>, Shared<MethodText>),
    /// `m, n`
    Then(Shared<MethodText>, Shared<MethodText>),
    /// `rule`, `erule`, `drule`, `frule`, `intro` or `elim` with its facts.
    Rule(Token, Items<Fact>),
    /// A name with arguments or sections.
    Call(Token, Items<Arg>, Items<Section>),
    /// `match` with its cases.
    Match(Subject, Items<Case>),
}

/// An argument of a call.
#[derive(Drop)]
#[cycle(method)]
pub enum Arg {
    /// A term.
    Term(Token),
    /// A method in parentheses.
    Method(Shared<MethodText>),
}

/// A case: its patterns, its names, and its method.
#[derive(Drop)]
#[cycle(method)]
pub enum Case {
    /// The patterns in order, the groups of names behind `for`, and the method.
    Case(Items<Pattern>, Items<VarGroup>, Shared<MethodText>),
}

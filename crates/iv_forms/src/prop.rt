use crate::fact::Att;
use iv_lex::Token;
use iv_list::Items;

/// A label: a name, attributes, or both.
#[derive(Drop)]
pub struct Label {
    /// The name, where there is one.
    pub name: Option<Token>,
    /// The attributes in order.
    pub atts: Items<Att>,
}

/// A proposition with its `is` patterns.
#[derive(Drop)]
pub struct Prop {
    /// The proposition.
    pub term: Token,
    /// The patterns in order.
    pub patterns: Items<Token>,
}

/// A proposition that may have a label.
#[derive(Drop)]
pub struct Claim {
    /// The label.
    pub label: Option<Label>,
    /// The proposition.
    pub prop: Prop,
}

/// Propositions under one label.
#[derive(Drop)]
pub struct Group {
    /// The label.
    pub label: Option<Label>,
    /// The propositions in order, one at least.
    pub props: Items<Prop>,
}

/// Names of one type.
#[derive(Drop)]
pub struct VarGroup {
    /// The names in order, one at least.
    pub names: Items<Token>,
    /// The type, where one is given.
    pub typ: Option<Token>,
}

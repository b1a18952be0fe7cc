use crate::fact::{Att, Fact};
use crate::method::MethodText;
use crate::prop::{Claim, Group, Label, Prop, VarGroup};
use iv_lex::Token;
use iv_list::Items;

/// How a constant is written.
#[derive(Drop)]
pub enum Fixity {
    /// By its name alone.
    None,
    /// By a symbol.
    Plain(Token),
    /// A symbol in front of a place of this priority, with a priority of its own.
    Prefix(Token, u32, u32),
    /// `infix` with its priority.
    Infix(Token, u32),
    /// `infixl` with its priority.
    Infixl(Token, u32),
    /// `infixr` with its priority.
    Infixr(Token, u32),
    /// `binder` with its priority.
    Binder(Token, u32),
}

/// A constant with its type.
#[derive(Drop)]
pub struct Constant {
    /// The name.
    pub name: Token,
    /// The type.
    pub typ: Token,
    /// How it is written.
    pub fixity: Fixity,
}

/// An axiom.
#[derive(Drop)]
pub struct Axiom {
    /// The name.
    pub name: Token,
    /// The attributes in order.
    pub atts: Items<Att>,
    /// The proposition.
    pub term: Token,
}

/// What a `lemma` states.
#[derive(Drop)]
pub enum Statement {
    /// A proposition.
    Short(Option<Label>, Prop),
    /// Fixed names, assumptions, and what is shown.
    Long(Option<Label>, Items<VarGroup>, Items<Group>, Prop),
}

/// The names that a `method` declares; an empty list where the part is absent.
#[derive(Drop)]
pub struct Parts {
    /// Behind `methods`.
    pub methods: Items<Token>,
    /// Behind `uses`.
    pub uses: Items<Token>,
    /// Behind `declares`.
    pub declares: Items<Token>,
}

/// Facts of a `note` under one name.
#[derive(Drop)]
pub struct NoteGroup {
    /// The name, where there is one.
    pub name: Option<Token>,
    /// Its attributes in order.
    pub atts: Items<Att>,
    /// The facts in order, one at least.
    pub facts: Items<Fact>,
}

/// A term and what it is matched with.
#[derive(Drop)]
pub struct Equation {
    /// The pattern.
    pub pattern: Token,
    /// The term.
    pub term: Token,
}

/// What is obtained.
#[derive(Drop)]
pub struct Obtained {
    /// The groups of names; none where there is no `where`.
    pub names: Items<VarGroup>,
    /// The propositions.
    pub props: Items<Group>,
}

/// What a command says, by its word.
#[derive(Drop)]
pub enum Body {
    /// `theory`: its name and its imports.
    Theory(Token, Items<Token>),
    /// `end`.
    End,
    /// `chapter`: its text.
    Chapter(Token),
    /// `section`: its text.
    Section(Token),
    /// `subsection`: its text.
    Subsection(Token),
    /// `subsubsection`: its text.
    Subsubsection(Token),
    /// `paragraph`: its text.
    Paragraph(Token),
    /// `subparagraph`: its text.
    Subparagraph(Token),
    /// `text`
    Prose(Token),
    /// `txt`: its text.
    Txt(Token),
    /// `typedecl`: the parameters and the name.
    Typedecl(Items<Token>, Token),
    /// `consts`: the constants.
    Consts(Items<Constant>),
    /// `judgment`: the name and the type.
    Judgment(Token, Token),
    /// `axiomatization`: the constants and the axioms.
    Axiomatization(Items<Constant>, Items<Axiom>),
    /// `lemmas`: the name, its attributes and the facts.
    Lemmas(Token, Items<Att>, Items<Fact>),
    /// `declare`: its facts.
    Declare(Items<Fact>),
    /// `named_theorems`: the name.
    NamedTheorems(Token),
    /// `method`: the name, the groups of names behind `for`, the parts and the body.
    Method(Token, Items<VarGroup>, Parts, MethodText),
    /// `lemma`: what it states.
    Lemma(Statement),
    /// `theorem`: what it states.
    Theorem(Statement),
    /// `corollary`: what it states.
    Corollary(Statement),
    /// `proposition`: what it states.
    Proposition(Statement),
    /// `fix`: the groups of names.
    Fix(Items<VarGroup>),
    /// `assume`: the groups of propositions.
    Assume(Items<Group>),
    /// `presume`: the groups of propositions.
    Presume(Items<Group>),
    /// `define`: the name, its type, the label and the term.
    Define(Token, Option<Token>, Option<Label>, Token),
    /// `note`: the groups of facts.
    Note(Items<NoteGroup>),
    /// `let`: the equations.
    Let(Items<Equation>),
    /// `{`.
    LeftBrace,
    /// `}`.
    RightBrace,
    /// `next`.
    Next,
    /// `then`.
    Then,
    /// `from`: its facts.
    From(Items<Fact>),
    /// `with`: its facts.
    With(Items<Fact>),
    /// `have`: what it claims.
    Have(Claim),
    /// `show`: what it claims.
    Show(Claim),
    /// `hence`: what it claims.
    Hence(Claim),
    /// `thus`: what it claims.
    Thus(Claim),
    /// `obtain`: what it obtains.
    Obtain(Obtained),
    /// `also`.
    Also,
    /// `moreover`.
    Moreover,
    /// `finally`.
    Finally,
    /// `ultimately`.
    Ultimately,
    /// `apply`: its method.
    Apply(MethodText),
    /// `using`: its facts.
    Using(Items<Fact>),
    /// `defer`: its number, where one is given.
    Defer(Option<u32>),
    /// `prefer`: its number.
    Prefer(u32),
    /// `back`.
    Back,
    /// `proof`: its method, where one is given.
    Proof(Option<MethodText>),
    /// `qed`: its method, where one is given.
    Qed(Option<MethodText>),
    /// `by`: its methods.
    By(MethodText, Option<MethodText>),
    /// `.`
    Dot,
    /// `..`
    Dots,
    /// `done`.
    Done,
    /// `oops`.
    Oops,
}

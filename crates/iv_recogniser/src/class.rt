// Written by tools/outer_table.py. Do not edit.
//! The classes of tokens, and sets of them.
ghost use Rattle.std.specs.Prelude.{◌≡◌};
ghost use Rattle.std.specs.List.{list_any};
ghost use Rattle.iv_recogniser.specs.Class.{has, same_class};

/// The class of a token: all that the forms ask of it.
#[derive(Clone, Copy, Debug, PartialEq, Eq)]
pub enum Class {
    /// The command word `theory`.
    Theory,
    /// The command word `end`.
    End,
    /// The command word `chapter`.
    Chapter,
    /// The command word `section`.
    Section,
    /// The command word `subsection`.
    Subsection,
    /// The command word `subsubsection`.
    Subsubsection,
    /// The command word `paragraph`.
    Paragraph,
    /// The command word `subparagraph`.
    Subparagraph,
    /// The command word `text`.
    Prose,
    /// The command word `txt`.
    Txt,
    /// The command word `typedecl`.
    Typedecl,
    /// The command word `consts`.
    Consts,
    /// The command word `judgment`.
    Judgment,
    /// The command word `axiomatization`.
    Axiomatization,
    /// The command word `lemmas`.
    Lemmas,
    /// The command word `declare`.
    Declare,
    /// The command word `named_theorems`.
    NamedTheorems,
    /// The command word `method`.
    Method,
    /// The command word `lemma`.
    Lemma,
    /// The command word `theorem`.
    Theorem,
    /// The command word `corollary`.
    Corollary,
    /// The command word `proposition`.
    Proposition,
    /// The command word `fix`.
    Fix,
    /// The command word `assume`.
    Assume,
    /// The command word `presume`.
    Presume,
    /// The command word `define`.
    Define,
    /// The command word `note`.
    Note,
    /// The command word `let`.
    Let,
    /// The command word `{`.
    LeftBrace,
    /// The command word `}`.
    RightBrace,
    /// The command word `next`.
    Next,
    /// The command word `then`.
    Then,
    /// The command word `from`.
    From,
    /// The command word `with`.
    With,
    /// The command word `have`.
    Have,
    /// The command word `show`.
    Show,
    /// The command word `hence`.
    Hence,
    /// The command word `thus`.
    Thus,
    /// The command word `obtain`.
    Obtain,
    /// The command word `also`.
    Also,
    /// The command word `moreover`.
    Moreover,
    /// The command word `finally`.
    Finally,
    /// The command word `ultimately`.
    Ultimately,
    /// The command word `apply`.
    Apply,
    /// The command word `using`.
    Using,
    /// The command word `defer`.
    Defer,
    /// The command word `prefer`.
    Prefer,
    /// The command word `back`.
    Back,
    /// The command word `proof`.
    Proof,
    /// The command word `qed`.
    Qed,
    /// The command word `by`.
    By,
    /// The command word `.`.
    Dot,
    /// The command word `..`.
    Dots,
    /// The command word `done`.
    Done,
    /// The command word `oops`.
    Oops,
    /// The keyword `and`.
    And,
    /// The keyword `assumes`.
    Assumes,
    /// The keyword `begin`.
    Begin,
    /// The keyword `declares`.
    Declares,
    /// The keyword `fixes`.
    Fixes,
    /// The keyword `for`.
    For,
    /// The keyword `imports`.
    Imports,
    /// The keyword `in`.
    In,
    /// The keyword `is`.
    Is,
    /// The keyword `methods`.
    Methods,
    /// The keyword `shows`.
    Shows,
    /// The keyword `uses`.
    Uses,
    /// The keyword `where`.
    Where,
    /// The identifier `OF`.
    OfFacts,
    /// The identifier `THEN`.
    ThenFact,
    /// The identifier `of`.
    OfTerms,
    /// The identifier `infix`.
    Infix,
    /// The identifier `infixl`.
    Infixl,
    /// The identifier `infixr`.
    Infixr,
    /// The identifier `binder`.
    Binder,
    /// One of the identifiers `rule`, `erule`, `drule`, `frule`, `intro` and `elim`.
    Rule,
    /// The identifier `match`.
    Match,
    /// The identifier `premises`.
    Premises,
    /// The identifier `conclusion`.
    Conclusion,
    /// The identifier `cut`.
    Cut,
    /// The token `(`.
    Open,
    /// The token `)`.
    Close,
    /// The token `[`.
    Left,
    /// The token `]`.
    Right,
    /// The token `,`.
    Comma,
    /// The token `;`.
    Semicolon,
    /// The token `:`.
    Colon,
    /// The token `::`.
    Colons,
    /// The token `=`.
    Equal,
    /// The token `=>`.
    Arrow,
    /// The token `|`.
    Bar,
    /// The token `\<bar>`.
    CaseBar,
    /// The token `+`.
    Plus,
    /// The token `?`.
    Question,
    /// The token `!`.
    Exclamation,
    /// The token `-`.
    Minus,
    /// The token `_`.
    Dummy,
    /// Any other identifier.
    Ident,
    /// An identifier with dots.
    Long,
    /// A number up to 999.
    Low,
    /// The number 1000.
    Thousand,
    /// A greater number, up to 4,294,967,295.
    Nat,
    /// A schematic variable.
    Var,
    /// A type variable.
    Tvar,
    /// A string that is a symbol: one or more characters without blanks and without `_`.
    Plain,
    /// A string that is a symbol, maybe a space, and `_`.
    Prefix,
    /// A string that is a symbol and a space.
    Spaced,
    /// The string `_` or `(_)`.
    Judging,
    /// Any other string.
    Str,
    /// A cartouche.
    Cart,
    /// The opening of a cartouche that stands behind `=>`.
    Into,
    /// The closing of such a cartouche.
    OutOf,
    /// A token that no form has.
    Other,
}

/// A set of classes, as a form names it.
#[derive(Clone, Copy, Debug, PartialEq, Eq)]
pub enum Sort {
    /// One class.
    Only(Class),
    /// Identifiers.
    Identifier,
    /// Identifiers, with dots or without.
    Name,
    /// Names other than `OF`, `THEN` and `of`.
    OtherName,
    /// Names other than those of rule methods and `match`.
    CallName,
    /// Names other than `premises` and `conclusion`.
    SubjectName,
    /// What may stand for a term.
    Term,
    /// Terms that are no names.
    NoName,
    /// Terms that are no identifiers.
    NoIdent,
    /// What may stand for a type.
    Type,
    /// Strings and cartouches.
    Quoted,
    /// Numbers.
    Numeral,
    /// Numbers up to 1000.
    Priority,
    /// `?` and `!`.
    Mark,
    /// Symbols that may have a space behind them.
    Binding,
}

/// Identifiers.
pub const IDENTIFIER: &[Class] = &[
    Class::Ident,
    Class::OfFacts,
    Class::ThenFact,
    Class::OfTerms,
    Class::Infix,
    Class::Infixl,
    Class::Infixr,
    Class::Binder,
    Class::Rule,
    Class::Match,
    Class::Premises,
    Class::Conclusion,
    Class::Cut,
];
/// Identifiers, with dots or without.
pub const NAME: &[Class] = &[
    Class::Ident,
    Class::OfFacts,
    Class::ThenFact,
    Class::OfTerms,
    Class::Infix,
    Class::Infixl,
    Class::Infixr,
    Class::Binder,
    Class::Rule,
    Class::Match,
    Class::Premises,
    Class::Conclusion,
    Class::Cut,
    Class::Long,
];
/// Names other than `OF`, `THEN` and `of`.
pub const OTHER_NAME: &[Class] = &[
    Class::Ident,
    Class::Infix,
    Class::Infixl,
    Class::Infixr,
    Class::Binder,
    Class::Rule,
    Class::Match,
    Class::Premises,
    Class::Conclusion,
    Class::Cut,
    Class::Long,
];
/// Names other than those of rule methods and `match`.
pub const CALL_NAME: &[Class] = &[
    Class::Ident,
    Class::OfFacts,
    Class::ThenFact,
    Class::OfTerms,
    Class::Infix,
    Class::Infixl,
    Class::Infixr,
    Class::Binder,
    Class::Premises,
    Class::Conclusion,
    Class::Cut,
    Class::Long,
];
/// Names other than `premises` and `conclusion`.
pub const SUBJECT_NAME: &[Class] = &[
    Class::Ident,
    Class::OfFacts,
    Class::ThenFact,
    Class::OfTerms,
    Class::Infix,
    Class::Infixl,
    Class::Infixr,
    Class::Binder,
    Class::Rule,
    Class::Match,
    Class::Cut,
    Class::Long,
];
/// What may stand for a term.
pub const TERM: &[Class] = &[
    Class::Ident,
    Class::OfFacts,
    Class::ThenFact,
    Class::OfTerms,
    Class::Infix,
    Class::Infixl,
    Class::Infixr,
    Class::Binder,
    Class::Rule,
    Class::Match,
    Class::Premises,
    Class::Conclusion,
    Class::Cut,
    Class::Long,
    Class::Var,
    Class::Plain,
    Class::Prefix,
    Class::Spaced,
    Class::Judging,
    Class::Str,
    Class::Cart,
];
/// Terms that are no names.
pub const NO_NAME: &[Class] = &[
    Class::Var,
    Class::Plain,
    Class::Prefix,
    Class::Spaced,
    Class::Judging,
    Class::Str,
    Class::Cart,
];
/// Terms that are no identifiers.
pub const NO_IDENT: &[Class] = &[
    Class::Long,
    Class::Var,
    Class::Plain,
    Class::Prefix,
    Class::Spaced,
    Class::Judging,
    Class::Str,
    Class::Cart,
];
/// What may stand for a type.
pub const TYPE: &[Class] = &[
    Class::Ident,
    Class::OfFacts,
    Class::ThenFact,
    Class::OfTerms,
    Class::Infix,
    Class::Infixl,
    Class::Infixr,
    Class::Binder,
    Class::Rule,
    Class::Match,
    Class::Premises,
    Class::Conclusion,
    Class::Cut,
    Class::Tvar,
    Class::Plain,
    Class::Prefix,
    Class::Spaced,
    Class::Judging,
    Class::Str,
    Class::Cart,
];
/// Strings and cartouches.
pub const QUOTED: &[Class] = &[
    Class::Plain,
    Class::Prefix,
    Class::Spaced,
    Class::Judging,
    Class::Str,
    Class::Cart,
];
/// Numbers.
pub const NUMERAL: &[Class] = &[Class::Low, Class::Thousand, Class::Nat];
/// Numbers up to 1000.
pub const PRIORITY: &[Class] = &[Class::Low, Class::Thousand];
/// `?` and `!`.
pub const MARK: &[Class] = &[Class::Question, Class::Exclamation];
/// Symbols that may have a space behind them.
pub const BINDING: &[Class] = &[Class::Plain, Class::Spaced];

impl Class {
    /// Whether both are the same class.
    pub fn is(self, other: Class) -> bool
        ensures { result ≡ same_class self other }
    {
        self as u8 == other as u8
    }

    /// Whether it is one of these.
    pub fn is_in(self, classes: &[Class]) -> bool
        ensures { result ≡ list_any (same_class self) classes.now }
    {
        classes.iter().any(|class| self.is(*class))
    }
}

impl Sort {
    /// Whether it has this class.
    pub fn has(self, class: Class) -> bool
        ensures { result ≡ has self class }
    {
        match self {
            Sort::Only(only) => class.is(only),
            Sort::Identifier => class.is_in(IDENTIFIER),
            Sort::Name => class.is_in(NAME),
            Sort::OtherName => class.is_in(OTHER_NAME),
            Sort::CallName => class.is_in(CALL_NAME),
            Sort::SubjectName => class.is_in(SUBJECT_NAME),
            Sort::Term => class.is_in(TERM),
            Sort::NoName => class.is_in(NO_NAME),
            Sort::NoIdent => class.is_in(NO_IDENT),
            Sort::Type => class.is_in(TYPE),
            Sort::Quoted => class.is_in(QUOTED),
            Sort::Numeral => class.is_in(NUMERAL),
            Sort::Priority => class.is_in(PRIORITY),
            Sort::Mark => class.is_in(MARK),
            Sort::Binding => class.is_in(BINDING),
        }
    }
}

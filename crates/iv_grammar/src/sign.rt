//! What symbols are to the grammar.

/// What a symbol is to the grammar: one of the delimiters, or a declared symbol with its priorities. The first number of a
/// declared symbol tells which it is; whoever declares it chooses the number.
#[derive(Clone, Copy, Debug, PartialEq, Eq)]
pub enum Sign {
    /// `(`
    Open,
    /// `)`
    Close,
    /// `::`
    Colons,
    /// `%`
    Lambda,
    /// `.`
    Dot,
    /// `==`
    Equals,
    /// `==>`
    Implies,
    /// `[|`
    OpenPremises,
    /// `|]`
    ClosePremises,
    /// `;`
    Semicolon,
    /// `!!`
    All,
    /// `=>`
    Arrow,
    /// `[`
    OpenTypes,
    /// `]`
    CloseTypes,
    /// `,`
    Comma,
    /// `PROP`
    Prop,
    /// `_`
    Dummy,
    /// `...`
    Dots,
    /// A symbol that stands for its constant.
    Plain(u32),
    /// A symbol in front of one argument: the priority of the argument's place, and that of the whole.
    Prefix(u32, u32, u32),
    /// A symbol between two arguments, which are of a higher priority than this.
    Infix(u32, u32),
    /// The same, where the first argument may be of this priority.
    Infixl(u32, u32),
    /// The same, where the second argument may be of this priority.
    Infixr(u32, u32),
    /// A symbol in front of variables that it binds, a dot and a body.
    Binder(u32, u32),
}

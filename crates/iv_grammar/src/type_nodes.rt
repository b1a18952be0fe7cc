//! The nodes of trees of types, and what a parser keeps of a tree while it goes on.
ghost use Rattle.std.specs.Prelude.{◌≡◌, ◌+◌, [], ◌∷◌, ◌++◌, length, IfOk, IfErr, OnOk, max, List};
ghost use Rattle.iv_text.specs.declared.want.Want.TheVariants.{Memory};
ghost use Rattle.iv_grammar.specs.TypeNode.{capped, more_kind, takes_by, types_kind, kind_by, depth_by, shape, frame_of, types_of, at};
ghost use Rattle.iv_grammar.specs.TypeReader.{make};

use crate::cutting::Token;
use crate::sign::Sign;
use crate::words::Word;
use iv_text::{Mem, Text};
use std::alloc::Global;

/// A node of a type's tree. A child is named by its place among the nodes, from 0; it stands before its parent.
#[derive(Drop)]
pub enum TypeForm {
    /// `'a`
    Var(Text),
    /// `c`
    Con(Text),
    /// `( T )`
    Paren(usize),
    /// `T c`
    Applied(usize, Text),
    /// `( T`, the beginning of a list of types
    Round(usize),
    /// `[ T`, the beginning of a list of types
    Square(usize),
    /// `Ts , T`, a list with one type more
    More(usize, usize),
    /// `Ts ) c`
    Tuple(usize, Text),
    /// `T => U`
    Arrow(usize, usize),
    /// `Ts ] => U`
    Arrows(usize, usize),
}

/// What may follow a tree of a type.
#[derive(Clone, Copy, Debug, PartialEq, Eq)]
pub enum Kind {
    /// An atom.
    Atom,
    /// A list of one type, the one of this node, behind a `(`.
    Round(usize),
    /// A list of several types behind a `(`.
    Rounds,
    /// A list of types behind a `[`.
    Square,
    /// A type that ends with the one behind an arrow.
    Arrow,
}

/// A tree that was read: its node, what may follow it, and its depth, which is 401 where it is more.
#[derive(Clone, Copy, Debug, PartialEq, Eq)]
pub struct Part {
    /// Its node.
    pub root: usize,
    /// What may follow it.
    pub kind: Kind,
    /// Its depth, or 401 where that is more.
    pub depth: u32,
}

/// What is to be done with the type that is being read.
#[derive(Clone, Copy, Debug, PartialEq, Eq)]
pub enum Awaiting {
    /// It follows a `(`.
    Round,
    /// It follows a `[`.
    Square,
    /// It follows a list of types and a comma.
    More(Part),
    /// It follows a type and an arrow.
    Arrow(Part),
    /// It follows a list of types, a `]` and an arrow.
    Arrows(Part),
}

/// Where a parser of types stands.
#[derive(Clone, Copy, Debug, PartialEq, Eq)]
pub enum Place {
    /// Before a type.
    Begin,
    /// Behind a tree, which may go on.
    Got(Part),
}

/// The depth of a tree one level above another's.
pub(crate) fn deeper(depth: u32) -> u32
    ensures { result ≡ capped (depth + 1) }
{
    if depth < 401 { depth + 1 } else { 401 }
}

/// The larger one.
pub(crate) fn larger(depth: u32, other: u32) -> u32
    ensures { result ≡ max depth other }
{
    if depth < other { other } else { depth }
}

impl Kind {
    /// Whether it is that of a list of types.
    pub(crate) fn is_types(self) -> bool
        ensures { result ≡ types_kind self }
    {
        !matches!(self, Kind::Atom | Kind::Arrow)
    }

    /// The kind of a list with one type more.
    pub(crate) fn more(self) -> Kind
        ensures { result ≡ more_kind self }
    {
        match self {
            Kind::Round(_one) => Kind::Rounds,
            kind => kind,
        }
    }

    /// Whether a tree of this kind goes on with a token.
    pub(crate) fn takes(self, token: &Token) -> bool
        ensures { result ≡ takes_by token.now self }
    {
        match token {
            Token::Word(Word::Ident, _text) => matches!(self, Kind::Atom),
            Token::Word(_word, _text) => false,
            Token::Sign(Sign::Arrow) => matches!(self, Kind::Atom),
            Token::Sign(Sign::Comma) => self.is_types(),
            Token::Sign(Sign::Close) => matches!(self, Kind::Round(_) | Kind::Rounds),
            Token::Sign(Sign::CloseTypes) => matches!(self, Kind::Square),
            Token::Sign(_sign) => false,
        }
    }
}

/// Enters a node, and says which it is. Fails where memory runs out, and the nodes are then as before.
pub(crate) fn enter(trees: &mut Vec<TypeForm>, form: TypeForm) -> Mem<usize>
    ensures place { IfOk result (λ root. root ≡ length trees.old.items) }
    ensures ok { OnOk result (trees.new.items ≡ trees.old.items ++ form ∷ []) }
    ensures memory { IfErr result (λ w. w ≡ Memory) }
{
    let root = trees.len();
    trees.push(form)?;
    Ok(root)
}

/// Enters a node, and stands behind its tree. Fails where memory runs out.
pub(crate) fn put(trees: &mut Vec<TypeForm>, form: TypeForm, kind: Kind, depth: u32) -> Mem<Place>
    ensures place { IfOk result (λ place. place ≡ Place.Got (record { root = length trees.old.items; kind = kind; depth = depth })) }
    ensures ok { OnOk result (trees.new.items ≡ trees.old.items ++ form ∷ []) }
    ensures memory { IfErr result (λ w. w ≡ Memory) }
{
    let root = enter(trees, form)?;
    Ok(Place::Got(Part { root, kind, depth }))
}

/// Puts off what is to be done with a type, and stands before that. Fails where memory runs out.
pub(crate) fn open(frames: &mut Vec<Awaiting>, frame: Awaiting) -> Mem<Place>
    ensures place { IfOk result (λ place. place ≡ Place.Begin) }
    ensures ok { OnOk result (frames.new.items ≡ frames.old.items ++ frame ∷ []) }
    ensures memory { IfErr result (λ w. w ≡ Memory) }
{
    frames.push(frame)?;
    Ok(Place::Begin)
}

impl Awaiting {
    /// The node that the type makes.
    pub(crate) fn form(self, root: usize) -> TypeForm
        ensures { (trees : List TypeForm) → shape (types_of trees) result ≡ make (frame_of (types_of trees) self) (at (types_of trees) root) }
    {
        match self {
            Awaiting::Round => TypeForm::Round(root),
            Awaiting::Square => TypeForm::Square(root),
            Awaiting::More(list) => TypeForm::More(list.root, root),
            Awaiting::Arrow(left) => TypeForm::Arrow(left.root, root),
            Awaiting::Arrows(list) => TypeForm::Arrows(list.root, root),
        }
    }

    /// The kind of the tree that a type at a node makes.
    pub(crate) fn kind(self, root: usize) -> Kind
        ensures { result ≡ kind_by self root }
    {
        match self {
            Awaiting::Round => Kind::Round(root),
            Awaiting::Square => Kind::Square,
            Awaiting::More(list) => list.kind.more(),
            Awaiting::Arrow(_left) => Kind::Arrow,
            Awaiting::Arrows(_list) => Kind::Arrow,
        }
    }

    /// The depth of the tree that a type of this depth makes.
    pub(crate) fn depth(self, depth: u32) -> u32
        ensures { result ≡ depth_by self depth }
    {
        match self {
            Awaiting::Round => depth,
            Awaiting::Square => depth,
            Awaiting::More(list) => larger(list.depth, depth),
            Awaiting::Arrow(left) => deeper(larger(left.depth, depth)),
            Awaiting::Arrows(list) => deeper(larger(list.depth, depth)),
        }
    }
}

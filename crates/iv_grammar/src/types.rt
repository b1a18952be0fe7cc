//! The parser of types. It keeps a stack of its own, so a text of any nesting is answered.
ghost use Rattle.std.specs.Prelude.{◌≡◌, ◌≤◌, ◌<◌, ℕ, List, [], ◌++◌, length, IfOk, IfErr, Some, None};
ghost use Rattle.iv_grammar.specs.TypeTree.{Ty, TypeBelongs, type_depth};
ghost use Rattle.iv_grammar.specs.TypeReader.{begin, read};
ghost use Rattle.iv_grammar.specs.TypeNode.{at, types_of, IsPart};

use crate::cutting::Token;
use crate::type_nodes::{Part, Place, TypeForm};
use crate::type_steps::{NoType, Turn, turned};
use std::alloc::Global;

/// The type that stands in front, and the tokens behind it: as many of the tokens are taken as can be. Its nodes come behind
/// those that were there. `Stuck` exactly where no type begins with the tokens.
pub(crate) fn type_in_front<'a>(
    alloc: Global,
    trees: &mut Vec<TypeForm>,
    tokens: &'a [Token],
) -> Result<(Part, &'a [Token]), NoType>
    ensures reads { IfOk result (λ r. (n : ℕ) → length tokens.now ≤ n → read n begin tokens.now ≡ Some (at (types_of trees.new.items) r.0.root, r.1.now)) }
    ensures part { IfOk result (λ r. IsPart (types_of trees.new.items) r.0) }
    ensures grown { IfOk result (λ r. (fs : List TypeForm) × (trees.new.items ≡ trees.old.items ++ fs)) }
    ensures stuck { IfErr result (λ e. e ≡ NoType.Stuck → (n : ℕ) → length tokens.now ≤ n → read n begin tokens.now ≡ None) }
{
    let mut frames = Vec::new(alloc);
    let mut place = Place::Begin;
    let mut rest = tokens;
    loop {
        match turned(trees, &mut frames, place, rest) {
            Err(none) => return Err(none),
            Ok((Turn::Done(part), left)) => return Ok((part, left)),
            Ok((Turn::On(next), left)) => {
                place = next;
                rest = left;
            }
        }
    }
}

/// A type's tree: its nodes, of which each child stands before its parent, and the last one.
#[derive(Drop)]
pub struct TypeTree {
    /// The nodes.
    pub nodes: Vec<TypeForm>,
    /// The whole.
    pub root: usize,
}

/// Why a text is no type.
#[derive(Clone, Copy, Debug, PartialEq, Eq)]
pub enum NoParse {
    /// No tree belongs to its tokens.
    NoTree,
    /// The depth of the tree that belongs to them is over 400.
    Deep,
    /// There is no memory.
    Memory,
}

impl From<NoType> for NoParse {
    ghost use Rattle.std.specs.Prelude.{◌≡◌};
    ghost use Rattle.iv_grammar.specs.TypeNode.{parse_error};

    ghost from_gives = { λ s e. e ≡ parse_error s };

    fn from(none: NoType) -> NoParse {
        match none {
            NoType::Stuck => NoParse::NoTree,
            NoType::Memory => NoParse::Memory,
        }
    }
}

/// The tree that belongs to the tokens of a type. `NoTree` exactly where none does, `Deep` exactly where its depth is over 400;
/// `Memory` where memory runs out.
pub fn parse_type(alloc: Global, tokens: &[Token]) -> Result<TypeTree, NoParse>
    ensures belongs { IfOk result (λ t. TypeBelongs tokens.now (at (types_of t.nodes.items) t.root)) }
    ensures only { IfOk result (λ t. (u : Ty) → TypeBelongs tokens.now u → u ≡ at (types_of t.nodes.items) t.root) }
    ensures within { IfOk result (λ t. t.root < length (types_of t.nodes.items)) }
    ensures shallow { IfOk result (λ t. type_depth (at (types_of t.nodes.items) t.root) ≤ 400) }
    ensures none { IfErr result (λ e. e ≡ NoParse.NoTree → (u : Ty) → TypeBelongs tokens.now u → ⊥) }
    ensures deep { IfErr result (λ e. e ≡ NoParse.Deep → (u : Ty) × (TypeBelongs tokens.now u × (400 < type_depth u))) }
{
    let mut nodes = Vec::new(alloc);
    match type_in_front(alloc, &mut nodes, tokens) {
        Err(none) => Err(NoParse::from(none)),
        Ok((part, rest)) => {
            if !rest.is_empty() {
                return Err(NoParse::NoTree);
            }
            if part.depth > 400 {
                return Err(NoParse::Deep);
            }
            Ok(TypeTree {
                nodes,
                root: part.root,
            })
        }
    }
}

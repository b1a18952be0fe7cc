//! Laws of the definitions, each the contract of a function that does nothing.
ghost use Rattle.std.specs.Prelude.{◌≡◌, ℕ, List};
ghost use Rattle.iv_grammar.specs.declared.cutting.Token.{Token};
ghost use Rattle.iv_grammar.specs.Symbol.{Table};
ghost use Rattle.iv_grammar.specs.Cut.{IsCut};
ghost use Rattle.iv_grammar.specs.TypeTree.{Ty, TypeBelongs};
ghost use Rattle.iv_grammar.specs.Tree.{Tree, Belongs};

/// No inner text is cut in two ways.
pub fn there_is_one_cut()
    ensures { (table : Table) (text : List ℕ) (ts us : List Token) → IsCut table text ts → IsCut table text us → ts ≡ us }
{}

/// A list of tokens has at most one tree of a type.
pub fn there_is_one_type()
    ensures { (tokens : List Token) (t u : Ty) → TypeBelongs tokens t → TypeBelongs tokens u → t ≡ u }
{}

/// A list of tokens has at most one tree of a term, whatever the priorities of its symbols are.
pub fn there_is_one_tree()
    ensures { (tokens : List Token) (t u : Tree) → Belongs tokens t → Belongs tokens u → t ≡ u }
{}

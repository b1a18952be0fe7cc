ghost use Rattle.iv_lex.specs.Letter.{letters_of};
ghost use Rattle.std.specs.Prelude.{◌≡◌, length, ℕ, List};
ghost use Rattle.iv_lex.specs.declared.cutting.Token.{Token};
ghost use Rattle.iv_lex.specs.declared.letters.Letter.{Letter};
ghost use Rattle.iv_lex.specs.Place.{AreJoined};
ghost use Rattle.iv_lex.specs.Cut.{IsCut};
ghost use Rattle.iv_lex.specs.Token.{tokens_of};

/// The letters of a document are joined, from its first byte to its last.
pub fn letters_are_joined()
    ensures { (bytes : List ℕ) → AreJoined 0 (length bytes) (letters_of bytes) }
{}

/// A document is cut into its tokens, with blanks and whole comments between them, each the longest that
/// stands there; and no letters can be cut in two ways.
pub fn there_is_one_cut()
    ensures some { (bytes : List ℕ) → IsCut (letters_of bytes) (tokens_of bytes) }
    ensures one { (letters : List Letter) (found others : List Token) → IsCut letters found → IsCut letters others → found ≡ others }
{}

ghost use Rattle.std.specs.Prelude.{◌≡◌, List, drop, flat_map, take};
ghost use Rattle.iv_lex.specs.declared.cutting.Token.{Token};
ghost use Rattle.iv_forms.specs.declared.lexeme.Lexeme.{Lexeme};
ghost use Rattle.iv_outer.specs.Piece.{pieces_of};
ghost use Rattle.iv_outer.specs.declared.reading.Reading.{Reading};
ghost use Rattle.iv_outer.specs.Command.{IsReading};

use iv_read::laws::forms_are_read;

/// The pieces of some tokens, one behind the other, are these tokens: none is lost, and none is in two pieces.
pub fn pieces_are_joined()
    ensures { (ts : List Token) → flat_map (λ p. take p.count (drop p.first ts)) (pieces_of ts) ≡ ts }
{}

/// The tokens of a piece have at most one reading.
pub fn there_is_one_reading()
    ensures { (ts : List Lexeme) (r s : Reading) → IsReading r ts → IsReading s ts → r ≡ s }
{
    forms_are_read();
}

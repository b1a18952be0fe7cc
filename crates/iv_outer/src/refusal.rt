//! Places of refusals.
ghost use Rattle.std.specs.Prelude.{◌≡◌, ◌<◌, length};
ghost use Rattle.iv_outer.specs.Unreadable.{end_of, place_at};

use iv_forms::Lexeme;
use iv_text::Pos;

/// Where the token at an index begins.
pub(crate) fn place_at(lexemes: &[Lexeme], index: usize) -> Pos
    requires { index < length lexemes.now }
    ensures { result ≡ place_at index lexemes.now }
{
    lexemes[index].token.at
}

/// Where the last token ends.
pub(crate) fn end_of(lexemes: &[Lexeme]) -> Pos
    ensures { result ≡ end_of lexemes.now }
{
    let count = lexemes.len();
    if count == 0 {
        return Pos(0);
    }
    lexemes[count - 1].token.end
}

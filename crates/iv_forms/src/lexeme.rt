use iv_lex::Token;
use iv_recogniser::Class;

/// A token with its class, and its number where it is one.
#[derive(Drop)]
pub struct Lexeme {
    /// Its class.
    pub class: Class,
    /// The token itself.
    pub token: Token,
    /// The number that its digits are, 0 where it is no number.
    pub number: u32,
}

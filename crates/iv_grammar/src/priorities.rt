//! The priorities of symbols, and which tokens begin what.
ghost use Rattle.std.specs.Prelude.{◌≡◌};
ghost use Rattle.iv_grammar.specs.Tree.{is_infix, left_of, right_of, is_prefix, is_binder, place_of, own_of, is_atom_token, begins_argument};

use crate::cutting::Token;
use crate::sign::Sign;
use crate::words::Word;

impl Sign {
    /// Whether it stands between two operands.
    pub fn is_infix(self) -> bool
        ensures { result ≡ is_infix self }
    {
        matches!(
            self,
            Sign::Equals
                | Sign::Implies
                | Sign::Infix(_, _)
                | Sign::Infixl(_, _)
                | Sign::Infixr(_, _)
        )
    }

    /// The priority that its left operand has at least, or 0 where it is no infix symbol.
    pub fn left_of(self) -> u64
        ensures { result ≡ left_of self }
    {
        match self {
            Sign::Equals => 3,
            Sign::Implies => 2,
            Sign::Infix(_id, own) | Sign::Infixr(_id, own) => u64::from(own) + 1,
            Sign::Infixl(_id, own) => u64::from(own),
            _ => 0,
        }
    }

    /// The priority that its right operand has at least, or 0 where it is no infix symbol.
    pub fn right_of(self) -> u64
        ensures { result ≡ right_of self }
    {
        match self {
            Sign::Equals => 3,
            Sign::Implies => 1,
            Sign::Infix(_id, own) | Sign::Infixl(_id, own) => u64::from(own) + 1,
            Sign::Infixr(_id, own) => u64::from(own),
            _ => 0,
        }
    }

    /// Whether it stands in front of one operand.
    pub fn is_prefix(self) -> bool
        ensures { result ≡ is_prefix self }
    {
        matches!(self, Sign::Prop | Sign::Prefix(_, _, _))
    }

    /// Whether it stands in front of bound names, a dot and a body.
    pub fn is_binder(self) -> bool
        ensures { result ≡ is_binder self }
    {
        matches!(self, Sign::Lambda | Sign::All | Sign::Binder(_, _))
    }

    /// The priority that its operand or its body has at least, or 0 where it is neither prefix symbol nor binder.
    pub fn place_of(self) -> u64
        ensures { result ≡ place_of self }
    {
        match self {
            Sign::Prop => 999,
            Sign::Prefix(_id, place, _own) => u64::from(place),
            Sign::Lambda => 3,
            Sign::Binder(_id, own) => u64::from(own),
            _ => 0,
        }
    }

    /// The priority of what it makes, or 0 where it makes nothing.
    pub fn own_of(self) -> u64
        ensures { result ≡ own_of self }
    {
        match self {
            Sign::Equals => 2,
            Sign::Implies => 1,
            Sign::Prop => 999,
            Sign::Lambda => 3,
            Sign::Infix(_id, own) | Sign::Infixl(_id, own) | Sign::Infixr(_id, own) => {
                u64::from(own)
            }
            Sign::Prefix(_id, _place, own) => u64::from(own),
            Sign::Binder(_id, own) => u64::from(own),
            _ => 0,
        }
    }
}

impl Token {
    /// Whether it is a tree by itself.
    pub fn is_atom(&self) -> bool
        ensures { result ≡ is_atom_token self.now }
    {
        match self {
            Token::Word(Word::Ident, _text) => true,
            Token::Word(Word::Var, _text) => true,
            Token::Word(_word, _text) => false,
            Token::Sign(sign) => matches!(sign, Sign::Dots | Sign::Dummy | Sign::Plain(_)),
        }
    }

    /// Whether an argument of an application begins with it.
    pub fn begins_argument(&self) -> bool
        ensures { result ≡ begins_argument self.now }
    {
        match self {
            Token::Word(_word, _text) => self.is_atom(),
            Token::Sign(Sign::Open) => true,
            Token::Sign(Sign::Prefix(_id, _place, own)) => *own >= 1000,
            Token::Sign(Sign::Binder(_id, own)) => *own >= 1000,
            Token::Sign(_sign) => self.is_atom(),
        }
    }
}

ghost use Rattle.std.specs.Prelude.{◌≡◌, IfOk, IfErr};
ghost use Rattle.iv_text.specs.declared.want.Want.TheVariants.{Memory};
ghost use Rattle.iv_sig.specs.Fixity.{symbol_of, are_priorities};

use iv_text::{Copied, Mem, Text};

/// How a constant is written: by a symbol, at a priority. The symbol is kept as it is printed.
pub enum Fixity {
    /// The symbol in front of its arguments.
    Plain(Text),
    /// The symbol in front of one argument: the priority of the argument's place, and that of the whole.
    Prefix(Text, u32, u32),
    /// The symbol between two arguments, which are of a higher priority.
    Infix(Text, u32),
    /// The same, where the first argument may be of this priority.
    Infixl(Text, u32),
    /// The same, where the second argument may be of this priority.
    Infixr(Text, u32),
    /// The symbol in front of variables that it binds, a dot and a body.
    Binder(Text, u32),
}

// By hand, so that a caller's proof has one call where a notation ends.
impl Drop for Fixity {
    fn drop(self) {
        match self {
            Fixity::Plain(_symbol) => {}
            Fixity::Prefix(_symbol, _place, _own) => {}
            Fixity::Infix(_symbol, _own) => {}
            Fixity::Infixl(_symbol, _own) => {}
            Fixity::Infixr(_symbol, _own) => {}
            Fixity::Binder(_symbol, _own) => {}
        }
    }
}

impl Fixity {
    /// Its symbol.
    pub fn symbol(&self) -> &Text
        ensures { result.now ≡ symbol_of self.now }
    {
        match self {
            Fixity::Plain(symbol) => symbol,
            Fixity::Prefix(symbol, _place, _own) => symbol,
            Fixity::Infix(symbol, _own) => symbol,
            Fixity::Infixl(symbol, _own) => symbol,
            Fixity::Infixr(symbol, _own) => symbol,
            Fixity::Binder(symbol, _own) => symbol,
        }
    }

    /// Its symbol, by value.
    pub fn into_symbol(self) -> Text
        ensures { result ≡ symbol_of self }
    {
        match self {
            Fixity::Plain(symbol) => symbol,
            Fixity::Prefix(symbol, _place, _own) => symbol,
            Fixity::Infix(symbol, _own) => symbol,
            Fixity::Infixl(symbol, _own) => symbol,
            Fixity::Infixr(symbol, _own) => symbol,
            Fixity::Binder(symbol, _own) => symbol,
        }
    }

    /// Whether its priorities are at most 1000, and that of an infix at most 999.
    pub(crate) fn are_priorities(&self) -> bool
        ensures { result ≡ are_priorities self.now }
    {
        match self {
            Fixity::Plain(_symbol) => true,
            Fixity::Prefix(_symbol, place, own) => *place <= 1000 && *own <= 1000,
            Fixity::Infix(_symbol, own) => *own <= 999,
            Fixity::Infixl(_symbol, own) => *own <= 999,
            Fixity::Infixr(_symbol, own) => *own <= 999,
            Fixity::Binder(_symbol, own) => *own <= 1000,
        }
    }
}

impl Copied for Fixity {
    fn copied(&self) -> Mem<Fixity> {
        let symbol = self.symbol().copy()?;
        Ok(match self {
            Fixity::Plain(_symbol) => Fixity::Plain(symbol),
            Fixity::Prefix(_symbol, place, own) => Fixity::Prefix(symbol, *place, *own),
            Fixity::Infix(_symbol, own) => Fixity::Infix(symbol, *own),
            Fixity::Infixl(_symbol, own) => Fixity::Infixl(symbol, *own),
            Fixity::Infixr(_symbol, own) => Fixity::Infixr(symbol, *own),
            Fixity::Binder(_symbol, own) => Fixity::Binder(symbol, *own),
        })
    }
}

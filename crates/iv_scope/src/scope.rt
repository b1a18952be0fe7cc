ghost use Rattle.std.specs.Prelude.{◌≡◌, IfOk, IfErr};
ghost use Rattle.iv_text.specs.declared.want.Want.TheVariants.{Memory};

use iv_list::Items;
use iv_term::{Term, Typ};
use iv_text::{Copied, Mem, Name, Text};

/// A name in scope, and its type where one is known.
#[derive(Drop)]
pub struct ScopeName {
    /// The name.
    pub name: Name,
    /// Its type, where one is known.
    pub typ: Option<Typ>,
}

impl ScopeName {
    /// An equal value; its parts are shared. Takes no memory; fails where a count of owners is full.
    pub fn copy(&self) -> Mem<ScopeName>
        ensures ok { IfOk result (λ n. n ≡ self.now) }
        ensures memory { IfErr result (λ w. w ≡ Memory) }
    {
        let name = self.name.copy()?;
        match &self.typ {
            None => Ok(ScopeName { name, typ: None }),
            Some(typ) => {
                let typ = typ.copy()?;
                Ok(ScopeName {
                    name,
                    typ: Some(typ),
                })
            }
        }
    }
}

impl Copied for ScopeName {
    fn copied(&self) -> Mem<ScopeName> {
        self.copy()
    }
}

/// Names in scope, in order. Contracts see a list.
pub type ScopeNames = Items<ScopeName>;

/// A text and the term that it is bound to.
#[derive(Drop)]
pub struct Binding {
    /// The text.
    pub text: Text,
    /// The term that it is bound to.
    pub term: Term,
}

impl Binding {
    /// An equal value; its parts are shared. Takes no memory; fails where a count of owners is full.
    pub fn copy(&self) -> Mem<Binding>
        ensures ok { IfOk result (λ b. b ≡ self.now) }
        ensures memory { IfErr result (λ w. w ≡ Memory) }
    {
        let text = self.text.copy()?;
        let term = self.term.copy()?;
        Ok(Binding { text, term })
    }
}

impl Copied for Binding {
    fn copied(&self) -> Mem<Binding> {
        self.copy()
    }
}

/// Texts that are bound to terms, in order. Contracts see a list.
pub type Bindings = Items<Binding>;

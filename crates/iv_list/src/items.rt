ghost use Rattle.std.specs.Prelude.{◌≡◌, [], ◌∷◌, ◌++◌, length, IfOk, IfErr, OnOk, OnErr, MatchOption};
ghost use Rattle.iv_text.specs.declared.want.Want.TheVariants.{Memory};

use iv_text::{Copied, Mem};
use std::alloc::Global;
use std::marker::Model;

/// A list that grows at its end. Contracts see its items.
#[derive(Drop)]
pub struct Items<T> {
    items: Vec<T>,
}

impl<T> Model for Items<T> {
    ghost use Rattle.std.specs.Prelude.{List};
    ghost use Rattle.std.specs.Coded.{coded_list};

    ghost Value = { List T };

    ghost coded = { coded_list T.code };

    ghost view = { λ s. s.items.items };
}

impl<T> Items<T> {
    /// No items.
    pub fn new(alloc: Global) -> Items<T>
        ensures { result ≡ [] }
    {
        Items {
            items: Vec::new(alloc),
        }
    }

    /// How many there are.
    pub fn len(&self) -> usize
        ensures { result ≡ length self.now }
    {
        self.items.len()
    }

    /// All of them.
    pub fn as_slice(&self) -> &[T]
        ensures { result.now ≡ self.now }
    {
        self.items.as_slice()
    }
}

impl<T: Drop> Items<T> {
    /// Puts one at the end. Fails where memory runs out, and the list is then as before.
    pub fn push(&mut self, item: T) -> Mem<()>
        ensures ok { OnOk result (self.new ≡ self.old ++ item ∷ []) }
        ensures err { OnErr result (self.new ≡ self.old) }
        ensures memory { IfErr result (λ w. w ≡ Memory) }
    {
        self.items.push(item)?;
        Ok(())
    }

    /// Takes the last one away, where there is one.
    pub fn pop(&mut self) -> Option<T>
        ensures { MatchOption result ((self.old ≡ []) × (self.new ≡ [])) (λ last. self.old ≡ self.new ++ last ∷ []) }
    {
        self.items.pop()
    }

    /// Puts others at the end, in order. Fails where memory runs out, and the list is then as before.
    pub fn append(&mut self, more: Items<T>) -> Mem<()>
        ensures ok { OnOk result (self.new ≡ self.old ++ more) }
        ensures err { OnErr result (self.new ≡ self.old) }
        ensures memory { IfErr result (λ w. w ≡ Memory) }
    {
        let Items { mut items } = more;
        self.items.append(&mut items)?;
        Ok(())
    }
}

impl<T: Copied> Items<T> {
    /// An equal list; its parts are shared. Fails where memory runs out.
    pub fn copy(&self, alloc: Global) -> Mem<Items<T>>
        ensures ok { IfOk result (λ s. s ≡ self.now) }
        ensures memory { IfErr result (λ w. w ≡ Memory) }
    {
        let mut copy = Items::new(alloc);
        for item in self.as_slice() {
            copy.push(item.copied()?)?;
        }
        Ok(copy)
    }
}

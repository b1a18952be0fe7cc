ghost use Rattle.std.specs.Prelude.{◌≡◌, ℕ, ◌||◌, List, OnOk, OnErr, IfErr, false};
ghost use Rattle.std.specs.Str.{bytes_eq};
ghost use Rattle.iv_text.specs.declared.want.Want.TheVariants.{Memory};
ghost use Rattle.iv_run.specs.Names.{has_name};

use iv_text::{Mem, Text};
use std::alloc::Global;
use std::collections::BTreeSet;

/// A set of names, which finds one without looking at all.
#[derive(Drop)]
pub struct Names {
    texts: BTreeSet<Vec<char>>,
}

impl Names {
    /// No names.
    pub fn new(alloc: Global) -> Names
        ensures { (q : List ℕ) → has_name result q ≡ false }
    {
        Names {
            texts: BTreeSet::new(alloc),
        }
    }

    /// Whether a name is there. Takes no memory.
    pub fn has(&self, name: &Text) -> bool
        ensures { result ≡ has_name self.now name.now }
    {
        self.texts.contains(name.as_slice())
    }

    /// Puts a name in. Fails where memory runs out, and the names are then as before.
    pub fn add(&mut self, alloc: Global, name: &Text) -> Mem<()>
        ensures ok { OnOk result ((q : List ℕ) → has_name self.new q ≡ (bytes_eq q name.now || has_name self.old q)) }
        ensures err { OnErr result ((q : List ℕ) → has_name self.new q ≡ has_name self.old q) }
        ensures memory { IfErr result (λ w. w ≡ Memory) }
    {
        let key = Vec::from_slice(alloc, name.as_slice())?;
        self.texts.insert(key)?;
        Ok(())
    }
}

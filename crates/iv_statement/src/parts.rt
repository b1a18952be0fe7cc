ghost use Rattle.std.specs.Prelude.{◌≡◌, ◌<◌, [], ◌∷◌, ◌++◌, vec_len, IfOk, IfErr};
ghost use Rattle.iv_text.specs.declared.want.Want.TheVariants.{Memory};

use iv_shared::Shared;
use iv_text::{Mem, Text};
use std::alloc::Global;
use std::marker::Model;

/// The names of a proposition's parts, of which there is at least one. Contracts see a list of texts.
#[derive(Drop)]
pub struct Parts {
    names: Shared<Vec<Text>>,
}

impl Model for Parts {
    ghost use Rattle.std.specs.Prelude.{List, ℕ, ◌<◌, vec_len};
    ghost use Rattle.std.specs.Coded.{coded_list, coded_ℕ};

    ghost Value = { List (List ℕ) };

    ghost coded = { coded_list (coded_list coded_ℕ) };

    ghost view = { λ p. p.names.items };

    ghost invariant = { λ p. 0 < vec_len p.names };
}

impl Parts {
    /// These names. Fails where memory runs out.
    pub fn from_vec(alloc: Global, names: Vec<Text>) -> Mem<Parts>
        requires { 0 < vec_len names }
        ensures ok { IfOk result (λ p. p ≡ names.items) }
        ensures memory { IfErr result (λ w. w ≡ Memory) }
    {
        let names = Shared::new(alloc, names)?;
        Ok(Parts { names })
    }

    /// The premises, and the conclusion behind them.
    pub fn split(&self) -> (&[Text], &Text)
        ensures { self.now ≡ result.0.now ++ result.1.now ∷ [] }
    {
        let names = self.names.get();
        let last = names.len() - 1;
        (&names[..last], &names[last])
    }

    /// The same names, shared. Takes no memory; fails where the count of owners is full.
    pub fn copy(&self) -> Mem<Parts>
        ensures ok { IfOk result (λ p. p ≡ self.now) }
        ensures memory { IfErr result (λ w. w ≡ Memory) }
    {
        let names = self.names.share()?;
        Ok(Parts { names })
    }
}

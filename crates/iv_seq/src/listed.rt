ghost use Rattle.std.specs.Prelude.{◌≡◌, reverse};
ghost use Rattle.std.specs.List.{Contains};
ghost use Rattle.iv_seq.specs.Moments.{listed};
ghost use Rattle.iv_seq.specs.Pull.{Same};

use crate::lazy::LazySeq;
use crate::seen::Seen;
use crate::steps::Steps;
use iv_text::Mem;
use std::sync::ledger::Ledger;

/// The items of a list, in its order.
#[derive(Drop)]
pub struct Listed<T: Drop + Seen> {
    // the next item is the last one here
    items: Vec<T>,
}

impl<T: Drop + Seen> Listed<T> {
    /// A sequence with `items` as its leaves. Takes no memory.
    pub fn new(items: Vec<T>) -> Listed<T>
        ensures search { ⟦<Listed<T> as LazySeq>⟧.search result ≡ listed T.seen items.items }
        ensures fits { Same (⟦<Listed<T> as LazySeq>⟧.fits result) (Contains items.items) }
    {
        let mut items = items;
        items.reverse();
        Listed { items }
    }
}

impl<T: Drop + Seen> LazySeq for Listed<T> {
    type Item = T;

    ghost search = { λ s. listed T.seen (reverse s.items.items) };

    ghost fits = { λ s. Contains s.items.items };

    fn pull<L: Ledger>(&mut self, _steps: &mut Steps<L>) -> Mem<Option<T>> {
        Ok(self.items.pop())
    }
}

ghost use Rattle.std.specs.Prelude.{◌≡◌, ◌++◌, ◌⊎◌};
ghost use Rattle.iv_seq.specs.Pull.{Same};

use crate::lazy::LazySeq;
use crate::steps::Steps;
use iv_text::Mem;
use std::sync::ledger::Ledger;

/// The leaves of `first`, then those of `second`.
#[derive(Drop)]
pub struct Append<A: LazySeq, B: LazySeq<Item = A::Item>> {
    first: A,
    second: B,
}

impl<A: LazySeq, B: LazySeq<Item = A::Item>> Append<A, B> {
    /// A sequence with the leaves of `first`, then those of `second`.
    pub fn new(first: A, second: B) -> Append<A, B>
        ensures search { ⟦<Append<A, B> as LazySeq>⟧.search result ≡ A.search first ++ B.search second }
        ensures fits { Same (⟦<Append<A, B> as LazySeq>⟧.fits result) (λ x. A.fits first x ⊎ B.fits second x) }
    {
        Append { first, second }
    }
}

impl<A: LazySeq, B: LazySeq<Item = A::Item>> LazySeq for Append<A, B> {
    type Item = A::Item;

    ghost search = { λ s. A.search s.first ++ B.search s.second };

    ghost fits = { λ s x. A.fits s.first x ⊎ B.fits s.second x };

    fn pull<L: Ledger>(&mut self, steps: &mut Steps<L>) -> Mem<Option<A::Item>> {
        match self.first.pull(steps)? {
            Some(leaf) => Ok(Some(leaf)),
            None => self.second.pull(steps),
        }
    }
}

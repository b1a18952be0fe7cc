ghost use Rattle.std.specs.Prelude.{◌≡◌, ◌⊎◌, if◌then◌else◌};
ghost use Rattle.iv_seq.specs.Moments.{either};
ghost use Rattle.iv_seq.specs.Pull.{Same};

use crate::lazy::LazySeq;
use crate::steps::Steps;
use iv_text::Mem;
use std::sync::ledger::Ledger;

/// The leaves of `first` where it has one, else those of `second`.
#[derive(Drop)]
pub struct OrElse<A: LazySeq, B: LazySeq<Item = A::Item>> {
    first: A,
    second: B,
    // whether `first` gave a leaf
    chosen: bool,
}

impl<A: LazySeq, B: LazySeq<Item = A::Item>> OrElse<A, B> {
    /// A sequence with the leaves of `first` where there is one, else those of `second`.
    pub fn new(first: A, second: B) -> OrElse<A, B>
        ensures search { ⟦<OrElse<A, B> as LazySeq>⟧.search result ≡ either (A.search first) (B.search second) }
        ensures fits { Same (⟦<OrElse<A, B> as LazySeq>⟧.fits result) (λ x. A.fits first x ⊎ B.fits second x) }
    {
        OrElse {
            first,
            second,
            chosen: false,
        }
    }
}

impl<A: LazySeq, B: LazySeq<Item = A::Item>> LazySeq for OrElse<A, B> {
    type Item = A::Item;

    ghost search = { λ s. if s.chosen then A.search s.first else either (A.search s.first) (B.search s.second) };

    ghost fits = { λ s x. A.fits s.first x ⊎ B.fits s.second x };

    fn pull<L: Ledger>(&mut self, steps: &mut Steps<L>) -> Mem<Option<A::Item>> {
        if let Some(leaf) = self.first.pull(steps)? {
            self.chosen = true;
            return Ok(Some(leaf));
        }
        if self.chosen {
            return Ok(None);
        }
        self.second.pull(steps)
    }
}

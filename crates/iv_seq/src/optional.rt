ghost use Rattle.std.specs.Prelude.{IsSomeAnd};
ghost use Rattle.iv_seq.specs.Moments.{held};

use crate::lazy::LazySeq;
use crate::steps::Steps;
use iv_text::Mem;
use std::sync::ledger::Ledger;

/// A sequence that may be there; where there is none, no leaf comes.
impl<S: LazySeq> LazySeq for Option<S> {
    type Item = S::Item;

    ghost search = { λ o. held S.search o };

    ghost fits = { λ o x. IsSomeAnd o (λ s. S.fits s x) };

    fn pull<L: Ledger>(&mut self, steps: &mut Steps<L>) -> Mem<Option<S::Item>> {
        match self {
            Some(sequence) => sequence.pull(steps),
            None => Ok(None),
        }
    }
}

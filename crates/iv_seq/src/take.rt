ghost use Rattle.std.specs.Prelude.{◌≡◌, if◌then◌else◌};
ghost use Rattle.iv_seq.specs.Moments.{cut, within};
ghost use Rattle.iv_seq.specs.Pull.{Same};

use crate::lazy::LazySeq;
use crate::steps::Steps;
use iv_text::Mem;
use std::sync::ledger::Ledger;

/// The first leaves of a sequence.
#[derive(Drop)]
pub struct Take<A: LazySeq> {
    inner: A,
    // how many leaves may still come
    left: u32,
    // whether nothing is left once no leaf may come
    closed: bool,
}

impl<A: LazySeq> Take<A> {
    /// A sequence with the first `count` leaves of `inner`.
    pub fn new(inner: A, count: u32) -> Take<A>
        ensures search { ⟦<Take<A> as LazySeq>⟧.search result ≡ cut count (A.search inner) }
        ensures fits { Same (⟦<Take<A> as LazySeq>⟧.fits result) (A.fits inner) }
    {
        Take {
            inner,
            left: count,
            closed: false,
        }
    }
}

impl<A: LazySeq> LazySeq for Take<A> {
    type Item = A::Item;

    ghost search = { λ s. if s.closed then within s.left (A.search s.inner) else cut s.left (A.search s.inner) };

    ghost fits = { λ s. A.fits s.inner };

    fn pull<L: Ledger>(&mut self, steps: &mut Steps<L>) -> Mem<Option<A::Item>> {
        if self.left == 0 {
            self.closed = true;
            return Ok(None);
        }
        match self.inner.pull(steps)? {
            Some(leaf) => {
                self.left -= 1;
                self.closed = true;
                Ok(Some(leaf))
            }
            None => Ok(None),
        }
    }
}

ghost use Rattle.std.specs.Prelude.{List};
ghost use Rattle.iv_seq.specs.Moments.{Moment};
ghost use Rattle.iv_seq.specs.Pull.{Pulled, Fitting, shown};

use crate::seen::Seen;
use crate::steps::Steps;
use iv_text::Mem;
use std::sync::ledger::Ledger;

/// A sequence that is found bit by bit. It stands for a finite search, whose leaves are what is seen of its items.
pub trait LazySeq: Drop {
    /// What it gives.
    type Item: Drop + Seen;

    // what is still to come: the moments of the search tree that it stands for
    ghost search: { Self → List (Moment Self.Item.Sight) };

    // what holds of each item that it gives
    ghost fits: { Self → Self.Item → Type 0 };

    /// Gives the first leaf that is left, and stands for the rest; `None` exactly where no leaf is left.
    /// After an error it stands for the same leaves in the same order, with no more work before any of
    /// them. `Memory` comes for want of memory, `Number` only where a number is too large before the first leaf.
    /// Ticks at most as often as there is work before the first leaf, whatever comes.
    fn pull<L: Ledger>(&mut self, steps: &mut Steps<L>) -> Mem<Option<Self::Item>>
        ensures pulled { Pulled (search self.old) steps.old (shown Self.Item.seen result) (search self.new) steps.new }
        ensures fitting { Fitting (fits self.old) result (fits self.new) };
}

ghost use Rattle.std.specs.Prelude.{◌≡◌, ◌+◌, ◌≤◌, ◌++◌, [], Some, None, Ok, Err, false, true, IsSomeAnd, OnOk, length};
ghost use Rattle.iv_text.specs.declared.want.Want.TheVariants.{Number};
ghost use Rattle.iv_seq.specs.Moments.{bound, branching, held, large_first, ready};
ghost use Rattle.iv_seq.specs.Pull.{Moved, Same, Within};

use crate::follow::Follow;
use crate::lazy::LazySeq;
use crate::steps::Steps;
use iv_text::Mem;
use std::sync::ledger::Ledger;

/// For each leaf of one sequence, the leaves of what a function gives for it.
#[derive(Drop)]
pub struct Bind<A: LazySeq, F: Follow<In = A::Item>> {
    first: A,
    function: F,
    // an item of `first` that the function has not been asked about with success
    item: Option<A::Item>,
    // what the item before it led to
    branch: Option<F::Out>,
    ghost taken: { Within (A.fits first) (F.takes function) },
    ghost item_taken: { (x : A.Item) → item ≡ Some x → ∥ F.takes function x ∥₁ },
    ghost led: { Within (λ x. IsSomeAnd branch (λ s. F.Out.fits s x)) (F.leads function) },
}

impl<A: LazySeq, F: Follow<In = A::Item>> Bind<A, F> {
    /// A sequence with, for each leaf of `first` in order, the leaves of what `function` gives for it.
    pub fn new(first: A, function: F) -> Bind<A, F>
        requires { Within (A.fits first) (F.takes function) }
        ensures search { ⟦<Bind<A, F> as LazySeq>⟧.search result ≡ bound (A.search first) (F.means function) }
        ensures fits { Same (⟦<Bind<A, F> as LazySeq>⟧.fits result) (F.leads function) }
    {
        Bind {
            first,
            function,
            item: None,
            branch: None,
        }
    }

    // Has an item ready, where one is left.
    fn fetch<L: Ledger>(&mut self, steps: &mut Steps<L>) -> Mem<()>
        requires { held F.Out.search self.old.branch ≡ [] }
        ensures moved { Moved (⟦<Bind<A, F> as LazySeq>⟧.search self.old) steps.old result (⟦<Bind<A, F> as LazySeq>⟧.search self.new) steps.new }
        ensures found { OnOk result (self.new.item ≡ None → A.search self.new.first ≡ []) }
        ensures fewer { OnOk result (length (ready A.Item.seen self.new.item ++ A.search self.new.first) ≤ length (ready A.Item.seen self.old.item ++ A.search self.old.first)) }
        ensures function { self.new.function ≡ self.old.function }
        ensures branch { self.new.branch ≡ self.old.branch }
    {
        if self.item.is_some() {
            return Ok(());
        }
        self.item = self.first.pull(steps)?;
        Ok(())
    }

    // Starts the branch of the item that is ready, if there is one.
    fn start(&mut self) -> Mem<bool>
        requires { held F.Out.search self.old.branch ≡ [] }
        ensures search { ⟦<Bind<A, F> as LazySeq>⟧.search self.new ≡ ⟦<Bind<A, F> as LazySeq>⟧.search self.old }
        ensures last { result ≡ Ok false → self.old.item ≡ None }
        ensures fewer { result ≡ Ok true → length (ready A.Item.seen self.new.item) + 1 ≡ length (ready A.Item.seen self.old.item) }
        ensures number { result ≡ Err Number → large_first (⟦<Bind<A, F> as LazySeq>⟧.search self.old) ≡ true }
        ensures function { self.new.function ≡ self.old.function }
        ensures first { self.new.first ≡ self.old.first }
    {
        match &self.item {
            None => Ok(false),
            Some(item) => {
                let branch = self.function.follow(item)?;
                self.branch = Some(branch);
                self.item = None;
                Ok(true)
            }
        }
    }
}

impl<A: LazySeq, F: Follow<In = A::Item>> LazySeq for Bind<A, F> {
    type Item = <F::Out as LazySeq>::Item;

    ghost search = { λ s. branching F.Out.search A.Item.seen (F.means s.function) s.branch s.item (A.search s.first) };

    ghost fits = { λ s. F.leads s.function };

    fn pull<L: Ledger>(&mut self, steps: &mut Steps<L>) -> Mem<Option<<F::Out as LazySeq>::Item>> {
        loop {
            if let Some(leaf) = self.branch.pull(steps)? {
                return Ok(Some(leaf));
            }
            self.fetch(steps)?;
            if !self.start()? {
                return Ok(None);
            }
        }
    }
}

ghost use Rattle.std.specs.Prelude.{◌≡◌, ◌+◌, ◌<◌, ◌≤◌, ◌++◌, [], ◌∷◌, Some, None, Ok, Err, true, OnOk, length, vec_len, vec_capacity};
ghost use Rattle.iv_text.specs.declared.want.Want.TheVariants.{Number};
ghost use Rattle.iv_seq.specs.declared.next.Next.TheVariants.{On};
ghost use Rattle.iv_seq.specs.Moments.{large_first};
ghost use Rattle.iv_seq.specs.Pull.{Same, Within};
ghost use Rattle.iv_seq.specs.Unfold.{EndsIn, FitsSome, FitsTurn, GoesOn, Turned, pending, pending_turns, stacked, stacked_turns, unfolded};

use crate::follow::Follow;
use crate::lazy::LazySeq;
use crate::next::{Next, Outcome};
use crate::seen::Seen;
use crate::steps::Steps;
use iv_text::Mem;
use std::alloc::Global;
use std::sync::ledger::Ledger;

/// The results that a function comes to, step by step, by at most so many steps one after another. It
/// holds the branches that were begun in a list, so neither a pull nor letting go of it goes deep.
#[derive(Drop)]
pub struct Unfolded<N: Outcome, S: LazySeq<Item = N>, F: Follow<In = N::On, Out = S>> {
    function: F,
    // how many steps may follow one another
    limit: usize,
    // where the next step begins
    item: Option<N::On>,
    // what the steps so far led to; the last one comes first, and has one step less left than the one below it
    branches: Vec<S>,
    ghost goes_on: { GoesOn N.becomes (F.leads function) (F.takes function) },
    ghost item_taken: { (x : N.On) → item ≡ Some x → ∥ F.takes function x ∥₁ },
    ghost led: { Within (FitsSome S.fits branches.items) (F.leads function) },
    ghost bounded: { length branches.items ≤ limit },
}

impl<N: Outcome, S: LazySeq<Item = N>, F: Follow<In = N::On, Out = S>> Unfolded<N, S, F> {
    /// A sequence with all that `function` comes to from `item`, by at most `limit` steps one after another:
    /// a step that comes to a result gives it as a leaf, and one that goes on takes the next step from there.
    pub fn new(alloc: Global, function: F, limit: usize, item: N::On) -> Unfolded<N, S, F>
        requires takes { ∥ F.takes function item ∥₁ }
        requires goes_on { GoesOn N.becomes (F.leads function) (F.takes function) }
        ensures search { ⟦<Unfolded<N, S, F> as LazySeq>⟧.search result ≡ unfolded N.shows (F.means function) limit (N.On.seen item) }
        ensures fits { Same (⟦<Unfolded<N, S, F> as LazySeq>⟧.fits result) (EndsIn N.becomes (F.leads function)) }
    {
        Unfolded {
            function,
            limit,
            item: Some(item),
            branches: Vec::new(alloc),
        }
    }

    // Begins the branch of the item that is ready, if there is one and a step is left for it.
    fn start(&mut self) -> Mem<()>
        ensures search { ⟦<Unfolded<N, S, F> as LazySeq>⟧.search self.new ≡ ⟦<Unfolded<N, S, F> as LazySeq>⟧.search self.old }
        ensures none { OnOk result (self.new.item ≡ None) }
        ensures number { result ≡ Err Number → large_first (⟦<Unfolded<N, S, F> as LazySeq>⟧.search self.old) ≡ true }
        ensures fewer { OnOk result (pending_turns S.search N.On.seen N.shows (F.means self.new.function) self.new.limit self.new.item self.new.branches.items
            ≤ pending_turns S.search N.On.seen N.shows (F.means self.old.function) self.old.limit self.old.item self.old.branches.items) }
        ensures function { self.new.function ≡ self.old.function }
        ensures limit { self.new.limit ≡ self.old.limit }
    {
        match &self.item {
            None => Ok(()),
            Some(item) => {
                if self.branches.len() == self.limit {
                    self.item = None;
                    return Ok(());
                }
                self.branches.reserve(1)?;
                let branch = self.function.follow(item)?;
                put(&mut self.branches, branch);
                self.item = None;
                Ok(())
            }
        }
    }

    // Asks the branch that came first, and puts it back unless it is at its end.
    fn ask<L: Ledger>(&mut self, branch: S, steps: &mut Steps<L>) -> Mem<Next<(), Option<N::Done>>>
        requires none { self.old.item ≡ None }
        requires left { length self.old.branches.items < self.old.limit }
        requires room { vec_len self.old.branches < vec_capacity self.old.branches }
        requires led { Within (S.fits branch) (F.leads self.old.function) }
        ensures turned { Turned N.Done.seen (stacked S.search N.shows (F.means self.old.function) self.old.limit (self.old.branches.items ++ branch ∷ [])) steps.old
            result (⟦<Unfolded<N, S, F> as LazySeq>⟧.search self.new) steps.new }
        ensures fitting { FitsTurn (EndsIn N.becomes (F.leads self.old.function)) result }
        ensures fewer { OnOk result (pending_turns S.search N.On.seen N.shows (F.means self.new.function) self.new.limit self.new.item self.new.branches.items
            < stacked_turns S.search N.shows (F.means self.old.function) self.old.limit (self.old.branches.items ++ branch ∷ [])) }
        ensures function { self.new.function ≡ self.old.function }
        ensures limit { self.new.limit ≡ self.old.limit }
    {
        let mut branch = branch;
        match branch.pull(steps) {
            Ok(None) => Ok(Next::On(())),
            Ok(Some(item)) => {
                put(&mut self.branches, branch);
                match item.open() {
                    Next::Done(leaf) => Ok(Next::Done(Some(leaf))),
                    Next::On(next) => {
                        self.item = Some(next);
                        Ok(Next::On(()))
                    }
                }
            }
            Err(want) => {
                put(&mut self.branches, branch);
                Err(want)
            }
        }
    }

    // Goes on by one step, or to the next leaf of the branch that comes first.
    fn turn<L: Ledger>(&mut self, steps: &mut Steps<L>) -> Mem<Next<(), Option<N::Done>>>
        ensures turned { Turned N.Done.seen (⟦<Unfolded<N, S, F> as LazySeq>⟧.search self.old) steps.old result (⟦<Unfolded<N, S, F> as LazySeq>⟧.search self.new) steps.new }
        ensures fitting { FitsTurn (EndsIn N.becomes (F.leads self.old.function)) result }
        ensures fewer { result ≡ Ok (On tt) → pending_turns S.search N.On.seen N.shows (F.means self.new.function) self.new.limit self.new.item self.new.branches.items
            < pending_turns S.search N.On.seen N.shows (F.means self.old.function) self.old.limit self.old.item self.old.branches.items }
        ensures function { self.new.function ≡ self.old.function }
        ensures limit { self.new.limit ≡ self.old.limit }
    {
        self.start()?;
        match self.branches.pop() {
            None => Ok(Next::Done(None)),
            Some(branch) => self.ask(branch, steps),
        }
    }
}

// Puts a branch on top, where there is room for it.
fn put<S: Drop>(branches: &mut Vec<S>, branch: S)
    requires { vec_len branches.old < vec_capacity branches.old }
    ensures { branches.new.items ≡ branches.old.items ++ branch ∷ [] }
{
    let _ = branches.push(branch);
}

impl<N: Outcome, S: LazySeq<Item = N>, F: Follow<In = N::On, Out = S>> LazySeq
    for Unfolded<N, S, F> {
    type Item = N::Done;

    ghost search = { λ s. pending S.search N.On.seen N.shows (F.means s.function) s.limit s.item s.branches.items };

    ghost fits = { λ s. EndsIn N.becomes (F.leads s.function) };

    fn pull<L: Ledger>(&mut self, steps: &mut Steps<L>) -> Mem<Option<N::Done>> {
        loop {
            match self.turn(steps)? {
                Next::Done(answer) => return Ok(answer),
                Next::On(()) => {}
            }
        }
    }
}

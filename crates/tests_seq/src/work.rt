ghost use Rattle.std.specs.Prelude.{◌≡◌, ◌<◌, ◌≤◌, ◌+◌, ◌-◌};
ghost use Rattle.std.specs.List.{All};
ghost use Rattle.iv_seq.specs.Moments.{work_before};
ghost use Rattle.tests_seq.specs.Countdown.{countdown};

use iv_seq::{Bind, Follow, LazySeq, Listed, Steps, gathered};
use iv_text::Mem;
use std::alloc::Global;
use std::marker::Brand;
use std::process::Abort;
use std::sync::ledger::{Blank, Ledger};

// Gives the numbers below `left` from the highest down, and ticks once for each.
#[derive(Drop)]
struct Countdown {
    left: u64,
}

impl LazySeq for Countdown {
    type Item = u64;

    ghost search = { λ s. countdown s.left };

    ghost fits = { λ _ _. Unit {0} };

    fn pull<L: Ledger>(&mut self, steps: &mut Steps<L>) -> Mem<Option<u64>> {
        if self.left == 0 {
            return Ok(None);
        }
        steps.tick();
        self.left -= 1;
        Ok(Some(self.left))
    }
}

// Leads from a number to the numbers below what it is short of one, and takes no number above that.
#[derive(Drop)]
struct Short {
    of: u64,
}

impl Follow for Short {
    type In = u64;

    type Out = Countdown;

    ghost means = { λ f x. countdown (f.of - x) };

    ghost takes = { λ f x. x ≤ f.of };

    ghost leads = { λ _ _. Unit {0} };

    fn follow(&self, item: &u64) -> Mem<Countdown> {
        Ok(Countdown {
            left: self.of - *item,
        })
    }
}

// Leads from a number to the numbers below it.
#[derive(Drop)]
struct Below {}

impl Follow for Below {
    type In = u64;

    type Out = Countdown;

    ghost means = { λ _ x. countdown x };

    ghost takes = { λ _ _. Unit {0} };

    ghost leads = { λ _ _. Unit {0} };

    fn follow(&self, item: &u64) -> Mem<Countdown> {
        Ok(Countdown { left: *item })
    }
}

// The first two leaves of a sequence. No more is done than they need.
fn first_two<S: LazySeq, L: Ledger>(
    sequence: &mut S,
    steps: &mut Steps<L>,
) -> Mem<(Option<S::Item>, Option<S::Item>)>
    ensures cost { steps.new ≤ steps.old + work_before (S.search sequence.old) 2 }
{
    let first = sequence.pull(steps)?;
    let second = sequence.pull(steps)?;
    Ok((first, second))
}

// The first two leaves of 2^40 items with many leaves each, at the cost of three pieces of work.
fn first_two_of_many<L: Ledger>(steps: &mut Steps<L>) -> Mem<(Option<u64>, Option<u64>)>
    ensures cost { steps.new ≤ steps.old + 3 }
{
    let mut many = Bind::new(Countdown { left: 1 << 40 }, Below {});
    first_two(&mut many, steps)
}

// The same, with a count of its own.
fn counted<L: Ledger>(blank: Blank) -> Mem<(Option<u64>, Option<u64>)>
    requires name { blank.name ≡ L.name }
    requires parts { blank.parts ≡ L.parts }
    requires some { 0 < L.parts }
{
    let mut steps = Steps::<L>::new(blank);
    first_two_of_many(&mut steps)
}

// What numbers are short of `of`, each of which must be no more than that.
fn short_of_one<L: Ledger>(alloc: Global, blank: Blank, numbers: Vec<u64>, of: u64) -> Mem<Vec<u64>>
    requires name { blank.name ≡ L.name }
    requires parts { blank.parts ≡ L.parts }
    requires some { 0 < L.parts }
    requires all { All (λ x. ∥ x ≤ of ∥₁) numbers.items }
{
    let mut steps = Steps::<L>::new(blank);
    let mut sequence = Bind::new(Listed::new(numbers), Short { of });
    gathered(alloc, &mut sequence, &mut steps)
}

// A sequence of 2^40 items, each with many leaves, gives its first two leaves at once.
#[test]
fn no_more_is_done_than_is_asked_for(rt: HostRuntime) {
    let found = counted::<Brand>(Blank::new(1)).expect(&rt, "memory");
    assert_eq!(rt; found.0, Some((1 << 40) - 2));
    assert_eq!(rt; found.1, Some((1 << 40) - 3));
}

// A function is asked only about items that it takes.
#[test]
fn items_are_taken(rt: HostRuntime) {
    let alloc = rt.alloc();
    let numbers = vec![in alloc; 3u64, 1, 2].expect(&rt, "memory");
    let found = short_of_one::<Brand>(alloc, Blank::new(1), numbers, 3).expect(&rt, "memory");
    assert_eq!(rt; found.as_slice(), [1, 0, 0].as_slice());
}

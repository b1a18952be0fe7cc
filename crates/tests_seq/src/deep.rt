ghost use Rattle.std.specs.Prelude.{◌≡◌, ◌-◌, ◌<◌, [], ◌∷◌, IfOk, if◌then◌else◌, nat_eq};
ghost use Rattle.iv_seq.specs.Moments.{leaves_in, meets};
ghost use Rattle.iv_seq.specs.Unfold.{unfolded};
ghost use Rattle.iv_seq.specs.declared.next.Next.TheVariants.{Done, On};

use iv_seq::{Follow, LazySeq, Listed, Next, Steps, Unfolded, gathered};
use iv_text::Mem;
use std::alloc::Global;
use std::marker::Brand;
use std::process::Abort;
use std::sync::ledger::{Blank, Ledger};

// Leads from a number on to the one below it, and then to the number as a result.
#[derive(Drop)]
struct Down {
    alloc: Global,
}

impl Follow for Down {
    type In = u64;

    type Out = Listed<Next<u64, u64>>;

    ghost means = { λ _ n. if nat_eq n 0 then meets (Done 0) ∷ [] else meets (On (n - 1)) ∷ meets (Done n) ∷ [] };

    ghost takes = { λ _ _. Unit {0} };

    ghost leads = { λ _ _. Unit {0} };

    fn follow(&self, item: &u64) -> Mem<Listed<Next<u64, u64>>> {
        let mut found = Vec::with_capacity(self.alloc, 2)?;
        if *item != 0 {
            found.push(Next::On(*item - 1))?;
        }
        found.push(Next::Done(*item))?;
        Ok(Listed::new(found))
    }
}

// What comes of `from` by so many steps.
fn results<L: Ledger>(alloc: Global, from: u64, limit: usize, steps: &mut Steps<L>) -> Mem<Vec<u64>>
    ensures { IfOk result (λ found. found.items ≡ leaves_in (unfolded (λ v. v) (λ n. if nat_eq n 0 then meets (Done 0) ∷ [] else meets (On (n - 1)) ∷ meets (Done n) ∷ []) limit from)) }
{
    let mut sequence = Unfolded::new(alloc, Down { alloc }, limit, from);
    gathered(alloc, &mut sequence, steps)
}

// The same, with a count of its own.
fn counted<L: Ledger>(alloc: Global, blank: Blank, from: u64, limit: usize) -> Mem<Vec<u64>>
    requires name { blank.name ≡ L.name }
    requires parts { blank.parts ≡ L.parts }
    requires some { 0 < L.parts }
{
    let mut steps = Steps::<L>::new(blank);
    results(alloc, from, limit, &mut steps)
}

// From 10,000 down, and then up; with fewer steps the lowest ones aren't come to.
#[test]
fn steps_go_as_deep_as_they_are_told(rt: HostRuntime) {
    let alloc = rt.alloc();
    for (from, limit, first, count) in [
        (10_000, 10_001, 0, 10_001),
        (10_000, 10_000, 1, 10_000),
        (10, 5, 6, 5),
        (10, 0, 0, 0),
        (0, 1, 0, 1),
    ] {
        let found = counted::<Brand>(alloc, Blank::new(1), from, limit).expect(&rt, "memory");
        assert_eq!(rt; found.len(), count);
        let mut expected = first;
        for result in found.iter() {
            assert_eq!(rt; *result, expected);
            expected = expected.wrapping_add(1);
        }
    }
}

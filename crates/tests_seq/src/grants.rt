ghost use Rattle.std.specs.Prelude.{◌≡◌, ◌<◌, ◌+◌, ◌/◌, [], ◌∷◌, ◌++◌, IfOk, map, if◌then◌else◌, nat_eq};
ghost use Rattle.iv_seq.specs.Moments.{bound, cut, either, leaves_in, listed, meets, passes, too_large};

use iv_seq::{Append, Bind, Follow, LazySeq, Listed, OrElse, Seen, Steps, Take, gathered};
use iv_text::{Mem, Want};
use std::alloc::Global;
use std::marker::Brand;
use std::process::Abort;
use std::sync::ledger::{Blank, Ledger};

// A number, and how it was come to. It is seen as the number alone.
#[derive(Drop)]
pub struct Grant {
    pub number: u32,
    pub how: Vec<u32>,
}

impl Seen for Grant {
    type Sight = u32;

    ghost seen = { λ x. x.number };
}

// Leads from a grant to one of half its number and to one of its number.
#[derive(Drop)]
struct Halves {
    alloc: Global,
}

impl Follow for Halves {
    type In = Grant;

    type Out = Option<Listed<Grant>>;

    ghost means = { λ _ n. meets (n / 2) ∷ meets n ∷ [] };

    ghost takes = { λ _ _. Unit {0} };

    ghost leads = { λ _ _. Unit {0} };

    fn follow(&self, item: &Grant) -> Mem<Option<Listed<Grant>>> {
        let mut found = Vec::with_capacity(self.alloc, 2)?;
        let how = vec![in self.alloc; item.number]?;
        found.push(Grant {
            number: item.number / 2,
            how,
        })?;
        found.push(Grant {
            number: item.number,
            how: Vec::new(self.alloc),
        })?;
        Ok(Some(Listed::new(found)))
    }
}

// Leads from a number to the next one, where that fits.
#[derive(Drop)]
struct Upward {
    alloc: Global,
}

impl Follow for Upward {
    type In = u32;

    type Out = Option<Listed<u32>>;

    ghost means = { λ _ n. if nat_eq n 4294967295 then passes too_large ∷ [] else meets (n + 1) ∷ [] };

    ghost takes = { λ _ _. Unit {0} };

    ghost leads = { λ _ _. Unit {0} };

    fn follow(&self, item: &u32) -> Mem<Option<Listed<u32>>> {
        if *item == 4_294_967_295 {
            return Err(Want::Number);
        }
        Ok(Some(Listed::new(vec![in self.alloc; *item + 1]?)))
    }
}

// The grants that halves lead to, from the second list where the first gives none of `count`, and from the third.
fn halved<L: Ledger>(
    alloc: Global,
    lists: (Vec<Grant>, Vec<Grant>, Vec<Grant>),
    count: u32,
    steps: &mut Steps<L>,
) -> Mem<Vec<Grant>>
    ensures { IfOk result (λ found. map (λ x. x.number) found.items
        ≡ leaves_in (bound (either (cut count (listed (λ x. x.number) lists.0.items)) (listed (λ x. x.number) lists.1.items) ++ listed (λ x. x.number) lists.2.items)
        (λ n. meets (n / 2) ∷ meets n ∷ []))) }
{
    let (first, second, third) = lists;
    let either = OrElse::new(Take::new(Listed::new(first), count), Listed::new(second));
    let mut sequence = Bind::new(Append::new(either, Listed::new(third)), Halves { alloc });
    gathered(alloc, &mut sequence, steps)
}

// The same, with a count of its own.
fn counted<L: Ledger>(
    alloc: Global,
    blank: Blank,
    lists: (Vec<Grant>, Vec<Grant>, Vec<Grant>),
    count: u32,
) -> Mem<Vec<Grant>>
    requires name { blank.name ≡ L.name }
    requires parts { blank.parts ≡ L.parts }
    requires some { 0 < L.parts }
{
    let mut steps = Steps::<L>::new(blank);
    halved(alloc, lists, count, &mut steps)
}

// The number after each, with a count of its own.
fn next_ones<L: Ledger>(alloc: Global, blank: Blank, numbers: Vec<u32>) -> Mem<Vec<u32>>
    requires name { blank.name ≡ L.name }
    requires parts { blank.parts ≡ L.parts }
    requires some { 0 < L.parts }
{
    let mut steps = Steps::<L>::new(blank);
    let mut sequence = Bind::new(Listed::new(numbers), Upward { alloc });
    gathered(alloc, &mut sequence, &mut steps)
}

fn grants(rt: &impl Abort, alloc: Global, numbers: &[u32]) -> Vec<Grant> {
    let mut found = Vec::with_capacity(alloc, numbers.len()).expect(rt, "memory");
    for number in numbers {
        found
            .push(Grant {
                number: *number,
                how: Vec::new(alloc),
            })
            .expect(rt, "memory");
    }
    found
}

fn are(rt: &impl Abort, found: Mem<Vec<Grant>>, expected: &[u32]) {
    let found = found.expect(rt, "memory");
    assert_eq!(rt; found.len(), expected.len());
    for (grant, number) in found.iter().zip(expected) {
        assert_eq!(rt; grant.number, *number);
    }
}

#[test]
fn grants_are_seen_by_their_numbers(rt: HostRuntime) {
    let alloc = rt.alloc();
    for (first, count, expected) in [
        ([9, 7].as_slice(), 0, [4, 8, 3, 6, 2, 5].as_slice()),
        ([9, 7].as_slice(), 1, [4, 9, 2, 5].as_slice()),
        ([9, 7].as_slice(), 5, [4, 9, 3, 7, 2, 5].as_slice()),
        ([].as_slice(), 5, [4, 8, 3, 6, 2, 5].as_slice()),
    ] {
        let lists = (
            grants(&rt, alloc, first),
            grants(&rt, alloc, &[8, 6]),
            grants(&rt, alloc, &[5]),
        );
        are(
            &rt,
            counted::<Brand>(alloc, Blank::new(1), lists, count),
            expected,
        );
    }
}

#[test]
fn a_number_too_large_is_told(rt: HostRuntime) {
    let alloc = rt.alloc();
    let numbers = vec![in alloc; 4u32, 4_294_967_294].expect(&rt, "memory");
    let found = next_ones::<Brand>(alloc, Blank::new(1), numbers).expect(&rt, "memory");
    assert_eq!(rt; found.as_slice(), [5, 4_294_967_295].as_slice());
    let numbers = vec![in alloc; 4u32, 4_294_967_295].expect(&rt, "memory");
    let found = next_ones::<Brand>(alloc, Blank::new(1), numbers);
    assert!(rt; matches!(found, Err(Want::Number)));
}

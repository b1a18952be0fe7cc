ghost use Rattle.std.specs.Prelude.{◌≡◌, ◌≤◌, ◌+◌, Err, [], IfOk, OnOk, true, map};
ghost use Rattle.std.specs.List.{All};
ghost use Rattle.iv_text.specs.declared.want.Want.TheVariants.{Number};
ghost use Rattle.iv_seq.specs.Moments.{leaves_in, work_in, has_large};

use crate::lazy::LazySeq;
use crate::steps::Steps;
use iv_text::Mem;
use std::alloc::Global;
use std::sync::ledger::Ledger;

/// All leaves that are left of `sequence`, in order. Fails by `Memory` for want of memory, and by `Number`
/// only where the search makes too large a number; the leaves that were pulled before are then lost.
/// Ticks at most as often as there is work in the search, whatever comes.
pub fn gathered<S: LazySeq, L: Ledger>(
    alloc: Global,
    sequence: &mut S,
    steps: &mut Steps<L>,
) -> Mem<Vec<S::Item>>
    ensures leaves { IfOk result (λ found. map S.Item.seen found.items ≡ leaves_in (S.search sequence.old)) }
    ensures fits { IfOk result (λ found. All (λ x. ∥ S.fits sequence.old x ∥₁) found.items) }
    ensures over { OnOk result (S.search sequence.new ≡ []) }
    ensures cost { steps.new ≤ steps.old + work_in (S.search sequence.old) }
    ensures number { result ≡ Err Number → has_large (S.search sequence.old) ≡ true }
{
    let mut found = Vec::new(alloc);
    while let Some(leaf) = sequence.pull(steps)? {
        found.push(leaf)?;
    }
    Ok(found)
}

//! Outcomes of calls that may have failed, put together.
ghost use Rattle.std.specs.Prelude.{◌≡◌, ◌⊎◌, IfOk, IfErr, Ok, Err};

use iv_text::Mem;

/// The values of both, or what the first that failed lacks. Where parts come this way, a caller has nothing to drop where one
/// of them fails.
pub fn both<A: Drop, B: Drop>(first: Mem<A>, second: Mem<B>) -> Mem<(A, B)>
    ensures first { IfOk result (λ r. first ≡ Ok r.0) }
    ensures second { IfOk result (λ r. second ≡ Ok r.1) }
    ensures lacks { IfErr result (λ w. (first ≡ Err w) ⊎ (second ≡ Err w)) }
{
    let a = first?;
    let b = second?;
    Ok((a, b))
}

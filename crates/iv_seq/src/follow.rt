ghost use Rattle.std.specs.Prelude.{◌≡◌, Err, IfOk, List, true};
ghost use Rattle.iv_text.specs.declared.want.Want.TheVariants.{Number};
ghost use Rattle.iv_seq.specs.Moments.{Moment, large_first};
ghost use Rattle.iv_seq.specs.Pull.{Within};

use crate::lazy::LazySeq;
use crate::seen::Seen;
use iv_text::Mem;

/// A function from items to searches, each given as a sequence. The search goes by what is seen of the item.
pub trait Follow: Drop {
    /// What it is asked about.
    type In: Drop + Seen;

    /// The sequences that it gives.
    type Out: LazySeq;

    // the search that an item leads to
    ghost means: { Self → Self.In.Sight → List (Moment Self.Out.Item.Sight) };

    // the items that it takes
    ghost takes: { Self → Self.In → Type 0 };

    // what holds of each item that it leads to
    ghost leads: { Self → Self.Out.Item → Type 0 };

    /// A sequence that stands for what `item` leads to. Fails by `Memory` for want of memory, and by
    /// `Number` only where a number is too large before the first leaf of that search.
    fn follow(&self, item: &Self::In) -> Mem<Self::Out>
        requires { ∥ takes self.now item.now ∥₁ }
        ensures means { IfOk result (λ out. Self.Out.search out ≡ means self.now (Self.In.seen item.now)) }
        ensures leads { IfOk result (λ out. Within (Self.Out.fits out) (leads self.now)) }
        ensures number { result ≡ Err Number → large_first (means self.now (Self.In.seen item.now)) ≡ true };
}

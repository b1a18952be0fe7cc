use crate::seen::Seen;

/// What a step comes to: a result, or a place to go on from.
#[derive(Drop)]
pub enum Next<X, Y> {
    /// It is done, with a result.
    Done(Y),
    /// It goes on from here.
    On(X),
}

/// What is seen of its parts is seen of it.
impl<X: Seen, Y: Seen> Seen for Next<X, Y> {
    ghost use Rattle.iv_seq.specs.Unfold.{next_seen};

    type Sight = Next<X::Sight, Y::Sight>;

    ghost seen = { λ v. next_seen X.seen Y.seen v };
}

/// An item that says whether it is a result, or a place to go on from.
pub trait Outcome: Drop + Seen {
    ghost use Rattle.std.specs.Prelude.{◌≡◌};
    ghost use Rattle.iv_seq.specs.declared.next.Next.{Next};
    ghost use Rattle.iv_seq.specs.Unfold.{next_seen};

    /// Where a step may begin.
    type On: Drop + Seen;

    /// What it may end in.
    type Done: Drop + Seen;

    // what it comes to
    ghost becomes: { Self → Next Self.On Self.Done };

    // and what is seen of that, from what is seen of it
    ghost shows: { Self.Sight → Next Self.On.Sight Self.Done.Sight };

    /// Tells which it is. Takes no memory.
    fn open(self) -> Next<Self::On, Self::Done>
        ensures becomes { result ≡ becomes self }
        ensures shows { next_seen Self.On.seen Self.Done.seen result ≡ shows (Self.seen self) };
}

/// It is what it says.
impl<X: Drop + Seen, Y: Drop + Seen> Outcome for Next<X, Y> {
    type On = X;

    type Done = Y;

    ghost becomes = { λ v. v };

    ghost shows = { λ v. v };

    fn open(self) -> Next<X, Y> {
        self
    }
}

/// An item, of which searches speak by what is seen of it. What it keeps beside that, as how it was found, is
/// its own.
pub trait Seen {
    /// What is seen of it, as a type. No value of it need exist while a program runs.
    type Sight;

    // what is seen of a value
    ghost seen: { Self → Self.Sight };
}

/// A number is seen whole.
impl Seen for u32 {
    type Sight = u32;

    ghost seen = { λ x. x };
}

/// A number is seen whole.
impl Seen for u64 {
    type Sight = u64;

    ghost seen = { λ x. x };
}

/// A pair is seen by its parts.
impl<A: Seen, B: Seen> Seen for (A, B) {
    type Sight = (A::Sight, B::Sight);

    ghost seen = { λ x. (A.seen x.0, B.seen x.1) };
}

/// What a box holds is seen through it.
impl<T: Seen> Seen for Box<T> {
    type Sight = T::Sight;

    ghost seen = { λ x. T.seen x.value };
}

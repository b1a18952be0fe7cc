use crate::instance::Instance;
use iv_shared::Shared;
use iv_term::{Term, Typ};
use iv_text::{Name, Text};

/// A derivation: a tree with a rule and its arguments at each node, and a derivation for each premise.
#[derive(Drop)]
pub enum Derivation {
    /// A declared axiom: its name and its proposition.
    Axiom(Text, Term),
    /// A proposition that is assumed.
    Assume(Term),
    /// A hypothesis that is discharged into a premise.
    ImpIntr(Term, Shared<Derivation>),
    /// An implication, and its premise.
    ImpElim(Shared<Derivation>, Shared<Derivation>),
    /// A free variable that `!!` binds.
    AllIntr(Name, Typ, Shared<Derivation>),
    /// A term for what `!!` binds.
    AllElim(Term, Shared<Derivation>),
    /// A term that is equal to itself.
    Refl(Term),
    /// An equation, turned round.
    Sym(Shared<Derivation>),
    /// Two equations, one after the other.
    Trans(Shared<Derivation>, Shared<Derivation>),
    /// An equation of functions, and one of their arguments.
    Comb(Shared<Derivation>, Shared<Derivation>),
    /// A free variable that both sides of an equation abstract over.
    Abs(Name, Typ, Shared<Derivation>),
    /// Two implications, one the other way round.
    EqIntr(Shared<Derivation>, Shared<Derivation>),
    /// An equation of propositions, and its left side.
    EqElim(Shared<Derivation>, Shared<Derivation>),
    /// A proposition that has the same form with each `!!` in front.
    Conv(Term, Shared<Derivation>),
    /// Types and terms put for variables.
    Inst(Instance, Shared<Derivation>),
}

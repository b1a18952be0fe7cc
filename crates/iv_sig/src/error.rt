use iv_text::{Text, Want};

/// Why something isn't declared.
#[derive(Drop)]
pub enum SigError {
    /// The name is there.
    Duplicate(Text),
    /// The symbol is a delimiter, or that of another notation.
    SecondFixity(Text),
    /// There is a judgment.
    SecondJudgment,
    /// The type isn't `T => prop`, with a `T` without type variables.
    BadJudgment,
    /// The term isn't of type `prop`, or has a loose index or a free variable.
    BadAxiom,
    /// Memory, or room in a count of owners, ran out.
    Memory,
}

impl From<Want> for SigError {
    ghost use Rattle.std.specs.Prelude.{◌≡◌};
    ghost use Rattle.iv_sig.specs.declared.error.SigError.TheVariants.{Memory};

    ghost from_gives = { λ _ e. e ≡ Memory };

    /// Declarations make no number, so memory is all that they may lack.
    fn from(_lack: Want) -> SigError {
        SigError::Memory
    }
}

use iv_text::Want;

/// Why two types weren't unified.
#[derive(Clone, Copy, Debug, PartialEq, Eq)]
pub enum NoUnify {
    /// No substitution makes them equal.
    Clash,
    /// Memory, or room in a count of owners, ran out.
    Memory,
}

impl From<Want> for NoUnify {
    ghost use Rattle.std.specs.Prelude.{◌≡◌};
    ghost use Rattle.iv_subst.specs.declared.no_unify.NoUnify.TheVariants.{Memory};

    ghost from_gives = { λ _ e. e ≡ Memory };

    /// Unification makes no number, so memory is all that it may lack.
    fn from(_lack: Want) -> NoUnify {
        NoUnify::Memory
    }
}

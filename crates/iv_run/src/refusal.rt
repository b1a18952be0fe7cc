ghost use Rattle.std.specs.Prelude.{◌≡◌};
ghost use Rattle.iv_run.specs.Refusal.{place_of};

use iv_text::{Pos, Text, Want};

/// The mode of the machine, which decides which commands it takes.
#[derive(Clone, Copy, Debug, PartialEq, Eq)]
pub enum Mode {
    /// Nothing was read yet.
    Start,
    /// Outside of proofs.
    Theory,
    /// Inside a proof.
    Prove,
    /// Behind `end`.
    Ended,
}

/// Why a command was refused.
#[derive(Drop)]
pub enum Refusal {
    /// No form goes on at this place, or what begins there isn't built.
    Syntax(Pos),
    /// The machine takes no such command in this mode.
    Mode(Mode),
    /// It declares this name, which is there, or imports it, which isn't.
    Name(Text),
    /// No premise is the conclusion.
    Empty,
    /// Memory ran out.
    Memory,
    /// A number of 4,294,967,295 or more was to be made.
    Number,
}

impl Refusal {
    /// Its own place, or `at` where it has none.
    pub fn place_or(&self, at: Pos) -> Pos
        ensures { result ≡ place_of at self.now }
    {
        match self {
            Refusal::Syntax(own) => *own,
            _ => at,
        }
    }
}

impl From<Want> for Refusal {
    ghost use Rattle.std.specs.Prelude.{◌≡◌};
    ghost use Rattle.iv_run.specs.Refusal.{refusal_for};

    ghost from_gives = { λ w r. r ≡ refusal_for w };

    fn from(want: Want) -> Refusal {
        match want {
            Want::Memory => Refusal::Memory,
            Want::Number => Refusal::Number,
        }
    }
}

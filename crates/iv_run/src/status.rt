ghost use Rattle.std.specs.Prelude.{◌≡◌};
ghost use Rattle.iv_run.specs.Answer.{code_of, without_memory};

/// How a run ended.
#[derive(Clone, Copy, Debug, PartialEq, Eq)]
pub enum Status {
    /// Every command was accepted, and the last one was `end`.
    Done,
    /// A command was refused, or `end` is missing.
    Refused,
    /// The words of the command line are no command.
    Usage,
    /// Memory ran out.
    Memory,
    /// The source failed.
    ReadFault,
    /// The sink failed.
    WriteFault,
    /// The document has more than 4,194,304 bytes.
    TooLarge,
    /// A number of 4,294,967,295 or more was to be made.
    Number,
}

impl Status {
    /// The program's exit status.
    pub fn code(self) -> u8
        ensures { result ≡ code_of self }
    {
        match self {
            Status::Done => 0,
            Status::Refused => 1,
            Status::Usage => 2,
            Status::Memory => 3,
            Status::ReadFault => 4,
            Status::WriteFault => 5,
            Status::TooLarge => 6,
            Status::Number => 7,
        }
    }

    /// The answer where memory runs out after the run: a run that was cut short keeps its cause.
    pub fn without_memory(self) -> Status
        ensures { result ≡ without_memory self }
    {
        match self {
            Status::Done => Status::Memory,
            Status::Refused => Status::Memory,
            other => other,
        }
    }
}

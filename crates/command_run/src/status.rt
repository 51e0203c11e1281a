//! The end of a run.

/// The exit status of the program.
#[derive(Clone, Copy, Debug, PartialEq, Eq)]
pub enum Status {
    /// 0: the command is done.
    Done,
    /// 1: the answer of the verification is no.
    No,
    /// 2: the arguments are invalid.
    BadArguments,
    /// 3: an input is rejected, or is longer than the limit.
    Refused,
    /// 4: a call of the host failed.
    Failed,
    /// 5: out of memory.
    NoMemory,
}

impl Status {
    ghost use Rattle.std.specs.Prelude.{◌≡◌};
    ghost use Rattle.command_run.specs.Status.{code_of};

    /// Returns the exit status as a number.
    pub fn code(self) -> u8
        ensures { result ≡ code_of self }
    {
        match self {
            Status::Done => 0,
            Status::No => 1,
            Status::BadArguments => 2,
            Status::Refused => 3,
            Status::Failed => 4,
            Status::NoMemory => 5,
        }
    }
}

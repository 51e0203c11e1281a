//! The result of a command, in memory.
ghost use Rattle.std.specs.Prelude.{◌≡◌, ℕ};
ghost use Rattle.command_run.specs.Answers.{invalid};
ghost use Rattle.command_run.specs.Replies.{line_bytes, answer_of};
ghost use Rattle.command_run.specs.declared.reply.Stop.TheVariants as stops;

use crate::status::Status;
use std::alloc::{AllocError, Global};

/// The line that is printed last.
#[derive(Drop)]
pub enum Line {
    /// A line without numbers.
    Fixed(&'static [u8]),
    /// A line that was made in memory.
    Made(Vec<u8>),
}

impl Line {
    /// Returns the bytes of the line.
    pub fn as_bytes(&self) -> &[u8]
        ensures { result.now ≡ line_bytes self.now }
    {
        match self {
            Line::Fixed(bytes) => bytes,
            Line::Made(bytes) => bytes,
        }
    }
}

/// A text to be written to the file of this name.
#[derive(Drop)]
pub struct Text<'a> {
    /// The name of the file.
    pub name: &'a str,
    /// Its bytes.
    pub bytes: Vec<u8>,
}

/// The result of a command.
#[derive(Drop)]
pub struct Reply<'a> {
    /// The exit status if every call succeeds.
    pub status: Status,
    /// The texts to write, in order.
    pub texts: Vec<Text<'a>>,
    /// The line to print after them.
    pub line: Line,
}

/// Why a command has no result.
#[derive(Clone, Copy, Debug, PartialEq, Eq)]
pub enum Stop {
    /// A call of the host failed.
    Failed,
    /// Out of memory.
    NoMemory,
}

impl From<AllocError> for Stop {
    ghost from_gives = { λ _ stop. stop ≡ stops.NoMemory };

    fn from(_: AllocError) -> Self {
        Stop::NoMemory
    }
}

/// Returns the reply to an invalid input: no file is written, and this line is printed.
pub fn invalid_input<'a>(alloc: Global, line: Line) -> Reply<'a>
    ensures { (reads : ℕ) → answer_of reads result ≡ invalid reads (line_bytes line) }
{
    Reply {
        status: Status::Refused,
        texts: Vec::new(alloc),
        line,
    }
}

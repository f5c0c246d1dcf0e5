//! How a call of the program ends, and what it says where it ends without an answer.

ghost use Rattle.std.specs.Prelude.{◌≡◌};

use crate::stops::Stop;

/// How the program ends. The numbers are the exit statuses.
#[derive(Clone, Copy, Debug, PartialEq, Eq)]
pub enum Status {
    /// The whole answer was written.
    Done = 0,
    /// The words spell no command.
    Words = 1,
    /// A file is over its limit, or what it holds is refused.
    Refused = 2,
    /// The budget does not suffice.
    More = 3,
    /// The run has a fault.
    Fault = 4,
    /// A file could not be read.
    ReadFault = 5,
    /// The answer could not be written whole.
    WriteFault = 6,
    /// An allocation was refused.
    Memory = 7,
}

/// Why a command has no answer. The names of files are lent from the words.
#[derive(Debug, Drop)]
pub enum Refusal<'a> {
    /// More bytes than the file may have.
    TooLong { file: &'a [u8], seen: u64 },
    ReadFault { file: &'a [u8] },
    Stop(Stop),
}

impl Refusal<'_> {
    ghost use Rattle.cx_commands.specs.Statuses.{status_of};

    /// The status with which the program ends.
    pub fn status(&self) -> Status
        ensures { result ≡ status_of self.now }
    {
        match self {
            Refusal::TooLong { .. }
            | Refusal::Stop(Stop::Rule(_) | Stop::Verilog(_) | Stop::Json(_)) => { Status::Refused }
            Refusal::Stop(Stop::More(_)) => Status::More,
            Refusal::Stop(Stop::Fault { .. } | Stop::Loop(_)) => Status::Fault,
            Refusal::ReadFault { .. } => Status::ReadFault,
            Refusal::Stop(Stop::Memory) => Status::Memory,
        }
    }
}

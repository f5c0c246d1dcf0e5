//! Why a command on texts gave no answer.

use cx_data::DataFault;
use cx_meaning::FaultKind;
use cx_text::{Diagnostic, Memory, Name};
use cx_vread::ReadRefusal;

/// Why a command on texts gave no answer.
#[derive(Debug, Drop)]
pub enum Stop {
    /// The design breaks a rule.
    Rule(Diagnostic),
    /// The Verilog text is refused. It is never for want of memory.
    Verilog(ReadRefusal),
    /// The data file is refused. It is never for want of memory.
    Json(DataFault),
    /// The run needs more turns or cycles than this budget.
    More(u64),
    /// The run meets a fault: its port as messages name it from main on, and its turn, counted from 0.
    Fault {
        kind: FaultKind,
        path: Name,
        turn: u64,
    },
    /// The net of this path has no value.
    Loop(Name),
    /// An allocation was refused.
    Memory,
}

impl From<Memory> for Stop {
    ghost use Rattle.std.specs.Prelude.{◌≡◌};
    ghost use Rattle.cx_commands.specs.declared.stops.Stop.TheVariants.{Memory as OutOfMemory};

    ghost from_gives = { λ _ stop. stop ≡ OutOfMemory };

    fn from(_memory: Memory) -> Stop {
        Stop::Memory
    }
}

//! What is wrong with a data file.

use cx_text::{Memory, Name};
use std::alloc::{AllocError, AllocFailed};

/// The first fault of a data file, over the external memories in their order. A name is that of the memory.
#[derive(Debug, Drop)]
pub enum DataFault {
    /// The bytes are no JSON text, or its top is no object.
    NotJson,
    /// The top has no member of this name.
    Missing(Name),
    /// The member is no object with `data` and a `format` that has the three keys of the right kinds and `bitnum`.
    BadFormat(Name),
    /// The width of the format is not that of the memory.
    WidthDiffers(Name),
    /// The nesting or a length of `data` is not that of the memory, or an element is no number.
    BadShape(Name),
    /// The number at this row-major index, from 0, is no integer of the memory's range.
    OutOfRange(Name, u64),
    /// An allocation was refused.
    Memory,
}

impl From<Memory> for DataFault {
    ghost use Rattle.std.specs.Prelude.{◌≡◌};
    ghost use Rattle.cx_data.specs.declared.faults.DataFault.TheVariants.{Memory as OutOfMemory};

    ghost from_gives = { λ _ fault. fault ≡ OutOfMemory };

    fn from(_memory: Memory) -> DataFault {
        DataFault::Memory
    }
}

impl From<AllocError> for DataFault {
    ghost use Rattle.std.specs.Prelude.{◌≡◌};
    ghost use Rattle.cx_data.specs.declared.faults.DataFault.TheVariants.{Memory as OutOfMemory};

    ghost from_gives = { λ _ fault. fault ≡ OutOfMemory };

    fn from(_e: AllocError) -> DataFault {
        DataFault::Memory
    }
}

impl<T: Drop> From<AllocFailed<T>> for DataFault {
    ghost use Rattle.std.specs.Prelude.{◌≡◌};
    ghost use Rattle.cx_data.specs.declared.faults.DataFault.TheVariants.{Memory as OutOfMemory};

    ghost from_gives = { λ _ fault. fault ≡ OutOfMemory };

    fn from(_e: AllocFailed<T>) -> DataFault {
        DataFault::Memory
    }
}

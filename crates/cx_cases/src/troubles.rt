//! Why a case could not be run.

use cx_text::Memory;
use serde_json::Error;
use std::alloc::{AllocError, AllocFailed};

/// Why a case could not be run.
#[derive(Clone, Copy)]
pub(crate) enum Trouble {
    /// An allocation was refused.
    Memory,
    /// The line has not the form of a case.
    Form,
}

impl Trouble {
    pub(crate) fn text(self) -> &'static str {
        match self {
            Trouble::Memory => "no memory",
            Trouble::Form => "no case",
        }
    }
}

impl From<AllocError> for Trouble {
    fn from(_e: AllocError) -> Trouble {
        Trouble::Memory
    }
}

impl<T: Drop> From<AllocFailed<T>> for Trouble {
    fn from(_e: AllocFailed<T>) -> Trouble {
        Trouble::Memory
    }
}

impl From<Memory> for Trouble {
    fn from(_e: Memory) -> Trouble {
        Trouble::Memory
    }
}

impl From<Error> for Trouble {
    fn from(e: Error) -> Trouble {
        if e.is_memory() {
            Trouble::Memory
        } else {
            Trouble::Form
        }
    }
}

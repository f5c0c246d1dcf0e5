//! What a check of a design answers where it does not accept it.

use cx_text::{Diagnostic, Memory};
use std::alloc::{AllocError, AllocFailed};

/// Why a design is not accepted: it breaks a rule, or there is no memory to tell.
#[derive(Debug, Drop)]
pub enum Refusal {
    Rule(Diagnostic),
    Memory,
}

impl From<Memory> for Refusal {
    fn from(_e: Memory) -> Refusal {
        Refusal::Memory
    }
}

impl From<AllocError> for Refusal {
    fn from(_e: AllocError) -> Refusal {
        Refusal::Memory
    }
}

impl<T: Drop> From<AllocFailed<T>> for Refusal {
    fn from(_e: AllocFailed<T>) -> Refusal {
        Refusal::Memory
    }
}

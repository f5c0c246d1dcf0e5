//! The primitives with a state: register, timer, memories and pipes.
#![tactic(auto)]

mod divider;
mod layout;
mod memory;
mod multiplier;
mod register;
mod run;
mod sequential;
mod timer;

pub use divider::{Divider, DividerState};
pub use layout::Layout;
pub use memory::{CombinationalMemory, MemoryState};
pub use multiplier::{Multiplier, MultiplierState};
pub use register::{Register, RegisterState};
pub use run::Run;
pub use sequential::{SequentialMemory, SequentialState};
pub use timer::{Timer, TimerState};

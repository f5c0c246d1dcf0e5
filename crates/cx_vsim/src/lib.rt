//! The simulator: runs a Verilog source from reset, by its numbered machine.
#![tactic(auto)]

mod answers;
mod arrays;
mod driving;
mod facts;
mod loading;
mod machines;
mod nets;
mod numbers;
mod ordering;
mod place_laws;
mod sim_laws;
mod simulating;
mod stepping;
mod tables;
mod telling;
mod unloading;
mod words;

pub use answers::SimAnswer;
pub use arrays::external_arrays;
pub use facts::{memories_stand, trees_can_be_built};
pub use machines::{Built, machine};
pub use nets::instance_of;
pub use sim_laws::source_is_sound;
pub use simulating::{Sim, SimRan};
pub use words::{read_words, write_words};

//! Verilog sources of nets.
#![tactic(auto)]

mod cells;
mod components;
mod driven;
mod emitting;
mod exprs;
mod externals;
mod folding;
mod kept;
mod laws;
mod names;
mod primitives;
mod signatures;

pub use emitting::emit;
pub use laws::{edges_carry, names_tell_primitives, source_is_sound, source_runs_as, values_carry};

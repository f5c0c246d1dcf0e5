//! Reads the text of a Verilog source of the subset that `sim` runs, or tells the line and the kind of what it
//! breaks.
#![tactic(auto)]

mod astray;
mod edges;
mod externals;
mod finishing;
mod instances;
mod laws;
mod lines;
mod modules;
mod reading;
mod refusals;

pub use externals::read_externals;
pub use laws::sound_is_held;
pub use modules::read_modules;
pub use reading::read;
pub use refusals::ReadRefusal;

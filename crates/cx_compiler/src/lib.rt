//! From the text of a design to its Verilog text and its net, and the promise that the Verilog text keeps.
#![tactic(auto)]

mod accepting;
mod compiling;
pub mod flat_laws;
pub mod instrumented_laws;
pub mod laws;
mod nets;

pub use accepting::{accepted_design, check_text, design_to_run, tried};
pub use compiling::{compile, compile_accepted, compile_design};
pub use nets::{DesignNet, net_of};

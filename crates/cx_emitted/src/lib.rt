//! What holds of the Verilog that the passes emit of a design: its runs from any power-up state, scripts of waiting
//! and running, and its bytes.
#![tactic(auto)]

pub mod byte_laws;
pub mod power_laws;
pub mod script_laws;

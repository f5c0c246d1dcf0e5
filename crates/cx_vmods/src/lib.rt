//! The Verilog module of each primitive.
#![tactic(auto)]

mod addresses;
mod built;
mod combinational;
mod counting;
mod divider;
mod exprs;
mod laws;
mod memory;
mod multiplier;
mod names;
mod parts;
mod pieces;
mod register;
mod rows;
mod spelling;
mod timer;
mod widths;

pub use built::Built;
pub use laws::each_is_built;

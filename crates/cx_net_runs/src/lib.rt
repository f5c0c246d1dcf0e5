//! Nets that are run, edge by edge. A net is run as its Verilog source is.
#![tactic(auto)]

mod cycles;
mod edges;
mod states;

pub use states::NetState;

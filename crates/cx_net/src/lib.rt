//! Nets between designs and Verilog: guarded drivers over cells, registers and wires, in a tree of instances.
#![tactic(auto)]

mod components;
mod drivers;
mod exprs;
mod laws;
mod nets;

pub use components::NetComponent;
pub use drivers::{NetDriver, NetTarget};
pub use exprs::NetExpr;
pub use laws::no_cell_leads_back;
pub use nets::Net;

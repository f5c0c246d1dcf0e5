//! The Verilog subset: its tree, what it means, and the sources that keep every rule of it.
#![tactic(auto)]

mod exprs;
mod externals;
mod laws;
mod meanings;
mod modules;
mod operators;
mod sources;

pub use exprs::Expr;
pub use externals::External;
pub use laws::{one_outcome, one_value, ranked};
pub use meanings::Meaning;
pub use modules::{Conn, Decl, Edge, EdgeItem, Instance, Module, ModulePort, NetAssign};
pub use operators::Operator;
pub use sources::Source;

//! Reads the words, numbers and expressions of a Verilog text.
#![tactic(auto)]

mod deep;
mod exprs;
mod faults;
mod names;
mod numbers;
mod operators;
mod passing;
mod places;

pub use exprs::whole_expr;
pub use faults::Fault;
pub use names::{name, word};
pub use numbers::{any_number, bounds, small};
pub use passing::pass_expr;
pub use places::{ReadPoint, begins, expect};

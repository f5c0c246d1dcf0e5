//! Copies of a tree's parts, as they are or with other names of cells.
#![tactic(auto)]

mod control;
mod copies;
mod guards;
mod names;
mod operands;
mod parts;
mod wires;

pub use control::{named_block, named_statement};
pub use copies::{
    copied_assign, copied_block, copied_component, copied_form, copied_group, copied_statement,
    copied_statements, copied_tree, copied_wires,
};
pub use names::{CellNames, SameNames};
pub use operands::named_operand;
pub use parts::{
    copied_attributes, copied_cell, copied_cells, copied_imports, copied_marks, copied_name,
    copied_option, copied_ports,
};
pub use wires::named_wires;

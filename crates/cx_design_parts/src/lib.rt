//! The parts of a design in the order in which rules speak of them, their ports as code, and the first break of a stage.
#![tactic(auto)]

mod breaks;
mod cells;
mod control;
pub mod first_laws;
mod guards;
mod keys;
mod names;
mod ordering;
pub mod output_laws;
mod output_sides;
mod parts;
mod sides;
mod widths;

pub use breaks::{Break, FirstBreak, Part, Spot};
pub use cells::{At, component, stands_at};
pub use control::{Context, Visited, statements, test};
pub use guards::{Pair, Range, atoms, comparisons, operands, ranges};
pub use names::{cell_name, group_name, group_of, path};
pub use ordering::{OwnedAssign, source_order};
pub use output_sides::{read_count, side};
pub use parts::{PartPort, part_port};
pub use sides::{is_part_port, is_primitive_enable, is_source_only, is_target_only};
pub use widths::{keeps_literal, width, written_width};

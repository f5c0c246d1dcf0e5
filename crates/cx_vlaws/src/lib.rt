//! What a sound Verilog source keeps, for each instance of its tree.
#![tactic(auto)]

mod counts;
mod edges;
mod main_module;
mod meanings;
mod memories;
mod names;
mod origins;

pub use counts::{arrays_have_words, counts_are_bounded, counts_go_by_instances};
pub use edges::{sets_are_of_registers, stores_are_of_arrays};
pub use main_module::{clock_is_unread, main_comes_first};
pub use meanings::{
    expressions_are_bounded, meant_is_there, names_stand_for_their_parts, widths_are_bounded,
};
pub use memories::{externals_are_apart, externals_are_memories};
pub use names::{modules_have_names, names_are_apart};
pub use origins::{
    assigned_are_given, connections_are_of_ports, driven_nets_have_drivers, inputs_are_tied,
    inputs_of_main_are_outside, instances_are_held, nets_have_origins, outputs_are_tied,
    registers_are_held,
};

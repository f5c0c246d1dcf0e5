//! Counts over a design: lengths and occurrences of static control, sizes of components, their order, and tallies
//! over the tree of instances.
#![tactic(auto)]

mod context;
mod islands;
mod order;
mod sizes;
mod tallies;
mod words;

pub use context::{LimitContext, below_dynamic};
pub use islands::{form_length, form_occurrences, group_length, is_island_form, length_of};
pub use order::children_first;
pub use sizes::{assigns_size, component_size, design_size, groups_size};
pub use tallies::{LimitTally, component_tallies, tree_tally};

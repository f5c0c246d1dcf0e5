//! What the names of a tree stand for.
#![tactic(auto)]

mod index;
mod kinds;
mod numbers;
mod rows;
mod scopes;
mod words;

pub use index::{Groups, Index, PartIndex};
pub use kinds::CellKind;
pub use numbers::Numbers;
pub use rows::{go_name, has_output, has_port, primitive_row};
pub use scopes::Scope;
pub use words::{is_named, is_own_name};

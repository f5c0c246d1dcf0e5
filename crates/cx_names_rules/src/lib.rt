//! The rules on names of a design's text.
#![tactic(auto)]

mod assigns;
mod duplicates;
mod found;
mod guards;
mod invokes;
mod laws;
mod operands;
mod paths;
mod ports;
mod statements;
mod targets;

pub use assigns::component_assigns;
pub use duplicates::{cell_duplicates, component_duplicates, group_duplicates, port_duplicates};
pub use found::{keep, tell_if};
pub use laws::kept_is_first;
pub use ports::{is_main, signature_ports};
pub use statements::component_statements;

//! The nets of a source by number: codes, one cycle, and runs from reset.
#![tactic(auto)]

mod arrays;
mod behind;
mod carriers;
mod code_laws;
mod codes;
mod edges;
mod flat_laws;
mod gates;
mod machines;
mod marks;
mod module_codes;
mod nets;
mod numbers;
mod operators;
mod ranks;
mod readers;
mod run_edges;
mod run_laws;
mod runs;
mod search;
mod spans;
mod stale;
mod stores;
mod sweep;
mod value_laws;
mod values;
mod watches;

pub use arrays::Words;
pub use carriers::Carriers;
pub use code_laws::{code_widths, names_have_numbers};
pub use codes::{Code, NetPosition};
pub use edges::{Set, set_registers};
pub use flat_laws::{
    all_are_nets, edges_are_same, loops_are_same, runs_are_same, values_are_same, wholes_are_same,
};
pub use machines::{Bench, Machine};
pub use marks::NetMark;
pub use module_codes::code;
pub use nets::{Driver, Nets, Stored};
pub use numbers::ModuleNumbers;
pub use readers::{Readers, readers_of};
pub use run_edges::{edge, reset_edge};
pub use run_laws::machines_stay_ready;
pub use runs::{RunAnswer, run};
pub use search::settle;
pub use spans::{Span, Spans};
pub use stores::{Store, Write, look_at_stores, store_words};
pub use value_laws::codes_have_widths;
pub use watches::Watches;

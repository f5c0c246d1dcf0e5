//! The data file, which gives the external memories their words, and the dump of the words at the end of a run.
#![tactic(auto)]

mod dumping;
mod entries;
mod faults;
mod lists;
mod loading;
mod numbers;

pub use dumping::dump;
pub use faults::DataFault;
pub use loading::load;

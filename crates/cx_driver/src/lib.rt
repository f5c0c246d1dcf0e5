//! The top call: from the words of a command line and the files that they name to what is written.
#![tactic(auto)]

mod counted;
mod counting;
mod faults;
mod instrumenting;
mod interpreting;
mod memories;
mod placing;
mod profiling;
mod promoting;
mod running;
mod sharing;
mod simulating;
mod totals;
mod trying;
mod weaving;

pub use cx_commands::{Status, Stop};
pub use instrumenting::instrument;
pub use interpreting::interp;
pub use profiling::profile;
pub use promoting::promote;
pub use running::run;
pub use sharing::share;
pub use simulating::sim;
pub use trying::trial;
pub use weaving::weave;

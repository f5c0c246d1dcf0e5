//! What the words of a command line ask for, the trees of texts, and what is said where there is no answer.
#![tactic(auto)]

mod commands;
mod lists;
mod messages;
mod reading;
mod refusals;
mod stops;

pub use commands::{Command, command_of};
pub use lists::numbers;
pub use messages::line;
pub use reading::tree_of;
pub use refusals::{Refusal, Status};
pub use stops::Stop;

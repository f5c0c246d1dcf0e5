//! The texts that commands write of a rewritten design: a line for each part that is another, and the printed tree, which is read again.
#![tactic(auto)]

pub mod laws;
mod lines;
mod promoting;
pub mod shared_laws;
mod sharing;
pub mod written_laws;

pub use promoting::promote_text;
pub use sharing::share_text;

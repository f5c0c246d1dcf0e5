//! One cycle of an island: which groups are active at which offsets, which ports are asked, and what the samples become.
#![tactic(auto)]

mod actives;
mod counts;
mod laws;
mod offsets;
mod sampler;
mod samples;

pub use actives::{active_entries, reserve_entries};
pub use counts::{group_count, if_count};
pub use laws::{
    accepted_islands_are_short, sampled_groups_are_together, static_tests_are_conditions,
    taken_samples_are_of_a_run,
};
pub use sampler::Sampler;
pub use samples::take_samples;

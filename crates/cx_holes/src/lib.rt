//! Nets without holes.
#![tactic(auto)]

mod exprs;
mod inlining;
mod laws;

pub use inlining::inline;
pub use laws::{
    fitting_nets_name_parts, inlining_keeps_fit, inlining_keeps_limits, inlining_keeps_runs,
    inlining_keeps_targets, inlining_keeps_values, inlining_leaves_no_hole,
};

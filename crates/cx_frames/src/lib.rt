//! What a statement does not drive stays as it is, so the arms of a `par` may run one after another on one state.
#![tactic(auto)]

pub mod apart_laws;
pub mod arm_laws;

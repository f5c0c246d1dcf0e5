//! What control is made with.

use cx_design::{Group, StaticInvoke};

/// The groups of a component and its static invokes, as far as its control is made.
#[derive(Drop)]
pub struct Draft {
    pub groups: Vec<Group>,
    pub invokes: Vec<StaticInvoke>,
}

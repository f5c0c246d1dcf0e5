//! The state of combinational primitives.

/// A state that holds nothing.
#[derive(Clone, Copy, Debug, PartialEq, Eq)]
pub struct Stateless;

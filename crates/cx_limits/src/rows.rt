//! The rows of a table of components.

use crate::inners::{Inner, NO_INNER};

/// The instances, the depth and the weight of trees. They stop at 2^64 - 1.
#[derive(Clone, Copy)]
pub struct TreeCounts {
    pub instances: u64,
    pub depth: u64,
    pub weight: u64,
}

/// No tree.
pub const NO_TREES: TreeCounts = TreeCounts {
    instances: 0,
    depth: 0,
    weight: 0,
};

/// What a component counts, were it static, its size with its static components written out, and the trees of its cells. The size
/// stops at 2^64 - 1.
#[derive(Clone, Copy)]
pub struct Row {
    pub inner: Inner,
    pub size: u64,
    pub trees: TreeCounts,
}

/// Nothing.
pub const NO_ROW: Row = Row {
    inner: NO_INNER,
    size: 0,
    trees: NO_TREES,
};

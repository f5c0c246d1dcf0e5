//! A component of a tree, and what stands for it in the design of the tree.

use cx_ast::{ComponentItem, Tree};
use cx_design::Design;

/// A component of a tree, the design of the tree, and the number of the component in both.
#[derive(Clone, Copy)]
pub(crate) struct Site<'a> {
    pub(crate) tree: &'a Tree,
    pub(crate) part: &'a ComponentItem,
    pub(crate) design: &'a Design,
    pub(crate) number: usize,
}

//! A component of a tree, with the names that its parts may use.

use cx_names_scopes::{Numbers, Scope};

/// A component of a tree with the names of both, and for each component of the tree the numbers of the ports of its cells.
#[derive(Clone, Copy)]
pub struct Site<'a> {
    pub scope: Scope<'a>,
    pub ports: &'a Vec<Numbers>,
}

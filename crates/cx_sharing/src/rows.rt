//! What is told of a shared cell.

use cx_text::Name;

/// A given cell of a component, and the kept one that stands in its place, by name.
#[derive(Debug, Drop)]
pub struct SharedRow {
    pub component: Name,
    pub cell: Name,
    pub kept: Name,
}

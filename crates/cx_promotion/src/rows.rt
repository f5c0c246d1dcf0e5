//! What is told of a promoted group.

use cx_text::Name;

/// A promoted group of a component, and its length in cycles.
#[derive(Debug, Drop)]
pub struct PromotedRow {
    pub component: Name,
    pub group: Name,
    pub cycles: u64,
}

//! What a run knows of its design and never changes.

use crate::tables::GroupTable;
use cx_design::Design;
use cx_state::InstanceTable;

/// A design, the table of its instances, and what is known of the groups of each component.
#[derive(Drop)]
pub struct Plan<'a> {
    pub design: &'a Design,
    pub table: InstanceTable,
    pub groups: Vec<GroupTable>,
}

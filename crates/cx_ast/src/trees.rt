//! A whole file.

use crate::components::ComponentItem;
use cx_text::{Name, Place};

/// An import: the path between its quotes.
#[derive(Debug, Drop)]
pub struct ImportItem {
    pub path: Name,
    pub place: Place,
}

/// A file: its imports and its components, in source order. An absent list of the grammar is an empty vector.
#[derive(Debug, Drop)]
pub struct Tree {
    pub imports: Vec<ImportItem>,
    pub components: Vec<ComponentItem>,
}

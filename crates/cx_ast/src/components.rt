//! Components, their ports and their cells.

use crate::statements::Block;
use crate::wiring::WireItem;
use cx_text::{Name, Place};

/// An attribute before a part: `@name` or `@name(number)`.
#[derive(Debug, Drop)]
pub struct Attribute {
    pub name: Name,
    pub number: Option<u64>,
}

/// An attribute behind a name: `"name"=number` between `<` and `>`.
#[derive(Debug, Drop)]
pub struct Mark {
    pub name: Name,
    pub number: u64,
}

/// A port of a signature, with its width in bits.
#[derive(Debug, Drop)]
pub struct PortItem {
    pub attributes: Vec<Attribute>,
    pub name: Name,
    pub width: u64,
    pub place: Place,
}

/// A cell: the name of its primitive or component, and the numbers in parentheses.
#[derive(Debug, Drop)]
pub struct CellItem {
    pub attributes: Vec<Attribute>,
    pub name: Name,
    pub marks: Vec<Mark>,
    pub kind: Name,
    pub numbers: Vec<u64>,
    pub place: Place,
}

/// A component. `length` is the n of `static<n> component`, in cycles.
#[derive(Debug, Drop)]
pub struct ComponentItem {
    pub attributes: Vec<Attribute>,
    pub length: Option<u64>,
    pub name: Name,
    pub marks: Vec<Mark>,
    pub inputs: Vec<PortItem>,
    pub outputs: Vec<PortItem>,
    pub cells: Vec<CellItem>,
    pub wires: Vec<WireItem>,
    pub control: Option<Block>,
    pub place: Place,
}

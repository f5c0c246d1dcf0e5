//! Components of a net.

use crate::drivers::NetDriver;
use cx_design::{Cell, PortDecl};
use cx_text::Name;

/// A component of a net: a signature and cells as in a design, and what drives them. Cells of components name components
/// of the same net by their numbers.
#[derive(Debug, Drop)]
pub struct NetComponent {
    pub name: Name,
    pub inputs: Vec<PortDecl>,
    pub outputs: Vec<PortDecl>,
    pub cells: Vec<Cell>,
    /// The widths of the registers in bits.
    pub registers: Vec<u8>,
    /// The widths of the wires in bits.
    pub wires: Vec<u8>,
    /// How many holes there are.
    pub holes: u32,
    /// In the order in which the drivers of one target are tried.
    pub drivers: Vec<NetDriver>,
}

//! What is read of a text before it is checked: lengths and sizes are numbers of any size, as in the text.

use crate::numerals::Numeral;
use cx_text::Name;
use cx_vtree::{Edge, Instance, ModulePort, NetAssign};

/// An external memory as it is read.
#[derive(Drop)]
pub struct DraftExternal {
    pub name: Name,
    pub instance: Name,
    /// The width of a word in bits.
    pub width: u8,
    /// The sizes of the dimensions, outermost first.
    pub sizes: Vec<Numeral>,
}

/// A wire, a register, or an array with words from 0 to `last`, as they are read.
#[derive(Drop)]
pub enum DraftDecl {
    Wire {
        name: Name,
        width: u8,
    },
    Register {
        name: Name,
        width: u8,
    },
    Array {
        name: Name,
        width: u8,
        last: Numeral,
    },
}

/// A module as it is read.
#[derive(Drop)]
pub struct DraftModule {
    pub name: Name,
    pub ports: Vec<ModulePort>,
    pub decls: Vec<DraftDecl>,
    pub assigns: Vec<NetAssign>,
    pub instances: Vec<Instance>,
    pub edge: Option<Edge>,
}

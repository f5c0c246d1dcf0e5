//! A component of a tree, and what the names in it stand for.

ghost use Rattle.std.specs.Prelude.{◌≡◌, ◌<◌, Some, length, slice_get, is_some};
ghost use Rattle.cx_ast.specs.PlainTree.{plain_cell, plain_component, plain_tree};
ghost use Rattle.cx_numbering.specs.Names.{is_among, cell_among, group_among, group_names, groups_in, port_names, cell_of, component_among, found_latency, or_component};
ghost use Rattle.cx_numbering.specs.NameRules.{is_own as is_own_of};
ghost use Rattle.cx_names_scopes.specs.Indexed.{IsIndex};
ghost use Rattle.cx_names_scopes.specs.Scopes.{IsScope, kind_of, IsKind, copied_cell, word_of, tree_in, part_in};

use crate::index::{Index, PartIndex};
use crate::kinds::CellKind;
use cx_ast::{CellItem, ComponentItem, GroupWord, Tree};
use cx_prim::PrimitiveName;
use cx_text::Name;

/// A component of a tree, with the names of both.
#[derive(Clone, Copy)]
pub struct Scope<'a> {
    pub tree: &'a Tree,
    pub index: &'a Index,
    pub part: &'a ComponentItem,
    pub own: &'a PartIndex,
}

impl<'a> Scope<'a> {
    /// The component of a number, with the names of its tree.
    pub fn new(tree: &'a Tree, index: &'a Index, number: usize) -> Scope<'a>
        requires index { IsIndex (plain_tree tree.now) index.now }
        requires within { number < length tree.now.components.items }
        ensures sound { IsScope result }
        ensures tree { tree_in result ≡ plain_tree tree.now }
        ensures part { slice_get (plain_tree tree.now).components number ≡ Some (part_in result) }
    {
        Scope {
            tree,
            index,
            part: &tree.components[number],
            own: &index.parts[number],
        }
    }

    /// Whether a port of the signature has the name, the own ports left out.
    pub fn is_own(&self, name: &Name) -> bool
        requires { IsScope self.now }
        ensures { result ≡ is_own_of (tree_in self.now) (part_in self.now) name.now }
    {
        self.is_input(name) || self.is_output(name)
    }

    /// Whether an input of the signature has the name.
    pub fn is_input(&self, name: &Name) -> bool
        requires { IsScope self.now }
        ensures { result ≡ is_among name.now (port_names (plain_component self.now.part.now).inputs) }
    {
        self.own.inputs.has(name)
    }

    /// Whether an output of the signature has the name.
    pub fn is_output(&self, name: &Name) -> bool
        requires { IsScope self.now }
        ensures { result ≡ is_among name.now (port_names (plain_component self.now.part.now).outputs) }
    {
        self.own.outputs.has(name)
    }

    /// The cell of a name.
    pub fn cell(&self, name: &Name) -> Option<&'a CellItem>
        requires { IsScope self.now }
        ensures { copied_cell result ≡ cell_among name.now (plain_component self.now.part.now).cells }
    {
        match self.own.cells.find(name) {
            None => None,
            Some(number) => Some(&self.part.cells[number]),
        }
    }

    /// The word of the group of a name.
    pub fn group(&self, name: &Name) -> Option<GroupWord>
        requires { IsScope self.now }
        ensures word { result ≡ word_of (group_among name.now (groups_in (plain_component self.now.part.now).wires)) }
        ensures there { is_some result ≡ is_among name.now (group_names (plain_component self.now.part.now)) }
    {
        match self.own.groups.numbers.find(name) {
            None => None,
            Some(number) => Some(self.own.groups.words[number]),
        }
    }

    /// What a cell is of.
    pub fn kind(&self, cell: &'a CellItem) -> CellKind<'a>
        requires { IsScope self.now }
        ensures value { kind_of result ≡ cell_of (plain_tree self.now.tree.now) (plain_cell cell.now) }
        ensures sound { IsKind result }
    {
        match PrimitiveName::from_text(cell.kind.bytes()) {
            Some(name) => CellKind::Primitive {
                name,
                numbers: &cell.numbers,
            },
            None => self.component_kind(&cell.kind),
        }
    }

    /// The latency of the component of the cell of a name, in cycles. None where there is no such cell or its component is not static.
    pub fn latency(&self, cell: &Name) -> Option<u64>
        requires { IsScope self.now }
        ensures { result ≡ found_latency (tree_in self.now) (cell_among cell.now (part_in self.now).cells) }
    {
        match self.cell(cell) {
            None => None,
            Some(found) => self.kind(found).latency(),
        }
    }

    // The component of a name, as what a cell is of.
    fn component_kind(&self, name: &Name) -> CellKind<'a>
        requires { IsScope self.now }
        ensures value { kind_of result ≡
            or_component (component_among name.now (plain_tree self.now.tree.now).components) }
        ensures sound { IsKind result }
    {
        match self.index.components.find(name) {
            None => CellKind::Unknown,
            Some(number) => CellKind::Component {
                part: &self.tree.components[number],
                index: &self.index.parts[number],
            },
        }
    }
}

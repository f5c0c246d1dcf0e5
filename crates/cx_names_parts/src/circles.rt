//! Circles of components.

ghost use Rattle.std.specs.Prelude.{◌≡◌, ◌<◌, Some, IfOk, length, slice_get};
ghost use Rattle.cx_ast.specs.PlainTree.{plain_cell, plain_tree};
ghost use Rattle.cx_numbering.specs.Names.{cell_of};
ghost use Rattle.cx_names_scopes.specs.Indexed.{IsIndex};
ghost use Rattle.cx_names_scopes.specs.Scopes.{IsScope, tree_in, part_in};
ghost use Rattle.cx_names_parts.specs.Leading.{is_recursive as is_recursive_of, AreCircles, AreMarks, IsLeading, StandsIn};

use crate::edges::{component_number, graph, node};
use cx_ast::{CellItem, Tree};
use cx_graphs::{has_circle, reached, turned};
use cx_names_scopes::{Index, Scope};
use cx_text::Memory;
use std::alloc::Global;

/// How the components of a tree lead to one another by their cells.
#[derive(Drop)]
pub struct CellCircles {
    /// For each component the components with a cell of it.
    pub users: Vec<Vec<u32>>,
    /// Whether some component leads back to itself.
    pub is_circular: bool,
}

impl CellCircles {
    /// How the components of a tree lead to one another.
    pub fn new(alloc: Global, tree: &Tree, index: &Index) -> Result<CellCircles, Memory>
        requires { IsIndex (plain_tree tree.now) index.now }
        ensures value { IfOk result (AreCircles (plain_tree tree.now)) }
    {
        let edges = graph(alloc, tree, index)?;
        let is_circular = has_circle(alloc, &edges)?;
        let users = turned(alloc, &edges)?;
        Ok(CellCircles { users, is_circular })
    }

    /// Which components lead back to a component, by their numbers. None where no cell in it does.
    pub fn leading(
        &self,
        alloc: Global,
        scope: &Scope,
        number: usize,
    ) -> Result<Option<Vec<bool>>, Memory>
        requires scope { IsScope scope.now }
        requires circles { AreCircles (tree_in scope.now) self.now }
        requires number { slice_get (tree_in scope.now).components number ≡ Some (part_in scope.now) }
        ensures value { IfOk result (IsLeading (tree_in scope.now) (part_in scope.now)) }
    {
        let Some(first) = scope.index.components.find(&scope.part.name) else {
            unreachable!()
        };
        if !self.is_circular && first == number {
            return Ok(None);
        }
        let starts = [node(first)?];
        Ok(Some(reached(alloc, &self.users, &starts)?))
    }
}

/// Whether a cell of a component leads back to it.
pub fn is_recursive(scope: &Scope, leading: &Option<Vec<bool>>, cell: &CellItem) -> bool
    requires scope { IsScope scope.now }
    requires leading { IsLeading (tree_in scope.now) (part_in scope.now) leading.now }
    requires stands { StandsIn (part_in scope.now).cells (plain_cell cell.now) }
    ensures value { result ≡ is_recursive_of (tree_in scope.now) (part_in scope.now).name
        (cell_of (tree_in scope.now) (plain_cell cell.now)) }
{
    match leading {
        None => false,
        Some(marks) => leads_back(scope, marks, cell),
    }
}

// Whether a cell is of a component that is marked.
fn leads_back(scope: &Scope, marks: &[bool], cell: &CellItem) -> bool
    requires scope { IsScope scope.now }
    requires marks { AreMarks (tree_in scope.now) (part_in scope.now) marks.now }
    requires stands { StandsIn (part_in scope.now).cells (plain_cell cell.now) }
    ensures value { result ≡ is_recursive_of (tree_in scope.now) (part_in scope.now).name
        (cell_of (tree_in scope.now) (plain_cell cell.now)) }
{
    match component_number(scope, cell) {
        None => false,
        Some(number) => is_marked(marks, number),
    }
}

// Whether a component is marked.
fn is_marked(marks: &[bool], number: usize) -> bool
    requires { number < length marks.now }
    ensures { slice_get marks.now number ≡ Some result }
{
    marks[number]
}

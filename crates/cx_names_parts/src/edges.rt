//! The graph of components: from each an edge to each component that a cell in it is of.

ghost use Rattle.std.specs.Prelude.{◌≡◌, [], ◌∷◌, ◌++◌, IfOk, OnOk};
ghost use Rattle.cx_ast.specs.PlainTree.{plain_cell, plain_tree};
ghost use Rattle.cx_graphs.specs.Graphs.{edges_of};
ghost use Rattle.cx_names_scopes.specs.Indexed.{IsIndex};
ghost use Rattle.cx_names_scopes.specs.Scopes.{IsScope, tree_in, part_in};
ghost use Rattle.cx_names_parts.specs.Leading.{cell_number, if_some, numbers_in, component_edges};

use cx_ast::{CellItem, Tree};
use cx_names_scopes::{Index, Scope};
use cx_prim::PrimitiveName;
use cx_text::Memory;
use std::alloc::Global;

/// The number of the component that a cell is of, where it is of one.
pub(crate) fn component_number(scope: &Scope, cell: &CellItem) -> Option<usize>
    requires { IsScope scope.now }
    ensures value { result ≡ cell_number (tree_in scope.now) (plain_cell cell.now) }
{
    match PrimitiveName::from_text(cell.kind.bytes()) {
        Some(_) => None,
        None => scope.index.components.find(&cell.kind),
    }
}

/// A number as a node of a graph. One that is too great is that of no component that any memory holds.
pub(crate) fn node(number: usize) -> Result<u32, Memory>
    ensures value { IfOk result (λ node. node ≡ number) }
{
    if number <= u32::MAX as usize {
        Ok(number as u32)
    } else {
        Err(Memory)
    }
}

// Adds a number to those of the components that cells are of.
fn add_number(edges: &mut Vec<u32>, number: usize) -> Result<(), Memory>
    ensures { OnOk result (edges.new.items ≡ edges.old.items ++ number ∷ []) }
{
    edges.push(node(number)?)?;
    Ok(())
}

// Adds the number of the component that a cell is of, where it is of one.
fn add_edge(edges: &mut Vec<u32>, scope: &Scope, cell: &CellItem) -> Result<(), Memory>
    requires { IsScope scope.now }
    ensures { OnOk result (edges.new.items ≡
        edges.old.items ++ if_some (cell_number (tree_in scope.now) (plain_cell cell.now)) []) }
{
    match component_number(scope, cell) {
        None => Ok(()),
        Some(number) => add_number(edges, number),
    }
}

// The numbers of the components that the cells of a component are of.
fn part_edges(alloc: Global, scope: &Scope) -> Result<Vec<u32>, Memory>
    requires { IsScope scope.now }
    ensures value { IfOk result (λ edges. edges.items ≡ numbers_in (tree_in scope.now) (part_in scope.now).cells) }
{
    let mut edges = Vec::new(alloc);
    for cell in &scope.part.cells {
        add_edge(&mut edges, scope, cell)?;
    }
    Ok(edges)
}

/// The graph of the components of a tree.
pub(crate) fn graph(alloc: Global, tree: &Tree, index: &Index) -> Result<Vec<Vec<u32>>, Memory>
    requires { IsIndex (plain_tree tree.now) index.now }
    ensures value { IfOk result (λ graph. edges_of graph.items ≡ component_edges (plain_tree tree.now)) }
{
    let mut graph = Vec::new(alloc);
    for number in 0..tree.components.len() {
        let scope = Scope::new(tree, index, number);
        graph.push(part_edges(alloc, &scope)?)?;
    }
    Ok(graph)
}

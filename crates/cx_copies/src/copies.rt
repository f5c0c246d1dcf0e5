//! Copies of a tree and of the parts of it in which cells are named.

ghost use Rattle.std.specs.Prelude.{◌≡◌, IfOk, map, option_map};
ghost use Rattle.cx_ast.specs.PlainStatements.{plain_block, plain_form, plain_statement, plain_statements};
ghost use Rattle.cx_ast.specs.PlainTree.{plain_assign, plain_component, plain_group, plain_tree, plain_wire};

use crate::control::{named_block, named_form, named_statement};
use crate::names::SameNames;
use crate::parts::{
    copied_attributes, copied_cells, copied_imports, copied_marks, copied_name, copied_ports,
};
use crate::wires::{named_assign, named_group, named_wires};
use cx_ast::{
    AssignItem, Block, ComponentItem, GroupItem, StatementForm, StatementItem, Tree, WireItem,
};
use cx_text::Memory;
use std::alloc::Global;

/// The same groups and assignments again.
pub fn copied_wires(alloc: Global, wires: &[WireItem]) -> Result<Vec<WireItem>, Memory>
    ensures value { IfOk result (λ copies. map plain_wire copies.items ≡ map plain_wire wires.now) }
{
    let copies = named_wires(alloc, &SameNames, wires)?;
    Ok(copies)
}

/// The same group again.
pub fn copied_group(alloc: Global, group: &GroupItem) -> Result<GroupItem, Memory>
    ensures value { IfOk result (λ copy. plain_group copy ≡ plain_group group.now) }
{
    let copy = named_group(alloc, &SameNames, group)?;
    Ok(copy)
}

/// The same assignment again.
pub fn copied_assign(alloc: Global, assign: &AssignItem) -> Result<AssignItem, Memory>
    ensures value { IfOk result (λ copy. plain_assign copy ≡ plain_assign assign.now) }
{
    let copy = named_assign(alloc, &SameNames, assign)?;
    Ok(copy)
}

/// The same statement again.
#[tactic(auto, using(crate::proofs::NamingLemmas::same_statement))]
pub fn copied_statement(alloc: Global, statement: &StatementItem) -> Result<StatementItem, Memory>
    ensures value { IfOk result (λ copy. plain_statement copy ≡ plain_statement statement.now) }
{
    named_statement(alloc, &SameNames, statement)
}

/// The same form of a statement again.
#[tactic(auto, using(crate::proofs::NamingLemmas::same_form))]
pub fn copied_form(alloc: Global, form: &StatementForm) -> Result<StatementForm, Memory>
    ensures value { IfOk result (λ copy. plain_form copy ≡ plain_form form.now) }
{
    named_form(alloc, &SameNames, form)
}

/// The same statements again.
pub fn copied_statements(
    alloc: Global,
    statements: &[StatementItem],
) -> Result<Vec<StatementItem>, Memory>
    ensures value { IfOk result (λ copies. plain_statements copies.items ≡ plain_statements statements.now) }
{
    let mut copies = Vec::with_capacity(alloc, statements.len())?;
    for statement in statements {
        copies.push(copied_statement(alloc, statement)?)?;
    }
    Ok(copies)
}

/// The same block again.
#[tactic(auto, using(crate::proofs::NamingLemmas::same_block))]
pub fn copied_block(alloc: Global, block: &Block) -> Result<Block, Memory>
    ensures value { IfOk result (λ copy. plain_block copy ≡ plain_block block.now) }
{
    named_block(alloc, &SameNames, block)
}

/// The same control again, where there is any.
fn copied_control(alloc: Global, control: &Option<Block>) -> Result<Option<Block>, Memory>
    ensures value { IfOk result (λ copy. option_map plain_block copy ≡ option_map plain_block control.now) }
{
    match control {
        None => Ok(None),
        Some(block) => Ok(Some(copied_block(alloc, block)?)),
    }
}

/// The same component again.
pub fn copied_component(alloc: Global, item: &ComponentItem) -> Result<ComponentItem, Memory>
    ensures value { IfOk result (λ copy. plain_component copy ≡ plain_component item.now) }
{
    let attributes = copied_attributes(alloc, item.attributes.as_slice())?;
    let name = copied_name(alloc, &item.name)?;
    let marks = copied_marks(alloc, item.marks.as_slice())?;
    let inputs = copied_ports(alloc, item.inputs.as_slice())?;
    let outputs = copied_ports(alloc, item.outputs.as_slice())?;
    let cells = copied_cells(alloc, item.cells.as_slice())?;
    let wires = copied_wires(alloc, item.wires.as_slice())?;
    let control = copied_control(alloc, &item.control)?;
    Ok(ComponentItem {
        attributes,
        length: item.length,
        name,
        marks,
        inputs,
        outputs,
        cells,
        wires,
        control,
        place: item.place,
    })
}

/// The same tree again.
pub fn copied_tree(alloc: Global, tree: &Tree) -> Result<Tree, Memory>
    ensures value { IfOk result (λ copy. plain_tree copy ≡ plain_tree tree.now) }
{
    let imports = copied_imports(alloc, tree.imports.as_slice())?;
    let mut components = Vec::with_capacity(alloc, tree.components.len())?;
    for component in tree.components.as_slice() {
        components.push(copied_component(alloc, component)?)?;
    }
    Ok(Tree {
        imports,
        components,
    })
}

//! The names of ports in messages.

ghost use Rattle.std.specs.Prelude.{◌≡◌, ◌++◌, ◌<◌, IfNone, IfOk, IfSome, codes, decimal, length, slice_get};
ghost use Rattle.cx_rules.specs.Ports as ports;
ghost use Rattle.cx_rules.specs.Ports.{component_of};
ghost use Rattle.cx_meaning.specs.Designs.{group_at};
ghost use Rattle.cx_meaning.specs.Instances.{cells_of, cell_at};
ghost use Rattle.cx_prim.specs.Table.{row_of};
ghost use Rattle.cx_design.specs.PlainForms.{plain_component, plain_group};
ghost use Rattle.cx_design.specs.PlainDesigns.{plain_design};
ghost use Rattle.cx_design_parts.specs.Cells.{plain_part_port};

use crate::cells::{At, cell_of, component, port_row, stands_at};
use crate::parts::{PartPort, part_port};
use cx_cells::Primitive;
use cx_design::{Component, Design, Group, PortDecl, PortRef};
use cx_text::{Memory, Name};
use itoa::Buffer;
use std::alloc::Global;

/// A port as messages name it: `r.in`, `x`, `g[done]`, and a literal as its width, `'d` and its value.
pub fn path(alloc: Global, design: &Design, number: usize, port: PortRef) -> Result<Name, Memory>
    requires within { number < length design.now.components.items }
    ensures value { IfOk result (λ name. name ≡ ports.path_of (component_of (plain_design design.now) number) port) }
{
    let text = path_bytes(alloc, design, number, port)?;
    Name::from_bytes(alloc, text.as_slice())
}

#[tactic(auto, using(cx_meaning::proofs::DesignsLemmas::same_part))]
fn path_bytes(
    alloc: Global,
    design: &Design,
    number: usize,
    port: PortRef,
) -> Result<Vec<u8>, Memory>
    requires within { number < length design.now.components.items }
    ensures value { IfOk result
        (λ text. text.items ≡ ports.path_of (component_of (plain_design design.now) number) port) }
{
    let part = component(design, number);
    match port {
        PortRef::Cell(cell, port) => {
            joined(
                alloc,
                cell_name(part, cell),
                b".".as_slice(),
                cell_port_name(design, number, cell, port),
            )
        }
        PortRef::Input(port) => Ok(Vec::from_slice(
            alloc,
            declared_name(part.inputs.as_slice(), port),
        )?),
        PortRef::Output(port) => Ok(Vec::from_slice(
            alloc,
            declared_name(part.outputs.as_slice(), port),
        )?),
        PortRef::Done(group) => joined(
            alloc,
            b"".as_slice(),
            group_name(part, group),
            b"[done]".as_slice(),
        ),
        PortRef::Literal(width, value) => literal_name(alloc, width, value),
    }
}

/// Three pieces, one behind the other.
fn joined(alloc: Global, first: &[u8], second: &[u8], third: &[u8]) -> Result<Vec<u8>, Memory>
    ensures value { IfOk result (λ text. text.items ≡ first.now ++ second.now ++ third.now) }
{
    let mut text = Vec::from_slice(alloc, first)?;
    text.extend_from_slice(second)?;
    text.extend_from_slice(third)?;
    Ok(text)
}

fn literal_name(alloc: Global, width: u32, value: u128) -> Result<Vec<u8>, Memory>
    ensures value { IfOk result (λ text. text.items ≡ decimal width ++ codes "'d" ++ decimal value) }
{
    let mut width_digits = Buffer::new();
    let mut value_digits = Buffer::new();
    joined(
        alloc,
        width_digits.format(width).as_bytes(),
        b"'d".as_slice(),
        value_digits.format(value).as_bytes(),
    )
}

/// The name of a cell; empty for a number that names no cell.
#[tactic(auto, using(crate::proofs::NameLemmas::name_of_cell))]
pub fn cell_name(component: &Component, cell: u32) -> &[u8]
    ensures value { result.now ≡ ports.cell_name (plain_component component.now).cells cell }
{
    match cell_of(component, cell) {
        Some(cell) => cell.name.bytes(),
        None => &[],
    }
}

/// The name of a group; empty for a number that names no group.
#[tactic(auto, using(crate::proofs::NameLemmas::name_of_group))]
pub fn group_name(component: &Component, group: u32) -> &[u8]
    ensures value { result.now ≡ (group_at (plain_component component.now) group).name }
{
    match group_of(component, group) {
        Some(group) => group.name.bytes(),
        None => &[],
    }
}

fn cell_port_name(design: &Design, number: usize, cell: u32, port: u32) -> &[u8]
    requires within { number < length design.now.components.items }
    ensures value { result.now ≡
        ports.cell_port_name (cell_at (cells_of (component_of (plain_design design.now) number)) cell) port }
{
    match stands_at(design, number, cell) {
        At::Nothing => &[],
        At::Primitive(primitive) => row_port_name(primitive, port),
        At::Part(part) => part_port_name(part, part_port(part, port)),
    }
}

#[tactic(auto, using(crate::proofs::NameLemmas::row_name))]
fn row_port_name(primitive: &Primitive, port: u32) -> &'static [u8]
    ensures value { result.now ≡ ports.row_port_name (row_of primitive.now).ports port }
{
    match port_row(primitive, port) {
        Some(row) => row.name.text().as_bytes(),
        None => &[],
    }
}

fn part_port_name(part: &Component, port: PartPort) -> &[u8]
    ensures value { result.now ≡ ports.part_port_name (plain_component part.now) (plain_part_port port) }
{
    match port {
        PartPort::Go => b"go".as_slice(),
        PartPort::Input(port) => declared_name(part.inputs.as_slice(), port),
        PartPort::Output(port) => declared_name(part.outputs.as_slice(), port),
        PartPort::Done => b"done".as_slice(),
    }
}

#[tactic(auto, using(crate::proofs::NameLemmas::decl_name))]
fn declared_name(decls: &[PortDecl], port: u32) -> &[u8]
    ensures value { result.now ≡ ports.declared_name decls.now port }
{
    match decl_of(decls, port) {
        Some(decl) => decl.name.bytes(),
        None => &[],
    }
}

/// The declaration of a number, where there is one.
fn decl_of(decls: &[PortDecl], number: u32) -> Option<&PortDecl>
    ensures none { IfNone result (slice_get decls.now number ≡ None) }
    ensures some { IfSome result (λ decl. slice_get decls.now number ≡ Some decl.now) }
{
    decls.get(number as usize)
}

/// The group of a number, where the component has it.
pub fn group_of(component: &Component, number: u32) -> Option<&Group>
    ensures none { IfNone result (slice_get (plain_component component.now).groups number ≡ None) }
    ensures some { IfSome result
        (λ group. slice_get (plain_component component.now).groups number ≡ Some (plain_group group.now)) }
{
    component.groups.as_slice().get(number as usize)
}

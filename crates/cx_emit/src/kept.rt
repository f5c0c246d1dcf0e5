//! Registers.

ghost use Rattle.std.specs.Prelude.{◌≡◌, ◌++◌, All, IfOk, OnOk, map, option_map};
ghost use Rattle.cx_prim.specs.Widths.{IsWidth};
ghost use Rattle.cx_vtree.specs.Plain.{SetTo};
ghost use Rattle.cx_vtree.specs.PlainParts.{plain_assign, plain_decl, plain_edge, plain_item};
ghost use Rattle.cx_emit.specs.Driven.{edge_with};
ghost use Rattle.cx_emit.specs.Numbered.{with_numbers};
ghost use Rattle.cx_emit.specs.Sources.{register_decl, register_reset};

use crate::exprs::zero;
use crate::names::register_name;
use cx_text::Memory;
use cx_vtree::{Decl, Edge, EdgeItem, NetAssign};
use std::alloc::Global;

/// Adds the declarations of registers.
pub fn add_registers(alloc: Global, decls: &mut Vec<Decl>, widths: &[u8]) -> Result<(), Memory>
    ensures value { OnOk result (map plain_decl decls.new.items ≡
        map plain_decl decls.old.items ++ with_numbers register_decl widths.now) }
{
    for (number, width) in widths.iter().enumerate() {
        decls.push(Decl::Register {
            name: register_name(alloc, number)?,
            width: *width,
        })?;
    }
    Ok(())
}

/// With reset each register becomes 0.
fn reset(alloc: Global, widths: &[u8]) -> Result<Vec<NetAssign>, Memory>
    requires wide { All IsWidth widths.now }
    ensures value { IfOk result (λ sets. map plain_assign sets.items ≡ with_numbers register_reset widths.now) }
{
    let mut sets = Vec::with_capacity(alloc, widths.len())?;
    for (number, width) in widths.iter().enumerate() {
        sets.push(NetAssign {
            name: register_name(alloc, number)?,
            value: zero(*width),
        })?;
    }
    Ok(sets)
}

/// Without reset each register takes what drives it.
fn step(alloc: Global, driven: Vec<NetAssign>) -> Result<Vec<EdgeItem>, Memory>
    ensures value { IfOk result (λ items. map plain_item items.items ≡ map SetTo (map plain_assign driven.items)) }
{
    let mut items = Vec::with_capacity(alloc, driven.len())?;
    for set in driven {
        items.push(EdgeItem::Set(set))?;
    }
    Ok(items)
}

/// The edge of a module with registers of these widths, and what drives them.
pub fn edge(alloc: Global, widths: &[u8], driven: Vec<NetAssign>) -> Result<Option<Edge>, Memory>
    requires wide { All IsWidth widths.now }
    ensures value { IfOk result
        (λ edge. option_map plain_edge edge ≡ edge_with widths.now (map plain_assign driven.items)) }
{
    if widths.is_empty() {
        return Ok(None);
    }
    Ok(Some(Edge {
        reset: reset(alloc, widths)?,
        step: step(alloc, driven)?,
    }))
}

//! Components.

ghost use Rattle.std.specs.Prelude.{◌≡◌, OnOk, option_map, map, codes};
ghost use Rattle.cx_ast.specs.PlainStatements.{plain_block};
ghost use Rattle.cx_ast.specs.PlainTree.{plain_port, plain_cell, plain_wire, plain_component};
ghost use Rattle.cx_print.specs.Pieces.{put_number, add_port, add_ports, add_outputs, add_numbers, add_cell, add_component_word, add_control_part, add_section, add_signature, add_component, add_wire, with_commas};

use crate::control::{block, timed};
use crate::headers::{after_marks, attributes, behind, marks};
use crate::pieces::{Gap, Piece, number, sign, word};
use crate::wiring::wire;
use cx_ast::{Block, CellItem, ComponentItem, PortItem, Sign, WireItem};
use cx_text::Memory;
use std::alloc::Global;

// Adds a port of a signature.
fn port(alloc: Global, out: &mut Vec<Piece>, gap: Gap, item: &PortItem) -> Result<(), Memory>
    ensures { OnOk result (out.new.items ≡ add_port gap (plain_port item.now) out.old.items) }
{
    attributes(alloc, out, gap, &item.attributes)?;
    word(alloc, out, behind(gap, &item.attributes), item.name.bytes())?;
    sign(out, Gap::Tight, Sign::Colon)?;
    number(out, Gap::Space, item.width)
}

// Adds ports with commas between them.
fn some_ports(alloc: Global, out: &mut Vec<Piece>, items: &[PortItem]) -> Result<(), Memory>
    ensures { OnOk result (out.new.items ≡ with_commas add_port (map plain_port items.now) out.old.items) }
{
    let Some((first, more)) = items.split_first() else {
        return Ok(());
    };
    port(alloc, out, Gap::Tight, first)?;
    for item in more {
        sign(out, Gap::Tight, Sign::Comma)?;
        port(alloc, out, Gap::Space, item)?;
    }
    Ok(())
}

// Adds ports in parentheses.
fn ports(alloc: Global, out: &mut Vec<Piece>, gap: Gap, items: &[PortItem]) -> Result<(), Memory>
    ensures { OnOk result (out.new.items ≡ add_ports gap (map plain_port items.now) out.old.items) }
{
    sign(out, gap, Sign::OpenParen)?;
    some_ports(alloc, out, items)?;
    sign(out, Gap::Tight, Sign::CloseParen)
}

// Adds the output ports, where there are any.
fn outputs(alloc: Global, out: &mut Vec<Piece>, items: &[PortItem]) -> Result<(), Memory>
    ensures { OnOk result (out.new.items ≡ add_outputs (map plain_port items.now) out.old.items) }
{
    if items.is_empty() {
        return Ok(());
    }
    sign(out, Gap::Space, Sign::Arrow)?;
    ports(alloc, out, Gap::Space, items)
}

// Adds numbers in parentheses.
fn numbers(out: &mut Vec<Piece>, items: &[u64]) -> Result<(), Memory>
    ensures { OnOk result (out.new.items ≡ add_numbers items.now out.old.items) }
{
    sign(out, Gap::Tight, Sign::OpenParen)?;
    some_numbers(out, items)?;
    sign(out, Gap::Tight, Sign::CloseParen)
}

// Adds numbers with commas between them.
fn some_numbers(out: &mut Vec<Piece>, items: &[u64]) -> Result<(), Memory>
    ensures { OnOk result (out.new.items ≡ with_commas put_number items.now out.old.items) }
{
    let Some((first, more)) = items.split_first() else {
        return Ok(());
    };
    number(out, Gap::Tight, *first)?;
    for item in more {
        sign(out, Gap::Tight, Sign::Comma)?;
        number(out, Gap::Space, *item)?;
    }
    Ok(())
}

// Adds a cell.
fn cell(alloc: Global, out: &mut Vec<Piece>, gap: Gap, item: &CellItem) -> Result<(), Memory>
    ensures { OnOk result (out.new.items ≡ add_cell gap (plain_cell item.now) out.old.items) }
{
    attributes(alloc, out, gap, &item.attributes)?;
    word(alloc, out, behind(gap, &item.attributes), item.name.bytes())?;
    marks(alloc, out, &item.marks)?;
    sign(out, Gap::Space, Sign::Equal)?;
    word(alloc, out, Gap::Space, item.kind.bytes())?;
    numbers(out, &item.numbers)?;
    sign(out, Gap::Tight, Sign::Semicolon)
}

// Adds the cells of a component.
fn cells(alloc: Global, out: &mut Vec<Piece>, items: &[CellItem]) -> Result<(), Memory>
    ensures { OnOk result
        (out.new.items ≡ add_section add_cell (codes "cells") (map plain_cell items.now) out.old.items) }
{
    word(alloc, out, Gap::Line, b"cells")?;
    sign(out, Gap::Space, Sign::OpenBrace)?;
    for item in items {
        cell(alloc, out, Gap::Line, item)?;
    }
    sign(out, Gap::Line, Sign::CloseBrace)
}

// Adds the groups and continuous assignments of a component.
fn wires(alloc: Global, out: &mut Vec<Piece>, items: &[WireItem]) -> Result<(), Memory>
    ensures { OnOk result
        (out.new.items ≡ add_section add_wire (codes "wires") (map plain_wire items.now) out.old.items) }
{
    word(alloc, out, Gap::Line, b"wires")?;
    sign(out, Gap::Space, Sign::OpenBrace)?;
    for item in items {
        wire(alloc, out, Gap::Line, item)?;
    }
    sign(out, Gap::Line, Sign::CloseBrace)
}

// Adds the control of a component, where there is one.
fn control(alloc: Global, out: &mut Vec<Piece>, control: &Option<Block>) -> Result<(), Memory>
    ensures { OnOk result (out.new.items ≡ add_control_part (option_map plain_block control.now) out.old.items) }
{
    let Some(body) = control else {
        return Ok(());
    };
    word(alloc, out, Gap::Line, b"control")?;
    block(alloc, out, body)
}

// Adds the words that begin a component.
fn component_word(
    alloc: Global,
    out: &mut Vec<Piece>,
    gap: Gap,
    length: Option<u64>,
) -> Result<(), Memory>
    ensures { OnOk result (out.new.items ≡ add_component_word gap length out.old.items) }
{
    match length {
        None => word(alloc, out, gap, b"component"),
        Some(cycles) => timed(alloc, out, gap, Some(cycles), b"component"),
    }
}

// Adds a component up to its ports.
fn signature(
    alloc: Global,
    out: &mut Vec<Piece>,
    gap: Gap,
    item: &ComponentItem,
) -> Result<(), Memory>
    ensures { OnOk result (out.new.items ≡ add_signature gap (plain_component item.now) out.old.items) }
{
    attributes(alloc, out, gap, &item.attributes)?;
    component_word(alloc, out, behind(gap, &item.attributes), item.length)?;
    word(alloc, out, Gap::Space, item.name.bytes())?;
    marks(alloc, out, &item.marks)?;
    ports(alloc, out, after_marks(&item.marks), &item.inputs)?;
    outputs(alloc, out, &item.outputs)
}

/// Adds a component.
pub(crate) fn component(
    alloc: Global,
    out: &mut Vec<Piece>,
    gap: Gap,
    item: &ComponentItem,
) -> Result<(), Memory>
    ensures { OnOk result (out.new.items ≡ add_component gap (plain_component item.now) out.old.items) }
{
    signature(alloc, out, gap, item)?;
    sign(out, Gap::Space, Sign::OpenBrace)?;
    cells(alloc, out, &item.cells)?;
    wires(alloc, out, &item.wires)?;
    control(alloc, out, &item.control)?;
    sign(out, Gap::Line, Sign::CloseBrace)
}

//! Reading components.

ghost use Rattle.std.specs.Prelude.{◌≡◌, ℕ, Some, map, option_map};
ghost use Rattle.cx_grammar.specs.Calyx as calyx;
ghost use Rattle.cx_ast.specs.PlainStatements.{plain_block};
ghost use Rattle.cx_ast.specs.PlainTree.{plain_port, plain_cell, plain_wire, plain_component};
ghost use Rattle.cx_parse.specs.Readings.{Gives, state_of};

use crate::annotations::{attributes, length_of, marks};
use crate::cells::cells;
use crate::groups::wires_part;
use crate::ports::{outputs, ports};
use crate::readers::Reader;
use crate::statements::control;
use cx_ast::{Block, CellItem, ComponentItem, Mark, PortItem, WireItem};
use cx_grammar::Terminal;
use cx_text::{Name, Place};

/// Cells, wires and control.
type Body = (Vec<CellItem>, Vec<WireItem>, Option<Block>);

/// Name, marks, inputs and outputs.
type Signature = ((Name, Place), Vec<Mark>, Vec<PortItem>, Vec<PortItem>);

/// Reads the word `component` and what stands before it.
fn component_word(reader: &mut Reader) -> (Option<u64>, Place)
    ensures value { (levels : ℕ) → Gives levels calyx.component_word (state_of reader.old)
        (state_of reader.new) (Some (result.0, result.1)) }
{
    if reader.next_is(Terminal::Static) {
        let place = reader.sign(Terminal::Static);
        let n = length_of(reader);
        reader.sign(Terminal::Component);
        return (Some(n), place);
    }
    let place = reader.sign(Terminal::Component);
    (None, place)
}

/// Reads a component's name and signature.
fn signature(reader: &mut Reader) -> Option<Signature>
    ensures value { (levels : ℕ) → Gives levels calyx.signature (state_of reader.old)
        (state_of reader.new) (option_map
        (λ x. ((x.0.0, x.0.1), (x.1.items, (map plain_port x.2.items, map plain_port x.3.items)))) result) }
{
    let name = reader.name()?;
    let marks = marks(reader);
    let inputs = ports(reader);
    let outputs = outputs(reader);
    Some((name, marks, inputs, outputs))
}

/// Reads what stands between a component's braces.
fn body(reader: &mut Reader, levels: u32) -> Body
    ensures value { Gives levels calyx.body (state_of reader.old) (state_of reader.new)
        (Some
        (map plain_cell result.0.items, (map plain_wire result.1.items, option_map plain_block result.2))) }
{
    reader.sign(Terminal::OpenBrace);
    let cells = cells(reader);
    let wires = wires_part(reader, levels);
    let control = control(reader, levels);
    reader.sign(Terminal::CloseBrace);
    (cells, wires, control)
}

/// Reads a component.
pub fn component(reader: &mut Reader, levels: u32) -> Option<ComponentItem>
    ensures value { Gives levels calyx.component (state_of reader.old) (state_of reader.new)
        (option_map plain_component result) }
{
    let attributes = attributes(reader);
    let (length, place) = component_word(reader);
    let ((name, _), marks, inputs, outputs) = signature(reader)?;
    let (cells, wires, control) = body(reader, levels);
    Some(ComponentItem {
        attributes,
        length,
        name,
        marks,
        inputs,
        outputs,
        cells,
        wires,
        control,
        place,
    })
}

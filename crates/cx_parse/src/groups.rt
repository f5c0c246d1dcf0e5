//! Reading groups and wires.

ghost use Rattle.std.specs.Prelude.{◌≡◌, ℕ, Some, map, option_map};
ghost use Rattle.cx_grammar.specs.Calyx as calyx;
ghost use Rattle.cx_ast.specs.PlainTree.{plain_group, plain_wire};
ghost use Rattle.cx_parse.specs.Readings.{Gives, state_of, given};

use crate::annotations::{attributes, length_of, marks};
use crate::assignments::{assigns, bare_assign};
use crate::readers::Reader;
use cx_ast::{Attribute, GroupItem, GroupWord, WireItem};
use cx_grammar::Terminal;
use cx_text::Place;

/// The terminals that a group or a continuous assignment begins with.
const WIRE: [Terminal; 5] = [
    Terminal::At,
    Terminal::Name,
    Terminal::Comb,
    Terminal::Static,
    Terminal::Group,
];

/// Reads the word `group` and what stands before it.
fn group_word(reader: &mut Reader) -> (GroupWord, Place)
    ensures value { (levels : ℕ) → Gives levels calyx.group_word (state_of reader.old)
        (state_of reader.new) (Some (result.0, result.1)) }
{
    if reader.next_is(Terminal::Comb) {
        let place = reader.sign(Terminal::Comb);
        reader.sign(Terminal::Group);
        (GroupWord::Comb, place)
    } else if reader.next_is(Terminal::Static) {
        let place = reader.sign(Terminal::Static);
        let n = length_of(reader);
        reader.sign(Terminal::Group);
        (GroupWord::Timed(n), place)
    } else {
        let place = reader.sign(Terminal::Group);
        (GroupWord::Plain, place)
    }
}

/// Reads a group behind its attributes.
fn bare_group(reader: &mut Reader, levels: u32, attributes: Vec<Attribute>) -> Option<GroupItem>
    ensures value { Gives levels (given attributes.items calyx.bare_group) (state_of reader.old)
        (state_of reader.new) (option_map plain_group result) }
{
    let (kind, place) = group_word(reader);
    let (name, _) = reader.name()?;
    let marks = marks(reader);
    reader.sign(Terminal::OpenBrace);
    let assigns = assigns(reader, levels);
    reader.sign(Terminal::CloseBrace);
    Some(GroupItem {
        attributes,
        kind,
        name,
        marks,
        assigns,
        place,
    })
}

/// Reads a group or a continuous assignment.
fn wire(reader: &mut Reader, levels: u32) -> Option<WireItem>
    ensures value { Gives levels calyx.wire (state_of reader.old) (state_of reader.new) (option_map plain_wire result) }
{
    let attributes = attributes(reader);
    if reader.next_is(Terminal::Name) {
        Some(WireItem::Assign(bare_assign(reader, levels, attributes)))
    } else {
        let group = bare_group(reader, levels, attributes)?;
        Some(WireItem::Group(group))
    }
}

/// Reads groups and continuous assignments.
fn wire_list(reader: &mut Reader, levels: u32) -> Vec<WireItem>
    ensures value { Gives levels calyx.wire_list (state_of reader.old) (state_of reader.new)
        (Some (map plain_wire result.items)) }
{
    let mut all = Vec::new(reader.alloc);
    while reader.next_in(&WIRE) {
        let wire = wire(reader, levels);
        reader.keep(&mut all, wire);
    }
    all
}

/// Reads the part `wires`.
pub fn wires_part(reader: &mut Reader, levels: u32) -> Vec<WireItem>
    ensures value { Gives levels calyx.wires_part (state_of reader.old) (state_of reader.new)
        (Some (map plain_wire result.items)) }
{
    reader.sign(Terminal::Wires);
    reader.sign(Terminal::OpenBrace);
    let all = wire_list(reader, levels);
    reader.sign(Terminal::CloseBrace);
    all
}

//! Reading signatures.

ghost use Rattle.std.specs.Prelude.{◌≡◌, ℕ, Some, map, option_map};
ghost use Rattle.cx_grammar.specs.Calyx as calyx;
ghost use Rattle.cx_ast.specs.PlainTree.{plain_port};
ghost use Rattle.cx_parse.specs.Readings.{Gives, GivesCommas, state_of};

use crate::annotations::attributes;
use crate::readers::Reader;
use cx_ast::PortItem;
use cx_grammar::Terminal;

/// The terminals that a port begins with.
const PORT: [Terminal; 2] = [Terminal::At, Terminal::Name];

/// Reads a port.
fn port(reader: &mut Reader) -> Option<PortItem>
    ensures value { (levels : ℕ) →
        Gives levels calyx.port (state_of reader.old) (state_of reader.new) (option_map plain_port result) }
{
    let attributes = attributes(reader);
    let (name, place) = reader.name()?;
    reader.sign(Terminal::Colon);
    let width = reader.number();
    Some(PortItem {
        attributes,
        name,
        width,
        place,
    })
}

/// Reads the ports behind the first. A comma may stand behind the last.
fn more_ports(reader: &mut Reader, first: PortItem) -> Vec<PortItem>
    ensures value { (levels : ℕ) → GivesCommas levels calyx.port (plain_port first) (state_of reader.old)
        (state_of reader.new) (map plain_port result.items) }
{
    let mut all = Vec::new(reader.alloc);
    reader.keep(&mut all, Some(first));
    while reader.next_is(Terminal::Comma) {
        reader.sign(Terminal::Comma);
        if !reader.next_in(&PORT) {
            return all;
        }
        let port = port(reader);
        reader.keep(&mut all, port);
    }
    all
}

/// Reads ports and their parentheses.
pub fn ports(reader: &mut Reader) -> Vec<PortItem>
    ensures value { (levels : ℕ) → Gives levels calyx.ports (state_of reader.old) (state_of reader.new)
        (Some (map plain_port result.items)) }
{
    reader.sign(Terminal::OpenParen);
    let all = some_ports(reader);
    reader.sign(Terminal::CloseParen);
    all
}

/// Reads the ports between parentheses.
fn some_ports(reader: &mut Reader) -> Vec<PortItem>
    ensures value { (levels : ℕ) → Gives levels calyx.some_ports (state_of reader.old)
        (state_of reader.new) (Some (map plain_port result.items)) }
{
    if !reader.next_in(&PORT) {
        return Vec::new(reader.alloc);
    }
    match port(reader) {
        Some(first) => more_ports(reader, first),
        None => Vec::new(reader.alloc),
    }
}

/// Reads the outputs, where there are some.
pub fn outputs(reader: &mut Reader) -> Vec<PortItem>
    ensures value { (levels : ℕ) → Gives levels calyx.outputs (state_of reader.old) (state_of reader.new)
        (Some (map plain_port result.items)) }
{
    if !reader.next_is(Terminal::Arrow) {
        return Vec::new(reader.alloc);
    }
    reader.sign(Terminal::Arrow);
    ports(reader)
}

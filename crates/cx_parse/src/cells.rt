//! Reading cells.

ghost use Rattle.std.specs.Prelude.{◌≡◌, ℕ, Some, map, option_map};
ghost use Rattle.cx_grammar.specs.Calyx as calyx;
ghost use Rattle.cx_ast.specs.PlainTree.{plain_cell};
ghost use Rattle.cx_parse.specs.Readings.{Gives, state_of, with_first};

use crate::annotations::{attributes, marks};
use crate::readers::Reader;
use cx_ast::CellItem;
use cx_grammar::Terminal;

/// The terminals that a cell begins with.
const CELL: [Terminal; 2] = [Terminal::At, Terminal::Name];

/// Reads the numbers behind the first.
fn more_numbers(reader: &mut Reader, first: u64) -> Vec<u64>
    ensures value { (levels : ℕ) → Gives levels (with_first first calyx.more_numbers)
        (state_of reader.old) (state_of reader.new) (Some result.items) }
{
    let mut all = Vec::new(reader.alloc);
    reader.keep(&mut all, Some(first));
    while reader.next_is(Terminal::Comma) {
        reader.sign(Terminal::Comma);
        let n = reader.number();
        reader.keep(&mut all, Some(n));
    }
    all
}

/// Reads the numbers of a cell.
fn numbers(reader: &mut Reader) -> Vec<u64>
    ensures value { (levels : ℕ) →
        Gives levels calyx.numbers (state_of reader.old) (state_of reader.new) (Some result.items) }
{
    if !reader.next_is(Terminal::Number) {
        return Vec::new(reader.alloc);
    }
    let first = reader.number();
    more_numbers(reader, first)
}

/// Reads a cell.
fn cell(reader: &mut Reader) -> Option<CellItem>
    ensures value { (levels : ℕ) →
        Gives levels calyx.cell (state_of reader.old) (state_of reader.new) (option_map plain_cell result) }
{
    let attributes = attributes(reader);
    let (name, place) = reader.name()?;
    let marks = marks(reader);
    reader.sign(Terminal::Equal);
    let (kind, _) = reader.name()?;
    reader.sign(Terminal::OpenParen);
    let numbers = numbers(reader);
    reader.sign(Terminal::CloseParen);
    reader.sign(Terminal::Semicolon);
    Some(CellItem {
        attributes,
        name,
        marks,
        kind,
        numbers,
        place,
    })
}

/// Reads cells.
fn cell_list(reader: &mut Reader) -> Vec<CellItem>
    ensures value { (levels : ℕ) → Gives levels calyx.cell_list (state_of reader.old)
        (state_of reader.new) (Some (map plain_cell result.items)) }
{
    let mut all = Vec::new(reader.alloc);
    while reader.next_in(&CELL) {
        let cell = cell(reader);
        reader.keep(&mut all, cell);
    }
    all
}

/// Reads the part `cells`.
pub fn cells(reader: &mut Reader) -> Vec<CellItem>
    ensures value { (levels : ℕ) → Gives levels calyx.cells (state_of reader.old) (state_of reader.new)
        (Some (map plain_cell result.items)) }
{
    reader.sign(Terminal::Cells);
    reader.sign(Terminal::OpenBrace);
    let all = cell_list(reader);
    reader.sign(Terminal::CloseBrace);
    all
}

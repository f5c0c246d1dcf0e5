//! Names, operands, assignments and cells.

ghost use Rattle.std.specs.Prelude.{◌≡◌, ◌++◌, ◌∷◌, [], IfOk, List, map};
ghost use Rattle.cx_ast.specs.PlainTree.{plain_assign, plain_cell};
ghost use Rattle.cx_trial.specs.TrialParts as trial;

use cx_ast::{AssignItem, CellItem, OperandForm, OperandItem};
use cx_text::{Memory, Name, Place};
use itoa::Buffer;
use std::alloc::Global;

/// The place of every part.
pub(crate) const PLACE: Place = Place { line: 1, column: 1 };

/// A letter, and a number behind it.
pub(crate) fn indexed(alloc: Global, letter: &[u8], number: u64) -> Result<Name, Memory>
    ensures { IfOk result (λ name. name ≡ trial.indexed letter.now number) }
{
    let mut bytes = Vec::new(alloc);
    bytes.extend_from_slice(letter)?;
    let mut buffer = Buffer::new();
    bytes.extend_from_slice(buffer.format(number).as_bytes())?;
    Name::from_bytes(alloc, &bytes)
}

/// The name of the group of a step of an arm.
pub(crate) fn step_name(alloc: Global, arm: u64, step: u64) -> Result<Name, Memory>
    ensures { IfOk result (λ name. name ≡ trial.step_name arm step) }
{
    let of_arm = indexed(alloc, b"g", arm)?;
    let mut bytes = Vec::new(alloc);
    bytes.extend_from_slice(of_arm.bytes())?;
    bytes.push(b'_')?;
    indexed(alloc, &bytes, step)
}

/// A port of a cell.
pub(crate) fn port_of(alloc: Global, cell: &[u8], port: &[u8]) -> Result<OperandItem, Memory>
    ensures { IfOk result (λ operand. operand ≡ trial.port_of cell.now port.now) }
{
    let cell = Name::from_bytes(alloc, cell)?;
    let port = Name::from_bytes(alloc, port)?;
    Ok(OperandItem {
        form: OperandForm::Port(cell, port),
        place: PLACE,
    })
}

/// A literal.
pub(crate) fn literal(width: u32, value: u128) -> OperandItem
    ensures { result ≡ trial.literal width value }
{
    OperandItem {
        form: OperandForm::Literal(width, value),
        place: PLACE,
    }
}

/// Appends an assignment to a port of a cell.
pub(crate) fn drive(
    alloc: Global,
    assigns: &mut Vec<AssignItem>,
    cell: &[u8],
    port: &[u8],
    source: OperandItem,
) -> Result<(), Memory>
    ensures { IfOk result (λ _. map plain_assign assigns.new.items ≡
        map plain_assign assigns.old.items ++ trial.drive cell.now port.now source ∷ []) }
{
    let target = port_of(alloc, cell, port)?;
    assigns.push(AssignItem {
        attributes: Vec::new(alloc),
        target,
        guard: None,
        source,
        place: PLACE,
    })?;
    Ok(())
}

/// Appends the assignment of a group's done: that of a cell.
pub(crate) fn finish(
    alloc: Global,
    assigns: &mut Vec<AssignItem>,
    group: &[u8],
    cell: &[u8],
) -> Result<(), Memory>
    ensures { IfOk result (λ _. map plain_assign assigns.new.items ≡
        map plain_assign assigns.old.items ++ trial.finish group.now cell.now ∷ []) }
{
    let group = Name::from_bytes(alloc, group)?;
    let hole = Name::from_bytes(alloc, b"done")?;
    let source = port_of(alloc, cell, b"done")?;
    assigns.push(AssignItem {
        attributes: Vec::new(alloc),
        target: OperandItem {
            form: OperandForm::Hole(group, hole),
            place: PLACE,
        },
        guard: None,
        source,
        place: PLACE,
    })?;
    Ok(())
}

/// Appends a cell of 32 bits: a register or an adder.
pub(crate) fn push_cell(
    alloc: Global,
    cells: &mut Vec<CellItem>,
    letter: &[u8],
    arm: u64,
    kind: &[u8],
) -> Result<(), Memory>
    ensures { IfOk result (λ _. map plain_cell cells.new.items ≡
        map plain_cell cells.old.items ++ trial.cell letter.now arm kind.now ∷ []) }
{
    let name = indexed(alloc, letter, arm)?;
    let kind = Name::from_bytes(alloc, kind)?;
    let mut numbers = Vec::new(alloc);
    numbers.push(32)?;
    cells.push(CellItem {
        attributes: Vec::new(alloc),
        name,
        marks: Vec::new(alloc),
        kind,
        numbers,
        place: PLACE,
    })?;
    Ok(())
}

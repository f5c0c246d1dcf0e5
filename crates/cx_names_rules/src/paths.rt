//! Targets and operands as text.

ghost use Rattle.std.specs.Prelude.{◌≡◌, ◌++◌, OnOk, IfOk, decimal};
ghost use Rattle.cx_numbering.specs.NameRules.{path_of};

use cx_ast::OperandForm;
use cx_text::{Memory, Name};
use itoa::Buffer;
use std::alloc::Global;

// Two names with texts between and behind.
fn joined(
    alloc: Global,
    first: &[u8],
    between: &[u8],
    second: &[u8],
    behind: &[u8],
) -> Result<Name, Memory>
    ensures { IfOk result (λ name. name ≡ first.now ++ between.now ++ second.now ++ behind.now) }
{
    let mut bytes = Vec::from_slice(alloc, first)?;
    bytes.extend_from_slice(between)?;
    bytes.extend_from_slice(second)?;
    bytes.extend_from_slice(behind)?;
    Name::from_bytes(alloc, &bytes)
}

// Adds a number in decimal.
fn add_decimal(bytes: &mut Vec<u8>, number: u128) -> Result<(), Memory>
    ensures { OnOk result (bytes.new.items ≡ bytes.old.items ++ decimal number) }
{
    let mut buffer = Buffer::new();
    bytes.extend_from_slice(buffer.format(number).as_bytes())?;
    Ok(())
}

// A literal in base ten.
fn literal(alloc: Global, width: u32, value: u128) -> Result<Name, Memory>
    ensures { IfOk result (λ name. name ≡ path_of (OperandForm.Literal width value)) }
{
    let mut bytes = Vec::new(alloc);
    add_decimal(&mut bytes, u128::from(width))?;
    bytes.extend_from_slice(b"'d")?;
    add_decimal(&mut bytes, value)?;
    Name::from_bytes(alloc, &bytes)
}

/// The text of a target or an operand.
pub(crate) fn path(alloc: Global, form: &OperandForm) -> Result<Name, Memory>
    ensures { IfOk result (λ name. name ≡ path_of form.now) }
{
    match form {
        OperandForm::Own(name) => Name::from_bytes(alloc, name.bytes()),
        OperandForm::Port(cell, port) => joined(alloc, cell.bytes(), b".", port.bytes(), b""),
        OperandForm::Hole(group, hole) => joined(alloc, group.bytes(), b"[", hole.bytes(), b"]"),
        OperandForm::Literal(width, value) => literal(alloc, *width, *value),
    }
}

//! Names in the text: `cx_`, letters and numbers.

ghost use Rattle.std.specs.Prelude.{◌≡◌, ◌++◌, IfOk, OnOk, codes, decimal};
ghost use Rattle.cx_emit.specs.Names as plain;

use cx_cells::Primitive;
use cx_text::{Memory, Name};
use itoa::Buffer;
use std::alloc::Global;

/// Adds a number in decimal.
fn add_number(bytes: &mut Vec<u8>, number: u64) -> Result<(), Memory>
    ensures value { OnOk result (bytes.new.items ≡ bytes.old.items ++ decimal number) }
{
    let mut buffer = Buffer::new();
    bytes.extend_from_slice(buffer.format(number).as_bytes())?;
    Ok(())
}

/// `cx_`, letters and a number.
fn numbered(alloc: Global, letters: &str, number: usize) -> Result<Name, Memory>
    ensures value { IfOk result (λ name. name ≡ plain.numbered letters.now number) }
{
    let mut bytes = Vec::from_slice(alloc, b"cx_")?;
    bytes.extend_from_slice(letters.as_bytes())?;
    add_number(&mut bytes, number as u64)?;
    Name::from_bytes(alloc, &bytes)
}

/// `cx_`, letters and two numbers.
fn twice_numbered(alloc: Global, letters: &str, first: usize, second: usize) -> Result<Name, Memory>
    ensures value { IfOk result (λ name. name ≡ plain.twice_numbered letters.now first second) }
{
    let mut bytes = Vec::from_slice(alloc, b"cx_")?;
    bytes.extend_from_slice(letters.as_bytes())?;
    add_number(&mut bytes, first as u64)?;
    bytes.extend_from_slice(b"_")?;
    add_number(&mut bytes, second as u64)?;
    Name::from_bytes(alloc, &bytes)
}

/// The input of a signature.
pub fn input_name(alloc: Global, number: usize) -> Result<Name, Memory>
    ensures value { IfOk result (λ name. name ≡ plain.input_name number) }
{
    numbered(alloc, "in", number)
}

/// The output of a signature.
pub fn output_name(alloc: Global, number: usize) -> Result<Name, Memory>
    ensures value { IfOk result (λ name. name ≡ plain.output_name number) }
{
    numbered(alloc, "out", number)
}

/// The wire at a port of a cell.
pub fn cell_port_name(alloc: Global, cell: usize, port: usize) -> Result<Name, Memory>
    ensures value { IfOk result (λ name. name ≡ plain.cell_port_name cell port) }
{
    twice_numbered(alloc, "c", cell, port)
}

/// A wire of a component.
pub fn wire_name(alloc: Global, number: usize) -> Result<Name, Memory>
    ensures value { IfOk result (λ name. name ≡ plain.wire_name number) }
{
    numbered(alloc, "w", number)
}

/// A register of a component.
pub fn register_name(alloc: Global, number: usize) -> Result<Name, Memory>
    ensures value { IfOk result (λ name. name ≡ plain.register_name number) }
{
    numbered(alloc, "r", number)
}

/// What is declared in no module: it stands for what a net without holes does not look at.
pub fn undeclared_name(alloc: Global) -> Result<Name, Memory>
    ensures value { IfOk result (λ name. name ≡ codes "cx_none") }
{
    Name::from_bytes(alloc, b"cx_none")
}

/// The instance of a cell.
pub fn instance_name(alloc: Global, cell: usize) -> Result<Name, Memory>
    ensures value { IfOk result (λ name. name ≡ plain.instance_name cell) }
{
    numbered(alloc, "i", cell)
}

/// The module of a component; `main` has that name.
pub fn module_name(alloc: Global, main: u32, number: usize) -> Result<Name, Memory>
    ensures value { IfOk result (λ name. name ≡ plain.module_name main number) }
{
    if number == main as usize {
        return Name::from_bytes(alloc, b"main");
    }
    numbered(alloc, "m", number)
}

/// Adds numbers, each behind `_`.
fn add_numbers(bytes: &mut Vec<u8>, numbers: &[u64]) -> Result<(), Memory>
    ensures value { OnOk result (bytes.new.items ≡ bytes.old.items ++ plain.joined_numbers numbers.now) }
{
    for number in numbers {
        bytes.push(b'_')?;
        add_number(bytes, *number)?;
    }
    Ok(())
}

/// The module of a primitive: its name as designs write it, and its numbers.
pub fn primitive_name(alloc: Global, primitive: &Primitive) -> Result<Name, Memory>
    ensures value { IfOk result (λ name. name ≡ plain.primitive_name primitive.now) }
{
    let mut bytes = Vec::from_slice(alloc, b"cx_")?;
    bytes.extend_from_slice(primitive.name().as_bytes())?;
    add_numbers(&mut bytes, primitive.numbers())?;
    Name::from_bytes(alloc, &bytes)
}

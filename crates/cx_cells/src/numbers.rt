//! The numbers of a primitive, and what they make.

ghost use Rattle.std.specs.Prelude.{◌≡◌, ℕ, ◌≤◌, IsTrue, IfSome, List, Option, None, Some, length, take, option_map, if◌then◌else◌};
ghost use Rattle.cx_text.specs.Loading as loading;
ghost use Rattle.cx_prim.specs.Rows.{Row};
ghost use Rattle.std.specs.List.{list_all};
ghost use Rattle.cx_prim.specs.CombinationalRows.{binary_row, unary_row};
ghost use Rattle.cx_prim.specs.MemoryRows.{are_sizes, is_address_width, memory_row, sequential_memory_row};
ghost use Rattle.cx_prim.specs.Operators.{IsUnary, apply_binary, apply_unary, binary_out_width};
ghost use Rattle.cx_prim.specs.Table.{at_width, constant_at, memory_at, pad_at, row_at, slice_at, timer_at};
ghost use Rattle.cx_prim.specs.Widths.{IsWidth, is_width};
ghost use Rattle.cx_cells.specs.Kinds.{kind_row};
ghost use Rattle.cx_stateful.specs.Layouts.{row_at_layout};

use crate::kinds::Kind;
use cx_bits::Bits;
use cx_prim::{Binary, BinaryOperator, Constant, Mux, PrimitiveName, Unary, UnaryOperator};
use cx_stateful::{
    CombinationalMemory, Divider, Layout, Multiplier, Register, SequentialMemory, Timer,
};

/// The primitive of this name at these numbers. None where the numbers break the row.
pub fn kind_of(name: PrimitiveName, numbers: &[u64]) -> Option<Kind>
    ensures value { row_at name numbers.now ≡ option_map kind_row result }
{
    match name {
        PrimitiveName::Const => constant(numbers),
        PrimitiveName::Wire => same_width(UnaryOperator::Wire, numbers),
        PrimitiveName::Not => same_width(UnaryOperator::Not, numbers),
        PrimitiveName::Slice => slice(numbers),
        PrimitiveName::Pad => pad(numbers),
        PrimitiveName::Mux => Some(Kind::Mux(Mux {
            width: lone_width(numbers)?,
        })),
        PrimitiveName::Reg => Some(Kind::Register(Register {
            width: lone_width(numbers)?,
        })),
        PrimitiveName::MultPipe => Some(Kind::Multiplier(Multiplier {
            width: lone_width(numbers)?,
        })),
        PrimitiveName::DivPipe => Some(Kind::Divider(Divider {
            width: lone_width(numbers)?,
        })),
        PrimitiveName::Timer => timer(numbers),
        PrimitiveName::StdMemD1 | PrimitiveName::CombMemD1 => memory(1, numbers),
        PrimitiveName::StdMemD2 | PrimitiveName::CombMemD2 => memory(2, numbers),
        PrimitiveName::StdMemD3 | PrimitiveName::CombMemD3 => memory(3, numbers),
        PrimitiveName::StdMemD4 | PrimitiveName::CombMemD4 => memory(4, numbers),
        PrimitiveName::SeqMemD1 => sequential(1, numbers),
        PrimitiveName::SeqMemD2 => sequential(2, numbers),
        PrimitiveName::SeqMemD3 => sequential(3, numbers),
        PrimitiveName::SeqMemD4 => sequential(4, numbers),
        PrimitiveName::Add => binary(BinaryOperator::Add, numbers),
        PrimitiveName::Sub => binary(BinaryOperator::Sub, numbers),
        PrimitiveName::And => binary(BinaryOperator::And, numbers),
        PrimitiveName::Or => binary(BinaryOperator::Or, numbers),
        PrimitiveName::Xor => binary(BinaryOperator::Xor, numbers),
        PrimitiveName::Lsh => binary(BinaryOperator::Lsh, numbers),
        PrimitiveName::Rsh => binary(BinaryOperator::Rsh, numbers),
        PrimitiveName::Lt => binary(BinaryOperator::Lt, numbers),
        PrimitiveName::Gt => binary(BinaryOperator::Gt, numbers),
        PrimitiveName::Equal | PrimitiveName::Seq => binary(BinaryOperator::Equal, numbers),
        PrimitiveName::Neq | PrimitiveName::Sneq => binary(BinaryOperator::Neq, numbers),
        PrimitiveName::Le => binary(BinaryOperator::Le, numbers),
        PrimitiveName::Ge => binary(BinaryOperator::Ge, numbers),
        PrimitiveName::Slt => binary(BinaryOperator::Slt, numbers),
        PrimitiveName::Sgt => binary(BinaryOperator::Sgt, numbers),
        PrimitiveName::Sle => binary(BinaryOperator::Sle, numbers),
        PrimitiveName::Sge => binary(BinaryOperator::Sge, numbers),
    }
}

/// The number as a width.
fn width_of(number: u64) -> Option<u8>
    ensures value { result ≡ (if is_width number then Some number else None) }
    ensures width { IfSome result IsWidth }
{
    if 1 <= number && number <= 128 {
        Some(number as u8)
    } else {
        None
    }
}

/// The width where it is the only number.
fn lone_width(numbers: &[u64]) -> Option<u8>
    ensures value { (make : ℕ → Row) → at_width make numbers.now ≡ option_map make result }
    ensures width { IfSome result IsWidth }
{
    match numbers {
        [number] => width_of(*number),
        _ => None,
    }
}

fn constant(numbers: &[u64]) -> Option<Kind>
    ensures value { constant_at numbers.now ≡ option_map kind_row result }
{
    let [number, value] = numbers else {
        return None
    };
    let width = width_of(*number)?;
    let _fitting = Bits::new(width, u128::from(*value))?;
    Some(Kind::Constant(Constant {
        width,
        value: *value,
    }))
}

fn same_width(operator: UnaryOperator, numbers: &[u64]) -> Option<Kind>
    requires { (width : ℕ) → IsWidth width → IsUnary operator width width }
    ensures value { at_width (λ width. unary_row width width (apply_unary operator width)) numbers.now ≡
        option_map kind_row result }
{
    let width = lone_width(numbers)?;
    Some(Kind::Unary(Unary {
        operator,
        width,
        out_width: width,
    }))
}

fn binary(operator: BinaryOperator, numbers: &[u64]) -> Option<Kind>
    ensures value { at_width
        (λ width. binary_row width (binary_out_width operator width) (apply_binary operator)) numbers.now ≡
        option_map kind_row result }
{
    Some(Kind::Binary(Binary {
        operator,
        width: lone_width(numbers)?,
    }))
}

fn slice(numbers: &[u64]) -> Option<Kind>
    ensures value { slice_at numbers.now ≡ option_map kind_row result }
{
    let [number, low] = numbers else { return None };
    let width = width_of(*number)?;
    let out_width = width_of(*low)?;
    if out_width > width {
        return None;
    }
    Some(Kind::Unary(Unary {
        operator: UnaryOperator::Slice,
        width,
        out_width,
    }))
}

fn pad(numbers: &[u64]) -> Option<Kind>
    ensures value { pad_at numbers.now ≡ option_map kind_row result }
{
    let [number, wide] = numbers else { return None };
    let width = width_of(*number)?;
    let out_width = width_of(*wide)?;
    if width > out_width {
        return None;
    }
    Some(Kind::Unary(Unary {
        operator: UnaryOperator::Pad,
        width,
        out_width,
    }))
}

fn timer(numbers: &[u64]) -> Option<Kind>
    ensures value { timer_at numbers.now ≡ option_map kind_row result }
{
    let [length] = numbers else { return None };
    if *length == 0 || *length > 0xffff_ffff {
        return None;
    }
    Some(Kind::Timer(Timer {
        length: *length as u32,
    }))
}

fn memory(dimensions: usize, numbers: &[u64]) -> Option<Kind>
    requires some { 1 ≤ dimensions }
    requires few { dimensions ≤ 4 }
    ensures value { memory_at dimensions memory_row numbers.now ≡ option_map kind_row result }
{
    Some(Kind::Memory(CombinationalMemory {
        layout: layout(dimensions, numbers)?,
    }))
}

fn sequential(dimensions: usize, numbers: &[u64]) -> Option<Kind>
    requires some { 1 ≤ dimensions }
    requires few { dimensions ≤ 4 }
    ensures value { memory_at dimensions sequential_memory_row numbers.now ≡ option_map kind_row result }
{
    Some(Kind::Sequential(SequentialMemory {
        layout: layout(dimensions, numbers)?,
    }))
}

/// The layout of a memory: the width, the sizes and the address widths.
fn layout(dimensions: usize, numbers: &[u64]) -> Option<Layout>
    requires some { 1 ≤ dimensions }
    requires few { dimensions ≤ 4 }
    ensures value { (make : ℕ → List ℕ → List ℕ → Row) →
        memory_at dimensions make numbers.now ≡ option_map (row_at_layout make) result }
{
    let (number, rest) = numbers.split_first()?;
    let width = width_of(*number)?;
    if rest.len() != 2 * dimensions {
        return None;
    }
    let (sizes, address_widths) = rest.split_at(dimensions);
    let count = word_count(sizes)?;
    if !are_address_widths(address_widths) {
        return None;
    }
    Some(Layout {
        width,
        dimensions,
        sizes: padded(sizes),
        address_widths: padded(address_widths),
        count,
    })
}

/// The number of words of a memory of these sizes, where each is at least 1 and the number is below 2^32.
fn word_count(sizes: &[u64]) -> Option<u32>
    ensures value { result ≡ (if are_sizes sizes.now then Some (loading.word_count sizes.now) else None) }
{
    let mut count: u32 = 1;
    for size in sizes {
        if *size == 0 {
            return None;
        }
        let product = u128::from(count) * u128::from(*size);
        if product > 0xffff_ffff {
            return None;
        }
        count = product as u32;
    }
    Some(count)
}

/// Whether each is 1 to 64.
fn are_address_widths(widths: &[u64]) -> bool
    ensures value { result ≡ list_all is_address_width widths.now }
{
    widths.iter().all(|width| 1 <= *width && *width <= 64)
}

/// The numbers, with zeros behind them.
pub fn padded<const N: usize>(numbers: &[u64]) -> [u64; N]
    requires { length numbers.now ≤ N }
    ensures value { take (length numbers.now) result ≡ numbers.now }
{
    let mut all = [0; N];
    for (place, number) in numbers.iter().enumerate() {
        all[place] = *number;
    }
    all
}

//! What stands in the module of each primitive.

ghost use Rattle.std.specs.Prelude.{◌≡◌, ◌≢◌, ◌≤◌, ◌<◌, IfOk, IsSome, length, slice_index};
ghost use Rattle.cx_prim.specs.MemoryRows.{memory_row, sequential_memory_row};
ghost use Rattle.cx_prim.specs.Table.{row_at, constant_at, slice_at, pad_at, timer_at, memory_at};
ghost use Rattle.cx_prim.specs.Widths.{IsWidth};
ghost use Rattle.cx_vmods.specs.Parts.{made_of};
ghost use Rattle.cx_vmods.specs.Modules as plain;
ghost use Rattle.cx_vmods.specs.Shown.{parts_shown};

use crate::combinational::{complement, constant, mux, operator, pad, shift, signed, slice, wire};
use crate::divider::divider;
use crate::memory::{combinational, sequential};
use crate::multiplier::multiplier;
use crate::parts::Parts;
use crate::register::register;
use crate::timer::timer;
use cx_prim::PrimitiveName;
use cx_text::Memory;
use cx_vtree::Operator;
use std::alloc::Global;

/// What stands in the module of the primitive of this name at these numbers.
pub fn parts(alloc: Global, name: PrimitiveName, numbers: &[u64]) -> Result<Parts, Memory>
    requires { IsSome (row_at name numbers.now) }
    ensures value { IfOk result (λ parts. parts_shown parts ≡ made_of (plain.pieces_of name numbers.now)) }
{
    match name {
        PrimitiveName::Timer => timer_parts(alloc, numbers),
        _ => {
            let width = width_of(name, numbers);
            parts_at(alloc, name, width, numbers)
        }
    }
}

/// The first number, which is a width but for the timer.
#[tactic(auto, using(crate::proofs::NumberLemmas::row_at_width))]
fn width_of(name: PrimitiveName, numbers: &[u64]) -> u8
    requires row { IsSome (row_at name numbers.now) }
    requires sized { name ≢ PrimitiveName.Timer }
    ensures value { result ≡ slice_index numbers.now 0 }
    ensures width { IsWidth result }
{
    numbers[0] as u8
}

/// What stands in the module of a primitive of a width.
fn parts_at(alloc: Global, name: PrimitiveName, width: u8, numbers: &[u64]) -> Result<Parts, Memory>
    requires row { IsSome (row_at name numbers.now) }
    requires sized { name ≢ PrimitiveName.Timer }
    requires first { width ≡ slice_index numbers.now 0 }
    requires width { IsWidth width }
    ensures value { IfOk result (λ parts. parts_shown parts ≡ made_of (plain.pieces_of name numbers.now)) }
{
    match name {
        PrimitiveName::Const => constant_parts(alloc, width, numbers),
        PrimitiveName::Wire => wire(alloc),
        PrimitiveName::Not => complement(alloc),
        PrimitiveName::Slice => slice_parts(alloc, numbers),
        PrimitiveName::Pad => pad_parts(alloc, width, numbers),
        PrimitiveName::Add => operator(alloc, Operator::Add),
        PrimitiveName::Sub => operator(alloc, Operator::Subtract),
        PrimitiveName::And => operator(alloc, Operator::And),
        PrimitiveName::Or => operator(alloc, Operator::Or),
        PrimitiveName::Xor => operator(alloc, Operator::Xor),
        PrimitiveName::Lsh => shift(alloc, Operator::ShiftLeft, width),
        PrimitiveName::Rsh => shift(alloc, Operator::ShiftRight, width),
        PrimitiveName::Lt => operator(alloc, Operator::Less),
        PrimitiveName::Gt => operator(alloc, Operator::Greater),
        PrimitiveName::Equal | PrimitiveName::Seq => operator(alloc, Operator::Equal),
        PrimitiveName::Neq | PrimitiveName::Sneq => operator(alloc, Operator::NotEqual),
        PrimitiveName::Le => operator(alloc, Operator::AtMost),
        PrimitiveName::Ge => operator(alloc, Operator::AtLeast),
        PrimitiveName::Slt => signed(alloc, Operator::Less, width),
        PrimitiveName::Sgt => signed(alloc, Operator::Greater, width),
        PrimitiveName::Sle => signed(alloc, Operator::AtMost, width),
        PrimitiveName::Sge => signed(alloc, Operator::AtLeast, width),
        PrimitiveName::Mux => mux(alloc),
        PrimitiveName::Reg => register(alloc, width),
        PrimitiveName::StdMemD1 | PrimitiveName::CombMemD1 => memory_parts(alloc, 1, numbers),
        PrimitiveName::StdMemD2 | PrimitiveName::CombMemD2 => memory_parts(alloc, 2, numbers),
        PrimitiveName::StdMemD3 | PrimitiveName::CombMemD3 => memory_parts(alloc, 3, numbers),
        PrimitiveName::StdMemD4 | PrimitiveName::CombMemD4 => memory_parts(alloc, 4, numbers),
        PrimitiveName::SeqMemD1 => sequential_parts(alloc, 1, numbers),
        PrimitiveName::SeqMemD2 => sequential_parts(alloc, 2, numbers),
        PrimitiveName::SeqMemD3 => sequential_parts(alloc, 3, numbers),
        PrimitiveName::SeqMemD4 => sequential_parts(alloc, 4, numbers),
        PrimitiveName::MultPipe => multiplier(alloc, width),
        PrimitiveName::DivPipe => divider(alloc, width),
        PrimitiveName::Timer => unreachable!(),
    }
}

/// What stands in the module of a constant.
#[tactic(auto, using(crate::proofs::NumberLemmas::constant_at_has))]
fn constant_parts(alloc: Global, width: u8, numbers: &[u64]) -> Result<Parts, Memory>
    requires row { IsSome (constant_at numbers.now) }
    requires first { width ≡ slice_index numbers.now 0 }
    requires width { IsWidth width }
    ensures value { IfOk result (λ parts. parts_shown parts ≡ made_of (plain.constant_pieces numbers.now)) }
{
    let [_, value] = numbers else { unreachable!() };
    constant(alloc, width, *value)
}

/// What stands in the module of a slice.
#[tactic(auto, using(crate::proofs::NumberLemmas::slice_at_has))]
fn slice_parts(alloc: Global, numbers: &[u64]) -> Result<Parts, Memory>
    requires row { IsSome (slice_at numbers.now) }
    ensures value { IfOk result (λ parts. parts_shown parts ≡ made_of (plain.slice_pieces numbers.now)) }
{
    let [_, out_width] = numbers else {
        unreachable!()
    };
    slice(alloc, *out_width as u8)
}

/// What stands in the module of a pad.
#[tactic(auto, using(crate::proofs::NumberLemmas::pad_at_has))]
fn pad_parts(alloc: Global, width: u8, numbers: &[u64]) -> Result<Parts, Memory>
    requires row { IsSome (pad_at numbers.now) }
    requires first { width ≡ slice_index numbers.now 0 }
    requires width { IsWidth width }
    ensures value { IfOk result (λ parts. parts_shown parts ≡ made_of (plain.pad_pieces numbers.now)) }
{
    let [_, out_width] = numbers else {
        unreachable!()
    };
    pad(alloc, width, *out_width as u8)
}

/// What stands in the module of a timer.
#[tactic(auto, using(crate::proofs::NumberLemmas::timer_at_has))]
fn timer_parts(alloc: Global, numbers: &[u64]) -> Result<Parts, Memory>
    requires row { IsSome (timer_at numbers.now) }
    ensures value { IfOk result (λ parts. parts_shown parts ≡ made_of (plain.timer_pieces numbers.now)) }
{
    let [length] = numbers else { unreachable!() };
    timer(alloc, *length as u32)
}

/// What stands in the module of a memory of so many dimensions whose read data follows the addresses.
#[tactic(auto, using(crate::proofs::NumberLemmas::memory_at_split, crate::proofs::NumberLemmas::memory_at_some))]
fn memory_parts(alloc: Global, dimensions: usize, numbers: &[u64]) -> Result<Parts, Memory>
    requires row { IsSome (memory_at dimensions memory_row numbers.now) }
    requires some { 1 ≤ dimensions }
    requires few { dimensions ≤ 4 }
    ensures value { IfOk result (λ parts. parts_shown parts ≡ made_of (plain.memory_pieces dimensions numbers.now)) }
{
    let Some((width, rest)) = numbers.split_first() else {
        unreachable!()
    };
    let (sizes, widths) = rest.split_at(dimensions);
    combinational(alloc, *width as u8, sizes, widths)
}

/// What stands in the module of a memory of so many dimensions whose read data is registered.
#[tactic(auto, using(crate::proofs::NumberLemmas::memory_at_split, crate::proofs::NumberLemmas::memory_at_some))]
fn sequential_parts(alloc: Global, dimensions: usize, numbers: &[u64]) -> Result<Parts, Memory>
    requires row { IsSome (memory_at dimensions sequential_memory_row numbers.now) }
    requires some { 1 ≤ dimensions }
    requires few { dimensions ≤ 4 }
    ensures value { IfOk result
        (λ parts. parts_shown parts ≡ made_of (plain.sequential_pieces dimensions numbers.now)) }
{
    let Some((width, rest)) = numbers.split_first() else {
        unreachable!()
    };
    let (sizes, widths) = rest.split_at(dimensions);
    sequential(alloc, *width as u8, sizes, widths)
}

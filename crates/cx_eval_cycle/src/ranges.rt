//! The addresses of a memory, and the first that is out of range.

ghost use Rattle.std.specs.Prelude.{◌≡◌, ℕ, take};
ghost use Rattle.cx_prim.specs.Rows.{Inputs};
ghost use Rattle.cx_prim.specs.MemoryRows as rows;
ghost use Rattle.cx_prim.specs.Table.{row_of};
ghost use Rattle.cx_design_sizes.specs.Dimensions.{dimensions_of};
ghost use Rattle.cx_eval_cycle.specs.Ranges as ranges;
ghost use Rattle.cx_eval_cycle.specs.Ranges.{AreAddressesOf, enable_of};

use cx_bits::Bits;
use cx_cells::Primitive;
use cx_prim::{PrimitiveName, is_on, number_at};

/// The addresses that an edge of a primitive compares with their sizes. They stand at its first ports; only a memory has some.
#[derive(Clone, Copy)]
pub struct Addresses<'a> {
    /// The port at whose 1 they are compared.
    pub enable: usize,
    pub sizes: &'a [u64],
}

/// The dimensions of a memory; 0 for another primitive.
fn dimensions(name: PrimitiveName) -> usize
    ensures { result ≡ dimensions_of name }
{
    match name {
        PrimitiveName::StdMemD1 | PrimitiveName::CombMemD1 | PrimitiveName::SeqMemD1 => 1,
        PrimitiveName::StdMemD2 | PrimitiveName::CombMemD2 | PrimitiveName::SeqMemD2 => 2,
        PrimitiveName::StdMemD3 | PrimitiveName::CombMemD3 | PrimitiveName::SeqMemD3 => 3,
        PrimitiveName::StdMemD4 | PrimitiveName::CombMemD4 | PrimitiveName::SeqMemD4 => 4,
        _ => 0,
    }
}

/// The port of a memory at whose 1 an edge looks at the addresses; 0 for another primitive.
fn enable(name: PrimitiveName) -> usize
    ensures { result ≡ enable_of name }
{
    match name {
        PrimitiveName::SeqMemD1 => 1,
        PrimitiveName::StdMemD1 | PrimitiveName::CombMemD1 | PrimitiveName::SeqMemD2 => 2,
        PrimitiveName::StdMemD2 | PrimitiveName::CombMemD2 | PrimitiveName::SeqMemD3 => 3,
        PrimitiveName::StdMemD3 | PrimitiveName::CombMemD3 | PrimitiveName::SeqMemD4 => 4,
        PrimitiveName::StdMemD4 | PrimitiveName::CombMemD4 => 5,
        _ => 0,
    }
}

/// The first numbers of a list, at most so many.
fn front(numbers: &[u64], count: usize) -> &[u64]
    ensures { result.now ≡ take count numbers.now }
{
    if count <= numbers.len() {
        &numbers[..count]
    } else {
        numbers
    }
}

/// The first address that is not below its size.
fn first_beyond(sizes: &[u64], inputs: &[Option<Bits>]) -> Option<usize>
    ensures { result ≡ rows.first_beyond sizes.now 0 inputs.now }
{
    for port in 0..sizes.len() {
        if number_at(inputs, port) >= u128::from(sizes[port]) {
            return Some(port);
        }
    }
    None
}

/// The addresses of a memory of so many dimensions, by its numbers.
fn addresses_by(dimensions: usize, enable: usize, numbers: &[u64]) -> Addresses<'_>
    ensures value { (inputs : Inputs) →
        ranges.beyond_of result inputs ≡ ranges.out_by dimensions enable numbers.now inputs }
{
    let sizes = match numbers.split_first() {
        Some((_, rest)) => front(rest, dimensions),
        None => numbers,
    };
    Addresses { enable, sizes }
}

/// The addresses of a primitive.
pub fn addresses_of(primitive: &Primitive) -> Addresses<'_>
    ensures value { AreAddressesOf primitive.now result }
{
    match PrimitiveName::from_text(primitive.name().as_bytes()) {
        Some(name) => addresses_by(dimensions(name), enable(name), primitive.numbers()),
        None => addresses_by(0, 0, primitive.numbers()),
    }
}

/// The first address port that an edge with these inputs compares with its size and finds out of range. It takes no memory.
pub fn out_of_range(addresses: &Addresses<'_>, inputs: &[Option<Bits>]) -> Option<usize>
    ensures value { result ≡ ranges.beyond_of addresses.now inputs.now }
{
    let port = first_beyond(addresses.sizes, inputs)?;
    if is_on(inputs, addresses.enable) {
        Some(port)
    } else {
        None
    }
}

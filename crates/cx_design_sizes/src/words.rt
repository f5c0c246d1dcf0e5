//! Words of memories.

ghost use Rattle.std.specs.Prelude.{◌≡◌};
ghost use Rattle.cx_prim.specs.Table.{row_of};
ghost use Rattle.cx_text.specs.Loading.{word_count};
ghost use Rattle.cx_rules.specs.Sizes.{shape_words};
ghost use Rattle.cx_design_sizes.specs.Capped.{capped};
ghost use Rattle.cx_design_sizes.specs.Dimensions.{dimensions_of, memory_words as words_by_numbers};

use cx_design::Primitive;
use cx_prim::PrimitiveName;

/// The dimensions of a memory; 0 for another primitive.
fn dimensions(name: PrimitiveName) -> usize
    ensures { result ≡ dimensions_of name }
{
    match name {
        PrimitiveName::StdMemD1 | PrimitiveName::CombMemD1 | PrimitiveName::SeqMemD1 => 1,
        PrimitiveName::StdMemD2 | PrimitiveName::CombMemD2 | PrimitiveName::SeqMemD2 => 2,
        PrimitiveName::StdMemD3 | PrimitiveName::CombMemD3 | PrimitiveName::SeqMemD3 => 3,
        PrimitiveName::StdMemD4 | PrimitiveName::CombMemD4 | PrimitiveName::SeqMemD4 => 4,
        _ => 0,
    }
}

/// The product of sizes.
fn product(sizes: &[u64]) -> u64
    ensures { result ≡ capped (word_count sizes.now) }
{
    let mut words = 1u64;
    for size in sizes {
        words = words.saturating_mul(*size);
    }
    words
}

/// The words of a primitive with so many dimensions and these numbers.
fn words_in(dimensions: usize, numbers: &[u64]) -> u64
    ensures { result ≡ words_by_numbers dimensions numbers.now }
{
    match numbers.split_first() {
        Some((_, rest)) if 0 < dimensions && dimensions <= rest.len() => {
            product(&rest[..dimensions])
        }
        _ => 0,
    }
}

/// The words of a memory; 0 for another primitive.
pub fn memory_words(primitive: &Primitive) -> u64
    ensures { result ≡ capped (shape_words (row_of primitive.now).shape) }
{
    match PrimitiveName::from_text(primitive.name().as_bytes()) {
        Some(name) => words_in(dimensions(name), primitive.numbers()),
        None => 0,
    }
}

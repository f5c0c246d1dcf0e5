//! Which primitive a cell is of.

ghost use Rattle.std.specs.Prelude.{◌≡◌};
ghost use Rattle.cx_prim.specs.declared.names.PrimitiveName.{PrimitiveName};

use cx_cells::Primitive;
use cx_prim::PrimitiveName;

/// The name of a primitive.
pub fn name_of(primitive: &Primitive) -> PrimitiveName
    ensures value { result ≡ primitive.now.name }
{
    match PrimitiveName::from_text(primitive.name().as_bytes()) {
        Some(name) => name,
        None => PrimitiveName::Timer,
    }
}

//! The rows of primitives.

ghost use Rattle.std.specs.Prelude.{◌≡◌, ◌≢◌, ◌&&◌, None, IfSome, IfNone, map};
ghost use Rattle.cx_prim.specs.PortNames.{text_of};
ghost use Rattle.cx_prim.specs.Table.{row_at, row_of};
ghost use Rattle.std.specs.Option.{option_copied};
ghost use Rattle.cx_prim.specs.Rows.{is_output_side};
ghost use Rattle.cx_numbering.specs.Names.{is_among, same_name, go_name as go_name_of};
ghost use Rattle.cx_numbering.specs.NameRules.{output_rows};
ghost use Rattle.cx_names_scopes.specs.Scopes.{tree_in, part_in};

use crate::scopes::Scope;
use crate::words::is_named;
use cx_cells::Primitive;
use cx_prim::{Cycle, PortRow, PrimitiveName, Side};
use cx_text::Name;

/// The primitive of a name at these numbers. None where they break its row.
pub fn primitive_row(name: PrimitiveName, numbers: &[u64]) -> Option<Primitive>
    requires { name ≢ PrimitiveName.Timer }
    ensures some { IfSome result (λ p. p ≡ record { name = name; numbers = numbers.now }) }
    ensures none { IfNone result (row_at name numbers.now ≡ None) }
{
    Primitive::find(name.text().as_bytes(), numbers).ok()
}

/// Whether a primitive has a port of the name.
pub fn has_port(primitive: &Primitive, name: &Name) -> bool
    ensures { result ≡ is_among name.now (map (λ port. text_of port.name) (row_of primitive.now).ports) }
{
    for number in 0..primitive.port_count() {
        if is_named(name, primitive.port(number).name.text().as_bytes()) {
            return true;
        }
    }
    false
}

/// Whether a primitive has an output of the name.
pub fn has_output(scope: &Scope, primitive: &Primitive, name: &Name) -> bool
    ensures { result ≡
        is_among name.now (output_rows (tree_in scope.now) (part_in scope.now) (row_of primitive.now).ports) }
{
    for number in 0..primitive.port_count() {
        if is_output_named(primitive.port(number), name) {
            return true;
        }
    }
    false
}

// Whether a port is an output of the name.
fn is_output_named(port: PortRow, name: &Name) -> bool
    ensures { result ≡ (is_output_side port.side && same_name (text_of port.name) name.now) }
{
    is_output(port.side) && is_named(name, port.name.text().as_bytes())
}

// Whether a port of this side is an output.
fn is_output(side: Side) -> bool
    ensures { result ≡ is_output_side side }
{
    match side {
        Side::Enable => false,
        Side::Plain => false,
        Side::Output => true,
        Side::Registered => true,
    }
}

/// The go port of a primitive.
pub fn go_name(name: PrimitiveName) -> Option<&'static str>
    ensures { option_copied result ≡ go_name_of name }
{
    match name {
        PrimitiveName::Reg
        | PrimitiveName::StdMemD1
        | PrimitiveName::StdMemD2
        | PrimitiveName::StdMemD3
        | PrimitiveName::StdMemD4
        | PrimitiveName::CombMemD1
        | PrimitiveName::CombMemD2
        | PrimitiveName::CombMemD3
        | PrimitiveName::CombMemD4 => Some("write_en"),
        PrimitiveName::SeqMemD1
        | PrimitiveName::SeqMemD2
        | PrimitiveName::SeqMemD3
        | PrimitiveName::SeqMemD4 => Some("content_en"),
        PrimitiveName::MultPipe | PrimitiveName::DivPipe => Some("go"),
        _ => None,
    }
}

//! Kinds of cells.

ghost use Rattle.std.specs.Prelude.{◌≡◌, ◌&&◌, not};
ghost use Rattle.std.specs.List.{list_any};
ghost use Rattle.cx_prim.specs.Rows as rows;
ghost use Rattle.cx_prim.specs.PrimitiveNames.{name_text};
ghost use Rattle.cx_prim.specs.Table.{row_of};
ghost use Rattle.cx_numbering.specs.Names.{same_name};
ghost use Rattle.cx_prim.specs.Rows.{is_enable_side};
ghost use Rattle.cx_design.specs.PlainForms.{plain_kind};
ghost use Rattle.cx_sharing.specs.Uses as uses;
ghost use Rattle.cx_sharing.specs.Giving as giving;

use cx_cells::Primitive;
use cx_design::CellKind;
use cx_prim::{Cycle, PortRow, Side};

/// Whether a cell is of a primitive that holds nothing and has an input.
pub(crate) fn is_combinational(kind: &CellKind) -> bool
    ensures value { result ≡ uses.is_combinational (plain_kind kind.now) }
{
    match kind {
        CellKind::Prim(primitive) => is_free_of(has_enable(primitive), has_plain(primitive)),
        CellKind::Part(_) => false,
    }
}

/// Neither enabled, nor without inputs.
fn is_free_of(enable: bool, plain: bool) -> bool
    ensures value { result ≡ (not enable && plain) }
{
    !enable && plain
}

/// Whether a primitive has an enabling port. One that has none holds nothing.
fn has_enable(primitive: &Primitive) -> bool
    ensures value { result ≡ list_any (λ port. is_enable_side port.side) (row_of primitive.now).ports }
{
    for port in 0..primitive.port_count() {
        if is_enable(primitive.port(port)) {
            return true;
        }
    }
    false
}

fn is_enable(port: PortRow) -> bool
    ensures value { result ≡ is_enable_side port.side }
{
    matches!(port.side, Side::Enable)
}

/// Whether a primitive has an input that enables nothing.
fn has_plain(primitive: &Primitive) -> bool
    ensures value { result ≡ list_any (λ port. rows.is_plain_side port.side) (row_of primitive.now).ports }
{
    for port in 0..primitive.port_count() {
        if is_plain(primitive.port(port)) {
            return true;
        }
    }
    false
}

fn is_plain(port: PortRow) -> bool
    ensures value { result ≡ rows.is_plain_side port.side }
{
    matches!(port.side, Side::Plain)
}

/// Whether two cells are of the same primitive with the same numbers.
pub(crate) fn is_same_kind(one: &CellKind, other: &CellKind) -> bool
    ensures value { result ≡ giving.same_kind (plain_kind one.now) (plain_kind other.now) }
{
    match (one, other) {
        (CellKind::Prim(one), CellKind::Prim(other)) => {
            has_same_name(one, other) && has_same_numbers(one, other)
        }
        (CellKind::Prim(_), CellKind::Part(_)) | (CellKind::Part(_), _) => false,
    }
}

#[tactic(auto, using(crate::proofs::KindLemmas::equal_names))]
fn has_same_name(one: &Primitive, other: &Primitive) -> bool
    ensures value { result ≡ same_name (name_text one.now.name) (name_text other.now.name) }
{
    one.name().as_bytes() == other.name().as_bytes()
}

#[tactic(auto, using(crate::proofs::KindLemmas::equal_numbers))]
fn has_same_numbers(one: &Primitive, other: &Primitive) -> bool
    ensures value { result ≡ giving.same_numbers one.now.numbers other.now.numbers }
{
    one.numbers() == other.numbers()
}

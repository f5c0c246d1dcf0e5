//! What a cell is of.

ghost use Rattle.std.specs.Prelude.{◌≡◌, ◌||◌, is_some, codes};
ghost use Rattle.std.specs.Option.{option_copied};
ghost use Rattle.cx_numbering.specs.Names.{is_among, same_name, cell_port_names, cell_go, latency_of};
ghost use Rattle.cx_numbering.specs.NameRules.{output_names, is_reg as is_reg_of};
ghost use Rattle.cx_names_scopes.specs.Numbered.{number_in};
ghost use Rattle.cx_names_scopes.specs.Scopes.{kind_of, IsKind, tree_in, part_in};

use crate::index::PartIndex;
use crate::rows::{go_name, has_output, has_port, primitive_row};
use crate::scopes::Scope;
use crate::words::is_named;
use cx_ast::ComponentItem;
use cx_prim::PrimitiveName;
use cx_text::Name;

/// What a cell is of: neither a primitive nor a component, a primitive with numbers, or a component with its names.
#[derive(Clone, Copy)]
pub enum CellKind<'a> {
    Unknown,
    Primitive {
        name: PrimitiveName,
        numbers: &'a [u64],
    },
    Component {
        part: &'a ComponentItem,
        index: &'a PartIndex,
    },
}

impl CellKind<'_> {
    /// Whether a cell of this has a port of the name.
    pub fn has_port(&self, port: &Name) -> bool
        requires { IsKind self.now }
        ensures { result ≡ is_among port.now (cell_port_names (kind_of self.now)) }
    {
        match self {
            CellKind::Unknown => false,
            CellKind::Primitive { name, numbers } => match primitive_row(*name, numbers) {
                None => false,
                Some(primitive) => has_port(&primitive, port),
            },
            CellKind::Component { index, .. } => is_component_port(index, port),
        }
    }

    /// Whether a cell of this has an output of the name, its done among them.
    pub fn has_output(&self, scope: &Scope, port: &Name) -> bool
        requires { IsKind self.now }
        ensures { result ≡ is_among port.now (output_names (tree_in scope.now) (part_in scope.now) (kind_of self.now)) }
    {
        match self {
            CellKind::Unknown => false,
            CellKind::Primitive { name, numbers } => match primitive_row(*name, numbers) {
                None => false,
                Some(primitive) => has_output(scope, &primitive, port),
            },
            CellKind::Component { index, .. } => is_component_output(index, port),
        }
    }

    /// The go port of a cell of this, which an invoke drives.
    pub fn go(&self) -> Option<&'static str>
        ensures { option_copied result ≡ cell_go (kind_of self.now) }
    {
        match self {
            CellKind::Unknown => None,
            CellKind::Primitive { name, .. } => go_name(*name),
            CellKind::Component { .. } => Some("go"),
        }
    }

    /// The latency of a static component that a cell of this is of, in cycles.
    pub fn latency(&self) -> Option<u64>
        ensures { result ≡ latency_of (kind_of self.now) }
    {
        match self {
            CellKind::Unknown => None,
            CellKind::Primitive { .. } => None,
            CellKind::Component { part, .. } => part.length,
        }
    }

    /// Whether a cell of this is a register.
    pub fn is_reg(&self, scope: &Scope) -> bool
        ensures { result ≡ is_reg_of (tree_in scope.now) (part_in scope.now) (kind_of self.now) }
    {
        match self {
            CellKind::Unknown => false,
            CellKind::Primitive { name, .. } => *name == PrimitiveName::Reg,
            CellKind::Component { .. } => false,
        }
    }
}

// Whether a name is go, done or that of a port of the signature.
fn is_component_port(index: &PartIndex, port: &Name) -> bool
    ensures { result ≡ (((same_name (codes "go") port.now ||
        is_some (number_in index.now.inputs port.now)) || is_some (number_in index.now.outputs port.now)) ||
        same_name (codes "done") port.now) }
{
    is_named(port, b"go")
        || index.inputs.has(port)
        || index.outputs.has(port)
        || is_named(port, b"done")
}

// Whether a name is done or that of an output of the signature.
fn is_component_output(index: &PartIndex, port: &Name) -> bool
    ensures { result ≡ (is_some (number_in index.now.outputs port.now) || same_name (codes "done") port.now) }
{
    index.outputs.has(port) || is_named(port, b"done")
}

//! The module of a primitive.

ghost use Rattle.std.specs.Prelude.{◌≡◌, ℕ, List, IfOk, map};
ghost use Rattle.cx_vtree.specs.Plain.{PlainModule};
ghost use Rattle.cx_vtree.specs.PlainParts.{plain_module, plain_port};
ghost use Rattle.cx_vmods.specs.Modules as plain;
ghost use Rattle.cx_vmods.specs.Shown.{parts_shown};

use crate::names::name_of;
use crate::parts::Parts;
use crate::pieces::parts;
use crate::rows::ports;
use cx_cells::Primitive;
use cx_prim::Cycle;
use cx_text::{Memory, Name};
use cx_vtree::{Edge, Module, ModulePort};
use std::alloc::Global;

/// A primitive that is built as a Verilog module, without instances.
pub trait Built: Cycle {
    /// The module under a name.
    ghost built: { Self → List ℕ → PlainModule };

    /// The module under a name. Its ports are the clock, the reset and the ports of the row in their order.
    fn module(&self, alloc: Global, name: &Name) -> Result<Module, Memory>
        ensures value { IfOk result (λ m. plain_module m ≡ built self.now name.now) };
}

impl Built for Primitive {
    ghost use Rattle.cx_vmods.specs.Modules.{module_of};

    ghost built = { module_of };

    fn module(&self, alloc: Global, name: &Name) -> Result<Module, Memory> {
        let interior = parts(alloc, name_of(self), self.numbers())?;
        let ports = ports(alloc, self)?;
        let name = Name::from_bytes(alloc, name.bytes())?;
        Ok(module_with(alloc, name, ports, interior))
    }
}

/// A module of these ports.
fn module_with(alloc: Global, name: Name, ports: Vec<ModulePort>, interior: Parts) -> Module
    ensures value { plain_module result ≡ plain.module_with name (map plain_port ports.items) (parts_shown interior) }
{
    let Parts {
        decls,
        assigns,
        reset,
        step,
    } = interior;
    let edge = if step.is_empty() {
        None
    } else {
        Some(Edge { reset, step })
    };
    Module {
        name,
        ports,
        decls,
        assigns,
        instances: Vec::new(alloc),
        edge,
    }
}

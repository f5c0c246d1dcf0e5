//! The source of a net.

ghost use Rattle.std.specs.Prelude.{◌≡◌, ◌++◌, IfOk, OnOk};
ghost use Rattle.cx_rules.specs.Externals.{rows_of};
ghost use Rattle.cx_net.specs.NetTree.{net_component_at};
ghost use Rattle.cx_net.specs.NetsAsData.{plain_net};
ghost use Rattle.cx_vtree.specs.PlainParts as text;
ghost use Rattle.cx_vtree.specs.PlainParts.{plain_modules};
ghost use Rattle.cx_emit.specs.Emitted.{CanBeEmitted};
ghost use Rattle.cx_emit.specs.Numbered.{with_numbers};
ghost use Rattle.cx_emit.specs.RunsAs.{RunsAs};
ghost use Rattle.cx_emit.specs.Sources as plain;
ghost use Rattle.cx_vtree.specs.PlainSources.{plain_source};

use crate::components::component_module;
use crate::externals::externals;
use crate::primitives::primitive_modules;
use cx_net::Net;
use cx_text::Memory;
use cx_vtree::{Module, Source};
use std::alloc::Global;

/// Adds the modules of the components in order.
fn add_components(alloc: Global, net: &Net, modules: &mut Vec<Module>) -> Result<(), Memory>
    requires net { CanBeEmitted (plain_net net.now) }
    ensures value { OnOk result (plain_modules modules.new.items ≡
        plain_modules modules.old.items
        ++ with_numbers (plain.component_module (plain_net net.now)) (plain_net net.now).components) }
{
    for (number, part) in net.components().iter().enumerate() {
        modules.push(component_module(alloc, net, number, part)?)?;
    }
    Ok(())
}

/// The modules of the primitives, and behind them those of the components.
fn modules(alloc: Global, net: &Net) -> Result<Vec<Module>, Memory>
    requires net { CanBeEmitted (plain_net net.now) }
    ensures value { IfOk result
        (λ modules. plain_modules modules.items ≡ (plain.source_of (plain_net net.now)).modules) }
{
    let mut modules = primitive_modules(alloc, net)?;
    add_components(alloc, net, &mut modules)?;
    Ok(modules)
}

/// The source of a net that fits, has no holes, and can be written.
pub fn emit(alloc: Global, net: &Net) -> Result<Source, Memory>
    requires net { CanBeEmitted (plain_net net.now) }
    ensures value { IfOk result (λ source. plain_source source ≡ plain.source_of (plain_net net.now)) }
    ensures rows { IfOk result (λ source. text.rows_of (plain_source source).externals ≡
        rows_of (net_component_at (plain_net net.now) (plain_net net.now).main).cells) }
    ensures runs { IfOk result (λ source. RunsAs (plain_net net.now) (plain_source source)) }
{
    let modules = modules(alloc, net)?;
    let externals = externals(alloc, net)?;
    Ok(Source::new(externals, modules))
}

//! The design that is run.

ghost use Rattle.std.specs.Prelude.{◌≡◌, ◌||◌, IfOk, is_some, map};
ghost use Rattle.cx_rules.specs.Externals.{external_rows};
ghost use Rattle.cx_rules.specs.Flat.{ArePlainNames, IsFlat};
ghost use Rattle.cx_design.specs.PlainDesigns.{plain_design};
ghost use Rattle.cx_design.specs.PlainForms.{plain_component};
ghost use Rattle.cx_flattening.specs.Ends.{NoneNamesDone};
ghost use Rattle.cx_flattening.specs.Runnable.{any_static, is_static_part, runnable};
ghost use Rattle.cx_flat.specs.Keeping.{TellsAs};

use crate::flattening::flatten;
use cx_design::{Checked, Component};
use cx_flattening::laws::{flat_designs_are_flat, means_the_same_without};
use cx_text::Memory;
use std::alloc::Global;

/// The design that is run: the flat design where a component is static, and else the design itself. No component of it is static, it
/// has the external memories of the design, and on all data and under each budget its run tells what the design tells by its own
/// meaning. What is asked of the names and of the done of a static component's cell is kept by the design of every text. Want of
/// memory is answered as by `flatten`.
pub fn flattened(alloc: Global, design: Checked) -> Result<Checked, Memory>
    requires undone { NoneNamesDone (plain_design design) }
    requires plain { ArePlainNames (plain_design design) }
    ensures value { IfOk result (λ run. plain_design run ≡ runnable (plain_design design)) }
    ensures flat { IfOk result (λ run. IsFlat (plain_design run)) }
    ensures rows { IfOk result (λ run. external_rows (plain_design run) ≡ external_rows (plain_design design)) }
    ensures runs { IfOk result (λ run. TellsAs (plain_design run) (plain_design design)) }
{
    flat_designs_are_flat();
    means_the_same_without();
    if some_static(&design.design().components) {
        flatten(alloc, &design)
    } else {
        Ok(design)
    }
}

/// Whether a component is static, or has a static invoke.
fn some_static(components: &[Component]) -> bool
    ensures value { result ≡ any_static (map plain_component components.now) }
{
    for component in components {
        if is_static(component) {
            return true;
        }
    }
    false
}

/// Whether the component is static, or has a static invoke.
fn is_static(component: &Component) -> bool
    ensures value { result ≡ is_static_part (plain_component component.now) }
{
    component.latency.is_some() || !component.invokes.is_empty()
}

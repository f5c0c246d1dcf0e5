//! Components whose islands become lists.

ghost use Rattle.std.specs.Prelude.{◌≡◌, IfOk, map};
ghost use Rattle.cx_design.specs.PlainForms.{plain_component};
ghost use Rattle.cx_design.specs.PlainDesigns.{plain_design};
ghost use Rattle.cx_static.specs.Lowering.{lowered_component, lowered_of};
ghost use Rattle.cx_static.specs.PlainLowered.{plain_lowered, plain_lowereds};

use crate::control::lower_statement;
use crate::copies::{copied_assigns, copied_cells, copied_groups, copied_name, copied_ports};
use crate::lowered::{Lowered, LoweredComponent};
use crate::lowering::Lowering;
use cx_design::{Checked, Component};
use cx_text::Memory;
use std::alloc::Global;

/// Lowers a design: each island becomes a timed statement, whose timers are cells behind the others. There is no memory for
/// parts that 32 bits do not number, nor for an island of more cycles than a timer counts.
pub fn lower(alloc: Global, design: &Checked) -> Result<Lowered, Memory>
    ensures value { IfOk result (λ l. plain_lowereds l ≡ lowered_of (plain_design design.now)) }
{
    let design = design.design();
    let components = lower_components(alloc, &design.components)?;
    Ok(Lowered::new(components, design.main))
}

/// Lowers components, in order.
fn lower_components(alloc: Global, parts: &[Component]) -> Result<Vec<LoweredComponent>, Memory>
    ensures value { IfOk result
        (λ all. map plain_lowered all.items ≡ map lowered_component (map plain_component parts.now)) }
{
    let mut all = Vec::with_capacity(alloc, parts.len())?;
    for part in parts {
        all.push(lower_component(alloc, part)?)?;
    }
    Ok(all)
}

/// Lowers a component.
fn lower_component(alloc: Global, part: &Component) -> Result<LoweredComponent, Memory>
    ensures value { IfOk result (λ c. plain_lowered c ≡ lowered_component (plain_component part.now)) }
{
    let mut lowering = Lowering {
        cells: copied_cells(alloc, &part.cells)?,
        islands: Vec::new(alloc),
    };
    let control = lower_statement(alloc, part, &part.control, &mut lowering)?;
    let part = Component {
        name: copied_name(alloc, &part.name)?,
        latency: part.latency,
        inputs: copied_ports(alloc, &part.inputs)?,
        outputs: copied_ports(alloc, &part.outputs)?,
        cells: lowering.cells,
        groups: copied_groups(alloc, &part.groups)?,
        invokes: Vec::new(alloc),
        always: copied_assigns(alloc, &part.always)?,
        control,
        place: part.place,
    };
    let islands = lowering.islands;
    Ok(LoweredComponent { part, islands })
}

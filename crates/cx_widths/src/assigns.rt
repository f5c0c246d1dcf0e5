//! The rules on one assignment.

ghost use Rattle.std.specs.Prelude.{◌≡◌, ◌<◌, IfOk, flat_map, length};
ghost use Rattle.cx_rules.specs.Ports.{component_of};
ghost use Rattle.cx_design.specs.PlainForms.{plain_assign};
ghost use Rattle.cx_design.specs.PlainDesigns.{plain_design};
ghost use Rattle.cx_design_parts.specs.Breaks.{first_of, plain_spot};
ghost use Rattle.cx_widths.specs.WidthBreaks.{assign_breaks, operand_breaks, target_break};

use crate::telling::{add_literal, add_port, add_source};
use crate::unequal::{first_unequal, first_wide};
use cx_design::{Assign, Design, PlacedPort};
use cx_design_parts::{FirstBreak, Spot, atoms, is_source_only, operands};
use cx_text::{Memory, Rule};
use std::alloc::Global;

/// Looks at one assignment.
#[tactic(auto, using(cx_design_parts::proofs::Lists::first_append))]
pub fn add_assign(
    alloc: Global,
    first: &mut FirstBreak,
    design: &Design,
    spot: Spot,
    assign: &Assign,
) -> Result<(), Memory>
    requires within { spot.component < length design.now.components.items }
    ensures value { IfOk result (λ _. first.new ≡
        first_of first.old (assign_breaks (component_of (plain_design design.now) spot.component)
        (plain_spot spot) (plain_assign assign.now))) }
{
    let unequal = first_unequal(alloc, design, spot.component, assign)?;
    add_port(
        alloc,
        first,
        design,
        Rule::Width,
        spot,
        assign.place,
        unequal,
    )?;
    let atoms = atoms(alloc, &assign.guard)?;
    let wide = first_wide(design, spot.component, atoms.as_slice());
    add_port(
        alloc,
        first,
        design,
        Rule::GuardWidth,
        spot,
        assign.place,
        wide,
    )?;
    add_target(alloc, first, design, spot, assign)?;
    add_operand(alloc, first, design, spot, assign.source)?;
    let operands = operands(alloc, &assign.guard)?;
    add_operands(alloc, first, design, spot, operands.as_slice())
}

/// Looks at a target.
fn add_target(
    alloc: Global,
    first: &mut FirstBreak,
    design: &Design,
    spot: Spot,
    assign: &Assign,
) -> Result<(), Memory>
    requires within { spot.component < length design.now.components.items }
    ensures value { IfOk result (λ _. first.new ≡
        first_of first.old (target_break (component_of (plain_design design.now) spot.component)
        (plain_spot spot) (plain_assign assign.now))) }
{
    let told = if is_source_only(design, spot.component, assign.target) {
        Some(assign.target)
    } else {
        None
    };
    add_port(
        alloc,
        first,
        design,
        Rule::NotATarget,
        spot,
        assign.place,
        told,
    )
}

/// Looks at the operands of a guard.
#[tactic(auto, using(cx_design_parts::proofs::Lists::first_append))]
fn add_operands(
    alloc: Global,
    first: &mut FirstBreak,
    design: &Design,
    spot: Spot,
    operands: &[PlacedPort],
) -> Result<(), Memory>
    requires within { spot.component < length design.now.components.items }
    ensures value { IfOk result (λ _. first.new ≡
        first_of first.old (flat_map (operand_breaks (component_of (plain_design design.now) spot.component)
        (plain_spot spot)) operands.now)) }
{
    for operand in operands {
        add_operand(alloc, first, design, spot, *operand)?;
    }
    Ok(())
}

/// Looks at a source or an operand of a guard.
#[tactic(auto, using(cx_design_parts::proofs::Lists::first_append))]
pub fn add_operand(
    alloc: Global,
    first: &mut FirstBreak,
    design: &Design,
    spot: Spot,
    operand: PlacedPort,
) -> Result<(), Memory>
    requires within { spot.component < length design.now.components.items }
    ensures value { IfOk result (λ _. first.new ≡
        first_of first.old
        (operand_breaks (component_of (plain_design design.now) spot.component) (plain_spot spot) operand)) }
{
    add_literal(alloc, first, spot, operand)?;
    add_source(alloc, first, design, spot, operand)
}

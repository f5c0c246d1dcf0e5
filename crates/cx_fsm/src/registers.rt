//! The registers of a component, by their widths.

ghost use Rattle.std.specs.Prelude.{◌≡◌, ◌++◌, ◌∷◌, OnOk, IfOk, map, replicate, slice_get};
ghost use Rattle.cx_design.specs.PlainForms.{plain_statement, plain_statements};
ghost use Rattle.cx_meaning.specs.Designs.{Repeat};
ghost use Rattle.cx_static.specs.PlainLowered.{plain_island};
ghost use Rattle.cx_wiring.specs.Counts as wired;

use cx_design::{Form, Statement};
use cx_static::Island;
use cx_text::Memory;
use std::alloc::Global;

/// The registers of a component with this control: first that of its region.
pub(crate) fn control_registers(
    alloc: Global,
    islands: &[Island],
    control: &Statement,
) -> Result<Vec<u8>, Memory>
    ensures value { IfOk result (λ registers.
        registers.items ≡
        32 ∷ wired.registers_of (map plain_island islands.now) (plain_statement control.now)) }
{
    let mut registers = Vec::new(alloc);
    registers.push(32)?;
    statement_registers(islands, &mut registers, control)?;
    Ok(registers)
}

/// Those of a statement.
#[cycle(registers)]
fn statement_registers(
    islands: &[Island],
    registers: &mut Vec<u8>,
    statement: &Statement,
) -> Result<(), Memory>
    ensures value { OnOk result (registers.new.items ≡
        registers.old.items
        ++ wired.registers_of (map plain_island islands.now) (plain_statement statement.now)) }
{
    match &statement.form {
        Form::Empty
        | Form::Enable(_)
        | Form::StaticSeq { .. }
        | Form::StaticPar { .. }
        | Form::StaticIf { .. }
        | Form::StaticRepeat { .. } => Ok(()),
        Form::Seq(parts) => parts_registers(islands, registers, parts.as_slice()),
        Form::Par(arms) => arms_registers(islands, registers, arms.as_slice()),
        Form::If { yes, no, .. } => {
            statement_registers(islands, registers, yes)?;
            statement_registers(islands, registers, no)
        }
        Form::While { body, .. } => statement_registers(islands, registers, body),
        Form::Repeat { count, body } => counted_registers(islands, registers, *count, body),
        Form::StaticInvoke(island) | Form::Timed(island) => sample_registers(
            islands, registers, *island,
        ),
    }
}

/// Those of a `repeat`: the rounds before those of the body.
#[cycle(registers)]
fn counted_registers(
    islands: &[Island],
    registers: &mut Vec<u8>,
    count: u64,
    body: &Statement,
) -> Result<(), Memory>
    ensures value { OnOk result (registers.new.items ≡
        registers.old.items
        ++ wired.form_registers (map plain_island islands.now) (Repeat count (plain_statement body.now))) }
{
    if count == 0 {
        return Ok(());
    }
    registers.push(32)?;
    statement_registers(islands, registers, body)
}

/// Those of the parts of a `seq`.
#[cycle(registers)]
fn parts_registers(
    islands: &[Island],
    registers: &mut Vec<u8>,
    parts: &[Statement],
) -> Result<(), Memory>
    ensures value { OnOk result (registers.new.items ≡
        registers.old.items ++ wired.registers_in (map plain_island islands.now) (plain_statements parts.now)) }
{
    for part in parts {
        statement_registers(islands, registers, part)?;
    }
    Ok(())
}

/// Those of the arms of a `par`: that of the region of each before those in it.
#[cycle(registers)]
fn arms_registers(
    islands: &[Island],
    registers: &mut Vec<u8>,
    arms: &[Statement],
) -> Result<(), Memory>
    ensures value { OnOk result (registers.new.items ≡
        registers.old.items
        ++ wired.arms_registers (map plain_island islands.now) (plain_statements arms.now)) }
{
    for arm in arms {
        registers.push(32)?;
        statement_registers(islands, registers, arm)?;
    }
    Ok(())
}

/// Those of an island: one for each sample.
fn sample_registers(islands: &[Island], registers: &mut Vec<u8>, island: u32) -> Result<(), Memory>
    ensures value { OnOk result (registers.new.items ≡
        registers.old.items ++ wired.sample_registers (slice_get (map plain_island islands.now) island)) }
{
    match islands.get(island as usize) {
        None => Ok(()),
        Some(island) => add_widths(registers, island.points.len(), 1),
    }
}

/// So many of one width.
pub(crate) fn add_widths(widths: &mut Vec<u8>, count: usize, width: u8) -> Result<(), Memory>
    ensures value { OnOk result (widths.new.items ≡ widths.old.items ++ replicate count width) }
{
    for _ in 0..count {
        widths.push(width)?;
    }
    Ok(())
}

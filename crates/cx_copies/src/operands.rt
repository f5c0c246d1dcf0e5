//! Operands and binds, with other names of cells.

ghost use Rattle.std.specs.Prelude.{◌≡◌, IfOk, map};
ghost use Rattle.cx_copies.specs.Naming as naming;

use crate::names::CellNames;
use crate::parts::copied_name;
use cx_ast::{BindItem, OperandForm, OperandItem};
use cx_text::Memory;
use std::alloc::Global;

/// How an operand is written, with other names of cells.
fn named_form<N: CellNames>(
    alloc: Global,
    names: &N,
    form: &OperandForm,
) -> Result<OperandForm, Memory>
    ensures value { IfOk result (λ named. named ≡ naming.named_operand_form (N.renaming names.now) form.now) }
{
    match form {
        OperandForm::Own(port) => Ok(OperandForm::Own(copied_name(alloc, port)?)),
        OperandForm::Port(cell, port) => {
            let cell = names.name(alloc, cell)?;
            Ok(OperandForm::Port(cell, copied_name(alloc, port)?))
        }
        OperandForm::Hole(group, hole) => {
            let group = copied_name(alloc, group)?;
            Ok(OperandForm::Hole(group, copied_name(alloc, hole)?))
        }
        OperandForm::Literal(width, value) => Ok(OperandForm::Literal(*width, *value)),
    }
}

/// A target or an operand, with other names of cells.
pub fn named_operand<N: CellNames>(
    alloc: Global,
    names: &N,
    operand: &OperandItem,
) -> Result<OperandItem, Memory>
    ensures value { IfOk result (λ named. named ≡ naming.named_operand (N.renaming names.now) operand.now) }
{
    let form = named_form(alloc, names, &operand.form)?;
    Ok(OperandItem {
        form,
        place: operand.place,
    })
}

/// The binds of an invoke, with other names of cells.
pub(crate) fn named_binds<N: CellNames>(
    alloc: Global,
    names: &N,
    binds: &[BindItem],
) -> Result<Vec<BindItem>, Memory>
    ensures value { IfOk result (λ named. named.items ≡ map (naming.named_bind (N.renaming names.now)) binds.now) }
{
    let mut named = Vec::with_capacity(alloc, binds.len())?;
    for bind in binds {
        named.push(named_bind(alloc, names, bind)?)?;
    }
    Ok(named)
}

fn named_bind<N: CellNames>(alloc: Global, names: &N, bind: &BindItem) -> Result<BindItem, Memory>
    ensures value { IfOk result (λ named. named ≡ naming.named_bind (N.renaming names.now) bind.now) }
{
    let name = copied_name(alloc, &bind.name)?;
    let value = named_operand(alloc, names, &bind.value)?;
    Ok(BindItem {
        name,
        value,
        place: bind.place,
    })
}

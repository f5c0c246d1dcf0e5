//! Guards, with other names of cells.

ghost use Rattle.std.specs.Prelude.{◌≡◌, IfOk, option_map};
ghost use Rattle.cx_ast.specs.PlainGuards.{guards_of, plain_guard, plain_guards};
ghost use Rattle.cx_copies.specs.Naming as naming;

use crate::names::CellNames;
use crate::operands::named_operand;
use cx_ast::GuardItem;
use cx_text::Memory;
use std::alloc::Global;

/// The guard of an assignment, where there is one, with other names of cells.
pub(crate) fn named_option<N: CellNames>(
    alloc: Global,
    names: &N,
    guard: &Option<GuardItem>,
) -> Result<Option<GuardItem>, Memory>
    ensures value { IfOk result (λ named. option_map plain_guard named ≡
        option_map (naming.named_guard (N.renaming names.now)) (option_map plain_guard guard.now)) }
{
    match guard {
        None => Ok(None),
        Some(guard) => Ok(Some(named_guard(alloc, names, guard)?)),
    }
}

#[cycle(guard)]
fn named_guard<N: CellNames>(
    alloc: Global,
    names: &N,
    guard: &GuardItem,
) -> Result<GuardItem, Memory>
    ensures value { IfOk result
        (λ named. plain_guard named ≡ naming.named_guard (N.renaming names.now) (plain_guard guard.now)) }
{
    match guard {
        GuardItem::Or(parts) => Ok(GuardItem::Or(named_guards(alloc, names, parts)?)),
        GuardItem::And(parts) => Ok(GuardItem::And(named_guards(alloc, names, parts)?)),
        GuardItem::Compare(comparison, left, right) => {
            let left = named_operand(alloc, names, left)?;
            let right = named_operand(alloc, names, right)?;
            Ok(GuardItem::Compare(*comparison, left, right))
        }
        GuardItem::Not(part) => {
            let part = named_guard(alloc, names, part)?;
            Ok(GuardItem::Not(Box::new(alloc, part)?))
        }
        GuardItem::Operand(operand) => Ok(GuardItem::Operand(named_operand(
            alloc, names, operand,
        )?)),
        GuardItem::At(cycle) => Ok(GuardItem::At(*cycle)),
        GuardItem::During(from, to) => Ok(GuardItem::During(*from, *to)),
    }
}

#[cycle(guard)]
fn named_guards<N: CellNames>(
    alloc: Global,
    names: &N,
    guards: &[GuardItem],
) -> Result<Vec<GuardItem>, Memory>
    ensures value { IfOk result (λ named. guards_of (plain_guards named.items) ≡
        naming.named_guards (N.renaming names.now) (guards_of (plain_guards guards.now))) }
{
    let mut named = Vec::with_capacity(alloc, guards.len())?;
    for guard in guards {
        named.push(named_guard(alloc, names, guard)?)?;
    }
    Ok(named)
}

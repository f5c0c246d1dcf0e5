//! The order in which nets are tried: each net behind those that it waits for, but in a loop.

use cx_text::Memory;
use cx_vnets::{Code, Driver, Nets};
use std::alloc::Global;

/// A net that is to be looked at, or one all of whose needs have been.
#[derive(Clone, Copy)]
enum Step {
    Enter(usize),
    Leave(usize),
}

/// Puts the nets that a code reads on the stack, where those of its instance begin at `first`.
fn push_reads(stack: &mut Vec<Step>, code: &Code, first: u32) -> Result<(), Memory> {
    match code {
        Code::Net(net) | Code::Slice(net, _, _) => {
            stack.push(Step::Enter(first as usize + *net as usize))?;
        }
        Code::Literal(_) => {}
        Code::Item(_, inner) | Code::Not(inner) => push_reads(stack, inner, first)?,
        Code::Binary(_, left, right) | Code::Cat(left, right) => {
            push_reads(stack, left, first)?;
            push_reads(stack, right, first)?;
        }
        Code::Choose(test, one, other) => {
            push_reads(stack, test, first)?;
            push_reads(stack, one, first)?;
            push_reads(stack, other, first)?;
        }
    }
    Ok(())
}

/// Puts the nets that a net waits for on the stack.
fn push_needs(stack: &mut Vec<Step>, nets: &Nets, net: usize) -> Result<(), Memory> {
    match nets.drivers.get(net) {
        Some(Driver::Tied(other)) => stack.push(Step::Enter(*other as usize))?,
        Some(Driver::Given(number, place)) => {
            if let Some(code) = nets.codes.get(*number as usize) {
                push_reads(stack, code, place.nets)?;
            }
        }
        Some(Driver::Held) | None => {}
    }
    Ok(())
}

/// Looks at a net, unless it was seen before.
fn enter(nets: &Nets, seen: &mut [bool], stack: &mut Vec<Step>, net: usize) -> Result<(), Memory> {
    if net < seen.len() && !seen[net] {
        seen[net] = true;
        stack.push(Step::Leave(net))?;
        push_needs(stack, nets, net)?;
    }
    Ok(())
}

/// Appends a net.
fn leave(order: &mut Vec<u32>, net: usize) -> Result<(), Memory> {
    if let Ok(number) = u32::try_from(net) {
        order.push(number)?;
    }
    Ok(())
}

/// Takes the steps on the stack: a net is appended once all that it waits for is there.
fn walk(
    nets: &Nets,
    seen: &mut [bool],
    order: &mut Vec<u32>,
    stack: &mut Vec<Step>,
) -> Result<(), Memory> {
    // A net is entered once for each net that reads it and left once, so the stack is empty long before the last step.
    for _step in 0..u64::MAX {
        match stack.pop() {
            None => break,
            Some(Step::Enter(net)) => enter(nets, seen, stack, net)?,
            Some(Step::Leave(net)) => leave(order, net)?,
        }
    }
    Ok(())
}

/// Nets in an order in which each comes behind those that it waits for, but in a loop. Any order is right.
pub(crate) fn order(alloc: Global, nets: &Nets) -> Result<Vec<u32>, Memory> {
    let count = nets.drivers.len();
    let mut seen = vec![in alloc; false; count]?;
    let mut order = Vec::new(alloc);
    let mut stack = Vec::new(alloc);
    for root in 0..count {
        stack.push(Step::Enter(root))?;
        walk(nets, &mut seen, &mut order, &mut stack)?;
    }
    Ok(order)
}

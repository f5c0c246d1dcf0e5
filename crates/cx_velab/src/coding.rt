//! The codes of a module's expressions.

ghost use Rattle.std.specs.Prelude.{◌≡◌, ℕ, [], ◌∷◌, Some, OnOk, map, option_map, slice_get};
ghost use Rattle.cx_vtree.specs.Plain.{PlainItem};
ghost use Rattle.cx_vtree.specs.PlainParts.{plain_expr, plain_assign, plain_item, plain_edge, plain_module};
ghost use Rattle.cx_vnets.specs.ModuleCodes.{HasNumbers};
ghost use Rattle.cx_vnets.specs.Numberings.{nets_by, arrays_by};
ghost use Rattle.cx_velab.specs.Coded.{values_of, item_exprs, items_exprs, edge_exprs, module_exprs, AddsCodes, ItemHasNumbers, AssignsHaveNumbers, EdgeHasNumbers};

use cx_text::Memory;
use cx_vnets::{Code, ModuleNumbers, code};
use cx_vtree::{Edge, EdgeItem, Expr, Module, NetAssign};
use std::alloc::Global;

/// Appends the code of an expression.
fn push_code(
    alloc: Global,
    codes: &mut Vec<Code>,
    numbers: &ModuleNumbers<'_>,
    expr: &Expr,
) -> Result<(), Memory>
    requires { HasNumbers (nets_by numbers.now) (arrays_by numbers.now) (plain_expr expr.now) }
    ensures { OnOk result (AddsCodes (nets_by numbers.now)
        (arrays_by numbers.now) codes.old.items codes.new.items (plain_expr expr.now ∷ [])) }
{
    let made = code(alloc, numbers, expr)?;
    codes.push(made)?;
    Ok(())
}

/// Appends the codes of what is assigned.
fn push_assigns(
    alloc: Global,
    codes: &mut Vec<Code>,
    numbers: &ModuleNumbers<'_>,
    assigns: &[NetAssign],
) -> Result<(), Memory>
    requires { AssignsHaveNumbers (nets_by numbers.now) (arrays_by numbers.now) (map plain_assign assigns.now) }
    ensures { OnOk result (AddsCodes (nets_by numbers.now)
        (arrays_by numbers.now) codes.old.items codes.new.items (values_of (map plain_assign assigns.now))) }
{
    for assign in assigns {
        push_code(alloc, codes, numbers, &assign.value)?;
    }
    Ok(())
}

/// Appends the codes of a set or a store.
fn push_item(
    alloc: Global,
    codes: &mut Vec<Code>,
    numbers: &ModuleNumbers<'_>,
    item: &EdgeItem,
) -> Result<(), Memory>
    requires { ItemHasNumbers (nets_by numbers.now) (arrays_by numbers.now) (plain_item item.now) }
    ensures { OnOk result (AddsCodes (nets_by numbers.now)
        (arrays_by numbers.now) codes.old.items codes.new.items (item_exprs (plain_item item.now))) }
{
    match item {
        EdgeItem::Set(assign) => {
            push_code(alloc, codes, numbers, &assign.value)?;
            Ok(())
        }
        EdgeItem::Store {
            guard,
            array: _,
            index,
            value,
        } => {
            push_code(alloc, codes, numbers, guard)?;
            push_code(alloc, codes, numbers, index)?;
            push_code(alloc, codes, numbers, value)?;
            Ok(())
        }
    }
}

/// Appends the codes of sets and stores.
fn push_items(
    alloc: Global,
    codes: &mut Vec<Code>,
    numbers: &ModuleNumbers<'_>,
    items: &[EdgeItem],
) -> Result<(), Memory>
    requires { (j : ℕ) (x : PlainItem) → slice_get (map plain_item items.now) j ≡ Some x →
        ItemHasNumbers (nets_by numbers.now) (arrays_by numbers.now) x }
    ensures { OnOk result (AddsCodes (nets_by numbers.now)
        (arrays_by numbers.now) codes.old.items codes.new.items (items_exprs (map plain_item items.now))) }
{
    for item in items {
        push_item(alloc, codes, numbers, item)?;
    }
    Ok(())
}

/// Appends the codes of both branches of an edge.
fn push_edge(
    alloc: Global,
    codes: &mut Vec<Code>,
    numbers: &ModuleNumbers<'_>,
    edge: &Option<Edge>,
) -> Result<(), Memory>
    requires { EdgeHasNumbers (nets_by numbers.now) (arrays_by numbers.now) (option_map plain_edge edge.now) }
    ensures { OnOk result (AddsCodes (nets_by numbers.now)
        (arrays_by numbers.now) codes.old.items codes.new.items (edge_exprs (option_map plain_edge edge.now))) }
{
    match edge {
        None => Ok(()),
        Some(edge) => {
            push_assigns(alloc, codes, numbers, &edge.reset)?;
            push_items(alloc, codes, numbers, &edge.step)?;
            Ok(())
        }
    }
}

/// Appends the codes of a module: of its assigns, of the branch with reset, and of the other branch.
pub(crate) fn push_module(
    alloc: Global,
    codes: &mut Vec<Code>,
    numbers: &ModuleNumbers<'_>,
    part: &Module,
) -> Result<(), Memory>
    requires assigns { AssignsHaveNumbers (nets_by numbers.now) (arrays_by numbers.now) (plain_module part.now).assigns }
    requires edge { EdgeHasNumbers (nets_by numbers.now) (arrays_by numbers.now) (plain_module part.now).edge }
    ensures { OnOk result (AddsCodes (nets_by numbers.now)
        (arrays_by numbers.now) codes.old.items codes.new.items (module_exprs (plain_module part.now))) }
{
    push_assigns(alloc, codes, numbers, &part.assigns)?;
    push_edge(alloc, codes, numbers, &part.edge)?;
    Ok(())
}

//! The rules on edges.

ghost use Rattle.std.specs.Prelude.{◌≡◌, [], map, option_map, IfOk};
ghost use Rattle.cx_vtree.specs.PlainParts.{plain_expr, plain_assign, plain_item, plain_edge};
ghost use Rattle.cx_vtree.specs.Sound as sound;
ghost use Rattle.cx_vscope.specs.ScopeValues.{scope_by};
ghost use Rattle.cx_vsound.specs.Search.{faults_in, over};

use crate::search::{LineFaults, Search, after, clean};
use cx_text::{Memory, Name};
use cx_vscope::{
    ModuleScope, Names, has_width, is_array, is_register, shape_of, too_deep, width_of,
};
use cx_vtree::{Edge, EdgeItem, Expr, NetAssign};
use std::alloc::Global;

fn set_faults(scope: &ModuleScope, earlier: &Names, a: &NetAssign) -> LineFaults
    ensures { faults_in result ≡ sound.set_faults (scope_by scope.now) earlier.now (plain_assign a.now) }
{
    let register = scope.meaning(&a.name);
    let value = shape_of(scope, &a.value);
    LineFaults {
        name: !is_register(register) || earlier.has(&a.name) || value.misnamed,
        width: !has_width(value, width_of(register)),
        limit: too_deep(&a.value),
    }
}

fn store_faults(
    scope: &ModuleScope,
    earlier: &Names,
    guard: &Expr,
    array: &Name,
    index: &Expr,
    value: &Expr,
) -> LineFaults
    ensures { faults_in result ≡ sound.store_faults (scope_by scope.now) earlier.now
        (record {
          guard = plain_expr guard.now;
          array = array.now;
          index = plain_expr index.now;
          value = plain_expr value.now;
        }) }
{
    let words = scope.meaning(array);
    let test = shape_of(scope, guard);
    let place = shape_of(scope, index);
    let word = shape_of(scope, value);
    LineFaults {
        name: !is_array(words)
            || earlier.has(array)
            || test.misnamed
            || place.misnamed
            || word.misnamed,
        width: !has_width(test, 1) || place.width.is_none() || !has_width(word, width_of(words)),
        limit: too_deep(guard) || too_deep(index) || too_deep(value),
    }
}

fn item_faults(scope: &ModuleScope, earlier: &Names, item: &EdgeItem) -> LineFaults
    ensures { faults_in result ≡ sound.item_faults (scope_by scope.now) earlier.now (plain_item item.now) }
{
    match item {
        EdgeItem::Set(a) => set_faults(scope, earlier, a),
        EdgeItem::Store {
            guard,
            array,
            index,
            value,
        } => store_faults(scope, earlier, guard, array, index, value),
    }
}

/// The register or the array that is written.
fn item_name(item: &EdgeItem) -> &Name
    ensures { result.now ≡ sound.item_name (plain_item item.now) }
{
    match item {
        EdgeItem::Set(a) => &a.name,
        EdgeItem::Store { array, .. } => array,
    }
}

fn sets(
    alloc: Global,
    search: Search,
    scope: &ModuleScope,
    list: &[NetAssign],
) -> Result<Search, Memory>
    ensures { IfOk result
        (λ s. s ≡ over search (sound.sets_faults (scope_by scope.now) [] (map plain_assign list.now))) }
{
    let mut search = search;
    let mut earlier = Names::new(alloc);
    for a in list {
        search = after(search, set_faults(scope, &earlier, a));
        earlier.push(&a.name)?;
    }
    Ok(search)
}

fn items(
    alloc: Global,
    search: Search,
    scope: &ModuleScope,
    list: &[EdgeItem],
) -> Result<Search, Memory>
    ensures { IfOk result
        (λ s. s ≡ over search (sound.items_faults (scope_by scope.now) [] (map plain_item list.now))) }
{
    let mut search = search;
    let mut earlier = Names::new(alloc);
    for item in list {
        search = after(search, item_faults(scope, &earlier, item));
        earlier.push(item_name(item))?;
    }
    Ok(search)
}

/// Goes on past the lines of an edge.
#[tactic(auto, using(crate::proofs::Overs::over_append))]
fn edge_lines(
    alloc: Global,
    search: Search,
    scope: &ModuleScope,
    e: &Edge,
) -> Result<Search, Memory>
    ensures { IfOk result (λ s. s ≡ over search (sound.edge_faults (scope_by scope.now) (Some (plain_edge e.now)))) }
{
    let search = sets(alloc, clean(clean(search)), scope, &e.reset)?;
    let search = items(alloc, clean(search), scope, &e.step)?;
    Ok(clean(clean(search)))
}

/// Goes on past the lines of an edge where there is one.
pub fn edge(
    alloc: Global,
    search: Search,
    scope: &ModuleScope,
    e: &Option<Edge>,
) -> Result<Search, Memory>
    ensures { IfOk result
        (λ s. s ≡ over search (sound.edge_faults (scope_by scope.now) (option_map plain_edge e.now))) }
{
    match e {
        None => Ok(search),
        Some(e) => edge_lines(alloc, search, scope, e),
    }
}

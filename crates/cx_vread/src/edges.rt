//! The lines of an edge.

ghost use Rattle.std.specs.Prelude.{◌≡◌, codes, map, option_map};
ghost use Rattle.cx_vtree.specs.PlainParts.{plain_expr, plain_assign, plain_item, plain_edge};
ghost use Rattle.cx_vscope.specs.ScopeValues.{scope_by};
ghost use Rattle.cx_vread_exprs.specs.Answers.{Gives, place_of};
ghost use Rattle.cx_vread_exprs.specs.Places.{begins, many, with_front};
ghost use Rattle.cx_vread.specs.Parts as parts;

use crate::lines::assigned;
use cx_text::Name;
use cx_vread_exprs::{Fault, ReadPoint, begins, expect, name, whole_expr};
use cx_vscope::ModuleScope;
use cx_vtree::{Edge, EdgeItem, Expr, NetAssign};
use std::alloc::Global;

/// The line that sets a register.
fn set<'a>(
    alloc: Global,
    scope: &ModuleScope,
    at: ReadPoint<'a>,
) -> Result<(NetAssign, ReadPoint<'a>), Fault>
    ensures { Gives (λ x. (plain_assign x.0, place_of x.1)) result
        (parts.set_at (scope_by scope.now) (place_of at.entry)) }
{
    let at = expect(at, b"      ")?;
    let (name, at) = name(alloc, at)?;
    let at = expect(at, b" <= ")?;
    assigned(alloc, scope, name, at)
}

/// The guard and the array of a line that stores a word.
fn store_head<'a>(
    alloc: Global,
    scope: &ModuleScope,
    at: ReadPoint<'a>,
) -> Result<((Expr, Name), ReadPoint<'a>), Fault>
    ensures { Gives (λ x. ((plain_expr x.0.0, x.0.1), place_of x.1)) result
        (parts.store_head_at (scope_by scope.now) (place_of at.entry)) }
{
    let at = expect(at, b"      if (")?;
    let (guard, at) = whole_expr(alloc, scope, at)?;
    let at = expect(at, b") ")?;
    let (array, at) = name(alloc, at)?;
    let at = expect(at, b"[")?;
    Ok(((guard, array), at))
}

/// The line that stores a word.
fn store<'a>(
    alloc: Global,
    scope: &ModuleScope,
    at: ReadPoint<'a>,
) -> Result<(EdgeItem, ReadPoint<'a>), Fault>
    ensures { Gives (λ x. (plain_item x.0, place_of x.1)) result
        (parts.store_at (scope_by scope.now) (place_of at.entry)) }
{
    let ((guard, array), at) = store_head(alloc, scope, at)?;
    let (index, at) = whole_expr(alloc, scope, at)?;
    let at = expect(at, b"] <= ")?;
    let (value, at) = whole_expr(alloc, scope, at)?;
    let at = expect(at, b";\n")?;
    let item = EdgeItem::Store {
        guard,
        array,
        index,
        value,
    };
    Ok((item, at))
}

/// A line of the branch without reset.
fn item<'a>(
    alloc: Global,
    scope: &ModuleScope,
    at: ReadPoint<'a>,
) -> Result<(EdgeItem, ReadPoint<'a>), Fault>
    ensures { Gives (λ x. (plain_item x.0, place_of x.1)) result
        (parts.item_at (scope_by scope.now) (place_of at.entry)) }
{
    if begins(at, b"      if (") {
        return store(alloc, scope, at);
    }
    let (assign, at) = set(alloc, scope, at)?;
    Ok((EdgeItem::Set(assign), at))
}

/// The lines of the branch with reset.
fn sets<'a>(
    alloc: Global,
    scope: &ModuleScope,
    at: ReadPoint<'a>,
) -> Result<(Vec<NetAssign>, ReadPoint<'a>), Fault>
    ensures { Gives (λ x. (map plain_assign x.0.items, place_of x.1)) result
        (parts.sets_at (scope_by scope.now) (place_of at.entry)) }
{
    let mut list = Vec::new(alloc);
    let mut here = at;
    let mut left = at.rest.len();
    while left > 0 {
        if !begins(here, b"     ") {
            return Ok((list, here));
        }
        let (line, after) = set(alloc, scope, here)?;
        list.push(line)?;
        here = after;
        left -= 1;
    }
    Ok((list, here))
}

/// The lines of the branch without reset.
fn items<'a>(
    alloc: Global,
    scope: &ModuleScope,
    at: ReadPoint<'a>,
) -> Result<(Vec<EdgeItem>, ReadPoint<'a>), Fault>
    ensures { Gives (λ x. (map plain_item x.0.items, place_of x.1)) result
        (parts.items_at (scope_by scope.now) (place_of at.entry)) }
{
    let mut list = Vec::new(alloc);
    let mut here = at;
    let mut left = at.rest.len();
    while left > 0 {
        if !begins(here, b"     ") {
            return Ok((list, here));
        }
        let (line, after) = item(alloc, scope, here)?;
        list.push(line)?;
        here = after;
        left -= 1;
    }
    Ok((list, here))
}

/// The lines of an edge.
fn edge_lines<'a>(
    alloc: Global,
    scope: &ModuleScope,
    at: ReadPoint<'a>,
) -> Result<(Edge, ReadPoint<'a>), Fault>
    ensures { Gives (λ x. (plain_edge x.0, place_of x.1)) result
        (parts.edge_at (scope_by scope.now) (place_of at.entry)) }
{
    let at = expect(at, b"  always @(posedge clk) begin\n    if (reset) begin\n")?;
    let (reset, at) = sets(alloc, scope, at)?;
    let at = expect(at, b"    end else begin\n")?;
    let (step, at) = items(alloc, scope, at)?;
    let at = expect(at, b"    end\n  end\n")?;
    Ok((Edge { reset, step }, at))
}

/// The lines of an edge where there is one.
pub fn edge<'a>(
    alloc: Global,
    scope: &ModuleScope,
    at: ReadPoint<'a>,
) -> Result<(Option<Edge>, ReadPoint<'a>), Fault>
    ensures { Gives (λ x. (option_map plain_edge x.0, place_of x.1)) result
        (parts.edge_or_none_at (scope_by scope.now) (place_of at.entry)) }
{
    if !begins(at, b"  always ") {
        return Ok((None, at));
    }
    let (edge, at) = edge_lines(alloc, scope, at)?;
    Ok((Some(edge), at))
}

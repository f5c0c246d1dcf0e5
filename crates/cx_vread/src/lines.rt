//! The lines of ports, declarations and assigns.

ghost use Rattle.std.specs.Prelude.{◌≡◌, [], ◌∷◌, codes, map};
ghost use Rattle.cx_vtree.specs.PlainParts.{plain_port, plain_assign};
ghost use Rattle.cx_vscope.specs.Drafts.{draft_decl};
ghost use Rattle.cx_vscope.specs.ScopeValues.{scope_by};
ghost use Rattle.cx_vread_exprs.specs.Answers.{Gives, place_of};
ghost use Rattle.cx_vread_exprs.specs.Places.{begins, many, with_front};
ghost use Rattle.cx_vread.specs.Parts as parts;

use cx_text::Name;
use cx_vread_exprs::{Fault, ReadPoint, any_number, begins, bounds, expect, name, whole_expr};
use cx_vscope::{DraftDecl, ModuleScope};
use cx_vtree::{ModulePort, NetAssign};
use std::alloc::Global;

/// A port, from its width to its name.
fn port_of<'a>(
    alloc: Global,
    output: bool,
    at: ReadPoint<'a>,
) -> Result<(ModulePort, ReadPoint<'a>), Fault>
    ensures { Gives (λ x. (plain_port x.0, place_of x.1)) result (parts.port_by output (place_of at.entry)) }
{
    let (width, at) = bounds(at)?;
    let (name, at) = name(alloc, at)?;
    let port = ModulePort {
        output,
        name,
        width,
    };
    Ok((port, at))
}

/// A port, to its name.
pub fn port<'a>(alloc: Global, at: ReadPoint<'a>) -> Result<(ModulePort, ReadPoint<'a>), Fault>
    ensures { Gives (λ x. (plain_port x.0, place_of x.1)) result (parts.port_at (place_of at.entry)) }
{
    if begins(at, b"  output wire ") {
        let at = expect(at, b"  output wire ")?;
        port_of(alloc, true, at)
    } else {
        let at = expect(at, b"  input wire ")?;
        port_of(alloc, false, at)
    }
}

/// A port after the first, from the comma before it on.
fn next_port<'a>(alloc: Global, at: ReadPoint<'a>) -> Result<(ModulePort, ReadPoint<'a>), Fault>
    ensures { Gives (λ x. (plain_port x.0, place_of x.1)) result (parts.next_port_at (place_of at.entry)) }
{
    let at = expect(at, b",\n")?;
    port(alloc, at)
}

/// The ports after the first, behind it.
fn more_ports<'a>(
    alloc: Global,
    first: ModulePort,
    at: ReadPoint<'a>,
) -> Result<(Vec<ModulePort>, ReadPoint<'a>), Fault>
    ensures { Gives (λ x. (map plain_port x.0.items, place_of x.1)) result
        (with_front (plain_port first ∷ []) (parts.more_ports_at (place_of at.entry))) }
{
    let mut list = Vec::new(alloc);
    list.push(first)?;
    let mut here = at;
    let mut left = at.rest.len();
    while left > 0 {
        if !begins(here, b",") {
            return Ok((list, here));
        }
        let (item, after) = next_port(alloc, here)?;
        list.push(item)?;
        here = after;
        left -= 1;
    }
    Ok((list, here))
}

/// The lines of ports, and the line that ends them.
pub fn ports<'a>(
    alloc: Global,
    at: ReadPoint<'a>,
) -> Result<(Vec<ModulePort>, ReadPoint<'a>), Fault>
    ensures { Gives (λ x. (map plain_port x.0.items, place_of x.1)) result (parts.ports_at (place_of at.entry)) }
{
    let (first, at) = port(alloc, at)?;
    let (ports, at) = more_ports(alloc, first, at)?;
    let at = expect(at, b"\n);\n")?;
    Ok((ports, at))
}

/// The end of the line of an array, from its length on.
fn array<'a>(
    alloc: Global,
    name: Name,
    width: u8,
    at: ReadPoint<'a>,
) -> Result<(DraftDecl, ReadPoint<'a>), Fault>
    ensures { Gives (λ x. (draft_decl x.0, place_of x.1)) result (parts.array_by name width (place_of at.entry)) }
{
    let at = expect(at, b" [0:")?;
    let (last, at) = any_number(alloc, at)?;
    let at = expect(at, b"];\n")?;
    let decl = DraftDecl::Array { name, width, last };
    Ok((decl, at))
}

/// The end of the line of a register, which is an array where a length stands.
fn register_of<'a>(
    alloc: Global,
    name: Name,
    width: u8,
    at: ReadPoint<'a>,
) -> Result<(DraftDecl, ReadPoint<'a>), Fault>
    ensures { Gives (λ x. (draft_decl x.0, place_of x.1)) result (parts.register_by name width (place_of at.entry)) }
{
    if begins(at, b";") {
        let at = expect(at, b";\n")?;
        Ok((DraftDecl::Register { name, width }, at))
    } else {
        array(alloc, name, width, at)
    }
}

/// The line of a register or an array, from its width on.
fn register<'a>(alloc: Global, at: ReadPoint<'a>) -> Result<(DraftDecl, ReadPoint<'a>), Fault>
    ensures { Gives (λ x. (draft_decl x.0, place_of x.1)) result (parts.register_at (place_of at.entry)) }
{
    let (width, at) = bounds(at)?;
    let (name, at) = name(alloc, at)?;
    register_of(alloc, name, width, at)
}

/// The line of a wire, from its width on.
fn wire<'a>(alloc: Global, at: ReadPoint<'a>) -> Result<(DraftDecl, ReadPoint<'a>), Fault>
    ensures { Gives (λ x. (draft_decl x.0, place_of x.1)) result (parts.wire_at (place_of at.entry)) }
{
    let (width, at) = bounds(at)?;
    let (name, at) = name(alloc, at)?;
    let at = expect(at, b";\n")?;
    Ok((DraftDecl::Wire { name, width }, at))
}

/// The line of a declaration.
fn decl<'a>(alloc: Global, at: ReadPoint<'a>) -> Result<(DraftDecl, ReadPoint<'a>), Fault>
    ensures { Gives (λ x. (draft_decl x.0, place_of x.1)) result (parts.decl_at (place_of at.entry)) }
{
    if begins(at, b"  reg ") {
        let at = expect(at, b"  reg ")?;
        register(alloc, at)
    } else {
        let at = expect(at, b"  wire ")?;
        wire(alloc, at)
    }
}

/// Whether the line of a declaration begins here.
pub fn is_decl(at: ReadPoint) -> bool
    ensures { result ≡ parts.is_decl (place_of at.entry) }
{
    begins(at, b"  wire ") || begins(at, b"  reg ")
}

/// The lines of declarations.
pub fn decls<'a>(alloc: Global, at: ReadPoint<'a>) -> Result<(Vec<DraftDecl>, ReadPoint<'a>), Fault>
    ensures { Gives (λ x. (map draft_decl x.0.items, place_of x.1)) result (parts.decls_at (place_of at.entry)) }
{
    let mut list = Vec::new(alloc);
    let mut here = at;
    let mut left = at.rest.len();
    while left > 0 {
        if !is_decl(here) {
            return Ok((list, here));
        }
        let (item, after) = decl(alloc, here)?;
        list.push(item)?;
        here = after;
        left -= 1;
    }
    Ok((list, here))
}

/// The end of the line of an assign, from its value on.
pub fn assigned<'a>(
    alloc: Global,
    scope: &ModuleScope,
    name: Name,
    at: ReadPoint<'a>,
) -> Result<(NetAssign, ReadPoint<'a>), Fault>
    ensures { Gives (λ x. (plain_assign x.0, place_of x.1)) result
        (parts.assigned_by (scope_by scope.now) name (place_of at.entry)) }
{
    let (value, at) = whole_expr(alloc, scope, at)?;
    let at = expect(at, b";\n")?;
    Ok((NetAssign { name, value }, at))
}

/// The line of an assign.
fn assign<'a>(
    alloc: Global,
    scope: &ModuleScope,
    at: ReadPoint<'a>,
) -> Result<(NetAssign, ReadPoint<'a>), Fault>
    ensures { Gives (λ x. (plain_assign x.0, place_of x.1)) result
        (parts.assign_at (scope_by scope.now) (place_of at.entry)) }
{
    let at = expect(at, b"  assign ")?;
    let (name, at) = name(alloc, at)?;
    let at = expect(at, b" = ")?;
    assigned(alloc, scope, name, at)
}

/// The lines of assigns.
pub fn assigns<'a>(
    alloc: Global,
    scope: &ModuleScope,
    at: ReadPoint<'a>,
) -> Result<(Vec<NetAssign>, ReadPoint<'a>), Fault>
    ensures { Gives (λ x. (map plain_assign x.0.items, place_of x.1)) result
        (parts.assigns_at (scope_by scope.now) (place_of at.entry)) }
{
    let mut list = Vec::new(alloc);
    let mut here = at;
    let mut left = at.rest.len();
    while left > 0 {
        if !begins(here, b"  assign ") {
            return Ok((list, here));
        }
        let (item, after) = assign(alloc, scope, here)?;
        list.push(item)?;
        here = after;
        left -= 1;
    }
    Ok((list, here))
}

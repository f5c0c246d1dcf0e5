//! The first line with which the lines so far begin no text.

ghost use Rattle.std.specs.Prelude.{◌≡◌, IfOk};
ghost use Rattle.cx_vread_exprs.specs.Answers.{Gives, place_of};
ghost use Rattle.cx_vread.specs.Astray.{FirstAstray};
ghost use Rattle.cx_vread.specs.LineSteps as steps;
ghost use Rattle.cx_vread.specs.declared.astray.Between.TheVariants as spots;

use crate::externals::external;
use crate::instances::{instance, is_instance};
use crate::lines::{is_decl, port};
use cx_text::Memory;
use cx_vread_exprs::{Fault, ReadPoint, begins, bounds, expect, name, pass_expr, small};
use std::alloc::Global;

/// What the lines so far await.
#[derive(Clone, Copy, Debug, PartialEq, Eq)]
pub enum Between {
    /// The line of an external memory, or a module.
    Externals,
    /// A module, or the end of the text.
    Modules,
    /// A port.
    Port,
    /// The line that ends the ports.
    PortsDone,
    /// A declaration, an assign, an instance, an edge or the end of the module.
    Decls,
    /// The same but a declaration.
    Assigns,
    /// The same but an assign.
    Instances,
    /// The line that asks for `reset`.
    Branches,
    /// A line of the branch with reset, or the line that ends it.
    Sets,
    /// A line of the branch without reset, or the line that ends it.
    Items,
    /// The line that ends an edge.
    EdgeDone,
    /// The line that ends a module.
    ModuleDone,
}

/// A fixed text, behind which `next` is awaited.
fn fixed<'a>(
    at: ReadPoint<'a>,
    want: &[u8],
    next: Between,
) -> Result<(Between, ReadPoint<'a>), Fault>
    ensures { Gives (λ x. (x.0, place_of x.1)) result (steps.fixed_by want.now next (place_of at.entry)) }
{
    let at = expect(at, want)?;
    Ok((next, at))
}

/// The line of an external memory.
fn external_line<'a>(alloc: Global, at: ReadPoint<'a>) -> Result<(Between, ReadPoint<'a>), Fault>
    ensures { Gives (λ x. (x.0, place_of x.1)) result (steps.external_line (place_of at.entry)) }
{
    let (_, at) = external(alloc, at)?;
    Ok((Between::Externals, at))
}

/// The first line of a module.
fn module_line<'a>(alloc: Global, at: ReadPoint<'a>) -> Result<(Between, ReadPoint<'a>), Fault>
    ensures { Gives (λ x. (x.0, place_of x.1)) result (steps.module_line (place_of at.entry)) }
{
    let at = expect(at, b"module ")?;
    let (_, at) = name(alloc, at)?;
    fixed(at, b"(\n", Between::Port)
}

/// The line of a port; a comma says that another follows.
fn port_line<'a>(alloc: Global, at: ReadPoint<'a>) -> Result<(Between, ReadPoint<'a>), Fault>
    ensures { Gives (λ x. (x.0, place_of x.1)) result (steps.port_line (place_of at.entry)) }
{
    let (_, at) = port(alloc, at)?;
    if begins(at, b",") {
        fixed(at, b",\n", Between::Port)
    } else {
        fixed(at, b"\n", Between::PortsDone)
    }
}

/// The line of a wire.
fn wire_line<'a>(alloc: Global, at: ReadPoint<'a>) -> Result<(Between, ReadPoint<'a>), Fault>
    ensures { Gives (λ x. (x.0, place_of x.1)) result (steps.wire_line (place_of at.entry)) }
{
    let at = expect(at, b"  wire ")?;
    let (_, at) = bounds(at)?;
    let (_, at) = name(alloc, at)?;
    fixed(at, b";\n", Between::Decls)
}

/// The end of the line of an array. Its length counts for nothing here.
fn array_line<'a>(at: ReadPoint<'a>) -> Result<(Between, ReadPoint<'a>), Fault>
    ensures { Gives (λ x. (x.0, place_of x.1)) result (steps.array_line (place_of at.entry)) }
{
    let at = expect(at, b" [0:")?;
    let (_, at) = small(at)?;
    fixed(at, b"];\n", Between::Decls)
}

/// The line of a register or an array.
fn register_line<'a>(alloc: Global, at: ReadPoint<'a>) -> Result<(Between, ReadPoint<'a>), Fault>
    ensures { Gives (λ x. (x.0, place_of x.1)) result (steps.register_line (place_of at.entry)) }
{
    let at = expect(at, b"  reg ")?;
    let (_, at) = bounds(at)?;
    let (_, at) = name(alloc, at)?;
    if begins(at, b";") {
        fixed(at, b";\n", Between::Decls)
    } else {
        array_line(at)
    }
}

/// The line of a declaration.
fn decl_line<'a>(alloc: Global, at: ReadPoint<'a>) -> Result<(Between, ReadPoint<'a>), Fault>
    ensures { Gives (λ x. (x.0, place_of x.1)) result (steps.decl_line (place_of at.entry)) }
{
    if begins(at, b"  reg ") {
        register_line(alloc, at)
    } else {
        wire_line(alloc, at)
    }
}

/// An expression, and the end of its line.
fn value_line<'a>(
    alloc: Global,
    next: Between,
    at: ReadPoint<'a>,
) -> Result<(Between, ReadPoint<'a>), Fault>
    ensures { Gives (λ x. (x.0, place_of x.1)) result (steps.value_line next (place_of at.entry)) }
{
    let at = pass_expr(alloc, at)?;
    fixed(at, b";\n", next)
}

/// The line of an assign.
fn assign_line<'a>(alloc: Global, at: ReadPoint<'a>) -> Result<(Between, ReadPoint<'a>), Fault>
    ensures { Gives (λ x. (x.0, place_of x.1)) result (steps.assign_line (place_of at.entry)) }
{
    let at = expect(at, b"  assign ")?;
    let (_, at) = name(alloc, at)?;
    let at = expect(at, b" = ")?;
    value_line(alloc, Between::Assigns, at)
}

/// The line of an instance.
fn instance_line<'a>(alloc: Global, at: ReadPoint<'a>) -> Result<(Between, ReadPoint<'a>), Fault>
    ensures { Gives (λ x. (x.0, place_of x.1)) result (steps.instance_line (place_of at.entry)) }
{
    let (_, at) = instance(alloc, at)?;
    Ok((Between::Instances, at))
}

/// The line that sets a register, behind which `next` is awaited.
fn set_line<'a>(
    alloc: Global,
    next: Between,
    at: ReadPoint<'a>,
) -> Result<(Between, ReadPoint<'a>), Fault>
    ensures { Gives (λ x. (x.0, place_of x.1)) result (steps.set_line next (place_of at.entry)) }
{
    let at = expect(at, b"      ")?;
    let (_, at) = name(alloc, at)?;
    let at = expect(at, b" <= ")?;
    value_line(alloc, next, at)
}

/// The guard and the array of a store.
fn store_head<'a>(alloc: Global, at: ReadPoint<'a>) -> Result<ReadPoint<'a>, Fault>
    ensures { Gives place_of result (steps.store_head (place_of at.entry)) }
{
    let at = expect(at, b"      if (")?;
    let at = pass_expr(alloc, at)?;
    let at = expect(at, b") ")?;
    let (_, at) = name(alloc, at)?;
    expect(at, b"[")
}

/// The line that stores a word.
fn store_line<'a>(alloc: Global, at: ReadPoint<'a>) -> Result<(Between, ReadPoint<'a>), Fault>
    ensures { Gives (λ x. (x.0, place_of x.1)) result (steps.store_line (place_of at.entry)) }
{
    let at = store_head(alloc, at)?;
    let at = pass_expr(alloc, at)?;
    let at = expect(at, b"] <= ")?;
    value_line(alloc, Between::Items, at)
}

/// A line of the branch without reset.
fn step_line<'a>(alloc: Global, at: ReadPoint<'a>) -> Result<(Between, ReadPoint<'a>), Fault>
    ensures { Gives (λ x. (x.0, place_of x.1)) result (steps.step_line (place_of at.entry)) }
{
    if begins(at, b"      if (") {
        store_line(alloc, at)
    } else {
        set_line(alloc, Between::Items, at)
    }
}

/// A line of a module behind its instances.
fn after_instances<'a>(at: ReadPoint<'a>) -> Result<(Between, ReadPoint<'a>), Fault>
    ensures { Gives (λ x. (x.0, place_of x.1)) result (steps.after_instances (place_of at.entry)) }
{
    if begins(at, b"  always ") {
        fixed(at, b"  always @(posedge clk) begin\n", Between::Branches)
    } else {
        fixed(at, b"endmodule\n", Between::Modules)
    }
}

/// A line of a module behind its assigns.
fn after_assigns<'a>(alloc: Global, at: ReadPoint<'a>) -> Result<(Between, ReadPoint<'a>), Fault>
    ensures { Gives (λ x. (x.0, place_of x.1)) result (steps.after_assigns (place_of at.entry)) }
{
    if is_instance(at) {
        instance_line(alloc, at)
    } else {
        after_instances(at)
    }
}

/// A line of a module behind its declarations.
fn after_decls<'a>(alloc: Global, at: ReadPoint<'a>) -> Result<(Between, ReadPoint<'a>), Fault>
    ensures { Gives (λ x. (x.0, place_of x.1)) result (steps.after_decls (place_of at.entry)) }
{
    if begins(at, b"  assign ") {
        assign_line(alloc, at)
    } else {
        after_assigns(alloc, at)
    }
}

/// A line before the first module.
fn first_line<'a>(alloc: Global, at: ReadPoint<'a>) -> Result<(Between, ReadPoint<'a>), Fault>
    ensures { Gives (λ x. (x.0, place_of x.1)) result (steps.line_at spots.Externals (place_of at.entry)) }
{
    if begins(at, b"/") {
        external_line(alloc, at)
    } else {
        module_line(alloc, at)
    }
}

/// A line of a module behind its ports.
fn decls_line<'a>(alloc: Global, at: ReadPoint<'a>) -> Result<(Between, ReadPoint<'a>), Fault>
    ensures { Gives (λ x. (x.0, place_of x.1)) result (steps.line_at spots.Decls (place_of at.entry)) }
{
    if is_decl(at) {
        decl_line(alloc, at)
    } else {
        after_decls(alloc, at)
    }
}

/// A line of the branch with reset, or the line that ends it.
fn sets_line<'a>(alloc: Global, at: ReadPoint<'a>) -> Result<(Between, ReadPoint<'a>), Fault>
    ensures { Gives (λ x. (x.0, place_of x.1)) result (steps.line_at spots.Sets (place_of at.entry)) }
{
    if begins(at, b"     ") {
        set_line(alloc, Between::Sets, at)
    } else {
        fixed(at, b"    end else begin\n", Between::Items)
    }
}

/// A line of the branch without reset, or the line that ends it.
fn items_line<'a>(alloc: Global, at: ReadPoint<'a>) -> Result<(Between, ReadPoint<'a>), Fault>
    ensures { Gives (λ x. (x.0, place_of x.1)) result (steps.line_at spots.Items (place_of at.entry)) }
{
    if begins(at, b"     ") {
        step_line(alloc, at)
    } else {
        fixed(at, b"    end\n", Between::EdgeDone)
    }
}

/// One line, by what the lines before await.
fn line<'a>(
    alloc: Global,
    between: Between,
    at: ReadPoint<'a>,
) -> Result<(Between, ReadPoint<'a>), Fault>
    ensures { Gives (λ x. (x.0, place_of x.1)) result (steps.line_at between (place_of at.entry)) }
{
    match between {
        Between::Externals => first_line(alloc, at),
        Between::Modules => module_line(alloc, at),
        Between::Port => port_line(alloc, at),
        Between::PortsDone => fixed(at, b");\n", Between::Decls),
        Between::Decls => decls_line(alloc, at),
        Between::Assigns => after_decls(alloc, at),
        Between::Instances => after_assigns(alloc, at),
        Between::Branches => fixed(at, b"    if (reset) begin\n", Between::Sets),
        Between::Sets => sets_line(alloc, at),
        Between::Items => items_line(alloc, at),
        Between::EdgeDone => fixed(at, b"  end\n", Between::ModuleDone),
        Between::ModuleDone => fixed(at, b"endmodule\n", Between::Modules),
    }
}

/// The first line with which the lines so far begin no text, None where they are one.
pub fn first_astray(alloc: Global, text: &[u8]) -> Result<Option<u32>, Memory>
    ensures { IfOk result (FirstAstray text.now) }
{
    let mut here = ReadPoint { rest: text };
    let mut between = Between::Externals;
    let mut number = 1u32;
    while !here.rest.is_empty() {
        match line(alloc, between, here) {
            Err(Fault::Memory) => return Err(Memory),
            Err(Fault::Syntax(_)) => return Ok(Some(number)),
            Ok(found) => {
                let (next, after) = found;
                between = next;
                here = after;
                number = number.saturating_add(1);
            }
        }
    }
    match between {
        Between::Modules => Ok(None),
        _ => Ok(Some(number)),
    }
}

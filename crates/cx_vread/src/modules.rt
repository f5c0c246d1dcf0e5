//! Modules.

ghost use Rattle.std.specs.Prelude.{◌≡◌, [], ◌∷◌, map};
ghost use Rattle.cx_vtree.specs.PlainParts.{plain_port};
ghost use Rattle.cx_vscope.specs.Drafts.{draft_module, draft_modules};
ghost use Rattle.cx_vscope.specs.Scopes.{scope_of};
ghost use Rattle.cx_vread_exprs.specs.Answers.{Gives, place_of};
ghost use Rattle.cx_vread_exprs.specs.Places.{many, with_front};
ghost use Rattle.cx_vread.specs.Bodies.{plain_body};
ghost use Rattle.cx_vread.specs.Parts as parts;

use crate::edges::edge;
use crate::instances::instances;
use crate::lines::{assigns, decls, ports};
use cx_text::Name;
use cx_vread_exprs::{Fault, ReadPoint, expect, name};
use cx_vscope::{DraftModule, ModuleScope};
use cx_vtree::{Edge, Instance, ModulePort, NetAssign};
use std::alloc::Global;

/// The first line of a module, and its ports.
fn head<'a>(
    alloc: Global,
    at: ReadPoint<'a>,
) -> Result<((Name, Vec<ModulePort>), ReadPoint<'a>), Fault>
    ensures { Gives (λ x. ((x.0.0, map plain_port x.0.1.items), place_of x.1)) result
        (parts.head_at (place_of at.entry)) }
{
    let at = expect(at, b"module ")?;
    let (name, at) = name(alloc, at)?;
    let at = expect(at, b"(\n")?;
    let (ports, at) = ports(alloc, at)?;
    Ok(((name, ports), at))
}

/// The assigns, the instances and the edge of a module.
#[derive(Drop)]
pub struct Body {
    pub assigns: Vec<NetAssign>,
    pub instances: Vec<Instance>,
    pub edge: Option<Edge>,
}

/// The lines of a module behind its declarations; `front` has its ports and its declarations.
fn body_lines<'a>(
    alloc: Global,
    front: &DraftModule,
    at: ReadPoint<'a>,
) -> Result<(Body, ReadPoint<'a>), Fault>
    ensures { Gives (λ x. (plain_body x.0, place_of x.1)) result
        (parts.body_at (scope_of front.now) (place_of at.entry)) }
{
    let scope = ModuleScope::new(alloc, front)?;
    let (assigns, at) = assigns(alloc, &scope, at)?;
    let (instances, at) = instances(alloc, at)?;
    let (edge, at) = edge(alloc, &scope, at)?;
    let at = expect(at, b"endmodule\n")?;
    let body = Body {
        assigns,
        instances,
        edge,
    };
    Ok((body, at))
}

/// The lines of a module.
fn module<'a>(alloc: Global, at: ReadPoint<'a>) -> Result<(DraftModule, ReadPoint<'a>), Fault>
    ensures { Gives (λ x. (draft_module x.0, place_of x.1)) result (parts.module_at (place_of at.entry)) }
{
    let ((name, ports), at) = head(alloc, at)?;
    let (decls, at) = decls(alloc, at)?;
    let mut module = DraftModule {
        name,
        ports,
        decls,
        assigns: Vec::new(alloc),
        instances: Vec::new(alloc),
        edge: None,
    };
    let (found, at) = body_lines(alloc, &module, at)?;
    let Body {
        assigns,
        instances,
        edge,
    } = found;
    module.assigns = assigns;
    module.instances = instances;
    module.edge = edge;
    Ok((module, at))
}

/// Whether bytes are left.
fn is_left(at: ReadPoint) -> bool
    ensures { result ≡ parts.is_left (place_of at.entry) }
{
    at.rest.len() != 0
}

/// The modules after the first, behind it, to the end of the text.
fn more_modules<'a>(
    alloc: Global,
    first: DraftModule,
    at: ReadPoint<'a>,
) -> Result<(Vec<DraftModule>, ReadPoint<'a>), Fault>
    ensures { Gives (λ x. (draft_modules x.0.items, place_of x.1)) result
        (with_front (draft_module first ∷ []) (parts.more_modules_at (place_of at.entry))) }
{
    let mut list = Vec::new(alloc);
    list.push(first)?;
    let mut here = at;
    let mut left = at.rest.len();
    while left > 0 {
        if !is_left(here) {
            return Ok((list, here));
        }
        let (item, after) = module(alloc, here)?;
        list.push(item)?;
        here = after;
        left -= 1;
    }
    Ok((list, here))
}

/// The lines of all modules, to the end of the text.
pub fn read_modules<'a>(
    alloc: Global,
    at: ReadPoint<'a>,
) -> Result<(Vec<DraftModule>, ReadPoint<'a>), Fault>
    ensures { Gives (λ x. (draft_modules x.0.items, place_of x.1)) result (parts.modules_at (place_of at.entry)) }
{
    let (first, at) = module(alloc, at)?;
    more_modules(alloc, first, at)
}

//! Components by number.

ghost use Rattle.std.specs.Prelude.{◌≡◌, IfOk, map};
ghost use Rattle.cx_ast.specs.PlainTree as written;
ghost use Rattle.cx_design.specs.PlainForms.{plain_component};
ghost use Rattle.cx_numbering.specs.Names.{signature_ports};
ghost use Rattle.cx_numbering.specs.DesignOf as design;
ghost use Rattle.cx_names.specs.Sites.{IsSite, tree_at, part_at};

use crate::assigns::always;
use crate::cells::cells;
use crate::control::control;
use crate::drafts::Draft;
use crate::groups::groups;
use crate::sites::Site;
use cx_ast::PortItem;
use cx_design::Component;
use cx_meaning::PortDecl;
use cx_names_scopes::is_own_name;
use cx_text::{Memory, Name};
use std::alloc::Global;

// The width of a port.
fn width(width: u64) -> Result<u8, Memory>
    ensures { IfOk result (λ w. w ≡ width) }
{
    if width > u64::from(u8::MAX) {
        return Err(Memory);
    }
    Ok(width as u8)
}

// A port of the signature.
fn decl(alloc: Global, site: &Site, port: &PortItem) -> Result<PortDecl, Memory>
    ensures { IfOk result
        (λ d. d ≡ design.decl_of (tree_at site.now) (part_at site.now) (written.plain_port port.now)) }
{
    let name = Name::from_bytes(alloc, port.name.bytes())?;
    let width = width(port.width)?;
    Ok(PortDecl { name, width })
}

// The ports of one side but the own ones, in order.
fn decls(alloc: Global, site: &Site, ports: &[PortItem]) -> Result<Vec<PortDecl>, Memory>
    ensures { IfOk result (λ all. all.items ≡
        map (design.decl_of (tree_at site.now) (part_at site.now))
        (signature_ports (map written.plain_port ports.now))) }
{
    let mut all = Vec::with_capacity(alloc, ports.len())?;
    for port in ports {
        if is_own_name(&port.name) {
            continue;
        }
        all.push(decl(alloc, site, port)?)?;
    }
    Ok(all)
}

/// A component.
pub(crate) fn component(alloc: Global, site: &Site) -> Result<Component, Memory>
    requires { IsSite site.now }
    ensures { IfOk result (λ c. plain_component c ≡ design.component_of (tree_at site.now) (part_at site.now)) }
{
    let part = site.scope.part;
    let name = Name::from_bytes(alloc, part.name.bytes())?;
    let inputs = decls(alloc, site, &part.inputs)?;
    let outputs = decls(alloc, site, &part.outputs)?;
    let cells = cells(alloc, site)?;
    let groups = groups(alloc, site, &part.wires)?;
    let always = always(alloc, site, &part.wires)?;
    let mut draft = Draft {
        groups,
        invokes: Vec::new(alloc),
    };
    let control = control(alloc, site, &mut draft)?;
    Ok(Component {
        name,
        latency: part.length,
        inputs,
        outputs,
        cells,
        groups: draft.groups,
        invokes: draft.invokes,
        always,
        control,
        place: part.place,
    })
}
